// The shipping form of a source, written as it is made: a pass over the source's bytes that looks at no table. It is total: it stops where nothing stands that could be read, which does not come up in a source that was read.
#![tactic(auto)]

ghost use Rattle.std.specs.Prelude.{◌≡◌, true, [], ◌∷◌, ◌≤◌, length, set};
ghost use Rattle.std.proofs.Math.Seq.{slice};
ghost use Rattle.grammar.specs.State.{Here, Passed};
ghost use Rattle.lists.specs.Lists.{ends};
ghost use Rattle.shipper.specs.Ship.{passed, piece_end, past_colon, spaced, ship_words, ship_list, line_words, ship_line, ship_one, ship_param, ship_epp, ship_word, ship_decl, ship_decls, item_of, is_end, ship_items, has_arrow, ship_head, ship_rule, ship_rules, ship_programs, rules_from, ship_all};
ghost use Rattle.shipper.specs.Emit.{Emitted, emit, next_count, Wrote, wrote};

use items::Sort;
use keywords::Keyword;
use words::{IntError, QuoteError};

// Where the pass stands in the source, and how many bytes it has written.
#[derive(Clone, Copy)]
pub struct Mark {
    pub at: usize,
    pub n: u32,
}

// What is copied from the source, by how its end is found.
#[derive(Clone, Copy)]
pub enum Piece {
    NamePiece,
    TokenPiece,
    // A name or a quoted token, as in `%expect-unused`.
    SpelledPiece,
    IntPiece,
    StringPiece,
    // To the line's end, and to a single colon.
    LinePiece,
    ColonPiece,
    ActionPiece,
}

// ---- Bytes out. ----

// Past the end there is nothing to write.
fn set_byte(out: &mut [u8], k: usize, c: u8)
    ensures { out.new ≡ set out.old k c }
{
    if k < out.len() {
        out[k] = c;
    }
}

// The count stops at 65,537.
fn next_count(n: u32) -> u32
    ensures { result ≡ next_count n }
{
    if n < 65537 {
        return n + 1;
    }
    n
}

// One byte, where there is room for it.
fn put_byte(out: &mut [u8], n: u32, c: u8) -> u32
    ensures { ◌≡◌ {A = Emitted} (record { n = result; cells = out.new }) (emit (c ∷ []) n out.old) }
{
    set_byte(out, n as usize, c);
    next_count(n)
}

// The bytes of a part of a text.
fn put_part(out: &mut [u8], n: u32, s: &[u8], from: usize, to: usize) -> u32
    requires { to ≤ length s.now }
    ensures { ◌≡◌ {A = Emitted} (record { n = result; cells = out.new }) (emit (slice from to s.now) n out.old) }
{
    let mut m = n;
    for i in from..to {
        m = put_byte(out, m, s[i]);
    }
    m
}

// All bytes of a text.
fn put_text(out: &mut [u8], n: u32, s: &[u8]) -> u32
    ensures { ◌≡◌ {A = Emitted} (record { n = result; cells = out.new }) (emit s.now n out.old) }
{
    put_part(out, n, s, 0, s.len())
}

// A part of the source with a single space before it.
fn put_spaced(out: &mut [u8], n: u32, src: &[u8], from: usize, to: usize) -> u32
    requires { to ≤ length src.now }
    ensures { ◌≡◌ {A = Emitted} (record { n = result; cells = out.new }) (emit (spaced src.now from to) n out.old) }
{
    let m = put_byte(out, n, 32);
    put_part(out, m, src, from, to)
}

// ---- Ends. ----

// Where spacing ends.
fn gap_end(src: &[u8], kind: u32, at: usize, ends_allowed: bool) -> usize
    requires { Here src.now at }
    ensures is { result ≡ passed kind ends_allowed src.now at }
    ensures moved { Passed src.now at result }
{
    match grammar::pass_gap(src, kind, at, ends_allowed) {
        Ok((i, _)) => i,
        Err(_) => at,
    }
}

fn name_end(src: &[u8], at: usize) -> usize
    requires { Here src.now at }
    ensures is { result ≡ piece_end Piece.NamePiece src.now at }
    ensures moved { Passed src.now at result }
{
    match words::parse_name(src, at) {
        Ok(j) => j,
        Err(_) => at,
    }
}

fn token_end(src: &[u8], at: usize) -> usize
    requires { Here src.now at }
    ensures is { result ≡ piece_end Piece.TokenPiece src.now at }
    ensures moved { Passed src.now at result }
{
    match words::parse_token(src, at) {
        Ok((_, end, _)) => end,
        Err(_) => at,
    }
}

fn spelled_end(src: &[u8], at: usize) -> usize
    requires { Here src.now at }
    ensures is { result ≡ piece_end Piece.SpelledPiece src.now at }
    ensures moved { Passed src.now at result }
{
    match lists::spelled(src, at) {
        Ok((_, _, _, end)) => end,
        Err(_) => at,
    }
}

fn int_end(src: &[u8], at: usize) -> usize
    requires { Here src.now at }
    ensures is { result ≡ piece_end Piece.IntPiece src.now at }
    ensures moved { Passed src.now at result }
{
    match words::parse_int(src, at) {
        Ok((_, end)) => end,
        Err(IntError::NoDigits(_)) => at,
        Err(IntError::TooLarge(_)) => at,
    }
}

fn string_end(src: &[u8], at: usize) -> usize
    requires { Here src.now at }
    ensures is { result ≡ piece_end Piece.StringPiece src.now at }
    ensures moved { Passed src.now at result }
{
    match words::parse_string(src, at) {
        Ok(end) => end,
        Err(QuoteError::NotOpened(_)) => at,
        Err(QuoteError::LineInside(_)) => at,
        Err(QuoteError::BadEscape(_)) => at,
        Err(QuoteError::NotClosed(_)) => at,
    }
}

fn colon_end(src: &[u8], at: usize) -> usize
    requires { Here src.now at }
    ensures is { result ≡ piece_end Piece.ColonPiece src.now at }
    ensures moved { Passed src.now at result }
{
    match texts::parse_to_single_colon(src, at) {
        Ok((j, _, _)) => j,
        Err(_) => at,
    }
}

fn action_end(src: &[u8], at: usize) -> usize
    requires { Here src.now at }
    ensures is { result ≡ piece_end Piece.ActionPiece src.now at }
    ensures moved { Passed src.now at result }
{
    if src.len() <= at {
        return at;
    }
    match texts::parse_action(src, at) {
        Ok((end, _, _, _)) => end,
        Err(_) => at,
    }
}

// Where a piece of one sort or another ends.
fn piece_end(src: &[u8], at: usize, what: Piece) -> usize
    requires { Here src.now at }
    ensures is { result ≡ piece_end what src.now at }
    ensures moved { Passed src.now at result }
{
    match what {
        Piece::NamePiece => name_end(src, at),
        Piece::TokenPiece => token_end(src, at),
        Piece::SpelledPiece => spelled_end(src, at),
        Piece::IntPiece => int_end(src, at),
        Piece::StringPiece => string_end(src, at),
        Piece::LinePiece => texts::parse_to_eol(src, at),
        Piece::ColonPiece => colon_end(src, at),
        Piece::ActionPiece => action_end(src, at),
    }
}

// Behind a colon, if one stands here.
fn past_colon(src: &[u8], at: usize) -> usize
    requires { Here src.now at }
    ensures is { result ≡ past_colon src.now at }
    ensures moved { Passed src.now at result }
{
    if scan::is_at(src, at, b':') {
        return at + 1;
    }
    at
}

// ---- Declarations. ----

// Whether a list ends here: at the next `%` or at the source's end.
fn list_ends(src: &[u8], at: usize) -> bool
    ensures { result ≡ ends src.now at }
{
    if src.len() <= at {
        return true;
    }
    src[at] == b'%'
}

// The words of a list up to the next `%`, each with a single space before it.
fn ship_words(src: &[u8], kind: u32, at: usize, what: Piece, out: &mut [u8], n: u32) -> Mark
    requires { Here src.now at }
    ensures is { ◌≡◌ {A = Wrote} (record { at = result.at; n = result.n; cells = out.new }) (wrote (ship_words kind what src.now at) n out.old) }
    ensures moved { Passed src.now at result.at }
{
    let mut i = at;
    let mut m = n;
    loop {
        if list_ends(src, i) {
            return Mark { at: i, n: m };
        }
        let e = piece_end(src, i, what);
        if e <= i {
            return Mark { at: i, n: m };
        }
        m = put_spaced(out, m, src, i, e);
        i = gap_end(src, kind, e, true);
    }
}

// A list on a line of its own; nothing where it has no word.
fn ship_list(
    src: &[u8],
    kind: u32,
    word: &[u8],
    at: usize,
    what: Piece,
    out: &mut [u8],
    n: u32,
) -> Mark
    requires { Here src.now at }
    ensures is { ◌≡◌ {A = Wrote} (record { at = result.at; n = result.n; cells = out.new }) (wrote (ship_list kind word.now what src.now at) n out.old) }
    ensures moved { Passed src.now at result.at }
{
    if list_ends(src, at) {
        return Mark { at, n };
    }
    let m = put_text(out, n, word);
    let r = ship_words(src, kind, at, what, out, m);
    let end = r.at;
    let k = put_byte(out, r.n, 10);
    Mark { at: end, n: k }
}

// The words of a line: up to where the spacing behind one counted a line end.
fn line_words(src: &[u8], kind: u32, at: usize, out: &mut [u8], n: u32) -> Mark
    requires { Here src.now at }
    ensures is { ◌≡◌ {A = Wrote} (record { at = result.at; n = result.n; cells = out.new }) (wrote (line_words kind src.now at) n out.old) }
    ensures moved { Passed src.now at result.at }
{
    let mut i = at;
    let mut m = n;
    loop {
        let e = token_end(src, i);
        if e <= i {
            return Mark { at: i, n: m };
        }
        m = put_spaced(out, m, src, i, e);
        match grammar::pass_gap(src, kind, e, true) {
            Ok((j, lines)) => {
                if lines != 0 {
                    return Mark { at: j, n: m };
                }
                i = j;
            }
            Err(_) => {
                return Mark { at: e, n: m };
            }
        }
    }
}

fn ship_line(src: &[u8], kind: u32, word: &[u8], at: usize, out: &mut [u8], n: u32) -> Mark
    requires { Here src.now at }
    ensures is { ◌≡◌ {A = Wrote} (record { at = result.at; n = result.n; cells = out.new }) (wrote (ship_line kind word.now src.now at) n out.old) }
    ensures moved { Passed src.now at result.at }
{
    let m = put_text(out, n, word);
    let r = line_words(src, kind, at, out, m);
    let end = r.at;
    let k = put_byte(out, r.n, 10);
    Mark { at: end, n: k }
}

// A declaration of one text.
fn ship_one(
    src: &[u8],
    kind: u32,
    word: &[u8],
    at: usize,
    what: Piece,
    out: &mut [u8],
    n: u32,
) -> Mark
    requires { Here src.now at }
    ensures is { ◌≡◌ {A = Wrote} (record { at = result.at; n = result.n; cells = out.new }) (wrote (ship_one kind word.now what src.now at) n out.old) }
    ensures moved { Passed src.now at result.at }
{
    let e = piece_end(src, at, what);
    let m = put_text(out, n, word);
    let k = put_spaced(out, m, src, at, e);
    let l = put_byte(out, k, 10);
    Mark {
        at: gap_end(src, kind, e, true),
        n: l,
    }
}

// `%parse-param`: a text to its colon, and one to the line's end.
fn ship_param(src: &[u8], kind: u32, word: &[u8], at: usize, out: &mut [u8], n: u32) -> Mark
    requires { Here src.now at }
    ensures is { ◌≡◌ {A = Wrote} (record { at = result.at; n = result.n; cells = out.new }) (wrote (ship_param kind word.now src.now at) n out.old) }
    ensures moved { Passed src.now at result.at }
{
    let e = colon_end(src, at);
    let k = gap_end(src, kind, past_colon(src, e), false);
    let l = texts::parse_to_eol(src, k);
    let a = put_text(out, n, word);
    let b = put_spaced(out, a, src, at, e);
    let c = put_byte(out, b, 58);
    let d = put_spaced(out, c, src, k, l);
    let f = put_byte(out, d, 10);
    Mark {
        at: gap_end(src, kind, l, true),
        n: f,
    }
}

// `%epp`: a key as it is spelled, and a string.
fn ship_epp(src: &[u8], kind: u32, word: &[u8], at: usize, out: &mut [u8], n: u32) -> Mark
    requires { Here src.now at }
    ensures is { ◌≡◌ {A = Wrote} (record { at = result.at; n = result.n; cells = out.new }) (wrote (ship_epp kind word.now src.now at) n out.old) }
    ensures moved { Passed src.now at result.at }
{
    let e = token_end(src, at);
    let k = gap_end(src, kind, e, false);
    let l = string_end(src, k);
    let a = put_text(out, n, word);
    let b = put_spaced(out, a, src, at, e);
    let c = put_spaced(out, b, src, k, l);
    let d = put_byte(out, c, 10);
    Mark {
        at: gap_end(src, kind, l, true),
        n: d,
    }
}

// One declaration by its keyword: `at` is where it begins, `j` behind the keyword and its spacing.
fn ship_word(
    src: &[u8],
    kind: u32,
    word: Keyword,
    at: usize,
    j: usize,
    out: &mut [u8],
    n: u32,
) -> Mark
    requires { Here src.now at × Here src.now j × (at ≤ j) }
    ensures is { ◌≡◌ {A = Wrote} (record { at = result.at; n = result.n; cells = out.new }) (wrote (ship_word word kind src.now at j) n out.old) }
    ensures moved { Passed src.now at result.at }
{
    match word {
        Keyword::Percents => Mark { at, n },
        Keyword::TokenWord => ship_list(src, kind, b"%token", j, Piece::TokenPiece, out, n),
        Keyword::ActiontypeWord => ship_one(src, kind, b"%actiontype", j, Piece::LinePiece, out, n),
        Keyword::StartWord => ship_one(src, kind, b"%start", j, Piece::NamePiece, out, n),
        Keyword::EppWord => ship_epp(src, kind, b"%epp", j, out, n),
        Keyword::ExpectRrWord => ship_one(src, kind, b"%expect-rr", j, Piece::IntPiece, out, n),
        Keyword::ExpectUnusedWord => {
            ship_list(src, kind, b"%expect-unused", j, Piece::SpelledPiece, out, n)
        },
        Keyword::ExpectWord => ship_one(src, kind, b"%expect", j, Piece::IntPiece, out, n),
        Keyword::AvoidInsertWord => ship_line(src, kind, b"%avoid_insert", j, out, n),
        Keyword::ParseParamWord => ship_param(src, kind, b"%parse-param", j, out, n),
        Keyword::ParseGenericsWord => ship_one(
            src,
            kind,
            b"%parse-generics",
            j,
            Piece::LinePiece,
            out,
            n,
        ),
        Keyword::ImplicitTokensWord => ship_line(src, kind, b"%implicit_tokens", j, out, n),
        Keyword::LeftWord => ship_line(src, kind, b"%left", j, out, n),
        Keyword::RightWord => ship_line(src, kind, b"%right", j, out, n),
        Keyword::NonassocWord => ship_line(src, kind, b"%nonassoc", j, out, n),
        Keyword::PrologueWord => Mark { at, n },
        Keyword::UnionWord => Mark { at, n },
        Keyword::TypeWord => Mark { at, n },
        Keyword::NoKeyword => Mark { at, n },
    }
}

fn ship_declaration(src: &[u8], kind: u32, at: usize, out: &mut [u8], n: u32) -> Mark
    requires { Here src.now at }
    ensures is { ◌≡◌ {A = Wrote} (record { at = result.at; n = result.n; cells = out.new }) (wrote (ship_decl kind src.now at) n out.old) }
    ensures moved { Passed src.now at result.at }
{
    let seen = keywords::look(src, at, kind);
    let word = seen.word;
    let j = gap_end(src, kind, seen.end, false);
    ship_word(src, kind, word, at, j, out, n)
}

// Declarations, as long as they move on.
fn ship_declarations(src: &[u8], kind: u32, at: usize, out: &mut [u8], n: u32) -> Mark
    requires { Here src.now at }
    ensures is { ◌≡◌ {A = Wrote} (record { at = result.at; n = result.n; cells = out.new }) (wrote (ship_decls kind src.now at) n out.old) }
    ensures moved { Passed src.now at result.at }
{
    let mut i = at;
    let mut m = n;
    loop {
        if src.len() <= i {
            return Mark { at: i, n: m };
        }
        let r = ship_declaration(src, kind, i, out, m);
        if r.at <= i {
            return r;
        }
        i = r.at;
        m = r.n;
    }
}

// ---- Rules. ----

// A text and the spacing behind `e`.
fn ship_mark(src: &[u8], kind: u32, e: usize, text: &[u8], out: &mut [u8], n: u32) -> Mark
    requires { Here src.now e }
    ensures is { ◌≡◌ {A = Wrote} (record { at = result.at; n = result.n; cells = out.new }) (wrote (record { text = text.now; at = passed kind true src.now e }) n out.old) }
    ensures moved { Passed src.now e result.at }
{
    let m = put_text(out, n, text);
    Mark {
        at: gap_end(src, kind, e, true),
        n: m,
    }
}

// A piece from the source with a space before it, and the spacing behind it.
fn ship_piece(src: &[u8], kind: u32, at: usize, what: Piece, out: &mut [u8], n: u32) -> Mark
    requires { Here src.now at }
    ensures is { ◌≡◌ {A = Wrote} (record { at = result.at; n = result.n; cells = out.new }) (wrote (record { text = spaced src.now at (piece_end what src.now at); at = passed kind true src.now (piece_end what src.now at) }) n out.old) }
    ensures moved { Passed src.now at result.at }
{
    let e = piece_end(src, at, what);
    let m = put_spaced(out, n, src, at, e);
    Mark {
        at: gap_end(src, kind, e, true),
        n: m,
    }
}

// One item by its sort: `at` is where it begins, `e` where its mark ends.
fn ship_sort(src: &[u8], kind: u32, sort: Sort, at: usize, e: usize, out: &mut [u8], n: u32) -> Mark
    requires { Here src.now at × Here src.now e × (at ≤ e) }
    ensures is { ◌≡◌ {A = Wrote} (record { at = result.at; n = result.n; cells = out.new }) (wrote (item_of sort kind src.now at e) n out.old) }
    ensures moved { Passed src.now at result.at }
{
    match sort {
        Sort::BarSort => ship_mark(src, kind, e, b"\n|", out, n),
        Sort::EndSort => ship_mark(src, kind, e, b" ;\n", out, n),
        Sort::QuotedSort => ship_piece(src, kind, at, Piece::TokenPiece, out, n),
        Sort::PrecSort => {
            let m = put_text(out, n, b" %prec");
            ship_piece(
                src,
                kind,
                gap_end(src, kind, e, true),
                Piece::TokenPiece,
                out,
                m,
            )
        }
        Sort::ActionSort => ship_piece(src, kind, at, Piece::ActionPiece, out, n),
        Sort::EmptySort => ship_mark(src, kind, e, b" %empty", out, n),
        Sort::BareSort => ship_piece(src, kind, at, Piece::TokenPiece, out, n),
    }
}

// Whether an item is the `;` of its rule.
fn is_end(sort: Sort) -> bool
    ensures { result ≡ is_end sort }
{
    match sort {
        Sort::BarSort => false,
        Sort::EndSort => true,
        Sort::QuotedSort => false,
        Sort::PrecSort => false,
        Sort::ActionSort => false,
        Sort::EmptySort => false,
        Sort::BareSort => false,
    }
}

// The items of a rule, to its `;`.
fn ship_items(src: &[u8], kind: u32, at: usize, out: &mut [u8], n: u32) -> Mark
    requires { Here src.now at }
    ensures is { ◌≡◌ {A = Wrote} (record { at = result.at; n = result.n; cells = out.new }) (wrote (ship_items kind src.now at) n out.old) }
    ensures moved { Passed src.now at result.at }
{
    let mut i = at;
    let mut m = n;
    loop {
        let seen = items::look_item(src, i);
        let sort = seen.sort;
        let r = ship_sort(src, kind, sort, i, seen.end, out, m);
        if is_end(sort) {
            return r;
        }
        if r.at <= i {
            return r;
        }
        i = r.at;
        m = r.n;
    }
}

// Whether a type follows a rule's name.
fn has_arrow(src: &[u8], kind: u32, at: usize) -> bool
    ensures { result ≡ has_arrow kind src.now at }
{
    if kind != 2 {
        return false;
    }
    scan::starts(src, at, b"->")
}

// A rule's head up to its colon.
fn ship_head(src: &[u8], kind: u32, at: usize, out: &mut [u8], n: u32) -> Mark
    requires { Here src.now at }
    ensures is { ◌≡◌ {A = Wrote} (record { at = result.at; n = result.n; cells = out.new }) (wrote (ship_head kind src.now at) n out.old) }
    ensures moved { Passed src.now at result.at }
{
    let e = name_end(src, at);
    let j = gap_end(src, kind, e, true);
    let m = put_part(out, n, src, at, e);
    if !has_arrow(src, kind, j) {
        return ship_mark(src, kind, past_colon(src, j), b":", out, m);
    }
    let a = put_text(out, m, b" ->");
    let k = gap_end(src, kind, j + 2, true);
    let l = colon_end(src, k);
    let b = put_spaced(out, a, src, k, l);
    ship_mark(src, kind, past_colon(src, l), b":", out, b)
}

fn ship_rule(src: &[u8], kind: u32, at: usize, out: &mut [u8], n: u32) -> Mark
    requires { Here src.now at }
    ensures is { ◌≡◌ {A = Wrote} (record { at = result.at; n = result.n; cells = out.new }) (wrote (ship_rule kind src.now at) n out.old) }
    ensures moved { Passed src.now at result.at }
{
    let h = ship_head(src, kind, at, out, n);
    ship_items(src, kind, h.at, out, h.n)
}

// Rules to a second `%%` or to the source's end.
fn ship_rules(src: &[u8], kind: u32, at: usize, out: &mut [u8], n: u32) -> Mark
    requires { Here src.now at }
    ensures is { ◌≡◌ {A = Wrote} (record { at = result.at; n = result.n; cells = out.new }) (wrote (ship_rules kind src.now at) n out.old) }
    ensures moved { Passed src.now at result.at }
{
    let mut i = at;
    let mut m = n;
    loop {
        if src.len() <= i {
            return Mark { at: i, n: m };
        }
        if scan::starts(src, i, b"%%") {
            return Mark { at: i, n: m };
        }
        let r = ship_rule(src, kind, i, out, m);
        if r.at <= i {
            return r;
        }
        i = r.at;
        m = r.n;
    }
}

// A second `%%` and what stands behind it.
fn ship_programs(src: &[u8], kind: u32, at: usize, out: &mut [u8], n: u32) -> Mark
    requires { Here src.now at }
    ensures is { ◌≡◌ {A = Wrote} (record { at = result.at; n = result.n; cells = out.new }) (wrote (ship_programs kind src.now at) n out.old) }
    ensures moved { Passed src.now at result.at }
{
    if !scan::starts(src, at, b"%%") {
        return Mark { at, n };
    }
    let end = src.len();
    let m = put_text(out, n, b"%%\n");
    let k = put_part(out, m, src, gap_end(src, kind, at + 2, true), end);
    Mark { at: end, n: k }
}

// Where the rules begin: behind the first `%%`.
fn rules_from(src: &[u8], kind: u32, at: usize) -> usize
    requires { Here src.now at }
    ensures is { result ≡ rules_from kind src.now at }
    ensures moved { Passed src.now at result }
{
    if scan::starts(src, at, b"%%") {
        return gap_end(src, kind, at + 2, true);
    }
    at
}

// The whole text; answers how many bytes it has, or 65,537 if there are more than 65,536.
pub fn ship_all(src: &[u8], kind: u32, out: &mut [u8]) -> u32
    requires { Here src.now 0 }
    ensures { ◌≡◌ {A = Emitted} (record { n = result; cells = out.new }) (emit (ship_all kind src.now) 0 out.old) }
{
    let d = ship_declarations(src, kind, gap_end(src, kind, 0, true), out, 0);
    let m = put_text(out, d.n, b"%%\n");
    let r = ship_rules(src, kind, rules_from(src, kind, d.at), out, m);
    let p = ship_programs(src, kind, r.at, out, r.n);
    p.n
}
