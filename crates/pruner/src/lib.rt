// Pruning: rows that nothing keeps are dropped, and what is left closes up.
#![tactic(auto)]

ghost use Rattle.std.specs.Prelude.{◌≡◌, ◌+◌, ◌*◌, ◌^◌, ◌<◌, ◌≤◌, length};
ghost use Rattle.tables.specs.Layout.{tokens, rules, productions, symbols, symbols_from, symbols_to, width};
ghost use Rattle.tables.specs.Rows.{Chained};
ghost use Rattle.tables.specs.Table.{cell};
ghost use Rattle.index.specs.Index.{entries};
ghost use Rattle.finder.specs.Finder.{Held};
ghost use Rattle.grammar.specs.Sound.{Tables, Indexes};
ghost use Rattle.sound.specs.Test.{count_at};
ghost use Rattle.reach.specs.Reach.{token_sort};
ghost use Rattle.closing.specs.Close.{Step, rank, table_of, by_bit, closed, close_up};
ghost use Rattle.pruning.specs.Pruned.{name_stays, row_stays, rule_stays, production_stays, chained, productions_left, symbols_left, counts_left, Lent, Prunings};
ghost use Rattle.pruner.specs.Moving.{Ranked, number_in, moved_symbol, moved_symbols, symbols_step, LinkStep, link_step};
ghost use Rattle.pruner.specs.Asked.{Mentioned, Mentions, mentions_left, Owned, Movable, Linked, Closable, Links, links_left, Leaves};

use grammar::{Counts, Singles};
use pruning::PruningError;
use validation::ValidityError;

// How many rows of tables 3 and 5 stay.
#[derive(Clone, Copy)]
pub struct Mentioning {
    pub avoided: u32,
    pub epps: u32,
}

// How many productions stay, and how many symbols they have.
#[derive(Clone, Copy)]
pub struct Linking {
    pub rows: u32,
    pub symbols: u32,
}

// The answer, and the counts that are left; after a refusal those that were.
#[derive(Clone, Copy)]
pub struct Outcome {
    pub answer: Result<(), PruningError>,
    pub counts: Counts,
}

// ---- tables 3 and 5

// The bit of token 0, behind the rules' words.
fn token_base(c: Counts) -> usize
    ensures is { result ≡ (token_sort c).base }
    ensures low { result < 2 ^ 40 }
{
    reach::words_for(sound::rows_of(c, tables::RULES)) * 32
}

// Whether the name is that of a token that stays, or of no token. The finder leads to all tokens.
fn name_stays(src: &[u8], c: Counts, t1: &[u32], fx: &[u16], ws: &[u32], a: u32, b: u32) -> bool
    requires { Held src.now (width tokens) 0 (count_at c tokens) t1.now fx.now }
    ensures { result ≡ name_stays src.now c t1.now ws.now a b }
{
    let n = sound::rows_of(c, tables::TOKENS);
    let base = token_base(c);
    match finder::find(src, t1, tables::TOKEN_WIDTH, tables::NAME, n, fx, a, b) {
        Some(t) => bits::test_bit(ws, base + t as usize),
        None => true,
    }
}

// Of `n` rows those stay whose name does, which stands in the cells `k` and `k + 1`. Answers how many.
fn close_named(
    t: &mut [u32],
    w: u32,
    k: u8,
    n: u32,
    src: &[u8],
    c: Counts,
    t1: &[u32],
    fx: &[u16],
    ws: &[u32],
) -> u32
    requires { (n * w ≤ length t.old) × Held src.now (width tokens) 0 (count_at c tokens) t1.now fx.now }
    ensures { ◌≡◌ {A = Step} (record { count = result; cells = t.new }) (closed (row_stays src.now c t1.now ws.now w k t.old) w n t.old) }
{
    let first = k as u32;
    let second = first + 1;
    let mut m = 0;
    for r in 0..n {
        let a = tables::cell(t, w, r, first);
        let b = tables::cell(t, w, r, second);
        let stays = name_stays(src, c, t1, fx, ws, a, b);
        m = closing::keep_row(t, w, stays, r, m);
    }
    closing::zero_from(t, (m as usize) * (w as usize));
    m
}

// Tables 3 and 5, by a finder that leads to all tokens.
fn close_held(
    t3: &mut [u32],
    t5: &mut [u32],
    src: &[u8],
    c: Counts,
    t1: &[u32],
    fx: &[u16],
    ws: &[u32],
) -> Mentioning
    requires { Mentioned src.now c t1.now t3.old t5.old × Held src.now (width tokens) 0 (count_at c tokens) t1.now fx.now }
    ensures { ◌≡◌ {A = Mentions} (record { avoided = result.avoided; epps = result.epps; t3 = t3.new; t5 = t5.new }) (mentions_left src.now c t1.now t3.old t5.old ws.now) }
{
    let avoided = close_named(
        t3,
        tables::NAME_WIDTH,
        tables::NAME,
        sound::rows_of(c, tables::AVOIDED),
        src,
        c,
        t1,
        fx,
        ws,
    );
    let epps = close_named(
        t5,
        tables::EPP_WIDTH,
        tables::KEY_NAME,
        sound::rows_of(c, tables::EPPS),
        src,
        c,
        t1,
        fx,
        ws,
    );
    Mentioning { avoided, epps }
}

// All tokens are entered first.
fn close_by(
    t3: &mut [u32],
    t5: &mut [u32],
    src: &[u8],
    c: Counts,
    t1: &[u32],
    fx: &mut [u16],
    ws: &[u32],
) -> Mentioning
    requires { Mentioned src.now c t1.now t3.old t5.old }
    ensures { ◌≡◌ {A = Mentions} (record { avoided = result.avoided; epps = result.epps; t3 = t3.new; t5 = t5.new }) (mentions_left src.now c t1.now t3.old t5.old ws.now) }
{
    let n = sound::rows_of(c, tables::TOKENS);
    finder::enter_rows(src, t1, tables::TOKEN_WIDTH, tables::NAME, n, fx);
    close_held(t3, t5, src, c, t1, fx, ws)
}

// Without slots, where there is nothing to look up, so that no token is entered either.
fn close_none(
    t3: &mut [u32],
    t5: &mut [u32],
    src: &[u8],
    c: Counts,
    t1: &[u32],
    ws: &[u32],
) -> Mentioning
    requires { Mentioned src.now c t1.now t3.old t5.old }
    ensures { ◌≡◌ {A = Mentions} (record { avoided = result.avoided; epps = result.epps; t3 = t3.new; t5 = t5.new }) (mentions_left src.now c t1.now t3.old t5.old ws.now) }
{
    let none = [0u16; 0];
    close_held(t3, t5, src, c, t1, &none, ws)
}

// With `N` slots: few are soon cleared, many do for every grammar that is read.
fn close_in<const N: usize>(
    t3: &mut [u32],
    t5: &mut [u32],
    src: &[u8],
    c: Counts,
    t1: &[u32],
    ws: &[u32],
) -> Mentioning
    requires { Mentioned src.now c t1.now t3.old t5.old × (N < 2 ^ 40) }
    ensures { ◌≡◌ {A = Mentions} (record { avoided = result.avoided; epps = result.epps; t3 = t3.new; t5 = t5.new }) (mentions_left src.now c t1.now t3.old t5.old ws.now) }
{
    let mut fx = [0u16; N];
    close_by(t3, t5, src, c, t1, &mut fx, ws)
}

// Tables 3 and 5; few tokens want few slots.
fn close_mentions(
    t3: &mut [u32],
    t5: &mut [u32],
    src: &[u8],
    c: Counts,
    t1: &[u32],
    ws: &[u32],
) -> Mentioning
    requires { Mentioned src.now c t1.now t3.old t5.old }
    ensures { ◌≡◌ {A = Mentions} (record { avoided = result.avoided; epps = result.epps; t3 = t3.new; t5 = t5.new }) (mentions_left src.now c t1.now t3.old t5.old ws.now) }
{
    let avoided = sound::rows_of(c, tables::AVOIDED) as usize;
    let epps = sound::rows_of(c, tables::EPPS) as usize;
    if avoided + epps == 0 {
        return close_none(t3, t5, src, c, t1, ws);
    }
    if sound::rows_of(c, tables::TOKENS) <= finder::FEW_ROWS {
        return close_in::<{ finder::FEW_SLOTS }>(t3, t5, src, c, t1, ws);
    }
    close_in::<{ finder::MANY_SLOTS }>(t3, t5, src, c, t1, ws)
}

// ---- new numbers

// How many of `r + 1` rows stay, of which `m` are before row `r`.
fn next_rank(ws: &[u32], base: usize, r: u32, m: u32) -> u32
    requires { (m ≡ rank (by_bit ws.now base) r) × (r < 4294967295) × (base < 2 ^ 40) }
    ensures { result ≡ rank (by_bit ws.now base) (r + 1) }
{
    if bits::test_bit(ws, base + r as usize) {
        return m + 1;
    }
    m
}

// Slot `r` becomes the new number of row `r`: an index is filled anew behind the renumbering, and has as many slots as there are rows.
fn write_ranks(ix: &mut [u32], ws: &[u32], base: usize, n: u32)
    requires { (n ≤ length ix.old) × (base < 2 ^ 40) }
    ensures { Ranked (by_bit ws.now base) n ix.new }
{
    let mut m = 0;
    for r in 0..n {
        ix[r as usize] = m;
        m = next_rank(ws, base, r, m);
    }
}

// The new number of a symbol's row.
fn number_of(kind: u32, r: u32, i1: &[u32], i7: &[u32]) -> u32
    ensures { result ≡ number_in i1.now i7.now kind r }
{
    if kind == 1 {
        return tables::cell_in_row(i7, r);
    }
    tables::cell_in_row(i1, r)
}

// ---- table 9

// Symbol `from` moves to `to`, with its new number.
fn move_symbol(t9: &mut [u32], from: u32, to: u32, i1: &[u32], i7: &[u32])
    requires { (to ≤ from) × (from * width symbols + width symbols ≤ length t9.old) }
    ensures { t9.new ≡ moved_symbol i1.now i7.now from to t9.old }
{
    let w = tables::SYMBOL_WIDTH;
    let kind = tables::cell(t9, w, from, 0);
    let old = tables::cell(t9, w, from, tables::KNOWN_ROW);
    let new = number_of(kind, old, i1, i7);
    tables::set_cell(t9, w, from, tables::KNOWN_ROW, new);
    closing::move_row(t9, w, from, to);
}

fn move_symbols(t9: &mut [u32], from: u32, to: u32, n: u32, i1: &[u32], i7: &[u32])
    requires { (to ≤ from) × ((from + n) * width symbols ≤ length t9.old) × (from + n ≤ 4294967295) }
    ensures { t9.new ≡ moved_symbols i1.now i7.now from to n t9.old }
{
    for k in 0..n {
        move_symbol(t9, from + k, to + k, i1, i7);
    }
}

// Whether production `p` stays: whether its rule does.
fn production_stays(ws: &[u32], t8: &[u32], p: u32) -> bool
    ensures { result ≡ production_stays ws.now t8.now p }
{
    let rule = tables::cell(t8, tables::PRODUCTION_WIDTH, p, tables::RULE_ROW);
    bits::test_bit(ws, rule as usize)
}

// The symbols of production `p`, if it stays, join the `m` before them. Answers how many there are then.
fn keep_symbols(
    t9: &mut [u32],
    t8: &[u32],
    p: u32,
    m: u32,
    ws: &[u32],
    i1: &[u32],
    i7: &[u32],
) -> u32
    requires { (m ≤ cell (width productions) t8.now p symbols_from) × (cell (width productions) t8.now p symbols_from ≤ cell (width productions) t8.now p symbols_to) × (cell (width productions) t8.now p symbols_to * width symbols ≤ length t9.old) }
    ensures { ◌≡◌ {A = Step} (record { count = result; cells = t9.new }) (symbols_step (production_stays ws.now t8.now p) i1.now i7.now (cell (width productions) t8.now p symbols_from) (cell (width productions) t8.now p symbols_to) m t9.old) }
{
    if !production_stays(ws, t8, p) {
        return m;
    }
    let from = tables::cell(t8, tables::PRODUCTION_WIDTH, p, tables::FIRST);
    let to = tables::cell(t8, tables::PRODUCTION_WIDTH, p, tables::LAST);
    let n = to - from;
    move_symbols(t9, from, m, n, i1, i7);
    m + n
}

// The symbols of productions that stay, one behind the other. Answers how many.
fn close_symbols(t9: &mut [u32], t8: &[u32], c: Counts, ws: &[u32], i1: &[u32], i7: &[u32]) -> u32
    requires { Movable c ws.now i1.now i7.now t8.now t9.old }
    ensures { ◌≡◌ {A = Step} (record { count = result; cells = t9.new }) (record { count = length (symbols_left c t8.now t9.old ws.now); cells = table_of (length t9.old) (symbols_left c t8.now t9.old ws.now) }) }
{
    let n = sound::rows_of(c, tables::PRODUCTIONS);
    let mut m = 0;
    for p in 0..n {
        m = keep_symbols(t9, t8, p, m, ws, i1, i7);
    }
    closing::zero_from(t9, (m as usize) * (tables::SYMBOL_WIDTH as usize));
    m
}

// ---- table 8

// Production `p`, if it stays, joins the `m` before it, which have `e` symbols: with its rule's new number, and its symbols from `e` on.
fn keep_production(t8: &mut [u32], p: u32, m: u32, e: u32, ws: &[u32], i7: &[u32]) -> Linking
    requires { (m ≤ p) × (p < 4294967295) × (p * width productions + width productions ≤ length t8.old) × (cell (width productions) t8.old p symbols_from ≤ cell (width productions) t8.old p symbols_to) × (e ≤ cell (width productions) t8.old p symbols_from) }
    ensures { ◌≡◌ {A = LinkStep} (record { rows = result.rows; symbols = result.symbols; cells = t8.new }) (link_step (production_stays ws.now t8.old p) i7.now p m e t8.old) }
{
    if !production_stays(ws, t8, p) {
        return Linking {
            rows: m,
            symbols: e,
        };
    }
    let w = tables::PRODUCTION_WIDTH;
    let rule = tables::cell(t8, w, p, tables::RULE_ROW);
    let from = tables::cell(t8, w, p, tables::FIRST);
    let to = tables::cell(t8, w, p, tables::LAST);
    let end = e + (to - from);
    let new = tables::cell_in_row(i7, rule);
    tables::set_cell(t8, w, p, tables::RULE_ROW, new);
    tables::set_cell(t8, w, p, tables::FIRST, e);
    tables::set_cell(t8, w, p, tables::LAST, end);
    closing::move_row(t8, w, p, m);
    Linking {
        rows: m + 1,
        symbols: end,
    }
}

// The productions that stay, with new numbers, the symbols of each behind those of the one before. Answers how many.
fn close_productions(t8: &mut [u32], c: Counts, ws: &[u32], i7: &[u32]) -> u32
    requires { (count_at c productions * width productions ≤ length t8.old) × Chained (width productions) symbols_from symbols_to (count_at c productions) t8.old (count_at c symbols) × Owned c t8.old × Ranked (rule_stays ws.now) (count_at c rules) i7.now }
    ensures { ◌≡◌ {A = Step} (record { count = result; cells = t8.new }) (record { count = length (productions_left c t8.old ws.now); cells = table_of (length t8.old) (chained ws.now 0 (productions_left c t8.old ws.now)) }) }
{
    let n = sound::rows_of(c, tables::PRODUCTIONS);
    let mut m = 0;
    let mut e = 0;
    for p in 0..n {
        let k = keep_production(t8, p, m, e, ws, i7);
        m = k.rows;
        e = k.symbols;
    }
    closing::zero_from(t8, (m as usize) * (tables::PRODUCTION_WIDTH as usize));
    m
}

// Tables 9 and 8, by numbers that the indexes hold meanwhile.
fn close_linked(
    t8: &mut [u32],
    t9: &mut [u32],
    i1: &mut [u32],
    i7: &mut [u32],
    c: Counts,
    ws: &[u32],
) -> Linking
    requires { Linked c t8.old t9.old i1.old i7.old }
    ensures { ◌≡◌ {A = Links} (record { productions = result.rows; symbols = result.symbols; t8 = t8.new; t9 = t9.new }) (links_left c t8.old t9.old ws.now) }
{
    write_ranks(i1, ws, token_base(c), sound::rows_of(c, tables::TOKENS));
    write_ranks(i7, ws, 0, sound::rows_of(c, tables::RULES));
    let symbols = close_symbols(t9, t8, c, ws, i1, i7);
    let rows = close_productions(t8, c, ws, i7);
    Linking { rows, symbols }
}

// ---- tables 1 and 7, and all of them

// An index anew: zero, and then the `n` rows in order.
fn fill_index(src: &[u8], t: &[u32], w: u32, n: u32, ix: &mut [u32])
    ensures { ix.new ≡ entries src.now w 0 t.now (length ix.old) n }
{
    tables::zero(ix);
    index::enter_rows(src, t, w, tables::NAME, n, ix);
}

// Of `n` rows those stay whose bit is 1, and the index follows. Answers how many.
fn close_names(
    t: &mut [u32],
    w: u32,
    n: u32,
    ix: &mut [u32],
    src: &[u8],
    ws: &[u32],
    base: usize,
) -> u32
    requires { (n * w ≤ length t.old) × (base < 2 ^ 40) }
    ensures is { ◌≡◌ {A = Step} (record { count = result; cells = t.new }) (close_up ws.now base w n t.old) }
    ensures indexed { ix.new ≡ entries src.now w 0 t.new (length ix.old) result }
{
    let m = closing::close_up(t, w, n, ws, base);
    fill_index(src, t, w, m, ix);
    m
}

// The six counts that change.
fn counts_left(c: Counts, a: u32, b: u32, d: u32, e: u32, f: u32, g: u32) -> Counts
    ensures { result ≡ counts_left c a b d e f g }
{
    let mut k = c;
    k.n[tables::TOKENS as usize] = a;
    k.n[tables::AVOIDED as usize] = b;
    k.n[tables::EPPS as usize] = d;
    k.n[tables::RULES as usize] = e;
    k.n[tables::PRODUCTIONS as usize] = f;
    k.n[tables::SYMBOLS as usize] = g;
    k
}

// All rows close up by the bits. Tables 3 and 5 go first, since their names are looked up in table 1 as it was; 9 goes before 8, whose ranges it reads.
fn close_all(
    src: &[u8],
    c: Counts,
    t1: &mut [u32],
    t3: &mut [u32],
    t5: &mut [u32],
    t7: &mut [u32],
    t8: &mut [u32],
    t9: &mut [u32],
    i1: &mut [u32],
    i7: &mut [u32],
    ws: &[u32],
) -> Counts
    requires { Closable src.now c (record { t1 = t1.now; t3 = t3.old; t5 = t5.old; t7 = t7.old; t8 = t8.old; t9 = t9.old; i1 = i1.old; i7 = i7.old }) }
    ensures { Leaves src.now c (record { t1 = t1.old; t3 = t3.old; t5 = t5.old; t7 = t7.old; t8 = t8.old; t9 = t9.old; i1 = i1.old; i7 = i7.old }) ws.now result (record { t1 = t1.new; t3 = t3.new; t5 = t5.new; t7 = t7.new; t8 = t8.new; t9 = t9.new; i1 = i1.new; i7 = i7.new }) }
{
    let m = close_mentions(t3, t5, src, c, t1, ws);
    let l = close_linked(t8, t9, i1, i7, c, ws);
    let rules = sound::rows_of(c, tables::RULES);
    let e = close_names(t7, tables::RULE_WIDTH, rules, i7, src, ws, 0);
    let tokens = sound::rows_of(c, tables::TOKENS);
    let a = close_names(t1, tables::TOKEN_WIDTH, tokens, i1, src, ws, token_base(c));
    counts_left(c, a, m.avoided, m.epps, e, l.rows, l.symbols)
}

// Drops what neither the start nor an excused rule or token keeps. 44 and validate's number come first, then 42 for the work bits; after a refusal nothing has changed but the bits, which are zero.
pub fn prune(
    src: &[u8],
    c: Counts,
    g: Singles,
    t1: &mut [u32],
    t2: &[u32],
    t3: &mut [u32],
    t4: &[u32],
    t5: &mut [u32],
    t6: &[u32],
    t7: &mut [u32],
    t8: &mut [u32],
    t9: &mut [u32],
    t10: &[u32],
    i1: &mut [u32],
    i7: &mut [u32],
    work: &mut [u32],
) -> Outcome
    ensures { Prunings src.now g result.answer (record { counts = c; tables = record { t1 = t1.old; t2 = t2.now; t3 = t3.old; t4 = t4.now; t5 = t5.old; t6 = t6.now; t7 = t7.old; t8 = t8.old; t9 = t9.old; t10 = t10.now }; indexes = record { tokens = i1.old; rules = i7.old }; work = work.old }) (record { counts = result.counts; tables = record { t1 = t1.new; t2 = t2.now; t3 = t3.new; t4 = t4.now; t5 = t5.new; t6 = t6.now; t7 = t7.new; t8 = t8.new; t9 = t9.new; t10 = t10.now }; indexes = record { tokens = i1.new; rules = i7.new }; work = work.new }) }
{
    match validator::validate(src, c, g, t1, t2, t3, t4, t5, t6, t7, t8, t9, t10, i1, i7) {
        Ok(()) => {
            let start = g.start;
            if !staying::mark_staying(work, src, c, start, t1, t4, t6, t7, t8, t9, i1, i7) {
                return Outcome {
                    answer: Err(PruningError::PruningNoWords),
                    counts: c,
                };
            }
            let d = close_all(src, c, t1, t3, t5, t7, t8, t9, i1, i7, work);
            Outcome {
                answer: Ok(()),
                counts: d,
            }
        }
        Err(ValidityError::UnsoundTables) => {
            tables::zero(work);
            Outcome {
                answer: Err(PruningError::PruningUnsound),
                counts: c,
            }
        }
        Err(ValidityError::Invalid(f)) => {
            tables::zero(work);
            Outcome {
                answer: Err(PruningError::PruningInvalid(f)),
                counts: c,
            }
        }
    }
}
