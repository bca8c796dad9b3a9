// The items of a production, and the productions of a rule up to its `;`. A production is drafted as its items come, and joins table 8 at `|` or `;`; its
// symbols join table 9 at once.
#![tactic(auto)]

ghost use Rattle.std.specs.Prelude.{◌≡◌, ◌≤◌, length};
ghost use Rattle.grammar.specs.State.{Out1, Out2, Here, Passed, Moves, Onward, Tokens};
ghost use Rattle.tables.specs.Layout.{tokens, symbols, width};
ghost use Rattle.tables.specs.Table.{room};
ghost use Rattle.finder.specs.Finder.{Held};
ghost use Rattle.items.specs.Items.{Inside, sort_at, Spots, begun, with_prec, with_action, token_symbol, quoted_rows, quoted_item, prec_name, prec_item, may_end, after_action, action_item, may_follow, empty_item, symbol_kind, bare_item, end_production, bar_item, end_item, Made0, Made1, Made2, Made3, item_step, item_list, Itemed};
ghost use Rattle.items.specs.declared.Sort.TheVariants.{QuotedSort, BareSort};
ghost use Rattle.items.specs.Quick.{ran_state, Quickly, tokens_now, Ran};

use grammar::{Answer, Cause, Refusal, State, Step};
use productions::Production;

// What stands at a place in a production.
#[derive(Clone, Copy)]
pub enum Sort {
    BarSort,
    EndSort,
    QuotedSort,
    PrecSort,
    ActionSort,
    EmptySort,
    BareSort,
}

// The sort of an item, and where the mark that told it ends.
#[derive(Clone, Copy)]
pub struct Spotted {
    pub sort: Sort,
    pub end: usize,
}

// What an item came to, with the production under way.
#[derive(Clone, Copy)]
pub struct Drafted {
    pub answer: Answer,
    pub state: State,
    pub draft: Production,
}

// Where a run of symbols ends, how many tokens and symbols there are then, and where the last symbol's word ends.
#[derive(Clone, Copy)]
pub struct Run {
    pub at: usize,
    pub tokens: u32,
    pub symbols: u32,
    pub to: u32,
}

pub fn spot(sort: Sort, end: usize) -> Spotted
    ensures { result ≡ record { sort = sort; end = end } }
{
    Spotted { sort, end }
}

// The first mark, in the order of the source document, that stands here.
pub fn look_item(src: &[u8], at: usize) -> Spotted
    requires { at ≤ length src.now }
    ensures is { result ≡ sort_at src.now at }
    ensures moved { Spots src.now at result }
{
    if scan::starts(src, at, b"|") {
        return spot(Sort::BarSort, at + 1);
    }
    if scan::starts(src, at, b";") {
        return spot(Sort::EndSort, at + 1);
    }
    if scan::starts(src, at, b"\"") {
        return spot(Sort::QuotedSort, at + 1);
    }
    if scan::starts(src, at, b"'") {
        return spot(Sort::QuotedSort, at + 1);
    }
    if scan::starts(src, at, b"%prec") {
        return spot(Sort::PrecSort, at + 5);
    }
    if scan::starts(src, at, b"{") {
        return spot(Sort::ActionSort, at + 1);
    }
    if scan::starts(src, at, b"%empty") {
        return spot(Sort::EmptySort, at + 6);
    }
    spot(Sort::BareSort, at)
}

// A production of which nothing was read yet; it would begin at `from`.
pub fn begin(rule: u32, from: u32, first: u32) -> Production
    ensures { result ≡ begun rule from first }
{
    Production {
        rule,
        from,
        to: from,
        first,
        last: first,
        prec: None,
        action: None,
    }
}

// What a step came to, with the production under way.
pub fn carry(r: Step, d: Production) -> Drafted
    ensures { result ≡ record { answer = r.answer; state = r.state; draft = d } }
{
    let answer = r.answer;
    let state = r.state;
    Drafted {
        answer,
        state,
        draft: d,
    }
}

// The production with the name of its `%prec`, and with its action.
pub fn with_prec(d: Production, from: u32, to: u32) -> Production
    ensures { result ≡ with_prec d from to }
{
    let action = d.action;
    Production {
        rule: d.rule,
        from: d.from,
        to: d.to,
        first: d.first,
        last: d.last,
        prec: Some((from, to)),
        action,
    }
}

pub fn with_action(d: Production, a: u32, b: u32, c: u32, e: u32) -> Production
    ensures { result ≡ with_action d a b c e }
{
    let prec = d.prec;
    Production {
        rule: d.rule,
        from: d.from,
        to: d.to,
        first: d.first,
        last: d.last,
        prec,
        action: Some((a, b, c, e)),
    }
}

// A quoted symbol is a token and joins table 1, undeclared; then table 9.
pub fn token_symbol(
    src: &[u8],
    s: State,
    from: u32,
    to: u32,
    t1: &mut [u32],
    t9: &mut [u32],
    i1: &mut [u16],
) -> Step
    requires { Tokens src.now s.counts t1.old i1.old }
    ensures is { ◌≡◌ {A = Out2} (record { answer = result.answer; state = result.state; a = t1.new; b = t9.new }) (token_symbol src.now s from to t1.old t9.old) }
    ensures kept { result.state.at ≡ s.at }
    ensures indexed { Tokens src.now result.state.counts t1.new i1.new }
{
    let e = grammar::enter(src, s, from, to, false, t1, i1);
    let a = e.answer;
    let next = e.state;
    match a {
        Answer::Going => {
            let row = [2, from, to, 0];
            grammar::push(next, tables::SYMBOLS, &row, t9)
        }
        Answer::Done => Step {
            answer: Answer::Done,
            state: next,
        },
        Answer::Refused(f) => Step {
            answer: Answer::Refused(f),
            state: next,
        },
    }
}

// The spacing behind a quoted symbol's word, which ends at `end`, comes before its rows.
pub fn quoted_rows(
    src: &[u8],
    s: State,
    d: Production,
    from: u32,
    to: u32,
    end: usize,
    t1: &mut [u32],
    t9: &mut [u32],
    i1: &mut [u16],
) -> Drafted
    requires { Here src.now end × Tokens src.now s.counts t1.old i1.old }
    ensures is { ◌≡◌ {A = Made2} (record { answer = result.answer; state = result.state; draft = result.draft; a = t1.new; b = t9.new }) (quoted_rows src.now s d from to end t1.old t9.old) }
    ensures moved { Onward src.now end s.at result.answer result.state.at }
    ensures indexed { Tokens src.now result.state.counts t1.new i1.new }
{
    match grammar::pass_gap(src, s.kind, end, true) {
        Ok((i, _)) => {
            let mut n = s;
            n.at = i;
            let r = token_symbol(src, n, from, to, t1, t9, i1);
            let mut made = d;
            made.to = end as u32;
            carry(r, made)
        }
        Err(f) => Drafted {
            answer: Answer::Refused(f),
            state: s,
            draft: d,
        },
    }
}

pub fn quoted_item(
    src: &[u8],
    s: State,
    d: Production,
    t1: &mut [u32],
    t9: &mut [u32],
    i1: &mut [u16],
) -> Drafted
    requires { Here src.now s.at × Tokens src.now s.counts t1.old i1.old }
    ensures is { ◌≡◌ {A = Made2} (record { answer = result.answer; state = result.state; draft = result.draft; a = t1.new; b = t9.new }) (quoted_item src.now s d t1.old t9.old) }
    ensures moved { Moves src.now s.at result.answer result.state.at }
    ensures indexed { Tokens src.now result.state.counts t1.new i1.new }
{
    let at = s.at;
    match words::parse_token(src, at) {
        Ok((p, end, _)) => { quoted_rows(src, s, d, p.from as u32, p.to as u32, end, t1, t9, i1) }
        Err(k) => Drafted {
            answer: Answer::Refused(Refusal::Fault(Cause::IllegalString, k as u32)),
            state: s,
            draft: d,
        },
    }
}

// The name behind `%prec` is a token and joins table 1, undeclared; a later `%prec` replaces an earlier one.
pub fn prec_name(src: &[u8], s: State, d: Production, t1: &mut [u32], i1: &mut [u16]) -> Drafted
    requires { Here src.now s.at × Tokens src.now s.counts t1.old i1.old }
    ensures is { ◌≡◌ {A = Made1} (record { answer = result.answer; state = result.state; draft = result.draft; a = t1.new }) (prec_name src.now s d t1.old) }
    ensures moved { Passed src.now s.at result.state.at }
    ensures indexed { Tokens src.now result.state.counts t1.new i1.new }
{
    let at = s.at;
    match words::parse_token(src, at) {
        Ok((p, end, _)) => {
            let from = p.from as u32;
            let to = p.to as u32;
            let e = grammar::enter(src, s, from, to, false, t1, i1);
            let q = grammar::pass_on(src, e, end, false);
            let mut made = with_prec(d, from, to);
            made.to = end as u32;
            carry(q, made)
        }
        Err(k) => Drafted {
            answer: Answer::Refused(Refusal::Fault(Cause::IllegalString, k as u32)),
            state: s,
            draft: d,
        },
    }
}

// `%prec`, behind its keyword.
pub fn prec_item(src: &[u8], s: State, d: Production, t1: &mut [u32], i1: &mut [u16]) -> Drafted
    requires { Here src.now s.at × Tokens src.now s.counts t1.old i1.old }
    ensures is { ◌≡◌ {A = Made1} (record { answer = result.answer; state = result.state; draft = result.draft; a = t1.new }) (prec_item src.now s d t1.old) }
    ensures moved { Passed src.now s.at result.state.at }
    ensures indexed { Tokens src.now result.state.counts t1.new i1.new }
{
    let at = s.at;
    match grammar::pass_gap(src, s.kind, at, true) {
        Ok((i, _)) => {
            let mut n = s;
            n.at = i;
            prec_name(src, n, d, t1, i1)
        }
        Err(f) => Drafted {
            answer: Answer::Refused(f),
            state: s,
            draft: d,
        },
    }
}

// Whether `|` or `;` stands here.
pub fn may_end(src: &[u8], k: usize) -> bool
    ensures { result ≡ may_end src.now k }
{
    scan::is_at(src, k, b'|') | scan::is_at(src, k, b';')
}

// Behind an action, which ends at `end`, only `|` or `;` may stand.
pub fn after_action(src: &[u8], s: State, d: Production, end: usize) -> Drafted
    requires { Here src.now end }
    ensures is { ◌≡◌ {A = Made0} (record { answer = result.answer; state = result.state; draft = result.draft }) (after_action src.now s d end) }
    ensures moved { Onward src.now end s.at result.answer result.state.at }
{
    match grammar::pass_gap(src, s.kind, end, true) {
        Ok((i, _)) => {
            let mut n = s;
            n.at = i;
            if may_end(src, i) {
                return Drafted {
                    answer: Answer::Going,
                    state: n,
                    draft: d,
                };
            }
            Drafted {
                answer: Answer::Refused(Refusal::Fault(Cause::NotTerminated, i as u32)),
                state: n,
                draft: d,
            }
        }
        Err(f) => Drafted {
            answer: Answer::Refused(f),
            state: s,
            draft: d,
        },
    }
}

// The action whose brace opens where the state stands; its production ends at the brace.
pub fn action_item(src: &[u8], s: State, d: Production) -> Drafted
    requires { Inside src.now s.at }
    ensures is { ◌≡◌ {A = Made0} (record { answer = result.answer; state = result.state; draft = result.draft }) (action_item src.now s d) }
    ensures moved { Moves src.now s.at result.answer result.state.at }
{
    let at = s.at;
    match texts::parse_action(src, at) {
        Ok((end, _, text, span)) => {
            let mut made = with_action(
                d,
                text.from as u32,
                text.to as u32,
                span.from as u32,
                span.to as u32,
            );
            made.to = at as u32;
            after_action(src, s, made, end)
        }
        Err(i) => Drafted {
            answer: Answer::Refused(Refusal::Fault(Cause::IncompleteAction, i as u32)),
            state: s,
            draft: d,
        },
    }
}

// Whether `|`, `;`, `{` or `%prec` stands here.
pub fn may_follow(src: &[u8], k: usize) -> bool
    ensures { result ≡ may_follow src.now k }
{
    may_end(src, k) | scan::is_at(src, k, b'{') | scan::starts(src, k, b"%prec")
}

// `%empty`, which begins at `first`, behind its keyword: no symbol before it, and the production's end or a `%prec` after it.
pub fn empty_item(src: &[u8], s: State, d: Production, first: u32) -> Drafted
    requires { Here src.now s.at }
    ensures is { ◌≡◌ {A = Made0} (record { answer = result.answer; state = result.state; draft = result.draft }) (empty_item src.now s d first) }
    ensures moved { Passed src.now s.at result.state.at }
{
    let at = s.at;
    match grammar::pass_gap(src, s.kind, at, true) {
        Ok((k, _)) => {
            let no_symbol = grammar::count_of(s, tables::SYMBOLS) == d.first;
            if no_symbol & may_follow(src, k) {
                let mut n = s;
                n.at = k;
                let mut made = d;
                made.to = at as u32;
                return Drafted {
                    answer: Answer::Going,
                    state: n,
                    draft: made,
                };
            }
            Drafted {
                answer: Answer::Refused(Refusal::Fault(Cause::NonEmptyProduction, first)),
                state: s,
                draft: d,
            }
        }
        Err(f) => Drafted {
            answer: Answer::Refused(f),
            state: s,
            draft: d,
        },
    }
}

// A bare symbol is a token only if `%token` declared it, else a rule.
pub fn symbol_kind(src: &[u8], n: u32, t1: &[u32], i1: &[u16], from: u32, to: u32) -> u32
    requires { Held src.now (width tokens) 0 n t1.now i1.now }
    ensures { result ≡ symbol_kind src.now n t1.now from to }
{
    match finder::find(src, t1, tables::TOKEN_WIDTH, tables::NAME, n, i1, from, to) {
        Some(r) => {
            if tables::cell(t1, tables::TOKEN_WIDTH, r, tables::DECLARED) == 1 {
                2
            } else {
                1
            }
        }
        None => 1,
    }
}

// A bare symbol's row comes before the spacing behind it.
pub fn bare_item(
    src: &[u8],
    s: State,
    d: Production,
    t1: &[u32],
    t9: &mut [u32],
    i1: &[u16],
) -> Drafted
    requires { Here src.now s.at × Tokens src.now s.counts t1.now i1.now }
    ensures is { ◌≡◌ {A = Made1} (record { answer = result.answer; state = result.state; draft = result.draft; a = t9.new }) (bare_item src.now s d t1.now t9.old) }
    ensures moved { Moves src.now s.at result.answer result.state.at }
    ensures indexed { Tokens src.now result.state.counts t1.now i1.now }
{
    let at = s.at;
    match words::parse_token(src, at) {
        Ok((p, end, _)) => {
            let from = p.from as u32;
            let to = p.to as u32;
            let kind = symbol_kind(src, grammar::count_of(s, tables::TOKENS), t1, i1, from, to);
            let row = [kind, from, to, 0];
            let r = grammar::push(s, tables::SYMBOLS, &row, t9);
            let q = grammar::pass_on(src, r, end, false);
            let mut made = d;
            made.to = end as u32;
            carry(q, made)
        }
        Err(k) => Drafted {
            answer: Answer::Refused(Refusal::Fault(Cause::IllegalString, k as u32)),
            state: s,
            draft: d,
        },
    }
}

// The drafted production takes the symbols since it began, and joins table 8.
pub fn end_production(s: State, d: Production, t8: &mut [u32]) -> Step
    ensures is { ◌≡◌ {A = Out1} (record { answer = result.answer; state = result.state; a = t8.new }) (end_production s d t8.old) }
    ensures kept { result.state.at ≡ s.at }
{
    let mut made = d;
    made.last = grammar::count_of(s, tables::SYMBOLS);
    productions::add_production(s, made, t8)
}

// Behind a `|`: the next production begins behind the spacing.
pub fn bar_item(src: &[u8], s: State, d: Production, t8: &mut [u32]) -> Drafted
    requires { Here src.now s.at }
    ensures is { ◌≡◌ {A = Made1} (record { answer = result.answer; state = result.state; draft = result.draft; a = t8.new }) (bar_item src.now s d t8.old) }
    ensures moved { Passed src.now s.at result.state.at }
{
    let at = s.at;
    let e = end_production(s, d, t8);
    let q = grammar::pass_on(src, e, at, false);
    let n = q.state;
    let next = begin(d.rule, n.at as u32, grammar::count_of(n, tables::SYMBOLS));
    carry(q, next)
}

// Behind a `;`: the rule is done.
pub fn end_item(s: State, d: Production, t8: &mut [u32]) -> Drafted
    ensures is { ◌≡◌ {A = Made1} (record { answer = result.answer; state = result.state; draft = result.draft; a = t8.new }) (end_item s d t8.old) }
    ensures kept { result.state.at ≡ s.at }
{
    let e = end_production(s, d, t8);
    let a = e.answer;
    let n = e.state;
    match a {
        Answer::Going => Drafted {
            answer: Answer::Done,
            state: n,
            draft: d,
        },
        Answer::Done => Drafted {
            answer: Answer::Done,
            state: n,
            draft: d,
        },
        Answer::Refused(f) => Drafted {
            answer: Answer::Refused(f),
            state: n,
            draft: d,
        },
    }
}

// One item, and the spacing behind it; done at `;`.
pub fn item(
    src: &[u8],
    s: State,
    d: Production,
    t1: &mut [u32],
    t8: &mut [u32],
    t9: &mut [u32],
    i1: &mut [u16],
) -> Drafted
    requires { Here src.now s.at × Tokens src.now s.counts t1.old i1.old }
    ensures is { ◌≡◌ {A = Made3} (record { answer = result.answer; state = result.state; draft = result.draft; t1 = t1.new; t8 = t8.new; t9 = t9.new }) (item_step src.now s d t1.old t8.old t9.old) }
    ensures moved { Moves src.now s.at result.answer result.state.at }
    ensures indexed { Tokens src.now result.state.counts t1.new i1.new }
{
    let at = s.at;
    let seen = look_item(src, at);
    let k = seen.sort;
    let mut n = s;
    n.at = seen.end;
    match k {
        Sort::BarSort => bar_item(src, n, d, t8),
        Sort::EndSort => end_item(n, d, t8),
        Sort::QuotedSort => quoted_item(src, s, d, t1, t9, i1),
        Sort::PrecSort => prec_item(src, n, d, t1, i1),
        Sort::ActionSort => action_item(src, s, d),
        Sort::EmptySort => empty_item(src, n, d, at as u32),
        Sort::BareSort => bare_item(src, s, d, t1, t9, i1),
    }
}

// Whether table 9, of `n` symbols, has room for one more.
fn symbol_room(t9: &[u32], n: u32) -> bool
    ensures { result ≡ room (width symbols) n t9.now }
{
    if n == 4294967295 {
        return false;
    }
    (n as usize) < t9.len() / (tables::SYMBOL_WIDTH as usize)
}

// A bare symbol, with the spacing of the kind behind it, where there are `m` tokens and `n` symbols: where the next item stands, how many tokens there are, and where its word ends.
// Nothing changes where it is refused, or finds no room: then there is none.
fn quick_bare(
    src: &[u8],
    kind: u32,
    at: usize,
    m: u32,
    n: u32,
    t1: &[u32],
    t9: &mut [u32],
    i1: &[u16],
) -> Option<(usize, u32, u32)>
    requires { Here src.now at × Held src.now (width tokens) 0 m t1.now i1.now × ((sort_at src.now at).sort ≡ BareSort) }
    ensures is { Quickly kind src.now at m n t1.now t9.old t1.now t9.new result }
    ensures indexed { Held src.now (width tokens) 0 (tokens_now m result) t1.now i1.now }
{
    match words::parse_token(src, at) {
        Ok((p, end, _)) => match grammar::pass_gap(src, kind, end, true) {
            Ok((j, _)) => {
                let from = p.from as u32;
                let to = p.to as u32;
                let which = symbol_kind(src, m, t1, i1, from, to);
                let row = [which, from, to, 0];
                if tables::add_row(t9, n, &row) {
                    Some((j, m, end as u32))
                } else {
                    None
                }
            }
            Err(_) => None,
        },
        Err(_) => None,
    }
}

// A quoted symbol in the same way; it joins table 1 only where table 9 has room.
fn quick_quoted(
    src: &[u8],
    kind: u32,
    at: usize,
    m: u32,
    n: u32,
    t1: &mut [u32],
    t9: &mut [u32],
    i1: &mut [u16],
) -> Option<(usize, u32, u32)>
    requires { Here src.now at × Held src.now (width tokens) 0 m t1.old i1.old × ((sort_at src.now at).sort ≡ QuotedSort) }
    ensures is { Quickly kind src.now at m n t1.old t9.old t1.new t9.new result }
    ensures indexed { Held src.now (width tokens) 0 (tokens_now m result) t1.new i1.new }
{
    if !symbol_room(t9, n) {
        return None;
    }
    match words::parse_token(src, at) {
        Ok((p, end, _)) => match grammar::pass_gap(src, kind, end, true) {
            Ok((j, _)) => {
                let from = p.from as u32;
                let to = p.to as u32;
                match finder::enter_token(src, t1, m, i1, from, to, false) {
                    Some(k) => {
                        let row = [2, from, to, 0];
                        tables::add_row(t9, n, &row);
                        Some((j, k, end as u32))
                    }
                    None => None,
                }
            }
            Err(_) => None,
        },
        Err(_) => None,
    }
}

// The symbol that begins here, if one does: told by its first byte, which is a quote, or is that of no mark.
fn quick_symbol(
    src: &[u8],
    kind: u32,
    at: usize,
    m: u32,
    n: u32,
    t1: &mut [u32],
    t9: &mut [u32],
    i1: &mut [u16],
) -> Option<(usize, u32, u32)>
    requires { Here src.now at × Held src.now (width tokens) 0 m t1.old i1.old }
    ensures is { Quickly kind src.now at m n t1.old t9.old t1.new t9.new result }
    ensures indexed { Held src.now (width tokens) 0 (tokens_now m result) t1.new i1.new }
{
    if src.len() <= at {
        return None;
    }
    let c = src[at];
    match c {
        b'"' | b'\'' => quick_quoted(src, kind, at, m, n, t1, t9, i1),
        b'|' | b';' | b'%' | b'{' => None,
        _ => quick_bare(src, kind, at, m, n, t1, t9, i1),
    }
}

// The symbols from `at` on, up to the first item that is none, or is not read in this way; the draft ends at `to` so far.
pub fn symbol_run(
    src: &[u8],
    kind: u32,
    at: usize,
    m: u32,
    n: u32,
    to: u32,
    t1: &mut [u32],
    t9: &mut [u32],
    i1: &mut [u16],
) -> Run
    requires { Here src.now at × Held src.now (width tokens) 0 m t1.old i1.old }
    ensures is { Ran kind src.now at m n to t1.old t9.old result.at result.tokens result.symbols result.to t1.new t9.new }
    ensures moved { Passed src.now at result.at }
    ensures indexed { Held src.now (width tokens) 0 result.tokens t1.new i1.new }
{
    let mut run = Run {
        at,
        tokens: m,
        symbols: n,
        to,
    };
    loop {
        match quick_symbol(src, kind, run.at, run.tokens, run.symbols, t1, t9, i1) {
            Some((j, k, end)) => {
                run = Run {
                    at: j,
                    tokens: k,
                    symbols: run.symbols + 1,
                    to: end,
                };
            }
            None => {
                return run;
            }
        }
    }
}

// The state behind a run.
pub fn after_run(s: State, r: Run) -> State
    ensures { result ≡ ran_state s r.at r.tokens r.symbols }
{
    let mut c = s.counts;
    c.n[tables::TOKENS as usize] = r.tokens;
    c.n[tables::SYMBOLS as usize] = r.symbols;
    let mut next = s;
    next.at = r.at;
    next.counts = c;
    next
}

// The items up to the rule's `;`, or to the first refusal; 4 at the source's end.
pub fn items(
    src: &[u8],
    s: State,
    d: Production,
    t1: &mut [u32],
    t8: &mut [u32],
    t9: &mut [u32],
    i1: &mut [u16],
) -> Step
    requires { Here src.now s.at × Tokens src.now s.counts t1.old i1.old }
    ensures is { ◌≡◌ {A = Itemed} (record { answer = result.answer; state = result.state; t1 = t1.new; t8 = t8.new; t9 = t9.new }) (item_list src.now s d t1.old t8.old t9.old) }
    ensures moved { Passed src.now s.at result.state.at }
    ensures indexed { Tokens src.now result.state.counts t1.new i1.new }
{
    let mut st = s;
    let mut draft = d;
    loop {
        let tokens = grammar::count_of(st, tables::TOKENS);
        let symbols = grammar::count_of(st, tables::SYMBOLS);
        let run = symbol_run(src, st.kind, st.at, tokens, symbols, draft.to, t1, t9, i1);
        st = after_run(st, run);
        draft.to = run.to;
        let at = st.at;
        if src.len() <= at {
            return Step {
                answer: Answer::Refused(Refusal::Fault(Cause::IncompleteRule, at as u32)),
                state: st,
            };
        }
        let r = item(src, st, draft, t1, t8, t9, i1);
        let a = r.answer;
        let next = r.state;
        match a {
            Answer::Going => {
                st = next;
                draft = r.draft;
            }
            Answer::Done => {
                return Step {
                    answer: Answer::Going,
                    state: next,
                };
            }
            Answer::Refused(f) => {
                return Step {
                    answer: Answer::Refused(f),
                    state: next,
                };
            }
        }
    }
}
