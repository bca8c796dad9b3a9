// Lists that run to the next `%`: `%token`, `%expect-unused` and, in kind 4, `%type`. Each declaration is handed the state behind its keyword.
#![tactic(auto)]

ghost use Rattle.std.specs.Prelude.{◌≤◌, ◌≡◌, length};
ghost use Rattle.grammar.specs.State.{Out1, Out3, Here, Passed, Moves, Onward, Tokens, Tracks};
ghost use Rattle.marks.specs.Marks.{Leading};
ghost use Rattle.lists.specs.Lists.{token_item, spelled_at, unused_row, unused_item, type_row, type_item, list_item, percent_list, lead_list, list_body, list_decl};
ghost use Rattle.lists.specs.Written.{Spells, of_tokens};

use grammar::{Answer, Cause, Refusal, State, Step};
use marks::Lead;

// Which list it is.
#[derive(Clone, Copy)]
pub enum WordList {
    TokenList,
    UnusedList,
    TypeList,
}

// One token of a `%token` list, the row of its tag, and what stands behind it.
pub fn token_item(
    src: &[u8],
    s: State,
    tag: Option<(u32, u32)>,
    t1: &mut [u32],
    t15: &mut [u32],
    t16: &mut [u32],
    ix: &mut [u16],
) -> Step
    requires { Here src.now s.at × Tokens src.now s.counts t1.old ix.old }
    ensures is { ◌≡◌ {A = Out3} (record { answer = result.answer; state = result.state; a = t1.new; b = t15.new; c = t16.new }) (token_item src.now s tag t1.old t15.old t16.old) }
    ensures moved { Moves src.now s.at result.answer result.state.at }
    ensures indexed { Tokens src.now result.state.counts t1.new ix.new }
{
    let at = s.at;
    match words::parse_token(src, at) {
        Ok((p, end, _)) => {
            let from = p.from as u32;
            let to = p.to as u32;
            let r = grammar::enter(src, s, from, to, true, t1, ix);
            let q = marks::tag_row(r, tag, from, to, t15);
            marks::behind_word(src, q, from, to, end, false, t16)
        }
        Err(k) => Step {
            answer: Answer::Refused(Refusal::Fault(Cause::IllegalString, k as u32)),
            state: s,
        },
    }
}

// The name or the quoted token at `at`: its kind, its place and its end; or where it was sought.
pub fn spelled(src: &[u8], at: usize) -> Result<(u32, usize, usize, usize), usize>
    requires { at ≤ length src.now }
    ensures is { result ≡ spelled_at src.now at }
    ensures moved { Spells src.now at result }
{
    match words::parse_name(src, at) {
        Ok(j) => Ok((1, at, j, j)),
        Err(_) => match words::parse_token(src, at) {
            Ok((p, end, _)) => Ok((2, p.from, p.to, end)),
            Err(k) => Err(k),
        },
    }
}

// A row of table 6, and the spacing behind its word, which ends at `end`.
pub fn unused_row(
    src: &[u8],
    s: State,
    kind: u32,
    from: u32,
    to: u32,
    end: usize,
    t6: &mut [u32],
) -> Step
    requires { Here src.now end }
    ensures is { ◌≡◌ {A = Out1} (record { answer = result.answer; state = result.state; a = t6.new }) (unused_row src.now s kind from to end t6.old) }
    ensures moved { Onward src.now end s.at result.answer result.state.at }
{
    let row = [kind, from, to];
    let r = grammar::push(s, tables::UNUSED, &row, t6);
    grammar::pass_on(src, r, end, false)
}

// One word of an `%expect-unused` list, and the spacing behind it.
pub fn unused_item(src: &[u8], s: State, t6: &mut [u32]) -> Step
    requires { Here src.now s.at }
    ensures is { ◌≡◌ {A = Out1} (record { answer = result.answer; state = result.state; a = t6.new }) (unused_item src.now s t6.old) }
    ensures moved { Moves src.now s.at result.answer result.state.at }
{
    let at = s.at;
    match spelled(src, at) {
        Ok((kind, from, to, end)) => { unused_row(src, s, kind, from as u32, to as u32, end, t6) }
        Err(k) => Step {
            answer: Answer::Refused(Refusal::Fault(Cause::UnknownSymbol, k as u32)),
            state: s,
        },
    }
}

// A row of table 15 alone, and the spacing behind its word, which ends at `end`.
pub fn type_row(
    src: &[u8],
    s: State,
    tag: Option<(u32, u32)>,
    from: u32,
    to: u32,
    end: usize,
    t15: &mut [u32],
) -> Step
    requires { Here src.now end }
    ensures is { ◌≡◌ {A = Out1} (record { answer = result.answer; state = result.state; a = t15.new }) (type_row src.now s tag from to end t15.old) }
    ensures moved { Onward src.now end s.at result.answer result.state.at }
    ensures counted { result.state.counts ≡ s.counts }
{
    let r = Step {
        answer: Answer::Going,
        state: s,
    };
    let q = marks::tag_row(r, tag, from, to, t15);
    grammar::pass_on(src, q, end, false)
}

// One word of a `%type` list, and the spacing behind it.
pub fn type_item(src: &[u8], s: State, tag: Option<(u32, u32)>, t15: &mut [u32]) -> Step
    requires { Here src.now s.at }
    ensures is { ◌≡◌ {A = Out1} (record { answer = result.answer; state = result.state; a = t15.new }) (type_item src.now s tag t15.old) }
    ensures moved { Moves src.now s.at result.answer result.state.at }
    ensures counted { result.state.counts ≡ s.counts }
{
    let at = s.at;
    match spelled(src, at) {
        Ok((_, from, to, end)) => { type_row(src, s, tag, from as u32, to as u32, end, t15) }
        Err(k) => Step {
            answer: Answer::Refused(Refusal::Fault(Cause::UnknownSymbol, k as u32)),
            state: s,
        },
    }
}

pub fn list_item(
    src: &[u8],
    s: State,
    what: WordList,
    tag: Option<(u32, u32)>,
    t: &mut [u32],
    t15: &mut [u32],
    t16: &mut [u32],
    ix: &mut [u16],
) -> Step
    requires { Here src.now s.at × Tracks (of_tokens what) src.now s.counts t.old ix.old ix.old }
    ensures is { ◌≡◌ {A = Out3} (record { answer = result.answer; state = result.state; a = t.new; b = t15.new; c = t16.new }) (list_item src.now s what tag t.old t15.old t16.old) }
    ensures moved { Moves src.now s.at result.answer result.state.at }
    ensures indexed { Tracks (of_tokens what) src.now result.state.counts t.new ix.old ix.new }
{
    match what {
        WordList::TokenList => token_item(src, s, tag, t, t15, t16, ix),
        WordList::UnusedList => unused_item(src, s, t),
        WordList::TypeList => type_item(src, s, tag, t15),
    }
}

// The items up to the next `%`, or to the source's end.
pub fn percent_list(
    src: &[u8],
    s: State,
    what: WordList,
    tag: Option<(u32, u32)>,
    t: &mut [u32],
    t15: &mut [u32],
    t16: &mut [u32],
    ix: &mut [u16],
) -> Step
    requires { Here src.now s.at × Tracks (of_tokens what) src.now s.counts t.old ix.old ix.old }
    ensures is { ◌≡◌ {A = Out3} (record { answer = result.answer; state = result.state; a = t.new; b = t15.new; c = t16.new }) (percent_list src.now s what tag t.old t15.old t16.old) }
    ensures moved { Passed src.now s.at result.state.at }
    ensures indexed { Tracks (of_tokens what) src.now result.state.counts t.new ix.old ix.new }
{
    let mut st = s;
    loop {
        let at = st.at;
        if src.len() <= at {
            return Step {
                answer: Answer::Going,
                state: st,
            };
        }
        if src[at] == b'%' {
            return Step {
                answer: Answer::Going,
                state: st,
            };
        }
        let r = list_item(src, st, what, tag, t, t15, t16, ix);
        let a = r.answer;
        match a {
            Answer::Going => {
                let next = r.state;
                st = next;
            }
            Answer::Done => {
                return r;
            }
            Answer::Refused(_) => {
                return r;
            }
        }
    }
}

// The tag in front of the words.
pub fn lead_list(src: &[u8], s: State, what: WordList) -> Lead
    requires { Here src.now s.at }
    ensures is { ◌≡◌ {A = Leading} (record { answer = result.answer; state = result.state; tag = result.tag }) (lead_list what src.now s) }
    ensures moved { Onward src.now s.at s.at result.answer result.state.at }
    ensures counted { result.state.counts ≡ s.counts }
{
    match what {
        WordList::TokenList => marks::lead_tag(src, s, false, false),
        WordList::UnusedList => Lead {
            answer: Answer::Going,
            state: s,
            tag: None,
        },
        WordList::TypeList => marks::lead_tag(src, s, true, false),
    }
}

// The tag and the words.
pub fn list_body(
    src: &[u8],
    s: State,
    what: WordList,
    t: &mut [u32],
    t15: &mut [u32],
    t16: &mut [u32],
    ix: &mut [u16],
) -> Step
    requires { Here src.now s.at × Tracks (of_tokens what) src.now s.counts t.old ix.old ix.old }
    ensures is { ◌≡◌ {A = Out3} (record { answer = result.answer; state = result.state; a = t.new; b = t15.new; c = t16.new }) (list_body src.now s what t.old t15.old t16.old) }
    ensures moved { Passed src.now s.at result.state.at }
    ensures indexed { Tracks (of_tokens what) src.now result.state.counts t.new ix.old ix.new }
{
    let l = lead_list(src, s, what);
    let a = l.answer;
    let n = l.state;
    let tag = l.tag;
    match a {
        Answer::Going => percent_list(src, n, what, tag, t, t15, t16, ix),
        Answer::Done => Step {
            answer: Answer::Done,
            state: n,
        },
        Answer::Refused(f) => Step {
            answer: Answer::Refused(f),
            state: n,
        },
    }
}

pub fn list_decl(
    src: &[u8],
    s: State,
    what: WordList,
    t: &mut [u32],
    t15: &mut [u32],
    t16: &mut [u32],
    ix: &mut [u16],
) -> Step
    requires { Here src.now s.at × Tracks (of_tokens what) src.now s.counts t.old ix.old ix.old }
    ensures is { ◌≡◌ {A = Out3} (record { answer = result.answer; state = result.state; a = t.new; b = t15.new; c = t16.new }) (list_decl src.now s what t.old t15.old t16.old) }
    ensures moved { Passed src.now s.at result.state.at }
    ensures indexed { Tracks (of_tokens what) src.now result.state.counts t.new ix.old ix.new }
{
    let at = s.at;
    match grammar::pass_gap(src, s.kind, at, false) {
        Ok((i, _)) => {
            let mut next = s;
            next.at = i;
            list_body(src, next, what, t, t15, t16, ix)
        }
        Err(f) => Step {
            answer: Answer::Refused(f),
            state: s,
        },
    }
}
