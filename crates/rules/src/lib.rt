// The rules section: rule after rule, each a head by the kind and its productions, and the programs behind a second `%%`.
#![tactic(auto)]

ghost use Rattle.std.specs.Prelude.{◌≡◌};
ghost use Rattle.grammar.specs.State.{Out0, Here, Passed, Moves, Onward, Tokens, Rules};
ghost use Rattle.items.specs.Items.{Itemed};
ghost use Rattle.rules.specs.Rules.{pass_mark, first_start, Typing, colon_type, arrow_type, rule_type, Heading, enter_rule, named_head, rule_head, rule_body, Ruled, rule_step, next_rule, rules_run, rules_all, with_programs, programs_from};

use grammar::{Answer, Cause, Refusal, Singles, State, Step};

// The type of a rule, or why there is none.
#[derive(Clone, Copy)]
pub struct Typed {
    pub answer: Answer,
    pub state: State,
    pub given: Option<(u32, u32)>,
}

// The row of a rule, or why there is none.
#[derive(Clone, Copy)]
pub struct Headed {
    pub answer: Answer,
    pub state: State,
    pub row: u32,
}

// Spacing, the mark, which is refused with the cause where it is missing, and spacing again.
pub fn pass_mark(src: &[u8], s: State, word: &[u8], cause: Cause) -> Step
    requires { Here src.now s.at }
    ensures is { ◌≡◌ {A = Out0} (record { answer = result.answer; state = result.state }) (pass_mark src.now s word.now cause) }
    ensures moved { Passed src.now s.at result.state.at }
{
    let at = s.at;
    match grammar::pass_gap(src, s.kind, at, true) {
        Ok((i, _)) => {
            if scan::starts(src, i, word) {
                return grammar::past_gap(src, s, i + word.len(), false);
            }
            Step {
                answer: Answer::Refused(Refusal::Fault(cause, i as u32)),
                state: s,
            }
        }
        Err(f) => Step {
            answer: Answer::Refused(f),
            state: s,
        },
    }
}

// The first rule is the start if `%start` gave none.
pub fn first_start(s: State, from: u32, to: u32) -> State
    ensures { result ≡ first_start s from to }
{
    let g = s.singles;
    let p = g.start;
    match p {
        None => {
            let mut n = s;
            n.singles = settings::with_start(g, Some((from, to)));
            n
        }
        Some((_, _)) => s,
    }
}

// A type to a single colon, trimmed; the state comes to stand at the colon.
pub fn colon_type(src: &[u8], s: State) -> Typed
    requires { Here src.now s.at }
    ensures is { ◌≡◌ {A = Typing} (record { answer = result.answer; state = result.state; given = result.given }) (colon_type src.now s) }
    ensures moved { Passed src.now s.at result.state.at }
{
    let at = s.at;
    match texts::parse_to_single_colon(src, at) {
        Ok((to, _, p)) => {
            let mut n = s;
            n.at = to;
            Typed {
                answer: Answer::Going,
                state: n,
                given: Some((p.from as u32, p.to as u32)),
            }
        }
        Err(i) => Typed {
            answer: Answer::Refused(Refusal::Fault(Cause::ReachedEnd, i as u32)),
            state: s,
            given: None,
        },
    }
}

// Kind 2: `->` and a type.
pub fn arrow_type(src: &[u8], s: State) -> Typed
    requires { Here src.now s.at }
    ensures is { ◌≡◌ {A = Typing} (record { answer = result.answer; state = result.state; given = result.given }) (arrow_type src.now s) }
    ensures moved { Passed src.now s.at result.state.at }
{
    let r = pass_mark(src, s, b"->", Cause::MissingRightArrow);
    let a = r.answer;
    let n = r.state;
    match a {
        Answer::Going => colon_type(src, n),
        Answer::Done => Typed {
            answer: Answer::Done,
            state: n,
            given: None,
        },
        Answer::Refused(f) => Typed {
            answer: Answer::Refused(f),
            state: n,
            given: None,
        },
    }
}

// The type of a rule by the kind: in kinds 1 and 3 the `%actiontype` text, if any.
pub fn rule_type(src: &[u8], s: State) -> Typed
    requires { Here src.now s.at }
    ensures is { ◌≡◌ {A = Typing} (record { answer = result.answer; state = result.state; given = result.given }) (rule_type src.now s) }
    ensures moved { Passed src.now s.at result.state.at }
{
    if s.kind == 2 {
        return arrow_type(src, s);
    }
    let given = s.actiontype;
    Typed {
        answer: Answer::Going,
        state: s,
        given,
    }
}

// A rule seen again keeps its row; a new one joins table 7.
pub fn enter_rule(
    src: &[u8],
    s: State,
    from: u32,
    to: u32,
    given: Option<(u32, u32)>,
    t7: &mut [u32],
    i7: &mut [u16],
) -> Headed
    requires { Rules src.now s.counts t7.old i7.old }
    ensures is { ◌≡◌ {A = Heading} (record { answer = result.answer; state = result.state; row = result.row; t7 = t7.new }) (enter_rule src.now s from to given t7.old) }
    ensures kept { result.state.at ≡ s.at }
    ensures indexed { Rules src.now result.state.counts t7.new i7.new }
{
    let n = grammar::count_of(s, tables::RULES);
    match finder::find(src, t7, tables::RULE_WIDTH, tables::NAME, n, i7, from, to) {
        Some(r) => Headed {
            answer: Answer::Going,
            state: s,
            row: r,
        },
        None => {
            let x = grammar::part_cells(given);
            let row = [from, to, x[0], x[1], x[2]];
            let r = grammar::push_entered(
                src,
                s,
                tables::RULES,
                tables::RULE_WIDTH,
                tables::NAME,
                &row,
                t7,
                i7,
            );
            let answer = r.answer;
            let state = r.state;
            Headed {
                answer,
                state,
                row: n,
            }
        }
    }
}

// A rule's head behind its name, which begins where the state stands and ends at `j`: the start, the type, then the rule's row.
pub fn named_head(src: &[u8], s: State, j: usize, t7: &mut [u32], i7: &mut [u16]) -> Headed
    requires here { Here src.now j }
    requires passed { Passed src.now s.at j }
    requires rules { Rules src.now s.counts t7.old i7.old }
    ensures is { ◌≡◌ {A = Heading} (record { answer = result.answer; state = result.state; row = result.row; t7 = t7.new }) (named_head src.now s j t7.old) }
    ensures moved { Passed src.now j result.state.at }
    ensures indexed { Rules src.now result.state.counts t7.new i7.new }
{
    let from = s.at as u32;
    let to = j as u32;
    let mut n = first_start(s, from, to);
    n.at = j;
    let ty = rule_type(src, n);
    let a = ty.answer;
    let m = ty.state;
    let given = ty.given;
    match a {
        Answer::Going => enter_rule(src, m, from, to, given, t7, i7),
        Answer::Done => Headed {
            answer: Answer::Done,
            state: m,
            row: 0,
        },
        Answer::Refused(f) => Headed {
            answer: Answer::Refused(f),
            state: m,
            row: 0,
        },
    }
}

pub fn rule_head(src: &[u8], s: State, t7: &mut [u32], i7: &mut [u16]) -> Headed
    requires { Here src.now s.at × Rules src.now s.counts t7.old i7.old }
    ensures is { ◌≡◌ {A = Heading} (record { answer = result.answer; state = result.state; row = result.row; t7 = t7.new }) (rule_head src.now s t7.old) }
    ensures moved { Moves src.now s.at result.answer result.state.at }
    ensures indexed { Rules src.now result.state.counts t7.new i7.new }
{
    let at = s.at;
    match words::parse_name(src, at) {
        Ok(j) => named_head(src, s, j, t7, i7),
        Err(k) => Headed {
            answer: Answer::Refused(Refusal::Fault(Cause::IllegalName, k as u32)),
            state: s,
            row: 0,
        },
    }
}

// The colon, and the productions of the rule that has row `row`.
pub fn rule_body(
    src: &[u8],
    s: State,
    row: u32,
    t1: &mut [u32],
    t8: &mut [u32],
    t9: &mut [u32],
    i1: &mut [u16],
) -> Step
    requires { Here src.now s.at × Tokens src.now s.counts t1.old i1.old }
    ensures is { ◌≡◌ {A = Itemed} (record { answer = result.answer; state = result.state; t1 = t1.new; t8 = t8.new; t9 = t9.new }) (rule_body src.now s row t1.old t8.old t9.old) }
    ensures moved { Passed src.now s.at result.state.at }
    ensures indexed { Tokens src.now result.state.counts t1.new i1.new }
{
    let c = pass_mark(src, s, b":", Cause::MissingColon);
    let a = c.answer;
    let n = c.state;
    match a {
        Answer::Going => {
            let d = items::begin(row, n.at as u32, grammar::count_of(n, tables::SYMBOLS));
            items::items(src, n, d, t1, t8, t9, i1)
        }
        Answer::Done => Step {
            answer: Answer::Done,
            state: n,
        },
        Answer::Refused(f) => Step {
            answer: Answer::Refused(f),
            state: n,
        },
    }
}

pub fn rule(
    src: &[u8],
    s: State,
    t1: &mut [u32],
    t7: &mut [u32],
    t8: &mut [u32],
    t9: &mut [u32],
    i1: &mut [u16],
    i7: &mut [u16],
) -> Step
    requires { Here src.now s.at × Tokens src.now s.counts t1.old i1.old × Rules src.now s.counts t7.old i7.old }
    ensures is { ◌≡◌ {A = Ruled} (record { answer = result.answer; state = result.state; t1 = t1.new; t7 = t7.new; t8 = t8.new; t9 = t9.new }) (rule_step src.now s t1.old t7.old t8.old t9.old) }
    ensures moved { Moves src.now s.at result.answer result.state.at }
    ensures indexed { Tokens src.now result.state.counts t1.new i1.new × Rules src.now result.state.counts t7.new i7.new }
{
    let h = rule_head(src, s, t7, i7);
    let a = h.answer;
    let n = h.state;
    match a {
        Answer::Going => rule_body(src, n, h.row, t1, t8, t9, i1),
        Answer::Done => Step {
            answer: Answer::Done,
            state: n,
        },
        Answer::Refused(f) => Step {
            answer: Answer::Refused(f),
            state: n,
        },
    }
}

// A rule and the spacing behind it.
pub fn next_rule(
    src: &[u8],
    s: State,
    t1: &mut [u32],
    t7: &mut [u32],
    t8: &mut [u32],
    t9: &mut [u32],
    i1: &mut [u16],
    i7: &mut [u16],
) -> Step
    requires { Here src.now s.at × Tokens src.now s.counts t1.old i1.old × Rules src.now s.counts t7.old i7.old }
    ensures is { ◌≡◌ {A = Ruled} (record { answer = result.answer; state = result.state; t1 = t1.new; t7 = t7.new; t8 = t8.new; t9 = t9.new }) (next_rule src.now s t1.old t7.old t8.old t9.old) }
    ensures moved { Moves src.now s.at result.answer result.state.at }
    ensures indexed { Tokens src.now result.state.counts t1.new i1.new × Rules src.now result.state.counts t7.new i7.new }
{
    let r = rule(src, s, t1, t7, t8, t9, i1, i7);
    let n = r.state;
    let at = n.at;
    grammar::pass_on(src, r, at, false)
}

// Rules up to the next `%%`, or to the source's end.
pub fn rules_run(
    src: &[u8],
    s: State,
    t1: &mut [u32],
    t7: &mut [u32],
    t8: &mut [u32],
    t9: &mut [u32],
    i1: &mut [u16],
    i7: &mut [u16],
) -> Step
    requires { Here src.now s.at × Tokens src.now s.counts t1.old i1.old × Rules src.now s.counts t7.old i7.old }
    ensures is { ◌≡◌ {A = Ruled} (record { answer = result.answer; state = result.state; t1 = t1.new; t7 = t7.new; t8 = t8.new; t9 = t9.new }) (rules_run src.now s t1.old t7.old t8.old t9.old) }
    ensures moved { Passed src.now s.at result.state.at }
    ensures indexed { Tokens src.now result.state.counts t1.new i1.new × Rules src.now result.state.counts t7.new i7.new }
{
    let mut st = s;
    loop {
        let at = st.at;
        if src.len() <= at {
            return Step {
                answer: Answer::Going,
                state: st,
            };
        }
        if scan::starts(src, at, b"%%") {
            return Step {
                answer: Answer::Going,
                state: st,
            };
        }
        let r = next_rule(src, st, t1, t7, t8, t9, i1, i7);
        let a = r.answer;
        match a {
            Answer::Going => {
                let next = r.state;
                st = next;
            }
            Answer::Done => {
                return r;
            }
            Answer::Refused(_) => {
                return r;
            }
        }
    }
}

// The rules section from its `%%` on, where the state stands.
pub fn rules(
    src: &[u8],
    s: State,
    t1: &mut [u32],
    t7: &mut [u32],
    t8: &mut [u32],
    t9: &mut [u32],
    i1: &mut [u16],
    i7: &mut [u16],
) -> Step
    requires { Here src.now s.at × Tokens src.now s.counts t1.old i1.old × Rules src.now s.counts t7.old i7.old }
    ensures is { ◌≡◌ {A = Ruled} (record { answer = result.answer; state = result.state; t1 = t1.new; t7 = t7.new; t8 = t8.new; t9 = t9.new }) (rules_all src.now s t1.old t7.old t8.old t9.old) }
    ensures moved { Passed src.now s.at result.state.at }
    ensures indexed { Tokens src.now result.state.counts t1.new i1.new × Rules src.now result.state.counts t7.new i7.new }
{
    let r = pass_mark(src, s, b"%%", Cause::UnknownDeclaration);
    let a = r.answer;
    let n = r.state;
    match a {
        Answer::Going => rules_run(src, n, t1, t7, t8, t9, i1, i7),
        Answer::Done => Step {
            answer: Answer::Done,
            state: n,
        },
        Answer::Refused(f) => Step {
            answer: Answer::Refused(f),
            state: n,
        },
    }
}

pub fn with_programs(g: Singles, p: Option<(u32, u32)>) -> Singles
    ensures { result ≡ with_programs g p }
{
    let start = g.start;
    let expect = g.expect;
    let expect_rr = g.expect_rr;
    let param = g.param;
    let generics = g.generics;
    Singles {
        start,
        expect,
        expect_rr,
        param,
        generics,
        programs: p,
    }
}

// Behind a second `%%`, spacing passes and the rest is the programs text, given even if empty.
pub fn programs(src: &[u8], s: State) -> Step
    requires { Here src.now s.at }
    ensures is { ◌≡◌ {A = Out0} (record { answer = result.answer; state = result.state }) (programs_from src.now s) }
    ensures moved { Passed src.now s.at result.state.at }
{
    let at = s.at;
    if !scan::starts(src, at, b"%%") {
        return Step {
            answer: Answer::Going,
            state: s,
        };
    }
    match grammar::pass_gap(src, s.kind, at + 2, true) {
        Ok((i, _)) => {
            let end = src.len();
            let g = s.singles;
            let mut n = s;
            n.at = end;
            n.singles = with_programs(g, Some((i as u32, end as u32)));
            Step {
                answer: Answer::Going,
                state: n,
            }
        }
        Err(f) => Step {
            answer: Answer::Refused(f),
            state: s,
        },
    }
}
