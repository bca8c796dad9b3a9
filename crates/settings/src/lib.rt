// Declarations that give one thing: the start, the expected conflicts, the action type, the parse parameter, the generics. Each function is handed the state
// behind its keyword.
#![tactic(auto)]

ghost use Rattle.std.specs.Prelude.{◌≡◌};
ghost use Rattle.grammar.specs.State.{Out0, Out1, Here, Passed, Onward};
ghost use Rattle.settings.specs.Singles.{with_start, with_expected, with_param, with_generics};
ghost use Rattle.settings.specs.Settings.{start_named, start_decl, expect_given, expect_decl, actiontype_named, actiontype_decl, param_decl, param_typed, generics_decl};

use grammar::{Answer, Cause, Refusal, Repeat, Singles, State, Step};
use words::IntError;

pub fn with_start(g: Singles, p: Option<(u32, u32)>) -> Singles
    ensures { result ≡ with_start g p }
{
    let expect = g.expect;
    let expect_rr = g.expect_rr;
    let param = g.param;
    let generics = g.generics;
    let programs = g.programs;
    Singles {
        start: p,
        expect,
        expect_rr,
        param,
        generics,
        programs,
    }
}

// `%expect-rr` or `%expect`.
pub fn with_expected(g: Singles, rr: bool, e: Option<(u64, u32, u32)>) -> Singles
    ensures { result ≡ with_expected g rr e }
{
    let start = g.start;
    let expect = g.expect;
    let expect_rr = g.expect_rr;
    let param = g.param;
    let generics = g.generics;
    let programs = g.programs;
    if rr {
        return Singles {
            start,
            expect,
            expect_rr: e,
            param,
            generics,
            programs,
        };
    }
    Singles {
        start,
        expect: e,
        expect_rr,
        param,
        generics,
        programs,
    }
}

pub fn with_param(g: Singles, p: Option<(u32, u32, u32, u32)>) -> Singles
    ensures { result ≡ with_param g p }
{
    let start = g.start;
    let expect = g.expect;
    let expect_rr = g.expect_rr;
    let generics = g.generics;
    let programs = g.programs;
    Singles {
        start,
        expect,
        expect_rr,
        param: p,
        generics,
        programs,
    }
}

pub fn with_generics(g: Singles, p: Option<(u32, u32)>) -> Singles
    ensures { result ≡ with_generics g p }
{
    let start = g.start;
    let expect = g.expect;
    let expect_rr = g.expect_rr;
    let param = g.param;
    let programs = g.programs;
    Singles {
        start,
        expect,
        expect_rr,
        param,
        generics: p,
        programs,
    }
}

// The name from `i` to `j` is the start, or repeats one.
pub fn start_named(s: State, i: u32, j: u32, t10: &mut [u32]) -> Step
    ensures is { ◌≡◌ {A = Out1} (record { answer = result.answer; state = result.state; a = t10.new }) (start_named s i j t10.old) }
    ensures kept { result.state.at ≡ s.at }
{
    let g = s.singles;
    let p = g.start;
    match p {
        None => {
            let mut next = s;
            next.singles = with_start(g, Some((i, j)));
            Step {
                answer: Answer::Going,
                state: next,
            }
        }
        Some((a, b)) => grammar::list_repeat(s, Repeat::RepeatedStart, a, b, i, j, t10),
    }
}

pub fn start_decl(src: &[u8], s: State, t10: &mut [u32]) -> Step
    requires { Here src.now s.at }
    ensures is { ◌≡◌ {A = Out1} (record { answer = result.answer; state = result.state; a = t10.new }) (start_decl src.now s t10.old) }
    ensures moved { Passed src.now s.at result.state.at }
{
    let at = s.at;
    match grammar::pass_gap(src, s.kind, at, false) {
        Ok((i, _)) => match words::parse_name(src, i) {
            Ok(j) => {
                let r = start_named(s, i as u32, j as u32, t10);
                grammar::pass_on(src, r, j, false)
            }
            Err(k) => Step {
                answer: Answer::Refused(Refusal::Fault(Cause::IllegalName, k as u32)),
                state: s,
            },
        },
        Err(f) => Step {
            answer: Answer::Refused(f),
            state: s,
        },
    }
}

// The number from `i` to `j` is expected, or repeats one.
pub fn expect_given(s: State, rr: bool, v: u64, i: u32, j: u32, t10: &mut [u32]) -> Step
    ensures is { ◌≡◌ {A = Out1} (record { answer = result.answer; state = result.state; a = t10.new }) (expect_given s rr v i j t10.old) }
    ensures kept { result.state.at ≡ s.at }
{
    let g = s.singles;
    let e = if rr { g.expect_rr } else { g.expect };
    match e {
        None => {
            let mut next = s;
            next.singles = with_expected(g, rr, Some((v, i, j)));
            Step {
                answer: Answer::Going,
                state: next,
            }
        }
        Some((_, a, b)) => {
            let what = if rr {
                Repeat::RepeatedExpectRr
            } else {
                Repeat::RepeatedExpect
            };
            grammar::list_repeat(s, what, a, b, i, j, t10)
        }
    }
}

pub fn expect_decl(src: &[u8], s: State, rr: bool, t10: &mut [u32]) -> Step
    requires { Here src.now s.at }
    ensures is { ◌≡◌ {A = Out1} (record { answer = result.answer; state = result.state; a = t10.new }) (expect_decl src.now s rr t10.old) }
    ensures moved { Passed src.now s.at result.state.at }
{
    let at = s.at;
    match grammar::pass_gap(src, s.kind, at, false) {
        Ok((i, _)) => match words::parse_int(src, i) {
            Ok((v, j)) => {
                let r = expect_given(s, rr, v, i as u32, j as u32, t10);
                grammar::pass_on(src, r, j, false)
            }
            Err(IntError::NoDigits(k)) => Step {
                answer: Answer::Refused(Refusal::Fault(Cause::IntegerEmpty, k as u32)),
                state: s,
            },
            Err(IntError::TooLarge(k)) => Step {
                answer: Answer::Refused(Refusal::Fault(Cause::IntegerTooLarge, k as u32)),
                state: s,
            },
        },
        Err(f) => Step {
            answer: Answer::Refused(f),
            state: s,
        },
    }
}

// The text from `i` to `j` is the action type, or repeats one.
pub fn actiontype_named(s: State, i: u32, j: u32, t10: &mut [u32]) -> Step
    ensures is { ◌≡◌ {A = Out1} (record { answer = result.answer; state = result.state; a = t10.new }) (actiontype_named s i j t10.old) }
    ensures kept { result.state.at ≡ s.at }
{
    let p = s.actiontype;
    match p {
        None => {
            let c = s.counts;
            let x = s.posix;
            let g = s.singles;
            Step {
                answer: Answer::Going,
                state: State {
                    kind: s.kind,
                    at: s.at,
                    level: s.level,
                    counts: c,
                    posix: x,
                    singles: g,
                    actiontype: Some((i, j)),
                },
            }
        }
        Some((a, b)) => grammar::list_repeat(s, Repeat::RepeatedActiontype, a, b, i, j, t10),
    }
}

pub fn actiontype_decl(src: &[u8], s: State, t10: &mut [u32]) -> Step
    requires { Here src.now s.at }
    ensures is { ◌≡◌ {A = Out1} (record { answer = result.answer; state = result.state; a = t10.new }) (actiontype_decl src.now s t10.old) }
    ensures moved { Passed src.now s.at result.state.at }
{
    let at = s.at;
    match grammar::pass_gap(src, s.kind, at, false) {
        Ok((i, _)) => {
            let j = texts::parse_to_eol(src, i);
            let r = actiontype_named(s, i as u32, j as u32, t10);
            grammar::pass_on(src, r, j, false)
        }
        Err(f) => Step {
            answer: Answer::Refused(f),
            state: s,
        },
    }
}

// The parse parameter's name is from `a` to `b`; its type runs from behind the spacing at `k` to the line end.
pub fn param_typed(src: &[u8], s: State, a: u32, b: u32, k: usize) -> Step
    requires { Here src.now k }
    ensures is { ◌≡◌ {A = Out0} (record { answer = result.answer; state = result.state }) (param_typed src.now s a b k) }
    ensures moved { Onward src.now k s.at result.answer result.state.at }
{
    match grammar::pass_gap(src, s.kind, k, false) {
        Ok((i, _)) => {
            let j = texts::parse_to_eol(src, i);
            let g = s.singles;
            let mut next = s;
            next.singles = with_param(g, Some((a, b, i as u32, j as u32)));
            grammar::past_gap(src, next, j, false)
        }
        Err(f) => Step {
            answer: Answer::Refused(f),
            state: s,
        },
    }
}

pub fn param_decl(src: &[u8], s: State) -> Step
    requires { Here src.now s.at }
    ensures is { ◌≡◌ {A = Out0} (record { answer = result.answer; state = result.state }) (param_decl src.now s) }
    ensures moved { Passed src.now s.at result.state.at }
{
    let at = s.at;
    match grammar::pass_gap(src, s.kind, at, false) {
        Ok((i, _)) => match texts::parse_to_single_colon(src, i) {
            Ok((j, _, p)) => param_typed(src, s, p.from as u32, p.to as u32, j + 1),
            Err(k) => Step {
                answer: Answer::Refused(Refusal::Fault(Cause::ReachedEnd, k as u32)),
                state: s,
            },
        },
        Err(f) => Step {
            answer: Answer::Refused(f),
            state: s,
        },
    }
}

pub fn generics_decl(src: &[u8], s: State) -> Step
    requires { Here src.now s.at }
    ensures is { ◌≡◌ {A = Out0} (record { answer = result.answer; state = result.state }) (generics_decl src.now s) }
    ensures moved { Passed src.now s.at result.state.at }
{
    let at = s.at;
    match grammar::pass_gap(src, s.kind, at, false) {
        Ok((i, _)) => {
            let j = texts::parse_to_eol(src, i);
            let g = s.singles;
            let mut next = s;
            next.singles = with_generics(g, Some((i as u32, j as u32)));
            grammar::past_gap(src, next, j, false)
        }
        Err(f) => Step {
            answer: Answer::Refused(f),
            state: s,
        },
    }
}
