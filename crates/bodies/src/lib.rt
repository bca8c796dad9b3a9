// The texts that kind 4 takes over whole: `%{` to `%}`, and the body of `%union`. Each declaration is handed the state behind its keyword, and where that begins.
#![tactic(auto)]

ghost use Rattle.std.specs.Prelude.{◌≡◌};
ghost use Rattle.grammar.specs.State.{Out1, Here, Passed, Onward};
ghost use Rattle.bodies.specs.Bodies.{body_row, prologue_decl, union_body, union_decl};

use grammar::{Answer, Cause, Refusal, State, Step};

// The sorts of a body.
pub const PROLOGUE: u32 = 1;

pub const UNION: u32 = 2;

// A row of table 17, and the spacing behind the body, all of which ends at `end`.
pub fn body_row(
    src: &[u8],
    s: State,
    sort: u32,
    from: u32,
    to: u32,
    end: usize,
    t17: &mut [u32],
) -> Step
    requires { Here src.now end }
    ensures is { ◌≡◌ {A = Out1} (record { answer = result.answer; state = result.state; a = t17.new }) (body_row src.now s sort from to end t17.old) }
    ensures moved { Onward src.now end s.at result.answer result.state.at }
    ensures counted { result.state.counts ≡ s.counts }
{
    let row = [sort, from, to];
    let r = grammar::push(s, tables::BODIES, &row, t17);
    grammar::pass_on(src, r, end, false)
}

// `%{`, which begins at `at`: all up to the first `%}`.
pub fn prologue_decl(src: &[u8], s: State, at: u32, t17: &mut [u32]) -> Step
    requires { Here src.now s.at }
    ensures is { ◌≡◌ {A = Out1} (record { answer = result.answer; state = result.state; a = t17.new }) (prologue_decl src.now s at t17.old) }
    ensures moved { Passed src.now s.at result.state.at }
    ensures counted { result.state.counts ≡ s.counts }
{
    let from = s.at;
    match texts::closing_mark(src, from) {
        Some((to, _)) => { body_row(src, s, PROLOGUE, from as u32, to as u32, to + 2, t17) }
        None => Step {
            answer: Answer::Refused(Refusal::Fault(Cause::PrologueNotClosed, at)),
            state: s,
        },
    }
}

// What stands between the brace at `i`, if one opens there, and the one that closes it; `%union` begins at `at`.
pub fn union_body(src: &[u8], s: State, at: u32, i: usize, t17: &mut [u32]) -> Step
    requires { Here src.now i × Passed src.now s.at i }
    ensures is { ◌≡◌ {A = Out1} (record { answer = result.answer; state = result.state; a = t17.new }) (union_body src.now s at i t17.old) }
    ensures moved { Passed src.now s.at result.state.at }
    ensures counted { result.state.counts ≡ s.counts }
{
    if scan::is_at(src, i, b'{') {
        let from = i + 1;
        match texts::closing_brace(src, from) {
            Some((to, _)) => {
                return body_row(src, s, UNION, from as u32, to as u32, to + 1, t17);
            }
            None => {
                return Step {
                    answer: Answer::Refused(Refusal::Fault(Cause::UnionNotClosed, at)),
                    state: s,
                };
            }
        }
    }
    Step {
        answer: Answer::Refused(Refusal::Fault(Cause::UnionNotOpened, at)),
        state: s,
    }
}

// `%union`, which begins at `at`.
pub fn union_decl(src: &[u8], s: State, at: u32, t17: &mut [u32]) -> Step
    requires { Here src.now s.at }
    ensures is { ◌≡◌ {A = Out1} (record { answer = result.answer; state = result.state; a = t17.new }) (union_decl src.now s at t17.old) }
    ensures moved { Passed src.now s.at result.state.at }
    ensures counted { result.state.counts ≡ s.counts }
{
    let behind = s.at;
    match grammar::pass_gap(src, s.kind, behind, false) {
        Ok((i, _)) => union_body(src, s, at, i, t17),
        Err(f) => Step {
            answer: Answer::Refused(f),
            state: s,
        },
    }
}
