// `%epp`: a key and its text. The declaration is handed the state behind its keyword.
#![tactic(auto)]

ghost use Rattle.std.specs.Prelude.{◌≡◌};
ghost use Rattle.tables.specs.Layout.{epps, width};
ghost use Rattle.grammar.specs.State.{Out2, Here, Passed, Onward, Tracked, Follows};
ghost use Rattle.epps.specs.Epps.{epp_given, epp_text, epp_value, epp_decl};

use grammar::{Answer, Cause, Refusal, Repeat, State, Step};
use words::QuoteError;

// The row of a key that is spelled from `i` to `j` and named from `from` to `to`, whose text is from `v` to `e`; and the spacing behind it.
pub fn epp_given(
    src: &[u8],
    s: State,
    i: u32,
    j: u32,
    from: u32,
    to: u32,
    v: u32,
    e: usize,
    t5: &mut [u32],
    t10: &mut [u32],
    fx: &mut [u16],
) -> Step
    requires { Here src.now e × Tracked src.now epps (width epps) 2 s.counts t5.old fx.old }
    ensures is { ◌≡◌ {A = Out2} (record { answer = result.answer; state = result.state; a = t5.new; b = t10.new }) (epp_given src.now s i j from to v e t5.old t10.old) }
    ensures moved { Onward src.now e s.at result.answer result.state.at }
    ensures indexed { Follows src.now epps (width epps) 2 result.state.counts t5.new fx.old fx.new }
{
    let row = [i, j, from, to, v, e as u32];
    let r = grammar::once(
        src,
        s,
        tables::EPPS,
        tables::EPP_WIDTH,
        tables::KEY_NAME,
        Repeat::RepeatedEpp,
        &row,
        t5,
        t10,
        fx,
    );
    grammar::pass_on(src, r, e, false)
}

// The text at `v`.
pub fn epp_text(
    src: &[u8],
    s: State,
    i: u32,
    j: u32,
    from: u32,
    to: u32,
    v: usize,
    t5: &mut [u32],
    t10: &mut [u32],
    fx: &mut [u16],
) -> Step
    requires { Here src.now v × Tracked src.now epps (width epps) 2 s.counts t5.old fx.old }
    ensures is { ◌≡◌ {A = Out2} (record { answer = result.answer; state = result.state; a = t5.new; b = t10.new }) (epp_text src.now s i j from to v t5.old t10.old) }
    ensures moved { Onward src.now v s.at result.answer result.state.at }
    ensures indexed { Follows src.now epps (width epps) 2 result.state.counts t5.new fx.old fx.new }
{
    match words::parse_string(src, v) {
        Ok(e) => epp_given(src, s, i, j, from, to, v as u32, e, t5, t10, fx),
        Err(QuoteError::NotOpened(k)) => Step {
            answer: Answer::Refused(Refusal::Fault(Cause::StringNotOpened, k as u32)),
            state: s,
        },
        Err(QuoteError::LineInside(k)) => Step {
            answer: Answer::Refused(Refusal::Fault(Cause::StringLineEnd, k as u32)),
            state: s,
        },
        Err(QuoteError::BadEscape(k)) => Step {
            answer: Answer::Refused(Refusal::Fault(Cause::StringEscape, k as u32)),
            state: s,
        },
        Err(QuoteError::NotClosed(k)) => Step {
            answer: Answer::Refused(Refusal::Fault(Cause::StringNotClosed, k as u32)),
            state: s,
        },
    }
}

// The spacing behind the key, which ends at `j`, and the text.
pub fn epp_value(
    src: &[u8],
    s: State,
    i: u32,
    j: usize,
    from: u32,
    to: u32,
    t5: &mut [u32],
    t10: &mut [u32],
    fx: &mut [u16],
) -> Step
    requires { Here src.now j × Tracked src.now epps (width epps) 2 s.counts t5.old fx.old }
    ensures is { ◌≡◌ {A = Out2} (record { answer = result.answer; state = result.state; a = t5.new; b = t10.new }) (epp_value src.now s i j from to t5.old t10.old) }
    ensures moved { Onward src.now j s.at result.answer result.state.at }
    ensures indexed { Follows src.now epps (width epps) 2 result.state.counts t5.new fx.old fx.new }
{
    match grammar::pass_gap(src, s.kind, j, false) {
        Ok((v, _)) => epp_text(src, s, i, j as u32, from, to, v, t5, t10, fx),
        Err(f) => Step {
            answer: Answer::Refused(f),
            state: s,
        },
    }
}

pub fn epp_decl(src: &[u8], s: State, t5: &mut [u32], t10: &mut [u32], fx: &mut [u16]) -> Step
    requires { Here src.now s.at × Tracked src.now epps (width epps) 2 s.counts t5.old fx.old }
    ensures is { ◌≡◌ {A = Out2} (record { answer = result.answer; state = result.state; a = t5.new; b = t10.new }) (epp_decl src.now s t5.old t10.old) }
    ensures moved { Passed src.now s.at result.state.at }
    ensures indexed { Follows src.now epps (width epps) 2 result.state.counts t5.new fx.old fx.new }
{
    let at = s.at;
    match grammar::pass_gap(src, s.kind, at, false) {
        Ok((i, _)) => match words::parse_token(src, i) {
            Ok((p, end, _)) => {
                epp_value(
                    src,
                    s,
                    i as u32,
                    end,
                    p.from as u32,
                    p.to as u32,
                    t5,
                    t10,
                    fx,
                )
            }
            Err(k) => Step {
                answer: Answer::Refused(Refusal::Fault(Cause::IllegalString, k as u32)),
                state: s,
            },
        },
        Err(f) => Step {
            answer: Answer::Refused(f),
            state: s,
        },
    }
}
