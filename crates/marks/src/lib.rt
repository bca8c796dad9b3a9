// What kind 4 puts around the words of a list: a tag in front of them, and a number behind each. In the other kinds there is neither.
#![tactic(auto)]

ghost use Rattle.std.specs.Prelude.{◌≡◌};
ghost use Rattle.grammar.specs.State.{Out1, Here, Onward};
ghost use Rattle.marks.specs.Marks.{Leading, lead_tag, tag_row, number_behind, behind_word};

use grammar::{Answer, Cause, Refusal, State, Step};
use words::{IntError, TagError};

// The tag of a list, given or not, or why there is none.
#[derive(Clone, Copy)]
pub struct Lead {
    pub answer: Answer,
    pub state: State,
    pub tag: Option<(u32, u32)>,
}

// The tag that may stand here, or has to, and the spacing behind it; in a list that ends with its line, done where that counted a line end.
pub fn lead_tag(src: &[u8], s: State, wanted: bool, line: bool) -> Lead
    requires { Here src.now s.at }
    ensures is { ◌≡◌ {A = Leading} (record { answer = result.answer; state = result.state; tag = result.tag }) (lead_tag src.now s wanted line) }
    ensures moved { Onward src.now s.at s.at result.answer result.state.at }
    ensures counted { result.state.counts ≡ s.counts }
{
    if s.kind != 4 {
        return Lead {
            answer: Answer::Going,
            state: s,
            tag: None,
        };
    }
    let at = s.at;
    match words::parse_tag(src, at) {
        Ok((p, end)) => {
            let q = grammar::past_gap(src, s, end, line);
            let answer = q.answer;
            let state = q.state;
            Lead {
                answer,
                state,
                tag: Some((p.from as u32, p.to as u32)),
            }
        }
        Err(TagError::OpenTag(i)) => Lead {
            answer: Answer::Refused(Refusal::Fault(Cause::TagNotClosed, i as u32)),
            state: s,
            tag: None,
        },
        Err(TagError::NoTag(i)) => {
            if wanted {
                return Lead {
                    answer: Answer::Refused(Refusal::Fault(Cause::TagMissing, i as u32)),
                    state: s,
                    tag: None,
                };
            }
            Lead {
                answer: Answer::Going,
                state: s,
                tag: None,
            }
        }
    }
}

// Behind a step that goes on, a row of table 15 for the word from `from` to `to`, if its list has a tag.
pub fn tag_row(r: Step, tag: Option<(u32, u32)>, from: u32, to: u32, t15: &mut [u32]) -> Step
    ensures is { ◌≡◌ {A = Out1} (record { answer = result.answer; state = result.state; a = t15.new }) (tag_row r.answer r.state tag from to t15.old) }
    ensures kept { result.state.at ≡ r.state.at }
    ensures counted { result.state.counts ≡ r.state.counts }
{
    let a = r.answer;
    let s = r.state;
    match a {
        Answer::Going => match tag {
            None => Step {
                answer: Answer::Going,
                state: s,
            },
            Some((i, j)) => {
                let row = [from, to, i, j];
                grammar::push(s, tables::TAGS, &row, t15)
            }
        },
        Answer::Done => Step {
            answer: Answer::Done,
            state: s,
        },
        Answer::Refused(f) => Step {
            answer: Answer::Refused(f),
            state: s,
        },
    }
}

// In kind 4 the number that may stand here, its row of table 16, and the spacing behind it.
pub fn number_behind(src: &[u8], s: State, from: u32, to: u32, line: bool, t16: &mut [u32]) -> Step
    requires { Here src.now s.at }
    ensures is { ◌≡◌ {A = Out1} (record { answer = result.answer; state = result.state; a = t16.new }) (number_behind src.now line from to s t16.old) }
    ensures moved { Onward src.now s.at s.at result.answer result.state.at }
    ensures counted { result.state.counts ≡ s.counts }
{
    if s.kind != 4 {
        return Step {
            answer: Answer::Going,
            state: s,
        };
    }
    let at = s.at;
    match words::parse_int(src, at) {
        Ok((v, end)) => {
            if 4294967295 < v {
                return Step {
                    answer: Answer::Refused(Refusal::Fault(Cause::IntegerTooLarge, at as u32)),
                    state: s,
                };
            }
            let row = [from, to, v as u32];
            let r = grammar::push(s, tables::TOKEN_NUMBERS, &row, t16);
            grammar::pass_on(src, r, end, line)
        }
        Err(IntError::NoDigits(_)) => Step {
            answer: Answer::Going,
            state: s,
        },
        Err(IntError::TooLarge(k)) => Step {
            answer: Answer::Refused(Refusal::Fault(Cause::IntegerTooLarge, k as u32)),
            state: s,
        },
    }
}

// The spacing behind a word, which ends at `end`, and what number follows it.
pub fn behind_word(
    src: &[u8],
    r: Step,
    from: u32,
    to: u32,
    end: usize,
    line: bool,
    t16: &mut [u32],
) -> Step
    requires { Here src.now end }
    ensures is { ◌≡◌ {A = Out1} (record { answer = result.answer; state = result.state; a = t16.new }) (behind_word src.now line from to end r.answer r.state t16.old) }
    ensures moved { Onward src.now end r.state.at result.answer result.state.at }
    ensures counted { result.state.counts ≡ r.state.counts }
{
    let q = grammar::pass_on(src, r, end, line);
    let a = q.answer;
    let s = q.state;
    match a {
        Answer::Going => number_behind(src, s, from, to, line, t16),
        Answer::Done => Step {
            answer: Answer::Done,
            state: s,
        },
        Answer::Refused(f) => Step {
            answer: Answer::Refused(f),
            state: s,
        },
    }
}
