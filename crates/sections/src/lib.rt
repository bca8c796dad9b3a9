// The sections of a source: kind, the indexes' sizes, length and UTF-8, then declarations, rules and programs.
#![tactic(auto)]

ghost use Rattle.std.specs.Prelude.{◌≡◌, ◌≤◌};
ghost use Rattle.grammar.specs.State.{Here, Passed, Tokens, Rules, fresh, no_singles};
ghost use Rattle.declarations.specs.Declarations.{Givens};
ghost use Rattle.rules.specs.Rules.{Ruled};
ghost use Rattle.sections.specs.Sections.{Run, Short, sizes_fit, admitted, rest_all, sections_all, attempted};

use grammar::{Answer, Cause, Counts, PosixCounts, Refusal, Singles, State, Step};

// Whether both indexes have a right size for their tables: slots for cells.
pub fn sizes_fit(m1: usize, n1: usize, m7: usize, n7: usize) -> bool
    ensures { result ≡ sizes_fit m1 n1 m7 n7 }
{
    index::size_sound(m1, n1, tables::TOKEN_WIDTH) & index::size_sound(m7, n7, tables::RULE_WIDTH)
}

// Whether a source can be read at all: 43, 45, 41 and 40, in that order.
pub fn admit(src: &[u8], kind: u32, sized: bool) -> Result<(), Refusal>
    ensures is { result ≡ admitted src.now kind sized }
    ensures short { Short src.now result }
{
    if (kind < 1) | (4 < kind) {
        return Err(Refusal::BadKind);
    }
    if !sized {
        return Err(Refusal::BadIndex);
    }
    if 65536 < src.len() {
        return Err(Refusal::TooLong);
    }
    match whole::check(src) {
        Ok(()) => Ok(()),
        Err(i) => Err(Refusal::Fault(Cause::NotUtf8, i as u32)),
    }
}

pub fn no_singles() -> Singles
    ensures { result ≡ no_singles }
{
    Singles {
        start: None,
        expect: None,
        expect_rr: None,
        param: None,
        generics: None,
        programs: None,
    }
}

// Where a reading of a kind begins.
pub fn begin(kind: u32) -> State
    ensures { result ≡ fresh kind }
{
    State {
        kind,
        at: 0,
        level: 0,
        counts: Counts {
            n: [0, 0, 0, 0, 0, 0, 0, 0, 0, 0],
        },
        posix: PosixCounts { n: [0, 0, 0] },
        singles: no_singles(),
        actiontype: None,
    }
}

// Rules and programs.
pub fn rest(
    src: &[u8],
    s: State,
    t1: &mut [u32],
    t7: &mut [u32],
    t8: &mut [u32],
    t9: &mut [u32],
    f1: &mut [u16],
    f7: &mut [u16],
) -> Step
    requires { Here src.now s.at × Tokens src.now s.counts t1.old f1.old × Rules src.now s.counts t7.old f7.old }
    ensures is { ◌≡◌ {A = Ruled} (record { answer = result.answer; state = result.state; t1 = t1.new; t7 = t7.new; t8 = t8.new; t9 = t9.new }) (rest_all src.now s t1.old t7.old t8.old t9.old) }
    ensures moved { Passed src.now s.at result.state.at }
    ensures indexed { Tokens src.now result.state.counts t1.new f1.new × Rules src.now result.state.counts t7.new f7.new }
{
    let r = rules::rules(src, s, t1, t7, t8, t9, f1, f7);
    let a = r.answer;
    let n = r.state;
    match a {
        Answer::Going => rules::programs(src, n),
        Answer::Done => Step {
            answer: Answer::Done,
            state: n,
        },
        Answer::Refused(f) => Step {
            answer: Answer::Refused(f),
            state: n,
        },
    }
}

// The three sections. Declarations end with `%%` or refused; where they could go on the rules would be missing.
pub fn sections(
    src: &[u8],
    s: State,
    t1: &mut [u32],
    t2: &mut [u32],
    t3: &mut [u32],
    t4: &mut [u32],
    t5: &mut [u32],
    t6: &mut [u32],
    t7: &mut [u32],
    t8: &mut [u32],
    t9: &mut [u32],
    t10: &mut [u32],
    t15: &mut [u32],
    t16: &mut [u32],
    t17: &mut [u32],
    f1: &mut [u16],
    f7: &mut [u16],
    fx: &mut [u16],
) -> Step
    requires { Here src.now s.at × Tokens src.now s.counts t1.old f1.old × Rules src.now s.counts t7.old f7.old × Givens src.now s.counts t2.old t3.old t4.old t5.old fx.old }
    ensures is { ◌≡◌ {A = Run} (record { answer = result.answer; state = result.state; tables = record { t1 = t1.new; t2 = t2.new; t3 = t3.new; t4 = t4.new; t5 = t5.new; t6 = t6.new; t7 = t7.new; t8 = t8.new; t9 = t9.new; t10 = t10.new; t15 = t15.new; t16 = t16.new; t17 = t17.new } }) (sections_all src.now s (record { t1 = t1.old; t2 = t2.old; t3 = t3.old; t4 = t4.old; t5 = t5.old; t6 = t6.old; t7 = t7.old; t8 = t8.old; t9 = t9.old; t10 = t10.old; t15 = t15.old; t16 = t16.old; t17 = t17.old })) }
    ensures moved { Passed src.now s.at result.state.at }
    ensures indexed { Tokens src.now result.state.counts t1.new f1.new × Rules src.now result.state.counts t7.new f7.new }
{
    let r = declarations::declarations(src, s, t1, t2, t3, t4, t5, t6, t10, t15, t16, t17, f1, fx);
    let a = r.answer;
    let n = r.state;
    match a {
        Answer::Going => Step {
            answer: Answer::Refused(Refusal::Fault(Cause::PrematureEnd, n.at as u32)),
            state: n,
        },
        Answer::Done => rest(src, n, t1, t7, t8, t9, f1, f7),
        Answer::Refused(f) => Step {
            answer: Answer::Refused(f),
            state: n,
        },
    }
}

// The sections of a source that can be read.
pub fn attempt(
    src: &[u8],
    kind: u32,
    sized: bool,
    t1: &mut [u32],
    t2: &mut [u32],
    t3: &mut [u32],
    t4: &mut [u32],
    t5: &mut [u32],
    t6: &mut [u32],
    t7: &mut [u32],
    t8: &mut [u32],
    t9: &mut [u32],
    t10: &mut [u32],
    t15: &mut [u32],
    t16: &mut [u32],
    t17: &mut [u32],
    f1: &mut [u16],
    f7: &mut [u16],
    fx: &mut [u16],
) -> Step
    ensures is { ◌≡◌ {A = Run} (record { answer = result.answer; state = result.state; tables = record { t1 = t1.new; t2 = t2.new; t3 = t3.new; t4 = t4.new; t5 = t5.new; t6 = t6.new; t7 = t7.new; t8 = t8.new; t9 = t9.new; t10 = t10.new; t15 = t15.new; t16 = t16.new; t17 = t17.new } }) (attempted src.now kind sized (record { t1 = t1.old; t2 = t2.old; t3 = t3.old; t4 = t4.old; t5 = t5.old; t6 = t6.old; t7 = t7.old; t8 = t8.old; t9 = t9.old; t10 = t10.old; t15 = t15.old; t16 = t16.old; t17 = t17.old })) }
    ensures near { result.state.at ≤ 65536 }
    ensures indexed { Tokens src.now result.state.counts t1.new f1.new × Rules src.now result.state.counts t7.new f7.new }
{
    let s = begin(kind);
    let a = admit(src, kind, sized);
    match a {
        Ok(()) => sections(
            src, s, t1, t2, t3, t4, t5, t6, t7, t8, t9, t10, t15, t16, t17, f1, f7, fx,
        ),
        Err(f) => Step {
            answer: Answer::Refused(f),
            state: s,
        },
    }
}
