// The declarations section: one declaration after another, up to `%%`.
#![tactic(auto)]

ghost use Rattle.std.specs.Prelude.{◌≡◌};
ghost use Rattle.grammar.specs.State.{Here, Passed, Moves, Tokens};
ghost use Rattle.declarations.specs.Declarations.{Declared, Givens, Out, decl_step, decl_run, decl_all};

use grammar::{Answer, Cause, Refusal, Repeat, State, Step};
use keywords::Keyword;
use lists::WordList;

// One declaration; done at `%%`, where the state stays.
pub fn declaration(
    src: &[u8],
    s: State,
    t1: &mut [u32],
    t2: &mut [u32],
    t3: &mut [u32],
    t4: &mut [u32],
    t5: &mut [u32],
    t6: &mut [u32],
    t10: &mut [u32],
    t15: &mut [u32],
    t16: &mut [u32],
    t17: &mut [u32],
    i1: &mut [u16],
    fx: &mut [u16],
) -> Step
    requires { Here src.now s.at × Tokens src.now s.counts t1.old i1.old × Givens src.now s.counts t2.old t3.old t4.old t5.old fx.old }
    ensures is { ◌≡◌ {A = Out} (record { answer = result.answer; state = result.state; tables = record { t1 = t1.new; t2 = t2.new; t3 = t3.new; t4 = t4.new; t5 = t5.new; t6 = t6.new; t10 = t10.new; t15 = t15.new; t16 = t16.new; t17 = t17.new } }) (decl_step src.now s (record { t1 = t1.old; t2 = t2.old; t3 = t3.old; t4 = t4.old; t5 = t5.old; t6 = t6.old; t10 = t10.old; t15 = t15.old; t16 = t16.old; t17 = t17.old })) }
    ensures moved { Moves src.now s.at result.answer result.state.at }
    ensures indexed { Tokens src.now result.state.counts t1.new i1.new × Givens src.now result.state.counts t2.new t3.new t4.new t5.new fx.new }
{
    let at = s.at;
    let seen = keywords::look(src, at, s.kind);
    let k = seen.word;
    let mut n = s;
    n.at = seen.end;
    match k {
        Keyword::Percents => Step {
            answer: Answer::Done,
            state: s,
        },
        Keyword::TokenWord => { lists::list_decl(src, n, WordList::TokenList, t1, t15, t16, i1) },
        Keyword::ActiontypeWord => settings::actiontype_decl(src, n, t10),
        Keyword::StartWord => settings::start_decl(src, n, t10),
        Keyword::EppWord => epps::epp_decl(src, n, t5, t10, fx),
        Keyword::ExpectRrWord => settings::expect_decl(src, n, true, t10),
        Keyword::ExpectUnusedWord => {
            lists::list_decl(src, n, WordList::UnusedList, t6, t15, t16, i1)
        },
        Keyword::ExpectWord => settings::expect_decl(src, n, false, t10),
        Keyword::AvoidInsertWord => {
            lines::avoid_decl(
                src,
                n,
                tables::AVOIDED,
                Repeat::RepeatedAvoidInsert,
                t1,
                t3,
                t10,
                i1,
                fx,
            )
        }
        Keyword::ParseParamWord => settings::param_decl(src, n),
        Keyword::ParseGenericsWord => settings::generics_decl(src, n),
        Keyword::ImplicitTokensWord => {
            lines::avoid_decl(
                src,
                n,
                tables::IMPLICIT,
                Repeat::RepeatedImplicitTokens,
                t1,
                t4,
                t10,
                i1,
                fx,
            )
        }
        Keyword::LeftWord => lines::prec_decl(src, n, 1, t2, t10, t15, t16, fx),
        Keyword::RightWord => lines::prec_decl(src, n, 2, t2, t10, t15, t16, fx),
        Keyword::NonassocWord => lines::prec_decl(src, n, 3, t2, t10, t15, t16, fx),
        Keyword::PrologueWord => bodies::prologue_decl(src, n, at as u32, t17),
        Keyword::UnionWord => bodies::union_decl(src, n, at as u32, t17),
        Keyword::TypeWord => { lists::list_decl(src, n, WordList::TypeList, t6, t15, t16, i1) }
        Keyword::NoKeyword => Step {
            answer: Answer::Refused(Refusal::Fault(Cause::UnknownDeclaration, at as u32)),
            state: s,
        },
    }
}

// Declarations to the `%%`, or to the first refusal; 10 at the source's end.
pub fn declaration_run(
    src: &[u8],
    s: State,
    t1: &mut [u32],
    t2: &mut [u32],
    t3: &mut [u32],
    t4: &mut [u32],
    t5: &mut [u32],
    t6: &mut [u32],
    t10: &mut [u32],
    t15: &mut [u32],
    t16: &mut [u32],
    t17: &mut [u32],
    i1: &mut [u16],
    fx: &mut [u16],
) -> Step
    requires { Here src.now s.at × Tokens src.now s.counts t1.old i1.old × Givens src.now s.counts t2.old t3.old t4.old t5.old fx.old }
    ensures is { ◌≡◌ {A = Out} (record { answer = result.answer; state = result.state; tables = record { t1 = t1.new; t2 = t2.new; t3 = t3.new; t4 = t4.new; t5 = t5.new; t6 = t6.new; t10 = t10.new; t15 = t15.new; t16 = t16.new; t17 = t17.new } }) (decl_run src.now s (record { t1 = t1.old; t2 = t2.old; t3 = t3.old; t4 = t4.old; t5 = t5.old; t6 = t6.old; t10 = t10.old; t15 = t15.old; t16 = t16.old; t17 = t17.old })) }
    ensures moved { Passed src.now s.at result.state.at }
    ensures indexed { Tokens src.now result.state.counts t1.new i1.new × Givens src.now result.state.counts t2.new t3.new t4.new t5.new fx.new }
{
    let mut st = s;
    loop {
        let at = st.at;
        if src.len() <= at {
            return Step {
                answer: Answer::Refused(Refusal::Fault(Cause::PrematureEnd, at as u32)),
                state: st,
            };
        }
        let r = declaration(src, st, t1, t2, t3, t4, t5, t6, t10, t15, t16, t17, i1, fx);
        let a = r.answer;
        match a {
            Answer::Going => {
                let next = r.state;
                st = next;
            }
            Answer::Done => {
                return r;
            }
            Answer::Refused(_) => {
                return r;
            }
        }
    }
}

// The section from where the state stands, which is the source's begin.
pub fn declarations(
    src: &[u8],
    s: State,
    t1: &mut [u32],
    t2: &mut [u32],
    t3: &mut [u32],
    t4: &mut [u32],
    t5: &mut [u32],
    t6: &mut [u32],
    t10: &mut [u32],
    t15: &mut [u32],
    t16: &mut [u32],
    t17: &mut [u32],
    i1: &mut [u16],
    fx: &mut [u16],
) -> Step
    requires { Here src.now s.at × Tokens src.now s.counts t1.old i1.old × Givens src.now s.counts t2.old t3.old t4.old t5.old fx.old }
    ensures is { ◌≡◌ {A = Out} (record { answer = result.answer; state = result.state; tables = record { t1 = t1.new; t2 = t2.new; t3 = t3.new; t4 = t4.new; t5 = t5.new; t6 = t6.new; t10 = t10.new; t15 = t15.new; t16 = t16.new; t17 = t17.new } }) (decl_all src.now s (record { t1 = t1.old; t2 = t2.old; t3 = t3.old; t4 = t4.old; t5 = t5.old; t6 = t6.old; t10 = t10.old; t15 = t15.old; t16 = t16.old; t17 = t17.old })) }
    ensures moved { Passed src.now s.at result.state.at }
    ensures indexed { Tokens src.now result.state.counts t1.new i1.new × Givens src.now result.state.counts t2.new t3.new t4.new t5.new fx.new }
{
    let at = s.at;
    match grammar::pass_gap(src, s.kind, at, true) {
        Ok((i, _)) => {
            let mut n = s;
            n.at = i;
            declaration_run(src, n, t1, t2, t3, t4, t5, t6, t10, t15, t16, t17, i1, fx)
        }
        Err(f) => Step {
            answer: Answer::Refused(f),
            state: s,
        },
    }
}
