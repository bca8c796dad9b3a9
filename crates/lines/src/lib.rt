// Lists that run to their line's end: precedences, `%avoid_insert` and `%implicit_tokens`. Each declaration is handed the state behind its keyword.
#![tactic(auto)]

ghost use Rattle.std.specs.Prelude.{◌<◌, ◌≡◌};
ghost use Rattle.tables.specs.Layout.{precedences, avoided, width};
ghost use Rattle.grammar.specs.State.{Out3, Out4, Here, Passed, Moves, Onward, Tokens, Tracked, Follows};
ghost use Rattle.lines.specs.Precedences.{prec_item, prec_list, prec_body, prec_decl};
ghost use Rattle.lines.specs.Avoided.{avoid_named, avoid_item, avoid_list, avoid_decl};

use grammar::{Answer, Cause, Refusal, Repeat, State, Step};

// One token of a precedence line, the row of its tag, and what stands behind it: done where that counted a line end.
pub fn prec_item(
    src: &[u8],
    s: State,
    level: u32,
    assoc: u32,
    tag: Option<(u32, u32)>,
    t2: &mut [u32],
    t10: &mut [u32],
    t15: &mut [u32],
    t16: &mut [u32],
    fx: &mut [u16],
) -> Step
    requires { Here src.now s.at × Tracked src.now precedences (width precedences) 0 s.counts t2.old fx.old }
    ensures is { ◌≡◌ {A = Out4} (record { answer = result.answer; state = result.state; a = t2.new; b = t10.new; c = t15.new; d = t16.new }) (prec_item src.now s level assoc tag t2.old t10.old t15.old t16.old) }
    ensures moved { Moves src.now s.at result.answer result.state.at }
    ensures indexed { Follows src.now precedences (width precedences) 0 result.state.counts t2.new fx.old fx.new }
{
    let at = s.at;
    match words::parse_token(src, at) {
        Ok((p, end, _)) => {
            let from = p.from as u32;
            let to = p.to as u32;
            let row = [from, to, level, assoc];
            let r = grammar::once(
                src,
                s,
                tables::PRECEDENCES,
                tables::PRECEDENCE_WIDTH,
                tables::NAME,
                Repeat::RepeatedPrecedence,
                &row,
                t2,
                t10,
                fx,
            );
            let q = marks::tag_row(r, tag, from, to, t15);
            marks::behind_word(src, q, from, to, end, true, t16)
        }
        Err(k) => Step {
            answer: Answer::Refused(Refusal::Fault(Cause::IllegalString, k as u32)),
            state: s,
        },
    }
}

// The tokens up to the line's end, or to the source's end.
pub fn prec_list(
    src: &[u8],
    s: State,
    level: u32,
    assoc: u32,
    tag: Option<(u32, u32)>,
    t2: &mut [u32],
    t10: &mut [u32],
    t15: &mut [u32],
    t16: &mut [u32],
    fx: &mut [u16],
) -> Step
    requires { Here src.now s.at × Tracked src.now precedences (width precedences) 0 s.counts t2.old fx.old }
    ensures is { ◌≡◌ {A = Out4} (record { answer = result.answer; state = result.state; a = t2.new; b = t10.new; c = t15.new; d = t16.new }) (prec_list src.now s level assoc tag t2.old t10.old t15.old t16.old) }
    ensures moved { Passed src.now s.at result.state.at }
    ensures indexed { Follows src.now precedences (width precedences) 0 result.state.counts t2.new fx.old fx.new }
{
    let mut st = s;
    loop {
        let at = st.at;
        if src.len() <= at {
            return Step {
                answer: Answer::Going,
                state: st,
            };
        }
        let r = prec_item(src, st, level, assoc, tag, t2, t10, t15, t16, fx);
        let a = r.answer;
        let next = r.state;
        match a {
            Answer::Going => {
                st = next;
            }
            Answer::Done => {
                return Step {
                    answer: Answer::Going,
                    state: next,
                };
            }
            Answer::Refused(_) => {
                return r;
            }
        }
    }
}

// The tag and the tokens of a line.
pub fn prec_body(
    src: &[u8],
    s: State,
    level: u32,
    assoc: u32,
    t2: &mut [u32],
    t10: &mut [u32],
    t15: &mut [u32],
    t16: &mut [u32],
    fx: &mut [u16],
) -> Step
    requires { Here src.now s.at × Tracked src.now precedences (width precedences) 0 s.counts t2.old fx.old }
    ensures is { ◌≡◌ {A = Out4} (record { answer = result.answer; state = result.state; a = t2.new; b = t10.new; c = t15.new; d = t16.new }) (prec_body src.now s level assoc t2.old t10.old t15.old t16.old) }
    ensures moved { Passed src.now s.at result.state.at }
    ensures indexed { Follows src.now precedences (width precedences) 0 result.state.counts t2.new fx.old fx.new }
{
    let l = marks::lead_tag(src, s, false, true);
    let a = l.answer;
    let n = l.state;
    let tag = l.tag;
    match a {
        Answer::Going => prec_list(src, n, level, assoc, tag, t2, t10, t15, t16, fx),
        Answer::Done => Step {
            answer: Answer::Going,
            state: n,
        },
        Answer::Refused(f) => Step {
            answer: Answer::Refused(f),
            state: n,
        },
    }
}

// A line of `%left`, `%right` or `%nonassoc`: it takes a level.
pub fn prec_decl(
    src: &[u8],
    s: State,
    assoc: u32,
    t2: &mut [u32],
    t10: &mut [u32],
    t15: &mut [u32],
    t16: &mut [u32],
    fx: &mut [u16],
) -> Step
    requires { Here src.now s.at × Tracked src.now precedences (width precedences) 0 s.counts t2.old fx.old }
    ensures is { ◌≡◌ {A = Out4} (record { answer = result.answer; state = result.state; a = t2.new; b = t10.new; c = t15.new; d = t16.new }) (prec_decl src.now s assoc t2.old t10.old t15.old t16.old) }
    ensures moved { Passed src.now s.at result.state.at }
    ensures indexed { Follows src.now precedences (width precedences) 0 result.state.counts t2.new fx.old fx.new }
{
    let behind = s.at;
    match grammar::pass_gap(src, s.kind, behind, false) {
        Ok((i, _)) => {
            let level = s.level;
            let mut next = s;
            next.at = i;
            next.level = grammar::next_level(level);
            prec_body(src, next, level, assoc, t2, t10, t15, t16, fx)
        }
        Err(f) => Step {
            answer: Answer::Refused(f),
            state: s,
        },
    }
}

// A token is entered, undeclared, and given to table `k + 1`, another one, once; its word ends at `end`.
pub fn avoid_named(
    src: &[u8],
    s: State,
    k: u8,
    what: Repeat,
    from: u32,
    to: u32,
    end: usize,
    t1: &mut [u32],
    t: &mut [u32],
    t10: &mut [u32],
    i1: &mut [u16],
    fx: &mut [u16],
) -> Step
    requires { Here src.now end × Tokens src.now s.counts t1.old i1.old × (0 < k) × (k < 9) × Tracked src.now k (width avoided) 0 s.counts t.old fx.old }
    ensures is { ◌≡◌ {A = Out3} (record { answer = result.answer; state = result.state; a = t1.new; b = t.new; c = t10.new }) (avoid_named src.now s k what from to end t1.old t.old t10.old) }
    ensures moved { Onward src.now end s.at result.answer result.state.at }
    ensures indexed { Tokens src.now result.state.counts t1.new i1.new × Follows src.now k (width avoided) 0 result.state.counts t.new fx.old fx.new }
{
    let e = grammar::enter(src, s, from, to, false, t1, i1);
    let a = e.answer;
    let next = e.state;
    match a {
        Answer::Going => {
            let row = [from, to];
            let r = grammar::once(
                src,
                next,
                k,
                tables::NAME_WIDTH,
                tables::NAME,
                what,
                &row,
                t,
                t10,
                fx,
            );
            grammar::pass_on(src, r, end, true)
        }
        Answer::Done => Step {
            answer: Answer::Done,
            state: next,
        },
        Answer::Refused(f) => Step {
            answer: Answer::Refused(f),
            state: next,
        },
    }
}

// One token of an avoid or implicit list, and the spacing behind it: done where that counted a line end.
pub fn avoid_item(
    src: &[u8],
    s: State,
    k: u8,
    what: Repeat,
    t1: &mut [u32],
    t: &mut [u32],
    t10: &mut [u32],
    i1: &mut [u16],
    fx: &mut [u16],
) -> Step
    requires { Here src.now s.at × Tokens src.now s.counts t1.old i1.old × (0 < k) × (k < 9) × Tracked src.now k (width avoided) 0 s.counts t.old fx.old }
    ensures is { ◌≡◌ {A = Out3} (record { answer = result.answer; state = result.state; a = t1.new; b = t.new; c = t10.new }) (avoid_item src.now s k what t1.old t.old t10.old) }
    ensures moved { Moves src.now s.at result.answer result.state.at }
    ensures indexed { Tokens src.now result.state.counts t1.new i1.new × Follows src.now k (width avoided) 0 result.state.counts t.new fx.old fx.new }
{
    let at = s.at;
    match words::parse_token(src, at) {
        Ok((p, end, _)) => {
            avoid_named(
                src,
                s,
                k,
                what,
                p.from as u32,
                p.to as u32,
                end,
                t1,
                t,
                t10,
                i1,
                fx,
            )
        }
        Err(i) => Step {
            answer: Answer::Refused(Refusal::Fault(Cause::IllegalString, i as u32)),
            state: s,
        },
    }
}

// The tokens up to the line's end; the list goes on at the source's end, and is refused there.
pub fn avoid_list(
    src: &[u8],
    s: State,
    k: u8,
    what: Repeat,
    t1: &mut [u32],
    t: &mut [u32],
    t10: &mut [u32],
    i1: &mut [u16],
    fx: &mut [u16],
) -> Step
    requires { Here src.now s.at × Tokens src.now s.counts t1.old i1.old × (0 < k) × (k < 9) × Tracked src.now k (width avoided) 0 s.counts t.old fx.old }
    ensures is { ◌≡◌ {A = Out3} (record { answer = result.answer; state = result.state; a = t1.new; b = t.new; c = t10.new }) (avoid_list src.now s k what t1.old t.old t10.old) }
    ensures moved { Passed src.now s.at result.state.at }
    ensures indexed { Tokens src.now result.state.counts t1.new i1.new × Follows src.now k (width avoided) 0 result.state.counts t.new fx.old fx.new }
{
    let mut st = s;
    loop {
        let r = avoid_item(src, st, k, what, t1, t, t10, i1, fx);
        let a = r.answer;
        let next = r.state;
        match a {
            Answer::Going => {
                st = next;
            }
            Answer::Done => {
                return Step {
                    answer: Answer::Going,
                    state: next,
                };
            }
            Answer::Refused(_) => {
                return r;
            }
        }
    }
}

// `%avoid_insert` for table 3, `%implicit_tokens` for table 4. Where the keyword is the source's end there is no list.
pub fn avoid_decl(
    src: &[u8],
    s: State,
    k: u8,
    what: Repeat,
    t1: &mut [u32],
    t: &mut [u32],
    t10: &mut [u32],
    i1: &mut [u16],
    fx: &mut [u16],
) -> Step
    requires { Here src.now s.at × Tokens src.now s.counts t1.old i1.old × (0 < k) × (k < 9) × Tracked src.now k (width avoided) 0 s.counts t.old fx.old }
    ensures is { ◌≡◌ {A = Out3} (record { answer = result.answer; state = result.state; a = t1.new; b = t.new; c = t10.new }) (avoid_decl src.now s k what t1.old t.old t10.old) }
    ensures moved { Passed src.now s.at result.state.at }
    ensures indexed { Tokens src.now result.state.counts t1.new i1.new × Follows src.now k (width avoided) 0 result.state.counts t.new fx.old fx.new }
{
    let at = s.at;
    if src.len() <= at {
        return Step {
            answer: Answer::Going,
            state: s,
        };
    }
    match grammar::pass_gap(src, s.kind, at, false) {
        Ok((i, _)) => {
            let mut next = s;
            next.at = i;
            avoid_list(src, next, k, what, t1, t, t10, i1, fx)
        }
        Err(f) => Step {
            answer: Answer::Refused(f),
            state: s,
        },
    }
}
