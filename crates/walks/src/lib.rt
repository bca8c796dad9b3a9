// The unused rules and tokens one by one: where a walk over them stands, and its next row.
#![tactic(auto)]

ghost use Rattle.std.specs.Prelude.{◌≡◌, true, false, ◌+◌, ◌<◌, ◌≤◌, ◌^◌};
ghost use Rattle.grammar.specs.Sound.{Tables, Indexes};
ghost use Rattle.reach.specs.Reach.{named, rule_sort, token_sort};
ghost use Rattle.usage.specs.Report.{Says, excuses_of, Free};
ghost use Rattle.walks.specs.Walk.{next_spot, Sought, Passes, Fitting, Advanced};

use grammar::{Counts, Singles};
use places::Spot;
use reach::Sort;

// How many rule rows and how many token rows a walk has passed. A fresh one is all zero.
#[derive(Clone, Copy)]
pub struct Standing {
    pub rules: u32,
    pub tokens: u32,
}

#[derive(Clone, Copy)]
pub enum NextError {
    // Unsound tables, a record past the counts, or too few work words.
    NotFitting,
}

// What a call answers, and where the walk stands behind it.
#[derive(Clone, Copy)]
pub struct Moved {
    // Kind and row; none where no row is left.
    pub answer: Result<Option<(u32, u32)>, NextError>,
    pub at: Standing,
}

// An answer with line and column of its place.
#[derive(Clone, Copy)]
pub struct NextAt {
    // Kind and row; none where no row is left.
    pub answer: Result<Option<(u32, u32)>, NextError>,
    pub spot: Spot,
}

// The same, and where the walk stands behind it.
#[derive(Clone, Copy)]
pub struct Stepped {
    pub next: NextAt,
    pub at: Standing,
}

// The first row from `from` on that is to be listed.
fn first_free(
    w: &[u32],
    src: &[u8],
    c: Counts,
    names: &[u32],
    z: Sort,
    t4: &[u32],
    t6: &[u32],
    from: u32,
) -> Option<u32>
    requires { z.base < 2 ^ 40 }
    ensures { Sought (Free w.now (excuses_of src.now c t4.now t6.now) (named names.now z)) from z.count result }
{
    (from..z.count).find(|row| usage::is_free(w, src, c, names, z, t4, t6, *row))
}

// The next row by the bits, rules first.
fn pass(
    w: &[u32],
    src: &[u8],
    c: Counts,
    t1: &[u32],
    t4: &[u32],
    t6: &[u32],
    t7: &[u32],
    at: Standing,
) -> Moved
    ensures { Passes w.now (excuses_of src.now c t4.now t6.now) (named t7.now (rule_sort c)) (named t1.now (token_sort c)) at result.answer result.at }
{
    let rules = reach::rule_sort(c);
    let tokens = reach::token_sort(c);
    match first_free(w, src, c, t7, rules, t4, t6, at.rules) {
        Some(r) => Moved {
            answer: Ok(Some((1, r))),
            at: Standing {
                rules: r + 1,
                tokens: at.tokens,
            },
        },
        None => match first_free(w, src, c, t1, tokens, t4, t6, at.tokens) {
            Some(r) => Moved {
                answer: Ok(Some((2, r))),
                at: Standing {
                    rules: at.rules,
                    tokens: r + 1,
                },
            },
            None => Moved {
                answer: Ok(None),
                at,
            },
        },
    }
}

// Whether the record is not past the counts, the words are enough and the tables sound.
fn is_fitting(
    src: &[u8],
    c: Counts,
    g: Singles,
    t1: &[u32],
    t2: &[u32],
    t3: &[u32],
    t4: &[u32],
    t5: &[u32],
    t6: &[u32],
    t7: &[u32],
    t8: &[u32],
    t9: &[u32],
    t10: &[u32],
    i1: &[u32],
    i7: &[u32],
    work: &[u32],
    at: Standing,
) -> bool
    ensures { Says result (Fitting src.now c g (record { t1 = t1.now; t2 = t2.now; t3 = t3.now; t4 = t4.now; t5 = t5.now; t6 = t6.now; t7 = t7.now; t8 = t8.now; t9 = t9.now; t10 = t10.now }) (record { tokens = i1.now; rules = i7.now }) work.now at) }
{
    let rules = sound::rows_of(c, tables::RULES);
    let tokens = sound::rows_of(c, tables::TOKENS);
    if rules < at.rules {
        return false;
    }
    if tokens < at.tokens {
        return false;
    }
    if work.len() < reach::words_for(rules) + reach::words_for(tokens) {
        return false;
    }
    sound::sound(src, c, g, t1, t2, t3, t4, t5, t6, t7, t8, t9, t10, i1, i7)
}

// One call with the record by value, as it is answered.
fn advance(
    src: &[u8],
    c: Counts,
    g: Singles,
    t1: &[u32],
    t2: &[u32],
    t3: &[u32],
    t4: &[u32],
    t5: &[u32],
    t6: &[u32],
    t7: &[u32],
    t8: &[u32],
    t9: &[u32],
    t10: &[u32],
    i1: &[u32],
    i7: &[u32],
    work: &[u32],
    at: Standing,
) -> Moved
    ensures { Advanced src.now c g (record { t1 = t1.now; t2 = t2.now; t3 = t3.now; t4 = t4.now; t5 = t5.now; t6 = t6.now; t7 = t7.now; t8 = t8.now; t9 = t9.now; t10 = t10.now }) (record { tokens = i1.now; rules = i7.now }) work.now at result.answer result.at }
{
    if is_fitting(
        src, c, g, t1, t2, t3, t4, t5, t6, t7, t8, t9, t10, i1, i7, work, at,
    ) {
        return pass(work, src, c, t1, t4, t6, t7, at);
    }
    Moved {
        answer: Err(NextError::NotFitting),
        at,
    }
}

// One step of a walk: the record is taken and given back by value.
pub fn step(
    src: &[u8],
    c: Counts,
    g: Singles,
    t1: &[u32],
    t2: &[u32],
    t3: &[u32],
    t4: &[u32],
    t5: &[u32],
    t6: &[u32],
    t7: &[u32],
    t8: &[u32],
    t9: &[u32],
    t10: &[u32],
    i1: &[u32],
    i7: &[u32],
    work: &[u32],
    at: Standing,
) -> Stepped
    ensures advanced { Advanced src.now c g (record { t1 = t1.now; t2 = t2.now; t3 = t3.now; t4 = t4.now; t5 = t5.now; t6 = t6.now; t7 = t7.now; t8 = t8.now; t9 = t9.now; t10 = t10.now }) (record { tokens = i1.now; rules = i7.now }) work.now at result.next.answer result.at }
    ensures spot_value { result.next.spot ≡ next_spot src.now result.next.answer }
{
    let p = advance(
        src, c, g, t1, t2, t3, t4, t5, t6, t7, t8, t9, t10, i1, i7, work, at,
    );
    let answer = p.answer;
    let at = p.at;
    Stepped {
        next: NextAt {
            answer,
            spot: places::locate(src, 0),
        },
        at,
    }
}

// The same with the record lent: it is moved on in place.
pub fn next_unused(
    src: &[u8],
    c: Counts,
    g: Singles,
    t1: &[u32],
    t2: &[u32],
    t3: &[u32],
    t4: &[u32],
    t5: &[u32],
    t6: &[u32],
    t7: &[u32],
    t8: &[u32],
    t9: &[u32],
    t10: &[u32],
    i1: &[u32],
    i7: &[u32],
    work: &[u32],
    at: &mut Standing,
) -> NextAt
    ensures advanced { Advanced src.now c g (record { t1 = t1.now; t2 = t2.now; t3 = t3.now; t4 = t4.now; t5 = t5.now; t6 = t6.now; t7 = t7.now; t8 = t8.now; t9 = t9.now; t10 = t10.now }) (record { tokens = i1.now; rules = i7.now }) work.now at.old result.answer at.new }
    ensures spot_value { result.spot ≡ next_spot src.now result.answer }
{
    let s = step(
        src, c, g, t1, t2, t3, t4, t5, t6, t7, t8, t9, t10, i1, i7, work, *at,
    );
    *at = s.at;
    s.next
}
