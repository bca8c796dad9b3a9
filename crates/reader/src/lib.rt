// The ends of a read: what is left of the tables after a refusal, and what goes by the rows that stay. The definition of the whole read and its theorems stand here; `runs` has its code.
#![tactic(auto)]

ghost use Rattle.std.specs.Prelude.{◌≡◌, ◌≤◌, length, get_or};
ghost use Rattle.tables.specs.Layout.{tokens, rules, symbols, width};
ghost use Rattle.index.specs.Index.{entries};
ghost use Rattle.symbols.specs.Symbols.{lexicon, filled_rows};
ghost use Rattle.grammar.specs.State.{Tokens, Rules};
ghost use Rattle.tables.specs.Table.{zeroed};
ghost use Rattle.reader.specs.Read.{Outcome, stopped_at, ended_at, finished};

use grammar::{Answer, Counts, PosixCounts, Refusal, Singles, State, Step};

#[derive(Clone, Copy)]
pub struct Reading {
    // The end that was reached.
    pub answer: Result<u32, Refusal>,
    pub counts: Counts,
    pub posix: PosixCounts,
    pub singles: Singles,
}

// Tables 1 to 9 without anything in them.
pub fn clear(
    t1: &mut [u32],
    t2: &mut [u32],
    t3: &mut [u32],
    t4: &mut [u32],
    t5: &mut [u32],
    t6: &mut [u32],
    t7: &mut [u32],
    t8: &mut [u32],
    t9: &mut [u32],
)
    ensures { (t1.new ≡ zeroed t1.old) × (t2.new ≡ zeroed t2.old) × (t3.new ≡ zeroed t3.old) × (t4.new ≡ zeroed t4.old) × (t5.new ≡ zeroed t5.old) × (t6.new ≡ zeroed t6.old) × (t7.new ≡ zeroed t7.old) × (t8.new ≡ zeroed t8.old) × (t9.new ≡ zeroed t9.old) }
{
    tables::zero(t1);
    tables::zero(t2);
    tables::zero(t3);
    tables::zero(t4);
    tables::zero(t5);
    tables::zero(t6);
    tables::zero(t7);
    tables::zero(t8);
    tables::zero(t9);
}

// Tables 15 to 17 without anything in them.
pub fn clear_posix(t15: &mut [u32], t16: &mut [u32], t17: &mut [u32])
    ensures { (t15.new ≡ zeroed t15.old) × (t16.new ≡ zeroed t16.old) × (t17.new ≡ zeroed t17.old) }
{
    tables::zero(t15);
    tables::zero(t16);
    tables::zero(t17);
}

// After a fatal refusal only the repeats stay listed.
pub fn stopped(s: State, f: Refusal) -> Reading
    ensures { result ≡ stopped_at s f }
{
    let n = grammar::count_of(s, tables::REPEATS);
    Reading {
        answer: Err(f),
        counts: Counts {
            n: [0, 0, 0, 0, 0, 0, 0, 0, 0, n],
        },
        posix: PosixCounts { n: [0, 0, 0] },
        singles: sections::no_singles(),
    }
}

// A read that ended: accepted, or refused for its first repeat only.
pub fn ended(s: State, t10: &[u32]) -> Reading
    requires { s.at ≤ 65536 }
    ensures { result ≡ ended_at s t10.now }
{
    let counts = s.counts;
    let posix = s.posix;
    let singles = s.singles;
    if grammar::count_of(s, tables::REPEATS) == 0 {
        let end = s.at as u32;
        return Reading {
            answer: Ok(end),
            counts,
            posix,
            singles,
        };
    }
    let what = grammar::repeat_of(tables::cell(t10, tables::REPEAT_WIDTH, 0, 0));
    let from = tables::cell(t10, tables::REPEAT_WIDTH, 0, tables::FIRST_PLACE);
    let to = tables::cell(t10, tables::REPEAT_WIDTH, 0, tables::FIRST_PLACE + 1);
    Reading {
        answer: Err(Refusal::Repeated(what, from, to)),
        counts,
        posix,
        singles,
    }
}

pub fn finish(
    src: &[u8],
    r: Step,
    t1: &mut [u32],
    t2: &mut [u32],
    t3: &mut [u32],
    t4: &mut [u32],
    t5: &mut [u32],
    t6: &mut [u32],
    t7: &mut [u32],
    t8: &mut [u32],
    t9: &mut [u32],
    t10: &[u32],
    t15: &mut [u32],
    t16: &mut [u32],
    t17: &mut [u32],
    f1: &[u16],
    f7: &[u16],
) -> Reading
    requires { (r.state.at ≤ 65536) × Tokens src.now r.state.counts t1.old f1.now × Rules src.now r.state.counts t7.old f7.now }
    ensures is { ◌≡◌ {A = Outcome} (record { answer = result.answer; counts = result.counts; posix = result.posix; singles = result.singles; tables = record { t1 = t1.new; t2 = t2.new; t3 = t3.new; t4 = t4.new; t5 = t5.new; t6 = t6.new; t7 = t7.new; t8 = t8.new; t9 = t9.new; t10 = t10.now; t15 = t15.new; t16 = t16.new; t17 = t17.new } }) (finished r.answer r.state (record { t1 = t1.old; t2 = t2.old; t3 = t3.old; t4 = t4.old; t5 = t5.old; t6 = t6.old; t7 = t7.old; t8 = t8.old; t9 = t9.old; t10 = t10.now; t15 = t15.old; t16 = t16.old; t17 = t17.old })) }
    ensures indexed { Tokens src.now result.counts t1.new f1.now × Rules src.now result.counts t7.new f7.now }
{
    let a = r.answer;
    let s = r.state;
    match a {
        Answer::Going => ended(s, t10),
        Answer::Done => ended(s, t10),
        Answer::Refused(f) => {
            clear(t1, t2, t3, t4, t5, t6, t7, t8, t9);
            clear_posix(t15, t16, t17);
            stopped(s, f)
        }
    }
}

// The symbols that are counted get the row numbers of their rules and tokens.
pub fn fill(src: &[u8], c: Counts, t1: &[u32], t7: &[u32], t9: &mut [u32], f1: &[u16], f7: &[u16])
    requires { Tokens src.now c t1.now f1.now × Rules src.now c t7.now f7.now }
    ensures { t9.new ≡ filled_rows (lexicon src.now t1.now (get_or c.n tokens 0) t7.now (get_or c.n rules 0)) t9.old (get_or c.n symbols 0) }
{
    let n = c.n[tables::TOKENS as usize];
    let m = c.n[tables::RULES as usize];
    let count = c.n[tables::SYMBOLS as usize];
    symbols::fill_rows(src, t1, n, f1, t7, m, f7, t9, count);
}

// Both indexes hold the rows that are counted.
pub fn enter_indexes(src: &[u8], c: Counts, t1: &[u32], t7: &[u32], i1: &mut [u32], i7: &mut [u32])
    requires { (i1.old ≡ zeroed i1.old) × (i7.old ≡ zeroed i7.old) }
    ensures { (i1.new ≡ entries src.now (width tokens) 0 t1.now (length i1.old) (get_or c.n tokens 0)) × (i7.new ≡ entries src.now (width rules) 0 t7.now (length i7.old) (get_or c.n rules 0)) }
{
    let n = c.n[tables::TOKENS as usize];
    let m = c.n[tables::RULES as usize];
    index::enter_rows(src, t1, tables::TOKEN_WIDTH, tables::NAME, n, i1);
    index::enter_rows(src, t7, tables::RULE_WIDTH, tables::NAME, m, i7);
}
