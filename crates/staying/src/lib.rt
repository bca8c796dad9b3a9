// Which rows pruning keeps: one bit for each row that the start, an excused rule or an excused token keeps.
#![tactic(auto)]

ghost use Rattle.std.specs.Prelude.{◌≤◌};
ghost use Rattle.finder.specs.declared.TheConstants.{MANY_SLOTS};
ghost use Rattle.tables.specs.Layout.{tokens, rules, width};
ghost use Rattle.sound.specs.Test.{count_at};
ghost use Rattle.index.specs.Index.{Indexed};
ghost use Rattle.finder.specs.Finder.{Led};
ghost use Rattle.reach.specs.Reach.{named, grammar_of, Apart, Fair, Adds, Fits};
ghost use Rattle.usage.specs.Report.{Expected, Implicit, Excused, excuses_of};
ghost use Rattle.staying.specs.Marks.{RowBit, EntryBit, StayMarks};

use grammar::Counts;
use reach::Sort;

// Sets the bit of the row that row `e` of table 6 names, if that is of the sort.
fn mark_entry(w: &mut [u32], src: &[u8], names: &[u32], fx: &[u16], z: Sort, t6: &[u32], e: u32)
    requires { Fits z w.old × Apart src.now (named names.now z) × Led src.now z.wide 0 z.count names.now fx.now }
    ensures { Adds (EntryBit src.now (named names.now z) t6.now e) w.old w.new }
{
    let wide = tables::UNUSED_WIDTH;
    if tables::cell(t6, wide, e, 0) != z.kind {
        return;
    }
    let at = tables::KIND_NAME as u32;
    let a = tables::cell(t6, wide, e, at);
    let b = tables::cell(t6, wide, e, at + 1);
    reach::mark_named(w, src, names, fx, z, a, b);
}

// The same for all of its `n` rows.
fn mark_expected(w: &mut [u32], src: &[u8], names: &[u32], fx: &[u16], z: Sort, t6: &[u32], n: u32)
    requires { Fits z w.old × Apart src.now (named names.now z) × Led src.now z.wide 0 z.count names.now fx.now }
    ensures { Adds (RowBit (named names.now z) (Expected src.now t6.now n z.kind)) w.old w.new }
{
    for e in 0..n {
        mark_entry(w, src, names, fx, z, t6, e);
    }
}

// Sets the bits of the rows that the `n` rows of table 4 name, which excuse tokens alone.
fn mark_implicit(w: &mut [u32], src: &[u8], names: &[u32], fx: &[u16], z: Sort, t4: &[u32], n: u32)
    requires { Fits z w.old × Apart src.now (named names.now z) × Led src.now z.wide 0 z.count names.now fx.now }
    ensures { Adds (RowBit (named names.now z) (Implicit src.now t4.now n z.kind)) w.old w.new }
{
    if z.kind != 2 {
        return;
    }
    let wide = tables::NAME_WIDTH;
    let at = tables::NAME as u32;
    for e in 0..n {
        let a = tables::cell(t4, wide, e, at);
        let b = tables::cell(t4, wide, e, at + 1);
        reach::mark_named(w, src, names, fx, z, a, b);
    }
}

// The bits of the excused rows of the sort, by a finder that leads to all rows.
fn mark_led(
    w: &mut [u32],
    src: &[u8],
    c: Counts,
    names: &[u32],
    fx: &[u16],
    z: Sort,
    t4: &[u32],
    t6: &[u32],
)
    requires { Fits z w.old × Apart src.now (named names.now z) × Led src.now z.wide 0 z.count names.now fx.now }
    ensures { Adds (RowBit (named names.now z) (Excused (excuses_of src.now c t4.now t6.now) z.kind)) w.old w.new }
{
    mark_expected(w, src, names, fx, z, t6, sound::rows_of(c, tables::UNUSED));
    mark_implicit(
        w,
        src,
        names,
        fx,
        z,
        t4,
        sound::rows_of(c, tables::IMPLICIT),
    );
}

// All rows are entered first.
fn mark_by(
    w: &mut [u32],
    src: &[u8],
    c: Counts,
    names: &[u32],
    fx: &mut [u16],
    z: Sort,
    t4: &[u32],
    t6: &[u32],
)
    requires { Fits z w.old × Apart src.now (named names.now z) }
    ensures { Adds (RowBit (named names.now z) (Excused (excuses_of src.now c t4.now t6.now) z.kind)) w.old w.new }
{
    finder::enter_rows(src, names, z.wide, tables::NAME, z.count, fx);
    mark_led(w, src, c, names, fx, z, t4, t6);
}

// The same with a finder of its own, of `N` slots.
fn mark_in<const N: usize>(
    w: &mut [u32],
    src: &[u8],
    c: Counts,
    names: &[u32],
    z: Sort,
    t4: &[u32],
    t6: &[u32],
)
    requires { (N ≤ MANY_SLOTS) × Fits z w.old × Apart src.now (named names.now z) }
    ensures { Adds (RowBit (named names.now z) (Excused (excuses_of src.now c t4.now t6.now) z.kind)) w.old w.new }
{
    let mut fx = [0u16; N];
    mark_by(w, src, c, names, &mut fx, z, t4, t6);
}

// The bits of the excused rows of the sort. Where nothing is declared no finder is made, and one for few rows is soon cleared.
fn mark_excused(
    w: &mut [u32],
    src: &[u8],
    c: Counts,
    names: &[u32],
    z: Sort,
    t4: &[u32],
    t6: &[u32],
)
    requires { Fits z w.old × Apart src.now (named names.now z) }
    ensures { Adds (RowBit (named names.now z) (Excused (excuses_of src.now c t4.now t6.now) z.kind)) w.old w.new }
{
    let expecteds = sound::rows_of(c, tables::UNUSED) as usize;
    let implicits = sound::rows_of(c, tables::IMPLICIT) as usize;
    if expecteds + implicits == 0 {
        return;
    }
    if z.count <= finder::FEW_ROWS {
        mark_in::<{ finder::FEW_SLOTS }>(w, src, c, names, z, t4, t6);
        return;
    }
    mark_in::<{ finder::MANY_SLOTS }>(w, src, c, names, z, t4, t6);
}

// The work bits: a 1 for each row that stays. False, and all zero, where there are too few words.
pub fn mark_staying(
    w: &mut [u32],
    src: &[u8],
    c: Counts,
    start: Option<(u32, u32)>,
    t1: &[u32],
    t4: &[u32],
    t6: &[u32],
    t7: &[u32],
    t8: &[u32],
    t9: &[u32],
    i1: &[u32],
    i7: &[u32],
) -> bool
    requires { Fair (grammar_of src.now c start t1.now t7.now t8.now t9.now) × Indexed src.now (width tokens) 0 (count_at c tokens) t1.now i1.now × Indexed src.now (width rules) 0 (count_at c rules) t7.now i7.now }
    ensures { StayMarks (grammar_of src.now c start t1.now t7.now t8.now t9.now) (excuses_of src.now c t4.now t6.now) result w.old w.new }
{
    tables::zero(w);
    let rules = reach::words_for(sound::rows_of(c, tables::RULES));
    let tokens = reach::words_for(sound::rows_of(c, tables::TOKENS));
    if w.len() < rules + tokens {
        return false;
    }
    reach::mark_start(w, src, c, start, t7, i7);
    // Before the spread: what an excused rule reaches stays too.
    mark_excused(w, src, c, t7, reach::rule_sort(c), t4, t6);
    reach::spread(w, src, c, t7, t8, t9);
    reach::mark_tokens(w, src, c, t1, t8, t9);
    mark_excused(w, src, c, t1, reach::token_sort(c), t4, t6);
    true
}
