// The whole read: the sections of a source on tables of zeros, run with finders that its length asks for, and the indexes behind them.
#![tactic(auto)]

ghost use Rattle.std.specs.Prelude.{◌≡◌, ◌≤◌};
ghost use Rattle.sections.specs.Sections.{attempted};
ghost use Rattle.reader.specs.Read.{Outcome, ReadResult, finished_run, filled_out, read_all};

use reader::Reading;

// Sources that a tiny and a small finder are taken for, and their slots.
const TINY_SOURCE: usize = 1024;

const TINY_SLOTS: usize = 512;

const SMALL_SOURCE: usize = 8192;

const SMALL_SLOTS: usize = 4096;

// Slots for more names than 65,536 bytes can have: some 19,700 tokens, or as many of tables 2 to 5, and some 13,900 rules.
const LARGE_SLOTS: usize = 24576;

const RULE_SLOTS: usize = 16384;

// The sections and their end, and the symbols' rows: all that needs the finders, of which nothing need be known before.
pub fn run(
    src: &[u8],
    kind: u32,
    sized: bool,
    t1: &mut [u32],
    t2: &mut [u32],
    t3: &mut [u32],
    t4: &mut [u32],
    t5: &mut [u32],
    t6: &mut [u32],
    t7: &mut [u32],
    t8: &mut [u32],
    t9: &mut [u32],
    t10: &mut [u32],
    t15: &mut [u32],
    t16: &mut [u32],
    t17: &mut [u32],
    f1: &mut [u16],
    f7: &mut [u16],
    fx: &mut [u16],
) -> Reading
    ensures { ◌≡◌ {A = Outcome} (record { answer = result.answer; counts = result.counts; posix = result.posix; singles = result.singles; tables = record { t1 = t1.new; t2 = t2.new; t3 = t3.new; t4 = t4.new; t5 = t5.new; t6 = t6.new; t7 = t7.new; t8 = t8.new; t9 = t9.new; t10 = t10.new; t15 = t15.new; t16 = t16.new; t17 = t17.new } }) (filled_out src.now (finished_run (attempted src.now kind sized (record { t1 = t1.old; t2 = t2.old; t3 = t3.old; t4 = t4.old; t5 = t5.old; t6 = t6.old; t7 = t7.old; t8 = t8.old; t9 = t9.old; t10 = t10.old; t15 = t15.old; t16 = t16.old; t17 = t17.old })))) }
{
    let r = sections::attempt(
        src, kind, sized, t1, t2, t3, t4, t5, t6, t7, t8, t9, t10, t15, t16, t17, f1, f7, fx,
    );
    let q = reader::finish(
        src, r, t1, t2, t3, t4, t5, t6, t7, t8, t9, t10, t15, t16, t17, f1, f7,
    );
    let c = q.counts;
    reader::fill(src, c, t1, t7, t9, f1, f7);
    q
}

// A run with finders of its own: `N` slots for rules, `M` for all else.
fn run_in<const M: usize, const N: usize>(
    src: &[u8],
    kind: u32,
    sized: bool,
    t1: &mut [u32],
    t2: &mut [u32],
    t3: &mut [u32],
    t4: &mut [u32],
    t5: &mut [u32],
    t6: &mut [u32],
    t7: &mut [u32],
    t8: &mut [u32],
    t9: &mut [u32],
    t10: &mut [u32],
    t15: &mut [u32],
    t16: &mut [u32],
    t17: &mut [u32],
) -> Reading
    requires { (M ≤ LARGE_SLOTS) × (N ≤ RULE_SLOTS) }
    ensures { ◌≡◌ {A = Outcome} (record { answer = result.answer; counts = result.counts; posix = result.posix; singles = result.singles; tables = record { t1 = t1.new; t2 = t2.new; t3 = t3.new; t4 = t4.new; t5 = t5.new; t6 = t6.new; t7 = t7.new; t8 = t8.new; t9 = t9.new; t10 = t10.new; t15 = t15.new; t16 = t16.new; t17 = t17.new } }) (filled_out src.now (finished_run (attempted src.now kind sized (record { t1 = t1.old; t2 = t2.old; t3 = t3.old; t4 = t4.old; t5 = t5.old; t6 = t6.old; t7 = t7.old; t8 = t8.old; t9 = t9.old; t10 = t10.old; t15 = t15.old; t16 = t16.old; t17 = t17.old })))) }
{
    let mut f1 = [0u16; M];
    let mut f7 = [0u16; N];
    let mut fx = [0u16; M];
    run(
        src, kind, sized, t1, t2, t3, t4, t5, t6, t7, t8, t9, t10, t15, t16, t17, &mut f1, &mut f7,
        &mut fx,
    )
}

// The same with those for a tiny source, for a small one, or for any.
fn run_sized(
    src: &[u8],
    kind: u32,
    sized: bool,
    t1: &mut [u32],
    t2: &mut [u32],
    t3: &mut [u32],
    t4: &mut [u32],
    t5: &mut [u32],
    t6: &mut [u32],
    t7: &mut [u32],
    t8: &mut [u32],
    t9: &mut [u32],
    t10: &mut [u32],
    t15: &mut [u32],
    t16: &mut [u32],
    t17: &mut [u32],
) -> Reading
    ensures { ◌≡◌ {A = Outcome} (record { answer = result.answer; counts = result.counts; posix = result.posix; singles = result.singles; tables = record { t1 = t1.new; t2 = t2.new; t3 = t3.new; t4 = t4.new; t5 = t5.new; t6 = t6.new; t7 = t7.new; t8 = t8.new; t9 = t9.new; t10 = t10.new; t15 = t15.new; t16 = t16.new; t17 = t17.new } }) (filled_out src.now (finished_run (attempted src.now kind sized (record { t1 = t1.old; t2 = t2.old; t3 = t3.old; t4 = t4.old; t5 = t5.old; t6 = t6.old; t7 = t7.old; t8 = t8.old; t9 = t9.old; t10 = t10.old; t15 = t15.old; t16 = t16.old; t17 = t17.old })))) }
{
    if src.len() <= TINY_SOURCE {
        return run_in::<TINY_SLOTS, TINY_SLOTS>(
            src, kind, sized, t1, t2, t3, t4, t5, t6, t7, t8, t9, t10, t15, t16, t17,
        );
    }
    if src.len() <= SMALL_SOURCE {
        return run_in::<SMALL_SLOTS, SMALL_SLOTS>(
            src, kind, sized, t1, t2, t3, t4, t5, t6, t7, t8, t9, t10, t15, t16, t17,
        );
    }
    run_in::<LARGE_SLOTS, RULE_SLOTS>(
        src, kind, sized, t1, t2, t3, t4, t5, t6, t7, t8, t9, t10, t15, t16, t17,
    )
}

// The read of a source of the kind, into thirteen lent tables and two lent indexes.
pub fn read(
    src: &[u8],
    kind: u32,
    t1: &mut [u32],
    t2: &mut [u32],
    t3: &mut [u32],
    t4: &mut [u32],
    t5: &mut [u32],
    t6: &mut [u32],
    t7: &mut [u32],
    t8: &mut [u32],
    t9: &mut [u32],
    t10: &mut [u32],
    t15: &mut [u32],
    t16: &mut [u32],
    t17: &mut [u32],
    i1: &mut [u32],
    i7: &mut [u32],
) -> Reading
    ensures is { ◌≡◌ {A = ReadResult} (record { answer = result.answer; counts = result.counts; posix = result.posix; singles = result.singles; tables = record { t1 = t1.new; t2 = t2.new; t3 = t3.new; t4 = t4.new; t5 = t5.new; t6 = t6.new; t7 = t7.new; t8 = t8.new; t9 = t9.new; t10 = t10.new; t15 = t15.new; t16 = t16.new; t17 = t17.new }; indexes = record { tokens = i1.new; rules = i7.new } }) (read_all src.now kind (record { t1 = t1.old; t2 = t2.old; t3 = t3.old; t4 = t4.old; t5 = t5.old; t6 = t6.old; t7 = t7.old; t8 = t8.old; t9 = t9.old; t10 = t10.old; t15 = t15.old; t16 = t16.old; t17 = t17.old }) (record { tokens = i1.old; rules = i7.old })) }
{
    reader::clear(t1, t2, t3, t4, t5, t6, t7, t8, t9);
    reader::clear_posix(t15, t16, t17);
    tables::zero(t10);
    tables::zero(i1);
    tables::zero(i7);
    let sized = sections::sizes_fit(i1.len(), t1.len(), i7.len(), t7.len());
    let r = run_sized(
        src, kind, sized, t1, t2, t3, t4, t5, t6, t7, t8, t9, t10, t15, t16, t17,
    );
    let c = r.counts;
    reader::enter_indexes(src, c, t1, t7, i1, i7);
    r
}
