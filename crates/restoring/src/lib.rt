// Reading the catalogue's blocks back: tables, indexes and source as they were written.
#![tactic(auto)]

ghost use Rattle.std.specs.Prelude.{◌≡◌, ◌++◌, ◌+◌, ◌*◌, ◌≤◌, ◌<◌, length, drop, take};
ghost use Rattle.std.proofs.Math.Seq.{slice};
ghost use Rattle.blocks.specs.Blocks.{words_in, capacity, content_of};
ghost use Rattle.tables.specs.Table.{zeroed};
ghost use Rattle.catalogue.specs.Catalogue.{cells_at, rows_from, content_size, lengths_of};
ghost use Rattle.grammar.specs.Sound.{AllTables, Indexes, cells_of};
ghost use Rattle.restoring.specs.Restoring.{Restored, no_head, filled_table, filled_tables, filled_source, Tested, filled_from, restored};

use catalogue::{FindingError, Head, Rooms};
use grammar::{Counts, PosixCounts, Singles};

#[derive(Clone, Copy)]
pub enum RestoringError {
    NotWhole,
    BadNumber,
    BadCheck,
    BadContent,
    BadSizes,
    NoSpace(u32),
    RestoringUnsound,
}

// The answer, and what stood in front of the rows; nothing of that after a refusal.
#[derive(Clone, Copy)]
pub struct StoredReading {
    pub answer: Result<(), RestoringError>,
    pub kind: u32,
    pub counts: Counts,
    pub posix: PosixCounts,
    pub length: u32,
    pub singles: Singles,
}

// After a refusal.
fn refused(answer: Result<(), RestoringError>) -> StoredReading
    ensures { (result.answer ≡ answer) × ◌≡◌ {A = Head} (record { kind = result.kind; counts = result.counts; posix = result.posix; length = result.length; singles = result.singles }) no_head }
{
    StoredReading {
        answer,
        kind: 0,
        counts: Counts {
            n: [0, 0, 0, 0, 0, 0, 0, 0, 0, 0],
        },
        posix: PosixCounts { n: [0, 0, 0] },
        length: 0,
        singles: Singles {
            start: None,
            expect: None,
            expect_rr: None,
            param: None,
            generics: None,
            programs: None,
        },
    }
}

// Everything that is lent is zero.
fn clear_all(
    src: &mut [u8],
    t1: &mut [u32],
    t2: &mut [u32],
    t3: &mut [u32],
    t4: &mut [u32],
    t5: &mut [u32],
    t6: &mut [u32],
    t7: &mut [u32],
    t8: &mut [u32],
    t9: &mut [u32],
    t10: &mut [u32],
    i1: &mut [u32],
    i7: &mut [u32],
    t15: &mut [u32],
    t16: &mut [u32],
    t17: &mut [u32],
)
    ensures { (src.new ≡ zeroed src.old) × (i1.new ≡ zeroed i1.old) × (i7.new ≡ zeroed i7.old) × (t1.new ≡ zeroed t1.old) × (t2.new ≡ zeroed t2.old) × (t3.new ≡ zeroed t3.old) × (t4.new ≡ zeroed t4.old) × (t5.new ≡ zeroed t5.old) × (t6.new ≡ zeroed t6.old) × (t7.new ≡ zeroed t7.old) × (t8.new ≡ zeroed t8.old) × (t9.new ≡ zeroed t9.old) × (t10.new ≡ zeroed t10.old) × (t15.new ≡ zeroed t15.old) × (t16.new ≡ zeroed t16.old) × (t17.new ≡ zeroed t17.old) }
{
    values::zero(src);
    reader::clear(t1, t2, t3, t4, t5, t6, t7, t8, t9);
    tables::zero(t10);
    tables::zero(i1);
    tables::zero(i7);
    reader::clear_posix(t15, t16, t17);
}

// The rows of the table with index `k`, from their place in the content.
fn fill_table(s: &[u8], c: Counts, p: PosixCounts, k: u8, t: &mut [u32])
    requires { (k < 13) × (cells_at c p k ≤ length t.old) × (rows_from c p 13 ≤ capacity s.now) }
    ensures { t.new ≡ filled_table (content_of s.now) c p k t.old }
{
    blocks::get_numbers(
        t,
        s,
        catalogue::rows_from(c, p, k),
        catalogue::cells_at(c, p, k),
    );
}

// Those of all thirteen.
fn fill_tables(
    s: &[u8],
    c: Counts,
    p: PosixCounts,
    t1: &mut [u32],
    t2: &mut [u32],
    t3: &mut [u32],
    t4: &mut [u32],
    t5: &mut [u32],
    t6: &mut [u32],
    t7: &mut [u32],
    t8: &mut [u32],
    t9: &mut [u32],
    t10: &mut [u32],
    t15: &mut [u32],
    t16: &mut [u32],
    t17: &mut [u32],
)
    requires { ((k : _) → k < 13 → cells_at c p k ≤ length (cells_of (record { t1 = t1.now; t2 = t2.old; t3 = t3.old; t4 = t4.old; t5 = t5.old; t6 = t6.old; t7 = t7.old; t8 = t8.old; t9 = t9.old; t10 = t10.old; t15 = t15.old; t16 = t16.old; t17 = t17.old }) k)) × (rows_from c p 13 ≤ capacity s.now) }
    ensures { ◌≡◌ {A = AllTables} (record { t1 = t1.new; t2 = t2.new; t3 = t3.new; t4 = t4.new; t5 = t5.new; t6 = t6.new; t7 = t7.new; t8 = t8.new; t9 = t9.new; t10 = t10.new; t15 = t15.new; t16 = t16.new; t17 = t17.new }) (filled_tables (content_of s.now) c p (record { t1 = t1.old; t2 = t2.old; t3 = t3.old; t4 = t4.old; t5 = t5.old; t6 = t6.old; t7 = t7.old; t8 = t8.old; t9 = t9.old; t10 = t10.old; t15 = t15.old; t16 = t16.old; t17 = t17.old })) }
{
    fill_table(s, c, p, tables::TOKENS, t1);
    fill_table(s, c, p, tables::PRECEDENCES, t2);
    fill_table(s, c, p, tables::AVOIDED, t3);
    fill_table(s, c, p, tables::IMPLICIT, t4);
    fill_table(s, c, p, tables::EPPS, t5);
    fill_table(s, c, p, tables::UNUSED, t6);
    fill_table(s, c, p, tables::RULES, t7);
    fill_table(s, c, p, tables::PRODUCTIONS, t8);
    fill_table(s, c, p, tables::SYMBOLS, t9);
    fill_table(s, c, p, tables::REPEATS, t10);
    fill_table(s, c, p, tables::TAGS, t15);
    fill_table(s, c, p, tables::TOKEN_NUMBERS, t16);
    fill_table(s, c, p, tables::BODIES, t17);
}

// The source, from its place in the content.
fn fill_source(s: &[u8], c: Counts, p: PosixCounts, n: usize, src: &mut [u8])
    requires { (n ≤ length src.old) × (n ≤ 4294967295) × (content_size c p n ≤ capacity s.now) }
    ensures { src.new ≡ filled_source (content_of s.now) c p n src.old }
{
    blocks::get_bytes(src, s, catalogue::rows_from(c, p, 13), n);
}

// Both indexes entered, and whether what was filled is sound.
fn test_filled(
    src: &[u8],
    c: Counts,
    p: PosixCounts,
    g: Singles,
    t1: &[u32],
    t2: &[u32],
    t3: &[u32],
    t4: &[u32],
    t5: &[u32],
    t6: &[u32],
    t7: &[u32],
    t8: &[u32],
    t9: &[u32],
    t10: &[u32],
    i1: &mut [u32],
    i7: &mut [u32],
    t15: &[u32],
    t16: &[u32],
    t17: &[u32],
) -> bool
    requires { (i1.old ≡ zeroed i1.old) × (i7.old ≡ zeroed i7.old) }
    ensures { Tested src.now c p g (record { t1 = t1.now; t2 = t2.now; t3 = t3.now; t4 = t4.now; t5 = t5.now; t6 = t6.now; t7 = t7.now; t8 = t8.now; t9 = t9.now; t10 = t10.now; t15 = t15.now; t16 = t16.now; t17 = t17.now }) (length i1.old) (length i7.old) result (record { tokens = i1.new; rules = i7.new }) }
{
    reader::enter_indexes(src, c, t1, t7, i1, i7);
    catalogue::is_sound(
        src, c, p, g, t1, t2, t3, t4, t5, t6, t7, t8, t9, t10, i1, i7, t15, t16, t17,
    )
}

// What blocks that hold a reading come to: it is filled in, and stays where it is sound.
fn fill(
    s: &[u8],
    h: Head,
    src: &mut [u8],
    t1: &mut [u32],
    t2: &mut [u32],
    t3: &mut [u32],
    t4: &mut [u32],
    t5: &mut [u32],
    t6: &mut [u32],
    t7: &mut [u32],
    t8: &mut [u32],
    t9: &mut [u32],
    t10: &mut [u32],
    i1: &mut [u32],
    i7: &mut [u32],
    t15: &mut [u32],
    t16: &mut [u32],
    t17: &mut [u32],
) -> StoredReading
    requires { (h.length ≤ length src.old) × ((k : _) → k < 13 → cells_at h.counts h.posix k ≤ length (cells_of (record { t1 = t1.now; t2 = t2.old; t3 = t3.old; t4 = t4.old; t5 = t5.old; t6 = t6.old; t7 = t7.old; t8 = t8.old; t9 = t9.old; t10 = t10.old; t15 = t15.old; t16 = t16.old; t17 = t17.old }) k)) × (content_size h.counts h.posix h.length ≤ capacity s.now) × (src.old ≡ zeroed src.old) × (i1.old ≡ zeroed i1.old) × (i7.old ≡ zeroed i7.old) }
    ensures { ◌≡◌ {A = Restored} (record { answer = result.answer; head = record { kind = result.kind; counts = result.counts; posix = result.posix; length = result.length; singles = result.singles }; source = src.new; tables = record { t1 = t1.new; t2 = t2.new; t3 = t3.new; t4 = t4.new; t5 = t5.new; t6 = t6.new; t7 = t7.new; t8 = t8.new; t9 = t9.new; t10 = t10.new; t15 = t15.new; t16 = t16.new; t17 = t17.new }; indexes = record { tokens = i1.new; rules = i7.new } }) (filled_from (content_of s.now) h src.old (record { t1 = t1.old; t2 = t2.old; t3 = t3.old; t4 = t4.old; t5 = t5.old; t6 = t6.old; t7 = t7.old; t8 = t8.old; t9 = t9.old; t10 = t10.old; t15 = t15.old; t16 = t16.old; t17 = t17.old }) (record { tokens = i1.old; rules = i7.old })) }
{
    let c = h.counts;
    let p = h.posix;
    let g = h.singles;
    let n = h.length as usize;
    fill_tables(
        s, c, p, t1, t2, t3, t4, t5, t6, t7, t8, t9, t10, t15, t16, t17,
    );
    fill_source(s, c, p, n, src);
    let ok = test_filled(
        &src[..n],
        c,
        p,
        g,
        t1,
        t2,
        t3,
        t4,
        t5,
        t6,
        t7,
        t8,
        t9,
        t10,
        i1,
        i7,
        t15,
        t16,
        t17,
    );
    if ok {
        return StoredReading {
            answer: Ok(()),
            kind: h.kind,
            counts: c,
            posix: p,
            length: h.length,
            singles: g,
        };
    }
    clear_all(
        src, t1, t2, t3, t4, t5, t6, t7, t8, t9, t10, i1, i7, t15, t16, t17,
    );
    refused(Err(RestoringError::RestoringUnsound))
}

// Reads a reading back from blocks, into tables, indexes and a source that are lent.
pub fn load_stored(
    s: &[u8],
    src: &mut [u8],
    t1: &mut [u32],
    t2: &mut [u32],
    t3: &mut [u32],
    t4: &mut [u32],
    t5: &mut [u32],
    t6: &mut [u32],
    t7: &mut [u32],
    t8: &mut [u32],
    t9: &mut [u32],
    t10: &mut [u32],
    i1: &mut [u32],
    i7: &mut [u32],
    t15: &mut [u32],
    t16: &mut [u32],
    t17: &mut [u32],
) -> StoredReading
    ensures { ◌≡◌ {A = Restored} (record { answer = result.answer; head = record { kind = result.kind; counts = result.counts; posix = result.posix; length = result.length; singles = result.singles }; source = src.new; tables = record { t1 = t1.new; t2 = t2.new; t3 = t3.new; t4 = t4.new; t5 = t5.new; t6 = t6.new; t7 = t7.new; t8 = t8.new; t9 = t9.new; t10 = t10.new; t15 = t15.new; t16 = t16.new; t17 = t17.new }; indexes = record { tokens = i1.new; rules = i7.new } }) (restored s.now src.old (record { t1 = t1.old; t2 = t2.old; t3 = t3.old; t4 = t4.old; t5 = t5.old; t6 = t6.old; t7 = t7.old; t8 = t8.old; t9 = t9.old; t10 = t10.old; t15 = t15.old; t16 = t16.old; t17 = t17.old }) (record { tokens = i1.old; rules = i7.old })) }
{
    clear_all(
        src, t1, t2, t3, t4, t5, t6, t7, t8, t9, t10, i1, i7, t15, t16, t17,
    );
    let sized = sections::sizes_fit(i1.len(), t1.len(), i7.len(), t7.len());
    let rooms = Rooms {
        n: [
            t1.len(),
            t2.len(),
            t3.len(),
            t4.len(),
            t5.len(),
            t6.len(),
            t7.len(),
            t8.len(),
            t9.len(),
            t10.len(),
            t15.len(),
            t16.len(),
            t17.len(),
        ],
    };
    match catalogue::examine(s, sized, rooms, src.len()) {
        Ok(()) => fill(
            s,
            catalogue::head_in(s),
            src,
            t1,
            t2,
            t3,
            t4,
            t5,
            t6,
            t7,
            t8,
            t9,
            t10,
            i1,
            i7,
            t15,
            t16,
            t17,
        ),
        Err(FindingError::NoWholeBlocks) => refused(Err(RestoringError::NotWhole)),
        Err(FindingError::FaultyNumber) => refused(Err(RestoringError::BadNumber)),
        Err(FindingError::FaultyCheck) => refused(Err(RestoringError::BadCheck)),
        Err(FindingError::Unfilled) => refused(Err(RestoringError::BadContent)),
        Err(FindingError::WrongSize) => refused(Err(RestoringError::BadSizes)),
        Err(FindingError::NoRoom(k)) => refused(Err(RestoringError::NoSpace(k))),
    }
}
