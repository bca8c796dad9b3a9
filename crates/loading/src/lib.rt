// One call to load: a read and, where that is accepted, validation of what was read.
#![tactic(auto)]

ghost use Rattle.std.specs.Prelude.{◌≡◌};
ghost use Rattle.validation.specs.Faults.{first, faults};
ghost use Rattle.validation.specs.Walk.{Walkable};
ghost use Rattle.loading.specs.Load.{judged, LoadResult, load_all};

use grammar::{Counts, PosixCounts, Refusal, Singles};
use validation::{Flaw, ValidityError};

#[derive(Clone, Copy)]
pub enum LoadError {
    NotRead(Refusal),
    NotValid(Flaw),
}

#[derive(Clone, Copy)]
pub struct Loading {
    // The end that was reached.
    pub answer: Result<u32, LoadError>,
    pub counts: Counts,
    pub posix: PosixCounts,
    pub singles: Singles,
}

// What validation says of an accepted reading, whose tables are sound and need no test.
pub fn judge(
    src: &[u8],
    end: u32,
    c: Counts,
    g: Singles,
    t1: &[u32],
    t2: &[u32],
    t4: &[u32],
    t5: &[u32],
    t6: &[u32],
    t7: &[u32],
    t8: &[u32],
    t9: &[u32],
    i1: &[u32],
    i7: &[u32],
) -> Result<u32, LoadError>
    requires { Walkable src.now c t1.now t7.now t8.now t9.now i7.now }
    ensures { result ≡ judged (Ok end) (first (faults src.now c g t1.now t2.now t4.now t5.now t6.now t7.now t8.now t9.now)) }
{
    match validator::find_fault(src, c, g, t1, t2, t4, t5, t6, t7, t8, t9, i1, i7) {
        Ok(()) => Ok(end),
        Err(ValidityError::UnsoundTables) => Ok(end),
        Err(ValidityError::Invalid(f)) => Err(LoadError::NotValid(f)),
    }
}

// Reads a source of the kind into the lent tables and, where it is accepted, validates what was read.
pub fn load(
    src: &[u8],
    kind: u32,
    t1: &mut [u32],
    t2: &mut [u32],
    t3: &mut [u32],
    t4: &mut [u32],
    t5: &mut [u32],
    t6: &mut [u32],
    t7: &mut [u32],
    t8: &mut [u32],
    t9: &mut [u32],
    t10: &mut [u32],
    i1: &mut [u32],
    i7: &mut [u32],
    t15: &mut [u32],
    t16: &mut [u32],
    t17: &mut [u32],
) -> Loading
    ensures { ◌≡◌ {A = LoadResult} (record { answer = result.answer; counts = result.counts; posix = result.posix; singles = result.singles; tables = record { t1 = t1.new; t2 = t2.new; t3 = t3.new; t4 = t4.new; t5 = t5.new; t6 = t6.new; t7 = t7.new; t8 = t8.new; t9 = t9.new; t10 = t10.new; t15 = t15.new; t16 = t16.new; t17 = t17.new }; indexes = record { tokens = i1.new; rules = i7.new } }) (load_all src.now kind (record { t1 = t1.old; t2 = t2.old; t3 = t3.old; t4 = t4.old; t5 = t5.old; t6 = t6.old; t7 = t7.old; t8 = t8.old; t9 = t9.old; t10 = t10.old; t15 = t15.old; t16 = t16.old; t17 = t17.old }) (record { tokens = i1.old; rules = i7.old })) }
{
    let r = runs::read(
        src, kind, t1, t2, t3, t4, t5, t6, t7, t8, t9, t10, t15, t16, t17, i1, i7,
    );
    let v = r.answer;
    let c = r.counts;
    let p = r.posix;
    let g = r.singles;
    match v {
        Ok(end) => {
            let j = judge(src, end, c, g, t1, t2, t4, t5, t6, t7, t8, t9, i1, i7);
            Loading {
                answer: j,
                counts: c,
                posix: p,
                singles: g,
            }
        }
        Err(f) => Loading {
            answer: Err(LoadError::NotRead(f)),
            counts: c,
            posix: p,
            singles: g,
        },
    }
}
