// Quiltrudder's operations: loading a Yacc specification (it is read, and what was read is validated), validating tables from elsewhere, the list of all faults, the unused report, its marking by itself,
// the unused rows one by one, pruning, a reading in the catalogue's blocks and back, the shipping form, the name of a row and the value of an `%epp` row, each with line and column of its answer's place, and line and column of any place. None of them requires anything.
#![tactic(auto)]

use grammar::{Counts, PosixCounts, Refusal, Singles, Told};
use loading::LoadError;
use places::Spot;
use pruning::PruningError;
use restoring::{RestoringError, StoredReading};
use storing::StoringError;
use usage::{ListingError, MarkingError};
use validation::{FaultsError, ValidityError};
use values::ValuationError;
use walks::{NextAt, NextError, Standing};
// The next unused row, with the record of where the walk stands moved on in place.
ghost use Rattle.std.specs.Prelude.{◌≡◌, ◌++◌};
ghost use Rattle.grammar.specs.Sound.{Tables};
ghost use Rattle.places.specs.Places.{spot_at};
ghost use Rattle.loading.specs.Load.{judgement_numbers, LoadResult, load_all};
ghost use Rattle.validation.specs.Faults.{validity_numbers, validity};
ghost use Rattle.validation.specs.Walk.{AllFaults, fault_listing, fault_listing_numbers};
ghost use Rattle.usage.specs.Report.{listing_numbers, marking_numbers, Reported, MarkedBits};
ghost use Rattle.pruning.specs.Pruned.{pruning_numbers, Prunings};
ghost use Rattle.walks.specs.Walk.{next_numbers};
ghost use Rattle.storing.specs.Storing.{StoreResult, storing_numbers, store_all};
ghost use Rattle.restoring.specs.Restoring.{Restored, restoring_numbers, restored};
ghost use Rattle.shipping.specs.Shipping.{ShipResult, shipment_numbers, shipping};
ghost use Rattle.names.specs.Name.{name_of};
ghost use Rattle.values.specs.Value.{valuation_numbers, Valued, epp_value};
ghost use Rattle.numbers.specs.Numbers.{told_numbers, answer_spot};
ghost use Rattle.singles.specs.Singles.{counts_cells, singles_cells, posix_cells};
ghost use Rattle.quiltrudder.specs.Face.{halves, spot_cells, loading_cells, LoadFace, load_face, validate_face, FaultsFace, faults_face, ReportFace, MarkFace, NextFace, reading_after, PruneFace, name_at, name_cells, name_face, ValueFace, value_face, StoreFace, store_face, restoring_cells, RestoreFace, restore_face, shipping_cells, ShipFace, ship_face};

pub use walks::next_unused;

// A load's answer, its counts and singles, and line and column of the answer's place.
#[derive(Clone, Copy)]
pub struct LoadingAt {
    // The end that was reached.
    pub answer: Result<u32, LoadError>,
    pub counts: Counts,
    pub posix: PosixCounts,
    pub singles: Singles,
    pub spot: Spot,
}

// The other operations' answers, with line and column of their places.
#[derive(Clone, Copy)]
pub struct ValidityAt {
    pub answer: Result<(), ValidityError>,
    pub spot: Spot,
}

#[derive(Clone, Copy)]
pub struct FaultListingAt {
    // How many faults there are.
    pub answer: Result<usize, FaultsError>,
    pub spot: Spot,
}

#[derive(Clone, Copy)]
pub struct ListingAt {
    // How many rows the report has.
    pub answer: Result<usize, ListingError>,
    pub spot: Spot,
}

#[derive(Clone, Copy)]
pub struct MarkingAt {
    pub answer: Result<(), MarkingError>,
    pub spot: Spot,
}

// Pruning answers the counts that are left, too; after a refusal those that were.
#[derive(Clone, Copy)]
pub struct PruningAt {
    pub answer: Result<(), PruningError>,
    pub counts: Counts,
    pub spot: Spot,
}

#[derive(Clone, Copy)]
pub struct ValuationAt {
    // How many bytes the value has.
    pub answer: Result<usize, ValuationError>,
    pub spot: Spot,
}

#[derive(Clone, Copy)]
pub struct StoringAt {
    // How many blocks were written.
    pub answer: Result<u32, StoringError>,
    pub spot: Spot,
}

// Loading back answers what a load does, and the kind and the source's length, which a load was given.
#[derive(Clone, Copy)]
pub struct RestoringAt {
    pub answer: Result<(), RestoringError>,
    pub kind: u32,
    pub counts: Counts,
    pub posix: PosixCounts,
    pub singles: Singles,
    pub length: u32,
    pub spot: Spot,
}

// Shipping answers what its read does, too.
#[derive(Clone, Copy)]
pub struct ShippingAt {
    // How many bytes the text has.
    pub answer: Result<u32, Refusal>,
    pub counts: Counts,
    pub singles: Singles,
    pub spot: Spot,
}

// Line and column of a place in a source, both from 1; past the source's end those of its end.
pub fn locate(src: &[u8], at: u32) -> Spot
    ensures { result ≡ spot_at src.now at }
{
    places::locate(src, at)
}

// Reads a source of kind 1, 2, 3 or 4 into the lent tables and, where that is accepted, validates what was read.
pub fn load(
    src: &[u8],
    kind: u32,
    t1: &mut [u32],
    t2: &mut [u32],
    t3: &mut [u32],
    t4: &mut [u32],
    t5: &mut [u32],
    t6: &mut [u32],
    t7: &mut [u32],
    t8: &mut [u32],
    t9: &mut [u32],
    t10: &mut [u32],
    i1: &mut [u32],
    i7: &mut [u32],
    t15: &mut [u32],
    t16: &mut [u32],
    t17: &mut [u32],
) -> LoadingAt
    ensures fact { ◌≡◌ {A = LoadResult} (record { answer = result.answer; counts = result.counts; posix = result.posix; singles = result.singles; tables = record { t1 = t1.new; t2 = t2.new; t3 = t3.new; t4 = t4.new; t5 = t5.new; t6 = t6.new; t7 = t7.new; t8 = t8.new; t9 = t9.new; t10 = t10.new; t15 = t15.new; t16 = t16.new; t17 = t17.new }; indexes = record { tokens = i1.new; rules = i7.new } }) (load_all src.now kind (record { t1 = t1.old; t2 = t2.old; t3 = t3.old; t4 = t4.old; t5 = t5.old; t6 = t6.old; t7 = t7.old; t8 = t8.old; t9 = t9.old; t10 = t10.old; t15 = t15.old; t16 = t16.old; t17 = t17.old }) (record { tokens = i1.old; rules = i7.old })) }
    ensures spot_value { result.spot ≡ answer_spot src.now (judgement_numbers result.answer) }
{
    let r = loading::load(
        src, kind, t1, t2, t3, t4, t5, t6, t7, t8, t9, t10, i1, i7, t15, t16, t17,
    );
    let answer = r.answer;
    let counts = r.counts;
    let posix = r.posix;
    let singles = r.singles;
    LoadingAt {
        answer,
        counts,
        posix,
        singles,
        spot: numbers::spot_of(src, numbers::of_judgement(answer)),
    }
}

// Whether a reading is valid, or the first that it lacks. Changes nothing lent.
pub fn validate(
    src: &[u8],
    c: Counts,
    g: Singles,
    t1: &[u32],
    t2: &[u32],
    t3: &[u32],
    t4: &[u32],
    t5: &[u32],
    t6: &[u32],
    t7: &[u32],
    t8: &[u32],
    t9: &[u32],
    t10: &[u32],
    i1: &[u32],
    i7: &[u32],
) -> ValidityAt
    ensures answer_value { result.answer ≡ validity src.now c g (record { t1 = t1.now; t2 = t2.now; t3 = t3.now; t4 = t4.now; t5 = t5.now; t6 = t6.now; t7 = t7.now; t8 = t8.now; t9 = t9.now; t10 = t10.now }) (record { tokens = i1.now; rules = i7.now }) }
    ensures spot_value { result.spot ≡ answer_spot src.now (validity_numbers result.answer) }
{
    let answer = validator::validate(src, c, g, t1, t2, t3, t4, t5, t6, t7, t8, t9, t10, i1, i7);
    ValidityAt {
        answer,
        spot: numbers::spot_of(src, numbers::of_validity(answer)),
    }
}

// Every fault that a reading has, as rows (number, from, to) of `t14`, in the order of the tests.
pub fn faults(
    src: &[u8],
    c: Counts,
    g: Singles,
    t1: &[u32],
    t2: &[u32],
    t3: &[u32],
    t4: &[u32],
    t5: &[u32],
    t6: &[u32],
    t7: &[u32],
    t8: &[u32],
    t9: &[u32],
    t10: &[u32],
    i1: &[u32],
    i7: &[u32],
    t14: &mut [u32],
) -> FaultListingAt
    ensures fact { ◌≡◌ {A = AllFaults} (record { answer = result.answer; cells = t14.new }) (fault_listing src.now c g (record { t1 = t1.now; t2 = t2.now; t3 = t3.now; t4 = t4.now; t5 = t5.now; t6 = t6.now; t7 = t7.now; t8 = t8.now; t9 = t9.now; t10 = t10.now }) (record { tokens = i1.now; rules = i7.now }) t14.old) }
    ensures spot_value { result.spot ≡ answer_spot src.now (fault_listing_numbers result.answer) }
{
    let answer = validator::faults(
        src, c, g, t1, t2, t3, t4, t5, t6, t7, t8, t9, t10, i1, i7, t14,
    );
    FaultListingAt {
        answer,
        spot: numbers::spot_of(src, numbers::of_fault_listing(answer)),
    }
}

// The unused rules and tokens of a valid reading, into `out`; `work` holds a bit for each row that is used.
pub fn report(
    src: &[u8],
    c: Counts,
    g: Singles,
    t1: &[u32],
    t2: &[u32],
    t3: &[u32],
    t4: &[u32],
    t5: &[u32],
    t6: &[u32],
    t7: &[u32],
    t8: &[u32],
    t9: &[u32],
    t10: &[u32],
    i1: &[u32],
    i7: &[u32],
    work: &mut [u32],
    out: &mut [u32],
) -> ListingAt
    ensures reported { Reported src.now c g (record { t1 = t1.now; t2 = t2.now; t3 = t3.now; t4 = t4.now; t5 = t5.now; t6 = t6.now; t7 = t7.now; t8 = t8.now; t9 = t9.now; t10 = t10.now }) (record { tokens = i1.now; rules = i7.now }) result.answer work.old work.new out.old out.new }
    ensures spot_value { result.spot ≡ answer_spot src.now (listing_numbers result.answer) }
{
    let answer = usage::report(
        src, c, g, t1, t2, t3, t4, t5, t6, t7, t8, t9, t10, i1, i7, work, out,
    );
    ListingAt {
        answer,
        spot: numbers::spot_of(src, numbers::of_listing(answer)),
    }
}

// The report's work bits of a valid reading, without the list.
pub fn mark(
    src: &[u8],
    c: Counts,
    g: Singles,
    t1: &[u32],
    t2: &[u32],
    t3: &[u32],
    t4: &[u32],
    t5: &[u32],
    t6: &[u32],
    t7: &[u32],
    t8: &[u32],
    t9: &[u32],
    t10: &[u32],
    i1: &[u32],
    i7: &[u32],
    work: &mut [u32],
) -> MarkingAt
    ensures marked_bits { MarkedBits src.now c g (record { t1 = t1.now; t2 = t2.now; t3 = t3.now; t4 = t4.now; t5 = t5.now; t6 = t6.now; t7 = t7.now; t8 = t8.now; t9 = t9.now; t10 = t10.now }) (record { tokens = i1.now; rules = i7.now }) result.answer work.old work.new }
    ensures spot_value { result.spot ≡ answer_spot src.now (marking_numbers result.answer) }
{
    let answer = usage::mark(
        src, c, g, t1, t2, t3, t4, t5, t6, t7, t8, t9, t10, i1, i7, work,
    );
    MarkingAt {
        answer,
        spot: numbers::spot_of(src, numbers::of_marking(answer)),
    }
}

// Drops the rows of a valid reading that neither the start nor an excused rule or token keeps; what is left closes up. `work` holds a bit for each row that stayed, by its old number. Tables 2, 4, 6 and 10 stay as they are.
pub fn prune(
    src: &[u8],
    c: Counts,
    g: Singles,
    t1: &mut [u32],
    t2: &[u32],
    t3: &mut [u32],
    t4: &[u32],
    t5: &mut [u32],
    t6: &[u32],
    t7: &mut [u32],
    t8: &mut [u32],
    t9: &mut [u32],
    t10: &[u32],
    i1: &mut [u32],
    i7: &mut [u32],
    work: &mut [u32],
) -> PruningAt
    ensures prunings { Prunings src.now g result.answer (record { counts = c; tables = record { t1 = t1.old; t2 = t2.now; t3 = t3.old; t4 = t4.now; t5 = t5.old; t6 = t6.now; t7 = t7.old; t8 = t8.old; t9 = t9.old; t10 = t10.now }; indexes = record { tokens = i1.old; rules = i7.old }; work = work.old }) (record { counts = result.counts; tables = record { t1 = t1.new; t2 = t2.now; t3 = t3.new; t4 = t4.now; t5 = t5.new; t6 = t6.now; t7 = t7.new; t8 = t8.new; t9 = t9.new; t10 = t10.now }; indexes = record { tokens = i1.new; rules = i7.new }; work = work.new }) }
    ensures spot_value { result.spot ≡ answer_spot src.now (pruning_numbers result.answer) }
{
    let p = pruner::prune(
        src, c, g, t1, t2, t3, t4, t5, t6, t7, t8, t9, t10, i1, i7, work,
    );
    let answer = p.answer;
    let counts = p.counts;
    PruningAt {
        answer,
        counts,
        spot: numbers::spot_of(src, numbers::of_pruning(answer)),
    }
}

// Writes a reading of kind 1 to 4 and its source into the catalogue's blocks (docs/FORMAT.md); behind them `blocks` is zero.
pub fn store(
    src: &[u8],
    kind: u32,
    c: Counts,
    p: PosixCounts,
    g: Singles,
    t1: &[u32],
    t2: &[u32],
    t3: &[u32],
    t4: &[u32],
    t5: &[u32],
    t6: &[u32],
    t7: &[u32],
    t8: &[u32],
    t9: &[u32],
    t10: &[u32],
    i1: &[u32],
    i7: &[u32],
    t15: &[u32],
    t16: &[u32],
    t17: &[u32],
    blocks: &mut [u8],
) -> StoringAt
    ensures fact { ◌≡◌ {A = StoreResult} (record { answer = result.answer; blocks = blocks.new }) (store_all src.now kind c p g (record { t1 = t1.now; t2 = t2.now; t3 = t3.now; t4 = t4.now; t5 = t5.now; t6 = t6.now; t7 = t7.now; t8 = t8.now; t9 = t9.now; t10 = t10.now; t15 = t15.now; t16 = t16.now; t17 = t17.now }) (record { tokens = i1.now; rules = i7.now }) blocks.old) }
    ensures spot_value { result.spot ≡ answer_spot src.now (storing_numbers result.answer) }
{
    let answer = storing::store(
        src, kind, c, p, g, t1, t2, t3, t4, t5, t6, t7, t8, t9, t10, i1, i7, t15, t16, t17, blocks,
    );
    StoringAt {
        answer,
        spot: numbers::spot_of(src, numbers::of_storing(answer)),
    }
}

// Reads a reading back from blocks, whatever the lent memory held; behind the rows and the source it is zero.
pub fn load_stored(
    blocks: &[u8],
    src: &mut [u8],
    t1: &mut [u32],
    t2: &mut [u32],
    t3: &mut [u32],
    t4: &mut [u32],
    t5: &mut [u32],
    t6: &mut [u32],
    t7: &mut [u32],
    t8: &mut [u32],
    t9: &mut [u32],
    t10: &mut [u32],
    i1: &mut [u32],
    i7: &mut [u32],
    t15: &mut [u32],
    t16: &mut [u32],
    t17: &mut [u32],
) -> RestoringAt
    ensures fact { ◌≡◌ {A = Restored} (record { answer = result.answer; head = record { kind = result.kind; counts = result.counts; posix = result.posix; length = result.length; singles = result.singles }; source = src.new; tables = record { t1 = t1.new; t2 = t2.new; t3 = t3.new; t4 = t4.new; t5 = t5.new; t6 = t6.new; t7 = t7.new; t8 = t8.new; t9 = t9.new; t10 = t10.new; t15 = t15.new; t16 = t16.new; t17 = t17.new }; indexes = record { tokens = i1.new; rules = i7.new } }) (restored blocks.now src.old (record { t1 = t1.old; t2 = t2.old; t3 = t3.old; t4 = t4.old; t5 = t5.old; t6 = t6.old; t7 = t7.old; t8 = t8.old; t9 = t9.old; t10 = t10.old; t15 = t15.old; t16 = t16.old; t17 = t17.old }) (record { tokens = i1.old; rules = i7.old })) }
    ensures spot_value { result.spot ≡ answer_spot src.new (restoring_numbers result.answer) }
{
    let r = restoring::load_stored(
        blocks, src, t1, t2, t3, t4, t5, t6, t7, t8, t9, t10, i1, i7, t15, t16, t17,
    );
    let answer = r.answer;
    let counts = r.counts;
    let posix = r.posix;
    let singles = r.singles;
    RestoringAt {
        answer,
        kind: r.kind,
        counts,
        posix,
        singles,
        length: r.length,
        spot: numbers::spot_of(src, numbers::of_restoring(answer)),
    }
}

// Reads a source of kind 1, 2 or 3 into the lent tables and, where that is accepted, writes it again into `out` without comments, in one form; behind it `out` is zero.
pub fn ship(
    src: &[u8],
    kind: u32,
    t1: &mut [u32],
    t2: &mut [u32],
    t3: &mut [u32],
    t4: &mut [u32],
    t5: &mut [u32],
    t6: &mut [u32],
    t7: &mut [u32],
    t8: &mut [u32],
    t9: &mut [u32],
    t10: &mut [u32],
    i1: &mut [u32],
    i7: &mut [u32],
    out: &mut [u8],
) -> ShippingAt
    ensures fact { ◌≡◌ {A = ShipResult} (record { answer = result.answer; counts = result.counts; singles = result.singles; tables = record { t1 = t1.new; t2 = t2.new; t3 = t3.new; t4 = t4.new; t5 = t5.new; t6 = t6.new; t7 = t7.new; t8 = t8.new; t9 = t9.new; t10 = t10.new }; indexes = record { tokens = i1.new; rules = i7.new }; out = out.new }) (shipping src.now kind (record { t1 = t1.old; t2 = t2.old; t3 = t3.old; t4 = t4.old; t5 = t5.old; t6 = t6.old; t7 = t7.old; t8 = t8.old; t9 = t9.old; t10 = t10.old }) (record { tokens = i1.old; rules = i7.old }) out.old) }
    ensures spot_value { result.spot ≡ answer_spot src.now (shipment_numbers result.answer) }
{
    let r = shipping::ship(
        src, kind, t1, t2, t3, t4, t5, t6, t7, t8, t9, t10, i1, i7, out,
    );
    let answer = r.answer;
    let counts = r.counts;
    let singles = r.singles;
    ShippingAt {
        answer,
        counts,
        singles,
        spot: numbers::spot_of(src, numbers::of_shipment(answer)),
    }
}

// The name of a row of table 1 or 7, as the part of the source that it is.
pub fn name<'a>(
    src: &'a [u8],
    c: Counts,
    g: Singles,
    t1: &[u32],
    t2: &[u32],
    t3: &[u32],
    t4: &[u32],
    t5: &[u32],
    t6: &[u32],
    t7: &[u32],
    t8: &[u32],
    t9: &[u32],
    t10: &[u32],
    i1: &[u32],
    i7: &[u32],
    table: u32,
    row: u32,
) -> &'a [u8]
    ensures { result.now ≡ name_of src.now c g (record { t1 = t1.now; t2 = t2.now; t3 = t3.now; t4 = t4.now; t5 = t5.now; t6 = t6.now; t7 = t7.now; t8 = t8.now; t9 = t9.now; t10 = t10.now }) (record { tokens = i1.now; rules = i7.now }) table row }
{
    names::name(
        src, c, g, t1, t2, t3, t4, t5, t6, t7, t8, t9, t10, i1, i7, table, row,
    )
}

// The value of a row of table 5 without its quotes and escapes, into `out`.
pub fn epp_value(
    src: &[u8],
    c: Counts,
    g: Singles,
    t1: &[u32],
    t2: &[u32],
    t3: &[u32],
    t4: &[u32],
    t5: &[u32],
    t6: &[u32],
    t7: &[u32],
    t8: &[u32],
    t9: &[u32],
    t10: &[u32],
    i1: &[u32],
    i7: &[u32],
    row: u32,
    out: &mut [u8],
) -> ValuationAt
    ensures fact { ◌≡◌ {A = Valued} (record { answer = result.answer; out = out.new }) (epp_value src.now c g (record { t1 = t1.now; t2 = t2.now; t3 = t3.now; t4 = t4.now; t5 = t5.now; t6 = t6.now; t7 = t7.now; t8 = t8.now; t9 = t9.now; t10 = t10.now }) (record { tokens = i1.now; rules = i7.now }) row out.old) }
    ensures spot_value { result.spot ≡ answer_spot src.now (valuation_numbers result.answer) }
{
    let answer = values::epp_value(
        src, c, g, t1, t2, t3, t4, t5, t6, t7, t8, t9, t10, i1, i7, row, out,
    );
    ValuationAt {
        answer,
        spot: numbers::spot_of(src, numbers::of_valuation(answer)),
    }
}

// What a load answers: number, place and table, the ten counts, the singles, the counts of kind 4's tables, line and column.
fn loading_cells(
    j: Result<u32, LoadError>,
    c: Counts,
    p: PosixCounts,
    g: Singles,
    s: Spot,
) -> [u32; 43]
    ensures { result ≡ loading_cells j c g ++ (posix_cells p ++ spot_cells s) }
{
    let t = numbers::of_judgement(j);
    let told = [t.number, t.from, t.to, t.table];
    let counts = [
        c.n[0], c.n[1], c.n[2], c.n[3], c.n[4], c.n[5], c.n[6], c.n[7], c.n[8], c.n[9],
    ];
    let singles = singles::single_cells(g);
    let spot = [s.line, s.column];
    let posix = [p.n[0], p.n[1], p.n[2]];
    let mut m = [0u32; 43];
    singles::put_cells(&mut m, 0, &told);
    singles::put_cells(&mut m, 4, &counts);
    singles::put_cells(&mut m, 14, &singles);
    singles::put_cells(&mut m, 38, &posix);
    singles::put_cells(&mut m, 41, &spot);
    m
}

// Number, place and table, a count by its low and high half, line and column.
fn counted_cells(t: Told, n: usize, s: Spot) -> [u32; 8]
    ensures { result ≡ told_numbers t ++ halves n ++ spot_cells s }
{
    [
        t.number,
        t.from,
        t.to,
        t.table,
        (n % 4294967296) as u32,
        (n / 4294967296) as u32,
        s.line,
        s.column,
    ]
}

// The next unused row: number, place and table, kind and row, line and column.
fn next_cells(n: NextAt) -> [u32; 8]
    ensures { result ≡ next_numbers n.answer ++ spot_cells n.spot }
{
    let answer = n.answer;
    let spot = n.spot;
    match answer {
        Ok(Some((kind, row))) => [0, 0, 0, 0, kind, row, spot.line, spot.column],
        Ok(None) => [0, 0, 0, 0, 0, 0, spot.line, spot.column],
        Err(NextError::NotFitting) => [44, 0, 0, 0, 0, 0, spot.line, spot.column],
    }
}

// The place of a row's name, with its line and column; 0, 0 where the name is an empty part for another table, a row past its count or unsound tables.
fn name_cells(
    src: &[u8],
    c: Counts,
    g: Singles,
    t1: &[u32],
    t2: &[u32],
    t3: &[u32],
    t4: &[u32],
    t5: &[u32],
    t6: &[u32],
    t7: &[u32],
    t8: &[u32],
    t9: &[u32],
    t10: &[u32],
    i1: &[u32],
    i7: &[u32],
    table: u32,
    row: u32,
) -> [u32; 4]
    ensures { result ≡ name_cells src.now (name_at src.now c g (record { t1 = t1.now; t2 = t2.now; t3 = t3.now; t4 = t4.now; t5 = t5.now; t6 = t6.now; t7 = t7.now; t8 = t8.now; t9 = t9.now; t10 = t10.now }) (record { tokens = i1.now; rules = i7.now }) table row) }
{
    if !sound::sound(src, c, g, t1, t2, t3, t4, t5, t6, t7, t8, t9, t10, i1, i7) {
        return [0, 0, 1, 1];
    }
    let p = names::name_place(c, t1, t7, table, row);
    let from = p.from as u32;
    let s = places::locate(src, from);
    [from, p.to as u32, s.line, s.column]
}

// Reads a source of kind 1, 2, 3 or 4 into the lent tables and, where that is accepted, validates what was read.
pub fn quiltrudder_load(
    src: &[u8],
    kind: u32,
    t1: &mut [u32],
    t2: &mut [u32],
    t3: &mut [u32],
    t4: &mut [u32],
    t5: &mut [u32],
    t6: &mut [u32],
    t7: &mut [u32],
    t8: &mut [u32],
    t9: &mut [u32],
    t10: &mut [u32],
    i1: &mut [u32],
    i7: &mut [u32],
    t15: &mut [u32],
    t16: &mut [u32],
    t17: &mut [u32],
    answer: &mut [u32; 43],
)
    ensures { ◌≡◌ {A = LoadFace} (record { answer = answer.new; tables = record { t1 = t1.new; t2 = t2.new; t3 = t3.new; t4 = t4.new; t5 = t5.new; t6 = t6.new; t7 = t7.new; t8 = t8.new; t9 = t9.new; t10 = t10.new; t15 = t15.new; t16 = t16.new; t17 = t17.new }; indexes = record { tokens = i1.new; rules = i7.new } }) (load_face src.now kind (record { t1 = t1.old; t2 = t2.old; t3 = t3.old; t4 = t4.old; t5 = t5.old; t6 = t6.old; t7 = t7.old; t8 = t8.old; t9 = t9.old; t10 = t10.old; t15 = t15.old; t16 = t16.old; t17 = t17.old }) (record { tokens = i1.old; rules = i7.old })) }
{
    let r = load(
        src, kind, t1, t2, t3, t4, t5, t6, t7, t8, t9, t10, i1, i7, t15, t16, t17,
    );
    let j = r.answer;
    let c = r.counts;
    let p = r.posix;
    let g = r.singles;
    let s = r.spot;
    *answer = loading_cells(j, c, p, g, s);
}

// Whether a reading is valid, or the first that it lacks. `reading` is the array that `quiltrudder_load` wrote.
pub fn quiltrudder_validate(
    src: &[u8],
    reading: &[u32; 43],
    t1: &[u32],
    t2: &[u32],
    t3: &[u32],
    t4: &[u32],
    t5: &[u32],
    t6: &[u32],
    t7: &[u32],
    t8: &[u32],
    t9: &[u32],
    t10: &[u32],
    i1: &[u32],
    i7: &[u32],
    answer: &mut [u32; 6],
)
    ensures { answer.new ≡ validate_face src.now reading.now (record { t1 = t1.now; t2 = t2.now; t3 = t3.now; t4 = t4.now; t5 = t5.now; t6 = t6.now; t7 = t7.now; t8 = t8.now; t9 = t9.now; t10 = t10.now }) (record { tokens = i1.now; rules = i7.now }) }
{
    let c = singles::counts_of(reading);
    let g = singles::singles_of(reading);
    let v = validate(src, c, g, t1, t2, t3, t4, t5, t6, t7, t8, t9, t10, i1, i7);
    let a = v.answer;
    let s = v.spot;
    let t = numbers::of_validity(a);
    *answer = [t.number, t.from, t.to, t.table, s.line, s.column];
}

// Every fault that a reading has, as rows of `t14`.
pub fn quiltrudder_faults(
    src: &[u8],
    reading: &[u32; 43],
    t1: &[u32],
    t2: &[u32],
    t3: &[u32],
    t4: &[u32],
    t5: &[u32],
    t6: &[u32],
    t7: &[u32],
    t8: &[u32],
    t9: &[u32],
    t10: &[u32],
    i1: &[u32],
    i7: &[u32],
    t14: &mut [u32],
    answer: &mut [u32; 8],
)
    ensures { ◌≡◌ {A = FaultsFace} (record { answer = answer.new; cells = t14.new }) (faults_face src.now reading.now (record { t1 = t1.now; t2 = t2.now; t3 = t3.now; t4 = t4.now; t5 = t5.now; t6 = t6.now; t7 = t7.now; t8 = t8.now; t9 = t9.now; t10 = t10.now }) (record { tokens = i1.now; rules = i7.now }) t14.old) }
{
    let c = singles::counts_of(reading);
    let g = singles::singles_of(reading);
    let l = faults(
        src, c, g, t1, t2, t3, t4, t5, t6, t7, t8, t9, t10, i1, i7, t14,
    );
    let a = l.answer;
    let s = l.spot;
    *answer = counted_cells(numbers::of_fault_listing(a), numbers::faulted(a), s);
}

// The unused rules and tokens of a valid reading, into `out`.
pub fn quiltrudder_report(
    src: &[u8],
    reading: &[u32; 43],
    t1: &[u32],
    t2: &[u32],
    t3: &[u32],
    t4: &[u32],
    t5: &[u32],
    t6: &[u32],
    t7: &[u32],
    t8: &[u32],
    t9: &[u32],
    t10: &[u32],
    i1: &[u32],
    i7: &[u32],
    work: &mut [u32],
    out: &mut [u32],
    answer: &mut [u32; 8],
)
    ensures { ReportFace src.now reading.now (record { t1 = t1.now; t2 = t2.now; t3 = t3.now; t4 = t4.now; t5 = t5.now; t6 = t6.now; t7 = t7.now; t8 = t8.now; t9 = t9.now; t10 = t10.now }) (record { tokens = i1.now; rules = i7.now }) work.old work.new out.old out.new answer.new }
{
    let c = singles::counts_of(reading);
    let g = singles::singles_of(reading);
    let l = report(
        src, c, g, t1, t2, t3, t4, t5, t6, t7, t8, t9, t10, i1, i7, work, out,
    );
    let a = l.answer;
    let s = l.spot;
    *answer = counted_cells(numbers::of_listing(a), numbers::listed(a), s);
}

// The report's work bits of a valid reading, without the list.
pub fn quiltrudder_mark(
    src: &[u8],
    reading: &[u32; 43],
    t1: &[u32],
    t2: &[u32],
    t3: &[u32],
    t4: &[u32],
    t5: &[u32],
    t6: &[u32],
    t7: &[u32],
    t8: &[u32],
    t9: &[u32],
    t10: &[u32],
    i1: &[u32],
    i7: &[u32],
    work: &mut [u32],
    answer: &mut [u32; 6],
)
    ensures { MarkFace src.now reading.now (record { t1 = t1.now; t2 = t2.now; t3 = t3.now; t4 = t4.now; t5 = t5.now; t6 = t6.now; t7 = t7.now; t8 = t8.now; t9 = t9.now; t10 = t10.now }) (record { tokens = i1.now; rules = i7.now }) work.old work.new answer.new }
{
    let c = singles::counts_of(reading);
    let g = singles::singles_of(reading);
    let l = mark(
        src, c, g, t1, t2, t3, t4, t5, t6, t7, t8, t9, t10, i1, i7, work,
    );
    let a = l.answer;
    let s = l.spot;
    let t = numbers::of_marking(a);
    *answer = [t.number, t.from, t.to, t.table, s.line, s.column];
}

// The next unused row by the bits; the record's two numbers, rule rows and token rows passed, are moved on in place.
pub fn quiltrudder_next_unused(
    src: &[u8],
    reading: &[u32; 43],
    t1: &[u32],
    t2: &[u32],
    t3: &[u32],
    t4: &[u32],
    t5: &[u32],
    t6: &[u32],
    t7: &[u32],
    t8: &[u32],
    t9: &[u32],
    t10: &[u32],
    i1: &[u32],
    i7: &[u32],
    work: &[u32],
    at: &mut [u32; 2],
    answer: &mut [u32; 8],
)
    ensures { NextFace src.now reading.now (record { t1 = t1.now; t2 = t2.now; t3 = t3.now; t4 = t4.now; t5 = t5.now; t6 = t6.now; t7 = t7.now; t8 = t8.now; t9 = t9.now; t10 = t10.now }) (record { tokens = i1.now; rules = i7.now }) work.now at.old at.new answer.new }
{
    let c = singles::counts_of(reading);
    let g = singles::singles_of(reading);
    let before = Standing {
        rules: at[0],
        tokens: at[1],
    };
    let s = walks::step(
        src, c, g, t1, t2, t3, t4, t5, t6, t7, t8, t9, t10, i1, i7, work, before,
    );
    let next = s.next;
    let after = s.at;
    *at = [after.rules, after.tokens];
    *answer = next_cells(next);
}

// The numbers of a reading behind a pruning: the counts are those that are left.
fn reading_after(m: &[u32; 43], p: Result<(), PruningError>, d: Counts) -> [u32; 43]
    ensures { result ≡ reading_after p d m.now }
{
    let mut r = *m;
    match p {
        Ok(()) => {
            r[4] = d.n[0];
            r[5] = d.n[1];
            r[6] = d.n[2];
            r[7] = d.n[3];
            r[8] = d.n[4];
            r[9] = d.n[5];
            r[10] = d.n[6];
            r[11] = d.n[7];
            r[12] = d.n[8];
            r[13] = d.n[9];
            r
        }
        Err(_) => r,
    }
}

// Drops what nothing keeps; the reading's counts are rewritten.
pub fn quiltrudder_prune(
    src: &[u8],
    reading: &mut [u32; 43],
    t1: &mut [u32],
    t2: &[u32],
    t3: &mut [u32],
    t4: &[u32],
    t5: &mut [u32],
    t6: &[u32],
    t7: &mut [u32],
    t8: &mut [u32],
    t9: &mut [u32],
    t10: &[u32],
    i1: &mut [u32],
    i7: &mut [u32],
    work: &mut [u32],
    answer: &mut [u32; 6],
)
    ensures { PruneFace src.now reading.old reading.new (record { t1 = t1.old; t2 = t2.now; t3 = t3.old; t4 = t4.now; t5 = t5.old; t6 = t6.now; t7 = t7.old; t8 = t8.old; t9 = t9.old; t10 = t10.now }) (record { t1 = t1.new; t2 = t2.now; t3 = t3.new; t4 = t4.now; t5 = t5.new; t6 = t6.now; t7 = t7.new; t8 = t8.new; t9 = t9.new; t10 = t10.now }) (record { tokens = i1.old; rules = i7.old }) (record { tokens = i1.new; rules = i7.new }) work.old work.new answer.new }
{
    let c = singles::counts_of(reading);
    let g = singles::singles_of(reading);
    let l = prune(
        src, c, g, t1, t2, t3, t4, t5, t6, t7, t8, t9, t10, i1, i7, work,
    );
    let a = l.answer;
    let s = l.spot;
    let d = l.counts;
    *reading = reading_after(reading, a, d);
    let t = numbers::of_pruning(a);
    *answer = [t.number, t.from, t.to, t.table, s.line, s.column];
}

// The place of the name of a row of table 1 or 7, with its line and column.
pub fn quiltrudder_name(
    src: &[u8],
    reading: &[u32; 43],
    t1: &[u32],
    t2: &[u32],
    t3: &[u32],
    t4: &[u32],
    t5: &[u32],
    t6: &[u32],
    t7: &[u32],
    t8: &[u32],
    t9: &[u32],
    t10: &[u32],
    i1: &[u32],
    i7: &[u32],
    table: u32,
    row: u32,
    answer: &mut [u32; 4],
)
    ensures { answer.new ≡ name_face src.now reading.now (record { t1 = t1.now; t2 = t2.now; t3 = t3.now; t4 = t4.now; t5 = t5.now; t6 = t6.now; t7 = t7.now; t8 = t8.now; t9 = t9.now; t10 = t10.now }) (record { tokens = i1.now; rules = i7.now }) table row }
{
    let c = singles::counts_of(reading);
    let g = singles::singles_of(reading);
    *answer = name_cells(
        src, c, g, t1, t2, t3, t4, t5, t6, t7, t8, t9, t10, i1, i7, table, row,
    );
}

// The value of a row of table 5 without its quotes and escapes, into `out`.
pub fn quiltrudder_epp_value(
    src: &[u8],
    reading: &[u32; 43],
    t1: &[u32],
    t2: &[u32],
    t3: &[u32],
    t4: &[u32],
    t5: &[u32],
    t6: &[u32],
    t7: &[u32],
    t8: &[u32],
    t9: &[u32],
    t10: &[u32],
    i1: &[u32],
    i7: &[u32],
    row: u32,
    out: &mut [u8],
    answer: &mut [u32; 8],
)
    ensures { ◌≡◌ {A = ValueFace} (record { answer = answer.new; out = out.new }) (value_face src.now reading.now (record { t1 = t1.now; t2 = t2.now; t3 = t3.now; t4 = t4.now; t5 = t5.now; t6 = t6.now; t7 = t7.now; t8 = t8.now; t9 = t9.now; t10 = t10.now }) (record { tokens = i1.now; rules = i7.now }) row out.old) }
{
    let c = singles::counts_of(reading);
    let g = singles::singles_of(reading);
    let v = epp_value(
        src, c, g, t1, t2, t3, t4, t5, t6, t7, t8, t9, t10, i1, i7, row, out,
    );
    let a = v.answer;
    let s = v.spot;
    *answer = counted_cells(numbers::of_valuation(a), numbers::written(a), s);
}

// Line and column of a place in a source.
pub fn quiltrudder_locate(src: &[u8], at: u32, answer: &mut [u32; 2])
    ensures { answer.new ≡ spot_cells (spot_at src.now at) }
{
    let s = locate(src, at);
    *answer = [s.line, s.column];
}

// Writes a reading into blocks; its answer is number, place, table, how many blocks there are (low and high half), line and column.
pub fn quiltrudder_store(
    src: &[u8],
    kind: u32,
    reading: &[u32; 43],
    t1: &[u32],
    t2: &[u32],
    t3: &[u32],
    t4: &[u32],
    t5: &[u32],
    t6: &[u32],
    t7: &[u32],
    t8: &[u32],
    t9: &[u32],
    t10: &[u32],
    i1: &[u32],
    i7: &[u32],
    t15: &[u32],
    t16: &[u32],
    t17: &[u32],
    blocks: &mut [u8],
    answer: &mut [u32; 8],
)
    ensures { ◌≡◌ {A = StoreFace} (record { answer = answer.new; blocks = blocks.new }) (store_face src.now kind reading.now (record { t1 = t1.now; t2 = t2.now; t3 = t3.now; t4 = t4.now; t5 = t5.now; t6 = t6.now; t7 = t7.now; t8 = t8.now; t9 = t9.now; t10 = t10.now; t15 = t15.now; t16 = t16.now; t17 = t17.now }) (record { tokens = i1.now; rules = i7.now }) blocks.old) }
{
    let c = singles::counts_of(reading);
    let p = singles::posix_of(reading);
    let g = singles::singles_of(reading);
    let r = storing::store(
        src, kind, c, p, g, t1, t2, t3, t4, t5, t6, t7, t8, t9, t10, i1, i7, t15, t16, t17, blocks,
    );
    let t = numbers::of_storing(r);
    let n = numbers::stored_blocks(r);
    *answer = counted_cells(t, n, numbers::spot_of(src, t));
}

// A reading's numbers with those of an answer before them, and seven behind them.
fn reading_cells(t: Told, c: Counts, g: Singles, rest: [u32; 7]) -> [u32; 45]
    ensures { result ≡ (told_numbers t ++ counts_cells c ++ singles_cells g) ++ rest }
{
    let told = [
        t.number, t.from, t.to, t.table, c.n[0], c.n[1], c.n[2], c.n[3], c.n[4], c.n[5], c.n[6],
        c.n[7], c.n[8], c.n[9],
    ];
    let singles = singles::single_cells(g);
    let mut m = [0u32; 45];
    singles::put_cells(&mut m, 0, &told);
    singles::put_cells(&mut m, 14, &singles);
    singles::put_cells(&mut m, 38, &rest);
    m
}

// What loading back answers: a reading's numbers, and behind them the kind and the source's length.
fn restoring_cells(r: StoredReading) -> [u32; 45]
    ensures { result ≡ restoring_cells r.answer (record { kind = r.kind; counts = r.counts; posix = r.posix; length = r.length; singles = r.singles }) }
{
    let a = r.answer;
    let c = r.counts;
    let p = r.posix;
    let g = r.singles;
    let rest = [p.n[0], p.n[1], p.n[2], 1, 1, r.kind, r.length];
    reading_cells(numbers::of_restoring(a), c, g, rest)
}

// What shipping answers: a reading's numbers, and behind them how many bytes were sent, by the low and high half.
fn shipping_cells(r: ShippingAt) -> [u32; 45]
    ensures { result ≡ shipping_cells r.answer r.counts r.singles r.spot }
{
    let a = r.answer;
    let c = r.counts;
    let g = r.singles;
    let s = r.spot;
    let n = numbers::sent_bytes(a);
    let low = (n % 4294967296) as u32;
    let high = (n / 4294967296) as u32;
    reading_cells(
        numbers::of_shipment(a),
        c,
        g,
        [0, 0, 0, s.line, s.column, low, high],
    )
}

// Reads a reading back from blocks.
pub fn quiltrudder_load_stored(
    blocks: &[u8],
    src: &mut [u8],
    t1: &mut [u32],
    t2: &mut [u32],
    t3: &mut [u32],
    t4: &mut [u32],
    t5: &mut [u32],
    t6: &mut [u32],
    t7: &mut [u32],
    t8: &mut [u32],
    t9: &mut [u32],
    t10: &mut [u32],
    i1: &mut [u32],
    i7: &mut [u32],
    t15: &mut [u32],
    t16: &mut [u32],
    t17: &mut [u32],
    answer: &mut [u32; 45],
)
    ensures { ◌≡◌ {A = RestoreFace} (record { answer = answer.new; source = src.new; tables = record { t1 = t1.new; t2 = t2.new; t3 = t3.new; t4 = t4.new; t5 = t5.new; t6 = t6.new; t7 = t7.new; t8 = t8.new; t9 = t9.new; t10 = t10.new; t15 = t15.new; t16 = t16.new; t17 = t17.new }; indexes = record { tokens = i1.new; rules = i7.new } }) (restore_face blocks.now src.old (record { t1 = t1.old; t2 = t2.old; t3 = t3.old; t4 = t4.old; t5 = t5.old; t6 = t6.old; t7 = t7.old; t8 = t8.old; t9 = t9.old; t10 = t10.old; t15 = t15.old; t16 = t16.old; t17 = t17.old }) (record { tokens = i1.old; rules = i7.old })) }
{
    let r = restoring::load_stored(
        blocks, src, t1, t2, t3, t4, t5, t6, t7, t8, t9, t10, i1, i7, t15, t16, t17,
    );
    *answer = restoring_cells(r);
}

// Reads a source of kind 1, 2 or 3 and writes its shipping form into `out`.
pub fn quiltrudder_ship(
    src: &[u8],
    kind: u32,
    t1: &mut [u32],
    t2: &mut [u32],
    t3: &mut [u32],
    t4: &mut [u32],
    t5: &mut [u32],
    t6: &mut [u32],
    t7: &mut [u32],
    t8: &mut [u32],
    t9: &mut [u32],
    t10: &mut [u32],
    i1: &mut [u32],
    i7: &mut [u32],
    out: &mut [u8],
    answer: &mut [u32; 45],
)
    ensures { ◌≡◌ {A = ShipFace} (record { answer = answer.new; tables = record { t1 = t1.new; t2 = t2.new; t3 = t3.new; t4 = t4.new; t5 = t5.new; t6 = t6.new; t7 = t7.new; t8 = t8.new; t9 = t9.new; t10 = t10.new }; indexes = record { tokens = i1.new; rules = i7.new }; out = out.new }) (ship_face src.now kind (record { t1 = t1.old; t2 = t2.old; t3 = t3.old; t4 = t4.old; t5 = t5.old; t6 = t6.old; t7 = t7.old; t8 = t8.old; t9 = t9.old; t10 = t10.old }) (record { tokens = i1.old; rules = i7.old }) out.old) }
{
    let r = ship(
        src, kind, t1, t2, t3, t4, t5, t6, t7, t8, t9, t10, i1, i7, out,
    );
    *answer = shipping_cells(r);
}
