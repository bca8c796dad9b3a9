// The unused report: rules and tokens that no chain from the start rule reaches and no declaration excuses.
#![tactic(auto)]

ghost use Rattle.std.specs.Prelude.{◌≡◌, ℕ, ◌+◌, ◌*◌, ◌^◌, ◌<◌, ◌≤◌, true, length};
ghost use Rattle.grammar.specs.Sound.{Tables};
ghost use Rattle.tables.specs.Table.{cell};
ghost use Rattle.tables.specs.Layout.{width, implicit, unused, kind_name};
ghost use Rattle.finder.specs.Finder.{LeadsTo, Grown};
ghost use Rattle.sound.specs.Test.{count_at};
ghost use Rattle.reach.specs.Reach.{named, rule_sort, token_sort};
ghost use Rattle.usage.specs.Report.{Says, Expects, Expected, Implicit, Excused, excuses_of, ExpectedLed, ImplicitLed, Guides, Free, Counted, Crowds, Wrote, Room, Written, ByBits, BitsLeft, MarkedBits, Reported, StandIn};

use finder::Sought;
use grammar::{Counts, Singles};
use reach::Sort;
use validation::{Flaw, ValidityError};

// Declarations that few slots are enough for.
const FEW_EXCUSES: usize = 512;

#[derive(Clone, Copy)]
pub enum ListingError {
    OfUnsound,
    OfInvalid(Flaw),
    // Too few words for the work bits, too little room for the report.
    NoWords,
    NoRoom,
}

#[derive(Clone, Copy)]
pub enum MarkingError {
    MarksUnsound,
    MarksInvalid(Flaw),
    // Too few words for the work bits.
    MarksNoWords,
}

// Whether row `e` of table 6 has the kind and the name.
fn expects(src: &[u8], t6: &[u32], kind: u32, a: u32, b: u32, e: u32) -> bool
    ensures { Says result (Expects src.now t6.now kind a b e) }
{
    let w = tables::UNUSED_WIDTH;
    if tables::cell(t6, w, e, 0) != kind {
        return false;
    }
    let from = tables::cell(t6, w, e, 1);
    let to = tables::cell(t6, w, e, 2);
    tables::same_part(src, from, to, a, b)
}

// Whether one of the `n` rows has.
fn is_expected(src: &[u8], t6: &[u32], n: u32, kind: u32, a: u32, b: u32) -> bool
    ensures { Says result (Expected src.now t6.now n kind a b) }
{
    (0..n).any(|e| expects(src, t6, kind, a, b, e))
}

// Whether it is a token that one of the `n` rows of table 4 names.
fn is_implicit(src: &[u8], t4: &[u32], n: u32, kind: u32, a: u32, b: u32) -> bool
    ensures { Says result (Implicit src.now t4.now n kind a b) }
{
    if kind != 2 {
        return false;
    }
    tables::find(src, t4, tables::NAME_WIDTH, tables::NAME, n, a, b).is_some()
}

// Whether a declaration excuses the name.
fn is_excused(src: &[u8], c: Counts, t4: &[u32], t6: &[u32], kind: u32, a: u32, b: u32) -> bool
    ensures { Says result (Excused (excuses_of src.now c t4.now t6.now) kind a b) }
{
    if is_expected(src, t6, sound::rows_of(c, tables::UNUSED), kind, a, b) {
        return true;
    }
    is_implicit(src, t4, sound::rows_of(c, tables::IMPLICIT), kind, a, b)
}

// Whether the row is to be listed.
pub fn is_free(
    w: &[u32],
    src: &[u8],
    c: Counts,
    names: &[u32],
    z: Sort,
    t4: &[u32],
    t6: &[u32],
    row: u32,
) -> bool
    requires { z.base < 2 ^ 40 }
    ensures { Says result (Free w.now (excuses_of src.now c t4.now t6.now) (named names.now z) row) }
{
    if bits::test_bit(w, z.base + row as usize) {
        return false;
    }
    let a = tables::cell(names, z.wide, row, 0);
    let b = tables::cell(names, z.wide, row, 1);
    !is_excused(src, c, t4, t6, z.kind, a, b)
}

// As `is_expected`, by slots that lead to the rows of the kind. They may lead to a row of another kind: then the search tells.
fn expects_by(src: &[u8], t6: &[u32], n: u32, kind: u32, a: u32, b: u32, fx: &[u16]) -> bool
    requires { ExpectedLed src.now t6.now n kind fx.now }
    ensures { Says result (Expected src.now t6.now n kind a b) }
{
    match finder::meet(
        src,
        t6,
        tables::UNUSED_WIDTH,
        tables::KIND_NAME,
        n,
        fx,
        a,
        b,
    ) {
        Some(e) => {
            if expects(src, t6, kind, a, b, e) {
                return true;
            }
            is_expected(src, t6, n, kind, a, b)
        }
        None => false,
    }
}

// As `is_implicit`, by slots that lead to the rows.
fn implies_by(src: &[u8], t4: &[u32], n: u32, kind: u32, a: u32, b: u32, fx: &[u16]) -> bool
    requires { kind ≡ 2 → ImplicitLed src.now t4.now n fx.now }
    ensures { Says result (Implicit src.now t4.now n kind a b) }
{
    let token = kind == 2;
    if !token {
        return false;
    }
    finder::meet(src, t4, tables::NAME_WIDTH, tables::NAME, n, fx, a, b).is_some()
}

// As `is_excused`, by slots that guide.
fn excuses_by(
    src: &[u8],
    c: Counts,
    t4: &[u32],
    t6: &[u32],
    kind: u32,
    a: u32,
    b: u32,
    fx: &[u16],
) -> bool
    requires { Guides (excuses_of src.now c t4.now t6.now) kind fx.now }
    ensures { Says result (Excused (excuses_of src.now c t4.now t6.now) kind a b) }
{
    if expects_by(src, t6, sound::rows_of(c, tables::UNUSED), kind, a, b, fx) {
        return true;
    }
    implies_by(src, t4, sound::rows_of(c, tables::IMPLICIT), kind, a, b, fx)
}

// As `is_free`, by slots that guide.
fn is_listed(
    w: &[u32],
    src: &[u8],
    c: Counts,
    names: &[u32],
    z: Sort,
    t4: &[u32],
    t6: &[u32],
    row: u32,
    fx: &[u16],
) -> bool
    requires { (z.base < 2 ^ 40) × Guides (excuses_of src.now c t4.now t6.now) z.kind fx.now }
    ensures { Says result (Free w.now (excuses_of src.now c t4.now t6.now) (named names.now z) row) }
{
    if bits::test_bit(w, z.base + row as usize) {
        return false;
    }
    let a = tables::cell(names, z.wide, row, 0);
    let b = tables::cell(names, z.wide, row, 1);
    !excuses_by(src, c, t4, t6, z.kind, a, b, fx)
}

// Whether the slots lead to a row before row `r` that has its name and the kind. A name may stand in table 6 a thousand times, and one of its rows is enough.
fn has_stand_in(src: &[u8], t6: &[u32], kind: u32, r: u32, fx: &[u16]) -> bool
    ensures { result ≡ true → StandIn src.now t6.now r kind r fx.now }
{
    let w = tables::UNUSED_WIDTH;
    let a = tables::cell(t6, w, r, 1);
    let b = tables::cell(t6, w, r, 2);
    match finder::seek(src, t6, w, tables::KIND_NAME, r, fx, a, b) {
        Sought::Seated(q) => tables::cell(t6, w, q, 0) == kind,
        Sought::Unseated | Sought::Untold => false,
    }
}

// Enters row `r` of table 6 if it has the kind, and none stands in for it.
fn guide_row(src: &[u8], t6: &[u32], kind: u32, r: u32, fx: &mut [u16])
    ensures grown { Grown fx.old fx.new }
    ensures led { cell (width unused) t6.now r 0 ≡ kind → StandIn src.now t6.now (r + 1) kind r fx.new }
{
    if tables::cell(t6, tables::UNUSED_WIDTH, r, 0) != kind {
        return;
    }
    if has_stand_in(src, t6, kind, r, fx) {
        return;
    }
    finder::enter(src, t6, tables::UNUSED_WIDTH, tables::KIND_NAME, r, fx);
}

// Enters the rows of the kind, of the `n` of table 6.
fn guide_expected(src: &[u8], t6: &[u32], n: u32, kind: u32, fx: &mut [u16])
    ensures grown { Grown fx.old fx.new }
    ensures led { ExpectedLed src.now t6.now n kind fx.new }
{
    for r in 0..n {
        guide_row(src, t6, kind, r, fx);
    }
}

// Enters the `n` rows of table 4.
fn guide_implicit(src: &[u8], t4: &[u32], n: u32, fx: &mut [u16])
    ensures grown { Grown fx.old fx.new }
    ensures led { ImplicitLed src.now t4.now n fx.new }
{
    for r in 0..n {
        finder::enter(src, t4, tables::NAME_WIDTH, tables::NAME, r, fx);
    }
}

// Enters what may excuse a name of the kind. Table 4 excuses tokens alone.
fn guide(src: &[u8], c: Counts, t4: &[u32], t6: &[u32], kind: u32, fx: &mut [u16])
    ensures { Guides (excuses_of src.now c t4.now t6.now) kind fx.new }
{
    guide_expected(src, t6, sound::rows_of(c, tables::UNUSED), kind, fx);
    if kind == 2 {
        guide_implicit(src, t4, sound::rows_of(c, tables::IMPLICIT), fx);
        return;
    }
}

// How many of the rows are to be listed.
fn count_free(
    w: &[u32],
    src: &[u8],
    c: Counts,
    names: &[u32],
    z: Sort,
    t4: &[u32],
    t6: &[u32],
    fx: &[u16],
) -> usize
    requires { (z.base < 2 ^ 40) × Guides (excuses_of src.now c t4.now t6.now) z.kind fx.now }
    ensures { Counted (Free w.now (excuses_of src.now c t4.now t6.now) (named names.now z)) z.count result }
{
    let mut found = 0;
    for row in 0..z.count {
        if is_listed(w, src, c, names, z, t4, t6, row, fx) {
            found += 1;
        }
    }
    found
}

// Lists the row as row `at` of the report, if it is to be listed, and says whether.
fn write_one(
    out: &mut [u32],
    at: usize,
    w: &[u32],
    src: &[u8],
    c: Counts,
    names: &[u32],
    z: Sort,
    t4: &[u32],
    t6: &[u32],
    row: u32,
    fx: &[u16],
) -> bool
    requires { (z.base < 2 ^ 40) × (Free w.now (excuses_of src.now c t4.now t6.now) (named names.now z) row → at * 2 + 2 ≤ length out.old) × Guides (excuses_of src.now c t4.now t6.now) z.kind fx.now }
    ensures { Wrote result (Free w.now (excuses_of src.now c t4.now t6.now) (named names.now z) row) z.kind row at out.old out.new }
{
    if !is_listed(w, src, c, names, z, t4, t6, row, fx) {
        return false;
    }
    let to = at * 2;
    out[to] = z.kind;
    out[to + 1] = row;
    true
}

// Lists the rows to be listed, from row `at` of the report on, and gives the next row of it.
fn write_free(
    out: &mut [u32],
    at: usize,
    w: &[u32],
    src: &[u8],
    c: Counts,
    names: &[u32],
    z: Sort,
    t4: &[u32],
    t6: &[u32],
    fx: &[u16],
) -> usize
    requires { (z.base < 2 ^ 40) × Room (Free w.now (excuses_of src.now c t4.now t6.now) (named names.now z)) z.count at out.old × Guides (excuses_of src.now c t4.now t6.now) z.kind fx.now }
    ensures { Written (Free w.now (excuses_of src.now c t4.now t6.now) (named names.now z)) z.kind z.count at result out.old out.new }
{
    let mut next = at;
    for row in 0..z.count {
        if write_one(out, next, w, src, c, names, z, t4, t6, row, fx) {
            next += 1;
        }
    }
    next
}

// The same by slots of which nothing is known: they are filled first.
fn count_by(
    w: &[u32],
    src: &[u8],
    c: Counts,
    names: &[u32],
    z: Sort,
    t4: &[u32],
    t6: &[u32],
    fx: &mut [u16],
) -> usize
    requires { z.base < 2 ^ 40 }
    ensures { Counted (Free w.now (excuses_of src.now c t4.now t6.now) (named names.now z)) z.count result }
{
    guide(src, c, t4, t6, z.kind, fx);
    count_free(w, src, c, names, z, t4, t6, fx)
}

fn write_by(
    out: &mut [u32],
    at: usize,
    w: &[u32],
    src: &[u8],
    c: Counts,
    names: &[u32],
    z: Sort,
    t4: &[u32],
    t6: &[u32],
    fx: &mut [u16],
) -> usize
    requires { (z.base < 2 ^ 40) × Room (Free w.now (excuses_of src.now c t4.now t6.now) (named names.now z)) z.count at out.old }
    ensures { Written (Free w.now (excuses_of src.now c t4.now t6.now) (named names.now z)) z.kind z.count at result out.old out.new }
{
    guide(src, c, t4, t6, z.kind, fx);
    write_free(out, at, w, src, c, names, z, t4, t6, fx)
}

// The same with `N` slots: few are soon cleared, many do for every grammar that is read.
fn count_in<const N: usize>(
    w: &[u32],
    src: &[u8],
    c: Counts,
    names: &[u32],
    z: Sort,
    t4: &[u32],
    t6: &[u32],
) -> usize
    requires { (z.base < 2 ^ 40) × (N < 2 ^ 40) }
    ensures { Counted (Free w.now (excuses_of src.now c t4.now t6.now) (named names.now z)) z.count result }
{
    let mut fx = [0u16; N];
    count_by(w, src, c, names, z, t4, t6, &mut fx)
}

fn write_in<const N: usize>(
    out: &mut [u32],
    at: usize,
    w: &[u32],
    src: &[u8],
    c: Counts,
    names: &[u32],
    z: Sort,
    t4: &[u32],
    t6: &[u32],
) -> usize
    requires { (z.base < 2 ^ 40) × (N < 2 ^ 40) × Room (Free w.now (excuses_of src.now c t4.now t6.now) (named names.now z)) z.count at out.old }
    ensures { Written (Free w.now (excuses_of src.now c t4.now t6.now) (named names.now z)) z.kind z.count at result out.old out.new }
{
    let mut fx = [0u16; N];
    write_by(out, at, w, src, c, names, z, t4, t6, &mut fx)
}

// How many declarations may excuse a name; few want few slots.
fn excuse_count(c: Counts) -> usize
    ensures { result ≡ count_at c implicit + count_at c unused }
{
    let implicits = sound::rows_of(c, tables::IMPLICIT) as usize;
    let expecteds = sound::rows_of(c, tables::UNUSED) as usize;
    implicits + expecteds
}

fn count_sort(
    w: &[u32],
    src: &[u8],
    c: Counts,
    names: &[u32],
    z: Sort,
    t4: &[u32],
    t6: &[u32],
) -> usize
    requires { z.base < 2 ^ 40 }
    ensures { Counted (Free w.now (excuses_of src.now c t4.now t6.now) (named names.now z)) z.count result }
{
    if excuse_count(c) <= FEW_EXCUSES {
        return count_in::<{ finder::FEW_SLOTS }>(w, src, c, names, z, t4, t6);
    }
    count_in::<{ finder::MANY_SLOTS }>(w, src, c, names, z, t4, t6)
}

fn write_sort(
    out: &mut [u32],
    at: usize,
    w: &[u32],
    src: &[u8],
    c: Counts,
    names: &[u32],
    z: Sort,
    t4: &[u32],
    t6: &[u32],
) -> usize
    requires { (z.base < 2 ^ 40) × Room (Free w.now (excuses_of src.now c t4.now t6.now) (named names.now z)) z.count at out.old }
    ensures { Written (Free w.now (excuses_of src.now c t4.now t6.now) (named names.now z)) z.kind z.count at result out.old out.new }
{
    if excuse_count(c) <= FEW_EXCUSES {
        return write_in::<{ finder::FEW_SLOTS }>(out, at, w, src, c, names, z, t4, t6);
    }
    write_in::<{ finder::MANY_SLOTS }>(out, at, w, src, c, names, z, t4, t6)
}

// Whether more rows are to be listed than there is room for. Where every row has room none is counted.
fn is_crowded(
    most: usize,
    w: &[u32],
    src: &[u8],
    c: Counts,
    t1: &[u32],
    t4: &[u32],
    t6: &[u32],
    t7: &[u32],
) -> bool
    ensures { Crowds result (Free w.now (excuses_of src.now c t4.now t6.now) (named t7.now (rule_sort c))) (Free w.now (excuses_of src.now c t4.now t6.now) (named t1.now (token_sort c))) (rule_sort c).count (token_sort c).count most }
{
    let rules = reach::rule_sort(c);
    let tokens = reach::token_sort(c);
    if rules.count as usize + tokens.count as usize <= most {
        return false;
    }
    let first = count_sort(w, src, c, t7, rules, t4, t6);
    let second = count_sort(w, src, c, t1, tokens, t4, t6);
    most < first + second
}

// The rows that the bits leave, rules first. The report is zero where it has no room. One sort's slots are alive at a time.
fn list_unused(
    out: &mut [u32],
    w: &[u32],
    src: &[u8],
    c: Counts,
    t1: &[u32],
    t4: &[u32],
    t6: &[u32],
    t7: &[u32],
) -> Result<usize, ListingError>
    ensures { ByBits w.now (excuses_of src.now c t4.now t6.now) (named t7.now (rule_sort c)) (named t1.now (token_sort c)) result out.old out.new }
{
    tables::zero(out);
    if is_crowded(out.len() / 2, w, src, c, t1, t4, t6, t7) {
        return Err(ListingError::NoRoom);
    }
    let at = write_sort(out, 0, w, src, c, t7, reach::rule_sort(c), t4, t6);
    let all = write_sort(out, at, w, src, c, t1, reach::token_sort(c), t4, t6);
    Ok(all)
}

// The list behind a marking. Where the report has no room for it the work bits are zero too.
fn list_marked(
    work: &mut [u32],
    out: &mut [u32],
    src: &[u8],
    c: Counts,
    t1: &[u32],
    t4: &[u32],
    t6: &[u32],
    t7: &[u32],
) -> Result<usize, ListingError>
    ensures { ByBits work.old (excuses_of src.now c t4.now t6.now) (named t7.now (rule_sort c)) (named t1.now (token_sort c)) result out.old out.new × BitsLeft result work.old work.new }
{
    let l = list_unused(out, work, src, c, t1, t4, t6, t7);
    if let Err(ListingError::NoRoom) = l {
        tables::zero(work);
    }
    l
}

// A bit for each row that is used, without the list; 44 and validate's number come first, and a refusal leaves zeros.
pub fn mark(
    src: &[u8],
    c: Counts,
    g: Singles,
    t1: &[u32],
    t2: &[u32],
    t3: &[u32],
    t4: &[u32],
    t5: &[u32],
    t6: &[u32],
    t7: &[u32],
    t8: &[u32],
    t9: &[u32],
    t10: &[u32],
    i1: &[u32],
    i7: &[u32],
    work: &mut [u32],
) -> Result<(), MarkingError>
    ensures { MarkedBits src.now c g (record { t1 = t1.now; t2 = t2.now; t3 = t3.now; t4 = t4.now; t5 = t5.now; t6 = t6.now; t7 = t7.now; t8 = t8.now; t9 = t9.now; t10 = t10.now }) (record { tokens = i1.now; rules = i7.now }) result work.old work.new }
{
    match validator::validate(src, c, g, t1, t2, t3, t4, t5, t6, t7, t8, t9, t10, i1, i7) {
        Ok(()) => {
            let start = g.start;
            if reach::mark_used(work, src, c, start, t1, t7, t8, t9, i1, i7) {
                return Ok(());
            }
            Err(MarkingError::MarksNoWords)
        }
        Err(ValidityError::UnsoundTables) => {
            tables::zero(work);
            Err(MarkingError::MarksUnsound)
        }
        Err(ValidityError::Invalid(f)) => {
            tables::zero(work);
            Err(MarkingError::MarksInvalid(f))
        }
    }
}

// The unused rules, then the unused tokens, and how many they are: the marking, and then the list. A refusal leaves zeros.
pub fn report(
    src: &[u8],
    c: Counts,
    g: Singles,
    t1: &[u32],
    t2: &[u32],
    t3: &[u32],
    t4: &[u32],
    t5: &[u32],
    t6: &[u32],
    t7: &[u32],
    t8: &[u32],
    t9: &[u32],
    t10: &[u32],
    i1: &[u32],
    i7: &[u32],
    work: &mut [u32],
    out: &mut [u32],
) -> Result<usize, ListingError>
    ensures { Reported src.now c g (record { t1 = t1.now; t2 = t2.now; t3 = t3.now; t4 = t4.now; t5 = t5.now; t6 = t6.now; t7 = t7.now; t8 = t8.now; t9 = t9.now; t10 = t10.now }) (record { tokens = i1.now; rules = i7.now }) result work.old work.new out.old out.new }
{
    match mark(
        src, c, g, t1, t2, t3, t4, t5, t6, t7, t8, t9, t10, i1, i7, work,
    ) {
        Ok(()) => list_marked(work, out, src, c, t1, t4, t6, t7),
        Err(MarkingError::MarksUnsound) => {
            tables::zero(out);
            Err(ListingError::OfUnsound)
        }
        Err(MarkingError::MarksInvalid(f)) => {
            tables::zero(out);
            Err(ListingError::OfInvalid(f))
        }
        Err(MarkingError::MarksNoWords) => {
            tables::zero(out);
            Err(ListingError::NoWords)
        }
    }
}
