// What the catalogue's blocks hold: a head of 39 numbers (counts, the source's length, singles, kind), the rows of the thirteen tables that a read fills, and the source; and whether blocks hold that.
#![tactic(auto)]

ghost use Rattle.std.specs.Prelude.{◌≡◌, ◌+◌, ◌*◌, ◌≤◌, ◌<◌, length};
ghost use Rattle.blocks.specs.Blocks.{capacity, content_of};
ghost use Rattle.grammar.specs.Sound.{AllTables};
ghost use Rattle.catalogue.specs.Catalogue.{rows_at, head_cells, cells_at, cells_before, rows_from, content_size, head_of, head_in, zero_cells, lead_test, head_test, filled_test, first_short, no_room, whole_test, held_in, examined, sound_reading};

use blocks::BlockFault;
use grammar::{Counts, PosixCounts, Singles};

// Bytes of the head.
pub const HEAD: usize = 156;

// Cells of the head.
const CELLS: usize = 39;

const LENGTH_CELL: usize = 13;

const SINGLES_CELL: usize = 14;

const KIND_CELL: usize = 38;

// The tables' number where the source has no room.
const SOURCE_TABLE: u32 = 19;

#[derive(Clone, Copy)]
pub struct Head {
    pub kind: u32,
    pub counts: Counts,
    pub posix: PosixCounts,
    pub length: u32,
    pub singles: Singles,
}

// The lent lengths of the thirteen tables by index.
#[derive(Clone, Copy)]
pub struct Rooms {
    pub n: [usize; 13],
}

// What blocks come to before anything is filled.
#[derive(Clone, Copy)]
pub enum FindingError {
    NoWholeBlocks,
    FaultyNumber,
    FaultyCheck,
    Unfilled,
    WrongSize,
    NoRoom(u32),
}

// The count of the table with index `k`.
fn rows_at(c: Counts, p: PosixCounts, k: u8) -> u32
    ensures { result ≡ rows_at c p k }
{
    let i = k as usize;
    if i < 10 {
        return c.n[i];
    }
    if i < 13 {
        return p.n[i - 10];
    }
    0
}

// How many cells its rows take.
pub fn cells_at(c: Counts, p: PosixCounts, k: u8) -> usize
    ensures value { result ≡ cells_at c p k }
    ensures upper_bound { result ≤ 13 * 4294967295 }
{
    (rows_at(c, p, k) as usize) * (sound::width_of(k) as usize)
}

// How many cells the rows of the tables before it take.
fn cells_before(c: Counts, p: PosixCounts, k: u8) -> usize
    requires { k ≤ 13 }
    ensures value { result ≡ cells_before c p k }
    ensures upper_bound { result ≤ k * (13 * 4294967295) }
{
    let mut n = 0;
    for i in 0..k {
        n += cells_at(c, p, i);
    }
    n
}

// Where its rows begin in the content.
pub fn rows_from(c: Counts, p: PosixCounts, k: u8) -> usize
    requires { k ≤ 13 }
    ensures value { result ≡ rows_from c p k }
    ensures upper_bound { result ≤ 2903397892260 }
{
    HEAD + 4 * cells_before(c, p, k)
}

// The bytes of head, rows and a source of `n` bytes.
pub fn content_size(c: Counts, p: PosixCounts, n: usize) -> usize
    requires { n ≤ 4294967295 }
    ensures value { result ≡ content_size c p n }
    ensures upper_bound { result ≤ 2907692859555 }
{
    rows_from(c, p, 13) + n
}

// The head as numbers.
pub fn head_cells(h: Head) -> [u32; 39]
    ensures { result ≡ head_cells h }
{
    let c = h.counts;
    let p = h.posix;
    let g = h.singles;
    let counts = [
        c.n[0], c.n[1], c.n[2], c.n[3], c.n[4], c.n[5], c.n[6], c.n[7], c.n[8], c.n[9], p.n[0],
        p.n[1], p.n[2], h.length,
    ];
    let singles = singles::single_cells(g);
    let mut m = [0u32; 39];
    singles::put_cells(&mut m, 0, &counts);
    singles::put_cells(&mut m, SINGLES_CELL, &singles);
    m[KIND_CELL] = h.kind;
    m
}

// The head that 39 numbers are.
fn head_of(m: &[u32; 39]) -> Head
    ensures { result ≡ head_of m.now }
{
    let singles = singles::singles_of(m);
    Head {
        kind: m[KIND_CELL],
        counts: Counts {
            n: [m[0], m[1], m[2], m[3], m[4], m[5], m[6], m[7], m[8], m[9]],
        },
        posix: PosixCounts {
            n: [m[10], m[11], m[12]],
        },
        length: m[LENGTH_CELL],
        singles,
    }
}

// Whether the `n` cells from `k` on are zero.
fn zero_cells(m: &[u32; 39], k: usize, n: usize) -> bool
    requires { k + n ≤ 39 }
    ensures { result ≡ zero_cells m.now k n }
{
    m[k..k + n].iter().all(|x| *x == 0)
}

// A single from cell `k` on, with `n` fields: led by 1, or by 0 and then zero.
fn lead_good(m: &[u32; 39], k: usize, n: usize) -> bool
    requires { k + n < 39 }
    ensures { result ≡ lead_test m.now k n }
{
    if m[k] == 1 {
        return true;
    }
    zero_cells(m, k, n + 1)
}

// A kind that there is, and leads of 0 or 1.
fn head_good(m: &[u32; 39]) -> bool
    ensures { result ≡ head_test m.now }
{
    let kind = m[KIND_CELL];
    (1 <= kind)
        & (kind <= 4)
        & lead_good(m, 14, 2)
        & lead_good(m, 17, 4)
        & lead_good(m, 22, 4)
        & lead_good(m, 27, 4)
        & lead_good(m, 32, 2)
        & lead_good(m, 35, 2)
}

// Whether content of `n` bytes fills the blocks, and zeros the last one's rest.
fn is_filled(s: &[u8], n: usize) -> bool
    requires { n ≤ 2907692859555 }
    ensures { result ≡ filled_test (content_of s.now) n }
{
    let all = s.len() / 512 * 504;
    if (n + 503) / 504 * 504 != all {
        return false;
    }
    blocks::zero_bytes(s, n, all - n)
}

// The number of the first table whose rows do not fit into what is lent, or 0.
fn first_short(c: Counts, p: PosixCounts, rooms: Rooms) -> u32
    ensures { result ≡ first_short c p rooms.n 0 13 }
{
    for k in 0u8..13 {
        let i = k as usize;
        if rooms.n[i] < cells_at(c, p, k) {
            return tables::table_number(k);
        }
    }
    0
}

// The same, and of the source behind the tables.
fn no_room(h: Head, rooms: Rooms, source: usize) -> u32
    ensures { result ≡ no_room h rooms.n source }
{
    let c = h.counts;
    let p = h.posix;
    let k = first_short(c, p, rooms);
    if k != 0 {
        return k;
    }
    if (h.length as usize) <= source {
        return 0;
    }
    SOURCE_TABLE
}

// The head in front of the content.
pub fn head_in(s: &[u8]) -> Head
    requires { 512 ≤ length s.now }
    ensures { result ≡ head_in s.now }
{
    let mut m = [0u32; 39];
    blocks::get_numbers(&mut m, s, 0, CELLS);
    head_of(&m)
}

// What right blocks hold: 63, 45 and 42, in that order.
fn held_in(s: &[u8], sized: bool, rooms: Rooms, source: usize) -> Result<(), FindingError>
    requires { 512 ≤ length s.now }
    ensures { result ≡ held_in (content_of s.now) sized rooms.n source }
{
    let mut m = [0u32; 39];
    blocks::get_numbers(&mut m, s, 0, CELLS);
    let h = head_of(&m);
    let c = h.counts;
    let p = h.posix;
    if !head_good(&m) {
        return Err(FindingError::Unfilled);
    }
    if !is_filled(s, content_size(c, p, h.length as usize)) {
        return Err(FindingError::Unfilled);
    }
    if !sized {
        return Err(FindingError::WrongSize);
    }
    let k = no_room(h, rooms, source);
    if k != 0 {
        return Err(FindingError::NoRoom(k));
    }
    Ok(())
}

// What blocks come to: 60, then 61 and 62 block by block, then what they hold.
pub fn examine(s: &[u8], sized: bool, rooms: Rooms, source: usize) -> Result<(), FindingError>
    ensures { result ≡ examined s.now sized rooms.n source }
{
    let n = s.len();
    if n == 0 {
        return Err(FindingError::NoWholeBlocks);
    }
    if n / 512 * 512 != n {
        return Err(FindingError::NoWholeBlocks);
    }
    match blocks::first_fault(s) {
        Ok(()) => held_in(s, sized, rooms, source),
        Err(BlockFault::WrongNumber) => Err(FindingError::FaultyNumber),
        Err(BlockFault::WrongCheck) => Err(FindingError::FaultyCheck),
    }
}

// Whether all thirteen tables, both indexes, the counts and the singles are sound.
pub fn is_sound(
    src: &[u8],
    c: Counts,
    p: PosixCounts,
    g: Singles,
    t1: &[u32],
    t2: &[u32],
    t3: &[u32],
    t4: &[u32],
    t5: &[u32],
    t6: &[u32],
    t7: &[u32],
    t8: &[u32],
    t9: &[u32],
    t10: &[u32],
    i1: &[u32],
    i7: &[u32],
    t15: &[u32],
    t16: &[u32],
    t17: &[u32],
) -> bool
    ensures { result ≡ sound_reading src.now c p g (record { t1 = t1.now; t2 = t2.now; t3 = t3.now; t4 = t4.now; t5 = t5.now; t6 = t6.now; t7 = t7.now; t8 = t8.now; t9 = t9.now; t10 = t10.now; t15 = t15.now; t16 = t16.now; t17 = t17.now }) (record { tokens = i1.now; rules = i7.now }) }
{
    if !sound::sound(src, c, g, t1, t2, t3, t4, t5, t6, t7, t8, t9, t10, i1, i7) {
        return false;
    }
    sound::posix_sound(src, p, t15, t16, t17)
}
