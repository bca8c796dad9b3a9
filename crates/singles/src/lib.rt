// The singles of a reading as 24 cells, each led by 0 or 1, and back; and cells stored into other cells. The C names and the catalogue share them.
#![tactic(auto)]

ghost use Rattle.std.specs.Prelude.{◌≡◌, ◌≤◌, length};
ghost use Rattle.tables.specs.Table.{put};
ghost use Rattle.grammar.specs.Numbers.{param_numbers};
ghost use Rattle.singles.specs.Singles.{expect_cells, singles_cells, part_from, expect_from, param_from, singles_of, counts_of, posix_of};

use grammar::{Counts, PosixCounts, Singles};

// Stores `cells` into `out` from cell `at` on, as far as there is room.
pub fn put_cells(out: &mut [u32], at: usize, cells: &[u32])
    ensures { out.new ≡ put out.old at cells.now }
{
    if at < out.len() {
        let n = cells.len().min(out.len() - at);
        out[at..at + n].copy_from_slice(&cells[..n]);
    }
}

// `%expect` or `%expect-rr`: a flag, the value's low and high half, and the place.
fn expect_cells(e: Option<(u64, u32, u32)>) -> [u32; 5]
    ensures { result ≡ expect_cells e }
{
    match e {
        None => [0, 0, 0, 0, 0],
        Some((v, a, b)) => [1, (v % 4294967296) as u32, (v / 4294967296) as u32, a, b],
    }
}

// The parse parameter: a flag, and the places of its name and its type.
fn param_cells(p: Option<(u32, u32, u32, u32)>) -> [u32; 5]
    ensures { result ≡ param_numbers p }
{
    match p {
        None => [0, 0, 0, 0, 0],
        Some((a, b, c, d)) => [1, a, b, c, d],
    }
}

pub fn single_cells(g: Singles) -> [u32; 24]
    ensures { result ≡ singles_cells g }
{
    let start = g.start;
    let expect = g.expect;
    let expect_rr = g.expect_rr;
    let param = g.param;
    let generics = g.generics;
    let programs = g.programs;
    let mut m = [0u32; 24];
    put_cells(&mut m, 0, &grammar::part_cells(start));
    put_cells(&mut m, 3, &expect_cells(expect));
    put_cells(&mut m, 8, &expect_cells(expect_rr));
    put_cells(&mut m, 13, &param_cells(param));
    put_cells(&mut m, 18, &grammar::part_cells(generics));
    put_cells(&mut m, 21, &grammar::part_cells(programs));
    m
}

// A single that stands in the numbers of a reading: absent where its flag is 0.
fn part_from(f: u32, a: u32, b: u32) -> Option<(u32, u32)>
    ensures { result ≡ part_from f a b }
{
    if f == 0 {
        return None;
    }
    Some((a, b))
}

fn expect_from(f: u32, low: u32, high: u32, a: u32, b: u32) -> Option<(u64, u32, u32)>
    ensures { result ≡ expect_from f low high a b }
{
    if f == 0 {
        return None;
    }
    Some(((high as u64) * 4294967296 + (low as u64), a, b))
}

fn param_from(f: u32, a: u32, b: u32, c: u32, d: u32) -> Option<(u32, u32, u32, u32)>
    ensures { result ≡ param_from f a b c d }
{
    if f == 0 {
        return None;
    }
    Some((a, b, c, d))
}

// The singles among the cells of a reading, from cell 14 on.
pub fn singles_of(m: &[u32]) -> Singles
    requires { 38 ≤ length m.now }
    ensures { result ≡ singles_of m.now }
{
    Singles {
        start: part_from(m[14], m[15], m[16]),
        expect: expect_from(m[17], m[18], m[19], m[20], m[21]),
        expect_rr: expect_from(m[22], m[23], m[24], m[25], m[26]),
        param: param_from(m[27], m[28], m[29], m[30], m[31]),
        generics: part_from(m[32], m[33], m[34]),
        programs: part_from(m[35], m[36], m[37]),
    }
}

// The ten counts of a reading's numbers.
pub fn counts_of(m: &[u32; 43]) -> Counts
    ensures { result ≡ counts_of m.now }
{
    Counts {
        n: [
            m[4], m[5], m[6], m[7], m[8], m[9], m[10], m[11], m[12], m[13],
        ],
    }
}

// The counts of kind 4's tables among a reading's numbers.
pub fn posix_of(m: &[u32; 43]) -> PosixCounts
    ensures { result ≡ posix_of m.now }
{
    PosixCounts {
        n: [m[38], m[39], m[40]],
    }
}
