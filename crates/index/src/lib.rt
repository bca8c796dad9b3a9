// An index beside the names of a table: slots, each 0 or a row number plus one. The home slot of a name is the remainder of its hash by the slots; a taken slot
// means the next, round the end.
#![tactic(auto)]

ghost use Rattle.std.specs.Prelude.{◌≡◌, ℕ, ◌+◌, ◌*◌, ◌/◌, ◌%◌, ◌<◌, ◌≤◌, min, List, length, slice_index, slice_set};
ghost use Rattle.tables.specs.Layout.{tokens, width};
ghost use Rattle.tables.specs.Below.{below};
ghost use Rattle.tables.specs.Table.{cell, find_name, Inserted, enter_token, zeroed};
ghost use Rattle.index.specs.Hash.{mixed, hash_of};
ghost use Rattle.index.specs.Index.{home, next_slot, free_slot, open_slot, row_slot, block, Taken, Skips, enter_row, entries, Indexed, lookup, row_stands, filled, index_test, is_power, size_test, fresh_name, rows_now};

fn double(x: u32) -> u32
    ensures { result ≡ (x + x) % 4294967296 }
{
    std::num::wrapping_add_u32(x, x)
}

// 33 times the number plus the byte, by repeated sums that wrap.
pub fn mix(h: u32, b: u8) -> u32
    ensures { result ≡ mixed h b }
{
    let x = double(double(double(double(double(h)))));
    let y = std::num::wrapping_add_u32(x, h);
    std::num::wrapping_add_u32(y, b as u32)
}

pub fn hash_part(src: &[u8], a: u32, b: u32) -> u32
    ensures { result ≡ hash_of src.now a b }
{
    if !tables::is_place(src, a, b) {
        return 5381;
    }
    src[a as usize..b as usize]
        .iter()
        .fold(5381, |h, x| mix(h, *x))
}

// The home slot among `m`.
pub fn home_slot(src: &[u8], m: usize, a: u32, b: u32) -> usize
    requires { 0 < m }
    ensures is { result ≡ home src.now m a b }
    ensures inside { result < m }
{
    hash_part(src, a, b) as usize % m
}

// The slot behind slot `p`, round the end.
pub fn next_slot(m: usize, p: usize) -> usize
    requires { p < m }
    ensures is { result ≡ next_slot m p }
    ensures inside { result < m }
{
    let q = p + 1;
    if q < m { q } else { 0 }
}

// The first free slot from slot `p` on; as many as there are slots, where none is free.
pub fn free_slot(ix: &[u32], from: usize) -> usize
    requires { from < length ix.now }
    ensures { result ≡ free_slot ix.now (length ix.now) from }
{
    let m = ix.len();
    let mut p = from;
    for _ in 0..m {
        if ix[p] == 0 {
            return p;
        }
        p = next_slot(m, p);
    }
    m
}

// Row `r` is entered; an index that is full stays.
pub fn enter_row(src: &[u8], t: &[u32], w: u32, k: u8, r: u32, ix: &mut [u32])
    requires { r < 4294967295 }
    ensures { ix.new ≡ enter_row src.now w k t.now r ix.old }
{
    let m = ix.len();
    if m == 0 {
        return;
    }
    let first = k as u32;
    let second = first + 1;
    let a = tables::cell(t, w, r, first);
    let b = tables::cell(t, w, r, second);
    let p = home_slot(src, m, a, b);
    let z = free_slot(ix, p);
    if z < m {
        ix[z] = r + 1;
    }
}

// The slots from the name's home on, up to a row of the name or a free slot.
pub fn probe(src: &[u8], t: &[u32], w: u32, k: u8, ix: &[u32], a: u32, b: u32) -> Option<u32>
    ensures { result ≡ lookup src.now w k t.now ix.now a b }
{
    let m = ix.len();
    if m == 0 {
        return None;
    }
    let first = k as u32;
    let second = first + 1;
    let mut p = home_slot(src, m, a, b);
    for _ in 0..m {
        let v = ix[p];
        if v == 0 {
            return None;
        }
        let r = v - 1;
        let c = tables::cell(t, w, r, first);
        let d = tables::cell(t, w, r, second);
        if tables::same_part(src, c, d, a, b) {
            return Some(r);
        }
        p = next_slot(m, p);
    }
    None
}

// The first of the `n` rows that has the name: by the index, or by the search where it has fewer slots than rows.
pub fn find(src: &[u8], t: &[u32], w: u32, k: u8, n: u32, ix: &[u32], a: u32, b: u32) -> Option<u32>
    requires { Indexed src.now w k n t.now ix.now }
    ensures { result ≡ find_name src.now w k n t.now a b }
{
    if ix.len() < n as usize {
        return tables::find(src, t, w, k, n, a, b);
    }
    probe(src, t, w, k, ix, a, b)
}

// The token is in table 1, and marked as declared if it is; a new row is entered. How many rows there are now; none where it found no room.
pub fn enter_token(
    src: &[u8],
    t: &mut [u32],
    n: u32,
    ix: &mut [u32],
    from: u32,
    to: u32,
    declared: bool,
) -> Option<u32>
    requires { Indexed src.now (width tokens) 0 n t.old ix.old }
    ensures is { ◌≡◌ {A = Inserted} (record { entered = result; cells = t.new }) (enter_token src.now n from to declared t.old) }
    ensures indexed { Indexed src.now (width tokens) 0 (rows_now n result) t.new ix.new }
{
    match find(src, t, tables::TOKEN_WIDTH, tables::NAME, n, ix, from, to) {
        Some(r) => {
            if declared {
                tables::set_cell(t, tables::TOKEN_WIDTH, r, tables::DECLARED, 1);
            }
            Some(n)
        }
        None => {
            let mark = if declared { 1 } else { 0 };
            let row = [from, to, mark];
            if tables::add_row(t, n, &row) {
                enter_row(src, t, tables::TOKEN_WIDTH, tables::NAME, n, ix);
                Some(n + 1)
            } else {
                None
            }
        }
    }
}

// ---- walks that skip blocks of taken slots. What is known of them is local to one call: `skips[k]` is a block up to which all from block `k` on are taken.

// The slots of a block.
const BLOCK: usize = 16;

// What is known of block `k`; 0 where it has no place.
fn skip_of(skips: &[u16], k: usize) -> usize
    ensures is { result ≡ slice_index skips.now k }
    ensures fits { result < 65536 }
{
    if k < skips.len() {
        skips[k] as usize
    } else {
        0
    }
}

// The slot up to which those from slot `p` on are known to be taken: slot `p` itself where nothing is known, as within a block.
fn known_end(skips: &[u16], p: usize) -> usize
    ensures behind { p ≤ result }
    ensures known { (ix : List ℕ) (r : ℕ) → Skips ix r skips.now → Taken ix r p result }
{
    if p % BLOCK != 0 {
        return p;
    }
    let end = skip_of(skips, p / BLOCK) * BLOCK;
    if p < end { end } else { p }
}

// The slot behind the block of slot `p`, of `m` slots.
fn block_end(m: usize, p: usize) -> usize
    requires { p ≤ m }
    ensures inside { result ≤ m }
    ensures behind { min (p + 1) m ≤ result }
{
    let step = BLOCK - p % BLOCK;
    if m - p <= step { m } else { p + step }
}

// The first slot from slot `p` up to slot `end` that no row before row `r` has; `end`, where they have all.
fn open_within(ix: &[u32], r: u32, p: usize, end: usize) -> usize
    requires { (p ≤ end) × (end ≤ length ix.now) }
    ensures passed { (p ≤ result) × (result ≤ end) × Taken ix.now r p result }
    ensures found { result < end → Taken ix.now r result (result + 1) → ⊥ }
{
    for q in p..end {
        let v = ix[q];
        if v == 0 {
            return q;
        }
        if r < v {
            return q;
        }
    }
    end
}

// The first slot from slot `from` on that no row before row `r` has; as many as there are slots, where they have all.
pub fn open_slot(ix: &[u32], r: u32, skips: &[u16], from: usize) -> usize
    requires { (from < length ix.now) × Skips ix.now r skips.now }
    ensures { result ≡ open_slot ix.now r (length ix.now) from }
{
    let m = ix.len();
    let mut p = from;
    let mut left = m;
    // by hand: a turn passes as many slots as its run has
    while 0 < left {
        let start = known_end(skips, p);
        let end = block_end(m, start);
        let z = open_within(ix, r, start, end);
        let run = z - p;
        if left <= run {
            return m;
        }
        if z < end {
            return z;
        }
        p = next_slot(m, z - 1);
        left -= run;
    }
    m
}

// Block `k` and those behind it are known to be taken up to block `e`, if that is further than was known.
fn raise_skip(skips: &mut [u16], k: usize, e: usize)
    ensures { (ix : List ℕ) (r : ℕ) → Skips ix r skips.old → Taken ix r (block * k) (block * e) → Skips ix r skips.new }
{
    if skips.len() <= k {
        return;
    }
    if e <= skips[k] as usize {
        return;
    }
    if e < 65536 {
        skips[k] = e as u16;
    }
}

// So is the block that was known before: walks from other blocks come by there.
fn raise_skips(skips: &mut [u16], k: usize, e: usize)
    ensures { (ix : List ℕ) (r : ℕ) → Skips ix r skips.old → Taken ix r (block * k) (block * e) → Skips ix r skips.new }
{
    if e <= k {
        return;
    }
    let known = skip_of(skips, k);
    raise_skip(skips, k, e);
    if k < known {
        raise_skip(skips, known, e);
    }
}

// The first block that begins at slot `p` or behind it.
fn block_from(p: usize) -> usize
    ensures { p ≤ block * result }
{
    let k = p / BLOCK;
    if p % BLOCK == 0 { k } else { k + 1 }
}

// What a walk over `m` slots tells that began at slot `from` and found slot `z`: the slots between are taken.
fn note_skip(skips: &mut [u16], m: usize, from: usize, z: usize)
    ensures { (ix : List ℕ) (r : ℕ) → length ix ≡ m → from < m → z ≡ open_slot ix r m from → Skips ix r skips.old → Skips ix r skips.new }
{
    let k = block_from(from);
    if from <= z {
        raise_skips(skips, k, z / BLOCK);
        return;
    }
    raise_skips(skips, k, m / BLOCK);
    raise_skips(skips, 0, z / BLOCK);
}

// The slot in which row `r` is to stand.
fn row_slot(src: &[u8], t: &[u32], w: u32, k: u8, r: u32, ix: &[u32], skips: &mut [u16]) -> usize
    requires { (0 < length ix.now) × Skips ix.now r skips.old }
    ensures is { result ≡ row_slot src.now w k t.now ix.now r }
    ensures skipped { Skips ix.now r skips.new }
{
    let m = ix.len();
    let first = k as u32;
    let second = first + 1;
    let a = tables::cell(t, w, r, first);
    let b = tables::cell(t, w, r, second);
    let p = home_slot(src, m, a, b);
    let z = open_slot(ix, r, skips, p);
    note_skip(skips, m, p, z);
    z
}

// ---- all rows at once

// Slot `z` takes the number, if there is such a slot.
fn take_slot(ix: &mut [u32], z: usize, v: u32)
    ensures { ix.new ≡ slice_set ix.old z v }
{
    if z < ix.len() {
        ix[z] = v;
    }
}

// Each row goes into its slot; what walks tell of blocks is kept from row to row.
fn enter_all(src: &[u8], t: &[u32], w: u32, k: u8, n: u32, ix: &mut [u32], skips: &mut [u16])
    requires { (ix.old ≡ zeroed ix.old) × Skips ix.old 0 skips.old }
    ensures { ix.new ≡ entries src.now w k t.now (length ix.old) n }
{
    if ix.len() == 0 {
        return;
    }
    for r in 0..n {
        let z = row_slot(src, t, w, k, r, ix, skips);
        take_slot(ix, z, r + 1);
    }
}

// With the blocks of 4,096 slots.
fn enter_few(src: &[u8], t: &[u32], w: u32, k: u8, n: u32, ix: &mut [u32])
    requires { ix.old ≡ zeroed ix.old }
    ensures { ix.new ≡ entries src.now w k t.now (length ix.old) n }
{
    let mut skips = [0u16; 256];
    enter_all(src, t, w, k, n, ix, &mut skips);
}

// With the blocks of 262,144 slots; what lies behind is walked slot by slot.
fn enter_many(src: &[u8], t: &[u32], w: u32, k: u8, n: u32, ix: &mut [u32])
    requires { ix.old ≡ zeroed ix.old }
    ensures { ix.new ≡ entries src.now w k t.now (length ix.old) n }
{
    let mut skips = [0u16; 16384];
    enter_all(src, t, w, k, n, ix, &mut skips);
}

// The `n` rows are entered in order, as `enter_row` enters each; a small index has few blocks to clear.
pub fn enter_rows(src: &[u8], t: &[u32], w: u32, k: u8, n: u32, ix: &mut [u32])
    requires { ix.old ≡ zeroed ix.old }
    ensures { ix.new ≡ entries src.now w k t.now (length ix.old) n }
{
    if ix.len() <= 4096 {
        enter_few(src, t, w, k, n, ix);
    } else {
        enter_many(src, t, w, k, n, ix);
    }
}

// ---- the test behind 44

// How many slots are taken.
pub fn count_filled(ix: &[u32]) -> usize
    ensures { result ≡ filled ix.now }
{
    let mut n = 0;
    for v in ix {
        if *v != 0 {
            n += 1;
        }
    }
    n
}

// Whether each of the `n` rows stands where entering it puts it: behind earlier rows alone.
fn all_stand(src: &[u8], t: &[u32], w: u32, k: u8, n: u32, ix: &[u32], skips: &mut [u16]) -> bool
    requires { (n ≤ length ix.now) × Skips ix.now 0 skips.old }
    ensures { result ≡ below n (row_stands src.now w k t.now ix.now) }
{
    for r in 0..n {
        let z = row_slot(src, t, w, k, r, ix, skips);
        if ix.len() <= z {
            return false;
        }
        if ix[z] != r + 1 {
            return false;
        }
    }
    true
}

// With the blocks of 4,096 slots.
fn few_stand(src: &[u8], t: &[u32], w: u32, k: u8, n: u32, ix: &[u32]) -> bool
    requires { n ≤ length ix.now }
    ensures { result ≡ below n (row_stands src.now w k t.now ix.now) }
{
    let mut skips = [0u16; 256];
    all_stand(src, t, w, k, n, ix, &mut skips)
}

// With the blocks of 262,144 slots; what lies behind is walked slot by slot.
fn many_stand(src: &[u8], t: &[u32], w: u32, k: u8, n: u32, ix: &[u32]) -> bool
    requires { n ≤ length ix.now }
    ensures { result ≡ below n (row_stands src.now w k t.now ix.now) }
{
    let mut skips = [0u16; 16384];
    all_stand(src, t, w, k, n, ix, &mut skips)
}

// Whether the index is what entering the `n` rows in order gives.
pub fn index_sound(src: &[u8], t: &[u32], w: u32, k: u8, n: u32, ix: &[u32]) -> bool
    ensures { result ≡ index_test src.now w k n t.now ix.now }
{
    if count_filled(ix) != n as usize {
        return false;
    }
    if ix.len() <= 4096 {
        return few_stand(src, t, w, k, n, ix);
    }
    many_stand(src, t, w, k, n, ix)
}

// Whether no row before row `r` has its name.
pub fn name_fresh(src: &[u8], t: &[u32], w: u32, k: u8, n: u32, ix: &[u32], r: u32) -> bool
    requires { Indexed src.now w k n t.now ix.now × (r < n) }
    ensures { result ≡ fresh_name src.now w k t.now r }
{
    let first = k as u32;
    let second = first + 1;
    let a = tables::cell(t, w, r, first);
    let b = tables::cell(t, w, r, second);
    match find(src, t, w, k, n, ix, a, b) {
        Some(q) => q == r,
        None => true,
    }
}

// Whether a number is a power of two.
pub fn is_power(m: usize) -> bool
    ensures { result ≡ is_power m }
{
    m.is_power_of_two()
}

// How many rows a table of `n` cells has room for, `w` to a row.
pub fn room_for(n: usize, w: u32) -> usize
    requires { 0 < w }
    ensures { result ≡ min (n / w) 4294967295 }
{
    let rows = n / w as usize;
    if rows < 4294967295 { rows } else { 4294967295 }
}

// Whether an index of `m` slots has a right size for it.
pub fn size_sound(m: usize, n: usize, w: u32) -> bool
    requires { 0 < w }
    ensures { result ≡ size_test m n w }
{
    is_power(m) & (room_for(n, w) * 2 <= m)
}
