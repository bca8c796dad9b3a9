// Blocks of 512 bytes: a number (4), content (504), a check (4). Content byte i has a place of its own; no cursor but its index is kept. Numbers begin at multiples of 4,
// so that none lies in two blocks.
#![tactic(auto)]

ghost use Rattle.std.specs.Prelude.{◌≡◌, ◌++◌, ◌+◌, ◌*◌, ◌/◌, ◌%◌, ◌-◌, ◌≤◌, ◌<◌, length, take, drop};
ghost use Rattle.std.proofs.Math.Seq.{slice};
ghost use Rattle.tables.specs.Table.{put};
ghost use Rattle.blocks.specs.Blocks.{bytes_of, bytes_of_all, word_in, words_in, content_at, capacity, content_of, put_content, zero_bytes, sums_of, ok_at, block_fault, first_fault, seal_block, seal_all};

#[derive(Clone, Copy)]
pub struct Sums {
    first: u32,
    second: u32,
}

#[derive(Clone, Copy)]
pub enum BlockFault {
    WrongNumber,
    WrongCheck,
}

fn wide(x: u8) -> u32
    ensures { result ≡ x }
{
    x as u32
}

// ---- Numbers as bytes. ----

// The number whose four bytes stand from `k` on, low first.
fn number_at(s: &[u8], k: usize) -> u32
    requires { k + 4 ≤ length s.now }
    ensures { result ≡ word_in s.now k }
{
    wide(s[k]) + 256 * wide(s[k + 1]) + 65536 * wide(s[k + 2]) + 16777216 * wide(s[k + 3])
}

fn put_number(out: &mut [u8], k: usize, v: u32)
    requires { k + 4 ≤ length out.old }
    ensures { out.new ≡ put out.old k (bytes_of v) }
{
    out[k] = (v % 256) as u8;
    out[k + 1] = (v / 256 % 256) as u8;
    out[k + 2] = (v / 65536 % 256) as u8;
    out[k + 3] = (v / 16777216) as u8;
}

// ---- Content. ----

// Where content byte `i` stands.
fn content_at(i: usize) -> usize
    requires { i < 1152921504606846976 }
    ensures { result ≡ content_at i }
{
    i / 504 * 512 + 4 + i % 504
}

// The first `n` cells of a table, from content byte `i` on.
pub fn put_numbers(out: &mut [u8], i: usize, t: &[u32], n: usize)
    requires { (i % 4 ≡ 0) × (i + 4 * n ≤ capacity out.old) × (i + 4 * n < 1152921504606846976) × (n ≤ length t.now) }
    ensures { out.new ≡ put_content out.old i (bytes_of_all (take n t.now)) }
{
    for j in 0..n {
        put_number(out, content_at(i + 4 * j), t[j]);
    }
}

// All bytes of a text, from content byte `i` on.
pub fn put_bytes(out: &mut [u8], i: usize, text: &[u8])
    requires { (i + length text.now ≤ capacity out.old) × (i + length text.now < 1152921504606846976) }
    ensures { out.new ≡ put_content out.old i text.now }
{
    for (j, v) in text.iter().enumerate() {
        let k = content_at(i + j);
        out[k] = *v;
    }
}

// The first `n` cells of a table are those from content byte `i` on.
pub fn get_numbers(t: &mut [u32], s: &[u8], i: usize, n: usize)
    requires { (i % 4 ≡ 0) × (i + 4 * n ≤ capacity s.now) × (i + 4 * n < 1152921504606846976) × (n ≤ length t.old) }
    ensures { t.new ≡ words_in (content_of s.now) i n ++ drop n t.old }
{
    for j in 0..n {
        t[j] = number_at(s, content_at(i + 4 * j));
    }
}

// The first `n` bytes of a text are those from content byte `i` on.
pub fn get_bytes(text: &mut [u8], s: &[u8], i: usize, n: usize)
    requires { (i + n ≤ capacity s.now) × (i + n < 1152921504606846976) × (n ≤ length text.old) }
    ensures { text.new ≡ slice i (i + n) (content_of s.now) ++ drop n text.old }
{
    for j in 0..n {
        let k = content_at(i + j);
        text[j] = s[k];
    }
}

// Whether the `n` bytes from content byte `i` on are zero.
pub fn zero_bytes(s: &[u8], i: usize, n: usize) -> bool
    requires { (i + n ≤ capacity s.now) × (i + n < 1152921504606846976) }
    ensures { result ≡ zero_bytes (content_of s.now) i n }
{
    for j in 0..n {
        let k = content_at(i + j);
        if s[k] != 0 {
            return false;
        }
    }
    true
}

// ---- The check. ----

// The two sums over the 254 words from index `at` on. They stay below 32 bits, so that one remainder at the end will do.
fn check_sums(s: &[u8], at: usize) -> Sums
    requires { at + 508 ≤ length s.now }
    ensures { (result ≡ sums_of s.now at) × (result.first < 65535) × (result.second < 65535) }
{
    let mut first: u32 = 1;
    let mut second: u32 = 0;
    for i in 0..254 {
        let j = at + 2 * i;
        first += wide(s[j]) + 256 * wide(s[j + 1]);
        second += first;
    }
    Sums {
        first: first % 65535,
        second: second % 65535,
    }
}

fn pair_of(lo: u8, hi: u8) -> u32
    ensures { result ≡ lo + 256 * hi }
{
    wide(lo) + 256 * wide(hi)
}

// Whether the check of the block at index `at` is right.
fn block_ok(s: &[u8], at: usize) -> bool
    requires { at + 512 ≤ length s.now }
    ensures { result ≡ ok_at s.now at }
{
    let c = check_sums(s, at);
    let first = pair_of(s[at + 508], s[at + 509]);
    let second = pair_of(s[at + 510], s[at + 511]);
    (first == c.first) & (second == c.second)
}

fn block_fault(s: &[u8], k: usize) -> Result<(), BlockFault>
    requires { k * 512 + 512 ≤ length s.now }
    ensures { result ≡ block_fault s.now k }
{
    let at = k * 512;
    let number = number_at(s, at) as usize;
    if number != k {
        return Err(BlockFault::WrongNumber);
    }
    if block_ok(s, at) {
        return Ok(());
    }
    Err(BlockFault::WrongCheck)
}

// The first fault, block by block.
pub fn first_fault(s: &[u8]) -> Result<(), BlockFault>
    ensures { result ≡ first_fault (length s.now / 512) s.now }
{
    let n = s.len() / 512;
    for k in 0..n {
        block_fault(s, k)?;
    }
    Ok(())
}

// Block `k` gets its number and its check.
fn seal(out: &mut [u8], k: u32)
    requires { k * 512 + 512 ≤ length out.old }
    ensures { out.new ≡ seal_block out.old k }
{
    let at = (k as usize) * 512;
    put_number(out, at, k);
    let c = check_sums(out, at);
    let first = c.first;
    let second = c.second;
    out[at + 508] = (first % 256) as u8;
    out[at + 509] = (first / 256) as u8;
    out[at + 510] = (second % 256) as u8;
    out[at + 511] = (second / 256) as u8;
}

pub fn seal_all(out: &mut [u8], n: u32)
    requires { n * 512 ≤ length out.old }
    ensures { out.new ≡ seal_all n out.old }
{
    for k in 0..n {
        seal(out, k);
    }
}
