// Rows that stay close up in their old order; the cells behind them are zero. Once over the width.
#![tactic(auto)]

ghost use Rattle.std.specs.Prelude.{◌≡◌, ◌+◌, ◌*◌, ◌^◌, ◌≤◌, ◌<◌, length};
ghost use Rattle.closing.specs.Close.{Step, moved, step, zero_from, Shut, close_up};

use bits::test_bit;

// Row `from` is copied over row `to`, which does not stand behind it; the rows are `w` wide.
pub fn move_row(t: &mut [u32], w: u32, from: u32, to: u32)
    requires { (to ≤ from) × (from * w + w ≤ length t.old) }
    ensures { t.new ≡ moved w from to t.old }
{
    let n = w as usize;
    let a = (from as usize) * n;
    let b = (to as usize) * n;
    for i in 0..n {
        t[b + i] = t[a + i];
    }
}

// The row read last: it joins the rows that stay, or is passed over. Answers how many stay.
pub fn keep_row(t: &mut [u32], w: u32, stays: bool, from: u32, to: u32) -> u32
    requires { (to ≤ from) × (from * w + w ≤ length t.old) × (from < 4294967295) }
    ensures { ◌≡◌ {A = Step} (record { count = result; cells = t.new }) (step w stays from to t.old) }
{
    if !stays {
        return to;
    }
    move_row(t, w, from, to);
    to + 1
}

// The cells from index `at` on become zero.
pub fn zero_from(t: &mut [u32], at: usize)
    requires { at ≤ length t.old }
    ensures { t.new ≡ zero_from at t.old }
{
    t[at..].fill(0);
}

// Of `n` rows those stay whose bit is 1, row 0 having bit `base`. Answers how many.
pub fn close_up(t: &mut [u32], w: u32, n: u32, keep: &[u32], base: usize) -> u32
    requires { (n * w ≤ length t.old) × (base < 2 ^ 40) }
    ensures { ◌≡◌ {A = Step} (record { count = result; cells = t.new }) (close_up keep.now base w n t.old) }
{
    let mut m = 0;
    for r in 0..n {
        let stays = test_bit(keep, base + (r as usize));
        m = keep_row(t, w, stays, r, m);
    }
    zero_from(t, (m as usize) * (w as usize));
    m
}
