// Lines and columns of a source.
#![tactic(auto)]

ghost use Rattle.std.specs.Prelude.{◌≡◌, ◌≤◌, length};
ghost use Rattle.places.specs.Places.{spot_of, spot_at};

// A line and a byte column, both from 1.
#[derive(Clone, Copy)]
pub struct Spot {
    pub line: u32,
    pub column: u32,
}

// Line and column of an offset in a source that is not too long.
pub fn spot_in(s: &[u8], to: usize) -> Spot
    requires to_in_bounds { to ≤ length s.now }
    requires s_len_bound { length s.now ≤ 65536 }
    ensures { result ≡ spot_of s.now to }
{
    let mut line: u32 = 1;
    let mut start = 0;
    let mut k = 0;
    // by hand: over a range the same loop takes twice the time, as measured
    while k < to {
        let next = k + 1;
        // no line ends with a byte above a CR
        if 13 < s[k] {
            k = next;
        } else if scan::lines_at(s, k) == 0 {
            k = next;
        } else {
            line += 1;
            k = next;
            start = next;
        }
    }
    Spot {
        line,
        column: (to - start + 1) as u32,
    }
}

// The same of any offset: past the source's end it is the end's; a source that is too long has no place but its begin.
pub fn locate(s: &[u8], at: u32) -> Spot
    ensures { result ≡ spot_at s.now at }
{
    let len = s.len();
    if 65536 < len {
        return Spot { line: 1, column: 1 };
    }
    let to = at as usize;
    if to < len {
        return spot_in(s, to);
    }
    spot_in(s, len)
}
