// The part of a region that is left when blanks are taken off at both ends.
#![tactic(auto)]

ghost use Rattle.std.specs.Prelude.{◌≡◌, ◌≤◌, ◌<◌, length};
ghost use Rattle.trim.specs.Trim.{passed_at, Passes, plain_end, trimmed, Inside};

use scan::{Class, Place};

// One code point, by its end: a blank, or one that is kept. A byte that begins no well-formed sequence is kept.
#[derive(Clone, Copy)]
pub enum Passed {
    White(usize),
    Kept(usize),
}

pub fn pass(s: &[u8], i: usize) -> Passed
    requires { i < length s.now }
    ensures value { result ≡ passed_at s.now i }
    ensures passes { Passes s.now i result }
{
    match utf8::decode(s, i) {
        Some((p, j)) => {
            if utf8::is_white(p) {
                Passed::White(j)
            } else {
                Passed::Kept(j)
            }
        }
        None => Passed::Kept(i + 1),
    }
}

// The end of the graphic bytes from `i` on, none of which is a blank; in front of `to`, as such bytes may go on far behind it.
fn plain_end(s: &[u8], i: usize, to: usize) -> usize
    requires i_le_to { i ≤ to }
    requires to_in_bounds { to ≤ length s.now }
    ensures { result ≡ plain_end s.now i to }
{
    scan::far_end(&s[..to], i, Class::Graphic)
}

// The region from `from` to `to`, trimmed; nothing is kept as long as `start` is `end`.
pub fn trim(s: &[u8], from: usize, to: usize) -> Place
    requires { to ≤ length s.now }
    ensures value { result ≡ trimmed s.now from to }
    ensures inside { Inside s.now from result }
{
    let mut i = from;
    let mut start = from;
    let mut end = from;
    // by hand: a step is a run of bytes or a code point, as long as the callee says
    while i < to {
        let e = plain_end(s, i, to);
        if i < e {
            if start == end {
                start = i;
            }
            end = e;
            i = e;
        } else {
            match pass(s, i) {
                Passed::White(j) => {
                    i = j;
                }
                Passed::Kept(j) => {
                    if start == end {
                        start = i;
                    }
                    end = j;
                    i = j;
                }
            }
        }
    }
    Place {
        from: start,
        to: end,
    }
}
