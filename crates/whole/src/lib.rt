// A whole source by RFC 3629: is it UTF-8, and if not, where not.
#![tactic(auto)]

ghost use Rattle.std.specs.Prelude.{◌≡◌, length};
ghost use Rattle.whole.specs.Whole.{check_at, Below};

use scan::Class;

// An error is the first byte that begins no well-formed sequence.
pub fn check(src: &[u8]) -> Result<(), usize>
    ensures value { result ≡ check_at src.now 0 }
    ensures below { Below (length src.now) result }
{
    let mut i = 0;
    // by hand: a step is a run of bytes or a code point, as long as the callee says
    while i < src.len() {
        // most bytes are code points by themselves, and stand in long runs
        if src[i] < 128 {
            i = scan::far_end(src, i, Class::Ascii);
        } else {
            match utf8::decode(src, i) {
                Some((_, j)) => {
                    i = j;
                }
                None => {
                    return Err(i);
                }
            }
        }
    }
    Ok(())
}
