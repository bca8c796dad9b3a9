// Work bits: one bit a row, 32 to a word, lowest bit first. Past the words there is no bit to test or to set.
#![tactic(auto)]

ghost use Rattle.std.specs.Prelude.{◌≡◌, eqb};
ghost use Rattle.bits.specs.Bits.{bit, set_bit};

// Whether bit `k` of the words is 1.
pub fn test_bit(w: &[u32], k: usize) -> bool
    ensures { result ≡ eqb (bit w.now k) 1 }
{
    let i = k / 32;
    let s = (k % 32) as u32;
    if w.len() <= i {
        return false;
    }
    let x = w[i];
    (x >> s) & 1 == 1
}

// Bit `k` of the words becomes 1.
pub fn set_bit(w: &mut [u32], k: usize)
    ensures { w.new ≡ set_bit k w.old }
{
    let i = k / 32;
    let s = (k % 32) as u32;
    if i < w.len() {
        let x = w[i];
        w[i] = x | (1 << s);
    }
}
