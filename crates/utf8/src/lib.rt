// Code points of UTF-8 (RFC 3629), and which of them are blanks for trimming.
#![tactic(auto)]

ghost use Rattle.std.specs.Prelude.{◌≡◌};
ghost use Rattle.utf8.specs.White.{is_white};
ghost use Rattle.utf8.specs.Utf8.{lead_of, Fitting, decode_at, Decodes};

// What a first byte says: a whole code point; or how many bytes follow, the bounds of the next one, and the first byte's own bits.
#[derive(Clone, Copy)]
pub enum Lead {
    One(u32),
    More(usize, u8, u8, u32),
    Never,
}

// Unicode White_Space, line by line as PropList.txt has it.
pub fn is_white(p: u32) -> bool
    ensures { result ≡ is_white p }
{
    match p {
        // <control-0009>..<control-000D>
        0x0009..=0x000D => true,
        // SPACE
        0x0020 => true,
        // <control-0085>
        0x0085 => true,
        // NO-BREAK SPACE
        0x00A0 => true,
        // OGHAM SPACE MARK
        0x1680 => true,
        // EN QUAD..HAIR SPACE
        0x2000..=0x200A => true,
        // LINE SEPARATOR
        0x2028 => true,
        // PARAGRAPH SEPARATOR
        0x2029 => true,
        // NARROW NO-BREAK SPACE
        0x202F => true,
        // MEDIUM MATHEMATICAL SPACE
        0x205F => true,
        // IDEOGRAPHIC SPACE
        0x3000 => true,
        _ => false,
    }
}

// The rows of RFC 3629's syntax, by their first byte.
pub fn lead_of(a: u8) -> Lead
    ensures value { result ≡ lead_of a }
    ensures fitting { Fitting result }
{
    if a < 128 {
        return Lead::One(a as u32);
    }
    if a < 194 {
        return Lead::Never;
    }
    if a < 224 {
        return Lead::More(1, 128, 191, (a - 192) as u32);
    }
    if a == 224 {
        return Lead::More(2, 160, 191, 0);
    }
    if a == 237 {
        return Lead::More(2, 128, 159, 13);
    }
    if a < 240 {
        return Lead::More(2, 128, 191, (a - 224) as u32);
    }
    if a == 240 {
        return Lead::More(3, 144, 191, 0);
    }
    if a < 244 {
        return Lead::More(3, 128, 191, (a - 240) as u32);
    }
    if a == 244 {
        return Lead::More(3, 128, 143, 4);
    }
    Lead::Never
}

// The code point that begins at `i`, and the index behind it; none where no well-formed sequence begins.
pub fn decode(s: &[u8], i: usize) -> Option<(u32, usize)>
    ensures value { result ≡ decode_at s.now i }
    ensures decodes { Decodes s.now i result }
{
    if s.len() <= i {
        return None;
    }
    let a = s[i];
    match lead_of(a) {
        Lead::One(p) => Some((p, i + 1)),
        Lead::More(count, low, high, bits) => {
            let mut j = i + 1;
            let mut n = count;
            let mut lo = low;
            let mut hi = high;
            let mut v = bits;
            // by hand: over a slice or a range of the bytes that follow the same loop takes longer, as measured
            while 0 < n {
                if s.len() <= j {
                    return None;
                }
                let b = s[j];
                if b < lo {
                    return None;
                }
                if hi < b {
                    return None;
                }
                v = v * 64 + (b - 128) as u32;
                lo = 128;
                hi = 191;
                n -= 1;
                j += 1;
            }
            Some((v, j))
        }
        Lead::Never => None,
    }
}
