// An `%epp` value written without its escapes.
#![tactic(auto)]

ghost use Rattle.std.specs.Prelude.{◌≡◌, ◌≤◌, length, set};
ghost use Rattle.tables.specs.Table.{zeroed};
ghost use Rattle.grammar.specs.Sound.{Tables};
ghost use Rattle.values.specs.Value.{Copied, copied, Within, text_at, Valued, text_value, epp_value};

use grammar::{Counts, Singles};
use words::QuoteError;

#[derive(Clone, Copy)]
pub enum ValuationError {
    OfUnsoundTables,
    PastCount,
    // The value's place is no string.
    NotString,
    NoTextRoom,
}

pub fn zero(out: &mut [u8])
    ensures { out.new ≡ zeroed out.old }
{
    out.fill(0);
}

// Past the end there is nothing to write.
pub fn set_byte(out: &mut [u8], k: usize, c: u8)
    ensures { out.new ≡ set out.old k c }
{
    if k < out.len() {
        out[k] = c;
    }
}

// The bytes from `from` up to `to` but for the backslashes, as far as there is room; and how many they are.
pub fn copy_text(out: &mut [u8], src: &[u8], from: usize, to: usize) -> usize
    requires { to ≤ length src.now }
    ensures { ◌≡◌ {A = Copied} (record { count = result; cells = out.new }) (copied src.now from to out.old) }
{
    let mut k = 0;
    for i in from..to {
        let c = src[i];
        if c != b'\\' {
            set_byte(out, k, c);
            k += 1;
        }
    }
    k
}

// The text of row `row` of table 5, between its quotes, if the value's place is that of a whole string.
pub fn text_of(src: &[u8], t5: &[u32], row: u32) -> Option<(usize, usize)>
    ensures is { result ≡ text_at src.now t5.now row }
    ensures inside { Within src.now result }
{
    let from = tables::cell(t5, tables::EPP_WIDTH, row, 4) as usize;
    let to = tables::cell(t5, tables::EPP_WIDTH, row, 5) as usize;
    if src.len() < from {
        return None;
    }
    match words::parse_string(src, from) {
        Ok(end) => {
            if end == to {
                Some((from + 1, end - 1))
            } else {
                None
            }
        }
        Err(QuoteError::NotOpened(_)) => None,
        Err(QuoteError::LineInside(_)) => None,
        Err(QuoteError::BadEscape(_)) => None,
        Err(QuoteError::NotClosed(_)) => None,
    }
}

// The text without its escapes, where there is room for it.
pub fn write_text(
    src: &[u8],
    t: Option<(usize, usize)>,
    out: &mut [u8],
) -> Result<usize, ValuationError>
    requires { Within src.now t }
    ensures { ◌≡◌ {A = Valued} (record { answer = result; out = out.new }) (text_value t src.now out.old) }
{
    zero(out);
    match t {
        Some((from, to)) => {
            let n = copy_text(out, src, from, to);
            if out.len() < n {
                zero(out);
                return Err(ValuationError::NoTextRoom);
            }
            Ok(n)
        }
        None => Err(ValuationError::NotString),
    }
}

// The value of row `row` of table 5, and how many bytes it has; 44 and 42 leave zeros.
pub fn epp_value(
    src: &[u8],
    c: Counts,
    g: Singles,
    t1: &[u32],
    t2: &[u32],
    t3: &[u32],
    t4: &[u32],
    t5: &[u32],
    t6: &[u32],
    t7: &[u32],
    t8: &[u32],
    t9: &[u32],
    t10: &[u32],
    i1: &[u32],
    i7: &[u32],
    row: u32,
    out: &mut [u8],
) -> Result<usize, ValuationError>
    ensures { ◌≡◌ {A = Valued} (record { answer = result; out = out.new }) (epp_value src.now c g (record { t1 = t1.now; t2 = t2.now; t3 = t3.now; t4 = t4.now; t5 = t5.now; t6 = t6.now; t7 = t7.now; t8 = t8.now; t9 = t9.now; t10 = t10.now }) (record { tokens = i1.now; rules = i7.now }) row out.old) }
{
    if !sound::sound(src, c, g, t1, t2, t3, t4, t5, t6, t7, t8, t9, t10, i1, i7) {
        zero(out);
        return Err(ValuationError::OfUnsoundTables);
    }
    if sound::rows_of(c, tables::EPPS) <= row {
        zero(out);
        return Err(ValuationError::PastCount);
    }
    let t = text_of(src, t5, row);
    write_text(src, t, out)
}
