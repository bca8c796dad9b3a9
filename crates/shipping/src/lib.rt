// Shipping: a source is read, and what was read is written again without comments, in one form.
#![tactic(auto)]

ghost use Rattle.std.specs.Prelude.{◌≡◌, ltb, length};
ghost use Rattle.grammar.specs.State.{Here};
ghost use Rattle.shipper.specs.Ship.{ship_all};
ghost use Rattle.shipping.specs.Shipping.{Mailed, mailed_text, mailed, shipped_kind, ShipResult, shipping, Readable};

use grammar::{Counts, Refusal, Singles};

// The longest text that is sent, and the number of the text out among the tables.
const LONGEST_TEXT: u32 = 65536;

const TEXT_OUT: u32 = 13;

#[derive(Clone, Copy)]
pub struct Shipping {
    // How many bytes the text has.
    pub answer: Result<u32, Refusal>,
    pub counts: Counts,
    pub singles: Singles,
}

// A kind that is shipped, or 0, which is no kind.
fn shipped_kind(kind: u32) -> u32
    ensures { result ≡ shipped_kind kind }
{
    if 3 < kind {
        return 0;
    }
    kind
}

// The text of a source that was read, if it is not too long and there is room for it.
fn send(src: &[u8], kind: u32, out: &mut [u8]) -> Result<u32, Refusal>
    requires { Here src.now 0 }
    ensures { ◌≡◌ {A = Mailed} (record { answer = result; out = out.new }) (mailed_text (ltb 65536 (length (ship_all kind src.now))) (ship_all kind src.now) out.old) }
{
    values::zero(out);
    let n = shipper::ship_all(src, kind, out);
    if LONGEST_TEXT < n {
        values::zero(out);
        return Err(Refusal::TooLong);
    }
    if out.len() < n as usize {
        values::zero(out);
        return Err(Refusal::NoRoom(TEXT_OUT, 0, 0));
    }
    Ok(n)
}

// What becomes of the text, by what the read came to.
fn send_read(src: &[u8], kind: u32, v: Result<u32, Refusal>, out: &mut [u8]) -> Result<u32, Refusal>
    requires { Readable src.now v }
    ensures { ◌≡◌ {A = Mailed} (record { answer = result; out = out.new }) (mailed v (ship_all kind src.now) out.old) }
{
    match v {
        Ok(_) => send(src, kind, out),
        Err(f) => {
            values::zero(out);
            Err(f)
        }
    }
}

// Reads a source of kind 1, 2 or 3 into the lent tables and, where that is accepted, writes its shipping form into `out`.
pub fn ship(
    src: &[u8],
    kind: u32,
    t1: &mut [u32],
    t2: &mut [u32],
    t3: &mut [u32],
    t4: &mut [u32],
    t5: &mut [u32],
    t6: &mut [u32],
    t7: &mut [u32],
    t8: &mut [u32],
    t9: &mut [u32],
    t10: &mut [u32],
    i1: &mut [u32],
    i7: &mut [u32],
    out: &mut [u8],
) -> Shipping
    ensures { ◌≡◌ {A = ShipResult} (record { answer = result.answer; counts = result.counts; singles = result.singles; tables = record { t1 = t1.new; t2 = t2.new; t3 = t3.new; t4 = t4.new; t5 = t5.new; t6 = t6.new; t7 = t7.new; t8 = t8.new; t9 = t9.new; t10 = t10.new }; indexes = record { tokens = i1.new; rules = i7.new }; out = out.new }) (shipping src.now kind (record { t1 = t1.old; t2 = t2.old; t3 = t3.old; t4 = t4.old; t5 = t5.old; t6 = t6.old; t7 = t7.old; t8 = t8.old; t9 = t9.old; t10 = t10.old }) (record { tokens = i1.old; rules = i7.old }) out.old) }
{
    let known = shipped_kind(kind);
    let mut t15 = [0u32; 0];
    let mut t16 = [0u32; 0];
    let mut t17 = [0u32; 0];
    let r = runs::read(
        src, known, t1, t2, t3, t4, t5, t6, t7, t8, t9, t10, &mut t15, &mut t16, &mut t17, i1, i7,
    );
    let v = r.answer;
    let counts = r.counts;
    let singles = r.singles;
    let answer = send_read(src, known, v, out);
    Shipping {
        answer,
        counts,
        singles,
    }
}
