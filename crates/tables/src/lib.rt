// Lent tables of 32-bit numbers: rows of one width, one behind the other from the first cell on. Every operation is total: past the end there is
// nothing to read or to write.
#![tactic(auto)]

ghost use Rattle.std.specs.Prelude.{◌≡◌, get_or, ◌≤◌};
ghost use Rattle.tables.specs.Layout.{row_place, table_number};
ghost use Rattle.tables.specs.Table.{Added, add_row, zeroed, cell, set_cell, lies, same_part, find_name};

// The tables by index: table 1 is at 0; behind the ten are those of kind 4, tables 15 to 17.
pub const TOKENS: u8 = 0;

pub const PRECEDENCES: u8 = 1;

pub const AVOIDED: u8 = 2;

pub const IMPLICIT: u8 = 3;

pub const EPPS: u8 = 4;

pub const UNUSED: u8 = 5;

pub const RULES: u8 = 6;

pub const PRODUCTIONS: u8 = 7;

pub const SYMBOLS: u8 = 8;

pub const REPEATS: u8 = 9;

pub const POSIX_FROM: u8 = 10;

pub const TAGS: u8 = 10;

pub const TOKEN_NUMBERS: u8 = 11;

pub const BODIES: u8 = 12;

// The widths of their rows.
pub const TOKEN_WIDTH: u32 = 3;

pub const PRECEDENCE_WIDTH: u32 = 4;

pub const NAME_WIDTH: u32 = 2;

pub const EPP_WIDTH: u32 = 6;

pub const UNUSED_WIDTH: u32 = 3;

pub const RULE_WIDTH: u32 = 5;

pub const PRODUCTION_WIDTH: u32 = 13;

pub const SYMBOL_WIDTH: u32 = 4;

pub const REPEAT_WIDTH: u32 = 5;

pub const TAG_WIDTH: u32 = 4;

pub const TOKEN_NUMBER_WIDTH: u32 = 3;

pub const BODY_WIDTH: u32 = 3;

// Table 14, the faults of a reading: number, from, to.
pub const FAULT_WIDTH: u32 = 3;

// Where a row's name begins: in most tables with the first cell; behind the key as spelled in table 5; behind the kind in tables 6 and 9.
pub const NAME: u8 = 0;

pub const KEY_NAME: u8 = 2;

pub const KIND_NAME: u8 = 1;

// Cells that are read or written by themselves.
pub const DECLARED: u32 = 2;

pub const RULE_ROW: u32 = 0;

pub const FROM: u32 = 1;

pub const TO: u32 = 2;

pub const FIRST: u32 = 3;

pub const LAST: u32 = 4;

pub const PREC: u32 = 5;

pub const PREC_FROM: u32 = 6;

pub const PREC_TO: u32 = 7;

pub const ACTION: u32 = 8;

pub const TEXT_FROM: u32 = 9;

pub const TEXT_TO: u32 = 10;

pub const SPAN_FROM: u32 = 11;

pub const SPAN_TO: u32 = 12;

pub const KNOWN_ROW: u32 = 3;

pub const FIRST_PLACE: u32 = 1;

pub const REPEATED_PLACE: u32 = 3;

pub const BODY_PLACE: u32 = 1;

// The row that a symbol has where there is no such rule or token.
pub const NO_ROW: u32 = 4294967295;

pub fn zero(t: &mut [u32])
    ensures { t.new ≡ zeroed t.old }
{
    t.fill(0);
}

// Row `n`, or nothing written where no whole free row is left.
pub fn add_row(t: &mut [u32], n: u32, row: &[u32]) -> bool
    ensures { ◌≡◌ {A = Added} (record { ok = result; cells = t.new }) (add_row n row.now t.old) }
{
    let w = row.len();
    if w == 0 {
        return false;
    }
    if n == 4294967295 {
        return false;
    }
    let r = n as usize;
    if t.len() / w <= r {
        return false;
    }
    let at = r * w;
    for (i, v) in row.iter().enumerate() {
        t[at + i] = *v;
    }
    true
}

// Cell `k` of row `r`, the rows being `w` wide; 0 past the end.
pub fn cell(t: &[u32], w: u32, r: u32, k: u32) -> u32
    ensures { result ≡ cell w t.now r k }
{
    let i = (r as usize) * (w as usize) + (k as usize);
    if i < t.len() { t[i] } else { 0 }
}

// Cell `k` of a row by itself; 0 past its end.
pub fn cell_in_row(row: &[u32], k: u32) -> u32
    ensures { result ≡ get_or row.now k 0 }
{
    let i = k as usize;
    if i < row.len() { row[i] } else { 0 }
}

// The number of the table that has an index.
pub fn table_number(k: u8) -> u32
    ensures { result ≡ table_number k }
{
    if k < POSIX_FROM {
        return k as u32 + 1;
    }
    k as u32 + 5
}

// The cell where the place of a row begins, which a refusal for want of room gives: behind the kind in tables 6 and 9, behind the rule's row in table 8, the
// repeated place in table 10, behind the sort in table 17.
pub fn row_place(k: u8) -> u32
    ensures value { result ≡ row_place k }
    ensures upper_bound { result ≤ 3 }
{
    match k {
        5 => 1,
        7 => FROM,
        8 => 1,
        9 => REPEATED_PLACE,
        12 => BODY_PLACE,
        _ => 0,
    }
}

pub fn set_cell(t: &mut [u32], w: u32, r: u32, k: u32, v: u32)
    ensures { t.new ≡ set_cell w t.old r k v }
{
    let i = (r as usize) * (w as usize) + (k as usize);
    if i < t.len() {
        t[i] = v;
    }
}

// Whether a place lies in the source.
pub fn is_place(src: &[u8], from: u32, to: u32) -> bool
    ensures { result ≡ lies src.now from to }
{
    (from <= to) & (to as usize <= src.len())
}

// Whether two places of the source hold the same bytes.
pub fn same_part(src: &[u8], a: u32, b: u32, c: u32, d: u32) -> bool
    ensures { result ≡ same_part src.now a b c d }
{
    if !is_place(src, a, b) {
        return false;
    }
    if !is_place(src, c, d) {
        return false;
    }
    src[a as usize..b as usize] == src[c as usize..d as usize]
}

// The first of the `n` rows whose name, the place in its cells `k` and `k + 1`, has the bytes of the given place.
pub fn find(src: &[u8], t: &[u32], w: u32, k: u8, n: u32, from: u32, to: u32) -> Option<u32>
    ensures { result ≡ find_name src.now w k n t.now from to }
{
    let first = k as u32;
    let second = first + 1;
    (0..n).find(|r| {
        let a = cell(t, w, *r, first);
        let b = cell(t, w, *r, second);
        same_part(src, a, b, from, to)
    })
}
