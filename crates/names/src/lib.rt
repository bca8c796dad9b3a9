// The name of a row as the very part of the source that it occupies.
#![tactic(auto)]

ghost use Rattle.std.specs.Prelude.{◌≡◌};
ghost use Rattle.grammar.specs.Sound.{Tables};
ghost use Rattle.names.specs.Name.{part_of, row_place, name_place, name_of};

use grammar::{Counts, Singles};
use scan::Place;

// The part of the source from `a` up to `b`; nothing where no such part is.
pub fn part(src: &[u8], a: usize, b: usize) -> &[u8]
    ensures { result.now ≡ part_of src.now a b }
{
    if b < a {
        return &src[0..0];
    }
    if src.len() < b {
        return &src[0..0];
    }
    &src[a..b]
}

// The place of row `row` of a table of names, `w` wide, with `n` rows; an empty one past its count.
pub fn row_place(t: &[u32], w: u32, n: u32, row: u32) -> Place
    ensures { result ≡ row_place t.now w n row }
{
    if row < n {
        return Place {
            from: tables::cell(t, w, row, 0) as usize,
            to: tables::cell(t, w, row, 1) as usize,
        };
    }
    Place { from: 0, to: 0 }
}

// Names are those of tables 1 and 7.
pub fn name_place(c: Counts, t1: &[u32], t7: &[u32], table: u32, row: u32) -> Place
    ensures { result ≡ name_place c t1.now t7.now table row }
{
    if table == 1 {
        return row_place(
            t1,
            tables::TOKEN_WIDTH,
            sound::rows_of(c, tables::TOKENS),
            row,
        );
    }
    if table == 7 {
        return row_place(
            t7,
            tables::RULE_WIDTH,
            sound::rows_of(c, tables::RULES),
            row,
        );
    }
    Place { from: 0, to: 0 }
}

// The name of a row; empty for another table, a row past its count, or unsound tables.
pub fn name<'a>(
    src: &'a [u8],
    c: Counts,
    g: Singles,
    t1: &[u32],
    t2: &[u32],
    t3: &[u32],
    t4: &[u32],
    t5: &[u32],
    t6: &[u32],
    t7: &[u32],
    t8: &[u32],
    t9: &[u32],
    t10: &[u32],
    i1: &[u32],
    i7: &[u32],
    table: u32,
    row: u32,
) -> &'a [u8]
    ensures { result.now ≡ name_of src.now c g (record { t1 = t1.now; t2 = t2.now; t3 = t3.now; t4 = t4.now; t5 = t5.now; t6 = t6.now; t7 = t7.now; t8 = t8.now; t9 = t9.now; t10 = t10.now }) (record { tokens = i1.now; rules = i7.now }) table row }
{
    if !sound::sound(src, c, g, t1, t2, t3, t4, t5, t6, t7, t8, t9, t10, i1, i7) {
        return part(src, 0, 0);
    }
    let p = name_place(c, t1, t7, table, row);
    let a = p.from;
    let b = p.to;
    part(src, a, b)
}
