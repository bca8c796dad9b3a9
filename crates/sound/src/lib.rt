// Whether tables, counts, singles and indexes are sound: the test behind 44. Each table is read a constant number of times. That names differ is told by a finder,
// whatever the indexes hold; a symbol's name is sought by the indexes of tables 1 and 7, which are tested first.
#![tactic(auto)]

ghost use Rattle.std.specs.Prelude.{◌≡◌, ◌<◌, ◌≤◌};
ghost use Rattle.index.specs.Index.{Indexed, fresh_name};
ghost use Rattle.tables.specs.Layout.{tokens, rules, symbols, width};
ghost use Rattle.symbols.specs.Symbols.{lexicon, knows_test, Single};
ghost use Rattle.grammar.specs.Sound.{Tables};
ghost use Rattle.tables.specs.Below.{below};
ghost use Rattle.sound.specs.Test.{zeros_from, given_test, action_test, token_test, prec_test, name_test, epp_test, kind_test, rule_test, production_test, repeat_test, tag_test, row_test, width_of, table_test, range_test, ranges_test, part_test, expect_test, param_test, singles_test, count_at, index_right, indexes_test, tables_test, posix_test, sound_test};

use grammar::{Counts, PosixCounts, Singles};

// The cell where a tag's place begins.
const TAG_PLACE: u32 = 2;

// The slots of a finder for more than `finder::FEW_ROWS` names.
const MANY_SLOTS: usize = 32768;

// Whether all cells from `from` on are zero.
pub fn zeros_from(t: &[u32], from: usize) -> bool
    ensures { result ≡ zeros_from t.now from }
{
    for i in from..t.len() {
        if t[i] != 0 {
            return false;
        }
    }
    true
}

// A flag and a place: absent with zeros, or given in the source.
pub fn given_sound(src: &[u8], f: u32, a: u32, b: u32) -> bool
    ensures { result ≡ given_test src.now f a b }
{
    ((f == 0) & (a == 0) & (b == 0)) | ((f == 1) & tables::is_place(src, a, b))
}

// The same of an action's two places.
pub fn action_sound(src: &[u8], f: u32, a: u32, b: u32, c: u32, d: u32) -> bool
    ensures { result ≡ action_test src.now f a b c d }
{
    ((f == 0) & (a == 0) & (b == 0) & (c == 0) & (d == 0))
        | ((f == 1) & tables::is_place(src, a, b) & tables::is_place(src, c, d))
}

// A row of each table.
pub fn token_sound(src: &[u8], t: &[u32], r: u32) -> bool
    ensures { result ≡ token_test src.now t.now r }
{
    let w = tables::TOKEN_WIDTH;
    tables::is_place(src, tables::cell(t, w, r, 0), tables::cell(t, w, r, 1))
        & (tables::cell(t, w, r, tables::DECLARED) <= 1)
}

pub fn prec_sound(src: &[u8], t: &[u32], r: u32) -> bool
    ensures { result ≡ prec_test src.now t.now r }
{
    let w = tables::PRECEDENCE_WIDTH;
    let a = tables::cell(t, w, r, 3);
    tables::is_place(src, tables::cell(t, w, r, 0), tables::cell(t, w, r, 1)) & (1 <= a) & (a <= 3)
}

// Tables 3, 4 and 16 have one form, and rows of `w`.
pub fn name_sound(src: &[u8], w: u32, t: &[u32], r: u32) -> bool
    ensures { result ≡ name_test src.now w t.now r }
{
    tables::is_place(src, tables::cell(t, w, r, 0), tables::cell(t, w, r, 1))
}

pub fn epp_sound(src: &[u8], t: &[u32], r: u32) -> bool
    ensures { result ≡ epp_test src.now t.now r }
{
    let w = tables::EPP_WIDTH;
    tables::is_place(src, tables::cell(t, w, r, 0), tables::cell(t, w, r, 1))
        & tables::is_place(src, tables::cell(t, w, r, 2), tables::cell(t, w, r, 3))
        & tables::is_place(src, tables::cell(t, w, r, 4), tables::cell(t, w, r, 5))
}

// Tables 6, 9 and 17 have one form, and rows of `w`.
pub fn kind_sound(src: &[u8], w: u32, t: &[u32], r: u32) -> bool
    ensures { result ≡ kind_test src.now w t.now r }
{
    let k = tables::cell(t, w, r, 0);
    (1 <= k) & (k <= 2) & tables::is_place(src, tables::cell(t, w, r, 1), tables::cell(t, w, r, 2))
}

pub fn rule_sound(src: &[u8], t: &[u32], r: u32) -> bool
    ensures { result ≡ rule_test src.now t.now r }
{
    let w = tables::RULE_WIDTH;
    tables::is_place(src, tables::cell(t, w, r, 0), tables::cell(t, w, r, 1))
        & given_sound(
            src,
            tables::cell(t, w, r, 2),
            tables::cell(t, w, r, 3),
            tables::cell(t, w, r, 4),
        )
}

pub fn production_sound(src: &[u8], t: &[u32], r: u32, rules: u32) -> bool
    ensures { result ≡ production_test src.now rules t.now r }
{
    let w = tables::PRODUCTION_WIDTH;
    let place = tables::is_place(
        src,
        tables::cell(t, w, r, tables::FROM),
        tables::cell(t, w, r, tables::TO),
    );
    let prec = given_sound(
        src,
        tables::cell(t, w, r, tables::PREC),
        tables::cell(t, w, r, tables::PREC_FROM),
        tables::cell(t, w, r, tables::PREC_TO),
    );
    let action = action_sound(
        src,
        tables::cell(t, w, r, tables::ACTION),
        tables::cell(t, w, r, tables::TEXT_FROM),
        tables::cell(t, w, r, tables::TEXT_TO),
        tables::cell(t, w, r, tables::SPAN_FROM),
        tables::cell(t, w, r, tables::SPAN_TO),
    );
    (tables::cell(t, w, r, tables::RULE_ROW) < rules) & place & prec & action
}

pub fn repeat_sound(src: &[u8], t: &[u32], r: u32) -> bool
    ensures { result ≡ repeat_test src.now t.now r }
{
    let w = tables::REPEAT_WIDTH;
    let n = tables::cell(t, w, r, 0);
    (20 <= n)
        & (n <= 27)
        & tables::is_place(src, tables::cell(t, w, r, 1), tables::cell(t, w, r, 2))
        & tables::is_place(src, tables::cell(t, w, r, 3), tables::cell(t, w, r, 4))
}

pub fn tag_sound(src: &[u8], t: &[u32], r: u32) -> bool
    ensures { result ≡ tag_test src.now t.now r }
{
    let w = tables::TAG_WIDTH;
    tables::is_place(src, tables::cell(t, w, r, 0), tables::cell(t, w, r, 1))
        & tables::is_place(
            src,
            tables::cell(t, w, r, TAG_PLACE),
            tables::cell(t, w, r, TAG_PLACE + 1),
        )
}

// Row `r` of the table with index `k`; `rules` is the count of table 7.
pub fn row_sound(src: &[u8], k: u8, t: &[u32], r: u32, rules: u32) -> bool
    ensures { result ≡ row_test src.now rules k t.now r }
{
    match k {
        0 => token_sound(src, t, r),
        1 => prec_sound(src, t, r),
        2 | 3 => name_sound(src, tables::NAME_WIDTH, t, r),
        4 => epp_sound(src, t, r),
        5 => kind_sound(src, tables::UNUSED_WIDTH, t, r),
        6 => rule_sound(src, t, r),
        7 => production_sound(src, t, r, rules),
        8 => kind_sound(src, tables::SYMBOL_WIDTH, t, r),
        9 => repeat_sound(src, t, r),
        10 => tag_sound(src, t, r),
        11 => name_sound(src, tables::TOKEN_NUMBER_WIDTH, t, r),
        12 => kind_sound(src, tables::BODY_WIDTH, t, r),
        _ => true,
    }
}

pub fn rows_sound(src: &[u8], k: u8, t: &[u32], n: u32, rules: u32) -> bool
    ensures { result ≡ below n (row_test src.now rules k t.now) }
{
    (0..n).all(|r| row_sound(src, k, t, r, rules))
}

// Whether no row has the name of one before it: each is sought among those before it, which are in the finder, and is then entered.
fn names_apart(src: &[u8], t: &[u32], w: u32, n: u32, fx: &mut [u16]) -> bool
    ensures { result ≡ below n (fresh_name src.now w 0 t.now) }
{
    for r in 0..n {
        let a = tables::cell(t, w, r, 0);
        let b = tables::cell(t, w, r, 1);
        if finder::find(src, t, w, tables::NAME, r, fx, a, b).is_some() {
            return false;
        }
        finder::enter(src, t, w, tables::NAME, r, fx);
    }
    true
}

// The same with a finder of its own, of `N` slots.
fn names_differ_in<const N: usize>(src: &[u8], t: &[u32], w: u32, n: u32) -> bool
    requires { N ≤ MANY_SLOTS }
    ensures { result ≡ below n (fresh_name src.now w 0 t.now) }
{
    let mut fx = [0u16; N];
    names_apart(src, t, w, n, &mut fx)
}

// A finder for few rows is small, so that little has to be cleared.
pub fn names_differ(src: &[u8], t: &[u32], w: u32, n: u32) -> bool
    ensures { result ≡ below n (fresh_name src.now w 0 t.now) }
{
    if n <= finder::FEW_ROWS {
        return names_differ_in::<{ finder::FEW_SLOTS }>(src, t, w, n);
    }
    names_differ_in::<MANY_SLOTS>(src, t, w, n)
}

// The width of table `k + 1`.
pub fn width_of(k: u8) -> u32
    ensures { result ≡ width_of k }
{
    match k {
        0 => tables::TOKEN_WIDTH,
        1 => tables::PRECEDENCE_WIDTH,
        2 | 3 => tables::NAME_WIDTH,
        4 => tables::EPP_WIDTH,
        5 => tables::UNUSED_WIDTH,
        6 => tables::RULE_WIDTH,
        7 => tables::PRODUCTION_WIDTH,
        8 => tables::SYMBOL_WIDTH,
        9 => tables::REPEAT_WIDTH,
        10 => tables::TAG_WIDTH,
        11 => tables::TOKEN_NUMBER_WIDTH,
        12 => tables::BODY_WIDTH,
        _ => 1,
    }
}

// Table `k + 1` with `n` rows of `w` cells. That the rows fit comes first, so that no count makes it read past the table.
pub fn table_sound(src: &[u8], k: u8, w: u32, t: &[u32], n: u32, rules: u32) -> bool
    requires { w ≡ width_of k }
    ensures { result ≡ table_test src.now rules k n t.now }
{
    let end = (n as usize) * (w as usize);
    if t.len() < end {
        return false;
    }
    if !zeros_from(t, end) {
        return false;
    }
    if !rows_sound(src, k, t, n, rules) {
        return false;
    }
    if (k == tables::TOKENS) | (k == tables::RULES) {
        return names_differ(src, t, w, n);
    }
    true
}

// Row `r` of table 8 begins with the symbol behind the row before it.
pub fn range_sound(t: &[u32], r: u32) -> bool
    ensures { result ≡ range_test t.now r }
{
    let w = tables::PRODUCTION_WIDTH;
    let first = tables::cell(t, w, r, tables::FIRST);
    let mut before = 0;
    if r != 0 {
        before = tables::cell(t, w, r - 1, tables::LAST);
    }
    (first == before) & (first <= tables::cell(t, w, r, tables::LAST))
}

pub fn ranges_sound(t: &[u32], n: u32, symbols: u32) -> bool
    ensures { result ≡ ranges_test t.now n symbols }
{
    let mut end = 0;
    for r in 0..n {
        if !range_sound(t, r) {
            return false;
        }
        end = tables::cell(t, tables::PRODUCTION_WIDTH, r, tables::LAST);
    }
    end == symbols
}

pub fn part_sound(src: &[u8], p: Option<(u32, u32)>) -> bool
    ensures { result ≡ part_test src.now p }
{
    match p {
        None => true,
        Some((a, b)) => tables::is_place(src, a, b),
    }
}

pub fn expect_sound(src: &[u8], e: Option<(u64, u32, u32)>) -> bool
    ensures { result ≡ expect_test src.now e }
{
    match e {
        None => true,
        Some((_, a, b)) => tables::is_place(src, a, b),
    }
}

pub fn param_sound(src: &[u8], p: Option<(u32, u32, u32, u32)>) -> bool
    ensures { result ≡ param_test src.now p }
{
    match p {
        None => true,
        Some((a, b, c, d)) => { tables::is_place(src, a, b) & tables::is_place(src, c, d) }
    }
}

pub fn singles_sound(src: &[u8], g: Singles) -> bool
    ensures { result ≡ singles_test src.now g }
{
    let start = g.start;
    let expect = g.expect;
    let expect_rr = g.expect_rr;
    let param = g.param;
    let generics = g.generics;
    let programs = g.programs;
    part_sound(src, start)
        & expect_sound(src, expect)
        & expect_sound(src, expect_rr)
        & param_sound(src, param)
        & part_sound(src, generics)
        & part_sound(src, programs)
}

// The count of table `k + 1`.
pub fn rows_of(c: Counts, k: u8) -> u32
    ensures { result ≡ count_at c k }
{
    let i = k as usize;
    if i < 10 { c.n[i] } else { 0 }
}

// An index of table `t` with `n` rows: its size is right, and it is what entering the rows in order gives.
pub fn index_right(src: &[u8], t: &[u32], w: u32, n: u32, ix: &[u32]) -> bool
    requires { 0 < w }
    ensures { result ≡ index_right src.now w n t.now ix.now }
{
    if !index::size_sound(ix.len(), t.len(), w) {
        return false;
    }
    index::index_sound(src, t, w, tables::NAME, n, ix)
}

// Both indexes.
pub fn indexes_sound(src: &[u8], c: Counts, t1: &[u32], t7: &[u32], i1: &[u32], i7: &[u32]) -> bool
    ensures { result ≡ indexes_test src.now c t1.now t7.now i1.now i7.now }
{
    if !index_right(src, t1, tables::TOKEN_WIDTH, rows_of(c, tables::TOKENS), i1) {
        return false;
    }
    index_right(src, t7, tables::RULE_WIDTH, rows_of(c, tables::RULES), i7)
}

// All ten tables by themselves.
pub fn tables_sound(
    src: &[u8],
    c: Counts,
    t1: &[u32],
    t2: &[u32],
    t3: &[u32],
    t4: &[u32],
    t5: &[u32],
    t6: &[u32],
    t7: &[u32],
    t8: &[u32],
    t9: &[u32],
    t10: &[u32],
) -> bool
    ensures { result ≡ tables_test src.now c (record { t1 = t1.now; t2 = t2.now; t3 = t3.now; t4 = t4.now; t5 = t5.now; t6 = t6.now; t7 = t7.now; t8 = t8.now; t9 = t9.now; t10 = t10.now }) }
{
    let rules = rows_of(c, tables::RULES);
    if !table_sound(
        src,
        tables::TOKENS,
        tables::TOKEN_WIDTH,
        t1,
        rows_of(c, tables::TOKENS),
        rules,
    ) {
        return false;
    }
    if !table_sound(
        src,
        tables::PRECEDENCES,
        tables::PRECEDENCE_WIDTH,
        t2,
        rows_of(c, tables::PRECEDENCES),
        rules,
    ) {
        return false;
    }
    if !table_sound(
        src,
        tables::AVOIDED,
        tables::NAME_WIDTH,
        t3,
        rows_of(c, tables::AVOIDED),
        rules,
    ) {
        return false;
    }
    if !table_sound(
        src,
        tables::IMPLICIT,
        tables::NAME_WIDTH,
        t4,
        rows_of(c, tables::IMPLICIT),
        rules,
    ) {
        return false;
    }
    if !table_sound(
        src,
        tables::EPPS,
        tables::EPP_WIDTH,
        t5,
        rows_of(c, tables::EPPS),
        rules,
    ) {
        return false;
    }
    if !table_sound(
        src,
        tables::UNUSED,
        tables::UNUSED_WIDTH,
        t6,
        rows_of(c, tables::UNUSED),
        rules,
    ) {
        return false;
    }
    if !table_sound(src, tables::RULES, tables::RULE_WIDTH, t7, rules, rules) {
        return false;
    }
    if !table_sound(
        src,
        tables::PRODUCTIONS,
        tables::PRODUCTION_WIDTH,
        t8,
        rows_of(c, tables::PRODUCTIONS),
        rules,
    ) {
        return false;
    }
    if !table_sound(
        src,
        tables::SYMBOLS,
        tables::SYMBOL_WIDTH,
        t9,
        rows_of(c, tables::SYMBOLS),
        rules,
    ) {
        return false;
    }
    table_sound(
        src,
        tables::REPEATS,
        tables::REPEAT_WIDTH,
        t10,
        rows_of(c, tables::REPEATS),
        rules,
    )
}

// Tables 15 to 17 by themselves.
pub fn posix_sound(src: &[u8], p: PosixCounts, t15: &[u32], t16: &[u32], t17: &[u32]) -> bool
    ensures { result ≡ posix_test src.now p t15.now t16.now t17.now }
{
    if !table_sound(src, tables::TAGS, tables::TAG_WIDTH, t15, p.n[0], 0) {
        return false;
    }
    if !table_sound(
        src,
        tables::TOKEN_NUMBERS,
        tables::TOKEN_NUMBER_WIDTH,
        t16,
        p.n[1],
        0,
    ) {
        return false;
    }
    table_sound(src, tables::BODIES, tables::BODY_WIDTH, t17, p.n[2], 0)
}

// Whether each symbol has the row number that the search gives.
pub fn symbols_known(
    src: &[u8],
    c: Counts,
    t1: &[u32],
    t7: &[u32],
    t9: &[u32],
    i1: &[u32],
    i7: &[u32],
) -> bool
    requires { (Indexed src.now (width tokens) 0 (count_at c tokens) t1.now i1.now × Single src.now (width tokens) (count_at c tokens) t1.now) × (Indexed src.now (width rules) 0 (count_at c rules) t7.now i7.now × Single src.now (width rules) (count_at c rules) t7.now) }
    ensures { result ≡ below (count_at c symbols) (knows_test (lexicon src.now t1.now (count_at c tokens) t7.now (count_at c rules)) t9.now) }
{
    let n = rows_of(c, tables::TOKENS);
    let m = rows_of(c, tables::RULES);
    let count = rows_of(c, tables::SYMBOLS);
    (0..count).all(|s| symbols::symbol_knows(src, t1, n, i1, t7, m, i7, t9, s))
}

// Whether all of it is sound.
pub fn sound(
    src: &[u8],
    c: Counts,
    g: Singles,
    t1: &[u32],
    t2: &[u32],
    t3: &[u32],
    t4: &[u32],
    t5: &[u32],
    t6: &[u32],
    t7: &[u32],
    t8: &[u32],
    t9: &[u32],
    t10: &[u32],
    i1: &[u32],
    i7: &[u32],
) -> bool
    ensures { result ≡ sound_test src.now c g (record { t1 = t1.now; t2 = t2.now; t3 = t3.now; t4 = t4.now; t5 = t5.now; t6 = t6.now; t7 = t7.now; t8 = t8.now; t9 = t9.now; t10 = t10.now }) (record { tokens = i1.now; rules = i7.now }) }
{
    if 65536 < src.len() {
        return false;
    }
    if !indexes_sound(src, c, t1, t7, i1, i7) {
        return false;
    }
    if !tables_sound(src, c, t1, t2, t3, t4, t5, t6, t7, t8, t9, t10) {
        return false;
    }
    if !symbols_known(src, c, t1, t7, t9, i1, i7) {
        return false;
    }
    ranges_sound(
        t8,
        rows_of(c, tables::PRODUCTIONS),
        rows_of(c, tables::SYMBOLS),
    ) & singles_sound(src, g)
}
