// Symbols that know their row: kind, place, and the row of the rule or token, or 4294967295 where there is none.
#![tactic(auto)]

ghost use Rattle.std.specs.Prelude.{◌≡◌, ◌<◌, ◌≤◌, eqb};
ghost use Rattle.tables.specs.Layout.{tokens, rules, width};
ghost use Rattle.tables.specs.Table.{find_name};
ghost use Rattle.index.specs.Index.{Indexed};
ghost use Rattle.finder.specs.Finder.{Held};
ghost use Rattle.symbols.specs.Symbols.{row_number, lexicon, named_row, row_for, filled_rows, knows_test, Single};

fn row_or(f: Option<u32>) -> u32
    ensures { result ≡ row_number f }
{
    match f {
        Some(r) => r,
        None => tables::NO_ROW,
    }
}

// The row that a name of the kind has, by the finders of both tables.
pub fn named_row(
    src: &[u8],
    t1: &[u32],
    n: u32,
    i1: &[u16],
    t7: &[u32],
    m: u32,
    i7: &[u16],
    kind: u32,
    a: u32,
    b: u32,
) -> u32
    requires { Held src.now (width tokens) 0 n t1.now i1.now × Held src.now (width rules) 0 m t7.now i7.now }
    ensures { result ≡ named_row (lexicon src.now t1.now n t7.now m) kind a b }
{
    if kind == 1 {
        let f = finder::find(src, t7, tables::RULE_WIDTH, tables::NAME, m, i7, a, b);
        return row_or(f);
    }
    let f = finder::find(src, t1, tables::TOKEN_WIDTH, tables::NAME, n, i1, a, b);
    row_or(f)
}

// The row of symbol `s`.
pub fn symbol_row(
    src: &[u8],
    t1: &[u32],
    n: u32,
    i1: &[u16],
    t7: &[u32],
    m: u32,
    i7: &[u16],
    t9: &[u32],
    s: u32,
) -> u32
    requires { Held src.now (width tokens) 0 n t1.now i1.now × Held src.now (width rules) 0 m t7.now i7.now }
    ensures { result ≡ row_for (lexicon src.now t1.now n t7.now m) t9.now s }
{
    let kind = tables::cell(t9, tables::SYMBOL_WIDTH, s, 0);
    let a = tables::cell(t9, tables::SYMBOL_WIDTH, s, 1);
    let b = tables::cell(t9, tables::SYMBOL_WIDTH, s, 2);
    named_row(src, t1, n, i1, t7, m, i7, kind, a, b)
}

// The rows of all `count` symbols are filled in.
pub fn fill_rows(
    src: &[u8],
    t1: &[u32],
    n: u32,
    i1: &[u16],
    t7: &[u32],
    m: u32,
    i7: &[u16],
    t9: &mut [u32],
    count: u32,
)
    requires { Held src.now (width tokens) 0 n t1.now i1.now × Held src.now (width rules) 0 m t7.now i7.now }
    ensures { t9.new ≡ filled_rows (lexicon src.now t1.now n t7.now m) t9.old count }
{
    for s in 0..count {
        let r = symbol_row(src, t1, n, i1, t7, m, i7, t9, s);
        tables::set_cell(t9, tables::SYMBOL_WIDTH, s, tables::KNOWN_ROW, r);
    }
}

// Whether `v` is the row that has the name, by its bytes; a lookup only where it says that there is none.
pub fn row_known(src: &[u8], t: &[u32], w: u32, n: u32, ix: &[u32], v: u32, a: u32, b: u32) -> bool
    requires { Indexed src.now w 0 n t.now ix.now × Single src.now w n t.now }
    ensures { result ≡ eqb v (row_number (find_name src.now w 0 n t.now a b)) }
{
    if v < n {
        let c = tables::cell(t, w, v, 0);
        let d = tables::cell(t, w, v, 1);
        return tables::same_part(src, c, d, a, b);
    }
    if v != tables::NO_ROW {
        return false;
    }
    match index::find(src, t, w, tables::NAME, n, ix, a, b) {
        Some(_) => false,
        None => true,
    }
}

// Whether symbol `s` knows its row.
pub fn symbol_knows(
    src: &[u8],
    t1: &[u32],
    n: u32,
    i1: &[u32],
    t7: &[u32],
    m: u32,
    i7: &[u32],
    t9: &[u32],
    s: u32,
) -> bool
    requires { (Indexed src.now (width tokens) 0 n t1.now i1.now × Single src.now (width tokens) n t1.now) × (Indexed src.now (width rules) 0 m t7.now i7.now × Single src.now (width rules) m t7.now) }
    ensures { result ≡ knows_test (lexicon src.now t1.now n t7.now m) t9.now s }
{
    let kind = tables::cell(t9, tables::SYMBOL_WIDTH, s, 0);
    let a = tables::cell(t9, tables::SYMBOL_WIDTH, s, 1);
    let b = tables::cell(t9, tables::SYMBOL_WIDTH, s, 2);
    let v = tables::cell(t9, tables::SYMBOL_WIDTH, s, tables::KNOWN_ROW);
    if kind == 1 {
        return row_known(src, t7, tables::RULE_WIDTH, m, i7, v, a, b);
    }
    row_known(src, t1, tables::TOKEN_WIDTH, n, i1, v, a, b)
}
