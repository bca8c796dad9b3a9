// A finder: a working index beside a table that grows, for the time of one call. A slot is free, or has a row number plus one. It spreads names better than
// the lent indexes, whose hash is given, and several tables may share one: a row that it leads to is looked at in the table that is asked.
#![tactic(auto)]

ghost use Rattle.std.specs.Prelude.{◌≡◌, ℕ, ◌-◌, ◌<◌, Bool, ◌&&◌, ltb};
ghost use Rattle.tables.specs.Layout.{tokens, width};
ghost use Rattle.tables.specs.Table.{has_name, find_name, Inserted, enter_token};
ghost use Rattle.index.specs.Index.{rows_now};
ghost use Rattle.finder.specs.Finder.{stirred, number_of, seat_of, mark_of, LeadsTo, LedOf, Led, Held, Met, Tells, Grown};

// What the slots tell of a name.
#[derive(Clone, Copy)]
pub enum Sought {
    // A row that has it.
    Seated(u32),
    // They lead to no such row.
    Unseated,
    // Nothing: all are taken, or the last mark stands among them.
    Untold,
}

// The mark of every row from 65534 on.
pub const LAST_MARK: u16 = 65535;

// How many rows a finder of few slots is for, how many slots it has, and how many one for all the names that a source can have in a table.
pub const FEW_ROWS: u32 = 512;

pub const FEW_SLOTS: usize = 1024;

pub const MANY_SLOTS: usize = 20480;

fn stir(h: u32, b: u8) -> u32
    ensures { result ≡ stirred h b }
{
    ((h as u64 * 16777619 + b as u64) % 4294967296) as u32
}

pub fn number_of(src: &[u8], a: u32, b: u32) -> u32
    ensures { result ≡ number_of src.now a b }
{
    if !tables::is_place(src, a, b) {
        return 2166136261;
    }
    src[a as usize..b as usize]
        .iter()
        .fold(2166136261, |h, x| stir(h, *x))
}

// The seat of a number among `m` slots.
fn seat(m: usize, x: u32) -> usize
    requires { 0 < m }
    ensures is { result ≡ seat_of m x }
    ensures inside { result < m }
{
    let y = x as u64 * 2654435769 % 4294967296;
    (y * (m as u64 % 4294967296) / 4294967296) as usize
}

fn mark_of(r: u32) -> u16
    ensures { result ≡ mark_of r }
{
    if r < 65534 { (r + 1) as u16 } else { LAST_MARK }
}

// The row that a mark other than the last stands for.
fn row_of(v: u16) -> u32
    requires { 0 < v }
    ensures is { result ≡ v - 1 }
    ensures low { result < 65535 }
{
    v as u32 - 1
}

// Whether row `r` is one of the `n` and has the name.
fn row_has(src: &[u8], t: &[u32], w: u32, k: u8, n: u32, r: u32, a: u32, b: u32) -> bool
    ensures { result ≡ (ltb r n && has_name src.now w k t.now a b r) }
{
    if n <= r {
        return false;
    }
    let first = k as u32;
    let c = tables::cell(t, w, r, first);
    let d = tables::cell(t, w, r, first + 1);
    tables::same_part(src, c, d, a, b)
}

// What the slots from the name's seat on tell of it. Whatever rows the slots lead to: none of those is missed.
pub fn seek(src: &[u8], t: &[u32], w: u32, k: u8, n: u32, ix: &[u16], a: u32, b: u32) -> Sought
    ensures { (asked : ℕ → Bool) → LedOf asked src.now w k n t.now ix.now → Tells asked src.now w k n t.now ix.now a b result }
{
    let m = ix.len();
    if m == 0 {
        return Sought::Untold;
    }
    let x = number_of(src, a, b);
    let mut p = seat(m, x);
    for _ in 0..m {
        let v = ix[p];
        if v == 0 {
            return Sought::Unseated;
        }
        if v == LAST_MARK {
            return Sought::Untold;
        }
        let r = row_of(v);
        if row_has(src, t, w, k, n, r, a, b) {
            return Sought::Seated(r);
        }
        p = index::next_slot(m, p);
    }
    Sought::Untold
}

// A row that has the name; by the search where the slots do not tell.
pub fn meet(src: &[u8], t: &[u32], w: u32, k: u8, n: u32, ix: &[u16], a: u32, b: u32) -> Option<u32>
    ensures { (asked : ℕ → Bool) → LedOf asked src.now w k n t.now ix.now → Met asked src.now w k n t.now a b result }
{
    match seek(src, t, w, k, n, ix, a, b) {
        Sought::Seated(r) => Some(r),
        Sought::Unseated => None,
        Sought::Untold => tables::find(src, t, w, k, n, a, b),
    }
}

// The row that has the name, where names are pairwise different.
pub fn find(src: &[u8], t: &[u32], w: u32, k: u8, n: u32, ix: &[u16], a: u32, b: u32) -> Option<u32>
    requires { Held src.now w k n t.now ix.now }
    ensures { result ≡ find_name src.now w k n t.now a b }
{
    meet(src, t, w, k, n, ix, a, b)
}

// Row `r` takes the first free slot from its name's seat on; none, where all are taken.
pub fn enter(src: &[u8], t: &[u32], w: u32, k: u8, r: u32, ix: &mut [u16])
    ensures grown { Grown ix.old ix.new }
    ensures led { LeadsTo src.now w k t.now ix.new r }
{
    let m = ix.len();
    if m == 0 {
        return;
    }
    let v = mark_of(r);
    let first = k as u32;
    let a = tables::cell(t, w, r, first);
    let b = tables::cell(t, w, r, first + 1);
    let x = number_of(src, a, b);
    let mut p = seat(m, x);
    for _ in 0..m {
        if ix[p] == 0 {
            ix[p] = v;
            return;
        }
        p = index::next_slot(m, p);
    }
}

// All of `n` rows, in order.
pub fn enter_rows(src: &[u8], t: &[u32], w: u32, k: u8, n: u32, ix: &mut [u16])
    ensures grown { Grown ix.old ix.new }
    ensures led { Led src.now w k n t.now ix.new }
{
    for r in 0..n {
        enter(src, t, w, k, r, ix);
    }
}

// The token is in table 1, and marked as declared if it is; a new row is entered. How many rows there are now; none where it found no room.
pub fn enter_token(
    src: &[u8],
    t: &mut [u32],
    n: u32,
    ix: &mut [u16],
    from: u32,
    to: u32,
    declared: bool,
) -> Option<u32>
    requires { Held src.now (width tokens) 0 n t.old ix.old }
    ensures is { ◌≡◌ {A = Inserted} (record { entered = result; cells = t.new }) (enter_token src.now n from to declared t.old) }
    ensures held { Held src.now (width tokens) 0 (rows_now n result) t.new ix.new × Grown ix.old ix.new }
{
    match find(src, t, tables::TOKEN_WIDTH, tables::NAME, n, ix, from, to) {
        Some(r) => {
            if declared {
                tables::set_cell(t, tables::TOKEN_WIDTH, r, tables::DECLARED, 1);
            }
            Some(n)
        }
        None => {
            let mark = if declared { 1 } else { 0 };
            let row = [from, to, mark];
            if tables::add_row(t, n, &row) {
                enter(src, t, tables::TOKEN_WIDTH, tables::NAME, n, ix);
                Some(n + 1)
            } else {
                None
            }
        }
    }
}
