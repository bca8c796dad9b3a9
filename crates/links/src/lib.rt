// The productions of a rule, one behind the other, by two arrays: the first production of each rule, and behind each production the next one of its rule. An array may be too short: what it has no
// cell for is sought. A cell has 16 bits, half of what a row's number has: the arrays lie on the stack of whoever links.
#![tactic(auto)]

ghost use Rattle.std.specs.Prelude.{◌≡◌, ◌+◌, ◌<◌, ◌≤◌, true, length, replicate, set};
ghost use Rattle.links.specs.Links.{is_of_rule, next_of_rule, Heads, Nexts, Linked};

// The first production of rule `k` from row `from` of table 8 on, or `n`, behind the last.
pub fn next_of_rule(t8: &[u32], from: u32, n: u32, k: u32) -> u32
    ensures { result ≡ next_of_rule t8.now from n k }
{
    (from..n)
        .find(|r| tables::cell(t8, tables::PRODUCTION_WIDTH, *r, tables::RULE_ROW) == k)
        .unwrap_or(n)
}

// A cell as a row's number.
fn wide(v: u16) -> u32
    ensures { result ≡ v }
{
    v as u32
}

// Every cell is `v`.
fn fill(t: &mut [u16], v: u16)
    ensures { t.new ≡ replicate (length t.old) v }
{
    t.fill(v);
}

// The first production of rule `k` from row `from` on, by `heads` where it has a cell for the rule.
pub fn first_of(t8: &[u32], heads: &[u16], from: u32, n: u32, k: u32) -> u32
    requires { Heads t8.now from n heads.now }
    ensures { result ≡ next_of_rule t8.now from n k }
{
    let i = k as usize;
    if i < heads.len() {
        return wide(heads[i]);
    }
    next_of_rule(t8, from, n, k)
}

// The next production of rule `k` behind its production `r`, by `nexts` where it has a cell for that.
pub fn next_of(t8: &[u32], nexts: &[u16], n: u32, r: u32, k: u32) -> u32
    requires { Nexts t8.now 0 n nexts.now × (r < n) × (is_of_rule t8.now k r ≡ true) }
    ensures { result ≡ next_of_rule t8.now (r + 1) n k }
{
    let i = r as usize;
    if i < nexts.len() {
        return wide(nexts[i]);
    }
    next_of_rule(t8, r + 1, n, k)
}

// A value is stored, if there is a cell for it.
fn store(t: &mut [u16], i: usize, v: u32)
    requires { v ≤ 65535 }
    ensures { t.new ≡ set t.old i v }
{
    if i < t.len() {
        t[i] = v as u16;
    }
}

// Production `r` is linked before those behind it.
fn link_one(t8: &[u32], n: u32, r: u32, heads: &mut [u16], nexts: &mut [u16])
    requires { Linked t8.now (r + 1) n heads.old nexts.old × (r < n) × (n ≤ 65535) }
    ensures { Linked t8.now r n heads.new nexts.new }
{
    let k = tables::cell(t8, tables::PRODUCTION_WIDTH, r, tables::RULE_ROW);
    let later = first_of(t8, heads, r + 1, n, k);
    store(nexts, r as usize, later);
    store(heads, k as usize, r);
}

// One pass over the `n` productions, from the last to the first. A cell holds `n` too, which stands for none.
pub fn link(t8: &[u32], n: u32, heads: &mut [u16], nexts: &mut [u16])
    requires { n ≤ 65535 }
    ensures { Linked t8.now 0 n heads.new nexts.new }
{
    fill(heads, n as u16);
    for r in (0..n).rev() {
        link_one(t8, n, r, heads, nexts);
    }
}
