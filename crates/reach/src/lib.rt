// Marking: one bit for each row that a chain of productions from the start rule reaches.
#![tactic(auto)]

ghost use Rattle.std.specs.Prelude.{◌≡◌, ℕ, ◌+◌, ◌*◌, ◌^◌, ◌<◌, ◌≤◌, Bool, true, false, ◌||◌, length, get_or};
ghost use Rattle.bits.specs.Bits.{bit};
ghost use Rattle.tables.specs.Layout.{tokens, rules, productions, width};
ghost use Rattle.sound.specs.Test.{count_at};
ghost use Rattle.index.specs.Index.{Indexed};
ghost use Rattle.finder.specs.Finder.{Led};
ghost use Rattle.reach.specs.Reach.{words_for, rule_sort, token_sort, named, net, grammar_of, Begins, Apart, Owned, Fair, Adds, Added, Fits, Called, InRow, Informed, Held, HeldPrec, Swept, Within, Done, Visited, Rushed, Spread, TokenOf, Marks};

use grammar::Counts;

// Rules and productions that the little room is for, and the large one, which is enough for every grammar that is read.
const FEW_RULES: usize = 512;

const FEW_PRODUCTIONS: usize = 1024;

const MANY_RULES: usize = 16384;

const MANY_PRODUCTIONS: usize = 65536;

// One sort of rows: its code, the width of its rows, their count, and the bit of row 0.
#[derive(Clone, Copy)]
pub struct Sort {
    pub kind: u32,
    pub wide: u32,
    pub count: u32,
    pub base: usize,
}

fn either(a: bool, b: bool) -> bool
    ensures { result ≡ (a || b) }
{
    if a { true } else { b }
}

// Words for `n` rows.
pub fn words_for(n: u32) -> usize
    ensures { result ≡ words_for n }
{
    (n as usize + 31) / 32
}

pub fn rule_sort(c: Counts) -> Sort
    ensures { result ≡ rule_sort c }
{
    Sort {
        kind: 1,
        wide: tables::RULE_WIDTH,
        count: sound::rows_of(c, tables::RULES),
        base: 0,
    }
}

pub fn token_sort(c: Counts) -> Sort
    ensures { result ≡ token_sort c }
{
    let rules = sound::rows_of(c, tables::RULES);
    Sort {
        kind: 2,
        wide: tables::TOKEN_WIDTH,
        count: sound::rows_of(c, tables::TOKENS),
        base: words_for(rules) * 32,
    }
}

// Sets bit `k`, and says whether it was 0.
fn mark(w: &mut [u32], k: usize) -> bool
    requires { k < length w.old * 32 }
    ensures { Added (λ (j : ℕ). j ≡ k) w.old w.new result }
{
    if bits::test_bit(w, k) {
        return false;
    }
    bits::set_bit(w, k);
    true
}

// Sets the bit of the row that has the name from `a` to `b`, if there is one. Says whether it was 0.
pub fn mark_name(
    w: &mut [u32],
    src: &[u8],
    names: &[u32],
    ix: &[u32],
    z: Sort,
    a: u32,
    b: u32,
) -> bool
    requires { Fits z w.old × Apart src.now (named names.now z) × Indexed src.now z.wide 0 z.count names.now ix.now }
    ensures { Added (Called src.now (named names.now z) a b) w.old w.new result }
{
    match index::find(src, names, z.wide, tables::NAME, z.count, ix, a, b) {
        Some(row) => mark(w, z.base + row as usize),
        None => false,
    }
}

// The same, by a finder that leads to all rows.
pub fn mark_named(
    w: &mut [u32],
    src: &[u8],
    names: &[u32],
    fx: &[u16],
    z: Sort,
    a: u32,
    b: u32,
) -> bool
    requires { Fits z w.old × Apart src.now (named names.now z) × Led src.now z.wide 0 z.count names.now fx.now }
    ensures { Added (Called src.now (named names.now z) a b) w.old w.new result }
{
    match finder::find(src, names, z.wide, tables::NAME, z.count, fx, a, b) {
        Some(row) => mark(w, z.base + row as usize),
        None => false,
    }
}

// Sets the bit of the row that symbol `s` has, if it is of the sort and has one.
fn mark_symbol(w: &mut [u32], z: Sort, syms: &[u32], s: u32) -> bool
    requires { Fits z w.old }
    ensures { Added (InRow syms.now z s (s + 1)) w.old w.new result }
{
    let wide = tables::SYMBOL_WIDTH;
    if tables::cell(syms, wide, s, 0) != z.kind {
        return false;
    }
    let row = tables::cell(syms, wide, s, tables::KNOWN_ROW);
    if row >= z.count {
        return false;
    }
    mark(w, z.base + row as usize)
}

// The same for the symbols from `from` on and before `to`.
fn mark_symbols(w: &mut [u32], z: Sort, syms: &[u32], from: u32, to: u32) -> bool
    requires { Fits z w.old }
    ensures { Added (InRow syms.now z from to) w.old w.new result }
{
    let mut changed = false;
    for s in from..to {
        let one = mark_symbol(w, z, syms, s);
        changed = either(one, changed);
    }
    changed
}

// The rows that production `p` names, if its rule is marked: its symbols have them, and no name is looked up.
fn mark_production(
    w: &mut [u32],
    src: &[u8],
    names: &[u32],
    z: Sort,
    c: Counts,
    prods: &[u32],
    syms: &[u32],
    p: u32,
) -> bool
    requires { Fits z w.old × Informed (net src.now c prods.now syms.now) (named names.now z) × (p < count_at c productions) }
    ensures { Added (Held (net src.now c prods.now syms.now) (named names.now z) w.old p) w.old w.new result }
{
    let wide = tables::PRODUCTION_WIDTH;
    let rule = tables::cell(prods, wide, p, tables::RULE_ROW);
    if !bits::test_bit(w, rule as usize) {
        return false;
    }
    let from = tables::cell(prods, wide, p, tables::FIRST);
    let to = tables::cell(prods, wide, p, tables::LAST);
    mark_symbols(w, z, syms, from, to)
}

// The row that the `%prec` of production `p` names, if its rule is marked.
fn mark_prec(
    w: &mut [u32],
    src: &[u8],
    names: &[u32],
    fx: &[u16],
    z: Sort,
    prods: &[u32],
    p: u32,
) -> bool
    requires { Fits z w.old × Apart src.now (named names.now z) × Led src.now z.wide 0 z.count names.now fx.now }
    ensures { Added (HeldPrec src.now prods.now (named names.now z) w.old p) w.old w.new result }
{
    let wide = tables::PRODUCTION_WIDTH;
    if tables::cell(prods, wide, p, tables::PREC) != 1 {
        return false;
    }
    let owner = tables::cell(prods, wide, p, tables::RULE_ROW);
    if !bits::test_bit(w, owner as usize) {
        return false;
    }
    let a = tables::cell(prods, wide, p, tables::PREC_FROM);
    let b = tables::cell(prods, wide, p, tables::PREC_TO);
    mark_named(w, src, names, fx, z, a, b)
}

fn word_of(w: &[u32], i: usize) -> u32
    ensures { result ≡ get_or w.now i 0 }
{
    if i < w.len() { w[i] } else { 0 }
}

// The words of `w`, as far as `d` goes.
fn copy_words(d: &mut [u32], w: &[u32])
    ensures { Within d.new w.now }
{
    for (i, x) in d.iter_mut().enumerate() {
        *x = word_of(w, i);
    }
}

// The rules that production `p` names, if its rule is marked, and not done.
fn visit(
    w: &mut [u32],
    done: &[u32],
    src: &[u8],
    names: &[u32],
    z: Sort,
    c: Counts,
    prods: &[u32],
    syms: &[u32],
    p: u32,
) -> bool
    requires { Fits z w.old × Informed (net src.now c prods.now syms.now) (named names.now z) × (p < count_at c productions) }
    ensures { Visited (net src.now c prods.now syms.now) (named names.now z) done.now p w.old w.new result }
{
    let rule = tables::cell(prods, tables::PRODUCTION_WIDTH, p, tables::RULE_ROW);
    if bits::test_bit(done, rule as usize) {
        return false;
    }
    mark_production(w, src, names, z, c, prods, syms, p)
}

// One pass over the productions: what a marked rule names is marked. Says whether a mark is new.
fn sweep(
    w: &mut [u32],
    done: &[u32],
    src: &[u8],
    c: Counts,
    rules: &[u32],
    prods: &[u32],
    syms: &[u32],
) -> bool
    requires { Fits (rule_sort c) w.old × Informed (net src.now c prods.now syms.now) (named rules.now (rule_sort c)) × Done (net src.now c prods.now syms.now) (named rules.now (rule_sort c)) done.now w.old }
    ensures { Swept (net src.now c prods.now syms.now) (named rules.now (rule_sort c)) w.old w.new result }
{
    let z = rule_sort(c);
    let n = sound::rows_of(c, tables::PRODUCTIONS);
    let mut news = false;
    for p in 0..n {
        let one = visit(w, done, src, rules, z, c, prods, syms, p);
        news = either(one, news);
    }
    news
}

// A pass, after which the rules that were marked before it are done.
fn round(
    w: &mut [u32],
    done: &mut [u32],
    src: &[u8],
    c: Counts,
    rules: &[u32],
    prods: &[u32],
    syms: &[u32],
) -> bool
    requires { Fits (rule_sort c) w.old × Informed (net src.now c prods.now syms.now) (named rules.now (rule_sort c)) × Done (net src.now c prods.now syms.now) (named rules.now (rule_sort c)) done.old w.old }
    ensures { Swept (net src.now c prods.now syms.now) (named rules.now (rule_sort c)) w.old w.new result × Done (net src.now c prods.now syms.now) (named rules.now (rule_sort c)) done.new w.new }
{
    let mut before = [0u32; 512];
    copy_words(&mut before, w);
    let news = sweep(w, done, src, c, rules, prods, syms);
    copy_words(done, &before);
    news
}

// ---- a first round along the productions of each rule that is reached: it marks no more than chains do, and the passes behind it find what it misses

// For each rule the number plus one of its first production, and for each production that of the next one of its rule.
fn link(first: &mut [u16], next: &mut [u16], prods: &[u32], n: u32) {
    for p in (0..n).rev() {
        let r = tables::cell(prods, tables::PRODUCTION_WIDTH, p, tables::RULE_ROW) as usize;
        let q = p as usize;
        if r < first.len() && q < next.len() && q < 65535 {
            next[q] = first[r];
            first[r] = (q + 1) as u16;
        }
    }
}

// Where a link leads; 0 past the end.
fn link_at(x: &[u16], i: usize) -> u16
    ensures { result ≡ get_or x.now i 0 }
{
    if i < x.len() { x[i] } else { 0 }
}

// The rules that are marked, as far as there is room.
fn list_marked(todo: &mut [u16], w: &[u32], n: u32) -> usize {
    let mut top = 0;
    for r in (0..n).rev() {
        if top < todo.len() && r < 65536 && bits::test_bit(w, r as usize) {
            todo[top] = r as u16;
            top += 1;
        }
    }
    top
}

// Sets the bit of the row that symbol `s` has, as `mark_symbol` does; a rule whose bit is new is to be visited.
fn visit_symbol(w: &mut [u32], z: Sort, syms: &[u32], s: u32, todo: &mut [u16], top: usize) -> usize
    requires { Fits z w.old }
    ensures { Adds (InRow syms.now z s (s + 1)) w.old w.new }
{
    if !mark_symbol(w, z, syms, s) {
        return top;
    }
    let row = tables::cell(syms, tables::SYMBOL_WIDTH, s, tables::KNOWN_ROW);
    if top < todo.len() && row < 65536 {
        todo[top] = row as u16;
        return top + 1;
    }
    top
}

// The rules that production `p` names, if its rule is marked.
fn visit_production(
    w: &mut [u32],
    src: &[u8],
    names: &[u32],
    z: Sort,
    c: Counts,
    prods: &[u32],
    syms: &[u32],
    p: u32,
    todo: &mut [u16],
    top: usize,
) -> usize
    requires { Fits z w.old × Informed (net src.now c prods.now syms.now) (named names.now z) × (p < count_at c productions) }
    ensures { Adds (Held (net src.now c prods.now syms.now) (named names.now z) w.old p) w.old w.new }
{
    let wide = tables::PRODUCTION_WIDTH;
    let head = tables::cell(prods, wide, p, tables::RULE_ROW);
    if !bits::test_bit(w, head as usize) {
        return top;
    }
    let from = tables::cell(prods, wide, p, tables::FIRST);
    let to = tables::cell(prods, wide, p, tables::LAST);
    let mut end = top;
    for s in from..to {
        end = visit_symbol(w, z, syms, s, todo, end);
    }
    end
}

// From the marked rules on: each rule in turn that is still to be visited, production by production. No rule and no production has more than one turn.
fn rush(
    w: &mut [u32],
    src: &[u8],
    c: Counts,
    rules: &[u32],
    prods: &[u32],
    syms: &[u32],
    first: &mut [u16],
    next: &mut [u16],
    todo: &mut [u16],
)
    requires { Fits (rule_sort c) w.old × Informed (net src.now c prods.now syms.now) (named rules.now (rule_sort c)) }
    ensures { Rushed (net src.now c prods.now syms.now) (named rules.now (rule_sort c)) w.old w.new }
{
    let z = rule_sort(c);
    let n = sound::rows_of(c, tables::PRODUCTIONS);
    link(first, next, prods, n);
    let mut top = list_marked(todo, w, z.count);
    let mut p = 0u16;
    let turns = n as usize + z.count as usize + 1;
    for _ in 0..turns {
        if p == 0 {
            if top == 0 {
                return;
            }
            top -= 1;
            p = link_at(first, link_at(todo, top) as usize);
        } else {
            let q = p - 1;
            if (q as u32) < n {
                top = visit_production(w, src, rules, z, c, prods, syms, q as u32, todo, top);
                p = link_at(next, q as usize);
            } else {
                p = 0;
            }
        }
    }
}

// With room for `R` rules and `P` productions: little is soon cleared, much does for every grammar that is read.
fn rush_in<const R: usize, const P: usize>(
    w: &mut [u32],
    src: &[u8],
    c: Counts,
    rules: &[u32],
    prods: &[u32],
    syms: &[u32],
)
    requires { Fits (rule_sort c) w.old × Informed (net src.now c prods.now syms.now) (named rules.now (rule_sort c)) × (R < 2 ^ 40) × (P < 2 ^ 40) }
    ensures { Rushed (net src.now c prods.now syms.now) (named rules.now (rule_sort c)) w.old w.new }
{
    let mut first = [0u16; R];
    let mut next = [0u16; P];
    let mut todo = [0u16; R];
    rush(
        w, src, c, rules, prods, syms, &mut first, &mut next, &mut todo,
    );
}

// A first round, then passes until no mark is new, which is soon where the round missed nothing. Rows past 16,384 are never done, which costs time alone: no source has so many rules.
pub fn spread(w: &mut [u32], src: &[u8], c: Counts, rules: &[u32], prods: &[u32], syms: &[u32])
    requires { Fits (rule_sort c) w.old × Informed (net src.now c prods.now syms.now) (named rules.now (rule_sort c)) }
    ensures { Spread (net src.now c prods.now syms.now) (named rules.now (rule_sort c)) w.old w.new }
{
    if (sound::rows_of(c, tables::RULES) as usize <= FEW_RULES)
        & (sound::rows_of(c, tables::PRODUCTIONS) as usize <= FEW_PRODUCTIONS)
    {
        rush_in::<FEW_RULES, FEW_PRODUCTIONS>(w, src, c, rules, prods, syms);
    } else {
        rush_in::<MANY_RULES, MANY_PRODUCTIONS>(w, src, c, rules, prods, syms);
    }
    let mut done = [0u32; 512];
    while round(w, &mut done, src, c, rules, prods, syms) {}
}

// One pass that marks the tokens of productions of marked rules: symbols', and that of the `%prec`. The finder leads to all tokens.
fn mark_tokens_led(
    w: &mut [u32],
    src: &[u8],
    c: Counts,
    tokens: &[u32],
    fx: &[u16],
    prods: &[u32],
    syms: &[u32],
)
    requires { Fits (token_sort c) w.old × Apart src.now (named tokens.now (token_sort c)) × Informed (net src.now c prods.now syms.now) (named tokens.now (token_sort c)) × Owned (net src.now c prods.now syms.now) (rule_sort c).count × Led src.now (token_sort c).wide 0 (token_sort c).count tokens.now fx.now }
    ensures { Adds (TokenOf (net src.now c prods.now syms.now) (named tokens.now (token_sort c)) w.old) w.old w.new }
{
    let z = token_sort(c);
    let n = sound::rows_of(c, tables::PRODUCTIONS);
    for p in 0..n {
        mark_production(w, src, tokens, z, c, prods, syms, p);
        mark_prec(w, src, tokens, fx, z, prods, p);
    }
}

// All tokens are entered first.
fn mark_tokens_by(
    w: &mut [u32],
    src: &[u8],
    c: Counts,
    tokens: &[u32],
    fx: &mut [u16],
    prods: &[u32],
    syms: &[u32],
)
    requires { Fits (token_sort c) w.old × Apart src.now (named tokens.now (token_sort c)) × Informed (net src.now c prods.now syms.now) (named tokens.now (token_sort c)) × Owned (net src.now c prods.now syms.now) (rule_sort c).count }
    ensures { Adds (TokenOf (net src.now c prods.now syms.now) (named tokens.now (token_sort c)) w.old) w.old w.new }
{
    let n = sound::rows_of(c, tables::TOKENS);
    finder::enter_rows(src, tokens, tables::TOKEN_WIDTH, tables::NAME, n, fx);
    mark_tokens_led(w, src, c, tokens, fx, prods, syms);
}

// Without slots, where no name is looked up.
fn mark_tokens_none(
    w: &mut [u32],
    src: &[u8],
    c: Counts,
    tokens: &[u32],
    prods: &[u32],
    syms: &[u32],
)
    requires { Fits (token_sort c) w.old × Apart src.now (named tokens.now (token_sort c)) × Informed (net src.now c prods.now syms.now) (named tokens.now (token_sort c)) × Owned (net src.now c prods.now syms.now) (rule_sort c).count }
    ensures { Adds (TokenOf (net src.now c prods.now syms.now) (named tokens.now (token_sort c)) w.old) w.old w.new }
{
    let fx = [0u16; 0];
    mark_tokens_led(w, src, c, tokens, &fx, prods, syms);
}

// With `N` slots: few are soon cleared, many do for every grammar that is read.
fn mark_tokens_in<const N: usize>(
    w: &mut [u32],
    src: &[u8],
    c: Counts,
    tokens: &[u32],
    prods: &[u32],
    syms: &[u32],
)
    requires { Fits (token_sort c) w.old × Apart src.now (named tokens.now (token_sort c)) × Informed (net src.now c prods.now syms.now) (named tokens.now (token_sort c)) × Owned (net src.now c prods.now syms.now) (rule_sort c).count × (N < 2 ^ 40) }
    ensures { Adds (TokenOf (net src.now c prods.now syms.now) (named tokens.now (token_sort c)) w.old) w.old w.new }
{
    let mut fx = [0u16; N];
    mark_tokens_by(w, src, c, tokens, &mut fx, prods, syms);
}

// The tokens of productions of marked rules. How many slots the finder has is a matter of time alone.
pub fn mark_tokens(
    w: &mut [u32],
    src: &[u8],
    c: Counts,
    tokens: &[u32],
    prods: &[u32],
    syms: &[u32],
)
    requires { Fits (token_sort c) w.old × Apart src.now (named tokens.now (token_sort c)) × Informed (net src.now c prods.now syms.now) (named tokens.now (token_sort c)) × Owned (net src.now c prods.now syms.now) (rule_sort c).count }
    ensures { Adds (TokenOf (net src.now c prods.now syms.now) (named tokens.now (token_sort c)) w.old) w.old w.new }
{
    if !productions::has_precs(prods, sound::rows_of(c, tables::PRODUCTIONS)) {
        mark_tokens_none(w, src, c, tokens, prods, syms);
        return;
    }
    if sound::rows_of(c, tables::TOKENS) <= finder::FEW_ROWS {
        mark_tokens_in::<{ finder::FEW_SLOTS }>(w, src, c, tokens, prods, syms);
        return;
    }
    mark_tokens_in::<{ finder::MANY_SLOTS }>(w, src, c, tokens, prods, syms);
}

// The start rule's bit.
pub fn mark_start(
    w: &mut [u32],
    src: &[u8],
    c: Counts,
    start: Option<(u32, u32)>,
    rules: &[u32],
    ix: &[u32],
)
    requires { Fits (rule_sort c) w.old × Apart src.now (named rules.now (rule_sort c)) × Indexed src.now (rule_sort c).wide 0 (rule_sort c).count rules.now ix.now }
    ensures { Adds (Begins src.now (named rules.now (rule_sort c)) start) w.old w.new }
{
    let z = rule_sort(c);
    match start {
        None => {}
        Some((a, b)) => {
            mark_name(w, src, rules, ix, z, a, b);
        }
    }
}

// The work bits: a 1 for each used row. False, and all zero, where there are too few words.
pub fn mark_used(
    w: &mut [u32],
    src: &[u8],
    c: Counts,
    start: Option<(u32, u32)>,
    t1: &[u32],
    t7: &[u32],
    t8: &[u32],
    t9: &[u32],
    i1: &[u32],
    i7: &[u32],
) -> bool
    requires { Fair (grammar_of src.now c start t1.now t7.now t8.now t9.now) × Indexed src.now (width tokens) 0 (count_at c tokens) t1.now i1.now × Indexed src.now (width rules) 0 (count_at c rules) t7.now i7.now }
    ensures { Marks (grammar_of src.now c start t1.now t7.now t8.now t9.now) result w.old w.new }
{
    tables::zero(w);
    let rules = words_for(sound::rows_of(c, tables::RULES));
    let tokens = words_for(sound::rows_of(c, tables::TOKENS));
    if w.len() < rules + tokens {
        return false;
    }
    mark_start(w, src, c, start, t7, i7);
    spread(w, src, c, t7, t8, t9);
    mark_tokens(w, src, c, t1, t8, t9);
    true
}
