// Validation: the tests of document 01 by themselves, and the walks over the rows of one table. `validator` puts them in order.
#![tactic(auto)]

ghost use Rattle.std.specs.Prelude.{◌≡◌, ◌++◌, ◌+◌};
ghost use Rattle.tables.specs.Layout.{tokens, precedences, implicit, epps, unused, rules, productions, width};
ghost use Rattle.index.specs.Index.{Indexed};
ghost use Rattle.finder.specs.Finder.{Led};
ghost use Rattle.sound.specs.Test.{count_at};
ghost use Rattle.validation.specs.Faults.{fault_cells, known, first, start_faults, prec_faults, name_faults, kind_faults, kinds_faults, production_faults, epp_faults, epps_faults, faults};
ghost use Rattle.validation.specs.Walk.{RuleNames, PrecNames, SymbolNames, KeyNames, SymbolsKnown, symbol_faults, symbols_faults, failing, Walked, noted};

use grammar::Counts;

// What a reading lacks, by the place of the name.
#[derive(Clone, Copy)]
pub enum Flaw {
    NoStartRule,
    InvalidStartRule(u32, u32),
    UnknownRuleRef(u32, u32),
    // A symbol or an expected unused name.
    UnknownTokenRef(u32, u32),
    // A `%prec` name.
    UnknownPrecToken(u32, u32),
    NoPrecForToken(u32, u32),
    UnknownEppKey(u32, u32),
}

#[derive(Clone, Copy)]
pub enum ValidityError {
    UnsoundTables,
    Invalid(Flaw),
}

#[derive(Clone, Copy)]
pub enum FaultsError {
    FaultsUnsound,
    // Table 14 is too small.
    FaultsNoRoom,
}

// Whether one of the `n` rows has the name, which stands in their first cells; by the index of the table.
pub fn is_indexed(src: &[u8], t: &[u32], w: u32, n: u32, ix: &[u32], a: u32, b: u32) -> bool
    requires { Indexed src.now w 0 n t.now ix.now }
    ensures { result ≡ known src.now t.now w n a b }
{
    match index::find(src, t, w, tables::NAME, n, ix, a, b) {
        Some(_) => true,
        None => false,
    }
}

// The same by a finder of the table.
pub fn is_led(src: &[u8], t: &[u32], w: u32, n: u32, fx: &[u16], a: u32, b: u32) -> bool
    requires { Led src.now w 0 n t.now fx.now }
    ensures { result ≡ known src.now t.now w n a b }
{
    match finder::meet(src, t, w, tables::NAME, n, fx, a, b) {
        Some(_) => true,
        None => false,
    }
}

// The finder leads to each row of tables 1 and 2, whatever it held before: what a `%prec` is looked up by.
pub fn guide_precs(
    src: &[u8],
    t1: &[u32],
    tokens: u32,
    t2: &[u32],
    precedences: u32,
    fx: &mut [u16],
)
    ensures { PrecNames src.now t1.now tokens t2.now precedences fx.new }
{
    finder::enter_rows(
        src,
        t2,
        tables::PRECEDENCE_WIDTH,
        tables::NAME,
        precedences,
        fx,
    );
    finder::enter_rows(src, t1, tables::TOKEN_WIDTH, tables::NAME, tokens, fx);
}

// The same for tables 1, 4 and 7: what the `%epp` keys and the expected unused names are looked up by.
pub fn guide_names(src: &[u8], c: Counts, t1: &[u32], t4: &[u32], t7: &[u32], fx: &mut [u16])
    ensures { KeyNames src.now t1.now (count_at c tokens) t4.now (count_at c implicit) fx.new × SymbolNames src.now t1.now (count_at c tokens) t7.now (count_at c rules) fx.new }
{
    let tokens = sound::rows_of(c, tables::TOKENS);
    let implicit = sound::rows_of(c, tables::IMPLICIT);
    let rules = sound::rows_of(c, tables::RULES);
    finder::enter_rows(src, t1, tables::TOKEN_WIDTH, tables::NAME, tokens, fx);
    finder::enter_rows(src, t4, tables::NAME_WIDTH, tables::NAME, implicit, fx);
    finder::enter_rows(src, t7, tables::RULE_WIDTH, tables::NAME, rules, fx);
}

pub fn start_fault(
    src: &[u8],
    start: Option<(u32, u32)>,
    t7: &[u32],
    rules: u32,
    i7: &[u32],
) -> Result<(), Flaw>
    requires { RuleNames src.now rules t7.now i7.now }
    ensures { failing result ≡ start_faults src.now start t7.now rules }
{
    match start {
        None => Err(Flaw::NoStartRule),
        Some((a, b)) => {
            if is_indexed(src, t7, tables::RULE_WIDTH, rules, i7, a, b) {
                Ok(())
            } else {
                Err(Flaw::InvalidStartRule(a, b))
            }
        }
    }
}

// A `%prec` name is a token, and has a precedence.
pub fn prec_fault(
    src: &[u8],
    p: Option<(u32, u32)>,
    t1: &[u32],
    tokens: u32,
    t2: &[u32],
    precedences: u32,
    fx: &[u16],
) -> Result<(), Flaw>
    requires { PrecNames src.now t1.now tokens t2.now precedences fx.now }
    ensures { failing result ≡ prec_faults src.now p t1.now tokens t2.now precedences }
{
    match p {
        None => Ok(()),
        Some((a, b)) => {
            if !is_led(src, t1, tables::TOKEN_WIDTH, tokens, fx, a, b) {
                return Err(Flaw::UnknownPrecToken(a, b));
            }
            if is_led(src, t2, tables::PRECEDENCE_WIDTH, precedences, fx, a, b) {
                Ok(())
            } else {
                Err(Flaw::NoPrecForToken(a, b))
            }
        }
    }
}

// A name of kind 1 is a rule, else it is a token.
pub fn name_fault(
    src: &[u8],
    kind: u32,
    a: u32,
    b: u32,
    t1: &[u32],
    tokens: u32,
    t7: &[u32],
    rules: u32,
    fx: &[u16],
) -> Result<(), Flaw>
    requires { SymbolNames src.now t1.now tokens t7.now rules fx.now }
    ensures { failing result ≡ name_faults src.now kind a b t1.now tokens t7.now rules }
{
    if kind == 1 {
        if is_led(src, t7, tables::RULE_WIDTH, rules, fx, a, b) {
            return Ok(());
        }
        return Err(Flaw::UnknownRuleRef(a, b));
    }
    if is_led(src, t1, tables::TOKEN_WIDTH, tokens, fx, a, b) {
        return Ok(());
    }
    Err(Flaw::UnknownTokenRef(a, b))
}

// Row `r` of table 6.
pub fn unused_fault(
    src: &[u8],
    t6: &[u32],
    r: u32,
    t1: &[u32],
    tokens: u32,
    t7: &[u32],
    rules: u32,
    fx: &[u16],
) -> Result<(), Flaw>
    requires { SymbolNames src.now t1.now tokens t7.now rules fx.now }
    ensures { failing result ≡ kind_faults src.now (width unused) t6.now t1.now tokens t7.now rules r }
{
    let w = tables::UNUSED_WIDTH;
    name_fault(
        src,
        tables::cell(t6, w, r, 0),
        tables::cell(t6, w, r, 1),
        tables::cell(t6, w, r, 2),
        t1,
        tokens,
        t7,
        rules,
        fx,
    )
}

// Symbol `s` of table 9 says itself whether there is a row for it.
pub fn symbol_fault(t9: &[u32], s: u32) -> Result<(), Flaw>
    ensures { failing result ≡ symbol_faults t9.now s }
{
    let w = tables::SYMBOL_WIDTH;
    if tables::cell(t9, w, s, tables::KNOWN_ROW) != tables::NO_ROW {
        return Ok(());
    }
    let a = tables::cell(t9, w, s, 1);
    let b = tables::cell(t9, w, s, 2);
    if tables::cell(t9, w, s, 0) == 1 {
        return Err(Flaw::UnknownRuleRef(a, b));
    }
    Err(Flaw::UnknownTokenRef(a, b))
}

// The key of row `r` of table 5 is a token, or an implicit one.
pub fn epp_fault(
    src: &[u8],
    t1: &[u32],
    tokens: u32,
    t4: &[u32],
    implicit: u32,
    t5: &[u32],
    r: u32,
    fx: &[u16],
) -> Result<(), Flaw>
    requires { KeyNames src.now t1.now tokens t4.now implicit fx.now }
    ensures { failing result ≡ epp_faults src.now t1.now tokens t4.now implicit t5.now r }
{
    let w = tables::EPP_WIDTH;
    let a = tables::cell(t5, w, r, 2);
    let b = tables::cell(t5, w, r, 3);
    if is_led(src, t1, tables::TOKEN_WIDTH, tokens, fx, a, b) {
        return Ok(());
    }
    if is_led(src, t4, tables::NAME_WIDTH, implicit, fx, a, b) {
        return Ok(());
    }
    Err(Flaw::UnknownEppKey(tables::cell(t5, w, r, 0), tables::cell(t5, w, r, 1)))
}

// A fault as its row of table 14.
pub fn fault_row(f: Flaw) -> [u32; 3]
    ensures { result ≡ fault_cells f }
{
    match f {
        Flaw::NoStartRule => [30, 0, 0],
        Flaw::InvalidStartRule(a, b) => [31, a, b],
        Flaw::UnknownRuleRef(a, b) => [32, a, b],
        Flaw::UnknownTokenRef(a, b) => [33, a, b],
        Flaw::UnknownPrecToken(a, b) => [33, a, b],
        Flaw::NoPrecForToken(a, b) => [34, a, b],
        Flaw::UnknownEppKey(a, b) => [35, a, b],
    }
}

// A test's fault becomes row `at` of table 14, where that is free. What walks over tests answer is the row behind the last that was written, or the first fault that has no row.
pub fn note(v: Result<(), Flaw>, at: usize, t14: &mut [u32]) -> Result<usize, Flaw>
    ensures { ◌≡◌ {A = Walked} (record { answer = result; cells = t14.new }) (noted (failing v) at t14.old) }
{
    match v {
        Ok(()) => Ok(at),
        Err(f) => {
            let w = tables::FAULT_WIDTH as usize;
            if t14.len() / w <= at {
                return Err(f);
            }
            let row = fault_row(f);
            let to = at * w;
            t14[to] = row[0];
            t14[to + 1] = row[1];
            t14[to + 2] = row[2];
            Ok(at + 1)
        }
    }
}

// The `n` rows of table 6.
pub fn note_unused(
    src: &[u8],
    t6: &[u32],
    n: u32,
    t1: &[u32],
    tokens: u32,
    t7: &[u32],
    rules: u32,
    fx: &[u16],
    at: usize,
    t14: &mut [u32],
) -> Result<usize, Flaw>
    requires { SymbolNames src.now t1.now tokens t7.now rules fx.now }
    ensures { ◌≡◌ {A = Walked} (record { answer = result; cells = t14.new }) (noted (kinds_faults src.now (width unused) t6.now t1.now tokens t7.now rules 0 n) at t14.old) }
{
    let mut next = at;
    for r in 0..n {
        let v = unused_fault(src, t6, r, t1, tokens, t7, rules, fx);
        next = note(v, next, t14)?;
    }
    Ok(next)
}

// The symbols from `from` up to `to`.
pub fn note_symbols(
    t9: &[u32],
    from: u32,
    to: u32,
    at: usize,
    t14: &mut [u32],
) -> Result<usize, Flaw>
    ensures { ◌≡◌ {A = Walked} (record { answer = result; cells = t14.new }) (noted (symbols_faults t9.now from to) at t14.old) }
{
    let mut next = at;
    for s in from..to {
        let v = symbol_fault(t9, s);
        next = note(v, next, t14)?;
    }
    Ok(next)
}

// Row `r` of table 8: its `%prec`, then its symbols. What table 7 has to do with them stands in their rows.
pub fn note_production(
    src: &[u8],
    t1: &[u32],
    tokens: u32,
    t2: &[u32],
    precedences: u32,
    t7: &[u32],
    rules: u32,
    t8: &[u32],
    t9: &[u32],
    r: u32,
    at: usize,
    t14: &mut [u32],
    fx: &[u16],
) -> Result<usize, Flaw>
    requires { SymbolsKnown src.now t1.now tokens t7.now rules t8.now t9.now (r + 1) × PrecNames src.now t1.now tokens t2.now precedences fx.now }
    ensures { ◌≡◌ {A = Walked} (record { answer = result; cells = t14.new }) (noted (production_faults src.now t1.now tokens t2.now precedences t7.now rules t8.now t9.now r) at t14.old) }
{
    let p = productions::load_production(t8, r);
    let q = p.prec;
    let v = prec_fault(src, q, t1, tokens, t2, precedences, fx);
    match note(v, at, t14) {
        Ok(n) => note_symbols(t9, p.first, p.last, n, t14),
        Err(f) => Err(f),
    }
}

pub fn note_epps(
    src: &[u8],
    t1: &[u32],
    tokens: u32,
    t4: &[u32],
    implicit: u32,
    t5: &[u32],
    n: u32,
    fx: &[u16],
    at: usize,
    t14: &mut [u32],
) -> Result<usize, Flaw>
    requires { KeyNames src.now t1.now tokens t4.now implicit fx.now }
    ensures { ◌≡◌ {A = Walked} (record { answer = result; cells = t14.new }) (noted (epps_faults src.now t1.now tokens t4.now implicit t5.now n) at t14.old) }
{
    let mut next = at;
    for r in 0..n {
        let v = epp_fault(src, t1, tokens, t4, implicit, t5, r, fx);
        next = note(v, next, t14)?;
    }
    Ok(next)
}

// The `%epp` keys and the expected unused names, the other two, by a finder of their names.
pub fn note_named(
    src: &[u8],
    c: Counts,
    t1: &[u32],
    t4: &[u32],
    t5: &[u32],
    t6: &[u32],
    t7: &[u32],
    fx: &[u16],
    at: usize,
    t14: &mut [u32],
) -> Result<usize, Flaw>
    requires { KeyNames src.now t1.now (count_at c tokens) t4.now (count_at c implicit) fx.now × SymbolNames src.now t1.now (count_at c tokens) t7.now (count_at c rules) fx.now }
    ensures { ◌≡◌ {A = Walked} (record { answer = result; cells = t14.new }) (noted (epps_faults src.now t1.now (count_at c tokens) t4.now (count_at c implicit) t5.now (count_at c epps) ++ kinds_faults src.now (width unused) t6.now t1.now (count_at c tokens) t7.now (count_at c rules) 0 (count_at c unused)) at t14.old) }
{
    let tokens = sound::rows_of(c, tables::TOKENS);
    let implicit = sound::rows_of(c, tables::IMPLICIT);
    let epps = sound::rows_of(c, tables::EPPS);
    let unused = sound::rows_of(c, tables::UNUSED);
    let rules = sound::rows_of(c, tables::RULES);
    match note_epps(src, t1, tokens, t4, implicit, t5, epps, fx, at, t14) {
        Ok(n) => note_unused(src, t6, unused, t1, tokens, t7, rules, fx, n, t14),
        Err(f) => Err(f),
    }
}
