// Validation of a reading, and the list of all its faults: the walks over the tests of `validation`. A walk that writes answers the row of table 14 behind the last that was written, or the first fault that has no row.
#![tactic(auto)]

ghost use Rattle.std.specs.Prelude.{◌≡◌, ◌++◌, ◌+◌, ◌^◌, ◌<◌, ◌≤◌};
ghost use Rattle.tables.specs.Layout.{tokens, precedences, implicit, epps, unused, rules, productions, width};
ghost use Rattle.sound.specs.Test.{count_at};
ghost use Rattle.validation.specs.Faults.{first, start_faults, kinds_faults, production_faults, rule_faults, rules_faults, epps_faults, faults, validity};
ghost use Rattle.links.specs.Links.{Linked};
ghost use Rattle.validation.specs.Walk.{PrecNames, SymbolNames, KeyNames, AllNames, looks_up, SymbolsKnown, Walkable, verdict, Walked, noted, AllFaults, fault_listing};

use grammar::{Counts, Singles};
use validation::{FaultsError, Flaw, ValidityError};

// Rules and productions that links are kept for: those of a large dialect, and the most that 65,536 bytes can hold.
const FEW_RULES: usize = 1024;

const FEW_PRODUCTIONS: usize = 4096;

const MANY_RULES: usize = 14336;

const MANY_PRODUCTIONS: usize = 65536;

// The most productions that are linked: a link has 16 bits, and stands for none too.
const MOST_LINKED: u32 = 65535;

// Names that a small finder is taken for, and its slots.
const FEW_NAMES: u64 = 512;

const FEW_SLOTS: usize = 1024;

// Slots for as many tokens and precedences as a source can have, and for as many names as all four tables can.
const MANY_SLOTS: usize = 40960;

const MOST_SLOTS: usize = 45056;

// The productions of rule `k`, among the `n` of table 8.
pub fn note_rule(
    src: &[u8],
    t1: &[u32],
    tokens: u32,
    t2: &[u32],
    precedences: u32,
    t7: &[u32],
    rules: u32,
    t8: &[u32],
    t9: &[u32],
    n: u32,
    k: u32,
    heads: &[u16],
    nexts: &[u16],
    at: usize,
    t14: &mut [u32],
    fx: &[u16],
) -> Result<usize, Flaw>
    requires { SymbolsKnown src.now t1.now tokens t7.now rules t8.now t9.now n × Linked t8.now 0 n heads.now nexts.now × PrecNames src.now t1.now tokens t2.now precedences fx.now }
    ensures { ◌≡◌ {A = Walked} (record { answer = result; cells = t14.new }) (noted (rule_faults src.now t1.now tokens t2.now precedences t7.now rules t8.now t9.now n k) at t14.old) }
{
    let mut next = at;
    let mut r = links::first_of(t8, heads, 0, n, k);
    // by hand: the next row is where the rule's link leads
    while r < n {
        next = validation::note_production(
            src,
            t1,
            tokens,
            t2,
            precedences,
            t7,
            rules,
            t8,
            t9,
            r,
            next,
            t14,
            fx,
        )?;
        r = links::next_of(t8, nexts, n, r, k);
    }
    Ok(next)
}

// Rules in order, their productions in order, which are linked.
pub fn note_linked(
    src: &[u8],
    t1: &[u32],
    tokens: u32,
    t2: &[u32],
    precedences: u32,
    t7: &[u32],
    rules: u32,
    t8: &[u32],
    t9: &[u32],
    n: u32,
    heads: &[u16],
    nexts: &[u16],
    at: usize,
    t14: &mut [u32],
    fx: &[u16],
) -> Result<usize, Flaw>
    requires { SymbolsKnown src.now t1.now tokens t7.now rules t8.now t9.now n × Linked t8.now 0 n heads.now nexts.now × PrecNames src.now t1.now tokens t2.now precedences fx.now }
    ensures { ◌≡◌ {A = Walked} (record { answer = result; cells = t14.new }) (noted (rules_faults src.now t1.now tokens t2.now precedences t7.now rules t8.now t9.now n) at t14.old) }
{
    let mut next = at;
    for k in 0..rules {
        next = note_rule(
            src,
            t1,
            tokens,
            t2,
            precedences,
            t7,
            rules,
            t8,
            t9,
            n,
            k,
            heads,
            nexts,
            next,
            t14,
            fx,
        )?;
    }
    Ok(next)
}

// The same with links that are made first, for `R` rules and `P` productions: as many as a large dialect has, or as a source can have.
pub fn note_in<const R: usize, const P: usize>(
    src: &[u8],
    t1: &[u32],
    tokens: u32,
    t2: &[u32],
    precedences: u32,
    t7: &[u32],
    rules: u32,
    t8: &[u32],
    t9: &[u32],
    n: u32,
    at: usize,
    t14: &mut [u32],
    fx: &[u16],
) -> Result<usize, Flaw>
    requires { SymbolsKnown src.now t1.now tokens t7.now rules t8.now t9.now n × (n ≤ 65535) × (R < 2 ^ 40) × (P < 2 ^ 40) × PrecNames src.now t1.now tokens t2.now precedences fx.now }
    ensures { ◌≡◌ {A = Walked} (record { answer = result; cells = t14.new }) (noted (rules_faults src.now t1.now tokens t2.now precedences t7.now rules t8.now t9.now n) at t14.old) }
{
    let mut heads = [0u16; R];
    let mut nexts = [0u16; P];
    links::link(t8, n, &mut heads, &mut nexts);
    note_linked(
        src,
        t1,
        tokens,
        t2,
        precedences,
        t7,
        rules,
        t8,
        t9,
        n,
        &heads,
        &nexts,
        at,
        t14,
        fx,
    )
}

// And without links, where their cells are too narrow. No source that is read has so many productions.
pub fn note_unlinked(
    src: &[u8],
    t1: &[u32],
    tokens: u32,
    t2: &[u32],
    precedences: u32,
    t7: &[u32],
    rules: u32,
    t8: &[u32],
    t9: &[u32],
    n: u32,
    at: usize,
    t14: &mut [u32],
    fx: &[u16],
) -> Result<usize, Flaw>
    requires { SymbolsKnown src.now t1.now tokens t7.now rules t8.now t9.now n × PrecNames src.now t1.now tokens t2.now precedences fx.now }
    ensures { ◌≡◌ {A = Walked} (record { answer = result; cells = t14.new }) (noted (rules_faults src.now t1.now tokens t2.now precedences t7.now rules t8.now t9.now n) at t14.old) }
{
    let none = [0u16; 0];
    note_linked(
        src,
        t1,
        tokens,
        t2,
        precedences,
        t7,
        rules,
        t8,
        t9,
        n,
        &none,
        &none,
        at,
        t14,
        fx,
    )
}

// With links for as many rules and productions as there are, and a finder that is given.
pub fn note_led(
    src: &[u8],
    t1: &[u32],
    tokens: u32,
    t2: &[u32],
    precedences: u32,
    t7: &[u32],
    rules: u32,
    t8: &[u32],
    t9: &[u32],
    n: u32,
    at: usize,
    t14: &mut [u32],
    fx: &[u16],
) -> Result<usize, Flaw>
    requires { SymbolsKnown src.now t1.now tokens t7.now rules t8.now t9.now n × PrecNames src.now t1.now tokens t2.now precedences fx.now }
    ensures { ◌≡◌ {A = Walked} (record { answer = result; cells = t14.new }) (noted (rules_faults src.now t1.now tokens t2.now precedences t7.now rules t8.now t9.now n) at t14.old) }
{
    if (rules as usize) < FEW_RULES {
        if (n as usize) < FEW_PRODUCTIONS {
            return note_in::<FEW_RULES, FEW_PRODUCTIONS>(
                src,
                t1,
                tokens,
                t2,
                precedences,
                t7,
                rules,
                t8,
                t9,
                n,
                at,
                t14,
                fx,
            );
        }
    }
    if MOST_LINKED < n {
        return note_unlinked(
            src,
            t1,
            tokens,
            t2,
            precedences,
            t7,
            rules,
            t8,
            t9,
            n,
            at,
            t14,
            fx,
        );
    }
    note_in::<MANY_RULES, MANY_PRODUCTIONS>(
        src,
        t1,
        tokens,
        t2,
        precedences,
        t7,
        rules,
        t8,
        t9,
        n,
        at,
        t14,
        fx,
    )
}

// The same with a finder of `N` slots: for few tokens and precedences, so that little has to be cleared, or for as many as a source can have.
pub fn note_precs_in<const N: usize>(
    src: &[u8],
    t1: &[u32],
    tokens: u32,
    t2: &[u32],
    precedences: u32,
    t7: &[u32],
    rules: u32,
    t8: &[u32],
    t9: &[u32],
    n: u32,
    at: usize,
    t14: &mut [u32],
) -> Result<usize, Flaw>
    requires { SymbolsKnown src.now t1.now tokens t7.now rules t8.now t9.now n × (N < 2 ^ 40) }
    ensures { ◌≡◌ {A = Walked} (record { answer = result; cells = t14.new }) (noted (rules_faults src.now t1.now tokens t2.now precedences t7.now rules t8.now t9.now n) at t14.old) }
{
    let mut fx = [0u16; N];
    validation::guide_precs(src, t1, tokens, t2, precedences, &mut fx);
    note_led(
        src,
        t1,
        tokens,
        t2,
        precedences,
        t7,
        rules,
        t8,
        t9,
        n,
        at,
        t14,
        &fx,
    )
}

// Rules in order, their productions in order. Without a `%prec` no name is looked up, and no finder is filled.
pub fn note_rules(
    src: &[u8],
    t1: &[u32],
    tokens: u32,
    t2: &[u32],
    precedences: u32,
    t7: &[u32],
    rules: u32,
    t8: &[u32],
    t9: &[u32],
    n: u32,
    at: usize,
    t14: &mut [u32],
) -> Result<usize, Flaw>
    requires { SymbolsKnown src.now t1.now tokens t7.now rules t8.now t9.now n }
    ensures { ◌≡◌ {A = Walked} (record { answer = result; cells = t14.new }) (noted (rules_faults src.now t1.now tokens t2.now precedences t7.now rules t8.now t9.now n) at t14.old) }
{
    if !productions::has_precs(t8, n) {
        let none = [0u16; 0];
        return note_led(
            src,
            t1,
            tokens,
            t2,
            precedences,
            t7,
            rules,
            t8,
            t9,
            n,
            at,
            t14,
            &none,
        );
    }
    if tokens as u64 + precedences as u64 <= FEW_NAMES {
        return note_precs_in::<FEW_SLOTS>(
            src,
            t1,
            tokens,
            t2,
            precedences,
            t7,
            rules,
            t8,
            t9,
            n,
            at,
            t14,
        );
    }
    note_precs_in::<MANY_SLOTS>(
        src,
        t1,
        tokens,
        t2,
        precedences,
        t7,
        rules,
        t8,
        t9,
        n,
        at,
        t14,
    )
}

// Start and rules, the first two parts of all tests.
pub fn note_start_rules(
    src: &[u8],
    c: Counts,
    start: Option<(u32, u32)>,
    t1: &[u32],
    t2: &[u32],
    t7: &[u32],
    t8: &[u32],
    t9: &[u32],
    i7: &[u32],
    t14: &mut [u32],
) -> Result<usize, Flaw>
    requires { Walkable src.now c t1.now t7.now t8.now t9.now i7.now }
    ensures { ◌≡◌ {A = Walked} (record { answer = result; cells = t14.new }) (noted (start_faults src.now start t7.now (count_at c rules) ++ rules_faults src.now t1.now (count_at c tokens) t2.now (count_at c precedences) t7.now (count_at c rules) t8.now t9.now (count_at c productions)) 0 t14.old) }
{
    let tokens = sound::rows_of(c, tables::TOKENS);
    let precedences = sound::rows_of(c, tables::PRECEDENCES);
    let rules = sound::rows_of(c, tables::RULES);
    let n = sound::rows_of(c, tables::PRODUCTIONS);
    let v = validation::start_fault(src, start, t7, rules, i7);
    let at = validation::note(v, 0, t14)?;
    note_rules(
        src,
        t1,
        tokens,
        t2,
        precedences,
        t7,
        rules,
        t8,
        t9,
        n,
        at,
        t14,
    )
}

// The same with a finder of `N` slots: for few names, or for as many as a source can have.
pub fn note_names_in<const N: usize>(
    src: &[u8],
    c: Counts,
    t1: &[u32],
    t4: &[u32],
    t5: &[u32],
    t6: &[u32],
    t7: &[u32],
    at: usize,
    t14: &mut [u32],
) -> Result<usize, Flaw>
    requires { N < 2 ^ 40 }
    ensures { ◌≡◌ {A = Walked} (record { answer = result; cells = t14.new }) (noted (epps_faults src.now t1.now (count_at c tokens) t4.now (count_at c implicit) t5.now (count_at c epps) ++ kinds_faults src.now (width unused) t6.now t1.now (count_at c tokens) t7.now (count_at c rules) 0 (count_at c unused)) at t14.old) }
{
    let mut fx = [0u16; N];
    validation::guide_names(src, c, t1, t4, t7, &mut fx);
    validation::note_named(src, c, t1, t4, t5, t6, t7, &fx, at, t14)
}

// Where there is neither a key nor an expected name, nothing is looked up, and no finder is filled.
pub fn note_epps_unused(
    src: &[u8],
    c: Counts,
    t1: &[u32],
    t4: &[u32],
    t5: &[u32],
    t6: &[u32],
    t7: &[u32],
    at: usize,
    t14: &mut [u32],
) -> Result<usize, Flaw>
    ensures { ◌≡◌ {A = Walked} (record { answer = result; cells = t14.new }) (noted (epps_faults src.now t1.now (count_at c tokens) t4.now (count_at c implicit) t5.now (count_at c epps) ++ kinds_faults src.now (width unused) t6.now t1.now (count_at c tokens) t7.now (count_at c rules) 0 (count_at c unused)) at t14.old) }
{
    if sound::rows_of(c, tables::EPPS) == 0 {
        if sound::rows_of(c, tables::UNUSED) == 0 {
            let none = [0u16; 0];
            return validation::note_named(src, c, t1, t4, t5, t6, t7, &none, at, t14);
        }
    }
    let tokens = sound::rows_of(c, tables::TOKENS);
    let implicit = sound::rows_of(c, tables::IMPLICIT);
    let rules = sound::rows_of(c, tables::RULES);
    if tokens as u64 + implicit as u64 + rules as u64 <= FEW_NAMES {
        return note_names_in::<FEW_SLOTS>(src, c, t1, t4, t5, t6, t7, at, t14);
    }
    note_names_in::<MOST_SLOTS>(src, c, t1, t4, t5, t6, t7, at, t14)
}

// The tests behind 44, in their order, from row 0 of table 14 on.
pub fn note_faults(
    src: &[u8],
    c: Counts,
    g: Singles,
    t1: &[u32],
    t2: &[u32],
    t4: &[u32],
    t5: &[u32],
    t6: &[u32],
    t7: &[u32],
    t8: &[u32],
    t9: &[u32],
    i1: &[u32],
    i7: &[u32],
    t14: &mut [u32],
) -> Result<usize, Flaw>
    requires { Walkable src.now c t1.now t7.now t8.now t9.now i7.now }
    ensures { ◌≡◌ {A = Walked} (record { answer = result; cells = t14.new }) (noted (faults src.now c g t1.now t2.now t4.now t5.now t6.now t7.now t8.now t9.now) 0 t14.old) }
{
    let start = g.start;
    let at = note_start_rules(src, c, start, t1, t2, t7, t8, t9, i7, t14)?;
    note_epps_unused(src, c, t1, t4, t5, t6, t7, at, t14)
}

// ---- the first fault alone

// The first fault of production `r`: the walk over a table that has no row.
pub fn production_fault(
    src: &[u8],
    t1: &[u32],
    tokens: u32,
    t2: &[u32],
    precedences: u32,
    t7: &[u32],
    rules: u32,
    t8: &[u32],
    t9: &[u32],
    r: u32,
    fx: &[u16],
) -> Result<(), Flaw>
    requires { SymbolsKnown src.now t1.now tokens t7.now rules t8.now t9.now (r + 1) × PrecNames src.now t1.now tokens t2.now precedences fx.now }
    ensures { verdict result ≡ first (production_faults src.now t1.now tokens t2.now precedences t7.now rules t8.now t9.now r) }
{
    let mut none = [0u32; 1];
    validation::note_production(
        src,
        t1,
        tokens,
        t2,
        precedences,
        t7,
        rules,
        t8,
        t9,
        r,
        0,
        &mut none,
        fx,
    )?;
    Ok(())
}

// The first fault of all rules, in one pass over the `n` productions: that of the foremost rule, and of its first production. No production need be found by its rule.
pub fn fault_led(
    src: &[u8],
    t1: &[u32],
    tokens: u32,
    t2: &[u32],
    precedences: u32,
    t7: &[u32],
    rules: u32,
    t8: &[u32],
    t9: &[u32],
    n: u32,
    fx: &[u16],
) -> Result<(), Flaw>
    requires { SymbolsKnown src.now t1.now tokens t7.now rules t8.now t9.now n × PrecNames src.now t1.now tokens t2.now precedences fx.now }
    ensures { verdict result ≡ first (rules_faults src.now t1.now tokens t2.now precedences t7.now rules t8.now t9.now n) }
{
    let mut best = Ok(());
    let mut owner = rules;
    for r in 0..n {
        let rule = tables::cell(t8, tables::PRODUCTION_WIDTH, r, tables::RULE_ROW);
        if rule < owner {
            let v = production_fault(src, t1, tokens, t2, precedences, t7, rules, t8, t9, r, fx);
            if let Err(f) = v {
                best = Err(f);
                owner = rule;
            }
        }
    }
    best
}

// The first fault of the `%epp` keys and the expected unused names.
pub fn names_fault(
    src: &[u8],
    c: Counts,
    t1: &[u32],
    t4: &[u32],
    t5: &[u32],
    t6: &[u32],
    t7: &[u32],
    fx: &[u16],
) -> Result<(), ValidityError>
    requires { KeyNames src.now t1.now (count_at c tokens) t4.now (count_at c implicit) fx.now × SymbolNames src.now t1.now (count_at c tokens) t7.now (count_at c rules) fx.now }
    ensures { result ≡ first (epps_faults src.now t1.now (count_at c tokens) t4.now (count_at c implicit) t5.now (count_at c epps) ++ kinds_faults src.now (width unused) t6.now t1.now (count_at c tokens) t7.now (count_at c rules) 0 (count_at c unused)) }
{
    let mut none = [0u32; 1];
    match validation::note_named(src, c, t1, t4, t5, t6, t7, fx, 0, &mut none) {
        Ok(_) => Ok(()),
        Err(f) => Err(ValidityError::Invalid(f)),
    }
}

// The first fault of start and rules.
pub fn start_rules_fault(
    src: &[u8],
    c: Counts,
    start: Option<(u32, u32)>,
    t1: &[u32],
    t2: &[u32],
    t7: &[u32],
    t8: &[u32],
    t9: &[u32],
    i7: &[u32],
    fx: &[u16],
) -> Result<(), Flaw>
    requires { Walkable src.now c t1.now t7.now t8.now t9.now i7.now × PrecNames src.now t1.now (count_at c tokens) t2.now (count_at c precedences) fx.now }
    ensures { verdict result ≡ first (start_faults src.now start t7.now (count_at c rules) ++ rules_faults src.now t1.now (count_at c tokens) t2.now (count_at c precedences) t7.now (count_at c rules) t8.now t9.now (count_at c productions)) }
{
    let rules = sound::rows_of(c, tables::RULES);
    validation::start_fault(src, start, t7, rules, i7)?;
    let tokens = sound::rows_of(c, tables::TOKENS);
    let precedences = sound::rows_of(c, tables::PRECEDENCES);
    let n = sound::rows_of(c, tables::PRODUCTIONS);
    fault_led(src, t1, tokens, t2, precedences, t7, rules, t8, t9, n, fx)
}

// One finder for every name that is looked up: tokens, precedences, implicit tokens and rules.
fn guide_all(src: &[u8], c: Counts, t1: &[u32], t2: &[u32], t4: &[u32], t7: &[u32], fx: &mut [u16])
    ensures { AllNames src.now c t1.now t2.now t4.now t7.now fx.new }
{
    let tokens = sound::rows_of(c, tables::TOKENS);
    let precedences = sound::rows_of(c, tables::PRECEDENCES);
    let implicit = sound::rows_of(c, tables::IMPLICIT);
    let rules = sound::rows_of(c, tables::RULES);
    finder::enter_rows(src, t1, tables::TOKEN_WIDTH, tables::NAME, tokens, fx);
    finder::enter_rows(
        src,
        t2,
        tables::PRECEDENCE_WIDTH,
        tables::NAME,
        precedences,
        fx,
    );
    finder::enter_rows(src, t4, tables::NAME_WIDTH, tables::NAME, implicit, fx);
    finder::enter_rows(src, t7, tables::RULE_WIDTH, tables::NAME, rules, fx);
}

// The first fault, part by part; the parts behind it are not tested.
pub fn find_led(
    src: &[u8],
    c: Counts,
    g: Singles,
    t1: &[u32],
    t2: &[u32],
    t4: &[u32],
    t5: &[u32],
    t6: &[u32],
    t7: &[u32],
    t8: &[u32],
    t9: &[u32],
    i7: &[u32],
    fx: &[u16],
) -> Result<(), ValidityError>
    requires { Walkable src.now c t1.now t7.now t8.now t9.now i7.now × AllNames src.now c t1.now t2.now t4.now t7.now fx.now }
    ensures { result ≡ first (faults src.now c g t1.now t2.now t4.now t5.now t6.now t7.now t8.now t9.now) }
{
    let start = g.start;
    match start_rules_fault(src, c, start, t1, t2, t7, t8, t9, i7, fx) {
        Ok(()) => names_fault(src, c, t1, t4, t5, t6, t7, fx),
        Err(f) => Err(ValidityError::Invalid(f)),
    }
}

// With a finder of `N` slots: for few names, which is soon cleared, or for as many as a source can have.
pub fn find_in<const N: usize>(
    src: &[u8],
    c: Counts,
    g: Singles,
    t1: &[u32],
    t2: &[u32],
    t4: &[u32],
    t5: &[u32],
    t6: &[u32],
    t7: &[u32],
    t8: &[u32],
    t9: &[u32],
    i7: &[u32],
) -> Result<(), ValidityError>
    requires { Walkable src.now c t1.now t7.now t8.now t9.now i7.now × (N < 2 ^ 40) }
    ensures { result ≡ first (faults src.now c g t1.now t2.now t4.now t5.now t6.now t7.now t8.now t9.now) }
{
    let mut fx = [0u16; N];
    guide_all(src, c, t1, t2, t4, t7, &mut fx);
    find_led(src, c, g, t1, t2, t4, t5, t6, t7, t8, t9, i7, &fx)
}

// Whether a name is looked up behind the start: that of a `%prec`, the key of an `%epp`, or an expected unused one.
fn looks_up(c: Counts, t8: &[u32]) -> bool
    ensures { result ≡ looks_up c t8.now }
{
    let asked = (sound::rows_of(c, tables::EPPS) != 0) | (sound::rows_of(c, tables::UNUSED) != 0);
    asked | productions::has_precs(t8, sound::rows_of(c, tables::PRODUCTIONS))
}

// How many names a finder of them all has.
fn name_count(c: Counts) -> u64
    ensures { result ≡ count_at c tokens + count_at c precedences + (count_at c implicit + count_at c rules) }
{
    let first = sound::rows_of(c, tables::TOKENS) as u64
        + sound::rows_of(c, tables::PRECEDENCES) as u64;
    first + (sound::rows_of(c, tables::IMPLICIT) as u64 + sound::rows_of(c, tables::RULES) as u64)
}

// The first fault. Where no name is looked up no finder is filled.
pub fn find_fault(
    src: &[u8],
    c: Counts,
    g: Singles,
    t1: &[u32],
    t2: &[u32],
    t4: &[u32],
    t5: &[u32],
    t6: &[u32],
    t7: &[u32],
    t8: &[u32],
    t9: &[u32],
    i1: &[u32],
    i7: &[u32],
) -> Result<(), ValidityError>
    requires { Walkable src.now c t1.now t7.now t8.now t9.now i7.now }
    ensures { result ≡ first (faults src.now c g t1.now t2.now t4.now t5.now t6.now t7.now t8.now t9.now) }
{
    if !looks_up(c, t8) {
        let none = [0u16; 0];
        return find_led(src, c, g, t1, t2, t4, t5, t6, t7, t8, t9, i7, &none);
    }
    if name_count(c) <= FEW_NAMES {
        return find_in::<FEW_SLOTS>(src, c, g, t1, t2, t4, t5, t6, t7, t8, t9, i7);
    }
    find_in::<MOST_SLOTS>(src, c, g, t1, t2, t4, t5, t6, t7, t8, t9, i7)
}

// Validation changes nothing lent; 44 comes first.
pub fn validate(
    src: &[u8],
    c: Counts,
    g: Singles,
    t1: &[u32],
    t2: &[u32],
    t3: &[u32],
    t4: &[u32],
    t5: &[u32],
    t6: &[u32],
    t7: &[u32],
    t8: &[u32],
    t9: &[u32],
    t10: &[u32],
    i1: &[u32],
    i7: &[u32],
) -> Result<(), ValidityError>
    ensures { result ≡ validity src.now c g (record { t1 = t1.now; t2 = t2.now; t3 = t3.now; t4 = t4.now; t5 = t5.now; t6 = t6.now; t7 = t7.now; t8 = t8.now; t9 = t9.now; t10 = t10.now }) (record { tokens = i1.now; rules = i7.now }) }
{
    if !sound::sound(src, c, g, t1, t2, t3, t4, t5, t6, t7, t8, t9, t10, i1, i7) {
        return Err(ValidityError::UnsoundTables);
    }
    find_fault(src, c, g, t1, t2, t4, t5, t6, t7, t8, t9, i1, i7)
}

// All faults, as rows of table 14, and how many they are; 44 comes first, and a refusal leaves zeros.
pub fn faults(
    src: &[u8],
    c: Counts,
    g: Singles,
    t1: &[u32],
    t2: &[u32],
    t3: &[u32],
    t4: &[u32],
    t5: &[u32],
    t6: &[u32],
    t7: &[u32],
    t8: &[u32],
    t9: &[u32],
    t10: &[u32],
    i1: &[u32],
    i7: &[u32],
    t14: &mut [u32],
) -> Result<usize, FaultsError>
    ensures { ◌≡◌ {A = AllFaults} (record { answer = result; cells = t14.new }) (fault_listing src.now c g (record { t1 = t1.now; t2 = t2.now; t3 = t3.now; t4 = t4.now; t5 = t5.now; t6 = t6.now; t7 = t7.now; t8 = t8.now; t9 = t9.now; t10 = t10.now }) (record { tokens = i1.now; rules = i7.now }) t14.old) }
{
    tables::zero(t14);
    if !sound::sound(src, c, g, t1, t2, t3, t4, t5, t6, t7, t8, t9, t10, i1, i7) {
        return Err(FaultsError::FaultsUnsound);
    }
    match note_faults(src, c, g, t1, t2, t4, t5, t6, t7, t8, t9, i1, i7, t14) {
        Ok(n) => Ok(n),
        Err(_) => {
            tables::zero(t14);
            Err(FaultsError::FaultsNoRoom)
        }
    }
}
