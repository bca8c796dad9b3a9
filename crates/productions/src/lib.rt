// A production, with its `%prec` name and its action, as a row of table 8.
#![tactic(auto)]

ghost use Rattle.std.specs.Prelude.{◌≡◌};
ghost use Rattle.productions.specs.Cells.{prec_cells, action_cells, production_cells, prec_of, action_of, cell_of, production_at, gives_prec, push_production};
ghost use Rattle.grammar.specs.State.{Out1};

use grammar::{State, Step};

#[derive(Clone, Copy)]
pub struct Production {
    pub rule: u32,
    pub from: u32,
    pub to: u32,
    pub first: u32,
    pub last: u32,
    // The name of its `%prec`, by its place.
    pub prec: Option<(u32, u32)>,
    // Its action: the place of its trimmed text, and the crate's span.
    pub action: Option<(u32, u32, u32, u32)>,
}

pub fn prec_cells(p: Option<(u32, u32)>) -> [u32; 3]
    ensures { result ≡ prec_cells p }
{
    match p {
        None => [0, 0, 0],
        Some((a, b)) => [1, a, b],
    }
}

pub fn action_cells(p: Option<(u32, u32, u32, u32)>) -> [u32; 5]
    ensures { result ≡ action_cells p }
{
    match p {
        None => [0, 0, 0, 0, 0],
        Some((a, b, c, d)) => [1, a, b, c, d],
    }
}

pub fn production_cells(p: Production) -> [u32; 13]
    ensures { result ≡ production_cells p }
{
    let q = p.prec;
    let a = p.action;
    let x = prec_cells(q);
    let y = action_cells(a);
    [
        p.rule, p.from, p.to, p.first, p.last, x[0], x[1], x[2], y[0], y[1], y[2], y[3], y[4],
    ]
}

pub fn prec_of(f: u32, a: u32, b: u32) -> Option<(u32, u32)>
    ensures { result ≡ prec_of f a b }
{
    if f == 1 { Some((a, b)) } else { None }
}

pub fn action_of(f: u32, a: u32, b: u32, c: u32, d: u32) -> Option<(u32, u32, u32, u32)>
    ensures { result ≡ action_of f a b c d }
{
    if f == 1 { Some((a, b, c, d)) } else { None }
}

// A row of table 8.
pub fn add_production(s: State, p: Production, t: &mut [u32]) -> Step
    ensures is { ◌≡◌ {A = Out1} (record { answer = result.answer; state = result.state; a = t.new }) (push_production s p t.old) }
    ensures kept { result.state.at ≡ s.at }
{
    let row = production_cells(p);
    grammar::push(s, tables::PRODUCTIONS, &row, t)
}

fn cell(t: &[u32], r: u32, k: u32) -> u32
    ensures { result ≡ cell_of t.now r k }
{
    tables::cell(t, tables::PRODUCTION_WIDTH, r, k)
}

// The production of row `r` of table 8.
pub fn load_production(t: &[u32], r: u32) -> Production
    ensures { result ≡ production_at t.now r }
{
    let prec = prec_of(
        cell(t, r, tables::PREC),
        cell(t, r, tables::PREC_FROM),
        cell(t, r, tables::PREC_TO),
    );
    let action = action_of(
        cell(t, r, tables::ACTION),
        cell(t, r, tables::TEXT_FROM),
        cell(t, r, tables::TEXT_TO),
        cell(t, r, tables::SPAN_FROM),
        cell(t, r, tables::SPAN_TO),
    );
    Production {
        rule: cell(t, r, tables::RULE_ROW),
        from: cell(t, r, tables::FROM),
        to: cell(t, r, tables::TO),
        first: cell(t, r, tables::FIRST),
        last: cell(t, r, tables::LAST),
        prec,
        action,
    }
}

// Whether one of the first `n` productions has a `%prec`.
pub fn has_precs(t: &[u32], n: u32) -> bool
    ensures { result ≡ gives_prec t.now n }
{
    (0..n).any(|r| cell(t, r, tables::PREC) == 1)
}
