//! The variables that walks take. A walk goes from the start of its flow along edges; a turn at a vertex takes none.

ghost use Rattle.std.specs.Prelude.{◌≡◌, ◌<◌, ◌↔◌, length, replicate, drop, false, IfOk, IfSome, IsTrue};
ghost use Rattle.program_walks.specs.Marks.{symbol_in, LeadsToSymbol, IsNextBy, TakesTrail, TakeTrails};

use cutoff_program::flow::Variable;
use merlin_model::OutOfMemory;
use merlin_model::policy::Symbol;
use sqlite_items::Items;
use std::alloc::Global;

/// No variable is chosen.
pub fn nothing_chosen(alloc: Global, count: usize) -> Result<Items<bool>, OutOfMemory>
    ensures { IfOk result (λ point. point ≡ replicate count false) }
{
    Ok(Items::from_vec(vec![in alloc; false; count]?))
}

/// The symbol of a vertex, that of location 0 where there is no vertex.
pub fn symbol_at(symbols: &[Symbol], vertex: usize) -> Symbol
    ensures { result ≡ symbol_in symbols.now vertex }
{
    match symbols.get(vertex) {
        Some(symbol) => *symbol,
        None => Symbol { loc: 0, fun: None },
    }
}

/// Whether a variable leads in its flow from a vertex to a symbol.
fn leads_to(
    variable: &Variable,
    symbols: &[Symbol],
    flow: usize,
    vertex: usize,
    symbol: Symbol,
) -> bool
    ensures { IsTrue result ↔ LeadsToSymbol symbols.now flow vertex symbol variable.now }
{
    variable.flow == flow
        && variable.edge.from == vertex
        && symbol_at(symbols, variable.edge.to) == symbol
}

/// The number of the variable that leads from a vertex of a flow to a symbol, if there is one.
fn next_by(
    variables: &[Variable],
    symbols: &[Symbol],
    flow: usize,
    vertex: usize,
    symbol: Symbol,
) -> Option<usize>
    ensures next { IsNextBy variables.now symbols.now flow vertex symbol result }
    ensures within { IfSome result (λ number. number < length variables.now) }
{
    for (number, variable) in variables.iter().enumerate() {
        if leads_to(variable, symbols, flow, vertex, symbol) {
            return Some(number);
        }
    }
    None
}

/// Chooses the variables by which symbols follow each other from the start of a flow.
fn mark_symbols(
    point: &mut Items<bool>,
    variables: &[Variable],
    symbols: &[Symbol],
    flow: usize,
    walk: &[Symbol],
)
    requires { length point.old ≡ length variables.now }
    ensures { TakesTrail variables.now symbols.now flow walk.now point.old point.new }
{
    let mut vertex = 0;
    for symbol in walk {
        if let Some(number) = next_by(variables, symbols, flow, vertex, *symbol) {
            point.set(number, true);
            vertex = variables[number].edge.to;
        }
    }
}

/// Chooses the variables that a walk takes.
fn mark_walk(
    point: &mut Items<bool>,
    variables: &[Variable],
    symbols: &[Symbol],
    flow: usize,
    walk: &[Symbol],
)
    requires { length point.old ≡ length variables.now }
    ensures { TakesTrail variables.now symbols.now flow (drop 1 walk.now) point.old point.new }
{
    if let [_, rest @ ..] = walk {
        mark_symbols(point, variables, symbols, flow, rest);
    }
}

/// The point of all variables that some walks take, one for each flow.
pub fn taken_by(
    alloc: Global,
    variables: &[Variable],
    symbols: &[Items<Symbol>],
    walks: &[Items<Symbol>],
) -> Result<Items<bool>, OutOfMemory>
    requires { length walks.now ≡ length symbols.now }
    ensures { IfOk result (TakeTrails variables.now symbols.now walks.now) }
{
    let mut point = nothing_chosen(alloc, variables.len())?;
    for (flow, walk) in walks.iter().enumerate() {
        mark_walk(
            &mut point,
            variables,
            symbols[flow].as_slice(),
            flow,
            walk.as_slice(),
        );
    }
    Ok(point)
}
