//! The walks of a point: along a path of least cost over what each flow has chosen.

ghost use Rattle.std.specs.Prelude.{ℕ, ◌≡◌, ◌<◌, List, length, IfOk};
ghost use Rattle.cutoff_program.specs.Flows.{variables_of};
ghost use Rattle.cutoff_program.specs.Limits.{IsProblem};
ghost use Rattle.cutoff_program.specs.declared.flow.Flow.{Flow};
ghost use Rattle.program_walks.specs.Solutions.{word_over, IsWordAt, AreWalksOfPoint};

use crate::marking::symbol_at;
use crate::paths::least_path;
use cutoff_program::flow::{Problem, Variable};
use merlin_model::OutOfMemory;
use merlin_model::policy::Symbol;
use sqlite_items::{Items, at};
use std::alloc::Global;

/// The symbols of the vertices to which a path comes, the start included.
fn word_along(
    alloc: Global,
    variables: &[Variable],
    symbols: &[Symbol],
    path: &[usize],
) -> Result<Items<Symbol>, OutOfMemory>
    ensures { IfOk result (λ walk. walk ≡ word_over variables.now symbols.now path.now) }
{
    let mut walk = Items::new(alloc);
    walk.push(symbol_at(symbols, 0))?;
    for number in path {
        if let Some(variable) = at(variables, *number) {
            walk.push(symbol_at(symbols, variable.edge.to))?;
        }
    }
    Ok(walk)
}

/// The walk along a path of least cost over what a flow has chosen, or an empty one where there is no path.
fn walk_within(
    alloc: Global,
    problem: &Problem,
    symbols: &[Symbol],
    variables: &[Variable],
    number: usize,
    point: &[bool],
) -> Result<Items<Symbol>, OutOfMemory>
    requires is { IsProblem problem.now }
    requires are { variables.now ≡ variables_of problem.now }
    requires in_range { number < length problem.now.flows }
    requires size { length point.now ≡ length variables.now }
    ensures { IfOk result (IsWordAt problem.now point.now number symbols.now) }
{
    match least_path(alloc, problem, variables, number, point)? {
        Some(found) => word_along(alloc, variables, symbols, found.path.as_slice()),
        None => Ok(Items::new(alloc)),
    }
}

/// The walks of a point, one for each flow.
pub fn walks_of_point(
    alloc: Global,
    problem: &Problem,
    symbols: &[Items<Symbol>],
    variables: &[Variable],
    point: &[bool],
) -> Result<Items<Items<Symbol>>, OutOfMemory>
    requires is { IsProblem problem.now }
    requires are { variables.now ≡ variables_of problem.now }
    requires symbols { length symbols.now ≡ length problem.now.flows }
    requires size { length point.now ≡ length variables.now }
    ensures { IfOk result (AreWalksOfPoint problem.now symbols.now point.now) }
{
    let mut walks = Items::new(alloc);
    for number in 0..problem.flows.len() {
        let names = symbols[number].as_slice();
        walks.push(walk_within(alloc, problem, names, variables, number, point)?)?;
    }
    Ok(walks)
}
