//! The point of walks: of the variables that each walk takes a path of least cost, so that what lies between two visits of a vertex is
//! left out.

ghost use Rattle.std.specs.Prelude.{◌≡◌, ◌<◌, length, IfOk, OnOk};
ghost use Rattle.cutoff_program.specs.Flows.{variables_of};
ghost use Rattle.cutoff_program.specs.Limits.{IsProblem};
ghost use Rattle.program_walks.specs.Marks.{with_more};
ghost use Rattle.program_walks.specs.Solutions.{TakesPath, TakesPaths, IsPointOfWalks};
ghost use Rattle.std.specs.List.{AllByRecursion};

use crate::marking::{nothing_chosen, taken_by};
use crate::paths::least_path;
use cutoff_program::flow::{Problem, Variable};
use merlin_model::OutOfMemory;
use merlin_model::policy::Symbol;
use sqlite_items::Items;
use std::alloc::Global;

/// Chooses some more variables.
fn choose(point: &mut Items<bool>, path: &[usize])
    requires { AllByRecursion (λ k. k < length point.old) path.now }
    ensures { point.new ≡ with_more point.old path.now }
{
    for number in path {
        point.set(*number, true);
    }
}

/// Chooses a path of least cost over what a flow has chosen, if there is one.
fn choose_path(
    alloc: Global,
    problem: &Problem,
    variables: &[Variable],
    number: usize,
    taken: &[bool],
    point: &mut Items<bool>,
) -> Result<(), OutOfMemory>
    requires is { IsProblem problem.now }
    requires are { variables.now ≡ variables_of problem.now }
    requires in_range { number < length problem.now.flows }
    requires size { length taken.now ≡ length variables.now }
    requires room { length point.old ≡ length variables.now }
    ensures { OnOk result (TakesPath problem.now taken.now number point.old point.new) }
{
    match least_path(alloc, problem, variables, number, taken)? {
        Some(found) => choose(point, found.path.as_slice()),
        None => {}
    }
    Ok(())
}

/// The point of a path of least cost over what each flow has chosen.
fn paths_within(
    alloc: Global,
    problem: &Problem,
    variables: &[Variable],
    taken: &[bool],
) -> Result<Items<bool>, OutOfMemory>
    requires is { IsProblem problem.now }
    requires are { variables.now ≡ variables_of problem.now }
    requires size { length taken.now ≡ length variables.now }
    ensures { IfOk result (TakesPaths problem.now taken.now problem.now.flows) }
{
    let mut point = nothing_chosen(alloc, variables.len())?;
    for number in 0..problem.flows.len() {
        choose_path(alloc, problem, variables, number, taken, &mut point)?;
    }
    Ok(point)
}

/// The point of walks, one for each flow.
pub fn point_of_walks(
    alloc: Global,
    problem: &Problem,
    symbols: &[Items<Symbol>],
    variables: &[Variable],
    walks: &[Items<Symbol>],
) -> Result<Items<bool>, OutOfMemory>
    requires is { IsProblem problem.now }
    requires are { variables.now ≡ variables_of problem.now }
    requires walks { length walks.now ≡ length symbols.now }
    ensures { IfOk result (IsPointOfWalks problem.now symbols.now walks.now) }
{
    let taken = taken_by(alloc, variables, symbols, walks)?;
    paths_within(alloc, problem, variables, taken.as_slice())
}
