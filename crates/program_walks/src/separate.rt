//! The bound that takes each flow by itself, as if no other flow were there.

ghost use Rattle.std.specs.Prelude.{◌≡◌, ◌<◌, length, IfOk};
ghost use Rattle.cutoff_program.specs.Flows.{variables_of};
ghost use Rattle.cutoff_program.specs.Limits.{IsProblem};
ghost use Rattle.program_walks.specs.Bounds.{IsSeparateBound};
ghost use Rattle.program_walks.specs.Widths.{IsSumIf, IsGreatestIf, IsBoundIf};

use crate::crossing::wide_variables;
use crate::paths::least_path;
use crate::values::{greater, value_by};
use crate::widest::least_share;
use cutoff_program::flow::{Problem, Variable};
use merlin_model::OutOfMemory;
use merlin_model::policy::{Objective, Value};
use std::alloc::Global;

/// The sum of the least costs of all flows. None where some flow has no path.
fn sum_of_costs(
    alloc: Global,
    problem: &Problem,
    variables: &[Variable],
) -> Result<Option<u64>, OutOfMemory>
    requires is { IsProblem problem.now }
    requires are { variables.now ≡ variables_of problem.now }
    ensures { IfOk result (IsSumIf problem.now) }
{
    let point = wide_variables(alloc, problem, variables, 0)?;
    let mut total = 0;
    let mut number = problem.flows.len();
    'flows: while number > 0 {
        number -= 1;
        match least_path(alloc, problem, variables, number, point.as_slice())? {
            None => return Ok(None),
            Some(found) => total += found.cost,
        }
    }
    Ok(Some(total))
}

/// The greatest of the least shares of all flows, as the first that is as great. None where some flow has no path.
fn greatest_of_shares(
    alloc: Global,
    problem: &Problem,
    variables: &[Variable],
) -> Result<Option<(u64, u64)>, OutOfMemory>
    requires is { IsProblem problem.now }
    requires are { variables.now ≡ variables_of problem.now }
    ensures { IfOk result (IsGreatestIf problem.now) }
{
    let mut greatest = (0, 1);
    let mut number = problem.flows.len();
    'flows: while number > 0 {
        number -= 1;
        match least_share(alloc, problem, variables, number)? {
            None => return Ok(None),
            Some(share) => greatest = greater(share, greatest),
        }
    }
    Ok(Some(greatest))
}

/// The bound of the flows, where there are some.
fn bound_by(
    alloc: Global,
    problem: &Problem,
    variables: &[Variable],
) -> Result<Option<Value>, OutOfMemory>
    requires is { IsProblem problem.now }
    requires are { variables.now ≡ variables_of problem.now }
    ensures { IfOk result (IsBoundIf problem.now) }
{
    match problem.objective {
        Objective::Shortest => match sum_of_costs(alloc, problem, variables)? {
            None => Ok(None),
            Some(total) => Ok(Some(Value::Whole(total))),
        },
        Objective::Ratio => match greatest_of_shares(alloc, problem, variables)? {
            None => Ok(None),
            Some((load, capacity)) => Ok(Some(Value::Ratio { load, capacity })),
        },
        Objective::Reserved => match greatest_of_shares(alloc, problem, variables)? {
            None => Ok(None),
            Some((load, _)) => Ok(Some(Value::Whole(load))),
        },
    }
}

/// A value that no feasible assignment is below, from the paths of each flow by itself without a cutoff: for the shortest walks the sum
/// of the least costs, for the others the greatest among the least shares of the flows. None exactly where some flow has no path.
pub fn separate_bound(
    alloc: Global,
    problem: &Problem,
    variables: &[Variable],
) -> Result<Option<Value>, OutOfMemory>
    requires is { IsProblem problem.now }
    requires are { variables.now ≡ variables_of problem.now }
    ensures { IfOk result (IsSeparateBound problem.now) }
{
    if problem.flows.len() == 0 {
        return Ok(Some(value_by(problem, &[])));
    }
    bound_by(alloc, problem, variables)
}
