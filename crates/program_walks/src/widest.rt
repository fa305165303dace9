//! The least share of a flow is that of a path of maximum capacity (Pollack, The Maximum Capacity Through a Network, 1960), here
//! called a widest path. How wide it is, is found by bisection: at the middle of what is left a path that is so wide is looked for.

ghost use Rattle.std.specs.Prelude.{ℕ, ◌≡◌, ◌≤◌, ◌<◌, List, length, Some, slice_get, IfOk};
ghost use Rattle.cutoff_program.specs.Flows.{variables_of};
ghost use Rattle.cutoff_program.specs.Limits.{IsProblem};
ghost use Rattle.cutoff_program.specs.declared.flow.Flow.{Flow};
ghost use Rattle.program_walks.specs.Widths.{IsShareIf, IsLeastShareIf};

use crate::crossing::{UNCROSSED, greatest_along, wide_variables};
use crate::paths::least_path;
use cutoff_program::flow::{Problem, Variable};
use merlin_model::OutOfMemory;
use std::alloc::Global;

/// The greatest share along some path of a flow that is so wide, in kbit/s. None where no path is.
fn share_at_width(
    alloc: Global,
    problem: &Problem,
    variables: &[Variable],
    number: usize,
    width: u64,
) -> Result<Option<(u64, u64)>, OutOfMemory>
    requires is { IsProblem problem.now }
    requires are { variables.now ≡ variables_of problem.now }
    requires in_range { number < length problem.now.flows }
    ensures { (flow : Flow) → slice_get problem.now.flows number ≡ Some flow →
        IfOk result (IsShareIf problem.now number flow width) }
{
    let point = wide_variables(alloc, problem, variables, width)?;
    match least_path(alloc, problem, variables, number, point.as_slice())? {
        None => Ok(None),
        Some(found) => Ok(Some(greatest_along(problem, variables, found.path.as_slice()))),
    }
}

/// The least share among the paths of a flow, in kbit/s: for the greatest ratio its rate and the capacity of the narrowest link, else its
/// rate and 1. None where no path leads to its end.
pub fn least_share(
    alloc: Global,
    problem: &Problem,
    variables: &[Variable],
    number: usize,
) -> Result<Option<(u64, u64)>, OutOfMemory>
    requires is { IsProblem problem.now }
    requires are { variables.now ≡ variables_of problem.now }
    requires in_range { number < length problem.now.flows }
    ensures { (flow : Flow) → slice_get problem.now.flows number ≡ Some flow →
        IfOk result (IsLeastShareIf problem.now number flow) }
{
    let Some(mut share) = share_at_width(alloc, problem, variables, number, 0)? else {
        return Ok(None);
    };
    let mut low = 0;
    let mut high = UNCROSSED + 1;
    'widths: while low + 1 < high {
        let middle = low + (high - low) / 2;
        match share_at_width(alloc, problem, variables, number, middle)? {
            None => high = middle,
            Some(found) => {
                share = found;
                low = middle;
            }
        }
    }
    Ok(Some(share))
}
