//! What an edge takes of the link that it crosses, and how wide that link is.

ghost use Rattle.std.specs.Prelude.{◌≡◌, ◌≤◌, length, IfOk};
ghost use Rattle.std.specs.Option.{option_map_or};
ghost use Rattle.cutoff_program.specs.Flows.{variables_of};
ghost use Rattle.program_walks.specs.Bounds.{link_crossed, share_on_link, share_by_number, greatest_share};
ghost use Rattle.program_walks.specs.Widths.{has_width, wide_point};

use crate::values::greater;
use cutoff_program::flow::{Problem, Variable};
use merlin_model::OutOfMemory;
use merlin_model::network::DirectedLink;
use merlin_model::policy::Objective;
use sqlite_items::{Items, at};
use std::alloc::Global;

/// The width of an edge that crosses no link. It is above each capacity, in kbit/s.
pub const UNCROSSED: u64 = 1_000_000_001;

/// The link that an edge crosses, if it crosses one.
fn link_at(problem: &Problem, crosses: Option<usize>) -> Option<DirectedLink>
    ensures { result ≡ link_crossed problem.now crosses }
{
    match crosses {
        None => None,
        Some(place) => problem.links.as_slice().get(place).copied(),
    }
}

/// The share that a rate has of a link: for the greatest ratio the rate and the capacity, for the greatest load the rate and 1.
fn share_of(objective: Objective, rate: u64, link: Option<DirectedLink>) -> (u64, u64)
    ensures { result ≡ share_on_link objective rate link }
{
    match (objective, link) {
        (Objective::Ratio, Some(link)) => (rate, link.capacity),
        (Objective::Reserved, Some(_)) => (rate, 1),
        (_, _) => (0, 1),
    }
}

/// The share of a variable.
fn share_by(problem: &Problem, variables: &[Variable], number: usize) -> (u64, u64)
    requires { variables.now ≡ variables_of problem.now }
    ensures { result ≡ share_by_number problem.now number }
{
    match at(variables, number) {
        None => (0, 1),
        Some(variable) => share_of(
            problem.objective,
            variable.rate,
            link_at(problem, variable.edge.crosses),
        ),
    }
}

/// The greatest share along a path.
pub fn greatest_along(problem: &Problem, variables: &[Variable], path: &[usize]) -> (u64, u64)
    requires { variables.now ≡ variables_of problem.now }
    ensures { result ≡ greatest_share problem.now path.now }
{
    let mut greatest = (0, 1);
    let mut place = path.len();
    while place > 0 {
        place -= 1;
        greatest = greater(share_by(problem, variables, path[place]), greatest);
    }
    greatest
}

/// Whether a link has room for a rate and is so wide. An edge that crosses no link has room for every rate.
fn is_wide(width: u64, rate: u64, link: Option<DirectedLink>) -> bool
    ensures { result ≡ has_width width rate link }
{
    match link {
        None => width <= UNCROSSED,
        Some(link) => rate <= link.capacity && width <= link.capacity,
    }
}

/// The variables that may be 1 without a cutoff and are so wide.
pub fn wide_variables(
    alloc: Global,
    problem: &Problem,
    variables: &[Variable],
    width: u64,
) -> Result<Items<bool>, OutOfMemory>
    requires { variables.now ≡ variables_of problem.now }
    ensures { IfOk result (λ point. point ≡ wide_point problem.now width) }
{
    let mut point = Items::new(alloc);
    for variable in variables {
        let link = link_at(problem, variable.edge.crosses);
        point.push(is_wide(width, variable.rate, link))?;
    }
    Ok(point)
}
