//! Least paths of flows, by Dijkstra's search (1959) from the end backwards, so that each vertex knows the variable by which its
//! least path goes on.

ghost use Rattle.std.specs.Prelude.{ℕ, ◌≡◌, ◌<◌, ◌+◌, ◌^◌, List, length, Some, slice_get, IfOk};
ghost use Rattle.graph_search.specs.Graphs.{AreEdgesAmong, ArePotentials, cost_of_all};
ghost use Rattle.cutoff_program.specs.Flows.{variables_of, last_of};
ghost use Rattle.cutoff_program.specs.Limits.{IsProblem};
ghost use Rattle.cutoff_program.specs.declared.flow.Flow.{Flow};
ghost use Rattle.program_walks.specs.Paths.{IsLeastPathIf};
ghost use Rattle.program_walks.specs.Followed.{IsOnward, IsWayBy};

use crate::backwards::{Backwards, Turned, turned_edges};
use cutoff_program::flow::{Problem, Variable};
use graph_search::{Edge, Potentials, least};
use merlin_model::OutOfMemory;
use sqlite_items::{Items, at};
use std::alloc::Global;

/// A path by the numbers of its variables, from the start of a flow on, and what it costs.
#[derive(Drop)]
pub struct LeastPath {
    pub path: Items<usize>,
    pub cost: u64,
}

/// The number of the end of a flow.
fn end_of(problem: &Problem, number: usize) -> usize
    requires is { IsProblem problem.now }
    requires in_range { number < length problem.now.flows }
    ensures end { (flow : Flow) → slice_get problem.now.flows number ≡ Some flow →
        result ≡ last_of flow }
    ensures small { result < 2 ^ 32 }
{
    problem.flows.as_slice()[number].vertices.max(2) - 1
}

/// The number of the variable by which one goes on from a vertex, and the vertex to which it leads, if there is one.
fn onward(
    variables: &[Variable],
    numbers: &[usize],
    next: &[Option<usize>],
    vertex: usize,
) -> Option<(usize, usize)>
    ensures { IsOnward variables.now numbers.now next.now vertex result }
{
    match at(next, vertex) {
        Some(Some(place)) => match at(numbers, *place) {
            Some(number) => match at(variables, *number) {
                Some(variable) => Some((*number, variable.edge.to)),
                None => None,
            },
            None => None,
        },
        _ => None,
    }
}

/// The variables by which one goes on from the start, up to a vertex that knows none.
fn follow(
    alloc: Global,
    variables: &[Variable],
    numbers: &[usize],
    next: &[Option<usize>],
) -> Result<Items<usize>, OutOfMemory>
    ensures { (ks : List ℕ) → IsWayBy variables.now numbers.now next.now ks →
        IfOk result (λ path. path ≡ ks) }
{
    let mut path = Items::new(alloc);
    let mut vertex = 0;
    for _step in 0..variables.len() {
        let Some((number, to)) = onward(variables, numbers, next, vertex) else {
            break;
        };
        path.push(number)?;
        vertex = to;
    }
    Ok(path)
}

/// The least costs along edges that lead backwards from the end.
fn potentials_of(alloc: Global, edges: Items<Edge>, end: usize) -> Result<Potentials, OutOfMemory>
    requires small { end < 2 ^ 32 }
    requires inside { AreEdgesAmong (end + 1) edges }
    requires costs { cost_of_all edges < 2 ^ 120 }
    ensures { IfOk result (ArePotentials (end + 1) edges end) }
{
    let graph = Backwards {
        vertices: end + 1,
        edges,
    };
    least(alloc, &graph, end)
}

/// A path of least cost from the start of a flow to its end over chosen variables. None where no trail leads there.
pub fn least_path(
    alloc: Global,
    problem: &Problem,
    variables: &[Variable],
    number: usize,
    point: &[bool],
) -> Result<Option<LeastPath>, OutOfMemory>
    requires is { IsProblem problem.now }
    requires are { variables.now ≡ variables_of problem.now }
    requires in_range { number < length problem.now.flows }
    requires size { length point.now ≡ length variables.now }
    ensures { (flow : Flow) → slice_get problem.now.flows number ≡ Some flow →
        IfOk result (IsLeastPathIf problem.now point.now number flow) }
{
    let end = end_of(problem, number);
    let Turned { edges, numbers } = turned_edges(alloc, problem, variables, number, point)?;
    let Potentials { distance, before } = potentials_of(alloc, edges, end)?;
    let Some(cost) = distance.as_slice()[0] else {
        return Ok(None);
    };
    let path = follow(alloc, variables, numbers.as_slice(), before.as_slice())?;
    Ok(Some(LeastPath {
        path,
        cost: cost as u64,
    }))
}
