//! The chosen variables of a flow as a graph that is walked backwards, from the end of the flow.

ghost use Rattle.std.specs.Prelude.{ℕ, ◌≡◌, ◌≤◌, ◌<◌, ◌*◌, ◌++◌, ◌∷◌, [], ◌^◌, length, Some, slice_get, IfOk, OnOk};
ghost use Rattle.std.proofs.Props.{props};
ghost use Rattle.cutoff_program.specs.Flows.{variables_of, cost_of_variable, last_of};
ghost use Rattle.cutoff_program.specs.Limits.{IsProblem};
ghost use Rattle.cutoff_program.specs.declared.flow.Flow.{Flow};
ghost use Rattle.graph_search.specs.Graphs.{AreEdgesAmong};
ghost use Rattle.program_walks.specs.Turned.{turned_edge, AreTurned};

use cutoff_program::flow::{Problem, Variable};
use graph_search::{Edge, Graph};
use merlin_model::OutOfMemory;
use sqlite_items::Items;
use std::alloc::Global;

/// A rate as often as a weight says.
fn weighted(rate: u64, weight: u32) -> u64
    requires { rate ≤ 10 ^ 9 }
    ensures value { result ≡ rate * weight }
    ensures small { result < 2 ^ 62 }
{
    rate * u64::from(weight)
}

/// What a variable costs: its rate as often as the weight of the link that it crosses says, else 0.
pub fn cost(problem: &Problem, variable: &Variable) -> u64
    requires { variable.now.rate ≤ 10 ^ 9 }
    ensures value { result ≡ cost_of_variable problem.now variable.now }
    ensures small { result < 2 ^ 62 }
{
    match variable.edge.crosses {
        None => 0,
        Some(l) => {
            if l < problem.links.len() {
                weighted(variable.rate, problem.links.as_slice()[l].weight)
            } else {
                0
            }
        }
    }
}

/// Vertices from 0, and edges among them.
#[derive(Drop)]
pub struct Backwards {
    pub vertices: usize,
    pub edges: Items<Edge>,
    pub ghost inside: { AreEdgesAmong vertices edges } by { Prim.hlevel props },
}

impl Graph for Backwards {
    ghost size = { λ it. it.vertices };

    ghost edges_of = { λ it. it.edges };

    fn vertices(&self) -> usize {
        self.vertices
    }

    fn edges(&self) -> usize {
        self.edges.len()
    }

    fn edge(&self, number: usize) -> Edge {
        self.edges.as_slice()[number]
    }
}

/// Edges that lead backwards, each with the number of its variable.
#[derive(Drop)]
pub struct Turned {
    pub edges: Items<Edge>,
    pub numbers: Items<usize>,
}

/// A variable as an edge that leads backwards.
fn turn(problem: &Problem, variable: &Variable) -> Edge
    requires { variable.now.rate ≤ 10 ^ 9 }
    ensures { result ≡ turned_edge problem.now variable.now }
{
    Edge {
        from: variable.edge.to,
        to: variable.edge.from,
        cost: u128::from(cost(problem, variable)),
    }
}

/// Adds an edge with its number.
fn push(found: &mut Turned, number: usize, edge: Edge) -> Result<(), OutOfMemory>
    ensures edges { OnOk result (found.new.edges ≡ found.old.edges ++ edge ∷ []) }
    ensures numbers { OnOk result (found.new.numbers ≡ found.old.numbers ++ number ∷ []) }
{
    found.edges.push(edge)?;
    found.numbers.push(number)?;
    Ok(())
}

/// The chosen variables of a flow, turned round.
pub fn turned_edges(
    alloc: Global,
    problem: &Problem,
    variables: &[Variable],
    number: usize,
    point: &[bool],
) -> Result<Turned, OutOfMemory>
    requires is { IsProblem problem.now }
    requires are { variables.now ≡ variables_of problem.now }
    requires size { length point.now ≡ length variables.now }
    ensures { (flow : Flow) → slice_get problem.now.flows number ≡ Some flow → IfOk result (λ found.
        AreTurned problem.now point.now number (last_of flow) (length variables.now) found) }
{
    cutoff_program::laws::variables_are_small();
    let mut found = Turned {
        edges: Items::new(alloc),
        numbers: Items::new(alloc),
    };
    for (k, variable) in variables.iter().enumerate() {
        if variable.flow == number && point[k] {
            push(&mut found, k, turn(problem, variable))?;
        }
    }
    Ok(found)
}
