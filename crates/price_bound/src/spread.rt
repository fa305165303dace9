//! Least sums through the graph of a flow, by Dijkstra's search, and the way back along them.

ghost use Rattle.std.specs.Prelude.{ℕ, ◌≡◌, ◌≤◌, ◌<◌, List, length, IfOk, Some, slice_get};
ghost use Rattle.std.specs.List.{AllByRecursion};
ghost use Rattle.std.specs.Option.{option_copied};
ghost use Rattle.cutoff_program.specs.declared.flow.Flow.{Flow};
ghost use Rattle.graph_search.specs.Graphs.{GoesBack};
ghost use Rattle.price_bound.specs.Asked.{IsBoxAsked, measured};
ghost use Rattle.price_bound.specs.Steps.{edges_in};
ghost use Rattle.price_bound.specs.Spreads.{IsFlowSpread, IsMarked, variables_along};

use crate::flow_graph::FlowGraph;
use crate::measure::Measure;
use crate::permitted::graph_of;
use graph_search::{Potentials, least};
use integer_program::Fixed;
use merlin_model::OutOfMemory;
use merlin_model::policy::Value;
use merlin_program::MerlinProgram;
use sqlite_items::Items;
use std::alloc::Global;

/// The graph of a flow with the least sums from its start.
#[derive(Drop)]
pub struct Spread {
    pub graph: FlowGraph,
    pub least: Potentials,
}

/// The least sums of a flow over the edges that it may take in a box.
pub fn spread_of(
    alloc: Global,
    program: &MerlinProgram,
    cutoff: Option<&Value>,
    fixed: &Fixed,
    flow: usize,
    measure: Measure,
) -> Result<Spread, OutOfMemory>
    requires asked { IsBoxAsked program.now.problem (option_copied cutoff) fixed.now }
    requires in_range { flow < length program.now.problem.flows }
    ensures { (stated : Flow) → slice_get program.now.problem.flows flow ≡ Some stated →
        let problem = program.now.problem in
        let is = IsFlowSpread problem (option_copied cutoff.entry) fixed.now flow in
        IfOk result (is (measured problem measure) stated) }
{
    let graph = graph_of(alloc, program, cutoff, fixed, flow, measure)?;
    let least = least(alloc, &graph, 0)?;
    Ok(Spread { graph, least })
}

/// Marks the variables on the way back from a vertex to the start, which has at most so many steps as there are variables.
pub fn mark_back(point: &mut Items<bool>, spread: &Spread, from: usize)
    requires start { 0 < length spread.now.least.before }
    requires within { let steps = spread.now.graph.steps in
        AllByRecursion (λ s. s.variable < length point.old) steps }
    requires back { let edges = edges_in spread.now.graph.steps in
        (ks : List ℕ) × GoesBack edges spread.now.least.before 0 ks from
        × (length ks ≤ length point.old) }
    ensures { let steps = spread.now.graph.steps in
        (ks : List ℕ) → GoesBack (edges_in steps) spread.now.least.before 0 ks from →
        IsMarked (variables_along steps ks) point.old point.new }
{
    let mut vertex = from;
    'back: for _ in 0..point.len() {
        match spread.least.before.as_slice()[vertex] {
            None => return,
            Some(number) => {
                let step = spread.graph.steps.as_slice()[number];
                point.set(step.variable, true);
                vertex = step.edge.from;
            }
        }
    }
}
