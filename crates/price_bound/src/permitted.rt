//! The edges that a flow may take in a box, as a graph.

ghost use Rattle.std.specs.Prelude.{ℕ, ◌≡◌, ◌<◌, ◌+◌, ◌↔◌, length, IfOk, IsTrue, Some, slice_get};
ghost use Rattle.std.specs.Option.{option_copied};
ghost use Rattle.cutoff_program.specs.declared.flow.Flow.{Flow};
ghost use Rattle.cutoff_program.specs.Flows.{variables_of, last_of};
ghost use Rattle.cutoff_program.specs.Easy.{MayIn};
ghost use Rattle.price_bound.specs.Asked.{IsBoxAsked, measured};
ghost use Rattle.merlin_program.specs.Kept.{variable_at};
ghost use Rattle.price_bound.specs.Graphs.{IsPermittedGraph};
ghost use Rattle.price_bound.specs.Steps.{step_of};

use crate::flow_graph::{FlowGraph, FlowStep};
use crate::measure::{Measure, term};
use cutoff_program::flow::FlowEdge;
use graph_search::Edge;
use integer_program::{Fixed, Program};
use merlin_model::OutOfMemory;
use merlin_model::policy::Value;
use merlin_program::MerlinProgram;
use sqlite_items::Items;
use std::alloc::Global;

// Whether a box lets a variable be 1.
fn may_be_taken(
    program: &MerlinProgram,
    cutoff: Option<&Value>,
    fixed: &Fixed,
    variable: usize,
) -> bool
    requires asked { IsBoxAsked program.now.problem (option_copied cutoff) fixed.now }
    requires in_range { variable < length (variables_of program.now.problem) }
    ensures { let at = option_copied cutoff.entry in
        IsTrue result ↔ MayIn program.now.problem at fixed.now variable }
{
    match fixed.get(variable) {
        Some(false) => false,
        _ => program.upper(variable, cutoff),
    }
}

// Whether an edge is one of a flow, and a box lets it be taken.
fn is_permitted(
    program: &MerlinProgram,
    cutoff: Option<&Value>,
    fixed: &Fixed,
    flow: usize,
    variable: usize,
) -> bool
    requires asked { IsBoxAsked program.now.problem (option_copied cutoff) fixed.now }
    requires in_range { variable < length (variables_of program.now.problem) }
    ensures { let at = option_copied cutoff.entry in
        let of = variable_at program.now.problem variable in
        IsTrue result ↔ ((of.flow ≡ flow) × MayIn program.now.problem at fixed.now variable) }
{
    program.edges()[variable].flow == flow && may_be_taken(program, cutoff, fixed, variable)
}

// The step along the edge of a variable, which costs what that adds.
fn step(program: &MerlinProgram, measure: Measure, variable: usize) -> FlowStep
    requires { variable < length (variables_of program.now.problem) }
    ensures { let problem = program.now.problem in
        result ≡ step_of (measured problem measure) variable (variable_at problem variable) }
{
    let FlowEdge {
        from,
        to,
        crosses: _,
    } = program.edges()[variable].edge;
    let cost = u128::from(term(program, measure, variable));
    FlowStep {
        variable,
        edge: Edge { from, to, cost },
    }
}

/// The number of vertices of a flow, where a start and an end count also where there is none.
pub fn vertices_of(program: &MerlinProgram, flow: usize) -> usize
    requires { flow < length program.now.problem.flows }
    ensures { (stated : Flow) → slice_get program.now.problem.flows flow ≡ Some stated →
        result ≡ last_of stated + 1 }
{
    program.problem().flows.as_slice()[flow].vertices.max(2)
}

/// The edges that a flow may take in a box, each with what it adds.
pub fn graph_of(
    alloc: Global,
    program: &MerlinProgram,
    cutoff: Option<&Value>,
    fixed: &Fixed,
    flow: usize,
    measure: Measure,
) -> Result<FlowGraph, OutOfMemory>
    requires asked { IsBoxAsked program.now.problem (option_copied cutoff) fixed.now }
    requires in_range { flow < length program.now.problem.flows }
    ensures { (stated : Flow) → slice_get program.now.problem.flows flow ≡ Some stated →
        let problem = program.now.problem in
        let is = IsPermittedGraph problem (option_copied cutoff.entry) fixed.now flow in
        IfOk result (is (measured problem measure) stated) }
{
    let mut steps = Items::new(alloc);
    for variable in 0..program.variables() {
        if is_permitted(program, cutoff, fixed, flow, variable) {
            steps.push(step(program, measure, variable))?;
        }
    }
    Ok(FlowGraph {
        vertices: vertices_of(program, flow),
        steps,
    })
}
