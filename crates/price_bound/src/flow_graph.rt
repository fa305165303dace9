//! Graphs of the edges of one flow.

ghost use Rattle.std.proofs.Props.{props};
ghost use Rattle.graph_search.specs.Graphs.{AreEdgesAmong};
ghost use Rattle.price_bound.specs.Steps.{edges_in};

use graph_search::{Edge, Graph};
use sqlite_items::Items;

/// An edge of a flow, with the number of its variable.
#[derive(Clone, Copy)]
pub struct FlowStep {
    pub variable: usize,
    pub edge: Edge,
}

/// The steps of a flow, between its vertices.
#[derive(Drop)]
pub struct FlowGraph {
    pub vertices: usize,
    pub steps: Items<FlowStep>,
    ghost within: { AreEdgesAmong vertices (edges_in steps) } by { Prim.hlevel props },
}

impl Graph for FlowGraph {
    ghost size = { λ graph. graph.vertices };

    ghost edges_of = { λ graph. edges_in graph.steps };

    fn vertices(&self) -> usize {
        self.vertices
    }

    fn edges(&self) -> usize {
        self.steps.len()
    }

    fn edge(&self, number: usize) -> Edge {
        self.steps.as_slice()[number].edge
    }
}
