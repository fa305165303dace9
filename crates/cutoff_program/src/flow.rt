//! What a problem is made of.

use merlin_model::network::DirectedLink;
use merlin_model::policy::Objective;
use sqlite_items::Items;

/// An edge of a product, with the place of the link that it crosses if it leads to another location.
#[derive(Clone, Copy)]
pub struct FlowEdge {
    pub from: usize,
    pub to: usize,
    pub crosses: Option<usize>,
}

/// What a guaranteed statement asks for: its rate over a path through its product, whose vertices are numbered from the start,
/// which is 0, to the end, which is the last. Where no walk is allowed there is no vertex.
#[derive(Drop)]
pub struct Flow {
    pub rate: u64,
    pub vertices: usize,
    pub edges: Items<FlowEdge>,
}

/// The flows of the guaranteed statements over the links of a network.
#[derive(Drop)]
pub struct Problem {
    pub flows: Items<Flow>,
    pub links: Items<DirectedLink>,
    pub objective: Objective,
}

/// An edge of a flow, with the number and the rate of the flow.
#[derive(Clone, Copy)]
pub struct Variable {
    pub flow: usize,
    pub rate: u64,
    pub edge: FlowEdge,
}
