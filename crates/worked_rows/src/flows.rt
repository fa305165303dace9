//! The flows of guaranteed statements: the products of their automata with a network.

use crate::comparisons::add_symbol;
use crate::lines::Lines;
use cutoff_program::flow::{Flow, FlowEdge};
use merlin_model::policy::Symbol;
use policy_flows::Layout;
use topology::Topology;

// An edge: its two vertices, and behind an @ the number of the directed link that it crosses.
fn add_edge(out: &mut Lines, edge: &FlowEdge) {
    out.add(" ");
    out.add_number(edge.from as u64);
    out.add("-");
    out.add_number(edge.to as u64);
    if let Some(link) = edge.crosses {
        out.add("@");
        out.add_number(link as u64);
    }
}

fn add_edges(out: &mut Lines, edges: &[FlowEdge]) {
    out.add("edges");
    for edge in edges {
        add_edge(out, edge);
    }
    out.add("\n");
}

// The line of a rate with the symbols of the vertices, and the line of the edges.
fn add_flow(out: &mut Lines, net: &Topology, flow: &Flow, symbols: &[Symbol]) {
    out.add("flow");
    out.add_numbers(&[flow.rate, flow.vertices as u64]);
    out.add(":");
    for symbol in symbols {
        add_symbol(out, net, symbol);
    }
    out.add("\n");
    add_edges(out, flow.edges.as_slice());
}

/// Status 0, and two lines for each flow.
pub fn describe(net: &Topology, layout: &Layout, out: &mut Lines) {
    out.add("0\n");
    let flows = layout.problem.flows.as_slice();
    for (flow, symbols) in flows.iter().zip(layout.symbols.as_slice()) {
        add_flow(out, net, flow, symbols.as_slice());
    }
}
