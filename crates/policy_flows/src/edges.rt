//! The edges of a product as edges of a flow, each with the link that it crosses, and the symbols of its vertices.

ghost use Rattle.std.specs.Prelude.{◌≡◌, map, IfOk};
ghost use Rattle.policy_flows.specs.Edges.{link_place, loc_in, edge_in};

use cutoff_program::flow::FlowEdge;
use merlin_model::OutOfMemory;
use merlin_model::network::DirectedLink;
use merlin_model::policy::Symbol;
use product_graph::Vertex;
use sqlite_items::Items;
use std::alloc::Global;

/// The place of the link from one location to another, if there is one.
fn place_between(links: &[DirectedLink], from: usize, to: usize) -> Option<usize>
    ensures { result ≡ link_place links.now from to }
{
    links
        .iter()
        .position(|directed| directed.from == from && directed.to == to)
}

/// The location of a vertex.
fn location(vertices: &[Vertex], place: usize) -> usize
    ensures { result ≡ loc_in vertices.now place }
{
    match vertices.get(place) {
        Some(vertex) => vertex.symbol.loc,
        None => 0,
    }
}

/// An edge of a product over links.
fn edge_over(links: &[DirectedLink], vertices: &[Vertex], from: usize, to: usize) -> FlowEdge
    ensures { result ≡ edge_in links.now vertices.now (from, to) }
{
    FlowEdge {
        from,
        to,
        crosses: place_between(links, location(vertices, from), location(vertices, to)),
    }
}

/// All edges of a product over links.
pub fn edges_over(
    alloc: Global,
    links: &[DirectedLink],
    vertices: &[Vertex],
    edges: &[(usize, usize)],
) -> Result<Items<FlowEdge>, OutOfMemory>
    ensures { IfOk result (λ found. found ≡ map (edge_in links.now vertices.now) edges.now) }
{
    let mut found = Items::new(alloc);
    for edge in edges {
        found.push(edge_over(links, vertices, edge.0, edge.1))?;
    }
    Ok(found)
}

/// The symbols of vertices.
pub fn symbols_of(alloc: Global, vertices: &[Vertex]) -> Result<Items<Symbol>, OutOfMemory>
    ensures { IfOk result (λ found. found ≡ map (λ v. v.symbol) vertices.now) }
{
    let mut found = Items::new(alloc);
    for vertex in vertices {
        found.push(vertex.symbol)?;
    }
    Ok(found)
}
