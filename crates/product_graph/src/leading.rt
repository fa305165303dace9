//! Which of the vertices that were found lead to the end, and these in order.

ghost use Rattle.std.specs.Prelude.{ℕ, ◌≡◌, ◌<◌, ◌⊎◌, ◌↔◌, ◌++◌, List, length, Contains, None};
ghost use Rattle.std.specs.Prelude.{IfOk, OnOk, IsTrue};
ghost use Rattle.std.specs.List.{AllByRecursion};
ghost use Rattle.product_graph.specs.declared.followers.Followers.{Followers};
ghost use Rattle.product_graph.specs.declared.vertex_set.NumberedVertex.{NumberedVertex};
ghost use Rattle.product_graph.specs.Inside.{AreEdgesInside};
ghost use Rattle.product_graph.specs.Followers.{AreOrderedSymbols};
ghost use Rattle.product_graph.specs.Numbered.{ground_of};
ghost use Rattle.product_graph.specs.Finding.{IsAllFound, JoinsEnd, AreLeading, IsSeenLeading};
ghost use Rattle.product_graph.specs.Finding.{IsReadable};
ghost use Rattle.product_graph.specs.Finding.{AreKeptStarts, AreKeptAmong};
ghost use Rattle.product_graph.specs.Ends.{IsDestination, IsLastBy, HasNumbersOf};
ghost use Rattle.product_graph.specs.Ends.{HasSymbolAndBelow, IsInsideBelow};

use crate::backwards::edges_left;
use crate::rows::may_follow;
use crate::search::Found;
use crate::vertex_set::{NumberedVertex, VertexSet};
use graph_search::Potentials;
use merlin_model::OutOfMemory;
use merlin_model::policy::Symbol;
use path_automaton::Automaton;
use sqlite_items::Items;
use std::alloc::Global;
use topology::Topology;

/// The host where walks end, and the number of the stay there.
#[derive(Clone, Copy)]
pub struct Destination {
    pub host: usize,
    pub symbol: usize,
}

/// The vertices that were found, and by place how many edges lead to the end, None where none do.
#[derive(Drop)]
pub struct Leading {
    pub vertices: VertexSet,
    pub distance: Items<Option<u128>>,
}

/// Whether the host where walks end may follow the vertex, and is then entered in an accepting state.
pub fn is_last(
    net: &Topology,
    symbols: &[Symbol],
    automaton: &Automaton,
    destination: Destination,
    vertex: NumberedVertex,
) -> bool
    requires symbols { AreOrderedSymbols net.now symbols.now }
    requires width { automaton.now.width ≡ length symbols.now }
    requires destination { IsDestination symbols.now destination }
    requires vertex { HasNumbersOf symbols.now automaton.now vertex }
    ensures { IsTrue result ↔
        IsLastBy net.now symbols.now automaton.now destination.host vertex }
{
    may_follow(net, symbols[vertex.symbol].loc, destination.host)
        && automaton.accepts(automaton.step(vertex.state, destination.symbol))
}

/// Adds an edge to the end, behind all vertices, from each that is one of the last.
fn join_end(
    edges: &mut Items<(usize, usize)>,
    vertices: &[NumberedVertex],
    net: &Topology,
    symbols: &[Symbol],
    automaton: &Automaton,
    destination: Destination,
) -> Result<(), OutOfMemory>
    requires symbols { AreOrderedSymbols net.now symbols.now }
    requires width { automaton.now.width ≡ length symbols.now }
    requires destination { IsDestination symbols.now destination }
    requires vertices { AllByRecursion (HasNumbersOf symbols.now automaton.now) vertices.now }
    ensures { OnOk result ((e : ℕ × ℕ) → Contains edges.new e ↔ (Contains edges.old e
        ⊎ JoinsEnd (IsLastBy net.now symbols.now automaton.now destination.host) vertices.now e)) }
{
    for (place, vertex) in vertices.iter().enumerate() {
        if is_last(net, symbols, automaton, destination, *vertex) {
            edges.push((place, vertices.len()))?;
        }
    }
    Ok(())
}

/// Which of the vertices that were found lead to the end.
pub fn leading_to_end(
    alloc: Global,
    found: Found,
    net: &Topology,
    symbols: &[Symbol],
    automaton: &Automaton,
    destination: Destination,
) -> Result<Leading, OutOfMemory>
    requires symbols { AreOrderedSymbols net.now symbols.now }
    requires width { automaton.now.width ≡ length symbols.now }
    requires destination { IsDestination symbols.now destination }
    requires vertices { AllByRecursion (HasNumbersOf symbols.now automaton.now) found.vertices }
    requires edges { AreEdgesInside (length found.vertices) found.edges None }
    ensures { (followers : Followers) (starts : List NumberedVertex) →
        length followers.places ≡ length symbols.now →
        IsAllFound (ground_of followers automaton.now) starts found → IfOk result
        (AreLeading (ground_of followers automaton.now)
        (IsLastBy net.now symbols.now automaton.now destination.host) starts) }
{
    let Found {
        vertices,
        mut edges,
    } = found;
    join_end(
        &mut edges,
        vertices.as_slice(),
        net,
        symbols,
        automaton,
        destination,
    )?;
    let Potentials {
        distance,
        before: _,
    } = edges_left(alloc, edges, vertices.len())?;
    Ok(Leading { vertices, distance })
}

/// Whether the vertex was found, and leads to the end.
fn is_seen_leading(leading: &Leading, vertex: NumberedVertex) -> bool
    requires { IsReadable leading.now }
    ensures { IsTrue result ↔ IsSeenLeading leading.now vertex }
{
    match leading.vertices.place(vertex) {
        Some(place) => leading.distance.as_slice()[place].is_some(),
        None => false,
    }
}

/// Of the starts those that lead to the end.
pub fn kept_starts(
    alloc: Global,
    starts: &[NumberedVertex],
    leading: &Leading,
) -> Result<Items<NumberedVertex>, OutOfMemory>
    requires { IsReadable leading.now }
    ensures { IfOk result (AreKeptStarts leading.now starts.now) }
{
    let mut kept = Items::new(alloc);
    for start in starts {
        if is_seen_leading(leading, *start) {
            kept.push(*start)?;
        }
    }
    Ok(kept)
}

/// Keeps the vertices with this symbol that lead to the end, by state.
fn keep_states(
    kept: &mut Items<NumberedVertex>,
    leading: &Leading,
    symbol: usize,
    states: usize,
) -> Result<(), OutOfMemory>
    requires { IsReadable leading.now }
    ensures { OnOk result ((added : List NumberedVertex) × (kept.new ≡ kept.old ++ added)
        × AreKeptAmong (HasSymbolAndBelow symbol states) leading.now added) }
{
    for state in 0..states {
        let vertex = NumberedVertex { symbol, state };
        if is_seen_leading(leading, vertex) {
            kept.push(vertex)?;
        }
    }
    Ok(())
}

/// The vertices at no host that lead to the end, by symbol and state.
pub fn kept_inside(
    alloc: Global,
    net: &Topology,
    symbols: &[Symbol],
    leading: &Leading,
    states: usize,
) -> Result<Items<NumberedVertex>, OutOfMemory>
    requires symbols { AreOrderedSymbols net.now symbols.now }
    requires readable { IsReadable leading.now }
    ensures { IfOk result (AreKeptAmong
        (IsInsideBelow net.now symbols.now states (length symbols.now)) leading.now) }
{
    let mut kept = Items::new(alloc);
    for (number, symbol) in symbols.iter().enumerate() {
        if net.host(symbol.loc).is_none() {
            keep_states(&mut kept, leading, number, states)?;
        }
    }
    Ok(kept)
}
