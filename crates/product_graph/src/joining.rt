//! The edges of a product, in order, and the state in which its end is entered.

ghost use Rattle.std.specs.Prelude.{ℕ, ◌≡◌, ◌<◌, ◌++◌, List, length, slice_get, Some, IfOk, OnOk};
ghost use Rattle.std.specs.List.{AllByRecursion};
ghost use Rattle.merlin_model.specs.Networks.{AreDifferent};
ghost use Rattle.product_graph.specs.Followers.{AreOrderedSymbols, follower_numbers};
ghost use Rattle.product_graph.specs.Inside.{AreRising};
ghost use Rattle.product_graph.specs.Numbered.{ground_of, IsOnGround};
ghost use Rattle.product_graph.specs.Ends.{IsDestination, HasNumbersOf};
ghost use Rattle.product_graph.specs.Joining.{AreLasts, IsJoinedNext, AreEdgesBy, AreEdgesOut};
ghost use Rattle.product_graph.specs.Joining.{AreEdgesBelow, KeepsOrder, HaveRisingRows};
ghost use Rattle.product_graph.specs.Joining.{lowered_by, IsLeastBelow};

use crate::followers::Followers;
use crate::leading::{Destination, is_last};
use crate::vertex_set::{NumberedVertex, VertexSet};
use merlin_model::OutOfMemory;
use merlin_model::policy::Symbol;
use path_automaton::Automaton;
use sqlite_items::Items;
use std::alloc::Global;
use topology::Topology;

/// For each vertex whether the host where walks end may follow, in an accepting state.
pub fn lasts_among(
    alloc: Global,
    vertices: &[NumberedVertex],
    net: &Topology,
    symbols: &[Symbol],
    automaton: &Automaton,
    destination: Destination,
) -> Result<Items<bool>, OutOfMemory>
    requires symbols { AreOrderedSymbols net.now symbols.now }
    requires width { automaton.now.width ≡ length symbols.now }
    requires destination { IsDestination symbols.now destination }
    requires vertices { AllByRecursion (HasNumbersOf symbols.now automaton.now) vertices.now }
    ensures { IfOk result
        (AreLasts net.now symbols.now automaton.now destination.host vertices.now) }
{
    let mut lasts = Items::new(alloc);
    for vertex in vertices {
        lasts.push(is_last(net, symbols, automaton, destination, *vertex))?;
    }
    Ok(lasts)
}

/// Adds the edge to the vertex, unless it is not kept, or is the one at this place.
fn join(
    edges: &mut Items<(usize, usize)>,
    kept: &VertexSet,
    place: usize,
    next: NumberedVertex,
) -> Result<(), OutOfMemory>
    ensures { OnOk result (IsJoinedNext kept.now place next edges.old edges.new) }
{
    if let Some(to) = kept.place(next) {
        if to != place {
            edges.push((place, to))?;
        }
    }
    Ok(())
}

/// Adds the edges from the vertex at this place to those that follow it.
fn join_followers(
    edges: &mut Items<(usize, usize)>,
    kept: &VertexSet,
    place: usize,
    vertex: NumberedVertex,
    followers: &Followers,
    automaton: &Automaton,
) -> Result<(), OutOfMemory>
    requires width { automaton.now.width ≡ length followers.now.places }
    requires at { slice_get kept.now place ≡ Some vertex }
    requires on { IsOnGround (ground_of followers.now automaton.now) vertex }
    requires different { AreDifferent kept.now }
    requires order { KeepsOrder (ground_of followers.now automaton.now) kept.now }
    requires rising { AreRising (follower_numbers followers.now vertex.symbol) }
    ensures { OnOk result ((added : List (ℕ × ℕ)) × (edges.new ≡ edges.old ++ added)
        × AreEdgesBy (ground_of followers.now automaton.now) kept.now place vertex
        (follower_numbers followers.now vertex.symbol) added) }
{
    let row = followers.after(vertex.symbol);
    for symbol in row {
        let next = NumberedVertex {
            symbol: *symbol,
            state: automaton.step(vertex.state, *symbol),
        };
        join(edges, kept, place, next)?;
    }
    Ok(())
}

/// Adds the edges from the vertex at this place, the one to the end last.
fn join_vertex(
    edges: &mut Items<(usize, usize)>,
    kept: &VertexSet,
    lasts: &[bool],
    place: usize,
    followers: &Followers,
    automaton: &Automaton,
) -> Result<(), OutOfMemory>
    requires width { automaton.now.width ≡ length followers.now.places }
    requires place { place < length kept.now }
    requires lasts { length lasts.now ≡ length kept.now }
    requires on { AllByRecursion (IsOnGround (ground_of followers.now automaton.now)) kept.now }
    requires different { AreDifferent kept.now }
    requires order { KeepsOrder (ground_of followers.now automaton.now) kept.now }
    requires rising { HaveRisingRows followers.now kept.now }
    ensures { OnOk result ((added : List (ℕ × ℕ)) × (edges.new ≡ edges.old ++ added)
        × AreEdgesOut (ground_of followers.now automaton.now) kept.now lasts.now place added) }
{
    let vertex = kept.as_slice()[place];
    join_followers(edges, kept, place, vertex, followers, automaton)?;
    if lasts[place] {
        edges.push((place, kept.len()))?;
    }
    Ok(())
}

/// The edges between the vertices that are kept, and to the end behind them.
pub fn edges_among(
    alloc: Global,
    kept: &VertexSet,
    lasts: &[bool],
    followers: &Followers,
    automaton: &Automaton,
) -> Result<Items<(usize, usize)>, OutOfMemory>
    requires width { automaton.now.width ≡ length followers.now.places }
    requires lasts { length lasts.now ≡ length kept.now }
    requires on { AllByRecursion (IsOnGround (ground_of followers.now automaton.now)) kept.now }
    requires different { AreDifferent kept.now }
    requires order { KeepsOrder (ground_of followers.now automaton.now) kept.now }
    requires rising { HaveRisingRows followers.now kept.now }
    ensures { IfOk result (AreEdgesBelow (ground_of followers.now automaton.now)
        kept.now lasts.now (length kept.now)) }
{
    let mut edges = Items::new(alloc);
    for place in 0..kept.len() {
        join_vertex(&mut edges, kept, lasts, place, followers, automaton)?;
    }
    Ok(edges)
}

/// The lower one of a state and what is known, where the state counts.
fn lowered(known: Option<usize>, counts: bool, state: usize) -> Option<usize>
    ensures { result ≡ lowered_by known counts state }
{
    match known {
        _ if !counts => known,
        Some(least) if least <= state => known,
        _ => Some(state),
    }
}

/// The least state in which the end is entered from one of the vertices.
pub fn least_entered(
    vertices: &[NumberedVertex],
    lasts: &[bool],
    automaton: &Automaton,
    symbol: usize,
) -> Option<usize>
    requires lasts { length lasts.now ≡ length vertices.now }
    requires symbol { symbol < automaton.now.width }
    requires states { AllByRecursion (λ p. p.state < length automaton.now.steps) vertices.now }
    ensures { IsLeastBelow automaton.now symbol vertices.now lasts.now
        (length vertices.now) result }
{
    let mut least = None;
    for (place, vertex) in vertices.iter().enumerate() {
        least = lowered(least, lasts[place], automaton.step(vertex.state, symbol));
    }
    least
}
