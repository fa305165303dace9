//! Dijkstra's search (1959): the cheapest vertex that was reached and is not settled is settled, and
//! the edges that leave it are followed.

ghost use Rattle.std.specs.Prelude.{◌≡◌, ◌<◌, ◌+◌, ◌^◌, ◌↔◌, ℕ, List, length, true, None, Some};
ghost use Rattle.std.specs.Prelude.{IfOk, OnOk, IsTrue, slice_get, slice_set};
ghost use Rattle.graph_search.specs.declared.graph.Edge.{Edge};
ghost use Rattle.graph_search.specs.Graphs.{AreEdgesAmong, cost_of_all, known_at};
ghost use Rattle.graph_search.specs.Departures.{AreDepartures};
ghost use Rattle.graph_search.specs.Searching.{IsSettling, IsReadyToSettle, IsNextSettled, IsEdgeFollowed};
ghost use Rattle.graph_search.specs.Searching.{IsCheaper, WaitWithin};

use crate::blank::{no_costs, no_edges, no_marks};
use crate::departures::Departures;
use crate::frontier::Frontier;
use crate::graph::Edge;
use merlin_model::OutOfMemory;
use sqlite_items::Items;
use std::alloc::Global;

/// The costs and last edges that are known, which vertices are settled, and those that wait.
#[derive(Drop)]
pub struct SearchState {
    pub distance: Items<Option<u128>>,
    pub before: Items<Option<usize>>,
    pub settled: Items<bool>,
    pub frontier: Frontier,
}

/// The state in which the source alone is reached.
fn begin(alloc: Global, vertices: usize, source: usize) -> Result<SearchState, OutOfMemory>
    requires { source < vertices }
    ensures { (edges : List Edge) →
        IfOk result (IsSettling vertices edges source 0 vertices 0) }
{
    let mut distance = no_costs(alloc, vertices)?;
    distance.set(source, Some(0));
    let mut frontier = Frontier::new(alloc);
    frontier.push(0, source)?;
    Ok(SearchState {
        distance,
        before: no_edges(alloc, vertices)?,
        settled: no_marks(alloc, vertices)?,
        frontier,
    })
}

/// Takes out the cheapest vertex that waits and is not settled, with its cost.
fn nearest(search: &mut SearchState) -> Option<(u128, usize)>
    requires { WaitWithin (length search.old.settled) search.old }
    ensures next { (n : ℕ) (edges : List Edge) (source low : ℕ) →
        IsSettling n edges source low n 0 search.old →
        IsNextSettled n edges source result search.new }
    ensures settled { search.new.settled ≡ search.old.settled }
{
    'entries: while let Some((cost, vertex)) = search.frontier.pop() {
        if !search.settled.as_slice()[vertex] {
            return Some((cost, vertex));
        }
    }
    None
}

/// Whether no cost is known, or a greater one.
fn is_cheaper(cost: u128, known: Option<u128>) -> bool
    ensures { IsTrue result ↔ IsCheaper cost known }
{
    match known {
        Some(known) => cost < known,
        None => true,
    }
}

/// Follows an edge from a vertex to which it costs so much to come.
fn follow(
    search: &mut SearchState,
    number: usize,
    edge: Edge,
    cost: u128,
) -> Result<(), OutOfMemory>
    requires sum { cost + edge.cost < 2 ^ 128 }
    requires distance { edge.to < length search.old.distance }
    requires before { edge.to < length search.old.before }
    ensures { OnOk result (IsEdgeFollowed number edge cost search.old search.new) }
{
    let reached = cost + edge.cost;
    if is_cheaper(reached, search.distance.as_slice()[edge.to]) {
        search.distance.set(edge.to, Some(reached));
        search.before.set(edge.to, Some(number));
        search.frontier.push(reached, edge.to)?;
    }
    Ok(())
}

/// Settles the nearest vertex, and follows the edges that leave it.
fn settle(
    search: &mut SearchState,
    edges: &[Edge],
    departures: &Departures,
    cost: u128,
    vertex: usize,
) -> Result<(), OutOfMemory>
    requires within { AreEdgesAmong (length search.old.settled) edges.now }
    requires costs { cost_of_all edges.now < 2 ^ 120 }
    requires departures { let n = length search.old.settled in
        AreDepartures n edges.now (length edges.now) departures.now }
    requires nearest { (source : ℕ) ×
        IsReadyToSettle (length search.old.settled) edges.now source cost vertex search.old }
    ensures searching { let n = length search.old.settled in
        (source : ℕ) → IsReadyToSettle n edges.now source cost vertex search.old →
        OnOk result (IsSettling n edges.now source cost n 0 search.new) }
    ensures settled { OnOk result (search.new.settled ≡ slice_set search.old.settled vertex true) }
{
    search.settled.set(vertex, true);
    let mut next = departures.last.as_slice()[vertex];
    'departures: while let Some(number) = next {
        follow(search, number, edges[number], cost)?;
        next = departures.previous.as_slice()[number];
    }
    Ok(())
}

/// Settles all vertices that can be reached from the source.
pub fn settle_all(
    alloc: Global,
    edges: &[Edge],
    departures: &Departures,
    vertices: usize,
    source: usize,
) -> Result<SearchState, OutOfMemory>
    requires source { source < vertices }
    requires within { AreEdgesAmong vertices edges.now }
    requires costs { cost_of_all edges.now < 2 ^ 120 }
    requires departures { AreDepartures vertices edges.now (length edges.now) departures.now }
    ensures { IfOk result (IsNextSettled vertices edges.now source None) }
{
    let mut search = begin(alloc, vertices, source)?;
    'vertices: while let Some((cost, vertex)) = nearest(&mut search) {
        settle(&mut search, edges, departures, cost, vertex)?;
    }
    Ok(search)
}
