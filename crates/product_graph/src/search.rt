//! Which vertices can be reached: breadth-first exploration (Moore 1959) over the symbols with the
//! states after them.

ghost use Rattle.std.specs.Prelude.{◌≡◌, ◌+◌, ◌↔◌, [], List, length, slice_get, Contains, Some};
ghost use Rattle.std.specs.Prelude.{IfOk, OnOk};
ghost use Rattle.std.specs.List.{AllByRecursion};
ghost use Rattle.product_graph.specs.declared.vertex_set.NumberedVertex.{NumberedVertex};
ghost use Rattle.product_graph.specs.Numbered.{Ground, ground_of, IsOnGround};
ghost use Rattle.product_graph.specs.Finding.{IsNotedAfter, IsFinding, IsAllFound};

use crate::followers::Followers;
use crate::vertex_set::{NumberedVertex, VertexSet};
use merlin_model::OutOfMemory;
use path_automaton::Automaton;
use sqlite_items::Items;
use std::alloc::Global;

/// The vertices that were found, in the order in which they were found, and the edges between their
/// places.
#[derive(Drop)]
pub struct Found {
    pub vertices: VertexSet,
    pub edges: Items<(usize, usize)>,
}

/// The vertices that are in the list.
fn vertices_among(alloc: Global, starts: &[NumberedVertex]) -> Result<VertexSet, OutOfMemory>
    ensures { IfOk result (λ vertices. (p : NumberedVertex) →
        Contains vertices p ↔ Contains starts.now p) }
{
    let mut vertices = VertexSet::new(alloc);
    for start in starts {
        vertices.put(*start)?;
    }
    Ok(vertices)
}

/// Nothing is found but the starts.
fn begin(alloc: Global, starts: &[NumberedVertex]) -> Result<Found, OutOfMemory>
    ensures { (g : Ground) → AllByRecursion (IsOnGround g) starts.now →
        IfOk result (λ found. IsFinding g starts.now found 0 []) }
{
    let vertices = vertices_among(alloc, starts)?;
    Ok(Found {
        vertices,
        edges: Items::new(alloc),
    })
}

/// Notes a vertex that follows the one at the turn, and the edge to it.
fn note(found: &mut Found, turn: usize, next: NumberedVertex) -> Result<(), OutOfMemory>
    ensures { OnOk result (IsNotedAfter turn next found.old found.new) }
{
    let place = found.vertices.put(next)?;
    found.edges.push((turn, place))?;
    Ok(())
}

/// Follows the vertex at the turn by all symbols that may stand behind it inside.
fn spread(
    found: &mut Found,
    turn: usize,
    vertex: NumberedVertex,
    followers: &Followers,
    automaton: &Automaton,
) -> Result<(), OutOfMemory>
    requires width { automaton.now.width ≡ length followers.now.places }
    requires at { slice_get found.old.vertices turn ≡ Some vertex }
    requires on { IsOnGround (ground_of followers.now automaton.now) vertex }
    ensures { (starts : List NumberedVertex) →
        IsFinding (ground_of followers.now automaton.now) starts found.old turn [] →
        OnOk result
        (IsFinding (ground_of followers.now automaton.now) starts found.new (turn + 1) []) }
{
    let symbols = followers.after(vertex.symbol);
    for symbol in symbols {
        let next = NumberedVertex {
            symbol: *symbol,
            state: automaton.step(vertex.state, *symbol),
        };
        note(found, turn, next)?;
    }
    Ok(())
}

/// The vertices that can be reached from the starts, and the edges between them.
pub fn reach(
    alloc: Global,
    starts: &[NumberedVertex],
    followers: &Followers,
    automaton: &Automaton,
) -> Result<Found, OutOfMemory>
    requires width { automaton.now.width ≡ length followers.now.places }
    requires starts { AllByRecursion
        (IsOnGround (ground_of followers.now automaton.now)) starts.now }
    ensures { IfOk result (IsAllFound (ground_of followers.now automaton.now) starts.now) }
{
    let mut found = begin(alloc, starts)?;
    for turn in 0..usize::MAX {
        let Some(vertex) = found.vertices.get(turn) else {
            return Ok(found);
        };
        spread(&mut found, turn, vertex, followers, automaton)?;
    }
    // no memory holds so many vertices
    Err(OutOfMemory)
}
