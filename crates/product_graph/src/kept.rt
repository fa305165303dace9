//! The vertices of a product before its end.

ghost use Rattle.std.specs.Prelude.{◌≡◌, ◌++◌, length, IfOk, OnOk};
ghost use Rattle.merlin_model.specs.Networks.{AreDifferent};
ghost use Rattle.path_automaton.specs.Automata.{AutomatonTables};
ghost use Rattle.product_graph.specs.declared.span.Span2.{Span2};
ghost use Rattle.product_graph.specs.Followers.{AreOrderedSymbols, AreFollowersOf};
ghost use Rattle.product_graph.specs.Finding.{IsReadable};
ghost use Rattle.product_graph.specs.Ends.{IsDestination, AreStartsBelow};
ghost use Rattle.product_graph.specs.Kept.{AreKeptOf, AreBetween};

use crate::followers::Followers;
use crate::leading::{Destination, Leading, kept_inside, kept_starts, leading_to_end};
use crate::search::reach;
use crate::span::Span2;
use crate::starts::starts_of;
use crate::vertex_set::{NumberedVertex, VertexSet};
use merlin_model::OutOfMemory;
use merlin_model::policy::Symbol;
use path_automaton::Automaton;
use std::alloc::Global;
use topology::Topology;

/// The vertices of a product before its end, and how many of them are starts.
#[derive(Drop)]
pub struct Kept {
    pub first: usize,
    pub vertices: VertexSet,
}

/// Puts vertices behind others, all of them different.
fn put_all(vertices: &mut VertexSet, more: &[NumberedVertex]) -> Result<(), OutOfMemory>
    requires { AreDifferent (vertices.old ++ more.now) }
    ensures { OnOk result (vertices.new ≡ vertices.old ++ more.now) }
{
    for vertex in more {
        vertices.put(*vertex)?;
    }
    Ok(())
}

/// The vertices of two lists, all of them different.
fn set_of(
    alloc: Global,
    first: &[NumberedVertex],
    inner: &[NumberedVertex],
) -> Result<VertexSet, OutOfMemory>
    requires { AreDifferent (first.now ++ inner.now) }
    ensures { IfOk result (λ vertices. vertices ≡ first.now ++ inner.now) }
{
    let mut vertices = VertexSet::new(alloc);
    put_all(&mut vertices, first)?;
    put_all(&mut vertices, inner)?;
    Ok(vertices)
}

/// Of the vertices that were found those that lead to the end, first the starts.
fn kept_of(
    alloc: Global,
    starts: &[NumberedVertex],
    leading: &Leading,
    net: &Topology,
    symbols: &[Symbol],
    states: usize,
) -> Result<Kept, OutOfMemory>
    requires symbols { AreOrderedSymbols net.now symbols.now }
    requires readable { IsReadable leading.now }
    requires starts { (t : AutomatonTables) × ((span : Span2) ×
        AreStartsBelow net.now symbols.now t span (length symbols.now) starts.now) }
    ensures { IfOk result (AreKeptOf net.now symbols.now states leading.now starts.now) }
{
    let first = kept_starts(alloc, starts, leading)?;
    let inner = kept_inside(alloc, net, symbols, leading, states)?;
    let vertices = set_of(alloc, first.as_slice(), inner.as_slice())?;
    Ok(Kept {
        first: first.len(),
        vertices,
    })
}

/// The vertices between the starts and the end.
pub fn between(
    alloc: Global,
    net: &Topology,
    symbols: &[Symbol],
    followers: &Followers,
    automaton: &Automaton,
    span: Span2,
    destination: Destination,
) -> Result<Kept, OutOfMemory>
    requires symbols { AreOrderedSymbols net.now symbols.now }
    requires followers { AreFollowersOf net.now symbols.now followers.now }
    requires width { automaton.now.width ≡ length symbols.now }
    requires destination { IsDestination symbols.now destination }
    ensures { IfOk result (AreBetween net.now symbols.now followers.now automaton.now span
        destination.host) }
{
    let starts = starts_of(alloc, net, symbols, automaton, span)?;
    let found = reach(alloc, starts.as_slice(), followers, automaton)?;
    let leading = leading_to_end(alloc, found, net, symbols, automaton, destination)?;
    kept_of(
        alloc,
        starts.as_slice(),
        &leading,
        net,
        symbols,
        automaton.states(),
    )
}
