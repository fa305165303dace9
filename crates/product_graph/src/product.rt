//! The product of an automaton with a network: forwards from the starts by breadth-first exploration
//! (Moore 1959), backwards from the end along the edges that were found, and what both came to in
//! order.

ghost use Rattle.std.specs.Prelude.{◌≡◌, ◌<◌, ◌++◌, ◌∷◌, [], length, map, IfOk};
ghost use Rattle.std.specs.List.{AllByRecursion};
ghost use Rattle.merlin_model.specs.Networks.{IsHost, AreDifferent};
ghost use Rattle.topology.specs.Symbols.{network_symbols};
ghost use Rattle.product_graph.specs.declared.span.Span2.{Span2};
ghost use Rattle.product_graph.specs.Followers.{AreOrderedSymbols, AreFollowersOf};
ghost use Rattle.product_graph.specs.Numbered.{ground_of, IsOnGround};
ghost use Rattle.product_graph.specs.Ends.{IsDestination};
ghost use Rattle.product_graph.specs.Joining.{KeepsOrder, HaveRisingRows};
ghost use Rattle.product_graph.specs.Kept.{AreBetween, listed_by, AreNumbersBelow, IsAssembled};
ghost use Rattle.product_graph.specs.Kept.{IsNothing};
ghost use Rattle.product_graph.specs.Products.{automaton_of, dest_of, IsProduct};

use crate::followers::Followers;
use crate::joining::{edges_among, lasts_among, least_entered};
use crate::kept::{Kept, between};
use crate::leading::Destination;
use crate::rows::followers_in;
use crate::span::{Product, Span2, Vertex};
use crate::starts::destination_of;
use crate::vertex_set::NumberedVertex;
use merlin_model::OutOfMemory;
use merlin_model::policy::Symbol;
use path_automaton::Automaton;
use sqlite_items::Items;
use std::alloc::Global;
use topology::Topology;

/// The vertices with their symbols, and the end behind them.
fn listed(
    alloc: Global,
    kept: &[NumberedVertex],
    symbols: &[Symbol],
    end: Vertex,
) -> Result<Items<Vertex>, OutOfMemory>
    requires { AllByRecursion (λ p. p.symbol < length symbols.now) kept.now }
    ensures { IfOk result (λ vertices.
        vertices ≡ map (listed_by symbols.now) kept.now ++ end ∷ []) }
{
    let mut vertices = Items::new(alloc);
    for vertex in kept {
        vertices.push(Vertex {
            symbol: symbols[vertex.symbol],
            state: vertex.state,
        })?;
    }
    vertices.push(end)?;
    Ok(vertices)
}

/// The numbers below a bound.
fn numbers_below(alloc: Global, bound: usize) -> Result<Items<usize>, OutOfMemory>
    ensures { IfOk result (AreNumbersBelow bound) }
{
    let mut numbers = Items::new(alloc);
    for number in 0..bound {
        numbers.push(number)?;
    }
    Ok(numbers)
}

/// A product without a vertex.
fn nothing(alloc: Global) -> Product
    ensures { IsNothing result }
{
    Product {
        vertices: Items::new(alloc),
        edges: Items::new(alloc),
        starts: Items::new(alloc),
        end: None,
    }
}

/// The product of these vertices, with this end behind them.
fn assembled(
    alloc: Global,
    kept: &Kept,
    lasts: &[bool],
    symbols: &[Symbol],
    followers: &Followers,
    automaton: &Automaton,
    end: Vertex,
) -> Result<Product, OutOfMemory>
    requires width { automaton.now.width ≡ length followers.now.places }
    requires symbols { length followers.now.places ≡ length symbols.now }
    requires lasts { length lasts.now ≡ length kept.now.vertices }
    requires on { AllByRecursion (IsOnGround (ground_of followers.now automaton.now))
        kept.now.vertices }
    requires different { AreDifferent kept.now.vertices }
    requires order { KeepsOrder (ground_of followers.now automaton.now) kept.now.vertices }
    requires rising { HaveRisingRows followers.now kept.now.vertices }
    ensures { IfOk result (IsAssembled (ground_of followers.now automaton.now) symbols.now
        kept.now lasts.now end) }
{
    let vertices = listed(alloc, kept.vertices.as_slice(), symbols, end)?;
    let edges = edges_among(alloc, &kept.vertices, lasts, followers, automaton)?;
    let starts = numbers_below(alloc, kept.first)?;
    Ok(Product {
        vertices,
        edges,
        starts,
        end: Some(kept.vertices.len()),
    })
}

/// The product whose vertices before the end are kept.
fn product_of(
    alloc: Global,
    kept: &Kept,
    net: &Topology,
    symbols: &[Symbol],
    followers: &Followers,
    automaton: &Automaton,
    destination: Destination,
) -> Result<Product, OutOfMemory>
    requires symbols { AreOrderedSymbols net.now symbols.now }
    requires followers { AreFollowersOf net.now symbols.now followers.now }
    requires width { automaton.now.width ≡ length symbols.now }
    requires destination { IsDestination symbols.now destination }
    requires kept { (span : Span2) × AreBetween net.now symbols.now followers.now automaton.now span
        destination.host kept.now }
    ensures { (span : Span2) → destination.host ≡ dest_of span →
        AreBetween net.now symbols.now followers.now automaton.now span destination.host kept.now →
        IfOk result (IsProduct net.now (automaton_of symbols.now automaton.now) span) }
{
    let vertices = kept.vertices.as_slice();
    let lasts = lasts_among(alloc, vertices, net, symbols, automaton, destination)?;
    match least_entered(vertices, lasts.as_slice(), automaton, destination.symbol) {
        None => Ok(nothing(alloc)),
        Some(state) => {
            let symbol = Symbol {
                loc: destination.host,
                fun: None,
            };
            let end = Vertex { symbol, state };
            assembled(
                alloc,
                kept,
                lasts.as_slice(),
                symbols,
                followers,
                automaton,
                end,
            )
        }
    }
}

/// The product over these symbols.
fn product_over(
    alloc: Global,
    net: &Topology,
    symbols: &[Symbol],
    followers: &Followers,
    automaton: &Automaton,
    span: Span2,
) -> Result<Product, OutOfMemory>
    requires symbols { AreOrderedSymbols net.now symbols.now }
    requires followers { AreFollowersOf net.now symbols.now followers.now }
    requires width { automaton.now.width ≡ length symbols.now }
    requires host { IsHost net.now (dest_of span) }
    ensures { IfOk result (IsProduct net.now (automaton_of symbols.now automaton.now) span) }
{
    let destination = destination_of(net, symbols, span);
    let kept = between(alloc, net, symbols, followers, automaton, span, destination)?;
    product_of(
        alloc,
        &kept,
        net,
        symbols,
        followers,
        automaton,
        destination,
    )
}

/// How the symbols of a network go on in it, which serves all products over this network.
pub fn followers_of(alloc: Global, net: &Topology) -> Result<Followers, OutOfMemory>
    ensures { IfOk result (AreFollowersOf net.now (network_symbols net.now)) }
{
    followers_in(alloc, net, net.symbols())
}

/// The product of an automaton over a network's symbols with the network, between hosts. It is trimmed
/// to what lies on walks, and has no vertex where no walk is allowed.
pub fn build_over(
    alloc: Global,
    net: &Topology,
    followers: &Followers,
    automaton: &Automaton,
    span: Span2,
) -> Result<Product, OutOfMemory>
    requires followers { AreFollowersOf net.now (network_symbols net.now) followers.now }
    requires width { automaton.now.width ≡ length (network_symbols net.now) }
    requires host { IsHost net.now (dest_of span) }
    ensures { IfOk result
        (IsProduct net.now (automaton_of (network_symbols net.now) automaton.now) span) }
{
    let symbols = net.symbols();
    product_over(alloc, net, symbols, followers, automaton, span)
}

/// The product of an automaton over a network's symbols with the network, between hosts: its vertices
/// are symbols with the states after them, by location, function and state. It is trimmed to what lies
/// on walks, and has no vertex where no walk is allowed.
pub fn build(
    alloc: Global,
    net: &Topology,
    automaton: &Automaton,
    span: Span2,
) -> Result<Product, OutOfMemory>
    requires width { automaton.now.width ≡ length (network_symbols net.now) }
    requires host { IsHost net.now (dest_of span) }
    ensures { IfOk result
        (IsProduct net.now (automaton_of (network_symbols net.now) automaton.now) span) }
{
    let followers = followers_of(alloc, net)?;
    build_over(alloc, net, &followers, automaton, span)
}
