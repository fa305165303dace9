//! The vertices at which walks start, and the host where they end.

ghost use Rattle.std.specs.Prelude.{◌≡◌, ◌<◌, ◌↔◌, length, slice_get, Contains, Some, IfOk, IsTrue};
ghost use Rattle.merlin_model.specs.Networks.{IsHost};
ghost use Rattle.merlin_model.specs.Words.{at};
ghost use Rattle.product_graph.specs.Products.{IsSource, dest_of};
ghost use Rattle.product_graph.specs.Followers.{AreOrderedSymbols};
ghost use Rattle.product_graph.specs.Ends.{NamesStart, IsStartSymbol, AreStartsBelow, IsDestinationOf};

use crate::leading::Destination;
use crate::span::Span2;
use crate::vertex_set::NumberedVertex;
use merlin_model::OutOfMemory;
use merlin_model::policy::Symbol;
use path_automaton::Automaton;
use sqlite_items::Items;
use std::alloc::Global;
use topology::Topology;

/// Whether the hosts between which walks lead name the location as a start.
fn is_named(span: Span2, loc: usize) -> bool
    ensures { IsTrue result ↔ NamesStart span loc }
{
    match span {
        Span2::Pair { src, dst: _ } => loc == src,
        Span2::All { dst } => loc != dst,
    }
}

/// Whether walks may start with the symbol.
fn is_start(net: &Topology, span: Span2, symbol: Symbol) -> bool
    requires { symbol.loc < length net.now.locations }
    ensures { IsTrue result ↔ IsStartSymbol net.now span symbol }
{
    symbol.fun.is_none() && is_named(span, symbol.loc) && net.host(symbol.loc).is_some()
}

/// The vertices at which walks start, by location.
pub fn starts_of(
    alloc: Global,
    net: &Topology,
    symbols: &[Symbol],
    automaton: &Automaton,
    span: Span2,
) -> Result<Items<NumberedVertex>, OutOfMemory>
    requires symbols { AreOrderedSymbols net.now symbols.now }
    requires width { automaton.now.width ≡ length symbols.now }
    ensures { IfOk result
        (AreStartsBelow net.now symbols.now automaton.now span (length symbols.now)) }
{
    // there is a first state
    let _ = automaton.states();
    let mut starts = Items::new(alloc);
    for (number, symbol) in symbols.iter().enumerate() {
        if is_start(net, span, *symbol) {
            let state = automaton.step(0, number);
            starts.push(NumberedVertex {
                symbol: number,
                state,
            })?;
        }
    }
    Ok(starts)
}

/// The number of the stay at a host.
fn number_at(symbols: &[Symbol], host: usize) -> usize
    requires { Contains symbols.now (at host) }
    ensures { slice_get symbols.now result ≡ Some (at host) }
{
    for (number, symbol) in symbols.iter().enumerate() {
        if symbol.loc == host && symbol.fun.is_none() {
            return number;
        }
    }
    0
}

/// The host where walks end.
fn host_of(span: Span2) -> usize
    ensures { result ≡ dest_of span }
{
    match span {
        Span2::Pair { src: _, dst } => dst,
        Span2::All { dst } => dst,
    }
}

/// The host where walks end, with the number of the stay there.
pub fn destination_of(net: &Topology, symbols: &[Symbol], span: Span2) -> Destination
    requires symbols { AreOrderedSymbols net.now symbols.now }
    requires host { IsHost net.now (dest_of span) }
    ensures { IsDestinationOf symbols.now span result }
{
    let _ = net.locations();
    let host = host_of(span);
    Destination {
        host,
        symbol: number_at(symbols, host),
    }
}
