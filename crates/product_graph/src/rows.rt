//! Which symbols may follow one another in a network.

ghost use Rattle.std.specs.Prelude.{◌≡◌, ◌<◌, ◌↔◌, length, map, IfOk, IsTrue};
ghost use Rattle.merlin_model.specs.Networks.{IsHost};
ghost use Rattle.merlin_model.specs.Words.{at, MayFollow};
ghost use Rattle.product_graph.specs.Followers.{AreOrderedSymbols, AreSymbolsAmong};
ghost use Rattle.product_graph.specs.Followers.{IsFollowerRow, AreFollowerRows, AreFollowersOf};

use crate::followers::Followers;
use merlin_model::OutOfMemory;
use merlin_model::policy::Symbol;
use sqlite_items::Items;
use std::alloc::Global;
use topology::Topology;

/// Whether a symbol at the second location may follow one at the first.
pub fn may_follow(net: &Topology, from: usize, to: usize) -> bool
    requires from { from < length net.now.locations }
    requires to { to < length net.now.locations }
    ensures { IsTrue result ↔ MayFollow net.now (at from, at to) }
{
    from == to || net.port_to(from, to).is_some()
}

/// Whether the symbol may follow at the location and is at no host.
fn may_go_on(net: &Topology, loc: usize, symbol: Symbol) -> bool
    requires loc { loc < length net.now.locations }
    requires within { symbol.loc < length net.now.locations }
    ensures { IsTrue result ↔
        (MayFollow net.now (at loc, at symbol.loc) × (¬ IsHost net.now symbol.loc)) }
{
    may_follow(net, loc, symbol.loc) && net.host(symbol.loc).is_none()
}

/// The numbers of the symbols that may follow at the location and are at no host, in order.
fn row(
    alloc: Global,
    net: &Topology,
    symbols: &[Symbol],
    loc: usize,
) -> Result<Items<usize>, OutOfMemory>
    requires loc { loc < length net.now.locations }
    requires symbols { AreSymbolsAmong (length net.now.locations) symbols.now }
    ensures { IfOk result (IsFollowerRow net.now symbols.now loc (length symbols.now)) }
{
    let mut row = Items::new(alloc);
    for (number, symbol) in symbols.iter().enumerate() {
        if may_go_on(net, loc, *symbol) {
            row.push(number)?;
        }
    }
    Ok(row)
}

/// For each location the numbers of the symbols that may follow there and are at no host.
fn rows(
    alloc: Global,
    net: &Topology,
    symbols: &[Symbol],
) -> Result<Items<Items<usize>>, OutOfMemory>
    requires { AreSymbolsAmong (length net.now.locations) symbols.now }
    ensures count { IfOk result (λ rows. length rows ≡ length net.now.locations) }
    ensures each { IfOk result (AreFollowerRows net.now symbols.now) }
{
    let mut rows = Items::new(alloc);
    for loc in 0..net.locations() {
        rows.push(row(alloc, net, symbols, loc)?)?;
    }
    Ok(rows)
}

/// The location of each symbol.
fn places(alloc: Global, symbols: &[Symbol]) -> Result<Items<usize>, OutOfMemory>
    ensures { IfOk result (λ places. places ≡ map (λ x. x.loc) symbols.now) }
{
    let mut places = Items::new(alloc);
    for symbol in symbols {
        places.push(symbol.loc)?;
    }
    Ok(places)
}

/// How the symbols of a network go on in it. The list has them in their order: by location, at each
/// location first without a function, then with each function.
pub fn followers_in(
    alloc: Global,
    net: &Topology,
    symbols: &[Symbol],
) -> Result<Followers, OutOfMemory>
    requires { AreOrderedSymbols net.now symbols.now }
    ensures { IfOk result (AreFollowersOf net.now symbols.now) }
{
    let rows = rows(alloc, net, symbols)?;
    let places = places(alloc, symbols)?;
    Ok(Followers { rows, places })
}
