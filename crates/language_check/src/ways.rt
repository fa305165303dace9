//! How words go on between two hosts, by the numbers of symbols.

ghost use Rattle.std.specs.Prelude.{◌≡◌, ◌<◌, ◌↔◌, ℕ, List, length, map, slice_get, Contains, Some};
ghost use Rattle.std.specs.Prelude.{IfOk, IsTrue};
ghost use Rattle.std.specs.List.{AllByRecursion};
ghost use Rattle.merlin_model.specs.Networks.{IsHost};
ghost use Rattle.merlin_model.specs.Words.{at, MayFollow};
ghost use Rattle.language_check.specs.Ways.{followers_in, may_end_after, AreConsistent, AreSymbolsOf};
ghost use Rattle.language_check.specs.Ways.{IsRowAt, AreRowsOf, AreEndsOf, AreWaysOf};
ghost use Rattle.language_check.specs.Ways.{AreAtLocations};

use merlin_model::OutOfMemory;
use merlin_model::policy::Symbol;
use sqlite_items::Items;
use std::alloc::Global;
use topology::Topology;

/// For each location the numbers of the symbols that may follow there and are at no host, in order,
/// and whether the last host may follow; the location of each symbol; and the numbers with which
/// words start and end.
#[derive(Drop)]
pub struct Ways {
    pub rows: Items<Items<usize>>,
    pub last: Items<bool>,
    pub places: Items<usize>,
    pub start: usize,
    pub end: usize,
}

impl Ways {
    /// The numbers of the symbols that may follow a symbol inside, in order.
    pub fn followers(&self, symbol: usize) -> &[usize]
        requires whole { AreConsistent self.now }
        requires within { symbol < length self.now.places }
        ensures { result.now ≡ followers_in self.now symbol }
    {
        self.rows.as_slice()[self.places.as_slice()[symbol]].as_slice()
    }

    /// Whether the last host may follow a symbol.
    pub fn may_end(&self, symbol: usize) -> bool
        requires whole { AreConsistent self.now }
        requires within { symbol < length self.now.places }
        ensures { result ≡ may_end_after self.now symbol }
    {
        self.last.as_slice()[self.places.as_slice()[symbol]]
    }
}

/// Whether a symbol at the second location may follow one at the first.
fn may_follow(net: &Topology, from: usize, to: usize) -> bool
    requires from { from < length net.now.locations }
    requires to { to < length net.now.locations }
    ensures { IsTrue result ↔ MayFollow net.now (at from, at to) }
{
    from == to || net.port_to(from, to).is_some()
}

/// Whether the symbol may follow at the location and is at no host.
fn is_follower(net: &Topology, loc: usize, symbol: Symbol) -> bool
    requires loc { loc < length net.now.locations }
    requires within { symbol.loc < length net.now.locations }
    ensures { IsTrue result ↔
        (MayFollow net.now (at loc, at symbol.loc) × (¬ IsHost net.now symbol.loc)) }
{
    may_follow(net, loc, symbol.loc) && net.host(symbol.loc).is_none()
}

/// The numbers of the symbols that may follow at the location and are at no host, in order.
fn row(
    alloc: Global,
    net: &Topology,
    symbols: &[Symbol],
    loc: usize,
) -> Result<Items<usize>, OutOfMemory>
    requires loc { loc < length net.now.locations }
    requires symbols { AreAtLocations net.now symbols.now }
    ensures { IfOk result (IsRowAt net.now symbols.now loc (length symbols.now)) }
{
    let mut row = Items::new(alloc);
    for (number, symbol) in symbols.iter().enumerate() {
        if is_follower(net, loc, *symbol) {
            row.push(number)?;
        }
    }
    Ok(row)
}

/// For each location the numbers of the symbols that may follow there and are at no host.
fn rows(
    alloc: Global,
    net: &Topology,
    symbols: &[Symbol],
) -> Result<Items<Items<usize>>, OutOfMemory>
    requires { AreAtLocations net.now symbols.now }
    ensures count { IfOk result (λ rows. length rows ≡ length net.now.locations) }
    ensures each { IfOk result (AreRowsOf net.now symbols.now) }
{
    let mut rows = Items::new(alloc);
    for loc in 0..net.locations() {
        rows.push(row(alloc, net, symbols, loc)?)?;
    }
    Ok(rows)
}

/// For each location whether the last host may follow there.
fn ends(alloc: Global, net: &Topology, last: usize) -> Result<Items<bool>, OutOfMemory>
    requires { last < length net.now.locations }
    ensures count { IfOk result (λ ends. length ends ≡ length net.now.locations) }
    ensures each { IfOk result (AreEndsOf net.now last) }
{
    let mut ends = Items::new(alloc);
    for loc in 0..net.locations() {
        ends.push(may_follow(net, loc, last))?;
    }
    Ok(ends)
}

/// The location of each symbol.
fn places(alloc: Global, symbols: &[Symbol]) -> Result<Items<usize>, OutOfMemory>
    ensures { IfOk result (λ places. places ≡ map (λ x. x.loc) symbols.now) }
{
    let mut places = Items::new(alloc);
    for symbol in symbols {
        places.push(symbol.loc)?;
    }
    Ok(places)
}

/// The number of the stay at a location without a function.
fn number_of_stay(symbols: &[Symbol], loc: usize) -> usize
    requires { Contains symbols.now (at loc) }
    ensures { slice_get symbols.now result ≡ Some (at loc) }
{
    for (number, symbol) in symbols.iter().enumerate() {
        if symbol.loc == loc && symbol.fun.is_none() {
            return number;
        }
    }
    0
}

/// How words go on from one host to another.
pub fn ways_between(
    alloc: Global,
    net: &Topology,
    symbols: &[Symbol],
    first: usize,
    last: usize,
) -> Result<Ways, OutOfMemory>
    requires symbols { AreSymbolsOf net.now symbols.now }
    requires first { IsHost net.now first }
    requires last { IsHost net.now last }
    ensures { IfOk result (AreWaysOf net.now symbols.now first last) }
{
    let rows = rows(alloc, net, symbols)?;
    let ends = ends(alloc, net, last)?;
    Ok(Ways {
        rows,
        last: ends,
        places: places(alloc, symbols)?,
        start: number_of_stay(symbols, first),
        end: number_of_stay(symbols, last),
    })
}
