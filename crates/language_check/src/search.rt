//! The search for the least word that one automaton accepts and another does not: breadth-first
//! exploration (Moore 1959) of the product of both automata, over triples of a symbol and a state of
//! each, with symbols in order, so that each triple is met by its least word.

ghost use Rattle.std.specs.Prelude.{◌≡◌, ◌<◌, ◌+◌, ◌↔◌, ℕ, List, [], length, slice_get, Some};
ghost use Rattle.std.specs.Prelude.{IfOk, OnOk, IsTrue};
ghost use Rattle.language_check.specs.Trails.{Strays, IsLeastTrail, IsWayBack, AreFromEarlier};
ghost use Rattle.language_check.specs.Trails.{IsInside, IsNoted};
ghost use Rattle.language_check.specs.Ways.{grounds_of, IsSearchingIn, AreConsistent, IsOverSymbols};

use crate::ways::Ways;
use indexmap::IndexSet;
use merlin_model::OutOfMemory;
use path_automaton::Automaton;
use sqlite_items::Items;
use std::alloc::Global;

/// The number of a symbol, and the states of the two automata after a word that ends in it.
#[derive(Clone, Copy, PartialEq, Eq, Hash)]
pub struct Triple {
    pub symbol: usize,
    pub first: usize,
    pub second: usize,
}

/// Notes a triple that was met at the turn, unless it was noted before.
fn note(
    found: &mut IndexSet<Triple>,
    from: &mut Items<usize>,
    turn: usize,
    triple: Triple,
) -> Result<(), OutOfMemory>
    ensures { OnOk result (IsNoted triple turn found.old.keys found.new.keys from.old from.new) }
{
    let (_, new) = found.insert_full(triple)?;
    if new {
        from.push(turn)?;
    }
    Ok(())
}

/// The word that led to a place, from its last number to the first.
fn way_back(
    alloc: Global,
    found: &[Triple],
    from: &[usize],
    turn: usize,
) -> Result<Items<usize>, OutOfMemory>
    requires within { turn < length found.now }
    requires earlier { AreFromEarlier found.now from.now }
    ensures { (u : List ℕ) →
        IsWayBack found.now from.now turn u → IfOk result (λ trail. trail ≡ u) }
{
    let mut trail = Items::new(alloc);
    let mut at = turn;
    'steps: while 0 < at {
        trail.push(found[at].symbol)?;
        at = from[at];
    }
    trail.push(found[at].symbol)?;
    Ok(trail)
}

/// Whether the last host may follow, and the first automaton then accepts and the second does not.
fn strays(ways: &Ways, a: &Automaton, b: &Automaton, triple: Triple) -> bool
    requires whole { AreConsistent ways.now }
    requires first { IsOverSymbols (length ways.now.places) a.now }
    requires second { IsOverSymbols (length ways.now.places) b.now }
    requires inside { IsInside (grounds_of ways.now a.now b.now) (length ways.now.places) triple }
    ensures { IsTrue result ↔ Strays (grounds_of ways.now a.now b.now) triple }
{
    ways.may_end(triple.symbol)
        && a.accepts(a.step(triple.first, ways.end))
        && !b.accepts(b.step(triple.second, ways.end))
}

/// Follows the triple at the turn by all symbols that may stand behind it inside, in order.
fn spread(
    found: &mut IndexSet<Triple>,
    from: &mut Items<usize>,
    turn: usize,
    triple: Triple,
    ways: &Ways,
    a: &Automaton,
    b: &Automaton,
) -> Result<(), OutOfMemory>
    requires whole { AreConsistent ways.now }
    requires first { IsOverSymbols (length ways.now.places) a.now }
    requires second { IsOverSymbols (length ways.now.places) b.now }
    requires before { IsSearchingIn ways.now a.now b.now found.old.keys from.old turn [] }
    requires at { slice_get found.old.keys turn ≡ Some triple }
    requires harmless { ¬ Strays (grounds_of ways.now a.now b.now) triple }
    ensures { OnOk result
        (IsSearchingIn ways.now a.now b.now found.new.keys from.new (turn + 1) []) }
{
    let row = ways.followers(triple.symbol);
    for symbol in row {
        let next = Triple {
            symbol: *symbol,
            first: a.step(triple.first, *symbol),
            second: b.step(triple.second, *symbol),
        };
        note(found, from, turn, next)?;
    }
    Ok(())
}

/// The least word inside behind which the last host strays, from its last number to the first.
pub fn search(
    alloc: Global,
    ways: &Ways,
    a: &Automaton,
    b: &Automaton,
) -> Result<Option<Items<usize>>, OutOfMemory>
    requires whole { AreConsistent ways.now }
    requires first { IsOverSymbols (length ways.now.places) a.now }
    requires second { IsOverSymbols (length ways.now.places) b.now }
    ensures { IfOk result (IsLeastTrail (grounds_of ways.now a.now b.now)) }
{
    let mut found = IndexSet::new(alloc);
    let mut from = Items::new(alloc);
    let start = Triple {
        symbol: ways.start,
        first: a.step(0, ways.start),
        second: b.step(0, ways.start),
    };
    note(&mut found, &mut from, 0, start)?;
    for turn in 0..usize::MAX {
        let Some(triple) = found.get_index(turn) else {
            return Ok(None);
        };
        let triple = *triple;
        if strays(ways, a, b, triple) {
            let trail = way_back(alloc, found.as_slice(), from.as_slice(), turn)?;
            return Ok(Some(trail));
        }
        spread(&mut found, &mut from, turn, triple, ways, a, b)?;
    }
    // no memory holds so many triples
    Err(OutOfMemory)
}
