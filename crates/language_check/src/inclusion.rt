//! Whether each walk between two hosts that one automaton accepts is accepted by another.

ghost use Rattle.std.specs.Prelude.{◌≡◌, ◌<◌, [], ◌∷◌, length, IfOk};
ghost use Rattle.std.specs.List.{AllByRecursion};
ghost use Rattle.merlin_model.specs.Networks.{IsHost};
ghost use Rattle.language_check.specs.Inclusion.{IsInclusionAnswer, forwards, symbol_at};
ghost use Rattle.language_check.specs.Ways.{AreSymbolsOf};

use crate::search::search;
use crate::ways::ways_between;
use merlin_model::OutOfMemory;
use merlin_model::policy::Symbol;
use path_automaton::Automaton;
use sqlite_items::Items;
use std::alloc::Global;
use topology::Topology;

/// The symbols of a trail, the first one first, and then the end.
fn word_of(
    alloc: Global,
    symbols: &[Symbol],
    mut trail: Items<usize>,
    end: usize,
) -> Result<Items<Symbol>, OutOfMemory>
    requires inside { AllByRecursion (λ k. k < length symbols.now) trail }
    requires end { end < length symbols.now }
    ensures { IfOk result (λ word.
        word ≡ forwards symbols.now trail (symbol_at symbols.now end ∷ [])) }
{
    let mut word = Items::new(alloc);
    while let Some(number) = trail.pop() {
        word.push(symbols[number])?;
    }
    word.push(symbols[end])?;
    Ok(word)
}

/// None where each walk between the two hosts that the first automaton accepts is accepted by the
/// second; else the least walk that is not: of those with the fewest symbols the first one by the
/// numbers of its symbols, position by position. The automata go by the numbers of the symbols in
/// the list, which has each symbol of the network once.
pub fn included(
    alloc: Global,
    a: &Automaton,
    b: &Automaton,
    net: &Topology,
    symbols: &[Symbol],
    src: usize,
    dst: usize,
) -> Result<Option<Items<Symbol>>, OutOfMemory>
    requires symbols { AreSymbolsOf net.now symbols.now }
    requires first { a.now.width ≡ length symbols.now }
    requires second { b.now.width ≡ length symbols.now }
    requires src { IsHost net.now src }
    requires dst { IsHost net.now dst }
    ensures { IfOk result (IsInclusionAnswer net.now symbols.now a.now b.now src dst) }
{
    let _states = (a.states(), b.states());
    let ways = ways_between(alloc, net, symbols, src, dst)?;
    match search(alloc, &ways, a, b)? {
        None => Ok(None),
        Some(trail) => Ok(Some(word_of(alloc, symbols, trail, ways.end)?)),
    }
}
