//! The branch of a guaranteed statement: the vertices of its walk, each with the next one.

ghost use Rattle.std.specs.Prelude.{◌≡◌, ◌<◌, length, Contains, IfOk};
ghost use Rattle.std.specs.List.{AllByRecursion};
ghost use Rattle.product_graph.specs.Products.{automaton_of};
ghost use Rattle.path_automaton.specs.Automata.{number_in, is_same_symbol};
ghost use Rattle.openflow_rules.specs.WalkBranches.{place_after, IsBeforeLast, AreStepsAlong, IsWalkBranch};

use merlin_model::OutOfMemory;
use merlin_model::policy::Symbol;
use path_automaton::Automaton;
use product_graph::Vertex;
use rule_tables::{Branch, Step};
use sqlite_items::Items;
use std::alloc::Global;

/// Whether two symbols are the same.
fn is_same(one: Symbol, other: Symbol) -> bool
    ensures { result ≡ is_same_symbol one other }
{
    one.loc == other.loc && one.fun == other.fun
}

/// The number of a symbol among others, or how many these are.
fn number_of(symbols: &[Symbol], symbol: Symbol) -> usize
    ensures number { result ≡ number_in symbols.now symbol }
    ensures among { Contains symbols.now symbol → result < length symbols.now }
{
    for (number, other) in symbols.iter().enumerate() {
        if is_same(symbol, *other) {
            return number;
        }
    }
    symbols.len()
}

/// The symbols before the last one.
fn before_last(walk: &[Symbol]) -> &[Symbol]
    ensures { IsBeforeLast walk.now result.now }
{
    match walk.split_last() {
        Some((_, inner)) => inner,
        None => walk,
    }
}

/// The place after this one, if it is one of so many.
fn next_place(count: usize, place: usize) -> Option<usize>
    requires { place < count }
    ensures { result ≡ place_after count place }
{
    if place + 1 < count {
        Some(place + 1)
    } else {
        None
    }
}

/// The vertices of these symbols, each with the next one.
fn steps_along(
    alloc: Global,
    symbols: &[Symbol],
    automaton: &Automaton,
    inner: &[Symbol],
) -> Result<Items<Step>, OutOfMemory>
    requires width { automaton.now.width ≡ length symbols.now }
    requires symbols { AllByRecursion (Contains symbols.now) inner.now }
    ensures { IfOk result
        (AreStepsAlong (automaton_of symbols.now automaton.now) inner.now) }
{
    // there is a first state
    let _ = automaton.states();
    let mut steps = Items::new(alloc);
    let mut state = 0;
    for (place, symbol) in inner.iter().enumerate() {
        state = automaton.step(state, number_of(symbols, *symbol));
        let vertex = Vertex {
            symbol: *symbol,
            state,
        };
        let next = next_place(inner.len(), place);
        steps.push(Step { vertex, next })?;
    }
    Ok(steps)
}

/// The branch of a walk: its vertices before the end, in the automaton of its statement, each with
/// the next one.
pub fn walk_branch(
    alloc: Global,
    symbols: &[Symbol],
    automaton: &Automaton,
    walk: &[Symbol],
    dest: usize,
) -> Result<Branch, OutOfMemory>
    requires width { automaton.now.width ≡ length symbols.now }
    requires symbols { AllByRecursion (Contains symbols.now) walk.now }
    ensures { IfOk result
        (IsWalkBranch (automaton_of symbols.now automaton.now) walk.now dest) }
{
    let steps = steps_along(alloc, symbols, automaton, before_last(walk))?;
    Ok(Branch { dest, steps })
}
