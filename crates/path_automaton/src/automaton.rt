//! The automaton of a path, by Brzozowski's construction (1964): its states are the normal forms of the path's derivatives.

ghost use Rattle.std.specs.Prelude.{◌≡◌, ◌<◌, length, map, IfOk};
ghost use Rattle.path_regex.specs.Derivatives.{takes_empty};
ghost use Rattle.path_regex.specs.Functions.{HasNoFunctionUnderNot};
ghost use Rattle.path_automaton.specs.Automata.{step, accepts, lives, AcceptsWordsOf};
ghost use Rattle.path_automaton.specs.Built.{IsBuilt};

use crate::classes::Classes;
use crate::exploring::{Explored, explore};
use crate::fault::AutomatonFault;
use crate::living::living;
use crate::states::States;
use merlin_model::OutOfMemory;
use merlin_model::policy::{Path, Symbol};
use sqlite_items::Items;
use std::alloc::Global;
use std::marker::Model;

/// A deterministic automaton over numbered symbols. Its first state is 0.
#[derive(Drop)]
pub struct Automaton {
    rows: Items<Items<usize>>,
    classes: Items<usize>,
    accepting: Items<bool>,
    living: Items<bool>,
}

impl Model for Automaton {
    ghost use Rattle.path_automaton.specs.Automata.{AutomatonTables};

    ghost Value = { AutomatonTables };

    ghost use Rattle.path_automaton.specs.Inside.{tables_of, AreWhole};

    ghost view = { λ a. tables_of a.rows a.classes a.accepting a.living };

    ghost invariant = { λ a. AreWhole a.rows a.classes a.accepting a.living };
}

impl Automaton {
    /// The number of states. There is a first one.
    pub fn states(&self) -> usize
        ensures count { result ≡ length self.now.steps }
        ensures some { 0 < result }
    {
        self.rows.len()
    }

    /// The number of symbols.
    pub fn symbols(&self) -> usize
        ensures { result ≡ self.now.width }
    {
        self.classes.len()
    }

    /// The state after a symbol, given by its number.
    pub fn step(&self, state: usize, symbol: usize) -> usize
        requires state { state < length self.now.steps }
        requires symbol { symbol < self.now.width }
        ensures after { result ≡ step self.now state symbol }
        ensures within { result < length self.now.steps }
    {
        self.rows.as_slice()[state].as_slice()[self.classes.as_slice()[symbol]]
    }

    /// Whether the state accepts.
    pub fn accepts(&self, state: usize) -> bool
        requires { state < length self.now.steps }
        ensures { result ≡ accepts self.now state }
    {
        self.accepting.as_slice()[state]
    }

    /// Whether some word is accepted from the state.
    pub fn live(&self, state: usize) -> bool
        requires { state < length self.now.steps }
        ensures { result ≡ lives self.now state }
    {
        self.living.as_slice()[state]
    }
}

/// For each state whether its normal form takes the empty word.
fn accepting(alloc: Global, states: &States) -> Result<Items<bool>, OutOfMemory>
    ensures { IfOk result (λ flags. flags ≡ map takes_empty states.now) }
{
    let mut flags = Items::new(alloc);
    for state in 0..states.len() {
        flags.push(states.accepts(state))?;
    }
    Ok(flags)
}

/// The automaton of a path over the symbols, of at most `MAX_STATES` states. Its states are the normal
/// forms that are reached from the path, numbered in the order in which they are found: states in
/// turn, symbols in order. Where no function stands under a Not it accepts the words of the path.
pub fn build(alloc: Global, path: &Path, symbols: &[Symbol]) -> Result<Automaton, AutomatonFault>
    ensures built { IsBuilt path.now symbols.now result }
    ensures language { HasNoFunctionUnderNot path.now →
        IfOk result (AcceptsWordsOf symbols.now path.now) }
{
    let Classes { numbers, firsts } = Classes::new(alloc, path, symbols)?;
    let Explored { states, rows } = explore(alloc, path, firsts.as_slice())?;
    let accepting = accepting(alloc, &states)?;
    let living = living(alloc, rows.as_slice(), accepting.as_slice())?;
    Ok(Automaton {
        rows,
        classes: numbers,
        accepting,
        living,
    })
}
