//! Automata of paths, as they are built and run.

ghost use Rattle.std.specs.Prelude.{◌≡◌, ◌<◌, length, IfOk};
ghost use Rattle.path_regex.specs.Functions.{HasNoFunctionUnderNot};
ghost use Rattle.path_automaton.specs.Automata.{step, accepts, lives, AcceptsWordsOf};
ghost use Rattle.path_automaton.specs.Built.{IsBuilt};

use merlin_model::policy::{Path, Symbol};
use path_automaton::{Automaton, AutomatonFault, build};
use std::alloc::Global;

/// What `build` answers.
pub fn automaton(
    alloc: Global,
    path: &Path,
    symbols: &[Symbol],
) -> Result<Automaton, AutomatonFault>
    ensures built { IsBuilt path.now symbols.now result }
    ensures language { HasNoFunctionUnderNot path.now →
        IfOk result (AcceptsWordsOf symbols.now path.now) }
{
    build(alloc, path, symbols)
}

/// What `step` answers.
pub fn state_after(automaton: &Automaton, state: usize, symbol: usize) -> usize
    requires state { state < length automaton.now.steps }
    requires symbol { symbol < automaton.now.width }
    ensures { result ≡ step automaton.now state symbol }
{
    automaton.step(state, symbol)
}

/// What `accepts` answers.
pub fn is_accepting(automaton: &Automaton, state: usize) -> bool
    requires { state < length automaton.now.steps }
    ensures { result ≡ accepts automaton.now state }
{
    automaton.accepts(state)
}

/// What `live` answers.
pub fn is_live(automaton: &Automaton, state: usize) -> bool
    requires { state < length automaton.now.steps }
    ensures { result ≡ lives automaton.now state }
{
    automaton.live(state)
}
