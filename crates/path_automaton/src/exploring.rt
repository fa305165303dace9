//! Finding the states of a path: breadth-first exploration, the states in the order in which they were found, and each by the
//! symbols in order.

ghost use Rattle.std.specs.Prelude.{◌≡◌, ◌<◌, ◌≤◌, length};
ghost use Rattle.merlin_model.specs.declared.policy.Path.{Nothing};
ghost use Rattle.std.proofs.Common.{get_or};
ghost use Rattle.path_regex.specs.Normal.{normal_of};
ghost use Rattle.path_automaton.specs.Followed.{IsFollowed, IsExplored};

use crate::fault::AutomatonFault;
use crate::states::States;
use merlin_model::policy::{Path, Symbol};
use sqlite_items::Items;
use std::alloc::Global;

/// The greatest number of states of an automaton.
pub const MAX_STATES: usize = 2048;

/// Follows a state by each of the symbols, and gives the states after them.
fn row(
    alloc: Global,
    states: &mut States,
    state: usize,
    symbols: &[Symbol],
) -> Result<Items<usize>, AutomatonFault>
    requires within { state < length states.old }
    requires few { length states.old ≤ MAX_STATES }
    ensures { let form = get_or states.old state Nothing in
        IsFollowed states.old form symbols.now states.new result }
{
    let mut places = Items::new(alloc);
    for symbol in symbols {
        let place = states.follow(state, *symbol)?;
        if MAX_STATES < states.len() {
            return Err(AutomatonFault::TooManyStates {
                count: MAX_STATES as u64 + 1,
            });
        }
        places.push(place)?;
    }
    Ok(places)
}

/// What was found: the states, and for each state the states after the symbols.
#[derive(Drop)]
pub struct Explored {
    pub states: States,
    pub rows: Items<Items<usize>>,
}

/// Finds the states of a path, state by state in turn and symbol by symbol in order.
pub fn explore(alloc: Global, path: &Path, symbols: &[Symbol]) -> Result<Explored, AutomatonFault>
    ensures { IsExplored (normal_of path.now) symbols.now result }
{
    let mut states = States::new(alloc, path)?;
    let mut rows = Items::new(alloc);
    'turns: while rows.len() < states.len() {
        rows.push(row(alloc, &mut states, rows.len(), symbols)?)?;
    }
    Ok(Explored { states, rows })
}
