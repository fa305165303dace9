//! Which states of an automaton lead to an accepting one: marks spread backwards over the steps, round by round, until a round
//! marks none.

ghost use Rattle.std.specs.Prelude.{◌≡◌, ◌<◌, length, IfOk};
ghost use Rattle.std.specs.List.{AllByRecursion, list_any};
ghost use Rattle.path_automaton.specs.Living.{is_set, AreInside, AreLiving, IsSpread};

use merlin_model::OutOfMemory;
use sqlite_items::Items;
use std::alloc::Global;

/// Whether one of the states in the row is known to live.
fn some_live(row: &[usize], living: &[bool]) -> bool
    requires { AllByRecursion (λ next. next < length living.now) row.now }
    ensures { result ≡ list_any (is_set living.now) row.now }
{
    for next in row {
        if living[*next] {
            return true;
        }
    }
    false
}

/// Marks the states with a living state after them, from the last state to the first, and says
/// whether there was a new one.
fn spread(rows: &[Items<usize>], living: &mut Items<bool>) -> bool
    requires { AreInside rows.now (length living.old) }
    ensures { IsSpread rows.now 0 living.old living.new result }
{
    let mut changed = false;
    let mut state = rows.len();
    while 0 < state {
        state -= 1;
        let known = living.as_slice()[state];
        if !known && some_live(rows[state].as_slice(), living.as_slice()) {
            living.set(state, true);
            changed = true;
        }
    }
    changed
}

/// For each state whether it leads to an accepting one.
pub fn living(
    alloc: Global,
    rows: &[Items<usize>],
    accepting: &[bool],
) -> Result<Items<bool>, OutOfMemory>
    requires { AreInside rows.now (length accepting.now) }
    ensures { IfOk result (AreLiving rows.now accepting.now) }
{
    let mut living = Items::from_slice(alloc, accepting)?;
    'rounds: while spread(rows, &mut living) {}
    Ok(living)
}
