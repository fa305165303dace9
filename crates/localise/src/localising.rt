//! The localised rates of a formula. Each term is divided by whole numbers, a unit more for the first ids while the remainder lasts, and an id keeps the strictest of its
//! shares. A tree that is ordered by the ids finds the statement of each.

ghost use Rattle.std.specs.Prelude.{◌≡◌, [], IfOk, IfErr};
ghost use Rattle.localise.specs.Faults.{faults, IsFirst};
ghost use Rattle.localise.specs.Localised.{localised};
ghost use Rattle.localise.specs.Limits.{held_for, rates_at, conflicts_at};

use crate::asking::{ask_constants, ask_different, ask_known, ask_room};
use crate::fault::RateFault;
use crate::sharing::share_all;
use crate::table::{Table, limits_of, table_of};
use merlin_model::Name;
use rate_formula::Formula;
use sqlite_items::Items;
use std::alloc::Global;

/// The localised rates of some ids, in their order and in kbit/s: the least that each is to have, and the most, if it is capped.
#[derive(Drop)]
pub struct Rates {
    pub min: Items<u64>,
    pub max: Items<Option<u64>>,
}

/// The localised rates of the ids under the formula. Otherwise its first fault: an id in a term that is not among these, over all terms; then an id that stands twice in a
/// term, over all terms; then a `max` term whose constants exceed its rate; then an id whose rates conflict.
pub fn localise(alloc: Global, formula: &Formula, ids: &[Name]) -> Result<Rates, RateFault>
    ensures ok { IfOk result (λ rates. (faults formula.now.terms ids.now ≡ [])
        × (rates ≡ localised formula.now.terms ids.now)) }
    ensures err { IfErr result (IsFirst (faults formula.now.terms ids.now)) }
{
    let terms = formula.terms.as_slice();
    let mut table = table_of(alloc, ids)?;
    ask_known(alloc, &table, terms)?;
    ask_different(alloc, terms)?;
    ask_constants(terms)?;
    share_all(&mut table, terms);
    rates_in(alloc, &table, ids)
}

// The rates of the ids in a table, if none conflict.
fn rates_in(alloc: Global, table: &Table<'_>, ids: &[Name]) -> Result<Rates, RateFault>
    ensures ok { IfOk result (λ rates. (conflicts_at (held_for table.now) ids.now ≡ [])
        × (rates ≡ rates_at (held_for table.now) ids.now)) }
    ensures err { IfErr result (IsFirst (conflicts_at (held_for table.now) ids.now)) }
{
    let mut min = Items::new(alloc);
    let mut max = Items::new(alloc);
    for id in ids {
        let limits = limits_of(table, id);
        ask_room(alloc, id, limits)?;
        min.push(limits.floor)?;
        max.push(limits.cap)?;
    }
    Ok(Rates { min, max })
}
