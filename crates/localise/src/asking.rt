//! Whether a formula gives rates, asked of one kind of fault after another.

ghost use Rattle.std.specs.Prelude.{◌≡◌, ◌≢◌, [], List, ℕ, IfErr, OnOk, Option, map, slice_get};
ghost use Rattle.std.specs.Option.{option_copied, option_to_list};
ghost use Rattle.merlin_model.specs.Rates.{ids_of};
ghost use Rattle.localise.specs.declared.fault.RateFault.TheVariants.{UnknownId, RepeatedId, ConstantTooLarge, OutOfMemory};
ghost use Rattle.localise.specs.Faults.{unknown_in, unknown_ids, repeats_in, repeated_ids, has_large_constants, large_terms, conflict_of, IsFirst};
ghost use Rattle.localise.specs.Limits.{is_held};

use crate::fault::RateFault;
use crate::limits::Limits;
use crate::sharing::left_of;
use crate::table::{Table, is_known};
use merlin_model::Name;
use merlin_model::policy::{Bound, Part, Term};
use std::alloc::Global;
use std::collections::BTreeSet;

// The first id of a term that has no place in the table.
fn first_unknown<'t>(table: &Table<'_>, term: &'t Term) -> Option<&'t Name>
    ensures { option_copied result ≡
        slice_get (unknown_in (is_held table.now) term.now) 0 }
{
    for part in term.parts.as_slice() {
        if let Part::Id(id) = part
            && !is_known(table, id)
        {
            return Some(id);
        }
    }
    None
}

// Asks that each id in the terms has a place in the table.
pub(crate) fn ask_known(alloc: Global, table: &Table<'_>, terms: &[Term]) -> Result<(), RateFault>
    ensures ok { OnOk result (unknown_ids (is_held table.now) terms.now ≡ []) }
    ensures err { IfErr result (IsFirst
        (map UnknownId (unknown_ids (is_held table.now) terms.now))) }
{
    for term in terms {
        if let Some(id) = first_unknown(table, term) {
            let id = id.copy(alloc)?;
            return Err(RateFault::UnknownId { id });
        }
    }
    Ok(())
}

// Asks that no id stands twice in a term.
fn ask_term(alloc: Global, term: &Term) -> Result<(), RateFault>
    ensures ok { OnOk result (repeats_in (ids_of term.now) ≡ []) }
    ensures err { IfErr result (IsFirst (map RepeatedId (repeats_in (ids_of term.now)))) }
{
    let mut met = BTreeSet::new(alloc);
    for part in term.parts.as_slice() {
        let Part::Id(id) = part else { continue };
        if !met.insert(id.bytes())? {
            let id = id.copy(alloc)?;
            return Err(RateFault::RepeatedId { id });
        }
    }
    Ok(())
}

// Asks that no id stands twice in any term.
pub(crate) fn ask_different(alloc: Global, terms: &[Term]) -> Result<(), RateFault>
    ensures ok { OnOk result (repeated_ids terms.now ≡ []) }
    ensures err { IfErr result (IsFirst (map RepeatedId (repeated_ids terms.now))) }
{
    for term in terms {
        ask_term(alloc, term)?;
    }
    Ok(())
}

// Whether the constants of a `max` term sum above its rate.
fn is_too_large(term: &Term) -> bool
    ensures { result ≡ has_large_constants term.now }
{
    term.bound == Bound::Max && left_of(term).is_none()
}

// Asks that the constants of no `max` term sum above its rate.
pub(crate) fn ask_constants(terms: &[Term]) -> Result<(), RateFault>
    ensures ok { OnOk result (large_terms terms.now ≡ []) }
    ensures err { IfErr result (IsFirst (map ConstantTooLarge (large_terms terms.now))) }
    ensures no_memory { IfErr result (λ fault. fault ≢ OutOfMemory) }
{
    for (place, term) in terms.iter().enumerate() {
        if is_too_large(term) {
            return Err(RateFault::ConstantTooLarge { term: place + 1 });
        }
    }
    Ok(())
}

// Asks that the limits of an id leave room between them.
pub(crate) fn ask_room(alloc: Global, id: &Name, limits: Limits) -> Result<(), RateFault>
    ensures ok { OnOk result (conflict_of id.now limits.floor limits.cap ≡ None) }
    ensures err { IfErr result (IsFirst
        (option_to_list (conflict_of id.now limits.floor limits.cap))) }
{
    if let Some(max) = limits.cap
        && max < limits.floor
    {
        let id = id.copy(alloc)?;
        return Err(RateFault::LocalisedConflict {
            id,
            min: limits.floor,
            max,
        });
    }
    Ok(())
}
