//! The limits of each id, in a tree that is ordered by the ids.

ghost use Rattle.std.specs.Prelude.{◌≡◌, List, ℕ, IfOk, Some, None, is_some, bytes_eq, if◌then◌else◌};
ghost use Rattle.std.specs.Option.{option_map};
ghost use Rattle.localise.specs.Faults.{is_among};
ghost use Rattle.localise.specs.Limits.{held_for, unlimited, limits_from, together, limits_at};

use crate::limits::Limits;
use merlin_model::policy::Bound;
use merlin_model::{Name, OutOfMemory};
use std::alloc::Global;
use std::collections::BTreeMap;

// The limits of each id as far as terms were looked at.
pub(crate) type Table<'a> = BTreeMap<&'a [u8], Limits>;

// The table of these ids, before any term was looked at.
pub(crate) fn table_of<'a>(alloc: Global, ids: &'a [Name]) -> Result<Table<'a>, OutOfMemory>
    ensures { IfOk result (λ table. (name : List ℕ) →
        held_for table name ≡ (if is_among ids.now name then Some unlimited else None)) }
{
    let mut table = BTreeMap::new(alloc);
    for id in ids {
        let start = Limits {
            floor: 0,
            cap: None,
        };
        let _ = table.insert(id.bytes(), start)?;
    }
    Ok(table)
}

// Whether the id has a place in the table.
pub(crate) fn is_known(table: &Table<'_>, id: &Name) -> bool
    ensures { result ≡ is_some (held_for table.now id.now) }
{
    table.contains_key(id.bytes())
}

// The limits of an id; none where it has no place in the table.
pub(crate) fn limits_of(table: &Table<'_>, id: &Name) -> Limits
    ensures { result ≡ limits_at (held_for table.now id.now) }
{
    match table.get(id.bytes()) {
        Some(limits) => *limits,
        None => Limits {
            floor: 0,
            cap: None,
        },
    }
}

// Joins a share to the limits of its id.
pub(crate) fn note(table: &mut Table<'_>, id: &Name, bound: Bound, share: u64)
    ensures { (name : List ℕ) → held_for table.new name ≡ (if bytes_eq id.now name
        then option_map (λ l. together l (limits_from (Some share) bound)) (held_for table.old name)
        else held_for table.old name) }
{
    if let Some(limits) = table.get_mut(id.bytes()) {
        *limits = limits.joined(Limits::from_share(bound, share));
    }
}
