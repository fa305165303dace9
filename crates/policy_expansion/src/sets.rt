//! The sets by name.
ghost use Rattle.std.specs.Prelude.{◌≡◌, [], IfOk, IfErr, None, is_some, unwrap_or};
ghost use Rattle.policy_expansion.specs.Faults.{duplicate_set, IsFault};
ghost use Rattle.policy_expansion.specs.Tables.{under, AreSetsOf};

use crate::literals::without_repeats;
use crate::policy::ExpansionFault;
use merlin_model::Name;
use policy_grammar::written::{Literal, WrittenSet};
use sqlite_items::Items;
use std::alloc::Global;
use std::collections::BTreeMap;

// The literals of each set by its name, without repeats.
pub(crate) type Sets<'a> = BTreeMap<&'a [u8], Items<Literal>>;

// The sets by name, if their names differ.
pub(crate) fn sets_of<'a>(
    alloc: Global,
    written: &'a [WrittenSet],
) -> Result<Sets<'a>, ExpansionFault>
    ensures ok { IfOk result (λ sets. AreSetsOf written.now sets ×
        (duplicate_set written.now ≡ None)) }
    ensures err { IfErr result (IsFault (duplicate_set written.now)) }
{
    let mut sets = BTreeMap::new(alloc);
    for set in written {
        let literals = without_repeats(alloc, set.literals.as_slice())?;
        if sets.insert(set.name.bytes(), literals)?.is_some() {
            let name = set.name.copy(alloc)?;
            return Err(ExpansionFault::DuplicateSet { name });
        }
    }
    Ok(sets)
}

// Whether a set bears the name.
pub(crate) fn is_known(sets: &Sets<'_>, name: &Name) -> bool
    ensures { result ≡ is_some (under sets.now name.now) }
{
    sets.contains_key(name.bytes())
}

// The literals of the set of this name. None where there is no such set.
pub(crate) fn literals_in<'s>(sets: &'s Sets<'_>, name: &Name) -> &'s [Literal]
    ensures { result.now ≡ unwrap_or (under sets.now name.now) [] }
{
    match sets.get(name.bytes()) {
        Some(literals) => literals.as_slice(),
        None => &[],
    }
}
