//! Why there is no policy, asked of one kind of fault after another.
ghost use Rattle.std.specs.Prelude.{◌≡◌, ◌≢◌, ◌+◌, ◌<◌, ◌&&◌, not, length, map, flat_map, find, IfErr, IfSome, IfNone, OnOk, None, is_some};
ghost use Rattle.std.specs.List.{list_any};
ghost use Rattle.std.specs.Option.{option_copied};
ghost use Rattle.policy_expansion.specs.WrittenOut.{written_out};
ghost use Rattle.policy_expansion.specs.Faults.{is_mac as is_ethernet, mixed_set, is_unknown, names_in, unknown_set, count_of_default, too_many, duplicate_id, IsFault};
ghost use Rattle.policy_expansion.specs.declared.policy.ExpansionFault.TheVariants.{OutOfMemory};
ghost use Rattle.policy_expansion.specs.Tables.{under};

use crate::limits::MAX_STATEMENTS;
use crate::pairs::room_after_pairs;
use crate::policy::{ExpansionFault, Statement};
use crate::sets::{Sets, is_known, literals_in};
use merlin_model::Name;
use policy_grammar::written::{Item, Literal, RawPath, WrittenSet};
use std::alloc::Global;
use std::collections::BTreeSet;

fn is_mac(literal: Literal) -> bool
    ensures { result ≡ is_ethernet literal }
{
    matches!(literal, Literal::Mac(_))
}

fn has_macs(literals: &[Literal]) -> bool
    ensures { result ≡ list_any is_ethernet literals.now }
{
    literals.iter().any(|literal| is_mac(*literal))
}

fn has_ips(literals: &[Literal]) -> bool
    ensures { result ≡ list_any (λ literal. not (is_ethernet literal)) literals.now }
{
    literals.iter().any(|literal| !is_mac(*literal))
}

// Asks that no set has addresses of both kinds.
pub(crate) fn ask_kinds(alloc: Global, sets: &[WrittenSet]) -> Result<(), ExpansionFault>
    ensures ok { OnOk result (mixed_set sets.now ≡ None) }
    ensures err { IfErr result (IsFault (mixed_set sets.now)) }
{
    for set in sets {
        let literals = set.literals.as_slice();
        if has_macs(literals) && has_ips(literals) {
            let name = set.name.copy(alloc)?;
            return Err(ExpansionFault::MixedSet { name });
        }
    }
    Ok(())
}

// The first name in an item that no set bears.
fn first_unknown<'i>(sets: &Sets<'_>, item: &'i Item) -> Option<&'i Name>
    ensures { option_copied result ≡ find (is_unknown (under sets.now)) (names_in item.now) }
{
    match item {
        Item::One(_) => None,
        Item::ForEach { outer, inner, .. } => {
            if !is_known(sets, outer) {
                Some(outer)
            } else if !is_known(sets, inner) {
                Some(inner)
            } else {
                None
            }
        }
    }
}

// Asks that each name is that of a set.
pub(crate) fn ask_names(
    alloc: Global,
    sets: &Sets<'_>,
    items: &[Item],
) -> Result<(), ExpansionFault>
    ensures ok { OnOk result (unknown_set (under sets.now) items.now ≡ None) }
    ensures err { IfErr result (IsFault (unknown_set (under sets.now) items.now)) }
{
    for item in items {
        if let Some(name) = first_unknown(sets, item) {
            let name = name.copy(alloc)?;
            return Err(ExpansionFault::UnknownSet { name });
        }
    }
    Ok(())
}

// What the statements of an item leave of some room. None where they do not fit.
fn room_after(sets: &Sets<'_>, item: &Item, room: usize) -> Option<usize>
    ensures some { IfSome result (λ left.
        left + length (written_out (under sets.now) item.now) ≡ room) }
    ensures none { IfNone result (room < length (written_out (under sets.now) item.now)) }
{
    match item {
        Item::One(_) => room.checked_sub(1),
        Item::ForEach { outer, inner, .. } => {
            room_after_pairs(literals_in(sets, outer), literals_in(sets, inner), room)
        }
    }
}

// Asks that there are not too many statements, with the default.
pub(crate) fn ask_count(
    sets: &Sets<'_>,
    items: &[Item],
    default_path: &Option<RawPath>,
) -> Result<(), ExpansionFault>
    ensures ok { OnOk result (too_many
        (length (flat_map (written_out (under sets.now)) items.now)
        + count_of_default default_path.now) ≡ None) }
    ensures err { IfErr result (IsFault (too_many
        (length (flat_map (written_out (under sets.now)) items.now)
        + count_of_default default_path.now))) }
    ensures no_memory { IfErr result (λ fault. fault ≢ OutOfMemory) }
{
    let mut room = MAX_STATEMENTS - usize::from(default_path.is_some());
    for item in items {
        let Some(left) = room_after(sets, item, room) else {
            let count = MAX_STATEMENTS as u64 + 1;
            return Err(ExpansionFault::TooManyStatements { count });
        };
        room = left;
    }
    Ok(())
}

// Asks that the ids differ.
pub(crate) fn ask_ids(alloc: Global, statements: &[Statement]) -> Result<(), ExpansionFault>
    ensures ok { OnOk result (duplicate_id (map (λ s. s.id) statements.now) ≡ None) }
    ensures err { IfErr result (IsFault (duplicate_id (map (λ s. s.id) statements.now))) }
{
    let mut met = BTreeSet::new(alloc);
    for statement in statements {
        if !met.insert(statement.id.bytes())? {
            let id = statement.id.copy(alloc)?;
            return Err(ExpansionFault::DuplicateId { id });
        }
    }
    Ok(())
}
