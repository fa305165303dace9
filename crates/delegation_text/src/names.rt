//! The names of nodes: that no two are alike, and which node before a place one is.
ghost use Rattle.std.specs.Prelude.{◌≡◌, ℕ, IfOk, IfErr, IfSome, IfNone};
ghost use Rattle.merlin_model.specs.Networks.{AreDifferent};
ghost use Rattle.delegation_text.specs.Trees.{IsEarlierNode, IsFirstDoubled};
ghost use Rattle.delegation_text.specs.Alongside.{names_kept, written_names};
ghost use Rattle.delegation_text.specs.Failing.{FailsAsDoubled};

use crate::fault::EntryFault;
use crate::written::WrittenNode;
use indexmap::IndexSet;
use std::alloc::Global;

/// The names of the nodes, if no two are alike.
pub(crate) fn names_of(
    alloc: Global,
    nodes: &[WrittenNode],
) -> Result<IndexSet<Vec<u8>>, EntryFault>
    ensures ok { IfOk result (λ names. (names_kept names.keys ≡ written_names nodes.now)
        × AreDifferent (written_names nodes.now)) }
    ensures err { IfErr result (FailsAsDoubled (IsFirstDoubled (written_names nodes.now))) }
{
    let mut names = IndexSet::new(alloc);
    for node in nodes {
        let name = Vec::from_slice(alloc, node.name.bytes())?;
        if !names.insert(name)? {
            let doubled = node.name.copy(alloc)?;
            return Err(EntryFault::DuplicateName { name: doubled });
        }
    }
    Ok(names)
}

/// The place of the node of this name, if it stands before this place.
pub(crate) fn place_before(names: &IndexSet<Vec<u8>>, place: usize, name: &[u8]) -> Option<usize>
    ensures some { IfSome result (IsEarlierNode (names_kept names.now.keys) place name.now) }
    ensures none { IfNone result ((k : ℕ) →
        ¬ IsEarlierNode (names_kept names.now.keys) place name.now k) }
{
    match names.get_index_of(name) {
        Some(found) if found < place => Some(found),
        _ => None,
    }
}
