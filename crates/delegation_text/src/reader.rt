//! From the bytes to the entries.
ghost use Rattle.std.specs.Prelude.{◌≡◌, ℕ, List, IfOk, IfErr};
ghost use Rattle.serde_json.specs.View.{view};
ghost use Rattle.topology_shape.specs.Json.{IsJson};
ghost use Rattle.delegation_text.specs.declared.entry.TreeEntry.{TreeEntry as Entry};
ghost use Rattle.delegation_text.specs.Trees.{IsDelegationText, RefusesTreeText, AreSameEntries};
ghost use Rattle.delegation_text.specs.Alongside.{names_kept, IsParentFor, scope_above, IsEntryFor, AreEntriesFor, IsTreeFor, IsLost, IsFirstLost, RefusesNodes};
ghost use Rattle.delegation_text.specs.Failing.{FailsAsUnknownNode};

use crate::entry::TreeEntry;
use crate::fault::EntryFault;
use crate::limits::MAX_TREE_NODES;
use crate::names::{names_of, place_before};
use crate::written::{Above, WrittenNode, nodes_in};
use indexmap::IndexSet;
use merlin_base::{Name, OutOfMemory, name_from};
use serde_json::Value;
use std::alloc::Global;
use std::str;

fn value_of(alloc: Global, bytes: &[u8]) -> Result<Value, EntryFault>
    ensures ok { IfOk result (λ v. IsJson bytes.now (view v)) }
    ensures err { IfErr result (RefusesTreeText bytes.now) }
{
    let Ok(text) = str::from_utf8(bytes) else {
        return Err(EntryFault::Json);
    };
    match Value::from_str(alloc, text) {
        Ok(value) => Ok(value),
        Err(fault) if fault.is_memory() => Err(EntryFault::OutOfMemory),
        Err(_) => Err(EntryFault::Json),
    }
}

// The place of the node that the one at this place is under.
fn parent_of(
    alloc: Global,
    names: &IndexSet<Vec<u8>>,
    place: usize,
    above: &Option<Above>,
) -> Result<Option<usize>, EntryFault>
    ensures ok { IfOk result (IsParentFor (names_kept names.now.keys) place above.now) }
    ensures err { IfErr result (FailsAsUnknownNode
        (IsLost (names_kept names.now.keys) place above.now)) }
{
    let Some(above) = above else {
        return Ok(None);
    };
    match place_before(names, place, above.parent.bytes()) {
        Some(parent) => Ok(Some(parent)),
        None => {
            let name = above.parent.copy(alloc)?;
            Err(EntryFault::UnknownNode { name })
        }
    }
}

// The scope, which is empty for the first node.
fn scope_of(alloc: Global, above: &Option<Above>) -> Result<Name, OutOfMemory>
    ensures { IfOk result (λ scope. scope ≡ scope_above above.now) }
{
    match above {
        Some(above) => above.scope.copy(alloc),
        None => name_from(alloc, "".as_bytes()),
    }
}

// The entry of the node at a place.
fn entry_of(
    alloc: Global,
    names: &IndexSet<Vec<u8>>,
    place: usize,
    node: &WrittenNode,
) -> Result<TreeEntry, EntryFault>
    ensures ok { IfOk result (IsEntryFor (names_kept names.now.keys) place node.now) }
    ensures err { IfErr result (FailsAsUnknownNode
        (IsLost (names_kept names.now.keys) place node.now.above)) }
{
    let parent = parent_of(alloc, names, place, &node.above)?;
    let scope = scope_of(alloc, &node.above)?;
    let name = node.name.copy(alloc)?;
    let policy = String::from_str(alloc, node.policy.as_str())?;
    Ok(TreeEntry {
        name,
        policy,
        parent,
        scope,
    })
}

// The entries of the nodes, each under one before it.
fn entries_of(
    alloc: Global,
    names: &IndexSet<Vec<u8>>,
    nodes: &[WrittenNode],
) -> Result<Vec<TreeEntry>, EntryFault>
    ensures ok { IfOk result (λ entries.
        AreEntriesFor (names_kept names.now.keys) nodes.now entries.items) }
    ensures err { IfErr result (FailsAsUnknownNode
        (IsFirstLost (names_kept names.now.keys) nodes.now)) }
{
    let mut entries = Vec::with_capacity(alloc, nodes.len())?;
    for place in 0..nodes.len() {
        let node = &nodes[place];
        let entry = entry_of(alloc, names, place, node)?;
        entries.push(entry)?;
    }
    Ok(entries)
}

// The tree that nodes are.
fn tree_of(alloc: Global, nodes: &[WrittenNode]) -> Result<Vec<TreeEntry>, EntryFault>
    ensures ok { IfOk result (λ entries. IsTreeFor nodes.now entries.items) }
    ensures err { IfErr result (RefusesNodes nodes.now) }
{
    let names = names_of(alloc, nodes)?;
    let entries = entries_of(alloc, &names, nodes)?;
    if nodes.len() > MAX_TREE_NODES {
        return Err(EntryFault::TooManyNodes {
            count: MAX_TREE_NODES as u64 + 1,
        });
    }
    Ok(entries)
}

/// The nodes of the delegation tree that the JSON text describes, in its order.
///
/// # Errors
/// The first rule that is broken, in the order of the variants of `EntryFault`; `OutOfMemory` where memory ran out.
pub fn read(alloc: Global, bytes: &[u8]) -> Result<Vec<TreeEntry>, EntryFault>
    ensures ok { IfOk result (λ entries. IsDelegationText bytes.now entries.items) }
    ensures only { IfOk result (λ entries. (other : List Entry) →
        IsDelegationText bytes.now other → AreSameEntries other entries.items) }
    ensures err { IfErr result (RefusesTreeText bytes.now) }
{
    let value = value_of(alloc, bytes)?;
    let nodes = nodes_in(alloc, &value)?;
    tree_of(alloc, &nodes)
}
