//! The nodes of a delegation tree, from its entries and the texts of their policies.

ghost use Rattle.std.specs.Prelude.{◌≡◌, IfOk, IfErr, length};
ghost use Rattle.std.specs.List.{AllZip, zip};
ghost use Rattle.delegation_verdict.specs.declared.nodes.NodeFault.TheVariants as node_fault;
ghost use Rattle.delegation_verdict.specs.Nodes.{IsScopeOf, HasNoScope, IsNodeOf, IsNodeFault, IsFirstNodeFault, policy_texts};

use delegation::Node;
use delegation_text::TreeEntry;
use merlin_base::{Name, OutOfMemory as NoMemory};
use merlin_model::policy::Pred;
use policy_parser::{PolicyFault, parse, parse_pred};
use std::alloc::{AllocError, AllocFailed, Global};

/// Why a node is not read: its scope, and then its policy.
#[derive(Drop)]
pub enum NodeFault {
    Scope { node: Name, fault: PolicyFault },
    Policy { node: Name, fault: PolicyFault },
    OutOfMemory,
}

impl From<AllocError> for NodeFault {
    ghost from_gives = { λ _ gives. gives ≡ node_fault.OutOfMemory };

    fn from(_: AllocError) -> Self {
        NodeFault::OutOfMemory
    }
}

impl<T: Drop> From<AllocFailed<T>> for NodeFault {
    ghost from_gives = { λ _ gives. gives ≡ node_fault.OutOfMemory };

    fn from(_: AllocFailed<T>) -> Self {
        NodeFault::OutOfMemory
    }
}

impl From<NoMemory> for NodeFault {
    ghost from_gives = { λ _ gives. gives ≡ node_fault.OutOfMemory };

    fn from(_: NoMemory) -> Self {
        NodeFault::OutOfMemory
    }
}

// The scope of an entry: all packets, where it is under no other.
fn scope_of(alloc: Global, entry: &TreeEntry) -> Result<Pred, PolicyFault>
    ensures ok { IfOk result (IsScopeOf entry.now) }
    ensures err { IfErr result (HasNoScope entry.now) }
{
    match entry.parent {
        None => Ok(Pred::Yes),
        Some(_) => parse_pred(alloc, entry.scope.bytes()),
    }
}

// The node of an entry with this scope, and with the policy of this text.
fn node_within(
    alloc: Global,
    entry: &TreeEntry,
    scope: Pred,
    text: &[u8],
) -> Result<Node, NodeFault>
    requires { IsScopeOf entry.now scope }
    ensures ok { IfOk result (IsNodeOf (entry.now, text.now)) }
    ensures err { IfErr result (IsNodeFault (entry.now, text.now)) }
{
    let name = entry.name.copy(alloc)?;
    match parse(alloc, text) {
        Ok(policy) => Ok(Node {
            name,
            parent: entry.parent,
            scope,
            policy,
        }),
        Err(PolicyFault::OutOfMemory) => Err(NodeFault::OutOfMemory),
        Err(fault) => Err(NodeFault::Policy { node: name, fault }),
    }
}

// The node of an entry with the policy of this text.
fn node_of(alloc: Global, entry: &TreeEntry, text: &[u8]) -> Result<Node, NodeFault>
    ensures ok { IfOk result (IsNodeOf (entry.now, text.now)) }
    ensures err { IfErr result (IsNodeFault (entry.now, text.now)) }
{
    match scope_of(alloc, entry) {
        Ok(scope) => node_within(alloc, entry, scope, text),
        Err(PolicyFault::OutOfMemory) => Err(NodeFault::OutOfMemory),
        Err(fault) => Err(NodeFault::Scope {
            node: entry.name.copy(alloc)?,
            fault,
        }),
    }
}

/// The nodes of entries, each with the policy of the text at its place.
pub(crate) fn nodes_of(
    alloc: Global,
    entries: &[TreeEntry],
    texts: &[Vec<u8>],
) -> Result<Vec<Node>, NodeFault>
    requires { length texts.now ≡ length entries.now }
    ensures ok { IfOk result (λ nodes.
        AllZip IsNodeOf (zip entries.now (policy_texts texts.now)) nodes.items) }
    ensures err { IfErr result (IsFirstNodeFault (zip entries.now (policy_texts texts.now))) }
{
    let mut nodes = Vec::new(alloc);
    for (place, entry) in entries.iter().enumerate() {
        nodes.push(node_of(alloc, entry, &texts[place])?)?;
    }
    Ok(nodes)
}
