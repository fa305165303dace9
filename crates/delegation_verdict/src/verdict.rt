//! From the texts of a delegation tree, a topology and policies to what is replied.

ghost use Rattle.std.specs.Prelude.{◌≡◌, List, ℕ, IfOk, length};
ghost use Rattle.delegation.specs.NamedTrees.{IsNamedTree};
ghost use Rattle.delegation_text.specs.declared.entry.TreeEntry.{TreeEntry as Entry};
ghost use Rattle.delegation_text.specs.Trees.{IsDelegationText, AreKeptEntries};
ghost use Rattle.delegation_verdict.specs.Nodes.{AreTreeNodes, policy_texts};
ghost use Rattle.delegation_verdict.specs.Verdict.{Delegates, IsJudged};

use crate::naming::fault_reply;
use crate::nodes::{NodeFault, nodes_of};
use crate::reply::DelegateReply;
use delegation::laws::{accepted_trees, compositions_of_a_tree};
use delegation::{Node, judge};
use delegation_text::laws::tree_texts;
use delegation_text::{EntryFault, TreeEntry};
use merlin_base::OutOfMemory;
use std::alloc::Global;
use topology::{NetFault, Topology};

// What is replied to a tree over a network.
fn judged_reply(alloc: Global, nodes: &[Node], net: &Topology) -> Result<DelegateReply, OutOfMemory>
    requires { IsNamedTree nodes.now }
    ensures { IfOk result (IsJudged net.now nodes.now) }
{
    accepted_trees();
    compositions_of_a_tree();
    match judge(alloc, nodes, net) {
        Ok(statements) => Ok(DelegateReply::Accepted {
            nodes: nodes.len(),
            statements,
        }),
        Err(fault) => fault_reply(alloc, nodes, net, fault),
    }
}

// What is replied to a tree and the text of a topology, whatever texts the tree comes from.
fn topology_reply(
    alloc: Global,
    nodes: &[Node],
    topology: &[u8],
) -> Result<DelegateReply, OutOfMemory>
    requires { IsNamedTree nodes.now }
    ensures { (tree : List ℕ) (texts : List (List ℕ)) → AreTreeNodes tree texts nodes.now →
        IfOk result (Delegates tree topology.now texts) }
{
    match topology::read(alloc, topology) {
        Ok(net) => judged_reply(alloc, nodes, &net),
        Err(NetFault::OutOfMemory) => Err(OutOfMemory),
        Err(fault) => Ok(DelegateReply::UnreadTopology(fault)),
    }
}

// What is replied to entries, whatever text they come from, and to the other texts.
fn entries_reply(
    alloc: Global,
    entries: &[TreeEntry],
    topology: &[u8],
    policies: &[Vec<u8>],
) -> Result<DelegateReply, OutOfMemory>
    requires kept { AreKeptEntries entries.now }
    requires as_many { length policies.now ≡ length entries.now }
    ensures { (tree : List ℕ) → IsDelegationText tree entries.now →
        IfOk result (Delegates tree topology.now (policy_texts policies.now)) }
{
    match nodes_of(alloc, entries, policies) {
        Ok(nodes) => topology_reply(alloc, &nodes, topology),
        Err(NodeFault::Scope { node, fault }) => Ok(DelegateReply::UnreadScope { node, fault }),
        Err(NodeFault::Policy { node, fault }) => Ok(DelegateReply::UnreadPolicy { node, fault }),
        Err(NodeFault::OutOfMemory) => Err(OutOfMemory),
    }
}

/// What is replied to the text of a tree, the text of a topology, and the texts of the policies that the tree names, one for each node in its order.
pub fn delegate_reply(
    alloc: Global,
    tree: &[u8],
    topology: &[u8],
    policies: &[Vec<u8>],
) -> Result<DelegateReply, OutOfMemory>
    requires { (entries : List Entry) → IsDelegationText tree.now entries →
        length policies.now ≡ length entries }
    ensures { IfOk result (Delegates tree.now topology.now (policy_texts policies.now)) }
{
    tree_texts();
    match delegation_text::read(alloc, tree) {
        Ok(entries) => entries_reply(alloc, &entries, topology, policies),
        Err(EntryFault::OutOfMemory) => Err(OutOfMemory),
        Err(fault) => Ok(DelegateReply::UnreadTree(fault)),
    }
}
