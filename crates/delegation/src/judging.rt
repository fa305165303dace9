//! Whether each node is accepted by itself: the join with its children's own policies is checked, and must refine its own policy in localised form.

ghost use Rattle.std.specs.Prelude.{◌≡◌, List, Some, IfOk, IfErr, OnOk, length, map, slice_get};
ghost use Rattle.topology.specs.Symbols.{network_symbols};
ghost use Rattle.policy_check.specs.Checked.{HasAutomata, IsCheckOf};
ghost use Rattle.policy_check.specs.declared.fault.CheckFault.TheVariants as check_fault;
ghost use Rattle.negotiator.specs.Refusals.{IsRefinement, RefusesChild};
ghost use Rattle.policy_expansion.specs.Kept.{IsExpanded, IsWellFormed};
ghost use Rattle.delegation.specs.declared.node.Node.{Node};
ghost use Rattle.delegation.specs.Acceptances.{numbered_form, IsRatedNode, IsFormOf, IsAnswerFor, RefusesManyCells, AreAsked};
ghost use Rattle.delegation.specs.JoinChecks.{AreJoinChecks, RefusesJoin};
ghost use Rattle.delegation.specs.NamedJoins.{rated_policy};
ghost use Rattle.delegation.specs.NamedTrees.{IsNamedTree, own_join};
ghost use Rattle.delegation.specs.TreeRules.{HasSoundSizes, HasSoundJoins, IsAcceptedTree, BreaksTree};

use crate::fault::DelegationFault;
use crate::joining::join;
use crate::laws::localised_forms_keep_all_rules;
use crate::node::Node;
use crate::rating::{RatedPolicy, write};
use merlin_model::OutOfMemory;
use negotiator::{RefineFault, refine};
use policy_check::{CheckFault, Checked, check};
use policy_expansion::Policy;
use std::alloc::Global;
use topology::Topology;

// A rule that the join of a node breaks.
#[derive(Drop)]
struct NodeRefusal {
    node: usize,
    fault: RefineFault,
}

// The join of the node at a place with its children's own policies, as it is written.
fn join_of_node(
    alloc: Global,
    nodes: &[Node],
    rated: &[RatedPolicy],
    place: usize,
    node: &Node,
) -> Result<Policy, OutOfMemory>
    requires rated { rated.now ≡ map (λ n. rated_policy n.policy) nodes.now }
    requires stands { slice_get nodes.now place ≡ Some node.now }
    ensures { IfOk result (λ policy. policy ≡ own_join nodes.now place node.now) }
{
    let joined = join(alloc, nodes, rated, &rated[place], place)?;
    write(alloc, &joined)
}

// The check of a policy that is the join of the node at a place.
fn check_joined(
    alloc: Global,
    place: usize,
    policy: &Policy,
    net: &Topology,
) -> Result<Checked, DelegationFault>
    requires expanded { IsExpanded policy.now }
    requires formed { IsWellFormed policy.now }
    ensures ok { IfOk result (IsCheckOf net.now (network_symbols net.now) policy.now) }
    ensures err { let symbols = network_symbols net.now in
        (nodes : List Node) (node : Node) → policy.now ≡ own_join nodes place node →
        IfErr result (RefusesJoin net.now symbols nodes place node) }
{
    match check(alloc, policy, net) {
        Ok(checked) => Ok(checked),
        Err(CheckFault::OutOfMemory) => Err(DelegationFault::OutOfMemory),
        Err(fault) => Err(DelegationFault::Joined { node: place, fault }),
    }
}

// The check of the join of the node at a place with its children's own policies.
fn check_join(
    alloc: Global,
    nodes: &[Node],
    rated: &[RatedPolicy],
    place: usize,
    node: &Node,
    net: &Topology,
) -> Result<Checked, DelegationFault>
    requires tree { IsNamedTree nodes.now }
    requires sizes { HasSoundSizes net.now (network_symbols net.now) nodes.now }
    requires rated { rated.now ≡ map (λ n. rated_policy n.policy) nodes.now }
    requires stands { slice_get nodes.now place ≡ Some node.now }
    ensures ok { let symbols = network_symbols net.now in
        IfOk result (IsCheckOf net.now symbols (own_join nodes.now place node.now)) }
    ensures err { let symbols = network_symbols net.now in
        IfErr result (RefusesJoin net.now symbols nodes.now place node.now) }
{
    let policy = join_of_node(alloc, nodes, rated, place, node)?;
    check_joined(alloc, place, &policy, net)
}

/// The checks of the joins of all nodes with their children's own policies.
pub(crate) fn check_joins(
    alloc: Global,
    nodes: &[Node],
    rated: &[RatedPolicy],
    net: &Topology,
) -> Result<Vec<Checked>, DelegationFault>
    requires tree { IsNamedTree nodes.now }
    requires sizes { HasSoundSizes net.now (network_symbols net.now) nodes.now }
    requires rated { rated.now ≡ map (λ n. rated_policy n.policy) nodes.now }
    ensures ok { let symbols = network_symbols net.now in IfOk result (λ joins.
        AreJoinChecks net.now symbols nodes.now (length nodes.now) joins.items) }
    ensures sound { let symbols = network_symbols net.now in
        IfOk result (λ _. HasSoundJoins net.now symbols nodes.now) }
    ensures err { IfErr result (BreaksTree net.now (network_symbols net.now) nodes.now) }
{
    let mut joins = Vec::new(alloc);
    for (place, node) in nodes.iter().enumerate() {
        joins.push(check_join(alloc, nodes, rated, place, node, net)?)?;
    }
    Ok(joins)
}

// The check of the localised form of a node's policy, which is refused for want of memory alone.
fn check_form(
    alloc: Global,
    node: &Node,
    own: &RatedPolicy,
    net: &Topology,
) -> Result<Checked, CheckFault>
    requires { IsRatedNode net.now (network_symbols net.now) node.now own.now }
    ensures ok { IfOk result (IsFormOf net.now (network_symbols net.now) node.now) }
    ensures err { IfErr result (λ fault. fault ≡ check_fault.OutOfMemory) }
{
    localised_forms_keep_all_rules();
    let form = write(alloc, own)?;
    check(alloc, &form, net)
}

// Whether the join of a node refines the localised form of its policy.
fn refine_node(
    alloc: Global,
    node: &Node,
    own: &RatedPolicy,
    join: &Checked,
    net: &Topology,
) -> Result<(), RefineFault>
    requires own { IsRatedNode net.now (network_symbols net.now) node.now own.now }
    requires join { HasAutomata (network_symbols net.now) join.now }
    ensures ok { OnOk result
        (IsRefinement net.now (numbered_form net.now node.now) join.now.policy) }
    ensures err { let symbols = network_symbols net.now in IfErr result
        (RefusesChild net.now (numbered_form net.now node.now) join.now.policy symbols) }
{
    match check_form(alloc, node, own, net) {
        Ok(form) => refine(alloc, &form, join, net),
        Err(_) => Err(RefineFault::OutOfMemory),
    }
}

// The rule that the join of the node at a place breaks, if it breaks one.
fn refusal_at(
    alloc: Global,
    place: usize,
    node: &Node,
    own: &RatedPolicy,
    join: &Checked,
    net: &Topology,
) -> Result<Option<NodeRefusal>, DelegationFault>
    requires own { IsRatedNode net.now (network_symbols net.now) node.now own.now }
    requires join { HasAutomata (network_symbols net.now) join.now }
    ensures ok { let symbols = network_symbols net.now in
        IfOk result (IsAnswerFor net.now symbols place node.now join.now.policy) }
    ensures err { IfErr result (RefusesManyCells net.now place node.now join.now.policy) }
{
    match refine_node(alloc, node, own, join, net) {
        Ok(()) => Ok(None),
        Err(RefineFault::TooManyCells { count }) => Err(DelegationFault::Cells {
            node: place,
            count,
        }),
        Err(RefineFault::OutOfMemory) => Err(DelegationFault::OutOfMemory),
        Err(fault) => Ok(Some(NodeRefusal { node: place, fault })),
    }
}

// The first rule that a node's join breaks, over all nodes. Cells are counted at every node before any rule is answered.
fn first_refusal(
    alloc: Global,
    nodes: &[Node],
    rated: &[RatedPolicy],
    joins: &[Checked],
    net: &Topology,
) -> Result<Option<NodeRefusal>, DelegationFault>
    requires tree { IsNamedTree nodes.now }
    requires sound { HasSoundJoins net.now (network_symbols net.now) nodes.now }
    requires rated { rated.now ≡ map (λ n. rated_policy n.policy) nodes.now }
    requires joins { let symbols = network_symbols net.now in
        AreJoinChecks net.now symbols nodes.now (length nodes.now) joins.now }
    ensures ok { let symbols = network_symbols net.now in
        IfOk result (AreAsked net.now symbols nodes.now (length nodes.now)) }
    ensures err { IfErr result (BreaksTree net.now (network_symbols net.now) nodes.now) }
{
    let mut first = None;
    for (place, node) in nodes.iter().enumerate() {
        let refused = refusal_at(alloc, place, node, &rated[place], &joins[place], net)?;
        first = first.or(refused);
    }
    Ok(first)
}

/// Asks that each node is accepted by itself.
pub(crate) fn ask_acceptance(
    alloc: Global,
    nodes: &[Node],
    rated: &[RatedPolicy],
    joins: &[Checked],
    net: &Topology,
) -> Result<(), DelegationFault>
    requires tree { IsNamedTree nodes.now }
    requires sound { HasSoundJoins net.now (network_symbols net.now) nodes.now }
    requires rated { rated.now ≡ map (λ n. rated_policy n.policy) nodes.now }
    requires joins { let symbols = network_symbols net.now in
        AreJoinChecks net.now symbols nodes.now (length nodes.now) joins.now }
    ensures ok { OnOk result (IsAcceptedTree net.now (network_symbols net.now) nodes.now) }
    ensures err { IfErr result (BreaksTree net.now (network_symbols net.now) nodes.now) }
{
    match first_refusal(alloc, nodes, rated, joins, net)? {
        Some(refusal) => Err(DelegationFault::NotAccepted {
            node: refusal.node,
            fault: refusal.fault,
        }),
        None => Ok(()),
    }
}
