//! What is asked of a whole tree, and its composition. Whether a tree is accepted is answered without the composition, which may double with each level.

ghost use Rattle.std.specs.Prelude.{◌≡◌, IfOk, IfErr, OnOk, map, sum_by};
ghost use Rattle.topology.specs.Symbols.{network_symbols};
ghost use Rattle.delegation.specs.NamedJoins.{rated_policy};
ghost use Rattle.delegation.specs.NamedTrees.{IsNamedTree, IsCompositionOf, statement_count};
ghost use Rattle.delegation.specs.TreeRules.{IsSoAtEach, KeepsOwnRules, HasSoundSizes, IsAcceptedTree, BreaksTree};

use crate::composing::composition;
use crate::counting::ask_count;
use crate::fault::DelegationFault;
use crate::judging::{ask_acceptance, check_joins};
use crate::node::Node;
use crate::own_policies::rate_each;
use crate::rating::RatedPolicy;
use crate::scopes::ask_scopes;
use policy_expansion::Policy;
use sqlite_items::Items;
use std::alloc::Global;
use topology::Topology;

// Asks what is asked of the joins of the nodes with their children's own policies.
fn ask_joins(
    alloc: Global,
    nodes: &[Node],
    rated: &[RatedPolicy],
    net: &Topology,
) -> Result<(), DelegationFault>
    requires tree { IsNamedTree nodes.now }
    requires sizes { HasSoundSizes net.now (network_symbols net.now) nodes.now }
    requires rated { rated.now ≡ map (λ n. rated_policy n.policy) nodes.now }
    ensures ok { OnOk result (IsAcceptedTree net.now (network_symbols net.now) nodes.now) }
    ensures err { IfErr result (BreaksTree net.now (network_symbols net.now) nodes.now) }
{
    match check_joins(alloc, nodes, rated, net) {
        Ok(joins) => ask_acceptance(alloc, nodes, rated, joins.as_slice(), net),
        Err(fault) => Err(fault),
    }
}

// Asks all that is asked beyond the own policies, which are kept with their rates.
fn ask_beyond(
    alloc: Global,
    nodes: &[Node],
    rated: &[RatedPolicy],
    net: &Topology,
) -> Result<usize, DelegationFault>
    requires tree { IsNamedTree nodes.now }
    requires rated { rated.now ≡ map (λ n. rated_policy n.policy) nodes.now }
    requires own { let symbols = network_symbols net.now in
        IsSoAtEach nodes.now (KeepsOwnRules net.now symbols nodes.now) }
    ensures accepted { OnOk result (IsAcceptedTree net.now (network_symbols net.now) nodes.now) }
    ensures count { IfOk result (λ count.
        count ≡ sum_by (λ n. statement_count n.policy) nodes.now) }
    ensures err { IfErr result (BreaksTree net.now (network_symbols net.now) nodes.now) }
{
    ask_scopes(alloc, nodes)?;
    let count = ask_count(nodes)?;
    ask_joins(alloc, nodes, rated, net)?;
    Ok(count)
}

// The composition of the first node, if the tree is accepted.
fn compose_rated(
    alloc: Global,
    nodes: &[Node],
    rated: Items<RatedPolicy>,
    net: &Topology,
) -> Result<Policy, DelegationFault>
    requires tree { IsNamedTree nodes.now }
    requires rated { rated ≡ map (λ n. rated_policy n.policy) nodes.now }
    requires own { let symbols = network_symbols net.now in
        IsSoAtEach nodes.now (KeepsOwnRules net.now symbols nodes.now) }
    ensures accepted { OnOk result (IsAcceptedTree net.now (network_symbols net.now) nodes.now) }
    ensures composed { IfOk result (IsCompositionOf nodes.now 0) }
    ensures err { IfErr result (BreaksTree net.now (network_symbols net.now) nodes.now) }
{
    ask_beyond(alloc, nodes, rated.as_slice(), net)?;
    Ok(composition(alloc, nodes, rated)?)
}

/// Asks whether a tree is accepted, and answers how many statements its nodes have, each default as one. So many has the composition of the first node.
pub fn judge(alloc: Global, nodes: &[Node], net: &Topology) -> Result<usize, DelegationFault>
    requires { IsNamedTree nodes.now }
    ensures accepted { OnOk result (IsAcceptedTree net.now (network_symbols net.now) nodes.now) }
    ensures count { IfOk result (λ count.
        count ≡ sum_by (λ n. statement_count n.policy) nodes.now) }
    ensures err { IfErr result (BreaksTree net.now (network_symbols net.now) nodes.now) }
{
    match rate_each(alloc, nodes, net) {
        Ok(rated) => ask_beyond(alloc, nodes, rated.as_slice(), net),
        Err(fault) => Err(fault),
    }
}

/// The composition of the first node of a tree that is accepted: what all nodes say together, as one policy.
pub fn compose(alloc: Global, nodes: &[Node], net: &Topology) -> Result<Policy, DelegationFault>
    requires { IsNamedTree nodes.now }
    ensures accepted { OnOk result (IsAcceptedTree net.now (network_symbols net.now) nodes.now) }
    ensures composed { IfOk result (IsCompositionOf nodes.now 0) }
    ensures err { IfErr result (BreaksTree net.now (network_symbols net.now) nodes.now) }
{
    match rate_each(alloc, nodes, net) {
        Ok(rated) => compose_rated(alloc, nodes, rated, net),
        Err(fault) => Err(fault),
    }
}
