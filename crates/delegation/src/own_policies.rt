//! The nodes' own policies: each is checked over the network, and has the localised rates of its statements.

ghost use Rattle.std.specs.Prelude.{◌≡◌, List, Some, IfOk, IfErr, map, slice_get};
ghost use Rattle.rate_formula.specs.Usage.{ids_in};
ghost use Rattle.localise.specs.Localised.{localised};
ghost use Rattle.policy_check.specs.Rules.{listed_ids, KeepsAllRules};
ghost use Rattle.topology.specs.Symbols.{network_symbols};
ghost use Rattle.delegation.specs.declared.fault.DelegationFault.TheVariants as fault;
ghost use Rattle.delegation.specs.declared.node.Node.{Node};
ghost use Rattle.delegation.specs.Asking.{IsSoBefore};
ghost use Rattle.delegation.specs.NamedJoins.{rated_policy};
ghost use Rattle.delegation.specs.NamedTrees.{IsTreeNode, IsNamedTree};
ghost use Rattle.delegation.specs.TreeRules.{IsSoAtEach, KeepsOwnRules, BreaksTree};

use crate::fault::DelegationFault;
use crate::node::Node;
use crate::rating::{RatedPolicy, rate};
use policy_check::{CheckFault, Checked, check};
use policy_expansion::Policy;
use sqlite_items::Items;
use std::alloc::Global;
use topology::Topology;

// A policy with the rates that its check found.
fn rated_as_checked(
    alloc: Global,
    policy: &Policy,
    checked: &Checked,
) -> Result<RatedPolicy, DelegationFault>
    requires { localised checked.now.policy.terms (ids_in checked.now.policy) ≡
        localised policy.now.formula.terms (listed_ids policy.now) }
    ensures ok { IfOk result (λ rated. rated ≡ rated_policy policy.now) }
    ensures err { IfErr result (λ f. f ≡ fault.OutOfMemory) }
{
    Ok(rate(alloc, policy, checked.rates())?)
}

// The policy of the node of this number with its rates.
fn rate_own(
    alloc: Global,
    number: usize,
    node: &Node,
    net: &Topology,
) -> Result<RatedPolicy, DelegationFault>
    requires { IsTreeNode node.now }
    ensures ok { IfOk result (λ rated. rated ≡ rated_policy node.now.policy) }
    ensures kept { IfOk result (λ _.
        KeepsAllRules net.now (network_symbols net.now) node.now.policy) }
    ensures err { let symbols = network_symbols net.now in
        (nodes : List Node) → slice_get nodes number ≡ Some node.now →
        IsSoBefore nodes (KeepsOwnRules net.now symbols nodes) number →
        IfErr result (BreaksTree net.now symbols nodes) }
{
    match check(alloc, &node.policy, net) {
        Ok(checked) => rated_as_checked(alloc, &node.policy, &checked),
        Err(CheckFault::OutOfMemory) => Err(DelegationFault::OutOfMemory),
        Err(fault) => Err(DelegationFault::Own {
            node: number,
            fault,
        }),
    }
}

/// The policies of all nodes with their rates, one for each.
pub(crate) fn rate_each(
    alloc: Global,
    nodes: &[Node],
    net: &Topology,
) -> Result<Items<RatedPolicy>, DelegationFault>
    requires { IsNamedTree nodes.now }
    ensures ok { IfOk result (λ rated. rated ≡ map (λ n. rated_policy n.policy) nodes.now) }
    ensures kept { let symbols = network_symbols net.now in
        IfOk result (λ _. IsSoAtEach nodes.now (KeepsOwnRules net.now symbols nodes.now)) }
    ensures err { IfErr result (BreaksTree net.now (network_symbols net.now) nodes.now) }
{
    let mut rated = Items::new(alloc);
    for (number, node) in nodes.iter().enumerate() {
        rated.push(rate_own(alloc, number, node, net)?)?;
    }
    Ok(rated)
}
