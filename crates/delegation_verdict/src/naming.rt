//! Why a delegation tree is not accepted, with the names of its nodes.

ghost use Rattle.std.specs.Prelude.{◌<◌, IfOk, length};
ghost use Rattle.topology.specs.Symbols.{network_symbols};
ghost use Rattle.delegation.specs.declared.fault.DelegationFault.TheVariants as tree_faults;
ghost use Rattle.delegation.specs.TreeRules.{BreaksTree};
ghost use Rattle.delegation_verdict.specs.Verdict.{HasNameAt, IsJudged};

use crate::reply::DelegateReply;
use delegation::{DelegationFault, Node};
use merlin_base::{Name, OutOfMemory};
use negotiator::RefineFault;
use packet_model::Packet;
use refusal_text::wider_text;
use std::alloc::Global;
use topology::Topology;

// The name of the node at a place.
fn name_at(alloc: Global, nodes: &[Node], place: usize) -> Result<Name, OutOfMemory>
    requires { place < length nodes.now }
    ensures { IfOk result (HasNameAt nodes.now place) }
{
    nodes[place].name.copy(alloc)
}

// What is replied where the scopes of two nodes share a packet.
fn shared_reply(
    alloc: Global,
    nodes: &[Node],
    net: &Topology,
    first: usize,
    second: usize,
    packet: Packet,
) -> Result<DelegateReply, OutOfMemory>
    requires { BreaksTree net.now (network_symbols net.now) nodes.now
        (tree_faults.ScopeOverlap first second packet) }
    ensures { IfOk result (IsJudged net.now nodes.now) }
{
    Ok(DelegateReply::SharedScopes {
        first: name_at(alloc, nodes, first)?,
        second: name_at(alloc, nodes, second)?,
        packet,
    })
}

// What is replied where the node at a place is not accepted.
fn wider_reply(
    alloc: Global,
    nodes: &[Node],
    net: &Topology,
    place: usize,
    fault: &RefineFault,
) -> Result<DelegateReply, OutOfMemory>
    requires { BreaksTree net.now (network_symbols net.now) nodes.now
        (tree_faults.NotAccepted place fault.now) }
    ensures { IfOk result (IsJudged net.now nodes.now) }
{
    Ok(DelegateReply::Wider {
        node: name_at(alloc, nodes, place)?,
        text: wider_text(alloc, net, fault)?,
    })
}

/// What is replied to a tree that is not accepted.
pub(crate) fn fault_reply(
    alloc: Global,
    nodes: &[Node],
    net: &Topology,
    fault: DelegationFault,
) -> Result<DelegateReply, OutOfMemory>
    requires { BreaksTree net.now (network_symbols net.now) nodes.now fault }
    ensures { IfOk result (IsJudged net.now nodes.now) }
{
    match fault {
        DelegationFault::Own { node, fault } => Ok(DelegateReply::WrongPolicy {
            node: name_at(alloc, nodes, node)?,
            fault,
        }),
        DelegationFault::Classes { node, .. } => Ok(DelegateReply::TooManyClasses {
            node: name_at(alloc, nodes, node)?,
        }),
        DelegationFault::ScopeOverlap {
            first,
            second,
            packet,
        } => shared_reply(alloc, nodes, net, first, second, packet),
        DelegationFault::TooManyStatements { node, .. } => Ok(DelegateReply::TooManyStatements {
            node: name_at(alloc, nodes, node)?,
        }),
        DelegationFault::Joined { node, fault } => Ok(DelegateReply::WrongJoin {
            node: name_at(alloc, nodes, node)?,
            fault,
        }),
        DelegationFault::Cells { node, .. } => Ok(DelegateReply::TooManyCells {
            node: name_at(alloc, nodes, node)?,
        }),
        DelegationFault::NotAccepted { node, fault } => {
            wider_reply(alloc, nodes, net, node, &fault)
        }
        DelegationFault::OutOfMemory => Err(OutOfMemory),
    }
}
