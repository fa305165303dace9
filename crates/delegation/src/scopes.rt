//! Scopes of children of one node that share a packet. Each node is asked as a parent, and of what is found the least is kept to the end, since the
//! scopes under a later parent may be in too many classes, and that is asked first.

ghost use Rattle.std.specs.Prelude.{◌≡◌, ◌<◌, ◌≤◌, ◌⊎◌, List, length, IfOk, IfSome, IfNone, IfErr, OnOk};
ghost use Rattle.merlin_model.specs.declared.policy.Symbol.{Symbol};
ghost use Rattle.merlin_model.specs.Networks.{Network};
ghost use Rattle.predicate_split.specs.declared.fault.TheConstants.{MAX_CLASSES};
ghost use Rattle.predicate_split.specs.Refusals.{classes_in, RefusesClasses};
ghost use Rattle.predicate_split.specs.Overlaps.{ShareNothing, IsLeastOverlap};
ghost use Rattle.delegation.specs.declared.node.Node.{Node};
ghost use Rattle.delegation.specs.NamedTrees.{IsNamedTree, scopes_under, numbers_under};
ghost use Rattle.delegation.specs.SharedScopes.{HasApartScopes};
ghost use Rattle.delegation.specs.ScopesUnder.{IsFoundNoLater, IsLeastSharing, RefusesScopes};
ghost use Rattle.delegation.specs.TreeRules.{IsSoAtEach, HasFewScopeClasses, KeepsOwnRules, BreaksTree};

use crate::fault::DelegationFault;
use crate::joining::{is_child, scopes_of};
use crate::node::Node;
use merlin_model::OutOfMemory;
use packet_model::Packet;
use predicate_split::{SplitFault, overlap};
use sqlite_items::Items;
use std::alloc::Global;

/// Two children of one node, the earlier first, and the least packet that their scopes share.
#[derive(Clone, Copy)]
pub struct SharedPair {
    pub first: usize,
    pub second: usize,
    pub packet: Packet,
}

// The numbers of the children of the node at a place.
fn numbers_of(alloc: Global, nodes: &[Node], place: usize) -> Result<Items<usize>, OutOfMemory>
    ensures { IfOk result (λ numbers. numbers ≡ numbers_under nodes.now place) }
{
    let mut numbers = Items::new(alloc);
    for (number, node) in nodes.iter().enumerate() {
        if is_child(node, place) {
            numbers.push(number)?;
        }
    }
    Ok(numbers)
}

// Why the scopes under the node at a place are refused.
fn refusal_at(place: usize, fault: SplitFault) -> DelegationFault
    ensures { (nodes : List Node) →
        RefusesClasses (scopes_under nodes place) fault → RefusesScopes nodes place result }
{
    match fault {
        SplitFault::TooManyClasses { count } => DelegationFault::Classes { node: place, count },
        _ => DelegationFault::OutOfMemory,
    }
}

// The least pair of places among the children of the node at a place whose scopes share a packet, and the least packet.
fn places_under(
    alloc: Global,
    nodes: &[Node],
    place: usize,
) -> Result<Option<(usize, usize, Packet)>, DelegationFault>
    requires { IsNamedTree nodes.now }
    ensures few { OnOk result (classes_in (scopes_under nodes.now place) ≤ MAX_CLASSES) }
    ensures some { IfOk result (λ found.
        IfSome found (λ o. IsLeastOverlap (scopes_under nodes.now place) o.0 o.1 o.2)) }
    ensures none { IfOk result (λ found.
        IfNone found (ShareNothing (scopes_under nodes.now place))) }
    ensures err { IfErr result (RefusesScopes nodes.now place) }
{
    let scopes = scopes_of(alloc, nodes, place)?;
    match overlap(alloc, scopes.as_slice()) {
        Ok(found) => Ok(found),
        Err(fault) => Err(refusal_at(place, fault)),
    }
}

// The least pair of children of the node at a place whose scopes share a packet.
fn shared_under(
    alloc: Global,
    nodes: &[Node],
    place: usize,
) -> Result<Option<SharedPair>, DelegationFault>
    requires { IsNamedTree nodes.now }
    ensures few { OnOk result (classes_in (scopes_under nodes.now place) ≤ MAX_CLASSES) }
    ensures found { IfOk result (IsLeastSharing nodes.now (λ parent. parent ≡ place)) }
    ensures err { IfErr result (RefusesScopes nodes.now place) }
{
    let Some((first, second, packet)) = places_under(alloc, nodes, place)? else {
        return Ok(None);
    };
    let numbers = numbers_of(alloc, nodes, place)?;
    let numbers = numbers.as_slice();
    Ok(Some(SharedPair {
        first: numbers[first],
        second: numbers[second],
        packet,
    }))
}

// The earlier of two pairs.
fn earlier_pair(left: Option<SharedPair>, right: Option<SharedPair>) -> Option<SharedPair>
    ensures left { IsFoundNoLater result left }
    ensures right { IsFoundNoLater result right }
    ensures either { (result ≡ left) ⊎ (result ≡ right) }
{
    match &left {
        Some(found) => match &right {
            Some(known) => {
                if found.first < known.first
                    || found.first == known.first && found.second <= known.second
                {
                    left
                } else {
                    right
                }
            }
            None => left,
        },
        None => right,
    }
}

// The least pair over the whole tree.
fn shared_anywhere(alloc: Global, nodes: &[Node]) -> Result<Option<SharedPair>, DelegationFault>
    requires { IsNamedTree nodes.now }
    ensures few { OnOk result (IsSoAtEach nodes.now (HasFewScopeClasses nodes.now)) }
    ensures found { IfOk result
        (IsLeastSharing nodes.now (λ parent. parent < length nodes.now)) }
    ensures err { (net : Network) (symbols : List Symbol) →
        IsSoAtEach nodes.now (KeepsOwnRules net symbols nodes.now) →
        IfErr result (BreaksTree net symbols nodes.now) }
{
    let mut least = None;
    for place in 0..nodes.len() {
        let found = shared_under(alloc, nodes, place)?;
        least = earlier_pair(least, found);
    }
    Ok(least)
}

/// Asks that the scopes of the children of each node are in few classes, and that no two of them share a packet.
pub(crate) fn ask_scopes(alloc: Global, nodes: &[Node]) -> Result<(), DelegationFault>
    requires { IsNamedTree nodes.now }
    ensures few { OnOk result (IsSoAtEach nodes.now (HasFewScopeClasses nodes.now)) }
    ensures apart { OnOk result (HasApartScopes nodes.now) }
    ensures err { (net : Network) (symbols : List Symbol) →
        IsSoAtEach nodes.now (KeepsOwnRules net symbols nodes.now) →
        IfErr result (BreaksTree net symbols nodes.now) }
{
    match shared_anywhere(alloc, nodes)? {
        Some(pair) => Err(DelegationFault::ScopeOverlap {
            first: pair.first,
            second: pair.second,
            packet: pair.packet,
        }),
        None => Ok(()),
    }
}
