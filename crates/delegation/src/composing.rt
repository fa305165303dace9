//! The composition of the first node of a tree. The own policies with their rates stand in a list, and from the last node to the first, each node with
//! children has the join with what stands for them put in its place. No child stands before its parent, so that by then the composition of each child
//! stands in the list. A leaf's own policy is its composition, and stays as it is.

ghost use Rattle.std.specs.Prelude.{◌≡◌, ◌<◌, ◌+◌, List, Some, IfOk, OnOk, length, map, slice_get};
ghost use Rattle.std.specs.List.{list_any};
ghost use Rattle.policy_expansion.specs.declared.policy.Policy.{Policy};
ghost use Rattle.delegation.specs.NamedJoins.{rated_policy};
ghost use Rattle.delegation.specs.NamedTrees.{IsNamedTree, has_parent, AreNamedCompositions, composed_from, IsCompositionOf};

use crate::joining::{is_child, join};
use crate::laws::compositions_of_a_tree;
use crate::node::Node;
use crate::rating::{RatedPolicy, copy_of_policy, write};
use merlin_model::OutOfMemory;
use policy_expansion::Policy;
use sqlite_items::Items;
use std::alloc::Global;

// Whether the node at a place has children.
fn has_children(nodes: &[Node], place: usize) -> bool
    ensures { result ≡ list_any (has_parent place) nodes.now }
{
    nodes.iter().any(|node| is_child(node, place))
}

// One step: the node at a place, behind which the compositions stand.
fn compose_at(
    alloc: Global,
    nodes: &[Node],
    rated: &mut Items<RatedPolicy>,
    place: usize,
) -> Result<(), OutOfMemory>
    requires tree { IsNamedTree nodes.now }
    requires within { place < length nodes.now }
    requires long { length rated.old ≡ length nodes.now }
    ensures long { OnOk result (length rated.new ≡ length nodes.now) }
    ensures step { OnOk result ((all : List Policy) → AreNamedCompositions nodes.now all →
        rated.old ≡ map rated_policy (composed_from nodes.now all (place + 1)) →
        rated.new ≡ map rated_policy (composed_from nodes.now all place)) }
{
    if has_children(nodes, place) {
        let policies = rated.as_slice();
        let joined = join(alloc, nodes, policies, &policies[place], place)?;
        rated.set(place, joined);
    }
    Ok(())
}

// All steps.
fn compose_all(
    alloc: Global,
    nodes: &[Node],
    rated: &mut Items<RatedPolicy>,
) -> Result<(), OutOfMemory>
    requires tree { IsNamedTree nodes.now }
    requires own { rated.old ≡ map (λ n. rated_policy n.policy) nodes.now }
    ensures long { OnOk result (length rated.new ≡ length nodes.now) }
    ensures whole { OnOk result ((all : List Policy) →
        AreNamedCompositions nodes.now all → rated.new ≡ map rated_policy all) }
{
    let mut left = nodes.len();
    'places: while 0 < left {
        left -= 1;
        compose_at(alloc, nodes, rated, left)?;
    }
    Ok(())
}

// The composition of the first node, where those of all nodes stand with their rates. A leaf's own policy needs no rates.
fn first_composition(
    alloc: Global,
    nodes: &[Node],
    composed: &[RatedPolicy],
) -> Result<Policy, OutOfMemory>
    requires tree { IsNamedTree nodes.now }
    requires long { length composed.now ≡ length nodes.now }
    ensures { IfOk result (λ policy. (all : List Policy) → AreNamedCompositions nodes.now all →
        composed.now ≡ map rated_policy all → slice_get all 0 ≡ Some policy) }
{
    if has_children(nodes, 0) {
        write(alloc, &composed[0])
    } else {
        copy_of_policy(alloc, &nodes[0].policy)
    }
}

/// The composition of the first node, of the own policies of all nodes with their rates.
pub(crate) fn composition(
    alloc: Global,
    nodes: &[Node],
    rated: Items<RatedPolicy>,
) -> Result<Policy, OutOfMemory>
    requires tree { IsNamedTree nodes.now }
    requires own { rated ≡ map (λ n. rated_policy n.policy) nodes.now }
    ensures { IfOk result (IsCompositionOf nodes.now 0) }
{
    compositions_of_a_tree();
    let mut composed = rated;
    compose_all(alloc, nodes, &mut composed)?;
    first_composition(alloc, nodes, composed.as_slice())
}
