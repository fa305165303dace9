//! The branches of groups once walks are chosen: those of a group of best effort are the plan's, a guaranteed group has that of
//! its walk.

ghost use Rattle.std.specs.Prelude.{◌≡◌, ◌<◌, ◌^◌, List, None, length, map, IfOk, MatchOption};
ghost use Rattle.std.specs.List.{AllZip};
ghost use Rattle.merlin_model.specs.Policies.{paths_of};
ghost use Rattle.merlin_model.specs.Assignments.{IsAssignment};
ghost use Rattle.topology.specs.Symbols.{network_symbols};
ghost use Rattle.rules_model.specs.Products.{Group};
ghost use Rattle.rules_model.specs.Tables.{all_hosts};
ghost use Rattle.policy_check.specs.Checked.{HasAutomata};
ghost use Rattle.openflow_rules.specs.GroupSpans.{spans_over};
ghost use Rattle.openflow_rules.specs.Gathered.{AreAllBelow, IsBranchFor};
ghost use Rattle.openflow_rules.specs.WalkGroups.{IsPlaceFor, IsWalkGroupAt, IsGroupWith, AreGroupsFor};

use crate::walks::walk_branch;
use merlin_model::OutOfMemory;
use merlin_model::policy::{Ends, Symbol};
use policy_check::Checked;
use rule_tables::{Branch, GroupBranches};
use sqlite_items::Items;
use std::alloc::Global;
use topology::Topology;

/// A policy over a network with the ends of its guaranteed statements, and a walk for each of them.
#[derive(Clone, Copy)]
pub struct Chosen<'a> {
    pub net: &'a Topology,
    pub checked: &'a Checked,
    pub ends: &'a [Ends],
    pub walks: &'a [Vec<Symbol>],
}

/// The place of the ends of this statement.
fn place_for(ends: &[Ends], statement: usize) -> Option<usize>
    ensures { IsPlaceFor ends.now statement result }
{
    for (place, pair) in ends.iter().enumerate() {
        if pair.statement == statement {
            return Some(place);
        }
    }
    None
}

/// How many products a group has: one between its ends, if it is guaranteed, else one for each host.
fn products_with(hosts: &[usize], place: Option<usize>) -> usize
    ensures { MatchOption place (result ≡ length hosts.now) (λ k. result ≡ 1) }
{
    match place {
        Some(_) => 1,
        None => hosts.len(),
    }
}

/// The branches of a group of best effort.
fn effort_group(alloc: Global, own: &[Branch]) -> Result<GroupBranches, OutOfMemory>
    ensures { IfOk result (λ group. (group.queue ≡ None) × (group.branches ≡ own.now)) }
{
    let mut branches = Items::new(alloc);
    for branch in own {
        let steps = Items::from_slice(alloc, branch.steps.as_slice())?;
        branches.push(Branch {
            dest: branch.dest,
            steps,
        })?;
    }
    Ok(GroupBranches {
        queue: None,
        branches,
    })
}

/// The branch of the walk at a place, through the queue of the place.
fn walk_group(
    alloc: Global,
    chosen: &Chosen<'_>,
    leader: usize,
    place: usize,
) -> Result<GroupBranches, OutOfMemory>
    requires leader { leader < length (paths_of chosen.now.checked.now.policy) }
    requires place { place < length chosen.now.ends.now }
    requires few { length chosen.now.ends.now < 2 ^ 16 }
    requires automata { HasAutomata (network_symbols chosen.now.net.now) chosen.now.checked.now }
    requires assigned { IsAssignment chosen.now.net.now chosen.now.checked.now.policy
        chosen.now.ends.now (map (λ w. w.items) chosen.now.walks.now) }
    ensures { IfOk result (IsWalkGroupAt chosen.now.net.now chosen.now.checked.now
        chosen.now.ends.now (map (λ w. w.items) chosen.now.walks.now) leader place) }
{
    let dest = chosen.ends[place].dst;
    let walk = chosen.walks[place].as_slice();
    let automaton = chosen.checked.automaton(leader);
    let branch = walk_branch(alloc, chosen.net.symbols(), automaton, walk, dest)?;
    let mut branches = Items::new(alloc);
    branches.push(branch)?;
    Ok(GroupBranches {
        queue: Some(place as u16 + 1),
        branches,
    })
}

/// The branches of a group, which its leader stands for, by the place of the leader's ends: those of
/// its products, or that of its walk.
fn group_at(
    alloc: Global,
    chosen: &Chosen<'_>,
    leader: usize,
    place: Option<usize>,
    own: &[Branch],
) -> Result<GroupBranches, OutOfMemory>
    requires leader { leader < length (paths_of chosen.now.checked.now.policy) }
    requires place { IsPlaceFor chosen.now.ends.now leader place }
    requires few { length chosen.now.ends.now < 2 ^ 16 }
    requires automata { HasAutomata (network_symbols chosen.now.net.now) chosen.now.checked.now }
    requires assigned { IsAssignment chosen.now.net.now chosen.now.checked.now.policy
        chosen.now.ends.now (map (λ w. w.items) chosen.now.walks.now) }
    ensures { IfOk result (IsGroupWith chosen.now.net.now chosen.now.checked.now
        chosen.now.ends.now (map (λ w. w.items) chosen.now.walks.now) leader own.now place) }
{
    match place {
        Some(place) => walk_group(alloc, chosen, leader, place),
        None => effort_group(alloc, own),
    }
}

/// The branches of all groups, which their leaders stand for.
pub fn all_groups(
    alloc: Global,
    chosen: &Chosen<'_>,
    hosts: &[usize],
    leaders: &[usize],
    branches: &[Branch],
) -> Result<Vec<GroupBranches>, OutOfMemory>
    requires hosts { hosts.now ≡ all_hosts chosen.now.net.now }
    requires leaders { AreAllBelow (length (paths_of chosen.now.checked.now.policy)) leaders.now }
    requires few { length chosen.now.ends.now < 2 ^ 16 }
    requires automata { HasAutomata (network_symbols chosen.now.net.now) chosen.now.checked.now }
    requires assigned { IsAssignment chosen.now.net.now chosen.now.checked.now.policy
        chosen.now.ends.now (map (λ w. w.items) chosen.now.walks.now) }
    requires branches { (bare : List Group) × AllZip (IsBranchFor chosen.now.net.now bare)
        (spans_over (all_hosts chosen.now.net.now) chosen.now.ends.now leaders.now) branches.now }
    ensures { (bare : List Group) → AllZip (IsBranchFor chosen.now.net.now bare)
        (spans_over (all_hosts chosen.now.net.now) chosen.now.ends.now leaders.now)
        branches.now → IfOk result (λ made. AreGroupsFor chosen.now.net.now
        chosen.now.checked.now chosen.now.ends.now (map (λ w. w.items) chosen.now.walks.now)
        bare leaders.now made.items) }
{
    let mut made = Vec::new(alloc);
    let mut rest = branches;
    for leader in leaders {
        let place = place_for(chosen.ends, *leader);
        let (own, others) = rest.split_at(products_with(hosts, place));
        made.push(group_at(alloc, chosen, *leader, place, own)?)?;
        rest = others;
    }
    Ok(made)
}
