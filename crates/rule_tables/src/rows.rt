//! Rows: the vertices at switches and middleboxes, with how frames leave them.

ghost use Rattle.std.specs.Prelude.{◌≡◌, ◌<◌, ◌^◌, List, Some, length, option_map, IfOk, OnOk};
ghost use Rattle.merlin_model.specs.Networks.{address_of};
ghost use Rattle.rules_model.specs.Products.{Vertex as PathVertex, Group, queue_in};
ghost use Rattle.rules_model.specs.Tables.{is_host_kind};
ghost use Rattle.merlin_model.specs.Networks.{kind_of};
ghost use Rattle.rule_tables.specs.Branches.{vertex_at, IsBranch, AreGroupBranches};
ghost use Rattle.rule_tables.specs.Rows.{IsReady, IsRowOrHost, AddsRows, AreSpotRows};
ghost use Rattle.rule_tables.specs.Rows.{spots_of_branch, spots_of_group, spots_from, AreAllBranches};

use crate::branches::{Branch, GroupBranches, TagKey};
use crate::hops::{Hop, hop_from, key_at, step_of};
use crate::tags::tag_number;
use merlin_model::OutOfMemory;
use product_graph::Vertex;
use std::alloc::Global;
use topology::Topology;

/// A vertex at a switch or a middlebox, in the product of a group for a destination, with its tag, the
/// Ethernet address of the destination, and how frames leave the vertex's location.
#[derive(Drop)]
pub(crate) struct Row {
    pub(crate) group: usize,
    pub(crate) dest: usize,
    pub(crate) vertex: Vertex,
    pub(crate) tag: u16,
    pub(crate) eth: u64,
    pub(crate) hop: Hop,
    pub(crate) queue: Option<u16>,
}

/// Whether there is a host at the location.
fn is_host(net: &Topology, loc: usize) -> bool
    ensures { result ≡ is_host_kind (kind_of net.now loc) }
{
    loc < net.locations() && net.host(loc).is_some()
}

/// The Ethernet address of the host at a location, if there is one.
fn eth_of(net: &Topology, loc: usize) -> Option<u64>
    ensures { result ≡ option_map (λ a. a.eth) (address_of net.now loc) }
{
    if loc < net.locations() {
        let address = net.host(loc)?;
        Some(address.eth)
    } else {
        None
    }
}

/// The row of the vertex at a place. None for a vertex at a host, and where a frame can't leave.
fn row_at(
    alloc: Global,
    net: &Topology,
    tags: &[TagKey],
    group: usize,
    queue: Option<u16>,
    branch: &Branch,
    place: usize,
) -> Result<Option<Row>, OutOfMemory>
    requires { length tags.now < 2 ^ 16 }
    ensures { (groups : List Group) (v : PathVertex) → IsReady net.now groups tags.now →
        IsBranch net.now groups group branch.now → queue ≡ queue_in groups group →
        vertex_at branch.now.steps place ≡ Some v →
        IfOk result (IsRowOrHost net.now groups tags.now group branch.now.dest v) }
{
    let Some(step) = step_of(branch, place) else {
        return Ok(None);
    };
    let vertex = step.vertex;
    if is_host(net, vertex.symbol.loc) {
        return Ok(None);
    }
    let Some(tag) = tag_number(tags, &key_at(group, &vertex)) else {
        return Ok(None);
    };
    let Some(eth) = eth_of(net, branch.dest) else {
        return Ok(None);
    };
    let Some(hop) = hop_from(alloc, net, tags, group, branch, place)? else {
        return Ok(None);
    };
    Ok(Some(Row {
        group,
        dest: branch.dest,
        vertex,
        tag,
        eth,
        hop,
        queue,
    }))
}

/// Adds the rows of a branch.
fn add_branch(
    alloc: Global,
    net: &Topology,
    tags: &[TagKey],
    group: usize,
    queue: Option<u16>,
    branch: &Branch,
    rows: &mut Vec<Row>,
) -> Result<(), OutOfMemory>
    requires { length tags.now < 2 ^ 16 }
    ensures { (groups : List Group) → IsReady net.now groups tags.now →
        IsBranch net.now groups group branch.now → queue ≡ queue_in groups group →
        OnOk result (AddsRows net.now groups tags.now (spots_of_branch group branch.now)
        rows.old.items rows.new.items) }
{
    for place in 0..branch.steps.len() {
        if let Some(row) = row_at(alloc, net, tags, group, queue, branch, place)? {
            rows.push(row)?;
        }
    }
    Ok(())
}

/// Adds the rows of a group.
fn add_group(
    alloc: Global,
    net: &Topology,
    tags: &[TagKey],
    number: usize,
    group: &GroupBranches,
    rows: &mut Vec<Row>,
) -> Result<(), OutOfMemory>
    requires { length tags.now < 2 ^ 16 }
    ensures { (groups : List Group) → IsReady net.now groups tags.now →
        AreGroupBranches net.now groups number group.now →
        OnOk result (AddsRows net.now groups tags.now (spots_of_group number group.now)
        rows.old.items rows.new.items) }
{
    for branch in group.branches.as_slice() {
        add_branch(alloc, net, tags, number, group.queue, branch, rows)?;
    }
    Ok(())
}

/// The rows of all groups, group by group, branch by branch.
pub(crate) fn rows_of(
    alloc: Global,
    net: &Topology,
    tags: &[TagKey],
    branches: &[GroupBranches],
) -> Result<Vec<Row>, OutOfMemory>
    requires { length tags.now < 2 ^ 16 }
    ensures { (groups : List Group) → IsReady net.now groups tags.now →
        AreAllBranches net.now groups branches.now →
        IfOk result (λ rows.
        AreSpotRows net.now groups tags.now (spots_from 0 branches.now) rows.items) }
{
    let mut rows = Vec::new(alloc);
    for (number, group) in branches.iter().enumerate() {
        add_group(alloc, net, tags, number, group, &mut rows)?;
    }
    Ok(rows)
}
