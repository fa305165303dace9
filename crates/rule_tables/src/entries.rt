//! Entries: how the untagged frames of a cell leave the first switch.

ghost use Rattle.std.specs.Prelude.{◌≡◌, ◌≢◌, ◌<◌, ◌^◌, ◌==◌, [], ◌∷◌, List, Some};
ghost use Rattle.std.specs.Prelude.{length, map, find, slice_get, option_map, Contains, IfOk, MatchOption};
ghost use Rattle.std.specs.List.{AllZip, range_with_len};
ghost use Rattle.merlin_model.specs.Networks.{IsHost, from_a, from_b};
ghost use Rattle.merlin_model.specs.Machine.{uplink_of};
ghost use Rattle.rules_model.specs.Products.{Group, queue_in};
ghost use Rattle.rules_model.specs.Tables.{IsFirstHop};
ghost use Rattle.rules_model.specs.AttachedHosts.{attached_host_at};
ghost use Rattle.rule_tables.specs.Branches.{AreBranches};
ghost use Rattle.rule_tables.specs.Hops.{table_hop};
ghost use Rattle.rule_tables.specs.Rows.{IsReady, tags_alone};
ghost use Rattle.rule_tables.specs.Entries.{attached_in, IsBetweenHosts, IsEntryMade, IsCellEntry};
ghost use Rattle.rule_tables.specs.Entries.{AreBetweenHosts};

use crate::branches::{Branch, GroupBranches, OwnedCell, Step, TagKey};
use crate::hops::{Hop, hop_from};
use merlin_model::OutOfMemory;
use merlin_model::network::{DirectedLink, HostAddress, Link};
use predicate_split::Cell;
use rules_model::attached_host::AttachedHost;
use sqlite_items::at;
use std::alloc::Global;
use topology::Topology;

/// A cell of a pair of hosts, with the group and the queue of the statement that owns it, and how its
/// frames leave the first switch. Where there is no hop they are dropped.
#[derive(Drop)]
pub(crate) struct Entry {
    pub(crate) source: AttachedHost,
    pub(crate) dest: usize,
    pub(crate) address: HostAddress,
    pub(crate) cell: Cell,
    pub(crate) group: usize,
    pub(crate) queue: Option<u16>,
    pub(crate) hop: Option<Hop>,
}

/// A link as it is taken from a location, if it is one of its ends.
fn directed_from(link: &Link, loc: usize) -> Option<DirectedLink>
    ensures { result ≡ find (λ w. w.from == loc) (from_a link.now ∷ from_b link.now ∷ []) }
{
    if link.a == loc {
        Some(DirectedLink {
            from: link.a,
            out_port: link.aport,
            to: link.b,
            in_port: link.bport,
            capacity: link.capacity,
            back: link.back,
            weight: link.weight,
        })
    } else if link.b == loc {
        Some(DirectedLink {
            from: link.b,
            out_port: link.bport,
            to: link.a,
            in_port: link.aport,
            capacity: link.back,
            back: link.capacity,
            weight: link.weight,
        })
    } else {
        None
    }
}

/// The directed link of a host.
fn link_from(net: &Topology, loc: usize) -> Option<DirectedLink>
    ensures { result ≡ uplink_of net.now loc }
{
    for link in net.links() {
        if let Some(directed) = directed_from(link, loc) {
            return Some(directed);
        }
    }
    None
}

/// The host at a location, with its directed link.
fn attached_host(net: &Topology, loc: usize) -> Option<AttachedHost>
    requires { loc < length net.now.locations }
    ensures { result ≡ attached_host_at net.now loc }
{
    let address = net.host(loc)?;
    let link = link_from(net, loc)?;
    Some(AttachedHost { loc, address, link })
}

/// The hosts by their locations.
fn attached_hosts(alloc: Global, net: &Topology) -> Result<Vec<Option<AttachedHost>>, OutOfMemory>
    ensures { IfOk result (λ hosts. hosts.items ≡
        map (attached_host_at net.now) (range_with_len 0 (length net.now.locations))) }
{
    let mut hosts = Vec::new(alloc);
    for loc in 0..net.locations() {
        hosts.push(attached_host(net, loc))?;
    }
    Ok(hosts)
}

/// The host at a location.
fn host_at(hosts: &[Option<AttachedHost>], loc: usize) -> Option<AttachedHost>
    ensures { result ≡ attached_in hosts.now loc }
{
    *at(hosts, loc)?
}

/// The place of the branch for a destination.
fn branch_place(branches: &[Branch], dest: usize) -> Option<usize>
    ensures { MatchOption result
        ((branch : Branch) → Contains branches.now branch → branch.dest ≢ dest)
        (λ place. (branch : Branch) × (slice_get branches.now place ≡ Some branch)
        × (branch.dest ≡ dest)) }
{
    for (place, branch) in branches.iter().enumerate() {
        if branch.dest == dest {
            return Some(place);
        }
    }
    None
}

/// The first step at a location.
fn step_at(steps: &[Step], loc: usize) -> Option<Step>
    ensures { MatchOption result
        ((step : Step) → Contains steps.now step → step.vertex.symbol.loc ≢ loc)
        (λ step. Contains steps.now step × (step.vertex.symbol.loc ≡ loc)) }
{
    for step in steps {
        if step.vertex.symbol.loc == loc {
            return Some(*step);
        }
    }
    None
}

/// The queue of a group, if it has one.
fn queue_of(branches: &[GroupBranches], group: usize) -> Option<u16>
    ensures { (groups : List Group) (net : _) → AreBranches net groups branches.now →
        result ≡ queue_in groups group }
{
    at(branches, group)?.queue
}

/// How the frames of a cell leave the first switch: as from the vertex that follows the start. None
/// where no walk is allowed.
fn first_hop(
    alloc: Global,
    net: &Topology,
    tags: &[TagKey],
    branches: &[GroupBranches],
    owned: &OwnedCell,
) -> Result<Option<Hop>, OutOfMemory>
    requires { length tags.now < 2 ^ 16 }
    ensures { (groups : List Group) → IsReady net.now groups tags.now →
        AreBranches net.now groups branches.now →
        IsBetweenHosts net.now owned.now →
        IfOk result (λ hop. IsFirstHop net.now groups (tags_alone tags.now) owned.now.group
        owned.now.source owned.now.dest (option_map table_hop hop)) }
{
    let _lawful = net.locations();
    let Some(group) = at(branches, owned.group) else {
        return Ok(None);
    };
    let Some(place) = branch_place(group.branches.as_slice(), owned.dest) else {
        return Ok(None);
    };
    let Some(branch) = group.branches.get(place) else {
        return Ok(None);
    };
    let Some(start) = step_at(branch.steps.as_slice(), owned.source) else {
        return Ok(None);
    };
    match start.next {
        Some(next) => hop_from(alloc, net, tags, owned.group, branch, next),
        None => Ok(None),
    }
}

/// The entry of a cell. None where it is of no pair of hosts.
fn entry_at(
    alloc: Global,
    net: &Topology,
    tags: &[TagKey],
    branches: &[GroupBranches],
    hosts: &[Option<AttachedHost>],
    owned: &OwnedCell,
) -> Result<Option<Entry>, OutOfMemory>
    requires tags { length tags.now < 2 ^ 16 }
    requires hosts { hosts.now ≡
        map (attached_host_at net.now) (range_with_len 0 (length net.now.locations)) }
    ensures { (groups : List Group) → IsReady net.now groups tags.now →
        AreBranches net.now groups branches.now →
        IsBetweenHosts net.now owned.now →
        IfOk result (IsEntryMade net.now groups tags.now owned.now) }
{
    let _lawful = net.locations();
    let Some(source) = host_at(hosts, owned.source) else {
        return Ok(None);
    };
    let Some(dest) = host_at(hosts, owned.dest) else {
        return Ok(None);
    };
    let hop = first_hop(alloc, net, tags, branches, owned)?;
    Ok(Some(Entry {
        source,
        dest: owned.dest,
        address: dest.address,
        cell: owned.cell,
        group: owned.group,
        queue: queue_of(branches, owned.group),
        hop,
    }))
}

/// The entries of cells, in their order.
pub(crate) fn entries_of(
    alloc: Global,
    net: &Topology,
    tags: &[TagKey],
    branches: &[GroupBranches],
    owned: &[OwnedCell],
) -> Result<Vec<Entry>, OutOfMemory>
    requires { length tags.now < 2 ^ 16 }
    ensures { (groups : List Group) → IsReady net.now groups tags.now →
        AreBranches net.now groups branches.now →
        AreBetweenHosts net.now owned.now →
        IfOk result (λ entries.
        AllZip (IsCellEntry net.now groups tags.now) owned.now entries.items) }
{
    let hosts = attached_hosts(alloc, net)?;
    let mut entries = Vec::new(alloc);
    for cell in owned {
        if let Some(entry) = entry_at(alloc, net, tags, branches, &hosts, cell)? {
            entries.push(entry)?;
        }
    }
    Ok(entries)
}
