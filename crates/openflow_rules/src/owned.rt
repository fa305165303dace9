//! The cells of all pairs of hosts, each with the group of the statement that owns it.

ghost use Rattle.std.specs.Prelude.{◌≡◌, ◌<◌, ◌++◌, ◌∷◌, [], length, map, IfOk, OnOk};
ghost use Rattle.std.specs.List.{AllByRecursion, flat_map};
ghost use Rattle.merlin_model.specs.Predicates.{IsPred};
ghost use Rattle.rules_model.specs.Tables.{all_owned};
ghost use Rattle.predicate_split.specs.Cells.{cells_between};
ghost use Rattle.configuration_model.specs.Pairs.{pair_cells};
ghost use Rattle.configuration_model.specs.Tables.{grouped_cells};
ghost use Rattle.rule_tables.specs.Branches.{owned_of};
ghost use Rattle.openflow_rules.specs.Gathered.{AreAllBelow};
ghost use Rattle.openflow_rules.specs.OwnedCells.{group_for, owned_cell, owned_between, owned_from};

use crate::cells::host_address;
use crate::spans::host_locations;
use merlin_model::OutOfMemory;
use merlin_model::network::HostAddress;
use merlin_model::policy::Pred;
use policy_check::Checked;
use predicate_split::{Cell, cells};
use rule_tables::OwnedCell;
use sqlite_items::Items;
use std::alloc::Global;
use topology::Topology;

/// The group of the statement that owns a cell, or of the default.
fn group_of_owner(group_of: &[usize], default: usize, owner: Option<usize>) -> usize
    ensures { result ≡ group_for group_of.now default owner }
{
    match group_of.get(owner.unwrap_or(default)) {
        Some(group) => *group,
        None => 0,
    }
}

/// The cells of two hosts.
fn cells_found(
    alloc: Global,
    preds: &[Pred],
    src: HostAddress,
    dst: HostAddress,
) -> Result<Items<Cell>, OutOfMemory>
    requires { AllByRecursion IsPred preds.now }
    ensures { IfOk result (λ found. found ≡ cells_between preds.now src dst) }
{
    match cells(alloc, preds, src, dst) {
        Ok(found) => Ok(Items::from_slice(alloc, &found)?),
        // a plan has few cells, so that only memory may be lacking
        Err(_) => Err(OutOfMemory),
    }
}

/// Adds the cells of a pair, each with the group of its owner.
fn add_cells(
    owned: &mut Items<OwnedCell>,
    group_of: &[usize],
    default: usize,
    source: usize,
    dest: usize,
    found: &[Cell],
) -> Result<(), OutOfMemory>
    ensures { OnOk result (owned.new ≡ owned.old ++
        map (owned_cell group_of.now default source dest) found.now) }
{
    for cell in found {
        owned.push(OwnedCell {
            source,
            dest,
            cell: *cell,
            group: group_of_owner(group_of, default, cell.owner),
        })?;
    }
    Ok(())
}

/// Adds the cells of a pair, unless a host would send to itself.
fn add_pair(
    alloc: Global,
    net: &Topology,
    checked: &Checked,
    group_of: &[usize],
    owned: &mut Items<OwnedCell>,
    source: usize,
    dest: usize,
) -> Result<(), OutOfMemory>
    requires source { source < length net.now.locations }
    requires dest { dest < length net.now.locations }
    ensures { OnOk result (owned.new ≡ owned.old ++
        owned_between net.now checked.now.policy group_of.now source dest) }
{
    if source == dest {
        return Ok(());
    }
    // predicates are well formed
    let _ = checked.statements();
    let preds = checked.preds();
    let from = host_address(net, source);
    let to = host_address(net, dest);
    let found = cells_found(alloc, preds, from, to)?;
    add_cells(owned, group_of, preds.len(), source, dest, found.as_slice())
}

/// Adds the cells from one host to all these.
fn add_cells_from(
    alloc: Global,
    net: &Topology,
    checked: &Checked,
    group_of: &[usize],
    owned: &mut Items<OwnedCell>,
    source: usize,
    hosts: &[usize],
) -> Result<(), OutOfMemory>
    requires source { source < length net.now.locations }
    requires hosts { AreAllBelow (length net.now.locations) hosts.now }
    ensures { OnOk result (owned.new ≡ owned.old ++
        owned_from net.now checked.now.policy group_of.now hosts.now source) }
{
    for dest in hosts {
        add_pair(alloc, net, checked, group_of, owned, source, *dest)?;
    }
    Ok(())
}

/// The same between all these hosts.
fn owned_among(
    alloc: Global,
    net: &Topology,
    checked: &Checked,
    group_of: &[usize],
    hosts: &[usize],
) -> Result<Items<OwnedCell>, OutOfMemory>
    requires { AreAllBelow (length net.now.locations) hosts.now }
    ensures { IfOk result (λ owned. owned ≡
        flat_map (owned_from net.now checked.now.policy group_of.now hosts.now) hosts.now) }
{
    let mut owned = Items::new(alloc);
    for source in hosts {
        add_cells_from(alloc, net, checked, group_of, &mut owned, *source, hosts)?;
    }
    Ok(owned)
}

/// The cells of all pairs of hosts, by source, destination and cell, each with the group of the
/// statement that owns it. `group_of` has the group of each statement, the default's last.
pub fn owned_cells(
    alloc: Global,
    net: &Topology,
    checked: &Checked,
    group_of: &[usize],
) -> Result<Items<OwnedCell>, OutOfMemory>
    ensures { IfOk result (λ owned. map owned_of owned ≡ all_owned net.now
        (grouped_cells checked.now.policy group_of.now
        (pair_cells net.now checked.now.policy))) }
{
    let hosts = host_locations(alloc, net)?;
    let owned = owned_among(alloc, net, checked, group_of, hosts.as_slice())?;
    Ok(owned)
}
