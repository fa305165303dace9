//! How many cells all pairs of hosts have, counted up to a limit.

ghost use Rattle.std.specs.Prelude.{◌≡◌, ◌≤◌, ◌<◌, ◌+◌, length, sum_by, IfOk, IfErr, OnOk};
ghost use Rattle.std.specs.List.{AllByRecursion};
ghost use Rattle.merlin_model.specs.Predicates.{IsPred};
ghost use Rattle.rules_model.specs.Tables.{all_hosts};
ghost use Rattle.predicate_split.specs.declared.fault.TheConstants.{MAX_CELLS};
ghost use Rattle.predicate_split.specs.Cells.{cells_between, RefusesCells};
ghost use Rattle.configuration_model.specs.Hosts.{host_at};
ghost use Rattle.configuration_model.specs.Checked.{preds_of};
ghost use Rattle.configuration_model.specs.Pairs.{cells_of_pair, count_of_cells};
ghost use Rattle.openflow_rules.specs.Gathered.{AreAllBelow, IsCellFault};

use crate::fault::RuleFault;
use merlin_model::network::HostAddress;
use merlin_model::policy::Pred;
use policy_check::Checked;
use predicate_split::{MAX_CELLS, SplitFault, cells};
use std::alloc::Global;
use topology::Topology;

/// The addresses of the host at a location.
pub fn host_address(net: &Topology, loc: usize) -> HostAddress
    requires { loc < length net.now.locations }
    ensures { result ≡ host_at net.now loc }
{
    match net.host(loc) {
        Some(address) => address,
        None => HostAddress { eth: 0, ip: 0 },
    }
}

/// How many cells two hosts have.
fn cells_among(
    alloc: Global,
    preds: &[Pred],
    src: HostAddress,
    dst: HostAddress,
) -> Result<u64, SplitFault>
    requires { AllByRecursion IsPred preds.now }
    ensures ok { IfOk result (λ count. count ≡ length (cells_between preds.now src dst)) }
    ensures err { IfErr result (RefusesCells preds.now src dst) }
{
    let found = cells(alloc, preds, src, dst)?;
    Ok(found.len() as u64)
}

/// How many cells there may still be after those of a pair.
fn left_after_pair(
    alloc: Global,
    net: &Topology,
    checked: &Checked,
    src: usize,
    dst: usize,
    left: u64,
) -> Result<u64, RuleFault>
    requires src { src < length net.now.locations }
    requires dst { dst < length net.now.locations }
    requires few { left ≤ MAX_CELLS }
    ensures ok { IfOk result (λ after.
        after + cells_of_pair net.now checked.now.policy src dst ≡ left) }
    ensures err { IfErr result
        (IsCellFault (cells_of_pair net.now checked.now.policy src dst) left) }
{
    if src == dst {
        return Ok(left);
    }
    // predicates are well formed
    let _ = checked.statements();
    match cells_among(
        alloc,
        checked.preds(),
        host_address(net, src),
        host_address(net, dst),
    ) {
        Ok(count) if count <= left => Ok(left - count),
        Err(SplitFault::OutOfMemory) => Err(RuleFault::OutOfMemory),
        _ => Err(RuleFault::TooManyCells {
            count: MAX_CELLS + 1,
        }),
    }
}

/// How many cells there may still be after those from one host to all these.
fn left_after_host(
    alloc: Global,
    net: &Topology,
    checked: &Checked,
    src: usize,
    hosts: &[usize],
    left: u64,
) -> Result<u64, RuleFault>
    requires src { src < length net.now.locations }
    requires hosts { AreAllBelow (length net.now.locations) hosts.now }
    requires few { left ≤ MAX_CELLS }
    ensures ok { IfOk result (λ after.
        after + sum_by (cells_of_pair net.now checked.now.policy src) hosts.now ≡ left) }
    ensures err { IfErr result
        (IsCellFault (sum_by (cells_of_pair net.now checked.now.policy src) hosts.now) left) }
{
    let mut after = left;
    for dst in hosts {
        after = left_after_pair(alloc, net, checked, src, *dst, after)?;
    }
    Ok(after)
}

/// Asks that the cells of all pairs of hosts are within their limit.
pub fn ask_cells(
    alloc: Global,
    net: &Topology,
    checked: &Checked,
    hosts: &[usize],
) -> Result<(), RuleFault>
    requires all { hosts.now ≡ all_hosts net.now }
    requires hosts { AreAllBelow (length net.now.locations) hosts.now }
    ensures ok { OnOk result (count_of_cells net.now checked.now.policy ≤ MAX_CELLS) }
    ensures err { IfErr result (IsCellFault (count_of_cells net.now checked.now.policy) MAX_CELLS) }
{
    let mut left = MAX_CELLS;
    for src in hosts {
        left = left_after_host(alloc, net, checked, *src, hosts, left)?;
    }
    Ok(())
}
