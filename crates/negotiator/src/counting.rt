//! Whether the cells of two policies are within their limit: pair of hosts by pair of hosts, as long as there is room.

ghost use Rattle.std.specs.Prelude.{◌≡◌, ◌≤◌, ◌<◌, ◌+◌, length, IfOk, IfErr, OnOk};
ghost use Rattle.std.specs.List.{AllByRecursion};
ghost use Rattle.merlin_model.specs.Predicates.{IsPred};
ghost use Rattle.predicate_split.specs.Cells.{cells_between};
ghost use Rattle.negotiator.specs.CellCounts.{cells_of_pair, cells_from, cell_count};
ghost use Rattle.negotiator.specs.Refusals.{PassesRoom};

use crate::fault::RefineFault;
use merlin_model::network::HostAddress;
use merlin_model::policy::Pred;
use predicate_split::{MAX_CELLS, SplitFault, cells};
use std::alloc::Global;
use topology::Topology;

// What is left of the room beside so many cells.
fn room_beside(room: u64, count: u64) -> Result<u64, RefineFault>
    ensures ok { IfOk result (λ left. left + count ≡ room) }
    ensures err { IfErr result (PassesRoom count room) }
{
    match room.checked_sub(count) {
        Some(left) => Ok(left),
        None => Err(RefineFault::TooManyCells {
            count: MAX_CELLS + 1,
        }),
    }
}

// What is left of the room beside the cells of the packets from one host to another.
fn room_beside_hosts(
    alloc: Global,
    preds: &[Pred],
    src: HostAddress,
    dst: HostAddress,
    room: u64,
) -> Result<u64, RefineFault>
    requires preds { AllByRecursion IsPred preds.now }
    requires room { room ≤ MAX_CELLS }
    ensures ok { IfOk result (λ left. left + length (cells_between preds.now src dst) ≡ room) }
    ensures err { IfErr result (PassesRoom (length (cells_between preds.now src dst)) room) }
{
    match cells(alloc, preds, src, dst) {
        Ok(cells) => room_beside(room, cells.len() as u64),
        Err(SplitFault::OutOfMemory) => Err(RefineFault::OutOfMemory),
        Err(_) => Err(RefineFault::TooManyCells {
            count: MAX_CELLS + 1,
        }),
    }
}

// The same from one location to another, of which each may be a host.
fn room_beside_pair(
    alloc: Global,
    preds: &[Pred],
    net: &Topology,
    src: usize,
    dst: usize,
    room: u64,
) -> Result<u64, RefineFault>
    requires preds { AllByRecursion IsPred preds.now }
    requires room { room ≤ MAX_CELLS }
    requires src { src < length net.now.locations }
    requires dst { dst < length net.now.locations }
    ensures ok { IfOk result (λ left. left + cells_of_pair net.now preds.now src dst ≡ room) }
    ensures err { IfErr result (PassesRoom (cells_of_pair net.now preds.now src dst) room) }
{
    if src == dst {
        return Ok(room);
    }
    let Some(of_src) = net.host(src) else {
        return Ok(room);
    };
    let Some(of_dst) = net.host(dst) else {
        return Ok(room);
    };
    room_beside_hosts(alloc, preds, of_src, of_dst, room)
}

// The same from one location to all.
fn room_beside_row(
    alloc: Global,
    preds: &[Pred],
    net: &Topology,
    src: usize,
    room: u64,
) -> Result<u64, RefineFault>
    requires preds { AllByRecursion IsPred preds.now }
    requires room { room ≤ MAX_CELLS }
    requires src { src < length net.now.locations }
    ensures ok { IfOk result (λ left. left + cells_from net.now preds.now src ≡ room) }
    ensures err { IfErr result (PassesRoom (cells_from net.now preds.now src) room) }
{
    let mut left = room;
    for dst in 0..net.locations() {
        left = room_beside_pair(alloc, preds, net, src, dst, left)?;
    }
    Ok(left)
}

/// Asks that the predicates have no more cells than there may be, over all ordered pairs of hosts.
pub(crate) fn ask_cells(alloc: Global, preds: &[Pred], net: &Topology) -> Result<(), RefineFault>
    requires preds { AllByRecursion IsPred preds.now }
    ensures ok { OnOk result (cell_count net.now preds.now ≤ MAX_CELLS) }
    ensures err { IfErr result (PassesRoom (cell_count net.now preds.now) MAX_CELLS) }
{
    let mut left = MAX_CELLS;
    for src in 0..net.locations() {
        left = room_beside_row(alloc, preds, net, src, left)?;
    }
    Ok(())
}
