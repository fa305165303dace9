//! Packets told apart by predicates.

ghost use Rattle.std.specs.Prelude.{◌≡◌, ◌≤◌, length, IfOk, IfErr, IfSome, IfNone};
ghost use Rattle.std.specs.List.{AllByRecursion};
ghost use Rattle.merlin_model.specs.Packets.{IsLeastPacket};
ghost use Rattle.merlin_model.specs.Predicates.{IsPred};
ghost use Rattle.predicate_split.specs.declared.fault.TheConstants.{MAX_CELLS, MAX_CLASSES};
ghost use Rattle.predicate_split.specs.Refusals.{classes_in, RefusesClasses};
ghost use Rattle.predicate_split.specs.Overlaps.{ShareNothing, IsLeastOverlap};
ghost use Rattle.predicate_split.specs.Least.{AllHold, NoneHolds, IsNowhere};
ghost use Rattle.predicate_split.specs.Cells.{cells_between, RefusesCells};

use merlin_model::network::HostAddress;
use merlin_model::policy::Pred;
use packet_model::Packet;
use predicate_split::{Cell, SplitFault, cells, least_common, least_outside, overlap};
use std::alloc::Global;

/// What `least_common` answers.
pub fn shared_packet(alloc: Global, preds: &[Pred]) -> Result<Option<Packet>, SplitFault>
    requires { AllByRecursion IsPred preds.now }
    ensures some { IfOk result (λ found. IfSome found (IsLeastPacket (AllHold preds.now))) }
    ensures none { IfOk result (λ found. IfNone found (IsNowhere (AllHold preds.now))) }
    ensures classes { IfOk result (λ _. classes_in preds.now ≤ MAX_CLASSES) }
    ensures err { IfErr result (RefusesClasses preds.now) }
{
    least_common(alloc, preds)
}

/// What `least_outside` answers.
pub fn packet_outside(alloc: Global, preds: &[Pred]) -> Result<Option<Packet>, SplitFault>
    requires { AllByRecursion IsPred preds.now }
    ensures some { IfOk result (λ found. IfSome found (IsLeastPacket (NoneHolds preds.now))) }
    ensures none { IfOk result (λ found. IfNone found (IsNowhere (NoneHolds preds.now))) }
    ensures classes { IfOk result (λ _. classes_in preds.now ≤ MAX_CLASSES) }
    ensures err { IfErr result (RefusesClasses preds.now) }
{
    least_outside(alloc, preds)
}

/// What `overlap` answers.
pub fn shared_places(
    alloc: Global,
    preds: &[Pred],
) -> Result<Option<(usize, usize, Packet)>, SplitFault>
    requires { AllByRecursion IsPred preds.now }
    ensures some { IfOk result (λ found.
        IfSome found (λ o. IsLeastOverlap preds.now o.0 o.1 o.2)) }
    ensures none { IfOk result (λ found. IfNone found (ShareNothing preds.now)) }
    ensures classes { IfOk result (λ _. classes_in preds.now ≤ MAX_CLASSES) }
    ensures err { IfErr result (RefusesClasses preds.now) }
{
    match overlap(alloc, preds) {
        Ok(Some((first, second, packet))) => Ok(Some((first, second, packet))),
        Ok(None) => Ok(None),
        Err(fault) => Err(fault),
    }
}

/// What `cells` answers.
pub fn cells_of_pair(
    alloc: Global,
    preds: &[Pred],
    src: HostAddress,
    dst: HostAddress,
) -> Result<Vec<Cell>, SplitFault>
    requires { AllByRecursion IsPred preds.now }
    ensures cells { IfOk result (λ cells. cells.items ≡ cells_between preds.now src dst) }
    ensures few { IfOk result (λ cells. length cells.items ≤ MAX_CELLS) }
    ensures err { IfErr result (RefusesCells preds.now src dst) }
{
    cells(alloc, preds, src, dst)
}
