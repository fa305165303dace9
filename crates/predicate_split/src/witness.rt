//! The least packet that some predicates share, and the least of which none holds. Classes of packets are walked field by field
//! in their order; what is left of the predicates at a part decides whether a packet can be there.

ghost use Rattle.std.specs.Prelude.{◌≡◌, ◌≤◌, ◌∷◌, [], IfOk, IfSome, IfNone, IfErr};
ghost use Rattle.std.specs.List.{AllByRecursion};
ghost use Rattle.merlin_model.specs.declared.policy.Pred.{All as AllOf, AnyOf, Not};
ghost use Rattle.merlin_model.specs.Packets.{IsLeastPacket};
ghost use Rattle.merlin_model.specs.Predicates.{IsPred};
ghost use Rattle.predicate_split.specs.declared.fault.TheConstants.{MAX_CLASSES};
ghost use Rattle.predicate_split.specs.Refusals.{classes_in, RefusesClasses};
ghost use Rattle.predicate_split.specs.Overlaps.{ShareNothing, IsLeastOverlap};
ghost use Rattle.predicate_split.specs.Least.{AllHold, NoneHolds, IsNowhere};
ghost use Rattle.predicate_split.specs.Walks.{HoldsAt, HoldsNowhere};

use crate::count::count_from;
use crate::fault::{MAX_CLASSES, SplitFault};
use crate::least::least_from;
use crate::pairs::least_pair;
use merlin_model::OutOfMemory;
use merlin_model::policy::{Field, Pred};
use packet_model::{Packet, packet_of};
use sqlite_items::{Boxed, Items};
use std::alloc::Global;

/// The fields, in the order in which packets are compared.
const FIELDS: [Field; 7] = [
    Field::EthSrc,
    Field::EthDst,
    Field::IpSrc,
    Field::IpDst,
    Field::Proto,
    Field::Sport,
    Field::Dport,
];

/// Asks that the classes are within their limit.
fn ask_classes(alloc: Global, preds: &[Pred]) -> Result<(), SplitFault>
    ensures ok { IfOk result (λ _. classes_in preds.now ≤ MAX_CLASSES) }
    ensures err { IfErr result (RefusesClasses preds.now) }
{
    let found = count_from(alloc, preds, &FIELDS, 0, MAX_CLASSES)?;
    match found {
        Some(_count) => Ok(()),
        None => Err(SplitFault::TooManyClasses {
            count: MAX_CLASSES + 1,
        }),
    }
}

/// The least packet at which the predicate holds.
fn least_packet(alloc: Global, pred: &Pred) -> Result<Option<Packet>, OutOfMemory>
    requires { IsPred pred.now }
    ensures some { IfOk result (λ found. IfSome found (IsLeastPacket (HoldsAt pred.now))) }
    ensures none { IfOk result (λ found. IfNone found (HoldsNowhere pred.now)) }
{
    let Some(zero) = packet_of(0, 0, 0, 0, 0, 0, 0) else {
        return Ok(None);
    };
    let found = least_from(alloc, pred, &FIELDS, zero)?;
    Ok(found)
}

/// The least packet at which all of the predicates hold.
pub fn least_common(alloc: Global, preds: &[Pred]) -> Result<Option<Packet>, SplitFault>
    requires { AllByRecursion IsPred preds.now }
    ensures some { IfOk result (λ found. IfSome found (IsLeastPacket (AllHold preds.now))) }
    ensures none { IfOk result (λ found. IfNone found (IsNowhere (AllHold preds.now))) }
    ensures classes { IfOk result (λ _. classes_in preds.now ≤ MAX_CLASSES) }
    ensures err { IfErr result (RefusesClasses preds.now) }
{
    ask_classes(alloc, preds)?;
    let all = all_of(alloc, preds)?;
    let found = least_packet(alloc, &all)?;
    Ok(found)
}

/// The least packet at which none of the predicates holds.
pub fn least_outside(alloc: Global, preds: &[Pred]) -> Result<Option<Packet>, SplitFault>
    requires { AllByRecursion IsPred preds.now }
    ensures some { IfOk result (λ found. IfSome found (IsLeastPacket (NoneHolds preds.now))) }
    ensures none { IfOk result (λ found. IfNone found (IsNowhere (NoneHolds preds.now))) }
    ensures classes { IfOk result (λ _. classes_in preds.now ≤ MAX_CLASSES) }
    ensures err { IfErr result (RefusesClasses preds.now) }
{
    ask_classes(alloc, preds)?;
    let none = none_of(alloc, preds)?;
    let found = least_packet(alloc, &none)?;
    Ok(found)
}

/// The least pair of places whose predicates share a packet, and the least packet that they share.
pub fn overlap(alloc: Global, preds: &[Pred]) -> Result<Option<(usize, usize, Packet)>, SplitFault>
    requires { AllByRecursion IsPred preds.now }
    ensures some { IfOk result (λ found.
        IfSome found (λ o. IsLeastOverlap preds.now o.0 o.1 o.2)) }
    ensures none { IfOk result (λ found. IfNone found (ShareNothing preds.now)) }
    ensures classes { IfOk result (λ _. classes_in preds.now ≤ MAX_CLASSES) }
    ensures err { IfErr result (RefusesClasses preds.now) }
{
    ask_classes(alloc, preds)?;
    let Some(zero) = packet_of(0, 0, 0, 0, 0, 0, 0) else {
        return Ok(None);
    };
    let Some((first, second)) = least_pair(alloc, preds, &FIELDS, zero)? else {
        return Ok(None);
    };
    let found = least_shared(alloc, &preds[first], &preds[second])?;
    match found {
        Some(packet) => Ok(Some((first, second, packet))),
        None => Ok(None),
    }
}

/// The least packet at which two of the predicates hold.
fn least_shared(alloc: Global, first: &Pred, second: &Pred) -> Result<Option<Packet>, OutOfMemory>
    requires first { IsPred first.now }
    requires second { IsPred second.now }
    ensures some { IfOk result (λ found.
        IfSome found (IsLeastPacket (AllHold (first.now ∷ second.now ∷ [])))) }
    ensures none { IfOk result (λ found.
        IfNone found (IsNowhere (AllHold (first.now ∷ second.now ∷ [])))) }
{
    let mut both = Items::new(alloc);
    both.push(first.copy(alloc)?)?;
    both.push(second.copy(alloc)?)?;
    let both = Pred::All(both);
    let found = least_packet(alloc, &both)?;
    Ok(found)
}

/// The predicate that all of these hold.
fn all_of(alloc: Global, preds: &[Pred]) -> Result<Pred, OutOfMemory>
    ensures { IfOk result (λ all. all ≡ AllOf preds.now) }
{
    Ok(Pred::All(copies(alloc, preds)?))
}

/// The predicate that none of these holds.
fn none_of(alloc: Global, preds: &[Pred]) -> Result<Pred, OutOfMemory>
    ensures { IfOk result (λ none. none ≡ Not (AnyOf preds.now)) }
{
    let any = Pred::AnyOf(copies(alloc, preds)?);
    Ok(Pred::Not(Boxed::new(alloc, any)?))
}

/// Equal predicates, in the same order.
fn copies(alloc: Global, preds: &[Pred]) -> Result<Items<Pred>, OutOfMemory>
    ensures { IfOk result (λ copies. copies ≡ preds.now) }
{
    let mut copies = Items::new(alloc);
    for pred in preds {
        copies.push(pred.copy(alloc)?)?;
    }
    Ok(copies)
}
