//! The least packet at which a predicate holds.

ghost use Rattle.std.specs.Prelude.{◌≡◌, ◌⊎◌, true, [], ◌∷◌, IfOk, IfSome, IfNone};
ghost use Rattle.predicate_split.specs.Walks.{IsRest, AreFresh, IsUnfixed, IsLeastFrom, HoldsNowhere};

use crate::parts::parts;
use merlin_model::OutOfMemory;
use merlin_model::policy::{Field, Pred};
use packet_model::Packet;
use predicate_logic::{alike, holds, partial};
use std::alloc::Global;
use std::slice::from_ref;

/// The least packet with the fields that are fixed at which the predicate holds.
#[cycle(least_from)]
pub(crate) fn least_from(
    alloc: Global,
    pred: &Pred,
    fields: &[Field],
    packet: Packet,
) -> Result<Option<Packet>, OutOfMemory>
    requires rest { IsRest fields.now }
    requires fresh { AreFresh fields.now packet.proto (pred.now ∷ []) }
    requires opened { IsUnfixed fields.now packet }
    ensures some { IfOk result (λ found. IfSome found (IsLeastFrom fields.now packet pred.now)) }
    ensures none { IfOk result (λ found. IfNone found (HoldsNowhere pred.now)) }
{
    match pred {
        Pred::Yes => return Ok(Some(packet)),
        Pred::No => return Ok(None),
        _ => {}
    }
    match fields.split_first() {
        Some((field, rest)) => least_within(alloc, pred, *field, rest, packet),
        None => {
            if holds(pred, &packet) {
                return Ok(Some(packet));
            }
            Ok(None)
        }
    }
}

/// Two predicates that hold nowhere: what was left at the last part, and what was left at the parts before it and is something else.
#[derive(Drop)]
struct Recent {
    last: Pred,
    earlier: Pred,
}

/// Whether the predicate is one of the two.
fn is_recent(recent: &Recent, pred: &Pred) -> bool
    ensures { result ≡ true → (pred.now ≡ recent.now.last) ⊎ (pred.now ≡ recent.now.earlier) }
{
    alike(pred, &recent.last) || alike(pred, &recent.earlier)
}

/// The two that were left last, once this one is left.
fn renewed(recent: Recent, pred: Pred) -> Recent
    ensures last { (result.last ≡ recent.last) ⊎ (result.last ≡ pred) }
    ensures earlier { (result.earlier ≡ recent.last) ⊎ (result.earlier ≡ recent.earlier) }
{
    if alike(&pred, &recent.last) {
        return recent;
    }
    Recent {
        last: pred,
        earlier: recent.last,
    }
}

/// The same, unless that is known to be nowhere: what is left at a part is most often what was left at one of the parts before.
#[cycle(least_from)]
fn least_unless(
    alloc: Global,
    pred: &Pred,
    recent: &Recent,
    fields: &[Field],
    packet: Packet,
) -> Result<Option<Packet>, OutOfMemory>
    requires rest { IsRest fields.now }
    requires fresh { AreFresh fields.now packet.proto (pred.now ∷ []) }
    requires opened { IsUnfixed fields.now packet }
    requires last { HoldsNowhere recent.now.last }
    requires earlier { HoldsNowhere recent.now.earlier }
    ensures some { IfOk result (λ found. IfSome found (IsLeastFrom fields.now packet pred.now)) }
    ensures none { IfOk result (λ found. IfNone found (HoldsNowhere pred.now)) }
{
    if is_recent(recent, pred) {
        return Ok(None);
    }
    least_from(alloc, pred, fields, packet)
}

/// The same, where the next field and those after it are told apart.
#[cycle(least_from)]
fn least_within(
    alloc: Global,
    pred: &Pred,
    field: Field,
    rest: &[Field],
    packet: Packet,
) -> Result<Option<Packet>, OutOfMemory>
    requires rest { IsRest (field ∷ rest.now) }
    requires fresh { AreFresh (field ∷ rest.now) packet.proto (pred.now ∷ []) }
    requires opened { IsUnfixed (field ∷ rest.now) packet }
    ensures some { IfOk result (λ found.
        IfSome found (IsLeastFrom (field ∷ rest.now) packet pred.now)) }
    ensures none { IfOk result (λ found. IfNone found (HoldsNowhere pred.now)) }
{
    let values = parts(alloc, from_ref(pred), field, packet.value(Field::Proto))?;
    let mut recent = Recent {
        last: Pred::No,
        earlier: Pred::No,
    };
    for value in &values {
        let left = partial(alloc, pred, field, *value)?;
        let found = least_unless(alloc, &left, &recent, rest, packet.with(field, *value))?;
        if found.is_some() {
            return Ok(found);
        }
        recent = renewed(recent, left);
    }
    Ok(None)
}
