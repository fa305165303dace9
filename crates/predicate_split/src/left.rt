//! What is left of predicates, with their places, once fields of a packet are fixed. What can hold nowhere any more is not kept.

ghost use Rattle.std.specs.Prelude.{◌≡◌, IfOk};
ghost use Rattle.std.specs.List.Sorted.{IsStrictlyIncreasing};
ghost use Rattle.predicate_split.specs.Left.{left_between, entries_between as between, entries_at as at, named_by as named};

use crate::pairs::PlacedPred;
use merlin_model::OutOfMemory;
use merlin_model::network::HostAddress;
use merlin_model::policy::{Field, Pred};
use predicate_logic::{ascending, collect, partial};
use sqlite_items::Items;
use std::alloc::Global;

/// What is left of a predicate between two hosts.
#[tactic(auto, unfolding(crate::specs::Left::left_between))]
pub(crate) fn pred_between(
    alloc: Global,
    pred: &Pred,
    src: HostAddress,
    dst: HostAddress,
) -> Result<Pred, OutOfMemory>
    ensures { IfOk result (λ rest. rest ≡ left_between src dst pred.now) }
{
    let left = partial(alloc, pred, Field::EthSrc, src.eth)?;
    let left = partial(alloc, &left, Field::EthDst, dst.eth)?;
    let left = partial(alloc, &left, Field::IpSrc, u64::from(src.ip))?;
    let left = partial(alloc, &left, Field::IpDst, u64::from(dst.ip))?;
    Ok(left)
}

/// What is left of the predicates that can hold between two hosts.
pub(crate) fn entries_between(
    alloc: Global,
    preds: &[Pred],
    src: HostAddress,
    dst: HostAddress,
) -> Result<Items<PlacedPred>, OutOfMemory>
    ensures { IfOk result (λ left. left ≡ between src dst 0 preds.now) }
{
    let mut left = Items::new(alloc);
    for (place, pred) in preds.iter().enumerate() {
        match pred_between(alloc, pred, src, dst)? {
            Pred::No => {}
            pred => left.push(PlacedPred { place, pred })?,
        }
    }
    Ok(left)
}

/// What is left of the entries that can hold where the field has this value.
pub(crate) fn entries_at(
    alloc: Global,
    entries: &[PlacedPred],
    field: Field,
    value: u64,
) -> Result<Items<PlacedPred>, OutOfMemory>
    ensures { IfOk result (λ left. left ≡ at field value entries.now) }
{
    let mut left = Items::new(alloc);
    for entry in entries {
        let place = entry.place;
        match partial(alloc, &entry.pred, field, value)? {
            Pred::No => {}
            pred => left.push(PlacedPred { place, pred })?,
        }
    }
    Ok(left)
}

/// The values that the entries mention for the field, ascending, each once.
pub(crate) fn named_by(
    alloc: Global,
    entries: &[PlacedPred],
    field: Field,
) -> Result<Vec<u64>, OutOfMemory>
    ensures is { IfOk result (λ values. values.items ≡ named field entries.now) }
{
    let mut values = Vec::new(alloc);
    for entry in entries {
        collect(&entry.pred, field, &mut values)?;
    }
    Ok(ascending(values))
}
