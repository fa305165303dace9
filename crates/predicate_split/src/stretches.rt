//! Predicates where a field has a value of a stretch: tests on other values are left out, so that half a stretch has half the tests.

ghost use Rattle.std.specs.Prelude.{◌≡◌, ◌≤◌, ◌<◌, ◌-◌, ◌^◌, IfOk, IsTrue, false};
ghost use Rattle.std.specs.List.{list_all, list_any};
ghost use Rattle.merlin_model.specs.declared.policy.Pred.{Not};
ghost use Rattle.merlin_model.specs.Packets.{Packet};
ghost use Rattle.merlin_model.specs.Predicates.{passes, holds};
ghost use Rattle.predicate_split.specs.Stretches.{IsInStretch, HoldsAlike, HoldsAsAll, HoldsAsAny, HaveSameHolder};

use crate::pairs::PlacedPred;
use merlin_model::OutOfMemory;
use merlin_model::policy::{Field, Pred, Test};
use sqlite_items::{Boxed, Items};
use std::alloc::Global;

/// The values of a field from `low` on that are below `past`.
#[derive(Clone, Copy)]
pub struct Stretch {
    pub field: Field,
    pub low: u64,
    pub past: u64,
}

impl Stretch {
    /// The least stretch around this one with this value.
    pub(crate) fn with(self, value: u64) -> Stretch
        requires { value < 2 ^ 64 - 1 }
        ensures field { result.field ≡ self.field }
        ensures low { result.low ≤ self.low }
        ensures past { self.past ≤ result.past }
        ensures value { (result.low ≤ value) × (value < result.past) }
    {
        Stretch {
            field: self.field,
            low: self.low.min(value),
            past: self.past.max(value + 1),
        }
    }
}

/// Whether a test is on a value outside of the stretch.
fn is_beyond(test: Test, stretch: Stretch) -> bool
    ensures { IsTrue result → (q : Packet) → IsInStretch stretch q → passes test q ≡ false }
{
    match test {
        Test::Is { field, value } => {
            field == stretch.field && (value < stretch.low || stretch.past <= value)
        }
        _ => false,
    }
}

fn narrowed_test(test: Test, stretch: Stretch) -> Pred
    ensures { (q : Packet) → IsInStretch stretch q → holds result q ≡ passes test q }
{
    if is_beyond(test, stretch) {
        Pred::No
    } else {
        Pred::Test(test)
    }
}

/// All of the predicates.
fn all_of(preds: Items<Pred>) -> Pred
    ensures { (q : Packet) → holds result q ≡ list_all (λ pred. holds pred q) preds }
{
    if preds.is_empty() {
        Pred::Yes
    } else {
        Pred::All(preds)
    }
}

/// Any of the predicates.
fn any_of(preds: Items<Pred>) -> Pred
    ensures { (q : Packet) → holds result q ≡ list_any (λ pred. holds pred q) preds }
{
    if preds.is_empty() {
        Pred::No
    } else {
        Pred::AnyOf(preds)
    }
}

/// The contrary.
fn not_of(alloc: Global, pred: Pred) -> Result<Pred, OutOfMemory>
    ensures { IfOk result (λ rest. rest ≡ Not pred) }
{
    Ok(Pred::Not(Boxed::new(alloc, pred)?))
}

/// What is left of a predicate within the stretch.
#[cycle(narrowed)]
fn narrowed(alloc: Global, pred: &Pred, stretch: Stretch) -> Result<Pred, OutOfMemory>
    ensures { IfOk result (λ rest. HoldsAlike stretch rest pred.now) }
{
    match pred {
        Pred::Yes => Ok(Pred::Yes),
        Pred::No => Ok(Pred::No),
        Pred::Test(test) => Ok(narrowed_test(*test, stretch)),
        Pred::All(preds) => narrowed_all(alloc, preds.as_slice(), stretch),
        Pred::AnyOf(preds) => narrowed_any(alloc, preds.as_slice(), stretch),
        Pred::Not(pred) => not_of(alloc, narrowed(alloc, pred.get(), stretch)?),
    }
}

/// What is left of all of the predicates.
#[cycle(narrowed)]
fn narrowed_all(alloc: Global, preds: &[Pred], stretch: Stretch) -> Result<Pred, OutOfMemory>
    ensures { IfOk result (λ rest. HoldsAsAll stretch rest preds.now) }
{
    let mut kept = Items::new(alloc);
    for pred in preds {
        match narrowed(alloc, pred, stretch)? {
            Pred::Yes => {}
            Pred::No => return Ok(Pred::No),
            rest => kept.push(rest)?,
        }
    }
    Ok(all_of(kept))
}

/// What is left of any of the predicates.
#[cycle(narrowed)]
fn narrowed_any(alloc: Global, preds: &[Pred], stretch: Stretch) -> Result<Pred, OutOfMemory>
    ensures { IfOk result (λ rest. HoldsAsAny stretch rest preds.now) }
{
    let mut kept = Items::new(alloc);
    for pred in preds {
        match narrowed(alloc, pred, stretch)? {
            Pred::No => {}
            Pred::Yes => return Ok(Pred::Yes),
            rest => kept.push(rest)?,
        }
    }
    Ok(any_of(kept))
}

/// The entries that can hold within the stretch.
pub(crate) fn entries_within(
    alloc: Global,
    entries: &[PlacedPred],
    stretch: Stretch,
) -> Result<Items<PlacedPred>, OutOfMemory>
    ensures { IfOk result (λ rest. HaveSameHolder stretch rest entries.now) }
{
    let mut kept = Items::new(alloc);
    for entry in entries {
        let place = entry.place;
        match narrowed(alloc, &entry.pred, stretch)? {
            Pred::No => {}
            pred => kept.push(PlacedPred { place, pred })?,
        }
    }
    Ok(kept)
}
