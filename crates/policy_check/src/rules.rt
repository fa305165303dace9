//! What is asked of a policy beside its paths: predicates of which no two hold of one packet and one holds of each, and rates.

ghost use Rattle.std.specs.Prelude.{◌≡◌, ◌<◌, [], length, IfOk, IfErr, OnOk};
ghost use Rattle.std.specs.List.{AllByRecursion};
ghost use Rattle.merlin_model.specs.Predicates.{IsPred};
ghost use Rattle.localise.specs.Localised.{localised};
ghost use Rattle.policy_check.specs.Rules.{listed_ids, listed_preds, HasApartPreds, LeavesNothing, rate_faults};
ghost use Rattle.policy_check.specs.Parts.{overlap_at, BreaksApartness, BreaksTotality, BreaksPredicatesOrRates};

use crate::fault::CheckFault;
use crate::listing::Listing;
use localise::{Rates, localise};
use merlin_model::policy::Pred;
use merlin_model::{Name, OutOfMemory};
use packet_model::Packet;
use policy_expansion::Policy;
use predicate_split::{least_outside, overlap};
use std::alloc::Global;

// Asks that no two predicates hold of one packet.
fn ask_apart(alloc: Global, policy: &Policy, listing: &Listing) -> Result<(), CheckFault>
    requires ids { listing.now.ids ≡ listed_ids policy.now }
    requires preds { listing.now.preds ≡ listed_preds policy.now }
    requires formed { AllByRecursion IsPred (listed_preds policy.now) }
    ensures ok { OnOk result (HasApartPreds policy.now) }
    ensures err { IfErr result (BreaksApartness policy.now) }
{
    match overlap(alloc, listing.preds.as_slice())? {
        Some((first, second, packet)) => {
            let ids = listing.ids.as_slice();
            Err(overlap_of(alloc, ids, first, second, packet)?)
        }
        None => Ok(()),
    }
}

// The refusal of two statements by their places.
fn overlap_of(
    alloc: Global,
    ids: &[Name],
    first: usize,
    second: usize,
    packet: Packet,
) -> Result<CheckFault, OutOfMemory>
    requires first { first < length ids.now }
    requires second { second < length ids.now }
    ensures { IfOk result (λ fault. fault ≡ overlap_at ids.now first second packet) }
{
    Ok(CheckFault::Overlap {
        first: ids[first].copy(alloc)?,
        second: ids[second].copy(alloc)?,
        packet,
    })
}

// Asks that there is a default, or that some predicate holds of each packet.
fn ask_total(alloc: Global, policy: &Policy, preds: &[Pred]) -> Result<(), CheckFault>
    requires preds { preds.now ≡ listed_preds policy.now }
    requires formed { AllByRecursion IsPred (listed_preds policy.now) }
    requires apart { HasApartPreds policy.now }
    ensures ok { OnOk result (LeavesNothing policy.now) }
    ensures err { IfErr result (BreaksTotality policy.now) }
{
    if policy.default_path.is_some() {
        return Ok(());
    }
    match least_outside(alloc, preds)? {
        Some(packet) => Err(CheckFault::NotTotal { packet }),
        None => Ok(()),
    }
}

// The rates of the statements, if the predicates are as they must be.
pub(crate) fn rates_of(
    alloc: Global,
    policy: &Policy,
    listing: &Listing,
) -> Result<Rates, CheckFault>
    requires ids { listing.now.ids ≡ listed_ids policy.now }
    requires preds { listing.now.preds ≡ listed_preds policy.now }
    requires formed { AllByRecursion IsPred (listed_preds policy.now) }
    ensures apart { OnOk result (HasApartPreds policy.now) }
    ensures total { OnOk result (LeavesNothing policy.now) }
    ensures clear { OnOk result (rate_faults policy.now ≡ []) }
    ensures are { IfOk result (λ rates.
        rates ≡ localised policy.now.formula.terms (listed_ids policy.now)) }
    ensures err { IfErr result (BreaksPredicatesOrRates policy.now) }
{
    ask_apart(alloc, policy, listing)?;
    ask_total(alloc, policy, listing.preds.as_slice())?;
    let rates = localise(alloc, &policy.formula, listing.ids.as_slice())?;
    Ok(rates)
}
