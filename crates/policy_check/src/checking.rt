//! Asks of a policy all that later parts rest on, rule by rule.

ghost use Rattle.std.specs.Prelude.{◌≡◌, [], IfOk, IfErr};
ghost use Rattle.std.specs.List.{AllByRecursion};
ghost use Rattle.merlin_model.specs.Predicates.{IsPred};
ghost use Rattle.localise.specs.Localised.{localised};
ghost use Rattle.policy_expansion.specs.Kept.{IsExpanded, IsWellFormed};
ghost use Rattle.topology.specs.Symbols.{network_symbols};
ghost use Rattle.policy_check.specs.Checked.{IsCheckOf};
ghost use Rattle.policy_check.specs.Rules.{listed_preds, BreaksRule};
ghost use Rattle.policy_check.specs.Parts.{IsJudged, BreaksPredicatesOrRates};

use crate::automata::automata_of;
use crate::checked::Checked;
use crate::fault::CheckFault;
use crate::listing::{Listing, listing_of};
use crate::rules::rates_of;
use localise::Rates;
use merlin_model::policy::Symbol;
use policy_expansion::Policy;
use policy_names::numbered_paths;
use std::alloc::Global;
use topology::Topology;

// The lists of a policy whose predicates and formula are as they must be, with its rates.
#[derive(Drop)]
pub(crate) struct Judged {
    pub(crate) listing: Listing,
    pub(crate) rates: Rates,
}

fn judge(alloc: Global, policy: &Policy) -> Result<Judged, CheckFault>
    requires formed { AllByRecursion IsPred (listed_preds policy.now) }
    ensures ok { IfOk result (IsJudged policy.now) }
    ensures err { IfErr result (BreaksPredicatesOrRates policy.now) }
{
    let listing = listing_of(alloc, policy)?;
    let rates = rates_of(alloc, policy, &listing)?;
    Ok(Judged { listing, rates })
}

// The same over these symbols.
fn check_over(
    alloc: Global,
    policy: &Policy,
    net: &Topology,
    symbols: &[Symbol],
) -> Result<Checked, CheckFault>
    requires expanded { IsExpanded policy.now }
    requires formed { IsWellFormed policy.now }
    ensures ok { IfOk result (IsCheckOf net.now symbols.now policy.now) }
    ensures err { IfErr result (BreaksRule net.now symbols.now policy.now) }
{
    policy_names::laws::no_function_stands_under_not();
    localise::laws::no_fault_leaves_room();
    let paths = numbered_paths(alloc, policy, net)?;
    let judged = judge(alloc, policy)?;
    let automata = automata_of(
        alloc,
        judged.listing.ids.as_slice(),
        paths.as_slice(),
        symbols,
    )?;
    let formula = policy.formula.copy(alloc)?;
    Ok(Checked {
        listing: judged.listing,
        paths,
        formula,
        rates: judged.rates,
        automata,
    })
}

/// The policy over the numbers of the topology, if it keeps all rules: names are known, and no function stands under a `!`; the predicates are
/// within the limit of classes, hold of no packet in common, and with the default of each; the formula gives rates; and the paths are within the
/// limit of states over the symbols of the topology.
///
/// # Errors
/// The first rule that is broken.
pub fn check(alloc: Global, policy: &Policy, net: &Topology) -> Result<Checked, CheckFault>
    requires expanded { IsExpanded policy.now }
    requires formed { IsWellFormed policy.now }
    ensures ok { IfOk result (IsCheckOf net.now (network_symbols net.now) policy.now) }
    ensures err { IfErr result (BreaksRule net.now (network_symbols net.now) policy.now) }
{
    check_over(alloc, policy, net, net.symbols())
}
