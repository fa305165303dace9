//! Whether the caps and guarantees of a child stay within the terms of its parent, asked of one term after another.

ghost use Rattle.std.specs.Prelude.{◌≡◌, ◌↔◌, IsTrue, length, IfErr, OnOk};
ghost use Rattle.merlin_model.specs.declared.policy.Bound.TheVariants as bound;
ghost use Rattle.merlin_model.specs.Networks.{Network};
ghost use Rattle.merlin_model.specs.Policies.{paths_of};
ghost use Rattle.refinement_model.specs.Refinement.{IsAtMost, KeepsCap, KeepsReserve};
ghost use Rattle.negotiator.specs.Amounts.{KeepsAllCaps, KeepsAllReserves, IsWithinReserves};
ghost use Rattle.negotiator.specs.Marks.{AreContactsWithin};
ghost use Rattle.negotiator.specs.Refusals.{RefusesCap, RefusesCaps, RefusesReserve};
ghost use Rattle.negotiator.specs.Refusals.{RefusesReserves, RefusesOutside, RefusesAmounts};
ghost use Rattle.negotiator.specs.Wider.{AreContacts};

use crate::contacts::Contact;
use crate::fault::RefineFault;
use crate::marking::{marks_of, touched_by, unreserved};
use crate::sums::{amount, guarantee_of, sum_of_caps, sum_of_guarantees};
use merlin_model::policy::{Bound, Term};
use policy_check::Checked;
use std::alloc::Global;

// Whether a sum is within an amount.
fn is_at_most(sum: Option<u64>, amount: u64) -> bool
    ensures { IsTrue result ↔ IsAtMost sum amount }
{
    match sum {
        Some(sum) => sum <= amount,
        None => false,
    }
}

// Asks of the term of a number that the caps of all that touch it are within its amount.
fn ask_cap(
    alloc: Global,
    parent: &Checked,
    child: &Checked,
    contacts: &[Contact],
    number: usize,
    term: &Term,
) -> Result<(), RefineFault>
    requires within { AreContactsWithin (length (paths_of child.now.policy))
        (length (paths_of parent.now.policy)) contacts.now }
    ensures ok { (net : Network) →
        AreContacts net parent.now.policy child.now.policy contacts.now → OnOk result
        (term.now.bound ≡ bound.Max → KeepsCap net parent.now.policy child.now.policy term.now) }
    ensures err { (net : Network) →
        AreContacts net parent.now.policy child.now.policy contacts.now → IfErr result
        (RefusesCap net parent.now.policy child.now.policy number term.now) }
{
    if term.bound != Bound::Max {
        return Ok(());
    }
    refinement_model::laws::all_touching_decide();
    let _sound = child.statements();
    let touched = touched_by(alloc, parent, child, contacts, term)?;
    let sum = sum_of_caps(child, &touched);
    if is_at_most(sum, amount(term)) {
        Ok(())
    } else {
        Err(RefineFault::CapWider { term: number, sum })
    }
}

// Asks that the caps stay within the `max` terms.
fn ask_caps(
    alloc: Global,
    parent: &Checked,
    child: &Checked,
    contacts: &[Contact],
    terms: &[Term],
) -> Result<(), RefineFault>
    requires within { AreContactsWithin (length (paths_of child.now.policy))
        (length (paths_of parent.now.policy)) contacts.now }
    requires terms { terms.now ≡ parent.now.policy.terms }
    ensures ok { (net : Network) →
        AreContacts net parent.now.policy child.now.policy contacts.now → OnOk result
        (KeepsAllCaps net parent.now.policy child.now.policy) }
    ensures err { (net : Network) →
        AreContacts net parent.now.policy child.now.policy contacts.now → IfErr result
        (RefusesCaps net parent.now.policy child.now.policy) }
{
    for (place, term) in terms.iter().enumerate() {
        ask_cap(alloc, parent, child, contacts, place + 1, term)?;
    }
    Ok(())
}

// Asks of the term of a number that the guarantees of all that touch it are within its amount.
fn ask_reserve(
    alloc: Global,
    parent: &Checked,
    child: &Checked,
    contacts: &[Contact],
    number: usize,
    term: &Term,
) -> Result<(), RefineFault>
    requires within { AreContactsWithin (length (paths_of child.now.policy))
        (length (paths_of parent.now.policy)) contacts.now }
    ensures ok { (net : Network) →
        AreContacts net parent.now.policy child.now.policy contacts.now → OnOk result
        (term.now.bound ≡ bound.Min →
        KeepsReserve net parent.now.policy child.now.policy term.now) }
    ensures err { (net : Network) →
        AreContacts net parent.now.policy child.now.policy contacts.now → IfErr result
        (RefusesReserve net parent.now.policy child.now.policy number term.now) }
{
    if term.bound != Bound::Min {
        return Ok(());
    }
    refinement_model::laws::all_touching_decide();
    let _sound = child.statements();
    let touched = touched_by(alloc, parent, child, contacts, term)?;
    let sum = sum_of_guarantees(child, &touched);
    if sum <= amount(term) {
        Ok(())
    } else {
        Err(RefineFault::ReserveWider { term: number, sum })
    }
}

// Asks that the guarantees stay within the `min` terms.
fn ask_reserves(
    alloc: Global,
    parent: &Checked,
    child: &Checked,
    contacts: &[Contact],
    terms: &[Term],
) -> Result<(), RefineFault>
    requires within { AreContactsWithin (length (paths_of child.now.policy))
        (length (paths_of parent.now.policy)) contacts.now }
    requires terms { terms.now ≡ parent.now.policy.terms }
    ensures ok { (net : Network) →
        AreContacts net parent.now.policy child.now.policy contacts.now → OnOk result
        (KeepsAllReserves net parent.now.policy child.now.policy) }
    ensures err { (net : Network) →
        AreContacts net parent.now.policy child.now.policy contacts.now → IfErr result
        (RefusesReserves net parent.now.policy child.now.policy) }
{
    for (place, term) in terms.iter().enumerate() {
        ask_reserve(alloc, parent, child, contacts, place + 1, term)?;
    }
    Ok(())
}

// Asks that no guaranteed statement touches what no `min` term bounds.
fn ask_outside(
    alloc: Global,
    parent: &Checked,
    child: &Checked,
    contacts: &[Contact],
) -> Result<(), RefineFault>
    requires within { AreContactsWithin (length (paths_of child.now.policy))
        (length (paths_of parent.now.policy)) contacts.now }
    ensures ok { (net : Network) →
        AreContacts net parent.now.policy child.now.policy contacts.now → OnOk result
        ((i : _) → IsWithinReserves net parent.now.policy child.now.policy i) }
    ensures err { (net : Network) →
        AreContacts net parent.now.policy child.now.policy contacts.now → IfErr result
        (RefusesOutside net parent.now.policy child.now.policy) }
{
    let unreserved = unreserved(alloc, parent)?;
    let outside = marks_of(alloc, contacts, &unreserved, child.statements())?;
    for (statement, is_outside) in outside.iter().enumerate() {
        let sum = guarantee_of(child, statement);
        if *is_outside && sum > 0 {
            return Err(RefineFault::ReserveWider { term: 0, sum });
        }
    }
    Ok(())
}

/// Asks that the caps stay within the `max` terms, then that the guarantees stay within the `min` terms, and then that none touches what no
/// `min` term bounds.
pub(crate) fn ask_amounts(
    alloc: Global,
    parent: &Checked,
    child: &Checked,
    contacts: &[Contact],
) -> Result<(), RefineFault>
    requires within { AreContactsWithin (length (paths_of child.now.policy))
        (length (paths_of parent.now.policy)) contacts.now }
    ensures caps { (net : Network) →
        AreContacts net parent.now.policy child.now.policy contacts.now → OnOk result
        (KeepsAllCaps net parent.now.policy child.now.policy) }
    ensures reserves { (net : Network) →
        AreContacts net parent.now.policy child.now.policy contacts.now → OnOk result
        (KeepsAllReserves net parent.now.policy child.now.policy) }
    ensures outside { (net : Network) →
        AreContacts net parent.now.policy child.now.policy contacts.now → OnOk result
        ((i : _) → IsWithinReserves net parent.now.policy child.now.policy i) }
    ensures err { (net : Network) →
        AreContacts net parent.now.policy child.now.policy contacts.now → IfErr result
        (RefusesAmounts net parent.now.policy child.now.policy) }
{
    let terms = parent.formula().terms.as_slice();
    ask_caps(alloc, parent, child, contacts, terms)?;
    ask_reserves(alloc, parent, child, contacts, terms)?;
    ask_outside(alloc, parent, child, contacts)
}
