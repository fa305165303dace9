//! Which statements of a parent a term bounds, and which of a child touch them.

ghost use Rattle.std.specs.Prelude.{◌≡◌, ◌<◌, ◌↔◌, IsTrue, Some, true, not, Contains, filter_map, slice_set, length, IfOk, if◌then◌else◌};
ghost use Rattle.merlin_model.specs.Networks.{Network};
ghost use Rattle.merlin_model.specs.Policies.{paths_of};
ghost use Rattle.merlin_model.specs.Rates.{id_of_part, is_max};
ghost use Rattle.refinement_model.specs.Refinement.{AreTouching, IsIn, IsReserved};
ghost use Rattle.negotiator.specs.Marks.{AreBounded, AreMarks, AreUnreserved, AreContactsWithin, is_marked, marked};
ghost use Rattle.negotiator.specs.Wider.{AreContacts};

use crate::contacts::Contact;
use merlin_model::policy::{Bound, Part, Term};
use merlin_model::{Name, OutOfMemory};
use policy_check::Checked;
use std::alloc::Global;

// Whether a part of a term is this id.
fn is_id(part: &Part, id: &Name) -> bool
    ensures { IsTrue result ↔ (id_of_part part.now ≡ Some id.now) }
{
    match part {
        Part::Id(other) => other.bytes() == id.bytes(),
        Part::Constant(_) => false,
    }
}

// Whether an id is among the parts of a term.
fn has_id(parts: &[Part], id: &Name) -> bool
    ensures { IsTrue result ↔ Contains (filter_map id_of_part parts.now) id.now }
{
    for part in parts {
        if is_id(part, id) {
            return true;
        }
    }
    false
}

// Whether a term bounds a statement.
fn is_bounded(policy: &Checked, term: &Term, statement: usize) -> bool
    ensures { IsTrue result ↔ IsIn policy.now.policy term.now statement }
{
    match policy.id(statement) {
        Some(id) => has_id(term.parts.as_slice(), id),
        None => false,
    }
}

// Marks on the statements that a term bounds.
fn bounded_by(alloc: Global, policy: &Checked, term: &Term) -> Result<Vec<bool>, OutOfMemory>
    ensures { IfOk result (λ marks. AreBounded policy.now.policy term.now marks.items) }
{
    let mut marks = Vec::new(alloc);
    for statement in 0..policy.statements() {
        marks.push(is_bounded(policy, term, statement))?;
    }
    Ok(marks)
}

fn is_min(term: &Term) -> bool
    ensures { result ≡ not (is_max term.now.bound) }
{
    match term.bound {
        Bound::Max => false,
        Bound::Min => true,
    }
}

// Whether some `min` term bounds a statement.
fn is_reserved(policy: &Checked, terms: &[Term], statement: usize) -> bool
    requires { terms.now ≡ policy.now.policy.terms }
    ensures { IsTrue result ↔ IsReserved policy.now.policy statement }
{
    for term in terms {
        if is_min(term) && is_bounded(policy, term, statement) {
            return true;
        }
    }
    false
}

/// Marks on the statements that no `min` term bounds.
pub(crate) fn unreserved(alloc: Global, policy: &Checked) -> Result<Vec<bool>, OutOfMemory>
    ensures { IfOk result (λ marks. AreUnreserved policy.now.policy marks.items) }
{
    let terms = policy.formula().terms.as_slice();
    let mut marks = Vec::new(alloc);
    for statement in 0..policy.statements() {
        marks.push(!is_reserved(policy, terms, statement))?;
    }
    Ok(marks)
}

// Marks the statement of a contact with one that is chosen.
fn mark_contact(contact: Contact, chosen: &[bool], marks: &mut Vec<bool>)
    requires child { contact.child < length marks.old.items }
    requires parent { contact.parent < length chosen.now }
    ensures { marks.new.items ≡ (if is_marked chosen.now contact.parent
        then slice_set marks.old.items contact.child true else marks.old.items) }
{
    if chosen[contact.parent] {
        marks[contact.child] = true;
    }
}

/// Marks on the statements that are in touch with one that is chosen, among so many.
pub(crate) fn marks_of(
    alloc: Global,
    contacts: &[Contact],
    chosen: &[bool],
    count: usize,
) -> Result<Vec<bool>, OutOfMemory>
    requires { AreContactsWithin count (length chosen.now) contacts.now }
    ensures { IfOk result (λ marks. AreMarks contacts.now chosen.now count marks.items) }
{
    let mut marks = vec![in alloc; false; count]?;
    for contact in contacts {
        mark_contact(*contact, chosen, &mut marks);
    }
    Ok(marks)
}

/// Marks on the statements of the child that touch what a term of the parent bounds.
pub(crate) fn touched_by(
    alloc: Global,
    parent: &Checked,
    child: &Checked,
    contacts: &[Contact],
    term: &Term,
) -> Result<Vec<bool>, OutOfMemory>
    requires { AreContactsWithin (length (paths_of child.now.policy))
        (length (paths_of parent.now.policy)) contacts.now }
    ensures size { IfOk result (λ marks. length marks.items ≡ length (paths_of child.now.policy)) }
    ensures touching { (net : Network) →
        AreContacts net parent.now.policy child.now.policy contacts.now →
        IfOk result (λ marks. AreTouching net parent.now.policy child.now.policy
        term.now (marked marks.items)) }
{
    let bounded = bounded_by(alloc, parent, term)?;
    marks_of(alloc, contacts, &bounded, child.statements())
}
