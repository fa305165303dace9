//! What a child policy has to do with its parent, over all packets.

ghost use Rattle.std.specs.Prelude.{IfOk, MatchOption};
ghost use Rattle.policy_check.specs.Checked.{HasAutomata};
ghost use Rattle.topology.specs.Symbols.{network_symbols};
ghost use Rattle.negotiator.specs.Between.{IsCase};
ghost use Rattle.negotiator.specs.Contacts.{IsWholeFound};
ghost use Rattle.negotiator.specs.Wider.{AreContacts, IsWidePath, KeepsPaths};

use crate::contacts::{Contact, Findings, find};
use crate::paths::{WidePath, wide_path};
use crate::verdicts::{Case, nothing};
use merlin_model::OutOfMemory;
use policy_check::Checked;
use std::alloc::Global;
use topology::Topology;

/// Which statements of the child touch which of the parent, and the least packet to which the child allows more, if there is one.
#[derive(Drop)]
pub struct Comparison {
    pub contacts: Vec<Contact>,
    pub wide: Option<WidePath>,
}

// The same of what was found.
fn comparison_of(alloc: Global, case: &Case<'_>, found: Findings) -> Result<Comparison, OutOfMemory>
    requires case { IsCase case.now }
    requires found { IsWholeFound case.now.net.now
        case.now.parent.now.policy case.now.child.now.policy found }
    ensures touching { IfOk result (λ c. AreContacts case.now.net.now
        case.now.parent.now.policy case.now.child.now.policy c.contacts.items) }
    ensures paths { IfOk result (λ c. MatchOption c.wide (KeepsPaths case.now.net.now
        case.now.parent.now.policy case.now.child.now.policy) (IsWidePath case.now.net.now
        case.now.parent.now.policy case.now.child.now.policy case.now.symbols.now)) }
{
    let wide = wide_path(alloc, case, &found)?;
    Ok(Comparison {
        contacts: found.contacts,
        wide,
    })
}

// The same of two policies and an automaton that accepts nothing.
fn compared(alloc: Global, case: &Case<'_>) -> Result<Comparison, OutOfMemory>
    requires case { IsCase case.now }
    ensures touching { IfOk result (λ c. AreContacts case.now.net.now
        case.now.parent.now.policy case.now.child.now.policy c.contacts.items) }
    ensures paths { IfOk result (λ c. MatchOption c.wide (KeepsPaths case.now.net.now
        case.now.parent.now.policy case.now.child.now.policy) (IsWidePath case.now.net.now
        case.now.parent.now.policy case.now.child.now.policy case.now.symbols.now)) }
{
    let found = find(alloc, case)?;
    comparison_of(alloc, case, found)
}

/// Which statements of the child touch which of the parent: some packet belongs to both, and the child allows it a walk. And the least packet to
/// which the child allows a walk that the parent does not, with the least such walk; none where the parent allows all that the child allows.
/// Defaults count as statements, behind the others. Both policies were checked over the network.
///
/// # Errors
/// Where memory ran out.
pub fn compare_policies(
    alloc: Global,
    parent: &Checked,
    child: &Checked,
    net: &Topology,
) -> Result<Comparison, OutOfMemory>
    requires parent { HasAutomata (network_symbols net.now) parent.now }
    requires child { HasAutomata (network_symbols net.now) child.now }
    ensures touching { IfOk result (λ c. AreContacts net.now
        parent.now.policy child.now.policy c.contacts.items) }
    ensures paths { IfOk result (λ c. MatchOption c.wide (KeepsPaths net.now
        parent.now.policy child.now.policy) (IsWidePath net.now
        parent.now.policy child.now.policy (network_symbols net.now))) }
{
    topology::laws::symbols_are_all();
    let symbols = net.symbols();
    let nothing = nothing(alloc, symbols)?;
    let case = Case {
        parent,
        child,
        net,
        symbols,
        nothing: &nothing,
    };
    compared(alloc, &case)
}
