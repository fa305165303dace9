//! The least packet to which the child allows a walk that the parent does not, with the least such walk.

ghost use Rattle.std.specs.Prelude.{IfOk, MatchOption};
ghost use Rattle.negotiator.specs.Between.{IsCase};
ghost use Rattle.negotiator.specs.Contacts.{IsWide, IsWholeFound};
ghost use Rattle.negotiator.specs.Wider.{IsLeastStrayFor, IsWidePath, IsWithPacket, KeepsPaths};

use crate::contacts::{Findings, WidePacket, contact_of};
use crate::verdicts::Case;
use language_check::included;
use merlin_model::OutOfMemory;
use merlin_model::policy::Symbol;
use packet_model::Packet;
use sqlite_items::Items;
use std::alloc::Global;

/// A packet and a walk that the child allows it, and the parent does not.
#[derive(Drop)]
pub struct WidePath {
    pub packet: Packet,
    pub word: Items<Symbol>,
}

// The least walk that the child allows a packet, and the parent does not. It has one.
fn least_word(
    alloc: Global,
    case: &Case<'_>,
    wide: &WidePacket,
) -> Result<Option<Items<Symbol>>, OutOfMemory>
    requires case { IsCase case.now }
    requires wide { IsWide case.now.net.now
        case.now.parent.now.policy case.now.child.now.policy wide.now }
    ensures { IfOk result (λ word. MatchOption word ⊥ (IsLeastStrayFor case.now.net.now
        case.now.parent.now.policy case.now.child.now.policy
        case.now.symbols.now wide.now.packet)) }
{
    let _lawful = case.net.locations();
    let _statements = (case.child.statements(), case.parent.statements());
    let contact = contact_of(case, &wide.packet);
    let path = case.child.automaton(contact.child);
    let other = case.parent.automaton(contact.parent);
    included(
        alloc,
        path,
        other,
        case.net,
        case.symbols,
        wide.src,
        wide.dst,
    )
}

// A packet with its walk.
fn with_packet(packet: Packet, word: Option<Items<Symbol>>) -> Option<WidePath>
    ensures { IsWithPacket packet word result }
{
    match word {
        Some(word) => Some(WidePath { packet, word }),
        None => None,
    }
}

/// The least packet to which the child allows a walk that the parent does not, with the least such walk. None where there is none.
pub(crate) fn wide_path(
    alloc: Global,
    case: &Case<'_>,
    found: &Findings,
) -> Result<Option<WidePath>, OutOfMemory>
    requires case { IsCase case.now }
    requires found { IsWholeFound case.now.net.now
        case.now.parent.now.policy case.now.child.now.policy found.now }
    ensures { IfOk result (λ path. MatchOption path (KeepsPaths case.now.net.now
        case.now.parent.now.policy case.now.child.now.policy) (IsWidePath case.now.net.now
        case.now.parent.now.policy case.now.child.now.policy case.now.symbols.now)) }
{
    let Some(wide) = &found.wide else {
        return Ok(None);
    };
    let word = least_word(alloc, case, wide)?;
    Ok(with_packet(wide.packet, word))
}
