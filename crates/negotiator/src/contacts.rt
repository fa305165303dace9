//! Which statements of two policies touch, and the least packet to which the child allows more: pair of hosts by pair of hosts, by packets that stand for all.

ghost use Rattle.std.specs.Prelude.{◌≡◌, ◌≢◌, Some, ◌<◌, ◌+◌, ◌++◌, ◌∷◌, [], ◌↔◌, ◌⊎◌, List, IsTrue, IfOk, OnOk, length, if◌then◌else◌};
ghost use Rattle.std.specs.List.{AllByRecursion};
ghost use Rattle.merlin_model.specs.Packets.{IsPacket, ComesBefore, field_of, Packet as Header};
ghost use Rattle.merlin_model.specs.Networks.{IsHost, IsProper, address_of};
ghost use Rattle.topology.specs.Lawful.{IsTopologyNetwork};
ghost use Rattle.merlin_model.specs.Predicates.{IsPred};
ghost use Rattle.negotiator.specs.Between.{IsCase};
ghost use Rattle.negotiator.specs.Contacts.{first_holding as first_of, contact_at, IsFoundUpTo, IsWholeFound, AreProper, preds_of_both, IsLesser, IsWideWith};
ghost use Rattle.negotiator.specs.Known.{KnowsVerdicts};

use crate::known::{Known, known_verdict, nothing_known};
use crate::stand_ins::stand_ins;
use crate::verdicts::Case;
use merlin_model::OutOfMemory;
use merlin_model::network::HostAddress;
use merlin_model::policy::{Field, Pred};
use packet_model::Packet;
use policy_check::Checked;
use predicate_logic::holds;
use sqlite_items::Items;
use std::alloc::Global;

/// A statement of the child touches one of the parent.
#[derive(Clone, Copy)]
pub struct Contact {
    pub child: usize,
    pub parent: usize,
}

/// A packet that goes from one host to another, to which the child allows more than the parent.
#[derive(Clone, Copy)]
pub struct WidePacket {
    pub packet: Packet,
    pub src: usize,
    pub dst: usize,
}

/// Which statements touch, and the least packet to which the child allows more, if there is one.
#[derive(Drop)]
pub struct Findings {
    pub contacts: Vec<Contact>,
    pub wide: Option<WidePacket>,
}

// The place of the first predicate that holds of the packet, or the number of predicates.
fn first_holding(preds: &[Pred], packet: &Packet) -> usize
    ensures { result ≡ first_of preds.now packet.now }
{
    for (place, pred) in preds.iter().enumerate() {
        if holds(pred, packet) {
            return place;
        }
    }
    preds.len()
}

// The statements that a packet belongs to.
pub(crate) fn contact_of(case: &Case<'_>, packet: &Packet) -> Contact
    ensures { result ≡ contact_at case.now.parent.now.policy case.now.child.now.policy packet.now }
{
    Contact {
        child: first_holding(case.child.preds(), packet),
        parent: first_holding(case.parent.preds(), packet),
    }
}

// Whether a packet comes before another by this field, or by what is said of the later fields.
fn is_earlier(one: &Packet, other: &Packet, field: Field, later: bool) -> bool
    ensures { IsTrue result ↔ ((field_of field one.now < field_of field other.now)
        ⊎ ((field_of field one.now ≡ field_of field other.now) × IsTrue later)) }
{
    one.value(field) < other.value(field) || (one.value(field) == other.value(field) && later)
}

// Whether a packet comes before another.
fn precedes(one: &Packet, other: &Packet) -> bool
    ensures { IsTrue result ↔ ComesBefore one.now other.now }
{
    let dport = is_earlier(one, other, Field::Dport, false);
    let sport = is_earlier(one, other, Field::Sport, dport);
    let proto = is_earlier(one, other, Field::Proto, sport);
    let ip_dst = is_earlier(one, other, Field::IpDst, proto);
    let ip_src = is_earlier(one, other, Field::IpSrc, ip_dst);
    let eth_dst = is_earlier(one, other, Field::EthDst, ip_src);
    is_earlier(one, other, Field::EthSrc, eth_dst)
}

// The lesser of two packets, where there are two.
fn lesser(known: Option<WidePacket>, other: WidePacket) -> WidePacket
    ensures { IsLesser known other result }
{
    match known {
        Some(known) if !precedes(&other.packet, &known.packet) => known,
        _ => other,
    }
}

// The least packet to which the child allows more, with one that is such unless it stays within.
fn wide_with(stays: bool, known: Option<WidePacket>, other: WidePacket) -> Option<WidePacket>
    ensures { IsWideWith stays known other result }
{
    if stays {
        known
    } else {
        Some(lesser(known, other))
    }
}

// Adds a contact, if there is a walk.
fn note_contact(
    walks: bool,
    contact: Contact,
    contacts: &mut Vec<Contact>,
) -> Result<(), OutOfMemory>
    ensures { OnOk result (contacts.new.items ≡
        contacts.old.items ++ (if walks then contact ∷ [] else [])) }
{
    if walks {
        contacts.push(contact)?;
    }
    Ok(())
}

// Looks at a packet that goes from one host to another.
fn note_packet(
    alloc: Global,
    case: &Case<'_>,
    src: usize,
    dst: usize,
    packet: Packet,
    kept: &mut Vec<Option<Known>>,
    found: &mut Findings,
) -> Result<(), OutOfMemory>
    requires case { IsCase case.now }
    requires src { IsHost case.now.net.now src }
    requires dst { IsHost case.now.net.now dst }
    requires packet { IsPacket packet }
    requires proper { IsProper case.now.net.now packet src dst }
    requires kept { KnowsVerdicts case.now src dst kept.old.items }
    ensures kept { OnOk result (KnowsVerdicts case.now src dst kept.new.items) }
    ensures found { OnOk result ((packets : List Header) →
        IsFoundUpTo case.now.net.now case.now.parent.now.policy case.now.child.now.policy
        src dst packets found.old →
        IsFoundUpTo case.now.net.now case.now.parent.now.policy case.now.child.now.policy
        src dst (packets ++ (packet ∷ [])) found.new) }
{
    let _statements = (case.child.statements(), case.parent.statements());
    let contact = contact_of(case, &packet);
    let verdict = known_verdict(alloc, case, src, dst, contact.child, contact.parent, kept)?;
    note_contact(verdict.walks, contact, &mut found.contacts)?;
    let wide = WidePacket { packet, src, dst };
    found.wide = wide_with(verdict.stays, found.wide, wide);
    Ok(())
}

// Looks at packets that go from one host to another.
fn note_packets(
    alloc: Global,
    case: &Case<'_>,
    src: usize,
    dst: usize,
    packets: &[Packet],
    found: &mut Findings,
) -> Result<(), OutOfMemory>
    requires case { IsCase case.now }
    requires src { IsHost case.now.net.now src }
    requires dst { IsHost case.now.net.now dst }
    requires proper { AreProper case.now.net.now src dst packets.now }
    ensures { OnOk result (
        IsFoundUpTo case.now.net.now case.now.parent.now.policy case.now.child.now.policy
        src dst [] found.old →
        IsFoundUpTo case.now.net.now case.now.parent.now.policy case.now.child.now.policy
        src dst packets.now found.new) }
{
    let mut kept = nothing_known(alloc, case)?;
    for packet in packets {
        note_packet(alloc, case, src, dst, *packet, &mut kept, found)?;
    }
    Ok(())
}

// Looks at all packets between two hosts.
fn note_hosts(
    alloc: Global,
    case: &Case<'_>,
    preds: &[Pred],
    src: usize,
    dst: usize,
    addresses: (HostAddress, HostAddress),
    found: &mut Findings,
) -> Result<(), OutOfMemory>
    requires case { IsCase case.now }
    requires preds { preds.now ≡ preds_of_both case.now.parent.now.policy
        case.now.child.now.policy }
    requires well { AllByRecursion IsPred preds.now }
    requires network { IsTopologyNetwork case.now.net.now }
    requires differ { src ≢ dst }
    requires src { address_of case.now.net.now src ≡ Some addresses.0 }
    requires dst { address_of case.now.net.now dst ≡ Some addresses.1 }
    ensures { OnOk result (
        IsFoundUpTo case.now.net.now case.now.parent.now.policy case.now.child.now.policy
        src dst [] found.old →
        IsFoundUpTo case.now.net.now case.now.parent.now.policy case.now.child.now.policy
        src (dst + 1) [] found.new) }
{
    let packets = stand_ins(alloc, preds, addresses.0, addresses.1)?;
    note_packets(alloc, case, src, dst, &packets, found)
}

// Looks at all packets from one location to another.
fn note_pair(
    alloc: Global,
    case: &Case<'_>,
    preds: &[Pred],
    src: usize,
    dst: usize,
    found: &mut Findings,
) -> Result<(), OutOfMemory>
    requires case { IsCase case.now }
    requires preds { preds.now ≡ preds_of_both case.now.parent.now.policy
        case.now.child.now.policy }
    requires well { AllByRecursion IsPred preds.now }
    requires src { src < length case.now.net.now.locations }
    requires dst { dst < length case.now.net.now.locations }
    ensures { OnOk result (
        IsFoundUpTo case.now.net.now case.now.parent.now.policy case.now.child.now.policy
        src dst [] found.old →
        IsFoundUpTo case.now.net.now case.now.parent.now.policy case.now.child.now.policy
        src (dst + 1) [] found.new) }
{
    let _locations = case.net.locations();
    if src == dst {
        return Ok(());
    }
    let Some(of_src) = case.net.host(src) else {
        return Ok(());
    };
    let Some(of_dst) = case.net.host(dst) else {
        return Ok(());
    };
    note_hosts(alloc, case, preds, src, dst, (of_src, of_dst), found)
}

// Looks at all packets from one location.
fn note_row(
    alloc: Global,
    case: &Case<'_>,
    preds: &[Pred],
    src: usize,
    found: &mut Findings,
) -> Result<(), OutOfMemory>
    requires case { IsCase case.now }
    requires preds { preds.now ≡ preds_of_both case.now.parent.now.policy
        case.now.child.now.policy }
    requires well { AllByRecursion IsPred preds.now }
    requires src { src < length case.now.net.now.locations }
    ensures { OnOk result (
        IsFoundUpTo case.now.net.now case.now.parent.now.policy case.now.child.now.policy
        src 0 [] found.old →
        IsFoundUpTo case.now.net.now case.now.parent.now.policy case.now.child.now.policy
        (src + 1) 0 [] found.new) }
{
    for dst in 0..case.net.locations() {
        note_pair(alloc, case, preds, src, dst, found)?;
    }
    Ok(())
}

// Looks at all packets.
fn note_all(
    alloc: Global,
    case: &Case<'_>,
    preds: &[Pred],
    found: &mut Findings,
) -> Result<(), OutOfMemory>
    requires case { IsCase case.now }
    requires preds { preds.now ≡ preds_of_both case.now.parent.now.policy
        case.now.child.now.policy }
    requires well { AllByRecursion IsPred preds.now }
    ensures { OnOk result (
        IsFoundUpTo case.now.net.now case.now.parent.now.policy case.now.child.now.policy
        0 0 [] found.old →
        IsWholeFound case.now.net.now case.now.parent.now.policy case.now.child.now.policy
        found.new) }
{
    for src in 0..case.net.locations() {
        note_row(alloc, case, preds, src, found)?;
    }
    Ok(())
}

// Adds copies of predicates.
fn copy_preds(alloc: Global, preds: &[Pred], copies: &mut Items<Pred>) -> Result<(), OutOfMemory>
    ensures { OnOk result (copies.new ≡ copies.old ++ preds.now) }
{
    for pred in preds {
        copies.push(pred.copy(alloc)?)?;
    }
    Ok(())
}

/// The predicates of both policies.
pub(crate) fn both_preds(
    alloc: Global,
    parent: &Checked,
    child: &Checked,
) -> Result<Items<Pred>, OutOfMemory>
    ensures { IfOk result (λ preds. preds ≡
        preds_of_both parent.now.policy child.now.policy) }
{
    let mut preds = Items::new(alloc);
    copy_preds(alloc, child.preds(), &mut preds)?;
    copy_preds(alloc, parent.preds(), &mut preds)?;
    Ok(preds)
}

/// Which statements touch, and the least packet to which the child allows more.
pub(crate) fn find(alloc: Global, case: &Case<'_>) -> Result<Findings, OutOfMemory>
    requires { IsCase case.now }
    ensures { IfOk result (IsWholeFound case.now.net.now
        case.now.parent.now.policy case.now.child.now.policy) }
{
    let _statements = (case.child.statements(), case.parent.statements());
    let preds = both_preds(alloc, case.parent, case.child)?;
    let mut found = Findings {
        contacts: Vec::new(alloc),
        wide: None,
    };
    note_all(alloc, case, preds.as_slice(), &mut found)?;
    Ok(found)
}
