//! The rule of a message.

ghost use Rattle.std.specs.Prelude.{◌≡◌, ◌≤◌, ◌+◌, length, drop, IfOk, IfErr, IfSome, IfNone, IsTrue};
ghost use Rattle.std.specs.List.{AllPass};
ghost use Rattle.openflow_wire.specs.declared.reading.WireFault.TheVariants.{BadMessage, OutOfMemory as NoMemory};
ghost use Rattle.openflow_wire.specs.declared.layout.TheConstants.{FIELDS};
ghost use Rattle.openflow_wire.specs.Fields.{number_at, wildcards_of, is_left_out, is_count, are_wildcards, is_port, is_vlan_id, is_queue_id, may_hold, is_taken};
ghost use Rattle.openflow_wire.specs.Messages.{out_of, is_action, change_of, enqueue_of, send_of, actions_of, first_fault, message_fault, unless_left_out, vlan_of, message_match, IsMessage};
ghost use Rattle.openflow_wire.specs.Layout.{asks_wildcards, has_form, IsWireFault};

use crate::layout::{FIELDS, FieldForm, Taken};
use crate::numbers::{GREATEST_PORT, IN_PORT, IPV4, MAX_QUEUE_ID, MAX_VLAN, NO_VLAN};
use byteorder::{BigEndian, ByteOrder};
use merlin_model::OutOfMemory;
use merlin_model::config::{Action, Actions, Match, Out, Rule, Vlan};
use std::alloc::Global;

/// Why bytes are no message: the first byte of the first field, in their order, that is missing or holds what it may not.
#[derive(Clone, Copy)]
pub enum WireFault {
    BadMessage { at: usize },
    OutOfMemory,
}

impl From<OutOfMemory> for WireFault {
    ghost from_gives = { λ e r. r ≡ NoMemory };

    fn from(_: OutOfMemory) -> Self {
        WireFault::OutOfMemory
    }
}

// The number in so many bytes from a place on.
pub(crate) fn number_at(message: &[u8], at: usize, width: usize) -> u64
    requires there { at + width ≤ length message.now }
    requires wide { 1 ≤ width × width ≤ 8 }
    ensures { result ≡ number_at message.now at width }
{
    BigEndian::read_uint(&message[at..], width)
}

fn short_at(message: &[u8], at: usize) -> u16
    requires { at + 2 ≤ length message.now }
    ensures { result ≡ number_at message.now at 2 }
{
    BigEndian::read_u16(&message[at..])
}

fn word_at(message: &[u8], at: usize) -> u32
    requires { at + 4 ≤ length message.now }
    ensures { result ≡ number_at message.now at 4 }
{
    BigEndian::read_u32(&message[at..])
}

fn mac_at(message: &[u8], at: usize) -> u64
    requires { at + 6 ≤ length message.now }
    ensures { result ≡ number_at message.now at 6 }
{
    BigEndian::read_u48(&message[at..])
}

fn byte_at(message: &[u8], at: usize) -> u8
    requires { at + 1 ≤ length message.now }
    ensures { result ≡ number_at message.now at 1 }
{
    message[at]
}

// Whether a bit of the wildcards is set.
pub(crate) fn is_left_out(bit: u32, wildcards: u32) -> bool
    requires { bit ≤ 31 }
    ensures { result ≡ is_left_out bit wildcards }
{
    (wildcards >> bit) % 2 == 1
}

// Whether this many bits of an address are left out: none, or all of them.
fn is_count(n: u32) -> bool
    ensures { result ≡ is_count n }
{
    n == 0 || n >= 32
}

fn are_wildcards(n: u64) -> bool
    ensures { result ≡ are_wildcards n }
{
    is_count(((n >> 8) % 64) as u32) && is_count(((n >> 14) % 64) as u32) && n >> 20 == 3
}

fn is_port(n: u64) -> bool
    ensures { result ≡ is_port n }
{
    1 <= n && n <= u64::from(GREATEST_PORT)
}

fn is_vlan_id(n: u64) -> bool
    ensures { result ≡ is_vlan_id n }
{
    1 <= n && n <= u64::from(MAX_VLAN)
}

// The wildcards of a message that has them.
pub(crate) fn wildcards(message: &[u8]) -> u32
    requires { 12 ≤ length message.now }
    ensures { result ≡ wildcards_of message.now }
{
    word_at(message, 8)
}

// Whether a field may hold a number. What asks for the wildcards stands behind them.
fn may_hold(taken: Taken, message: &[u8], n: u64) -> bool
    requires { IsTrue (asks_wildcards taken) → 12 ≤ length message.now }
    ensures { result ≡ may_hold taken message.now n }
{
    match taken {
        Taken::Any => true,
        Taken::Only(wanted) => n == wanted,
        Taken::AtMost(limit) => n <= limit,
        Taken::Length => n == message.len() as u64,
        Taken::Wildcards => are_wildcards(n),
        Taken::InPort => is_left_out(0, wildcards(message)) || is_port(n),
        Taken::VlanId => {
            is_left_out(1, wildcards(message)) || is_vlan_id(n) || n == u64::from(NO_VLAN)
        }
        Taken::EtherType => is_left_out(4, wildcards(message)) || n == u64::from(IPV4),
    }
}

// Whether a field is there and holds what it may.
fn is_taken(message: &[u8], field: FieldForm) -> bool
    requires { IsTrue (has_form field) }
    ensures { result ≡ is_taken message.now field }
{
    let (at, width, taken) = field;
    at + width <= message.len() && may_hold(taken, message, number_at(message, at, width))
}

// The first byte of the first of some fields that is missing or holds what it may not.
fn first_fault(message: &[u8], fields: &[FieldForm]) -> Option<usize>
    requires { AllPass has_form fields.now }
    ensures { result ≡ first_fault message.now fields.now }
{
    for field in fields {
        if !is_taken(message, *field) {
            return Some(field.0);
        }
    }
    None
}

fn out_in(n: u16) -> Option<Out>
    ensures { result ≡ out_of n }
{
    if n == IN_PORT {
        Some(Out::InPort)
    } else if is_port(u64::from(n)) {
        Some(Out::Port(n))
    } else {
        None
    }
}

// Whether these bytes are an action of this kind, whole.
fn is_action(kind: u16, size: usize, bytes: &[u8]) -> bool
    requires { 8 ≤ size }
    ensures { result ≡ is_action kind size bytes.now }
{
    bytes.len() == size && short_at(bytes, 0) == kind && usize::from(short_at(bytes, 2)) == size
}

fn change_in(bytes: &[u8]) -> Option<Action>
    ensures { result ≡ change_of bytes.now }
{
    if is_action(1, 8, bytes) {
        let tag = short_at(bytes, 4);
        if is_vlan_id(u64::from(tag)) {
            return Some(Action::SetVlan(tag));
        }
    }
    if is_action(3, 8, bytes) {
        return Some(Action::StripVlan);
    }
    None
}

fn enqueue_in(bytes: &[u8]) -> Option<Action>
    requires { length bytes.now ≡ 16 }
    ensures { result ≡ enqueue_of bytes.now }
{
    let queue = word_at(bytes, 12);
    if queue < 1 || queue > u32::from(MAX_QUEUE_ID) {
        return None;
    }
    let out = out_in(short_at(bytes, 4))?;
    Some(Action::Enqueue(out, queue as u16))
}

fn send_in(bytes: &[u8]) -> Option<Action>
    ensures { result ≡ send_of bytes.now }
{
    if is_action(0, 8, bytes) {
        return out_in(short_at(bytes, 4)).map(Action::Output);
    }
    if is_action(11, 16, bytes) {
        return enqueue_in(bytes);
    }
    None
}

// The actions of a message, from the bytes behind its fields. None where they are no actions.
fn actions_in(alloc: Global, bytes: &[u8]) -> Result<Option<Actions>, OutOfMemory>
    ensures { IfOk result (λ actions. actions ≡ actions_of bytes.now) }
{
    if bytes.is_empty() {
        return Ok(Some(Actions::from_slice(alloc, &[])?));
    }
    if bytes.len() >= 8 {
        if let Some(change) = change_in(&bytes[..8]) {
            return match send_in(&bytes[8..]) {
                None => Ok(None),
                Some(send) => Ok(Some(Actions::from_slice(alloc, &[change, send])?)),
            };
        }
    }
    match send_in(bytes) {
        None => Ok(None),
        Some(send) => Ok(Some(Actions::from_slice(alloc, &[send])?)),
    }
}

// A field of a match, unless a bit of the wildcards leaves it out.
fn unless_left_out<X: Copy>(message: &[u8], bit: u32, value: X) -> Option<X>
    requires bit { bit ≤ 31 }
    requires there { 12 ≤ length message.now }
    ensures { result ≡ unless_left_out message.now bit value }
{
    if is_left_out(bit, wildcards(message)) {
        None
    } else {
        Some(value)
    }
}

fn vlan_in(n: u16) -> Vlan
    ensures { result ≡ vlan_of n }
{
    if n == NO_VLAN {
        Vlan::Untagged
    } else {
        Vlan::Tag(n)
    }
}

fn match_in(message: &[u8]) -> Match
    requires { 72 ≤ length message.now }
    ensures { result ≡ message_match message.now }
{
    Match {
        in_port: unless_left_out(message, 0, short_at(message, 12)),
        dl_src: unless_left_out(message, 2, mac_at(message, 14)),
        dl_dst: unless_left_out(message, 3, mac_at(message, 20)),
        dl_vlan: unless_left_out(message, 1, vlan_in(short_at(message, 26))),
        dl_type: !is_left_out(4, wildcards(message)),
        nw_proto: unless_left_out(message, 5, byte_at(message, 33)),
        nw_src: unless_left_out(message, 13, word_at(message, 36)),
        nw_dst: unless_left_out(message, 19, word_at(message, 40)),
        tp_src: unless_left_out(message, 6, short_at(message, 44)),
        tp_dst: unless_left_out(message, 7, short_at(message, 46)),
    }
}

// The first byte of the first field in front of the actions that is missing or not taken.
fn fault_in(message: &[u8]) -> Option<usize>
    ensures found { result ≡ first_fault message.now FIELDS }
    ensures whole { IfNone result (72 ≤ length message.now) }
{
    first_fault(message, &FIELDS)
}

// What stands behind the fields.
fn behind_fields(message: &[u8]) -> &[u8]
    requires { 72 ≤ length message.now }
    ensures { result.now ≡ drop 72 message.now }
{
    message.split_at(72).1
}

/// The rule of a message and its number. The rule stands at a location that the caller knows.
pub fn decode(alloc: Global, bytes: &[u8], loc: usize) -> Result<(Rule, u32), WireFault>
    ensures ok { IfOk result (λ r. IsMessage bytes.now loc r.0 r.1) }
    ensures err { IfErr result (IsWireFault bytes.now) }
{
    if let Some(at) = fault_in(bytes) {
        return Err(WireFault::BadMessage { at });
    }
    let Some(actions) = actions_in(alloc, behind_fields(bytes))? else {
        return Err(WireFault::BadMessage { at: 72 });
    };
    let rule = Rule {
        loc,
        priority: short_at(bytes, 62),
        fits: match_in(bytes),
        actions,
    };
    Ok((rule, word_at(bytes, 4)))
}
