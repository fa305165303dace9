//! The message of a rule.

ghost use Rattle.std.specs.Prelude.{◌≡◌, ◌≤◌, ◌+◌, ◌*◌, ◌++◌, not, length, IfOk, OnOk};
ghost use Rattle.std.specs.List.{flat_map};
ghost use Rattle.openflow_wire.specs.Rules.{IsRule, AreActions};
ghost use Rattle.openflow_wire.specs.Fields.{number_bytes, bytes_of};
ghost use Rattle.openflow_wire.specs.Messages.{out_number, action_numbers, actions_bytes, bit_number, match_wildcards, vlan_number, ether_type, match_numbers, header_bytes, message_of};

use crate::numbers::Number::{self, Byte, Long, Mac, Short, Word};
use crate::numbers::{IN_PORT, IPV4, NO_VLAN};
use merlin_model::OutOfMemory;
use merlin_model::config::{Action, Match, Out, Rule, Vlan};
use std::alloc::Global;

// Adds a number in its width, the highest byte first.
fn push_number(bytes: &mut Vec<u8>, number: Number) -> Result<(), OutOfMemory>
    ensures { OnOk result (bytes.new.items ≡ bytes.old.items ++ number_bytes number) }
{
    match number {
        Byte(n) => bytes.extend_from_slice(&n.to_be_bytes())?,
        Short(n) => bytes.extend_from_slice(&n.to_be_bytes())?,
        Word(n) => bytes.extend_from_slice(&n.to_be_bytes())?,
        Mac(n) => bytes.extend_from_slice(&n.to_be_bytes()[2..])?,
        Long(n) => bytes.extend_from_slice(&n.to_be_bytes())?,
    }
    Ok(())
}

fn push_numbers(bytes: &mut Vec<u8>, numbers: &[Number]) -> Result<(), OutOfMemory>
    ensures { OnOk result (bytes.new.items ≡ bytes.old.items ++ bytes_of numbers.now) }
{
    for number in numbers {
        push_number(bytes, *number)?;
    }
    Ok(())
}

fn out_number(out: Out) -> u16
    ensures { result ≡ out_number out }
{
    match out {
        Out::InPort => IN_PORT,
        Out::Port(port) => port,
    }
}

fn push_action(bytes: &mut Vec<u8>, action: Action) -> Result<(), OutOfMemory>
    ensures { OnOk result (bytes.new.items ≡ bytes.old.items ++ bytes_of (action_numbers action)) }
{
    match action {
        Action::SetVlan(tag) => push_numbers(bytes, &[Short(1), Short(8), Short(tag), Short(0)]),
        Action::StripVlan => push_numbers(bytes, &[Short(3), Short(8), Word(0)]),
        Action::Output(out) => {
            push_numbers(
                bytes,
                &[Short(0), Short(8), Short(out_number(out)), Short(0)],
            )
        }
        Action::Enqueue(out, queue) => push_numbers(
            bytes,
            &[
                Short(11),
                Short(16),
                Short(out_number(out)),
                Mac(0),
                Word(u32::from(queue)),
            ],
        ),
    }
}

fn push_actions(bytes: &mut Vec<u8>, actions: &[Action]) -> Result<(), OutOfMemory>
    ensures { OnOk result (bytes.new.items ≡ bytes.old.items ++ actions_bytes actions.now) }
{
    for action in actions {
        push_action(bytes, *action)?;
    }
    Ok(())
}

// How many bytes an action takes.
fn action_size(action: Action) -> u16
    ensures { result ≡ length (bytes_of (action_numbers action)) }
{
    match action {
        Action::SetVlan(_) | Action::StripVlan | Action::Output(_) => 8,
        Action::Enqueue(..) => 16,
    }
}

// How many bytes a message takes.
fn message_size(actions: &[Action]) -> u16
    requires { AreActions actions.now }
    ensures { result ≡ 72 + length (actions_bytes actions.now) }
{
    match actions {
        [] => 72,
        [send] => 72 + action_size(*send),
        [change, send, ..] => 72 + action_size(*change) + action_size(*send),
    }
}

// A bit of the wildcards, where the field is not named.
fn unless(named: bool, bit: u32) -> u32
    ensures value { result ≡ bit * bit_number (not named) }
    ensures at_most { result ≤ bit }
{
    if named { 0 } else { bit }
}

fn match_wildcards(m: &Match) -> u32
    ensures { result ≡ match_wildcards m.now }
{
    unless(m.in_port.is_some(), 1)
        + unless(m.dl_vlan.is_some(), 2)
        + unless(m.dl_src.is_some(), 4)
        + unless(m.dl_dst.is_some(), 8)
        + unless(m.dl_type, 16)
        + unless(m.nw_proto.is_some(), 32)
        + unless(m.tp_src.is_some(), 64)
        + unless(m.tp_dst.is_some(), 128)
        + unless(m.nw_src.is_some(), 1 << 13)
        + unless(m.nw_dst.is_some(), 1 << 19)
        + (3 << 20)
}

fn vlan_number(vlan: Vlan) -> u16
    ensures { result ≡ vlan_number vlan }
{
    match vlan {
        Vlan::Untagged => NO_VLAN,
        Vlan::Tag(tag) => tag,
    }
}

fn ether_type(named: bool) -> u16
    ensures { result ≡ ether_type named }
{
    if named { IPV4 } else { 0 }
}

fn match_numbers(m: &Match) -> [Number; 15]
    ensures { result ≡ match_numbers m.now }
{
    [
        Word(match_wildcards(m)),
        Short(m.in_port.unwrap_or(0)),
        Mac(m.dl_src.unwrap_or(0)),
        Mac(m.dl_dst.unwrap_or(0)),
        Short(m.dl_vlan.map(vlan_number).unwrap_or(0)),
        Byte(0),
        Byte(0),
        Short(ether_type(m.dl_type)),
        Byte(0),
        Byte(m.nw_proto.unwrap_or(0)),
        Short(0),
        Word(m.nw_src.unwrap_or(0)),
        Word(m.nw_dst.unwrap_or(0)),
        Short(m.tp_src.unwrap_or(0)),
        Short(m.tp_dst.unwrap_or(0)),
    ]
}

fn push_header(bytes: &mut Vec<u8>, rule: &Rule, xid: u32, size: u16) -> Result<(), OutOfMemory>
    ensures { OnOk result (bytes.new.items ≡
        bytes.old.items ++ header_bytes rule.now xid size) }
{
    push_numbers(bytes, &[Byte(1), Byte(14), Short(size), Word(xid)])?;
    push_numbers(bytes, &match_numbers(&rule.fits))?;
    push_numbers(
        bytes,
        &[
            Long(0),
            Short(0),
            Short(0),
            Short(0),
            Short(rule.priority),
            Word(0xffff_ffff),
            Short(0xffff),
            Short(0),
        ],
    )
}

/// The message that adds a rule to a switch's table, under a number `xid` that the sender chooses: 72 bytes and the actions. The rule
/// is one that a line of a result stands for.
pub fn encode(alloc: Global, rule: &Rule, xid: u32) -> Result<Vec<u8>, OutOfMemory>
    requires { IsRule rule.now }
    ensures { IfOk result (λ message. message.items ≡ message_of rule.now xid) }
{
    let size = message_size(rule.actions.as_slice());
    let mut bytes = Vec::with_capacity(alloc, usize::from(size))?;
    push_header(&mut bytes, rule, xid, size)?;
    push_actions(&mut bytes, rule.actions.as_slice())?;
    Ok(bytes)
}
