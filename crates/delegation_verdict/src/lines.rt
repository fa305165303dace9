//! The line that says what is replied to a delegation tree, and its status.

ghost use Rattle.std.specs.Prelude.{◌≡◌, ◌++◌, IfOk, codes};
ghost use Rattle.packet_model.specs.Texts.{packet_text};
ghost use Rattle.refusal_text.specs.Refusals.{policy_fault_text as text_of_policy_fault};
ghost use Rattle.refusal_text.specs.Refusals.{check_fault_text as text_of_check_fault, net_fault_text as text_of_net_fault};
ghost use Rattle.delegation_verdict.specs.Lines.{named_node_text, refused_node_text, entry_fault_text, shared_text as text_of_shared};
ghost use Rattle.delegation_verdict.specs.Lines.{accepted_text as text_of_accepted, delegate_text, delegate_status as status_of_reply};

use crate::reply::DelegateReply;
use delegation_text::EntryFault;
use merlin_base::{Name, OutOfMemory, Status, name_from};
use packet_model::{Packet, print_packet};
use policy_check::CheckFault;
use policy_parser::PolicyFault;
use refusal_text::{
    check_fault_text, net_fault_text, plain_text, policy_fault_text, push_named, text_with_name,
};
use std::alloc::Global;
use topology::NetFault;

// What is said of a node.
fn said_of_node(alloc: Global, front: &str, node: &Name, text: &Name) -> Result<Name, OutOfMemory>
    ensures { IfOk result (λ whole. whole ≡ named_node_text front.now node.now text.now) }
{
    let mut bytes = Vec::new(alloc);
    push_named(&mut bytes, front, node)?;
    push_named(&mut bytes, ": ", text)?;
    name_from(alloc, &bytes)
}

fn unread_text(alloc: Global, node: &Name, fault: &PolicyFault) -> Result<Name, OutOfMemory>
    ensures { IfOk result (λ text.
        text ≡ refused_node_text node.now (text_of_policy_fault fault.now)) }
{
    let text = policy_fault_text(alloc, fault)?;
    said_of_node(alloc, "refused node ", node, &text)
}

fn wrong_text(alloc: Global, node: &Name, fault: &CheckFault) -> Result<Name, OutOfMemory>
    ensures { IfOk result (λ text.
        text ≡ refused_node_text node.now (text_of_check_fault fault.now)) }
{
    let text = check_fault_text(alloc, fault)?;
    said_of_node(alloc, "refused node ", node, &text)
}

// The text for a node that is or has too much.
fn excess_text(alloc: Global, node: &Name, excess: &str) -> Result<Name, OutOfMemory>
    ensures { IfOk result (λ text. text ≡ refused_node_text node.now excess.now) }
{
    let text = plain_text(alloc, excess)?;
    said_of_node(alloc, "refused node ", node, &text)
}

fn tree_text(alloc: Global, fault: &EntryFault) -> Result<Name, OutOfMemory>
    ensures { IfOk result (λ text. text ≡ codes "refused: " ++ entry_fault_text fault.now) }
{
    match fault {
        EntryFault::Json => plain_text(alloc, "refused: tree json"),
        EntryFault::Shape { what } => text_with_name(alloc, "refused: tree shape ", what),
        EntryFault::DuplicateName { name } => {
            text_with_name(alloc, "refused: duplicate name ", name)
        }
        EntryFault::UnknownNode { name } => text_with_name(alloc, "refused: unknown node ", name),
        EntryFault::TooManyNodes { .. } => plain_text(alloc, "refused: more than 64 nodes"),
        EntryFault::OutOfMemory => Err(OutOfMemory),
    }
}

fn topology_text(alloc: Global, fault: &NetFault) -> Result<Name, OutOfMemory>
    ensures { IfOk result (λ text. text ≡ codes "refused: " ++ text_of_net_fault fault.now) }
{
    let text = net_fault_text(alloc, fault)?;
    text_with_name(alloc, "refused: ", &text)
}

// The text for scopes that share a packet, which is printed.
fn scopes_text(
    alloc: Global,
    first: &Name,
    second: &Name,
    packet: &Name,
) -> Result<Name, OutOfMemory>
    ensures { IfOk result (λ text. text ≡ text_of_shared first.now second.now packet.now) }
{
    let mut bytes = Vec::new(alloc);
    push_named(&mut bytes, "refused: scopes ", first)?;
    push_named(&mut bytes, " ", second)?;
    push_named(&mut bytes, " ", packet)?;
    name_from(alloc, &bytes)
}

fn shared_text(
    alloc: Global,
    first: &Name,
    second: &Name,
    packet: &Packet,
) -> Result<Name, OutOfMemory>
    ensures { IfOk result (λ text.
        text ≡ text_of_shared first.now second.now (packet_text packet.now)) }
{
    let packet = print_packet(alloc, packet)?;
    scopes_text(alloc, first, second, &packet)
}

fn accepted_text(alloc: Global, nodes: usize, statements: usize) -> Result<Name, OutOfMemory>
    ensures { IfOk result (λ text. text ≡ text_of_accepted nodes statements) }
{
    let text = format!(in alloc; "accepted nodes {nodes} statements {statements}")?;
    name_from(alloc, text.as_bytes())
}

/// The line that tells of a reply, without its newline. Want of memory has none.
pub fn delegate_line(alloc: Global, reply: &DelegateReply) -> Result<Name, OutOfMemory>
    ensures { IfOk result (λ text. text ≡ delegate_text reply.now) }
{
    match reply {
        DelegateReply::UnreadTree(fault) => tree_text(alloc, fault),
        DelegateReply::UnreadScope { node, fault } => unread_text(alloc, node, fault),
        DelegateReply::UnreadPolicy { node, fault } => unread_text(alloc, node, fault),
        DelegateReply::UnreadTopology(fault) => topology_text(alloc, fault),
        DelegateReply::WrongPolicy { node, fault } => wrong_text(alloc, node, fault),
        DelegateReply::TooManyClasses { node } => {
            excess_text(alloc, node, "more than 4194304 classes")
        }
        DelegateReply::SharedScopes {
            first,
            second,
            packet,
        } => shared_text(alloc, first, second, packet),
        DelegateReply::TooManyStatements { node } => {
            excess_text(alloc, node, "more than 4096 statements")
        }
        DelegateReply::WrongJoin { node, fault } => wrong_text(alloc, node, fault),
        DelegateReply::TooManyCells { node } => excess_text(alloc, node, "more than 524288 cells"),
        DelegateReply::Wider { node, text } => said_of_node(alloc, "node ", node, text),
        DelegateReply::Accepted { nodes, statements } => accepted_text(alloc, *nodes, *statements),
    }
}

/// The status that a reply ends with.
pub fn delegate_status(reply: &DelegateReply) -> Status
    ensures { result ≡ status_of_reply reply.now }
{
    match reply {
        DelegateReply::UnreadTree(_) | DelegateReply::UnreadTopology(_) => Status::Refused,
        DelegateReply::UnreadScope { .. } | DelegateReply::UnreadPolicy { .. } => Status::Refused,
        DelegateReply::WrongPolicy { .. } | DelegateReply::WrongJoin { .. } => Status::Refused,
        DelegateReply::TooManyClasses { .. } | DelegateReply::SharedScopes { .. } => {
            Status::Refused
        }
        DelegateReply::TooManyStatements { .. } | DelegateReply::TooManyCells { .. } => {
            Status::Refused
        }
        DelegateReply::Wider { .. } => Status::RefineNo,
        DelegateReply::Accepted { .. } => Status::Done,
    }
}
