//! Packets told apart by the predicates of a policy: the least that they share or leave out, and the cells of two hosts.

ghost use Rattle.std.specs.Prelude.{IfOk};
ghost use Rattle.std.specs.List.{AllByRecursion};
ghost use Rattle.merlin_model.specs.Predicates.{IsPred};

use crate::lines::Lines;
use crate::packets::packet_from;
use crate::policies::Asked;
use merlin_base::OutOfMemory;
use merlin_model::network::HostAddress;
use merlin_model::policy::Pred;
use packet_model::{Field, Packet, print_packet};
use policy_parser::{Policy, Statement};
use predicate_split::{Cell, SplitFault, cells, least_common, least_outside, overlap};
use sqlite_items::Items;
use std::alloc::Global;

// The predicates of the statements, in their order.
fn preds_of(alloc: Global, statements: &[Statement]) -> Result<Items<Pred>, OutOfMemory>
    requires { AllByRecursion (λ s. IsPred s.pred) statements.now }
    ensures { IfOk result (AllByRecursion IsPred) }
{
    let mut preds = Items::new(alloc);
    for statement in statements {
        preds.push(statement.pred.copy(alloc)?)?;
    }
    Ok(preds)
}

fn answer_fault(out: &mut Lines, fault: SplitFault) {
    match fault {
        SplitFault::TooManyClasses { count } => {
            out.add("1\nclasses");
            out.add_numbers(&[count]);
            out.add("\n");
        }
        SplitFault::TooManyCells { count } => {
            out.add("1\ncells");
            out.add_numbers(&[count]);
            out.add("\n");
        }
        SplitFault::OutOfMemory => out.cut(),
    }
}

fn add_packet(alloc: Global, out: &mut Lines, packet: &Packet) {
    out.add_name(print_packet(alloc, packet));
    out.add("\n");
}

// The least packet that was found, if there is one.
fn answer_packet(alloc: Global, found: Result<Option<Packet>, SplitFault>, out: &mut Lines) {
    match found {
        Ok(Some(packet)) => {
            out.add("0\n");
            add_packet(alloc, out, &packet);
        }
        Ok(None) => out.answer(0, "none"),
        Err(fault) => answer_fault(out, fault),
    }
}

// The id of the statement at a place.
fn add_id(out: &mut Lines, policy: &Policy, place: usize) {
    if let Some(statement) = policy.statements.get(place) {
        out.add_bytes(statement.id.bytes());
    }
}

// The ids of the first two statements that share a packet, and the least that they share.
fn answer_overlap(alloc: Global, policy: &Policy, preds: &[Pred], out: &mut Lines)
    requires { AllByRecursion IsPred preds.now }
{
    match overlap(alloc, preds) {
        Ok(Some((first, second, packet))) => {
            out.add("0\n");
            add_id(out, policy, first);
            out.add(" ");
            add_id(out, policy, second);
            out.add(" ");
            add_packet(alloc, out, &packet);
        }
        Ok(None) => out.answer(0, "none"),
        Err(fault) => answer_fault(out, fault),
    }
}

// A protocol or port, or a star.
fn add_part(out: &mut Lines, part: Option<u16>) {
    match part {
        Some(part) => out.add_number(u64::from(part)),
        None => out.add("*"),
    }
    out.add(" ");
}

// The line of a cell: its protocol and ports, and the id of its owner, or the word for the default.
fn add_cell(out: &mut Lines, policy: &Policy, cell: &Cell) {
    add_part(out, cell.proto.map(u16::from));
    add_part(out, cell.sport);
    add_part(out, cell.dport);
    match cell.owner {
        Some(owner) => add_id(out, policy, owner),
        None => out.add("default"),
    }
    out.add("\n");
}

fn add_cells(out: &mut Lines, policy: &Policy, cells: &[Cell]) {
    for cell in cells {
        add_cell(out, policy, cell);
    }
}

// Which parts a cell names, as a number that rises with its priority.
fn rank_of(cell: &Cell) -> usize {
    match (cell.proto, cell.sport, cell.dport) {
        (None, _, _) => 0,
        (Some(_), None, None) => 1,
        (Some(_), None, Some(_)) => 2,
        (Some(_), Some(_), None) => 3,
        (Some(_), Some(_), Some(_)) => 4,
    }
}

// How many of the cells name such parts.
fn count_of(cells: &[Cell], rank: usize) -> u64 {
    let mut count = 0_u64;
    for cell in cells {
        if rank_of(cell) == rank {
            count = count.saturating_add(1);
        }
    }
    count
}

// How many cells name both ports, the source port alone, the destination port alone, the protocol alone, and nothing.
fn add_counts(out: &mut Lines, cells: &[Cell]) {
    out.add("cells");
    for rank in [4, 3, 2, 1, 0] {
        out.add_numbers(&[count_of(cells, rank)]);
    }
    out.add("\n");
}

// All cells, or how many there are of each kind.
fn describe(out: &mut Lines, policy: &Policy, asked: Asked, cells: &[Cell]) {
    out.add("0\n");
    match asked {
        Asked::Cells => add_cells(out, policy, cells),
        _ => add_counts(out, cells),
    }
}

// The addresses that a packet comes from, and those that it goes to.
fn hosts_of(packet: &Packet) -> (HostAddress, HostAddress) {
    let src = HostAddress {
        eth: packet.value(Field::EthSrc),
        ip: u32::try_from(packet.value(Field::IpSrc)).unwrap_or(0),
    };
    let dst = HostAddress {
        eth: packet.value(Field::EthDst),
        ip: u32::try_from(packet.value(Field::IpDst)).unwrap_or(0),
    };
    (src, dst)
}

// The cells between the hosts of a packet.
fn answer_cells(
    alloc: Global,
    policy: &Policy,
    preds: &[Pred],
    asked: Asked,
    packet: &Packet,
    out: &mut Lines,
)
    requires { AllByRecursion IsPred preds.now }
{
    let (src, dst) = hosts_of(packet);
    match cells(alloc, preds, src, dst) {
        Ok(cells) => describe(out, policy, asked, &cells),
        Err(fault) => answer_fault(out, fault),
    }
}

// What is asked of the predicates.
fn answer(
    alloc: Global,
    policy: &Policy,
    preds: &[Pred],
    asked: Asked,
    words: &str,
    out: &mut Lines,
)
    requires { AllByRecursion IsPred preds.now }
{
    match asked {
        Asked::Overlap => answer_overlap(alloc, policy, preds, out),
        Asked::Outside => answer_packet(alloc, least_outside(alloc, preds), out),
        Asked::Common => answer_packet(alloc, least_common(alloc, preds), out),
        _ => match packet_from(words) {
            Some(packet) => answer_cells(alloc, policy, preds, asked, &packet, out),
            None => out.answer(1, "no packet"),
        },
    }
}

/// What is asked of the predicates of a policy.
pub fn answer_to(alloc: Global, policy: &Policy, asked: Asked, words: &str, out: &mut Lines)
    requires { AllByRecursion (λ s. IsPred s.pred) policy.now.statements }
{
    match preds_of(alloc, policy.statements.as_slice()) {
        Ok(preds) => answer(alloc, policy, preds.as_slice(), asked, words, out),
        Err(_) => out.cut(),
    }
}
