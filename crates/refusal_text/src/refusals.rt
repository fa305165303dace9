//! What refusals are called in the line that tells of them.
ghost use Rattle.std.specs.Prelude.{◌≡◌, ◌++◌, IfOk};
ghost use Rattle.std.specs.Prelude.{OnOk};
ghost use Rattle.std.specs.Fmt.{decimal};
ghost use Rattle.packet_model.specs.Texts.{packet_text};
ghost use Rattle.refusal_text.specs.Refusals.{net_fault_text as text_of_net_fault};
ghost use Rattle.refusal_text.specs.Refusals.{policy_fault_text as text_of_policy_fault};
ghost use Rattle.refusal_text.specs.Refusals.{excess_text as text_of_excess, shared_port_text as text_of_shared_port};
ghost use Rattle.refusal_text.specs.Refusals.{overlap_text as text_of_overlap, conflict_text as text_of_conflict};
ghost use Rattle.refusal_text.specs.Refusals.{rate_fault_text as text_of_rate_fault, check_fault_text as text_of_check_fault};
ghost use Rattle.refusal_text.specs.Refusals.{hosts_text, ends_text as text_of_ends, ends_fault_text as text_of_ends_fault};
ghost use Rattle.refusal_text.specs.Refusals.{rule_fault_text as text_of_rule_fault, AreLocations, NamesLocations};
ghost use Rattle.refusal_text.specs.Refusals.{program_fault_text as text_of_program_fault, heavy_text as text_of_heavy};

use localise::RateFault;
use merlin_base::{Name, OutOfMemory, name_from};
use openflow_rules::RuleFault;
use packet_model::{Packet, print_packet};
use policy_check::{CheckFault, EndsFault};
use policy_flows::ProgramFault;
use policy_parser::PolicyFault;
use std::alloc::Global;
use topology::{NetFault, Topology};

/// The text alone.
pub fn plain_text(alloc: Global, text: &str) -> Result<Name, OutOfMemory>
    ensures { IfOk result (λ name. name ≡ text.now) }
{
    name_from(alloc, text.as_bytes())
}

// The text with a place after it.
fn text_with_place(alloc: Global, text: &str, at: usize) -> Result<Name, OutOfMemory>
    ensures { IfOk result (λ name. name ≡ text.now ++ decimal at) }
{
    let text = format!(in alloc; "{text}{at}")?;
    name_from(alloc, text.as_bytes())
}

/// The text with a name after it.
pub fn text_with_name(alloc: Global, text: &str, name: &Name) -> Result<Name, OutOfMemory>
    ensures { IfOk result (λ whole. whole ≡ text.now ++ name.now) }
{
    let mut bytes = Vec::from_slice(alloc, text.as_bytes())?;
    bytes.extend_from_slice(name.bytes())?;
    name_from(alloc, &bytes)
}

/// What a fault of a policy's text is called. Want of memory has no name.
pub fn policy_fault_text(alloc: Global, fault: &PolicyFault) -> Result<Name, OutOfMemory>
    ensures { IfOk result (λ text. text ≡ text_of_policy_fault fault.now) }
{
    match fault {
        PolicyFault::BadByte { at } => text_with_place(alloc, "policy byte at ", *at),
        PolicyFault::BadNumber { at } => text_with_place(alloc, "policy number at ", *at),
        PolicyFault::Syntax { at } => text_with_place(alloc, "policy syntax at ", *at),
        PolicyFault::DuplicateSet { name } => text_with_name(alloc, "duplicate set ", name),
        PolicyFault::MixedSet { name } => text_with_name(alloc, "mixed set ", name),
        PolicyFault::UnknownSet { name } => text_with_name(alloc, "unknown set ", name),
        PolicyFault::TooManyStatements { .. } => plain_text(alloc, "more than 4096 statements"),
        PolicyFault::DuplicateId { id } => text_with_name(alloc, "duplicate id ", id),
        PolicyFault::OutOfMemory => Err(OutOfMemory),
    }
}

// The text for too many of something. The count is the limit and one more.
fn excess_text(alloc: Global, what: &Name, count: u64) -> Result<Name, OutOfMemory>
    ensures { IfOk result (λ text. text ≡ text_of_excess what.now count) }
{
    let limit = count.saturating_sub(1);
    let text = format!(in alloc; "more than {limit} ")?;
    text_with_name(alloc, &text, what)
}

// The text for a port that two ends of links share.
fn shared_port_text(alloc: Global, name: &Name, port: u16) -> Result<Name, OutOfMemory>
    ensures { IfOk result (λ text. text ≡ text_of_shared_port name.now port) }
{
    let port = format!(in alloc; " {port}")?;
    let mut bytes = Vec::from_slice(alloc, b"duplicate port ")?;
    bytes.extend_from_slice(name.bytes())?;
    bytes.extend_from_slice(port.as_bytes())?;
    name_from(alloc, &bytes)
}

/// What a fault of a topology is called. Want of memory has no name.
pub fn net_fault_text(alloc: Global, fault: &NetFault) -> Result<Name, OutOfMemory>
    ensures { IfOk result (λ text. text ≡ text_of_net_fault fault.now) }
{
    match fault {
        NetFault::Json => plain_text(alloc, "topology json"),
        NetFault::Shape { what } => text_with_name(alloc, "topology shape ", what),
        NetFault::TooLarge { what, count } => excess_text(alloc, what, *count),
        NetFault::DuplicateName { name } => text_with_name(alloc, "duplicate name ", name),
        NetFault::DuplicateAddress { name } => text_with_name(alloc, "duplicate address ", name),
        NetFault::DuplicatePort { name, port } => shared_port_text(alloc, name, *port),
        NetFault::ParallelLink { link } => text_with_place(alloc, "parallel link ", *link),
        NetFault::HostLink { name } => text_with_name(alloc, "host link ", name),
        NetFault::Placement { name } => text_with_name(alloc, "placement ", name),
        NetFault::OutOfMemory => Err(OutOfMemory),
    }
}

/// Adds a text and then a name.
pub fn push_named(bytes: &mut Vec<u8>, front: &str, name: &Name) -> Result<(), OutOfMemory>
    ensures { OnOk result (bytes.new.items ≡ bytes.old.items ++ (front.now ++ name.now)) }
{
    bytes.extend_from_slice(front.as_bytes())?;
    bytes.extend_from_slice(name.bytes())?;
    Ok(())
}

// The text for two statements that share a packet, which is printed.
fn overlap_text(
    alloc: Global,
    first: &Name,
    second: &Name,
    packet: &Name,
) -> Result<Name, OutOfMemory>
    ensures { IfOk result (λ text. text ≡ text_of_overlap first.now second.now packet.now) }
{
    let mut bytes = Vec::new(alloc);
    push_named(&mut bytes, "overlap ", first)?;
    push_named(&mut bytes, " ", second)?;
    push_named(&mut bytes, " ", packet)?;
    name_from(alloc, &bytes)
}

fn shared_packet_text(
    alloc: Global,
    first: &Name,
    second: &Name,
    packet: &Packet,
) -> Result<Name, OutOfMemory>
    ensures { IfOk result (λ text.
        text ≡ text_of_overlap first.now second.now (packet_text packet.now)) }
{
    let packet = print_packet(alloc, packet)?;
    overlap_text(alloc, first, second, &packet)
}

// The text with a packet after it.
fn text_with_packet(alloc: Global, text: &str, packet: &Packet) -> Result<Name, OutOfMemory>
    ensures { IfOk result (λ whole. whole ≡ text.now ++ packet_text packet.now) }
{
    let packet = print_packet(alloc, packet)?;
    text_with_name(alloc, text, &packet)
}

// The text for a minimum above a maximum.
fn conflict_text(alloc: Global, id: &Name, least: u64, most: u64) -> Result<Name, OutOfMemory>
    ensures { IfOk result (λ text. text ≡ text_of_conflict id.now least most) }
{
    let rates = format!(in alloc; " min {least} max {most}")?;
    let mut bytes = Vec::from_slice(alloc, b"conflict ")?;
    bytes.extend_from_slice(id.bytes())?;
    bytes.extend_from_slice(rates.as_bytes())?;
    name_from(alloc, &bytes)
}

fn rate_fault_text(alloc: Global, fault: &RateFault) -> Result<Name, OutOfMemory>
    ensures { IfOk result (λ text. text ≡ text_of_rate_fault fault.now) }
{
    match fault {
        RateFault::UnknownId { id } => text_with_name(alloc, "unknown id ", id),
        RateFault::RepeatedId { id } => text_with_name(alloc, "repeated id ", id),
        RateFault::ConstantTooLarge { term } => text_with_place(alloc, "constant in term ", *term),
        RateFault::LocalisedConflict { id, min, max } => conflict_text(alloc, id, *min, *max),
        RateFault::OutOfMemory => Err(OutOfMemory),
    }
}

/// What a rule that a policy breaks over its network is called. Want of memory has no name.
pub fn check_fault_text(alloc: Global, fault: &CheckFault) -> Result<Name, OutOfMemory>
    ensures { IfOk result (λ text. text ≡ text_of_check_fault fault.now) }
{
    match fault {
        CheckFault::UnknownName { name } => text_with_name(alloc, "unknown name ", name),
        CheckFault::FunctionUnderNot { name } => {
            text_with_name(alloc, "function under not ", name)
        }
        CheckFault::TooManyClasses { .. } => plain_text(alloc, "more than 4194304 classes"),
        CheckFault::Overlap {
            first,
            second,
            packet,
        } => shared_packet_text(alloc, first, second, packet),
        CheckFault::NotTotal { packet } => text_with_packet(alloc, "not total ", packet),
        CheckFault::Rate(fault) => rate_fault_text(alloc, fault),
        CheckFault::TooManyStates { .. } => plain_text(alloc, "more than 2048 states"),
        CheckFault::OutOfMemory => Err(OutOfMemory),
    }
}

// Adds a text and then the names of two locations.
fn push_pair(
    bytes: &mut Vec<u8>,
    net: &Topology,
    front: &str,
    pair: (usize, usize),
) -> Result<(), OutOfMemory>
    requires { AreLocations net.now pair }
    ensures { OnOk result (bytes.new.items ≡ bytes.old.items ++ hosts_text net.now front.now pair) }
{
    push_named(bytes, front, net.name(pair.0))?;
    push_named(bytes, " ", net.name(pair.1))
}

fn ends_text(
    alloc: Global,
    net: &Topology,
    id: &Name,
    first: (usize, usize),
    second: (usize, usize),
) -> Result<Name, OutOfMemory>
    requires first { AreLocations net.now first }
    requires second { AreLocations net.now second }
    ensures { IfOk result (λ text. text ≡ text_of_ends net.now id.now first second) }
{
    let mut bytes = Vec::new(alloc);
    push_named(&mut bytes, "ends ", id)?;
    push_pair(&mut bytes, net, " ", first)?;
    push_pair(&mut bytes, net, " and ", second)?;
    name_from(alloc, &bytes)
}

/// What a fault of ends is called over a network, where its locations have names. Want of memory has no name.
pub fn ends_fault_text(
    alloc: Global,
    net: &Topology,
    fault: &EndsFault,
) -> Result<Name, OutOfMemory>
    requires { NamesLocations net.now fault.now }
    ensures { IfOk result (λ text. text ≡ text_of_ends_fault net.now fault.now) }
{
    match fault {
        EndsFault::TooManyGuarantees { .. } => plain_text(alloc, "more than 64 guarantees"),
        EndsFault::NoEnds { id } => text_with_name(alloc, "no ends ", id),
        EndsFault::ManyEnds { id, first, second } => ends_text(alloc, net, id, *first, *second),
        EndsFault::OutOfMemory => Err(OutOfMemory),
    }
}

/// What a limit of rules that a policy passes is called. Want of memory has no name.
pub fn rule_fault_text(alloc: Global, fault: RuleFault) -> Result<Name, OutOfMemory>
    ensures { IfOk result (λ text. text ≡ text_of_rule_fault fault) }
{
    match fault {
        RuleFault::TooManyTags { .. } => plain_text(alloc, "more than 4094 tags"),
        RuleFault::TooManyCells { .. } => plain_text(alloc, "more than 524288 cells"),
        RuleFault::TooManyEntries { .. } => plain_text(alloc, "more than 524288 entries"),
        RuleFault::OutOfMemory => Err(OutOfMemory),
    }
}

/// What the program of guaranteed statements has too many of. Want of memory, and a statement that is too heavy on a link, have no name here.
pub fn program_fault_text(alloc: Global, fault: ProgramFault) -> Result<Name, OutOfMemory>
    ensures { IfOk result (λ text. text ≡ text_of_program_fault fault) }
{
    match fault {
        ProgramFault::Vertices { .. } => plain_text(alloc, "more than 8192 vertices"),
        ProgramFault::Edges { .. } => plain_text(alloc, "more than 32768 edges"),
        ProgramFault::Heavy { .. } => Err(OutOfMemory),
        ProgramFault::OutOfMemory => Err(OutOfMemory),
    }
}

/// The text for a statement whose guarantee is too heavy for the weight of a link.
pub fn heavy_text(alloc: Global, id: &Name, link: usize) -> Result<Name, OutOfMemory>
    ensures { IfOk result (λ text. text ≡ text_of_heavy id.now link) }
{
    let link = format!(in alloc; " {link}")?;
    let mut bytes = Vec::from_slice(alloc, b"weight ")?;
    bytes.extend_from_slice(id.bytes())?;
    bytes.extend_from_slice(link.as_bytes())?;
    name_from(alloc, &bytes)
}
