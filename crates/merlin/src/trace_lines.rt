//! The lines of a trace.
ghost use Rattle.std.specs.Prelude.{◌≡◌, ◌++◌, ◌∷◌, [], map, OnOk, IfOk, codes};
ghost use Rattle.std.specs.List.{flat_map};
ghost use Rattle.config_text.specs.Words.{line};
ghost use Rattle.config_text.specs.Lines.{function_name as function_name_of};
ghost use Rattle.merlin_model.specs.Machine.{Delivered, Dropped};
ghost use Rattle.packet_trace.specs.Trace.{record_of};
ghost use Rattle.merlin.specs.Trace.{applied_part, through_part, classed_part, visit_line, last_told};

use crate::inputs::location_name;
use merlin_base::{Name, OutOfMemory, name_from};
use packet_model::{Packet, print_packet};
use packet_trace::Visit;
use std::alloc::Global;
use topology::Topology;

// The name of a packet function, and no byte where there is none.
fn function_name(net: &Topology, function: usize) -> &[u8]
    ensures { result.now ≡ function_name_of net.now.functions function }
{
    match net.functions().get(function) {
        Some(decl) => decl.name.bytes(),
        None => &[],
    }
}

// Adds the names of functions, each behind a comma.
fn push_others(bytes: &mut Vec<u8>, net: &Topology, functions: &[usize]) -> Result<(), OutOfMemory>
    ensures { OnOk result (bytes.new.items ≡ bytes.old.items
        ++ flat_map (λ other. 44 ∷ function_name_of net.now.functions other) functions.now) }
{
    for function in functions {
        bytes.push(b',')?;
        bytes.extend_from_slice(function_name(net, *function))?;
    }
    Ok(())
}

// Adds the functions that ran.
fn push_applied(bytes: &mut Vec<u8>, net: &Topology, functions: &[usize]) -> Result<(), OutOfMemory>
    ensures { OnOk result (bytes.new.items ≡
        bytes.old.items ++ applied_part net.now.functions functions.now) }
{
    let [first, others @ ..] = functions else {
        return Ok(());
    };
    bytes.extend_from_slice(b" apply ")?;
    bytes.extend_from_slice(function_name(net, *first))?;
    push_others(bytes, net, others)
}

// Adds the queue.
fn push_through(alloc: Global, bytes: &mut Vec<u8>, queue: Option<u16>) -> Result<(), OutOfMemory>
    ensures { OnOk result (bytes.new.items ≡ bytes.old.items ++ through_part queue) }
{
    if let Some(queue) = queue {
        let text = format!(in alloc; " queue {queue}")?;
        bytes.extend_from_slice(text.as_bytes())?;
    }
    Ok(())
}

// Adds the class.
fn push_classed(alloc: Global, bytes: &mut Vec<u8>, class: Option<u16>) -> Result<(), OutOfMemory>
    ensures { OnOk result (bytes.new.items ≡ bytes.old.items ++ classed_part class) }
{
    if let Some(class) = class {
        let text = format!(in alloc; " class 1:{class:x}")?;
        bytes.extend_from_slice(text.as_bytes())?;
    }
    Ok(())
}

// Adds what is told of a location that is left, behind its name.
fn push_visit(
    alloc: Global,
    bytes: &mut Vec<u8>,
    net: &Topology,
    visit: &Visit,
) -> Result<(), OutOfMemory>
    ensures { OnOk result (bytes.new.items ≡ bytes.old.items
        ++ (applied_part net.now.functions visit.now.functions
        ++ (through_part visit.now.queue ++ classed_part visit.now.class))) }
{
    push_applied(bytes, net, visit.functions.as_slice())?;
    push_through(alloc, bytes, visit.queue)?;
    push_classed(alloc, bytes, visit.class)
}

// The line of a location that is left.
fn line_of_visit(alloc: Global, net: &Topology, visit: &Visit) -> Result<Name, OutOfMemory>
    ensures { IfOk result (λ name. name ≡ visit_line net.now (record_of visit.now)) }
{
    let mut bytes = Vec::from_slice(alloc, b"at ")?;
    bytes.extend_from_slice(location_name(net, visit.loc))?;
    push_visit(alloc, &mut bytes, net, visit)?;
    bytes.push(b'\n')?;
    name_from(alloc, &bytes)
}

/// Adds the lines of locations that are left.
pub fn push_visits(
    alloc: Global,
    lines: &mut Vec<Name>,
    net: &Topology,
    visits: &[Visit],
) -> Result<(), OutOfMemory>
    ensures { OnOk result (lines.new.items ≡ lines.old.items
        ++ map (visit_line net.now) (map record_of visits.now)) }
{
    for visit in visits {
        lines.push(line_of_visit(alloc, net, visit)?)?;
    }
    Ok(())
}

/// The line of a packet that is delivered.
pub fn delivered_line(
    alloc: Global,
    net: &Topology,
    host: usize,
    packet: &Packet,
) -> Result<Name, OutOfMemory>
    ensures { IfOk result (λ name. name ≡ last_told net.now (Delivered host packet.now)) }
{
    let packet = print_packet(alloc, packet)?;
    let mut bytes = Vec::from_slice(alloc, b"delivered ")?;
    bytes.extend_from_slice(location_name(net, host))?;
    bytes.push(b' ')?;
    bytes.extend_from_slice(packet.bytes())?;
    bytes.push(b'\n')?;
    name_from(alloc, &bytes)
}

/// The line of a packet that is dropped.
pub fn dropped_line(alloc: Global, net: &Topology, loc: usize) -> Result<Name, OutOfMemory>
    ensures { IfOk result (λ name. name ≡ last_told net.now (Dropped loc)) }
{
    let mut bytes = Vec::from_slice(alloc, b"dropped ")?;
    bytes.extend_from_slice(location_name(net, loc))?;
    bytes.push(b'\n')?;
    name_from(alloc, &bytes)
}
