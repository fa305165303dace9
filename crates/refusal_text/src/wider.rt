//! What the rules of refinement are called in the line that tells which of them fails.

ghost use Rattle.std.specs.Prelude.{◌≡◌, ◌++◌, ◌∷◌, IfOk, OnOk, map};
ghost use Rattle.std.specs.List.{AllByRecursion};
ghost use Rattle.merlin_model.specs.Words.{IsSymbol};
ghost use Rattle.config_text.specs.Words.{spaced};
ghost use Rattle.config_text.specs.Result.{symbol_text};
ghost use Rattle.negotiator.specs.declared.fault.RefineFault.TheVariants as refine_faults;
ghost use Rattle.refusal_text.specs.Wider.{IsWiderText, NamesSymbols};

use crate::refusals::push_named;
use merlin_base::{Name, OutOfMemory, name_from};
use merlin_model::policy::Symbol;
use negotiator::RefineFault;
use packet_model::{Packet, print_packet};
use std::alloc::Global;
use topology::Topology;

// Adds a symbol after a space: its location, and the function that runs there.
fn push_symbol(bytes: &mut Vec<u8>, net: &Topology, symbol: Symbol) -> Result<(), OutOfMemory>
    requires { IsSymbol net.now symbol }
    ensures { OnOk result (bytes.new.items ≡ bytes.old.items ++ 32 ∷ symbol_text net.now symbol) }
{
    push_named(bytes, " ", net.name(symbol.loc))?;
    match symbol.fun {
        Some(function) => push_named(bytes, ":", &net.functions()[function].name),
        None => Ok(()),
    }
}

// Adds symbols, each after a space.
fn push_symbols(bytes: &mut Vec<u8>, net: &Topology, word: &[Symbol]) -> Result<(), OutOfMemory>
    requires { AllByRecursion (IsSymbol net.now) word.now }
    ensures { OnOk result (bytes.new.items ≡
        bytes.old.items ++ spaced (map (symbol_text net.now) word.now)) }
{
    for symbol in word {
        push_symbol(bytes, net, *symbol)?;
    }
    Ok(())
}

// What the rule of paths is called where it fails: a packet, and a word that the child alone allows it.
fn path_text(
    alloc: Global,
    net: &Topology,
    packet: &Packet,
    word: &[Symbol],
) -> Result<Name, OutOfMemory>
    requires { AllByRecursion (IsSymbol net.now) word.now }
    ensures { let fault = refine_faults.PathWider packet.now word.now in
        IfOk result (IsWiderText net.now fault) }
{
    let printed = print_packet(alloc, packet)?;
    let mut bytes = Vec::new(alloc);
    push_named(&mut bytes, "wider path ", &printed)?;
    push_symbols(&mut bytes, net, word)?;
    name_from(alloc, &bytes)
}

// What the rule of caps is called where it fails at a term: what its statements may use together, if each has a cap.
fn cap_text(alloc: Global, term: usize, sum: Option<u64>) -> Result<Name, OutOfMemory>
    ensures { (net : _) → IfOk result (IsWiderText net (refine_faults.CapWider term sum)) }
{
    let text = match sum {
        Some(sum) => format!(in alloc; "wider cap {term} {sum}")?,
        None => format!(in alloc; "wider cap {term} uncapped")?,
    };
    name_from(alloc, text.as_bytes())
}

// What the rule of guarantees is called where it fails at a term: what its statements are guaranteed together.
fn reserve_text(alloc: Global, term: usize, sum: u64) -> Result<Name, OutOfMemory>
    ensures { (net : _) → IfOk result (IsWiderText net (refine_faults.ReserveWider term sum)) }
{
    let text = format!(in alloc; "wider reserve {term} {sum}")?;
    name_from(alloc, text.as_bytes())
}

/// What the rule of refinement that fails is called over a network. Want of memory, and of room for cells, have no name here.
pub fn wider_text(alloc: Global, net: &Topology, fault: &RefineFault) -> Result<Name, OutOfMemory>
    requires { NamesSymbols net.now fault.now }
    ensures { IfOk result (IsWiderText net.now fault.now) }
{
    match fault {
        RefineFault::PathWider { packet, word } => path_text(alloc, net, packet, word.as_slice()),
        RefineFault::CapWider { term, sum } => cap_text(alloc, *term, *sum),
        RefineFault::ReserveWider { term, sum } => reserve_text(alloc, *term, *sum),
        RefineFault::TooManyCells { .. } => Err(OutOfMemory),
        RefineFault::OutOfMemory => Err(OutOfMemory),
    }
}
