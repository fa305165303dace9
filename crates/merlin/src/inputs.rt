//! What several commands read: a topology, and a result over it.
ghost use Rattle.std.specs.Prelude.{◌≡◌, ℕ, IfOk, IfSome, IfNone};
ghost use Rattle.refusal_text.specs.Refusals.{location_name as location_name_of};
ghost use Rattle.merlin.specs.Inputs.{wrong_topology_lines as lines_of_topology, wrong_result_lines as lines_of_result};
ghost use Rattle.merlin.specs.Wire.{IsSwitchNamed, unknown_switch_lines as lines_of_switch};

use crate::report::{named_line, numbered_line};
use merlin_base::{Name, OutOfMemory};
use refusal_text::net_fault_text;
use std::alloc::Global;
use topology::{NetFault, Place, Topology};

/// The name of a location, and no byte where there is none.
pub fn location_name(net: &Topology, loc: usize) -> &[u8]
    ensures { result.now ≡ location_name_of net.now loc }
{
    if loc < net.locations() {
        net.name(loc).bytes()
    } else {
        &[]
    }
}

/// What is said of a topology that is refused.
pub fn wrong_topology_lines(alloc: Global, fault: &NetFault) -> Result<Vec<Name>, OutOfMemory>
    ensures { IfOk result (λ lines. lines.items ≡ lines_of_topology fault.now) }
{
    let text = net_fault_text(alloc, fault)?;
    named_line(alloc, "refused: ", &text)
}

/// What is said of a result whose line at this place is wrong.
pub fn wrong_result_lines(alloc: Global, at: usize) -> Result<Vec<Name>, OutOfMemory>
    ensures { IfOk result (λ lines. lines.items ≡ lines_of_result at) }
{
    numbered_line(alloc, "refused: result at ", at)
}

/// The switch that bears the name.
pub fn switch_named(net: &Topology, name: &[u8]) -> Option<usize>
    ensures some { IfSome result (IsSwitchNamed net.now name.now) }
    ensures none { IfNone result ((switch : ℕ) → ¬ IsSwitchNamed net.now name.now switch) }
{
    // No two locations bear one name.
    let _locations = net.locations();
    let loc = net.find(name)?;
    match net.place(loc) {
        Place::Switch => Some(loc),
        Place::Host | Place::Middlebox => None,
    }
}

/// What is said of a word that names no switch.
pub fn unknown_switch_lines(alloc: Global, name: &Name) -> Result<Vec<Name>, OutOfMemory>
    ensures { IfOk result (λ lines. lines.items ≡ lines_of_switch name.now) }
{
    named_line(alloc, "refused: unknown switch ", name)
}
