//! From the guaranteed statements of a policy to their program.

ghost use Rattle.std.specs.Prelude.{◌≤◌, length, map, IfOk, IfErr};
ghost use Rattle.std.specs.List.{AllByRecursion};
ghost use Rattle.merlin_model.specs.Networks.{directed_links};
ghost use Rattle.policy_flows.specs.Layouts.{statement_parts, HasParts, IsLayout, KeepsProductLimits};
ghost use Rattle.policy_flows.specs.Faults.{RefusesStatements};

use crate::program::{MerlinProgram, program_of};
use merlin_model::policy::{Ends, Objective};
use path_automaton::Automaton;
use policy_flows::{Layout, ProgramFault, lay_out};
use std::alloc::Global;
use topology::Topology;

/// The program of guaranteed statements, each between its ends: over the products of their automata with the network, and with
/// their rates in kbit/s. Automata and rates stand by the numbers of all statements.
///
/// # Errors
/// The first that applies, in the order of the variants of `ProgramFault`.
pub fn new(
    alloc: Global,
    net: &Topology,
    automata: &[&Automaton],
    rates: &[u64],
    ends: &[Ends],
    objective: Objective,
) -> Result<MerlinProgram, ProgramFault>
    requires few { length ends.now ≤ 64 }
    requires parts { AllByRecursion
        (HasParts net.now (map (λ a. a.now) automata.now) rates.now) ends.now }
    ensures layout { IfOk result (λ program. IsLayout net.now
        (statement_parts net.now (map (λ a. a.now) automata.now) rates.now) ends.now objective
        program.problem program.symbols) }
    ensures limits { IfOk result (λ program. KeepsProductLimits (directed_links net.now)
        program.problem.flows) }
    ensures err { IfErr result (RefusesStatements net.now
        (statement_parts net.now (map (λ a. a.now) automata.now) rates.now) ends.now) }
{
    // the network keeps its limits
    let _ = net.locations();
    let Layout { problem, symbols } = lay_out(alloc, net, automata, rates, ends, objective)?;
    Ok(program_of(alloc, problem, symbols)?)
}
