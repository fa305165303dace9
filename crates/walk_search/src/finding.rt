//! Walks for guaranteed statements whose automata and rates are given.

ghost use Rattle.std.specs.Prelude.{◌<◌, ◌≤◌, length, map, IfOk, IfErr};
ghost use Rattle.std.specs.List.{AllByRecursion};
ghost use Rattle.merlin_model.specs.Policies.{Policy};
ghost use Rattle.policy_check.specs.declared.guarantees.TheConstants.{MAX_GUARANTEES};
ghost use Rattle.policy_flows.specs.Layouts.{statement_parts, HasParts};
ghost use Rattle.policy_flows.specs.Faults.{RefusesStatements};
ghost use Rattle.merlin_program.specs.Guaranteed.{ArePartsIn};
ghost use Rattle.walk_search.specs.Found.{IsFoundFor};

use crate::found::WalksFound;
use crate::search::search_of;
use merlin_model::limits::MAX_NODES;
use merlin_model::policy::{Ends, Objective};
use path_automaton::Automaton;
use policy_flows::ProgramFault;
use std::alloc::Global;
use topology::Topology;

/// Walks for guaranteed statements, each between its ends, by a search of at most so many nodes. Automata and rates stand by the
/// numbers of all statements.
///
/// # Errors
/// Those of the program of the statements.
pub fn find_walks_of(
    alloc: Global,
    net: &Topology,
    automata: &[&Automaton],
    rates: &[u64],
    ends: &[Ends],
    objective: Objective,
    budget: usize,
) -> Result<WalksFound, ProgramFault>
    requires some { 0 < budget }
    requires most { budget ≤ MAX_NODES }
    requires few { length ends.now ≤ MAX_GUARANTEES }
    requires parts { AllByRecursion
        (HasParts net.now (map (λ a. a.now) automata.now) rates.now) ends.now }
    ensures ok { (policy : Policy) →
        let parts = statement_parts net.now (map (λ a. a.now) automata.now) rates.now in
        AllByRecursion (ArePartsIn net.now policy parts) ends.now →
        IfOk result (IsFoundFor net.now policy parts ends.now objective budget) }
    ensures err { IfErr result (RefusesStatements net.now
        (statement_parts net.now (map (λ a. a.now) automata.now) rates.now) ends.now) }
{
    merlin_program::laws::layouts_are_of_policies();
    let _ = net.locations();
    let program = merlin_program::new(alloc, net, automata, rates, ends, objective)?;
    Ok(search_of(alloc, program, budget)?)
}
