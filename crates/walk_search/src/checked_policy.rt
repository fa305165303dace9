//! Walks for the guaranteed statements of a policy that was checked.

ghost use Rattle.std.specs.Prelude.{◌≡◌, ◌<◌, ◌≤◌, length, map, IfOk, IfErr};
ghost use Rattle.merlin_model.specs.Assignments.{AreAllEnds};
ghost use Rattle.topology.specs.Symbols.{network_symbols};
ghost use Rattle.policy_check.specs.Checked.{HasAutomata};
ghost use Rattle.policy_check.specs.declared.guarantees.TheConstants.{MAX_GUARANTEES};
ghost use Rattle.configuration_model.specs.Checked.{IsChecked};
ghost use Rattle.openflow_rules.specs.Planning.{statement_automata};
ghost use Rattle.policy_flows.specs.Faults.{RefusesStatements};
ghost use Rattle.walk_search.specs.Found.{IsFoundFor};
ghost use Rattle.walk_search.specs.Parts.{checked_parts};

use crate::finding::find_walks_of;
use crate::found::WalksFound;
use merlin_model::OutOfMemory;
use merlin_model::limits::MAX_NODES;
use merlin_model::policy::{Ends, Objective};
use path_automaton::Automaton;
use policy_check::Checked;
use policy_flows::ProgramFault;
use std::alloc::Global;
use topology::Topology;

// The automaton of each statement.
fn automata_of<'a>(alloc: Global, checked: &'a Checked) -> Result<Vec<&'a Automaton>, OutOfMemory>
    ensures { IfOk result (λ automata. map (λ a. a.now) automata.items ≡
        statement_automata checked.now) }
{
    let _numbers = checked.automata();
    let mut automata = Vec::new(alloc);
    for statement in 0..checked.statements() {
        automata.push(checked.automaton(statement))?;
    }
    Ok(automata)
}

/// Walks for the guaranteed statements of a checked policy, by a search of at most so many nodes.
///
/// # Errors
/// Those of the program of the statements.
pub fn find_walks(
    alloc: Global,
    net: &Topology,
    checked: &Checked,
    ends: &[Ends],
    objective: Objective,
    budget: usize,
) -> Result<WalksFound, ProgramFault>
    requires some { 0 < budget }
    requires most { budget ≤ MAX_NODES }
    requires automata { HasAutomata (network_symbols net.now) checked.now }
    requires checked { IsChecked net.now checked.now.policy (network_symbols net.now)
        (statement_automata checked.now) }
    requires ends { AreAllEnds net.now checked.now.policy ends.now }
    requires few { length ends.now ≤ MAX_GUARANTEES }
    ensures ok { IfOk result (IsFoundFor net.now checked.now.policy
        (checked_parts net.now checked.now) ends.now objective budget) }
    ensures err { IfErr result (RefusesStatements net.now
        (checked_parts net.now checked.now) ends.now) }
{
    localise::laws::rates_of_statements();
    policy_check::laws::localised_rates_are_small();
    merlin_program::laws::automata_recognise_paths();
    let _sound = checked.statements();
    let _numbers = checked.automata();
    let automata = automata_of(alloc, checked)?;
    let rates = checked.rates().min.as_slice();
    find_walks_of(
        alloc,
        net,
        automata.as_slice(),
        rates,
        ends,
        objective,
        budget,
    )
}
