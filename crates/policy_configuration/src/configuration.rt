//! From a plan and walks to all lines of a configuration.

ghost use Rattle.std.specs.Prelude.{◌≡◌, ◌≤◌, length, map, IfOk};
ghost use Rattle.std.specs.List.{AllByRecursion};
ghost use Rattle.merlin_model.specs.Assignments.{AreAllEnds, IsAssignment};
ghost use Rattle.topology.specs.Symbols.{network_symbols};
ghost use Rattle.config_text.specs.Lines.{IsConfigOver};
ghost use Rattle.predicate_split.specs.declared.fault.TheConstants.{MAX_CELLS};
ghost use Rattle.policy_check.specs.Checked.{HasAutomata};
ghost use Rattle.policy_check.specs.declared.guarantees.TheConstants.{MAX_GUARANTEES};
ghost use Rattle.configuration_model.specs.Checked.{IsChecked};
ghost use Rattle.configuration_model.specs.Pairs.{count_of_cells};
ghost use Rattle.configuration_model.specs.Queues.{reserved_queues};
ghost use Rattle.configuration_model.specs.Groups.{HaveDifferentVertices};
ghost use Rattle.configuration_model.specs.Compiled.{IsMade};
ghost use Rattle.openflow_rules.specs.Planning.{statement_automata, IsWithinLimits};
ghost use Rattle.queue_and_tc.specs.Reserved.{IsShort};
ghost use Rattle.policy_configuration.specs.Parts.{AreHostLines, HasLinesFor};

use crate::laws;
use merlin_model::OutOfMemory;
use merlin_model::config::{Config, HostLine, Queue};
use merlin_model::policy::{Ends, Symbol};
use openflow_rules::RulePlan;
use policy_check::Checked;
use queue_and_tc::{host_lines, queues};
use rule_tables::Tables;
use sqlite_items::Items;
use std::alloc::Global;
use topology::Topology;

// The queues of the guarantees.
fn queues_of(
    alloc: Global,
    net: &Topology,
    checked: &Checked,
    ends: &[Ends],
    walks: &[Vec<Symbol>],
) -> Result<Items<Queue>, OutOfMemory>
    requires few { length ends.now ≤ MAX_GUARANTEES }
    requires short { AllByRecursion IsShort walks.now }
    ensures { IfOk result (λ queues. queues ≡
        reserved_queues net.now checked.now.policy ends.now (map (λ w. w.items) walks.now)) }
{
    policy_check::laws::localised_rates_are_small();
    let _sound = checked.statements();
    let queues = queues(alloc, net, checked, ends, walks)?;
    Ok(Items::from_vec(queues))
}

// The lines of all hosts.
fn host_lines_of(
    alloc: Global,
    net: &Topology,
    checked: &Checked,
    ends: &[Ends],
    plan: &RulePlan,
) -> Result<Items<HostLine>, OutOfMemory>
    requires plan { plan.now ≡ record {
      net = net.now;
      checked = checked.now;
      ends = ends.now;
    } }
    requires cells { count_of_cells net.now checked.now.policy ≤ MAX_CELLS }
    ensures { IfOk result (AreHostLines net.now checked.now.policy) }
{
    let _sound = checked.statements();
    let live = plan.sources();
    let lines = host_lines(alloc, net, checked, live)?;
    Ok(Items::from_vec(lines))
}

/// The configuration of a checked policy with one walk for each guaranteed statement, in the order of
/// the ends. The plan is that of the same policy, ends and topology.
pub fn configuration_of(
    alloc: Global,
    net: &Topology,
    checked: &Checked,
    ends: &[Ends],
    plan: &RulePlan,
    walks: &[Vec<Symbol>],
) -> Result<Config, OutOfMemory>
    requires plan { plan.now ≡ record {
      net = net.now;
      checked = checked.now;
      ends = ends.now;
    } }
    requires automata { HasAutomata (network_symbols net.now) checked.now }
    requires checked { IsChecked net.now checked.now.policy (network_symbols net.now)
        (statement_automata checked.now) }
    requires ends { AreAllEnds net.now checked.now.policy ends.now }
    requires few { length ends.now ≤ MAX_GUARANTEES }
    requires limits { IsWithinLimits net.now checked.now ends.now }
    requires assigned { IsAssignment net.now checked.now.policy ends.now
        (map (λ w. w.items) walks.now) }
    requires simple { HaveDifferentVertices checked.now.policy (network_symbols net.now)
        (statement_automata checked.now) ends.now (map (λ w. w.items) walks.now) }
    ensures made { IfOk result (IsMade net.now checked.now.policy ends.now
        (map (λ w. w.items) walks.now)) }
    ensures lines { IfOk result (IsConfigOver net.now) }
    ensures exactly { IfOk result (HasLinesFor net.now checked.now.policy
        (statement_automata checked.now) ends.now (map (λ w. w.items) walks.now)) }
{
    laws::made_lines_are_over_the_network();
    queue_and_tc::laws::pair_cells_name_owners();
    let _lawful = net.locations();
    let _numbers = checked.automata();
    let hosts = host_lines_of(alloc, net, checked, ends, plan)?;
    let queues = queues_of(alloc, net, checked, ends, walks)?;
    let Tables { rules, processes } = plan.tables(alloc, walks)?;
    Ok(Config {
        rules,
        processes,
        queues,
        hosts,
    })
}
