//! The tables of a plan, for walks that were chosen.

ghost use Rattle.std.specs.Prelude.{map, IfOk};
ghost use Rattle.merlin_model.specs.Assignments.{IsAssignment};
ghost use Rattle.topology.specs.Symbols.{network_symbols};
ghost use Rattle.configuration_model.specs.Groups.{HaveDifferentVertices};
ghost use Rattle.configuration_model.specs.Pairs.{pair_cells};
ghost use Rattle.configuration_model.specs.Tables.{AreTables};
ghost use Rattle.openflow_rules.specs.Planning.{statement_automata};
ghost use Rattle.openflow_rules.specs.PlanParts.{IsRulePlan};

use crate::chosen::{Chosen, all_groups};
use crate::owned::owned_cells;
use crate::preparing::PlanParts;
use crate::spans::host_locations;
use merlin_model::OutOfMemory;
use rule_tables::{Tables, tables_of};
use std::alloc::Global;

/// The tables for these walks, from what was made ready for them.
pub fn tables_with(
    alloc: Global,
    chosen: &Chosen<'_>,
    parts: &PlanParts,
) -> Result<Tables, OutOfMemory>
    requires plan { IsRulePlan chosen.now.net.now chosen.now.checked.now chosen.now.ends.now
        parts.now }
    requires assigned { IsAssignment chosen.now.net.now chosen.now.checked.now.policy
        chosen.now.ends.now (map (λ w. w.items) chosen.now.walks.now) }
    requires simple { HaveDifferentVertices chosen.now.checked.now.policy
        (network_symbols chosen.now.net.now) (statement_automata chosen.now.checked.now)
        chosen.now.ends.now (map (λ w. w.items) chosen.now.walks.now) }
    ensures { IfOk result (λ tables. AreTables chosen.now.net.now chosen.now.checked.now.policy
        (network_symbols chosen.now.net.now) (statement_automata chosen.now.checked.now)
        chosen.now.ends.now (map (λ w. w.items) chosen.now.walks.now)
        (pair_cells chosen.now.net.now chosen.now.checked.now.policy)
        tables.rules tables.processes) }
{
    // statements are few
    let _ = chosen.checked.statements();
    let hosts = host_locations(alloc, chosen.net)?;
    let leaders = parts.groups.leaders.as_slice();
    let branches = parts.branches.as_slice();
    let groups = all_groups(alloc, chosen, hosts.as_slice(), leaders, branches)?;
    let owned = owned_cells(
        alloc,
        chosen.net,
        chosen.checked,
        parts.groups.group_of.as_slice(),
    )?;
    tables_of(
        alloc,
        chosen.net,
        parts.tags.as_slice(),
        &groups,
        owned.as_slice(),
    )
}
