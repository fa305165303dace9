//! A plan of rules: what is made once for a checked policy, before walks are chosen.

ghost use Rattle.std.specs.Prelude.{◌≡◌, map, IfOk, IfErr};
ghost use Rattle.topology.specs.Symbols.{network_symbols};
ghost use Rattle.merlin_model.specs.Assignments.{AreAllEnds, IsAssignment};
ghost use Rattle.policy_check.specs.Checked.{HasAutomata};
ghost use Rattle.configuration_model.specs.Groups.{HaveDifferentVertices};
ghost use Rattle.configuration_model.specs.Pairs.{pair_cells};
ghost use Rattle.configuration_model.specs.Tables.{AreSources, AreTables};
ghost use Rattle.openflow_rules.specs.Planning.{statement_automata, IsWithinLimits, PassesLimit};

use crate::chosen::Chosen;
use crate::fault::RuleFault;
use crate::making::tables_with;
use crate::preparing::{PlanParts, prepare};
use crate::sources::live_sources;
use merlin_model::OutOfMemory;
use merlin_model::policy::{Ends, Symbol};
use policy_check::Checked;
use rule_tables::Tables;
use std::alloc::Global;
use std::marker::Model;
use topology::Topology;

/// The groups, tags and branches of a checked policy over a network.
#[derive(Drop)]
pub struct RulePlan<'a> {
    net: &'a Topology,
    checked: &'a Checked,
    ends: &'a [Ends],
    parts: PlanParts,
    sources: Vec<Vec<usize>>,
}

impl<'a> Model for RulePlan<'a> {
    ghost use Rattle.std.specs.Coded.{codes};
    ghost use Rattle.merlin_model.specs.contracts.policy.Path as path;
    ghost use Rattle.merlin_model.specs.contracts.policy.Pred as pred;
    ghost use Rattle.openflow_rules.specs.Planning.{Planned};

    ghost Value = { Planned };

    ghost coded = { Prim.hlevel (codes, path.the_row.coded, pred.the_row.coded) };

    ghost use Rattle.std.specs.Prelude.{map};
    ghost use Rattle.configuration_model.specs.Tables.{AreSources};
    ghost use Rattle.openflow_rules.specs.PlanParts.{IsRulePlan};

    ghost view = { λ p. record { net = p.net.now; checked = p.checked.now; ends = p.ends.now } };

    ghost invariant = { λ p. IsRulePlan p.net.now p.checked.now p.ends.now p.parts
        × AreSources p.net.now p.checked.now.policy
        (map (λ hosts. hosts.items) p.sources.items) };
}

/// The plan of a checked policy with these ends, if its tags, cells and entries are within their
/// limits.
///
/// # Errors
/// The first limit that is passed: tags before cells before entries.
pub fn plan<'a>(
    alloc: Global,
    checked: &'a Checked,
    ends: &'a [Ends],
    net: &'a Topology,
) -> Result<RulePlan<'a>, RuleFault>
    requires automata { HasAutomata (network_symbols net.now) checked.now }
    requires ends { AreAllEnds net.now checked.now.policy ends.now }
    ensures ok { IfOk result (λ plan. plan ≡ record {
      net = net.now;
      checked = checked.now;
      ends = ends.now;
    }) }
    ensures limits { IfOk result (λ _. IsWithinLimits net.now checked.now ends.now) }
    ensures err { IfErr result (PassesLimit net.now checked.now ends.now) }
{
    let parts = prepare(alloc, checked, ends, net)?;
    let sources = live_sources(alloc, net, checked, &parts.groups)?;
    Ok(RulePlan {
        net,
        checked,
        ends,
        parts,
        sources,
    })
}

impl<'a> RulePlan<'a> {
    /// The live sources of each statement, the default's last, in the order of their locations.
    pub fn sources(&self) -> &[Vec<usize>]
        ensures { AreSources self.now.net self.now.checked.policy
            (map (λ hosts. hosts.items) result.now) }
    {
        self.sources.as_slice()
    }

    /// The rules and `process` lines for these walks: one that is allowed for each of the ends, with
    /// different vertices in the product of its statement.
    pub fn tables(&self, alloc: Global, walks: &[Vec<Symbol>]) -> Result<Tables, OutOfMemory>
        requires assigned { IsAssignment self.now.net self.now.checked.policy self.now.ends
            (map (λ w. w.items) walks.now) }
        requires simple { HaveDifferentVertices self.now.checked.policy
            (network_symbols self.now.net) (statement_automata self.now.checked)
            self.now.ends (map (λ w. w.items) walks.now) }
        ensures { IfOk result (λ tables. AreTables self.now.net self.now.checked.policy
            (network_symbols self.now.net) (statement_automata self.now.checked) self.now.ends
            (map (λ w. w.items) walks.now) (pair_cells self.now.net self.now.checked.policy)
            tables.rules tables.processes) }
    {
        let chosen = Chosen {
            net: self.net,
            checked: self.checked,
            ends: self.ends,
            walks,
        };
        tables_with(alloc, &chosen, &self.parts)
    }
}
