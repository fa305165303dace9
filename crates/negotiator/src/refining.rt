//! Whether a child policy refines its parent.

ghost use Rattle.std.specs.Prelude.{List, length, IfErr, OnOk};
ghost use Rattle.merlin_model.specs.declared.policy.Symbol.{Symbol};
ghost use Rattle.merlin_model.specs.Networks.{Network};
ghost use Rattle.merlin_model.specs.Policies.{paths_of};
ghost use Rattle.policy_check.specs.Checked.{HasAutomata};
ghost use Rattle.refinement_model.specs.Refinement.{Refines};
ghost use Rattle.topology.specs.Symbols.{network_symbols};
ghost use Rattle.negotiator.specs.CellCounts.{HasFewCellsTogether};
ghost use Rattle.negotiator.specs.Refusals.{RefusesChild, RefusesRules, IsRefinement, KeepsUsages};
ghost use Rattle.negotiator.specs.Marks.{AreContactsWithin};
ghost use Rattle.negotiator.specs.Wider.{IsComparison};

use crate::asking::ask_amounts;
use crate::comparing::{Comparison, compare_policies};
use crate::contacts::both_preds;
use crate::counting::ask_cells;
use crate::fault::RefineFault;
use policy_check::Checked;
use std::alloc::Global;
use topology::Topology;

// Asks that the predicates of both policies have few cells.
fn ask_few(
    alloc: Global,
    parent: &Checked,
    child: &Checked,
    net: &Topology,
) -> Result<(), RefineFault>
    ensures ok { OnOk result (HasFewCellsTogether net.now parent.now.policy child.now.policy) }
    ensures err { IfErr result (RefusesChild net.now
        parent.now.policy child.now.policy (network_symbols net.now)) }
{
    let _statements = (child.statements(), parent.statements());
    let preds = both_preds(alloc, parent, child)?;
    ask_cells(alloc, preds.as_slice(), net)
}

// Asks the rules of two policies that were compared: no wider path, and then the terms.
fn ask_rules(
    alloc: Global,
    parent: &Checked,
    child: &Checked,
    comparison: Comparison,
) -> Result<(), RefineFault>
    requires within { AreContactsWithin (length (paths_of child.now.policy))
        (length (paths_of parent.now.policy)) comparison.contacts.items }
    ensures ok { (net : Network) (symbols : List Symbol) →
        IsComparison net parent.now.policy child.now.policy symbols comparison →
        OnOk result (Refines net parent.now.policy child.now.policy) }
    ensures err { (net : Network) (symbols : List Symbol) →
        IsComparison net parent.now.policy child.now.policy symbols comparison →
        IfErr result (RefusesRules net parent.now.policy child.now.policy symbols) }
{
    let Comparison { contacts, wide } = comparison;
    if let Some(path) = wide {
        return Err(RefineFault::PathWider {
            packet: path.packet,
            word: path.word,
        });
    }
    ask_amounts(alloc, parent, child, &contacts)
}

/// Whether the child refines the parent. The rules are asked in this order: the child allows no packet a walk that the parent does not; for each `max` term of the parent
/// the caps of all statements that touch what it bounds sum to at most its amount; the same for each `min` term and the guarantees; and no guaranteed statement touches what no
/// `min` term bounds. Both policies were checked over the network. Where they refine, the traffic that the child allows keeps the terms of the parent (`usages`).
///
/// # Errors
/// `TooManyCells` where the predicates of both policies have too many cells together, over all ordered pairs of hosts. Else the first rule that fails, with what shows it.
pub fn refine(
    alloc: Global,
    parent: &Checked,
    child: &Checked,
    net: &Topology,
) -> Result<(), RefineFault>
    requires parent { HasAutomata (network_symbols net.now) parent.now }
    requires child { HasAutomata (network_symbols net.now) child.now }
    ensures ok { OnOk result (IsRefinement net.now parent.now.policy child.now.policy) }
    ensures usages { OnOk result (KeepsUsages net.now parent.now.policy child.now.policy) }
    ensures err { IfErr result (RefusesChild net.now
        parent.now.policy child.now.policy (network_symbols net.now)) }
{
    refinement_model::laws::refined_usage_keeps_caps();
    refinement_model::laws::refined_usage_keeps_reserves();
    let _parent = parent.statements();
    let _child = child.statements();
    ask_few(alloc, parent, child, net)?;
    let comparison = compare_policies(alloc, parent, child, net)?;
    ask_rules(alloc, parent, child, comparison)
}
