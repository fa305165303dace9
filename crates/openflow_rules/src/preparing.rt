//! What is made ready for the tables of a checked policy, if it is within the limits.

ghost use Rattle.std.specs.Prelude.{◌≡◌, ◌≤◌, ◌<◌, ◌+◌, ℕ, List, length, IfOk, IfErr, OnOk, IsSome};
ghost use Rattle.topology.specs.Symbols.{network_symbols};
ghost use Rattle.merlin_model.specs.Assignments.{AreAllEnds};
ghost use Rattle.rules_model.specs.Tables.{all_hosts};
ghost use Rattle.policy_check.specs.Checked.{HasAutomata};
ghost use Rattle.configuration_model.specs.Groups.{AreGrouped};
ghost use Rattle.openflow_rules.specs.Planning.{IsWithinLimits, PassesLimit};
ghost use Rattle.openflow_rules.specs.PlanParts.{IsGatheredFor, ArePlanParts};
ghost use Rattle.openflow_rules.specs.PlanParts.{IsEntryFault, IsWithinRest, IsRestFault};

use crate::cells::ask_cells;
use crate::fault::{MAX_ENTRIES, RuleFault};
use crate::gathering::{Gathered, Site, gather};
use crate::groups::{Groups, groups_of};
use crate::spans::{group_spans, host_locations};
use merlin_model::policy::Ends;
use policy_check::Checked;
use product_graph::followers_of;
use rule_tables::{Branch, TagKey};
use sqlite_items::Items;
use std::alloc::Global;
use topology::Topology;

/// The groups of a policy, their tags in order, and for each of their products its branch, which for a
/// guaranteed group is empty, since its walk is not chosen yet.
#[derive(Drop)]
pub struct PlanParts {
    pub groups: Groups,
    pub tags: Items<TagKey>,
    pub branches: Items<Branch>,
}

/// What the products of all groups come to. The groups are told by the statements that stand for them.
fn gather_groups(
    alloc: Global,
    checked: &Checked,
    ends: &[Ends],
    net: &Topology,
    hosts: &[usize],
    leaders: &[usize],
) -> Result<Gathered, RuleFault>
    requires automata { HasAutomata (network_symbols net.now) checked.now }
    requires ends { AreAllEnds net.now checked.now.policy ends.now }
    requires hosts { hosts.now ≡ all_hosts net.now }
    requires leaders { (group_of : List ℕ) ×
        AreGrouped checked.now.policy leaders.now group_of }
    ensures ok { IfOk result (IsGatheredFor net.now checked.now ends.now leaders.now) }
    ensures err { IfErr result (PassesLimit net.now checked.now ends.now) }
{
    let spans = group_spans(alloc, hosts, ends, leaders)?;
    let followers = followers_of(alloc, net)?;
    // each statement has a number of an automaton
    let _ = checked.automata();
    let site = Site {
        net,
        followers: &followers,
        checked,
    };
    let gathered = gather(alloc, &site, spans.as_slice())?;
    Ok(gathered)
}

/// Asks that there is room for all entries.
fn ask_entries(room: Option<u64>) -> Result<(), RuleFault>
    ensures ok { OnOk result (IsSome room) }
    ensures err { IfErr result (IsEntryFault room) }
{
    match room {
        Some(_) => Ok(()),
        None => Err(RuleFault::TooManyEntries {
            count: MAX_ENTRIES + 1,
        }),
    }
}

/// Asks that cells and entries are within their limits.
fn ask_rest(
    alloc: Global,
    net: &Topology,
    checked: &Checked,
    hosts: &[usize],
    room: Option<u64>,
) -> Result<(), RuleFault>
    requires hosts { hosts.now ≡ all_hosts net.now }
    ensures ok { OnOk result (IsWithinRest net.now checked.now.policy room) }
    ensures err { IfErr result (IsRestFault net.now checked.now.policy room) }
{
    ask_cells(alloc, net, checked, hosts)?;
    ask_entries(room)?;
    Ok(())
}

/// The groups of a policy with their tags, if all is within the limits: tags before cells before
/// entries.
pub fn prepare(
    alloc: Global,
    checked: &Checked,
    ends: &[Ends],
    net: &Topology,
) -> Result<PlanParts, RuleFault>
    requires automata { HasAutomata (network_symbols net.now) checked.now }
    requires ends { AreAllEnds net.now checked.now.policy ends.now }
    ensures ok { IfOk result (ArePlanParts net.now checked.now ends.now) }
    ensures limits { IfOk result (λ _. IsWithinLimits net.now checked.now ends.now) }
    ensures err { IfErr result (PassesLimit net.now checked.now ends.now) }
{
    let groups = groups_of(alloc, checked)?;
    let hosts = host_locations(alloc, net)?;
    let leaders = groups.leaders.as_slice();
    let gathered = gather_groups(alloc, checked, ends, net, hosts.as_slice(), leaders)?;
    ask_rest(alloc, net, checked, hosts.as_slice(), gathered.room)?;
    let Gathered {
        tags,
        room: _,
        branches,
    } = gathered;
    let tags = tags.into_items(alloc)?;
    Ok(PlanParts {
        groups,
        tags,
        branches,
    })
}
