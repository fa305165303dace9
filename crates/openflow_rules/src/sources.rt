//! The live sources of all statements, group by group: the statements of a group share the products that tell where walks start.

ghost use Rattle.std.specs.Prelude.{◌≡◌, ◌<◌, ◌+◌, ◌++◌, ℕ, List, length, map, slice_get, unwrap_or, Some, IfOk, OnOk};
ghost use Rattle.merlin_model.specs.declared.policy.Pred.{AnyOf, Not};
ghost use Rattle.topology.specs.Symbols.{network_symbols};
ghost use Rattle.policy_check.specs.Checked.{HasAutomata};
ghost use Rattle.configuration_model.specs.Groups.{AreGrouped};
ghost use Rattle.configuration_model.specs.Tables.{AreSources};
ghost use Rattle.openflow_rules.specs.Sources.{AreWalkRows, AreSourcesUpTo, IsSourceSearch};

use crate::gathering::Site;
use crate::groups::Groups;
use crate::senders::senders;
use crate::spans::host_locations;
use crate::walk_rows::{WalkRow, rows_to};
use merlin_model::OutOfMemory;
use merlin_model::policy::Pred;
use policy_check::Checked;
use product_graph::followers_of;
use sqlite_items::{Boxed, Items};
use std::alloc::Global;
use topology::Topology;

/// What live sources are looked for over: where products are built, all hosts, the predicate of the
/// default, and the group of each statement.
#[derive(Clone, Copy)]
pub struct SourceSearch<'a> {
    pub site: Site<'a>,
    pub hosts: &'a [usize],
    pub default: &'a Pred,
    pub group_of: &'a [usize],
}

/// Equal predicates.
fn copies(alloc: Global, preds: &[Pred]) -> Result<Items<Pred>, OutOfMemory>
    ensures { IfOk result (λ copies. copies ≡ preds.now) }
{
    let mut copies = Items::new(alloc);
    for pred in preds {
        let copy = pred.copy(alloc)?;
        copies.push(copy)?;
    }
    Ok(copies)
}

/// The predicate that holds where none of these does.
fn none_of(alloc: Global, preds: &[Pred]) -> Result<Pred, OutOfMemory>
    ensures { IfOk result (λ pred. pred ≡ Not (AnyOf preds.now)) }
{
    let any = Pred::AnyOf(copies(alloc, preds)?);
    Ok(Pred::Not(Boxed::new(alloc, any)?))
}

/// The predicate at a place, or the default's.
fn pred_at<'a>(preds: &'a [Pred], default: &'a Pred, place: usize) -> &'a Pred
    ensures { result.now ≡ unwrap_or (slice_get preds.now place) default.now }
{
    match preds.get(place) {
        Some(pred) => pred,
        None => default,
    }
}

/// So many lists of no hosts.
fn no_hosts(alloc: Global, count: usize) -> Result<Vec<Vec<usize>>, OutOfMemory>
    ensures { IfOk result (λ lists. length lists.items ≡ count) }
{
    let mut lists = Vec::new(alloc);
    for _ in 0..count {
        lists.push(Vec::new(alloc))?;
    }
    Ok(lists)
}

/// Puts the live sources of a statement into their place, if the statement is in the group.
fn put_statement(
    alloc: Global,
    search: &SourceSearch<'_>,
    rows: &[WalkRow],
    group: usize,
    statement: usize,
    sources: &mut Vec<Vec<usize>>,
) -> Result<(), OutOfMemory>
    requires search { IsSourceSearch search.now }
    requires rows { (i : ℕ) → slice_get search.now.group_of.now i ≡ Some group →
        AreWalkRows search.now.site.net.now search.now.site.checked.now.policy i rows.now }
    requires statement { statement < length search.now.group_of.now }
    requires known { AreSourcesUpTo search.now.site.net.now search.now.site.checked.now.policy
        search.now.group_of.now group statement (map (λ hosts. hosts.items) sources.old.items) }
    ensures { OnOk result (AreSourcesUpTo search.now.site.net.now
        search.now.site.checked.now.policy search.now.group_of.now group (statement + 1)
        (map (λ hosts. hosts.items) sources.new.items)) }
{
    if search.group_of[statement] != group {
        return Ok(());
    }
    let pred = pred_at(search.site.checked.preds(), search.default, statement);
    let found = senders(alloc, search.site.net, pred, rows, search.hosts)?;
    sources[statement] = found;
    Ok(())
}

/// Puts the live sources of the statements of a group into their places.
fn put_group(
    alloc: Global,
    search: &SourceSearch<'_>,
    rows: &[WalkRow],
    group: usize,
    sources: &mut Vec<Vec<usize>>,
) -> Result<(), OutOfMemory>
    requires search { IsSourceSearch search.now }
    requires rows { (i : ℕ) → slice_get search.now.group_of.now i ≡ Some group →
        AreWalkRows search.now.site.net.now search.now.site.checked.now.policy i rows.now }
    requires known { AreSourcesUpTo search.now.site.net.now search.now.site.checked.now.policy
        search.now.group_of.now group 0 (map (λ hosts. hosts.items) sources.old.items) }
    ensures { OnOk result (AreSourcesUpTo search.now.site.net.now
        search.now.site.checked.now.policy search.now.group_of.now (group + 1) 0
        (map (λ hosts. hosts.items) sources.new.items)) }
{
    for statement in 0..search.group_of.len() {
        put_statement(alloc, search, rows, group, statement, sources)?;
    }
    Ok(())
}

/// The live sources of all statements. The groups are told by the statements that stand for them.
fn sources_of(
    alloc: Global,
    search: &SourceSearch<'_>,
    leaders: &[usize],
) -> Result<Vec<Vec<usize>>, OutOfMemory>
    requires search { IsSourceSearch search.now }
    requires grouped { AreGrouped search.now.site.checked.now.policy leaders.now
        search.now.group_of.now }
    ensures { IfOk result (λ sources. AreSources search.now.site.net.now
        search.now.site.checked.now.policy (map (λ hosts. hosts.items) sources.items)) }
{
    let mut sources = no_hosts(alloc, search.group_of.len())?;
    for (group, leader) in leaders.iter().enumerate() {
        let rows = rows_to(alloc, &search.site, *leader, search.hosts)?;
        put_group(alloc, search, rows.as_slice(), group, &mut sources)?;
    }
    Ok(sources)
}

/// The live sources of each statement, the default's last, in the order of their locations.
pub fn live_sources(
    alloc: Global,
    net: &Topology,
    checked: &Checked,
    groups: &Groups,
) -> Result<Vec<Vec<usize>>, OutOfMemory>
    requires automata { HasAutomata (network_symbols net.now) checked.now }
    requires groups { AreGrouped checked.now.policy groups.now.leaders groups.now.group_of }
    ensures { IfOk result (λ sources. AreSources net.now checked.now.policy
        (map (λ hosts. hosts.items) sources.items)) }
{
    // predicates are well formed, and no two hold of one packet
    let _ = checked.statements();
    let hosts = host_locations(alloc, net)?;
    let followers = followers_of(alloc, net)?;
    let default = none_of(alloc, checked.preds())?;
    let search = SourceSearch {
        site: Site {
            net,
            followers: &followers,
            checked,
        },
        hosts: hosts.as_slice(),
        default: &default,
        group_of: groups.group_of.as_slice(),
    };
    sources_of(alloc, &search, groups.leaders.as_slice())
}
