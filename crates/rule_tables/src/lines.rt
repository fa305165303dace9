//! Single rules and `process` lines.

ghost use Rattle.std.specs.Prelude.{ℕ, ◌≡◌, ◌++◌, Some, option_map, IfOk, OnOk};
ghost use Rattle.rules_model.specs.Tables.{relabel as relabel_of, send_through, rules_of_row};
ghost use Rattle.rules_model.specs.Tables.{tag_rule as tag_rule_of, back_rule as back_rule_of};
ghost use Rattle.rules_model.specs.Tables.{ingress_actions as ingress_actions_of};
ghost use Rattle.rules_model.specs.Tables.{cell_rule as cell_rule_of, last_rule as last_rule_of};
ghost use Rattle.rules_model.specs.Tables.{process_of as process_line_of};
ghost use Rattle.configuration_model.specs.Cells.{priority_by};
ghost use Rattle.rule_tables.specs.Hops.{table_hop};
ghost use Rattle.rule_tables.specs.Rows.{table_row};
ghost use Rattle.rule_tables.specs.Entries.{entry_of};

use crate::entries::Entry;
use crate::hops::Hop;
use crate::rows::Row;
use merlin_model::OutOfMemory;
use merlin_model::config::{ANY, Action, Actions, Match, Out, Process, Rule, Vlan};
use rules_model::priorities::{BACK_PRIORITY, TAG_PRIORITY};
use sqlite_items::Items;
use std::alloc::Global;

/// The action that gives a frame its tag from then on, or takes its tag away before a host.
fn relabel(tag: Option<u16>) -> Action
    ensures { result ≡ relabel_of tag }
{
    match tag {
        Some(tag) => Action::SetVlan(tag),
        None => Action::StripVlan,
    }
}

/// The action that sends a frame out, through a queue if there is one.
fn send(queue: Option<u16>, out: Out) -> Action
    ensures { result ≡ send_through queue out }
{
    match queue {
        Some(queue) => Action::Enqueue(out, queue),
        None => Action::Output(out),
    }
}

/// The rule for the tagged frames of a row.
fn tag_rule(alloc: Global, row: &Row) -> Result<Rule, OutOfMemory>
    ensures { IfOk result (λ rule. rule ≡ tag_rule_of (table_row row.now)) }
{
    let actions = [
        relabel(row.hop.tag),
        send(row.queue, Out::Port(row.hop.link.out_port)),
    ];
    Ok(Rule {
        loc: row.vertex.symbol.loc,
        priority: TAG_PRIORITY,
        fits: Match {
            dl_dst: Some(row.eth),
            dl_vlan: Some(Vlan::Tag(row.tag)),
            ..ANY
        },
        actions: Actions::from_slice(alloc, &actions)?,
    })
}

/// The same for frames that came in by the port where they leave.
fn back_rule(alloc: Global, row: &Row) -> Result<Rule, OutOfMemory>
    ensures { IfOk result (λ rule. rule ≡ back_rule_of (table_row row.now)) }
{
    let actions = [relabel(row.hop.tag), send(row.queue, Out::InPort)];
    Ok(Rule {
        loc: row.vertex.symbol.loc,
        priority: BACK_PRIORITY,
        fits: Match {
            in_port: Some(row.hop.link.out_port),
            dl_dst: Some(row.eth),
            dl_vlan: Some(Vlan::Tag(row.tag)),
            ..ANY
        },
        actions: Actions::from_slice(alloc, &actions)?,
    })
}

/// Adds the rules of a row: the tag rule, after the back rule where the next location is no host.
pub(crate) fn add_row(alloc: Global, row: &Row, rules: &mut Items<Rule>) -> Result<(), OutOfMemory>
    ensures { OnOk result (rules.new ≡ rules.old ++ rules_of_row (table_row row.now)) }
{
    if row.hop.tag.is_some() {
        rules.push(back_rule(alloc, row)?)?;
    }
    rules.push(tag_rule(alloc, row)?)?;
    Ok(())
}

/// The `process` line of a row.
pub(crate) fn process_of(alloc: Global, row: &Row) -> Result<Process, OutOfMemory>
    ensures { IfOk result (λ line. line ≡ process_line_of (table_row row.now)) }
{
    Ok(Process {
        loc: row.vertex.symbol.loc,
        tag: row.tag,
        eth_dst: row.eth,
        functions: Items::from_slice(alloc, row.hop.functions.as_slice())?,
        next_tag: row.hop.tag.unwrap_or(0),
        port: row.hop.link.out_port,
        queue: row.queue.unwrap_or(0),
    })
}

/// The priority of a cell, by the ports that are named under its protocol.
fn priority_under(sport: Option<u16>, dport: Option<u16>) -> u16
    ensures { (proto : ℕ) → result ≡ priority_by (Some proto) sport dport }
{
    match sport {
        None => match dport {
            None => 30,
            Some(_) => 40,
        },
        Some(_) => match dport {
            None => 50,
            Some(_) => 60,
        },
    }
}

/// The priority of a cell, by what it names.
fn priority_of(proto: Option<u8>, sport: Option<u16>, dport: Option<u16>) -> u16
    ensures { result ≡ priority_by proto sport dport }
{
    match proto {
        None => 20,
        Some(_) => priority_under(sport, dport),
    }
}

/// What the first switch does with an untagged frame.
fn ingress_actions(
    alloc: Global,
    queue: Option<u16>,
    hop: &Option<Hop>,
) -> Result<Actions, OutOfMemory>
    ensures { IfOk result (λ actions.
        actions ≡ ingress_actions_of queue (option_map table_hop hop.now)) }
{
    let Some(hop) = hop else {
        return Actions::from_slice(alloc, &[]);
    };
    let output = send(queue, Out::Port(hop.link.out_port));
    match hop.tag {
        Some(tag) => Actions::from_slice(alloc, &[Action::SetVlan(tag), output]),
        None => Actions::from_slice(alloc, &[output]),
    }
}

/// The rule of a cell at the first switch.
pub(crate) fn cell_rule(alloc: Global, entry: &Entry) -> Result<Rule, OutOfMemory>
    ensures { IfOk result (λ rule. rule ≡ cell_rule_of (entry_of entry.now)) }
{
    let actions = ingress_actions(alloc, entry.queue, &entry.hop)?;
    let cell = entry.cell;
    Ok(Rule {
        loc: entry.source.link.to,
        priority: priority_of(cell.proto, cell.sport, cell.dport),
        fits: Match {
            in_port: Some(entry.source.link.in_port),
            dl_src: Some(entry.source.address.eth),
            dl_dst: Some(entry.address.eth),
            dl_vlan: Some(Vlan::Untagged),
            dl_type: true,
            nw_proto: cell.proto,
            nw_src: Some(entry.source.address.ip),
            nw_dst: Some(entry.address.ip),
            tp_src: cell.sport,
            tp_dst: cell.dport,
        },
        actions,
    })
}

/// The rule that drops what no other rule fits.
pub(crate) fn last_rule(alloc: Global, loc: usize) -> Result<Rule, OutOfMemory>
    ensures { IfOk result (λ rule. rule ≡ last_rule_of loc) }
{
    Ok(Rule {
        loc,
        priority: 0,
        fits: ANY,
        actions: Actions::from_slice(alloc, &[])?,
    })
}
