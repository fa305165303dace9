//! The products of the groups of a policy: a guaranteed statement has that of its ends, every other group those of all
//! destinations.

ghost use Rattle.std.specs.Prelude.{◌≡◌, ◌<◌, ◌++◌, ◌∷◌, ◌==◌, [], length, map, filter, find};
ghost use Rattle.std.specs.Prelude.{IfOk, OnOk};
ghost use Rattle.merlin_model.specs.Networks.{kind_of};
ghost use Rattle.rules_model.specs.Tables.{all_hosts, is_host_kind};
ghost use Rattle.openflow_rules.specs.GroupSpans.{span_to, spans_by, spans_over};

use merlin_model::OutOfMemory;
use merlin_model::policy::Ends;
use product_graph::Span2;
use sqlite_items::Items;
use std::alloc::Global;
use topology::Topology;

/// A product of a group: the group, the statement that stands for it, and the hosts between which
/// the product leads.
#[derive(Clone, Copy)]
pub struct GroupSpan {
    pub group: usize,
    pub leader: usize,
    pub span: Span2,
}

/// Adds the location, if a host is there.
fn add_if_host(net: &Topology, loc: usize, hosts: &mut Items<usize>) -> Result<(), OutOfMemory>
    requires { loc < length net.now.locations }
    ensures { OnOk result (hosts.new ≡ hosts.old ++
        filter (λ l. is_host_kind (kind_of net.now l)) (loc ∷ [])) }
{
    if net.host(loc).is_some() {
        hosts.push(loc)?;
    }
    Ok(())
}

/// The locations of all hosts, in order.
pub fn host_locations(alloc: Global, net: &Topology) -> Result<Items<usize>, OutOfMemory>
    ensures { IfOk result (λ hosts. hosts ≡ all_hosts net.now) }
{
    let mut hosts = Items::new(alloc);
    for loc in 0..net.locations() {
        add_if_host(net, loc, &mut hosts)?;
    }
    Ok(hosts)
}

/// The first ends of this statement.
fn first_ends(ends: &[Ends], statement: usize) -> Option<Ends>
    ensures { result ≡ find (λ e. e.statement == statement) ends.now }
{
    for pair in ends {
        if pair.statement == statement {
            return Some(*pair);
        }
    }
    None
}

/// Adds the products of a group for all destinations.
fn add_all_spans(
    spans: &mut Items<GroupSpan>,
    hosts: &[usize],
    group: usize,
    leader: usize,
) -> Result<(), OutOfMemory>
    ensures { OnOk result (spans.new ≡ spans.old ++ map (span_to group leader) hosts.now) }
{
    for host in hosts {
        spans.push(GroupSpan {
            group,
            leader,
            span: Span2::All { dst: *host },
        })?;
    }
    Ok(())
}

/// Adds the products of a group.
fn add_spans(
    spans: &mut Items<GroupSpan>,
    hosts: &[usize],
    ends: &[Ends],
    group: usize,
    leader: usize,
) -> Result<(), OutOfMemory>
    ensures { OnOk result (spans.new ≡ spans.old ++
        spans_by hosts.now group leader (find (λ e. e.statement == leader) ends.now)) }
{
    match first_ends(ends, leader) {
        None => add_all_spans(spans, hosts, group, leader)?,
        Some(pair) => spans.push(GroupSpan {
            group,
            leader,
            span: Span2::Pair {
                src: pair.src,
                dst: pair.dst,
            },
        })?,
    }
    Ok(())
}

/// The products of all groups, by group and then by destination. The groups are told by the statements
/// that stand for them.
pub fn group_spans(
    alloc: Global,
    hosts: &[usize],
    ends: &[Ends],
    leaders: &[usize],
) -> Result<Items<GroupSpan>, OutOfMemory>
    ensures { IfOk result (λ spans. spans ≡ spans_over hosts.now ends.now leaders.now) }
{
    let mut spans = Items::new(alloc);
    for (group, leader) in leaders.iter().enumerate() {
        add_spans(&mut spans, hosts, ends, group, *leader)?;
    }
    Ok(spans)
}
