//! From which hosts walks lead to each host, by the products of the statement that stands for a group.

ghost use Rattle.std.specs.Prelude.{◌≡◌, ◌<◌, length, map, IfOk};
ghost use Rattle.merlin_model.specs.Networks.{IsHost};
ghost use Rattle.merlin_model.specs.Policies.{paths_of};
ghost use Rattle.topology.specs.Symbols.{network_symbols};
ghost use Rattle.rules_model.specs.Tables.{all_hosts};
ghost use Rattle.product_graph.specs.Followers.{AreFollowersOf};
ghost use Rattle.policy_check.specs.Checked.{HasAutomata};
ghost use Rattle.openflow_rules.specs.Sources.{listed_loc, AreMarkedAmong, HasStartsWithin};
ghost use Rattle.openflow_rules.specs.Sources.{IsWalkRow, AreWalkRows};

use crate::gathering::Site;
use merlin_model::OutOfMemory;
use product_graph::{Product, Span2, Vertex, build_over};
use sqlite_items::Items;
use std::alloc::Global;

/// A host, and for each location whether a walk starts there that leads to this host.
#[derive(Drop)]
pub struct WalkRow {
    pub dest: usize,
    pub marks: Items<bool>,
}

/// The location of a vertex.
fn loc_at(vertices: &[Vertex], place: usize) -> usize
    requires { place < length vertices.now }
    ensures { result ≡ listed_loc vertices.now place }
{
    vertices[place].symbol.loc
}

/// Marks on those of the locations where walks of the product start.
fn start_marks(
    alloc: Global,
    locations: usize,
    product: &Product,
) -> Result<Items<bool>, OutOfMemory>
    requires { HasStartsWithin locations product.now }
    ensures { IfOk result (AreMarkedAmong locations
        (map (listed_loc product.now.vertices) product.now.starts)) }
{
    let vertices = product.vertices();
    let starts = product.starts();
    let mut marks = Items::from_vec(vec![in alloc; false; locations]?);
    for start in starts {
        marks.set(loc_at(vertices, *start), true);
    }
    Ok(marks)
}

/// The row of a statement for a host.
fn row_to(
    alloc: Global,
    site: &Site<'_>,
    statement: usize,
    dest: usize,
) -> Result<WalkRow, OutOfMemory>
    requires followers { AreFollowersOf site.now.net.now (network_symbols site.now.net.now)
        site.now.followers.now }
    requires automata { HasAutomata (network_symbols site.now.net.now) site.now.checked.now }
    requires statement { statement < length (paths_of site.now.checked.now.policy) }
    requires dest { IsHost site.now.net.now dest }
    ensures dest { IfOk result (λ row. row.dest ≡ dest) }
    ensures row { IfOk result
        (IsWalkRow site.now.net.now site.now.checked.now.policy statement) }
{
    let automaton = site.checked.automaton(statement);
    let span = Span2::All { dst: dest };
    let product = build_over(alloc, site.net, site.followers, automaton, span)?;
    let marks = start_marks(alloc, site.net.locations(), &product)?;
    Ok(WalkRow { dest, marks })
}

/// The rows of a statement for all hosts.
pub fn rows_to(
    alloc: Global,
    site: &Site<'_>,
    statement: usize,
    hosts: &[usize],
) -> Result<Items<WalkRow>, OutOfMemory>
    requires followers { AreFollowersOf site.now.net.now (network_symbols site.now.net.now)
        site.now.followers.now }
    requires automata { HasAutomata (network_symbols site.now.net.now) site.now.checked.now }
    requires statement { statement < length (paths_of site.now.checked.now.policy) }
    requires hosts { hosts.now ≡ all_hosts site.now.net.now }
    ensures { IfOk result
        (AreWalkRows site.now.net.now site.now.checked.now.policy statement) }
{
    let mut rows = Items::new(alloc);
    for dest in hosts {
        let row = row_to(alloc, site, statement, *dest)?;
        rows.push(row)?;
    }
    Ok(rows)
}
