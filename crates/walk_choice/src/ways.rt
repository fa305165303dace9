//! How many edges go out of each vertex, as far as a box leaves them.

ghost use Rattle.std.specs.Prelude.{◌≡◌, ◌≤◌, ◌<◌, ◌+◌, length, map, nat_lt, IfOk, OnOk};

use cutoff_program::flow::Variable;
use integer_program::Fixed;
use merlin_model::OutOfMemory;
use sqlite_items::Items;
use std::alloc::Global;

/// Whether two edges leave the same vertex of the same flow.
fn leave_together(first: &Variable, second: &Variable) -> bool {
    first.flow == second.flow && first.edge.from == second.edge.from
}

/// Where the edges that leave the vertex of the edge at a place end. They stand side by side.
fn end_of_vertex(variables: &[Variable], start: usize) -> usize
    requires { start < length variables.now }
    ensures after { start < result }
    ensures within { result ≤ length variables.now }
{
    for place in start + 1..variables.len() {
        if !leave_together(&variables[start], &variables[place]) {
            return place;
        }
    }
    variables.len()
}

/// How many places of a box from a start to an end are so.
fn count_of(fixed: &Fixed, start: usize, end: usize, wanted: Option<bool>) -> usize
    requires order { start ≤ end }
    requires within { end ≤ length fixed.now }
    ensures { result ≤ end }
{
    let mut count = 0_usize;
    for place in start..end {
        if fixed.get(place) == wanted {
            count += 1;
        }
    }
    count
}

/// The number for a place, of so many that are fixed to 1 and so many that are free.
fn ways_at(place: Option<bool>, chosen: usize, free: usize) -> usize {
    match place {
        Some(true) => chosen,
        Some(false) => 0,
        None => if chosen == 0 { free } else { 0 },
    }
}

/// Adds the numbers of the edges that leave one vertex.
fn push_vertex(
    ways: &mut Items<usize>,
    fixed: &Fixed,
    start: usize,
    end: usize,
) -> Result<(), OutOfMemory>
    requires order { start ≤ end }
    requires within { end ≤ length fixed.now }
    requires size { length ways.old ≡ start }
    ensures { OnOk result (length ways.new ≡ end) }
{
    let chosen = count_of(fixed, start, end, Some(true));
    let free = count_of(fixed, start, end, None);
    for place in start..end {
        ways.push(ways_at(fixed.get(place), chosen, free))?;
    }
    Ok(())
}

/// For each variable by how many edges a walk may go on where it takes this one: those that are fixed to 1 at its vertex, or all that are
/// free where none is. 0 for an edge that it may not take.
pub fn ways_of(
    alloc: Global,
    variables: &[Variable],
    fixed: &Fixed,
) -> Result<Items<usize>, OutOfMemory>
    requires { length variables.now ≡ length fixed.now }
    ensures { IfOk result (λ ways. length ways ≡ length fixed.now) }
{
    let mut ways = Items::new(alloc);
    let mut start = 0;
    'vertices: while start < variables.len() {
        let end = end_of_vertex(variables, start);
        push_vertex(&mut ways, fixed, start, end)?;
        start = end;
    }
    Ok(ways)
}

/// The variables that a walk may take.
pub fn point_of(alloc: Global, ways: &[usize]) -> Result<Items<bool>, OutOfMemory>
    ensures { IfOk result (λ point. point ≡ map (nat_lt 0) ways.now) }
{
    let mut point = Items::new(alloc);
    for count in ways {
        point.push(*count > 0)?;
    }
    Ok(point)
}

/// Keeps to an edge: no other edge of its flow may be taken that leaves the vertex which it leaves, or leads to that to which it leads.
pub fn keep_to(variables: &[Variable], kept: &Variable, number: usize, point: &mut Items<bool>)
    requires { length point.old ≡ length variables.now }
    ensures { length point.new ≡ length point.old }
{
    for place in 0..variables.len() {
        if place != number && meet(&variables[place], kept) {
            point.set(place, false);
        }
    }
}

/// Whether two edges of one flow leave the same vertex, or lead to the same.
fn meet(first: &Variable, second: &Variable) -> bool {
    first.flow == second.flow
        && (first.edge.from == second.edge.from || first.edge.to == second.edge.to)
}
