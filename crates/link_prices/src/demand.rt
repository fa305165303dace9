//! What a box leaves to each flow: the edges that it may take, and the rooms of links.

ghost use Rattle.std.specs.Prelude.{◌≡◌, ◌<◌, length};
ghost use Rattle.std.specs.Option.{option_copied};
ghost use Rattle.merlin_model.specs.Programs.{Takes};
ghost use Rattle.cutoff_program.specs.Flows.{takes, variables_of};

use crate::numbers::{number_at, scaled};
use integer_program::{Fixed, Program};
use merlin_model::OutOfMemory;
use merlin_model::policy::{Objective, Value};
use merlin_program::MerlinProgram;
use sqlite_items::Items;
use std::alloc::Global;

/// An edge that may be taken, with its variable and the link that it crosses.
#[derive(Clone, Copy)]
pub struct Arc {
    pub from: usize,
    pub to: usize,
    pub crosses: Option<usize>,
    pub variable: usize,
    pub is_fixed: bool,
}

/// The edges that a flow must take from its start on, and where they lead.
#[derive(Drop)]
pub struct Prefix {
    pub arcs: Items<usize>,
    pub to: usize,
}

/// A flow with its edges.
#[derive(Drop)]
pub struct Demand {
    pub rate: u64,
    pub vertices: usize,
    pub arcs: Items<Arc>,
    pub prefix: Prefix,
}

/// All flows, with the rooms of links. `costs` is what the cutoff row counts of a kbit/s on each link, times `unit`, and `most` its right
/// side, also times `unit`, where there is one to keep below.
#[derive(Drop)]
pub struct Traffic {
    pub all: Items<Demand>,
    pub rooms: Items<u64>,
    pub costs: Items<u64>,
    pub most: Option<u64>,
    pub unit: u64,
}

/// The number of the first variable of each flow, and of the one after the last.
pub fn first_variables(
    alloc: Global,
    program: &MerlinProgram,
) -> Result<Items<usize>, OutOfMemory> {
    let mut first = Items::new(alloc);
    let mut next = 0_usize;
    first.push(next)?;
    for flow in program.problem().flows.as_slice() {
        next = next.saturating_add(flow.edges.len());
        first.push(next)?;
    }
    Ok(first)
}

// The edge of a variable, if the box lets it be taken.
fn arc_of(
    program: &MerlinProgram,
    cutoff: Option<&Value>,
    fixed: &Fixed,
    variable: usize,
) -> Option<Arc>
    requires takes { Takes (takes program.now.problem.objective) (option_copied cutoff) }
{
    if fixed.len() <= variable || program.variables() <= variable {
        return None;
    }
    let place = fixed.get(variable);
    if place == Some(false) || !program.upper(variable, cutoff) {
        return None;
    }
    let edge = program.edges().get(variable)?.edge;
    Some(Arc {
        from: edge.from,
        to: edge.to,
        crosses: edge.crosses,
        variable,
        is_fixed: place == Some(true),
    })
}

// The edges of a flow that may be taken.
fn arcs_of(
    alloc: Global,
    program: &MerlinProgram,
    cutoff: Option<&Value>,
    fixed: &Fixed,
    first: usize,
    end: usize,
) -> Result<Items<Arc>, OutOfMemory>
    requires takes { Takes (takes program.now.problem.objective) (option_copied cutoff) }
{
    let mut arcs = Items::new(alloc);
    for variable in first..end {
        if let Some(arc) = arc_of(program, cutoff, fixed, variable) {
            arcs.push(arc)?;
        }
    }
    Ok(arcs)
}

// The edge that a flow must take from a vertex: the one that is fixed, or the only one.
fn forced(arcs: &[Arc], vertex: usize) -> Option<usize> {
    let mut only = None;
    let mut count = 0_usize;
    for (number, arc) in arcs.iter().enumerate() {
        if arc.from == vertex {
            if arc.is_fixed {
                return Some(number);
            }
            only = Some(number);
            count = count.saturating_add(1);
        }
    }
    if count == 1 { only } else { None }
}

// What a flow must take from its start on.
fn prefix_of(alloc: Global, arcs: &[Arc], vertices: usize) -> Result<Prefix, OutOfMemory> {
    let mut prefix = Prefix {
        arcs: Items::new(alloc),
        to: 0,
    };
    for _step in 1..vertices {
        if prefix.to == vertices - 1 {
            break;
        }
        let Some(number) = forced(arcs, prefix.to) else {
            break;
        };
        let Some(arc) = arcs.get(number) else {
            break;
        };
        prefix.arcs.push(number)?;
        prefix.to = arc.to;
    }
    Ok(prefix)
}

// A flow with what a box leaves to it.
fn demand_of(
    alloc: Global,
    program: &MerlinProgram,
    cutoff: Option<&Value>,
    fixed: &Fixed,
    flow: usize,
    first: &[usize],
) -> Result<Demand, OutOfMemory>
    requires takes { Takes (takes program.now.problem.objective) (option_copied cutoff) }
    requires in_range { flow < length program.now.problem.flows }
{
    let stated = &program.problem().flows.as_slice()[flow];
    let (rate, vertices) = (stated.rate, stated.vertices);
    let arcs = match (first.get(flow), first.get(flow.saturating_add(1))) {
        (Some(first), Some(end)) => arcs_of(alloc, program, cutoff, fixed, *first, *end)?,
        _ => Items::new(alloc),
    };
    let prefix = prefix_of(alloc, arcs.as_slice(), vertices)?;
    Ok(Demand {
        rate,
        vertices,
        arcs,
        prefix,
    })
}

// All flows with what a box leaves to them.
fn all_of(
    alloc: Global,
    program: &MerlinProgram,
    cutoff: Option<&Value>,
    fixed: &Fixed,
    first: &[usize],
) -> Result<Items<Demand>, OutOfMemory>
    requires takes { Takes (takes program.now.problem.objective) (option_copied cutoff) }
{
    let mut all = Items::new(alloc);
    for flow in 0..program.problem().flows.len() {
        all.push(demand_of(alloc, program, cutoff, fixed, flow, first)?)?;
    }
    Ok(all)
}

// The right side of a row, 0 where it is less or there is no such row.
fn right_of(program: &MerlinProgram, cutoff: Option<&Value>, row: usize) -> u64
    requires takes { Takes (takes program.now.problem.objective) (option_copied cutoff) }
{
    if program.rows() <= row {
        return 0;
    }
    let right = program.right(row, cutoff);
    if 0 <= right { right as u64 } else { 0 }
}

// What the cutoff leaves of each link.
fn rooms_of(
    alloc: Global,
    program: &MerlinProgram,
    cutoff: Option<&Value>,
) -> Result<Items<u64>, OutOfMemory>
    requires takes { Takes (takes program.now.problem.objective) (option_copied cutoff) }
{
    let links = program.problem().links.len();
    let flow_rows = program.rows().saturating_sub(1).saturating_sub(links);
    let mut rooms = Items::new(alloc);
    for link in 0..links {
        rooms.push(right_of(program, cutoff, flow_rows.saturating_add(link)))?;
    }
    Ok(rooms)
}

// The weights of links, times a unit.
fn costs_of(alloc: Global, program: &MerlinProgram, unit: u64) -> Result<Items<u64>, OutOfMemory> {
    let mut costs = Items::new(alloc);
    for link in program.problem().links.as_slice() {
        costs.push(u64::from(link.weight).saturating_mul(unit))?;
    }
    Ok(costs)
}

/// The unit where no length is to be kept below a cutoff.
pub const PLAIN_UNIT: u64 = 65536;

// The right side of the cutoff row for walks that are to be shorter than a cutoff.
fn length_below(program: &MerlinProgram, cutoff: Option<&Value>) -> Option<u64>
    requires takes { Takes (takes program.now.problem.objective) (option_copied cutoff) }
{
    match (program.problem().objective, cutoff) {
        (Objective::Shortest, Some(_)) => {
            Some(right_of(program, cutoff, program.rows().saturating_sub(1)))
        }
        _ => None,
    }
}

/// All flows in a box, by the first variables of each.
pub fn traffic_of(
    alloc: Global,
    program: &MerlinProgram,
    cutoff: Option<&Value>,
    fixed: &Fixed,
    first: &[usize],
) -> Result<Traffic, OutOfMemory>
    requires takes { Takes (takes program.now.problem.objective) (option_copied cutoff) }
{
    let length = length_below(program, cutoff);
    let (unit, most) = match length {
        None => (PLAIN_UNIT, None),
        Some(length) => {
            let unit = (1_125_899_906_842_624 / length.max(1)).clamp(1, PLAIN_UNIT);
            (unit, Some(length.saturating_mul(unit)))
        }
    };
    Ok(Traffic {
        all: all_of(alloc, program, cutoff, fixed, first)?,
        rooms: rooms_of(alloc, program, cutoff)?,
        costs: costs_of(alloc, program, unit)?,
        most,
        unit,
    })
}
