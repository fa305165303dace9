//! Least sums from where a flow may first choose, by relaxing all edges until none gets less (Bellman 1958, Ford 1956).

ghost use Rattle.std.specs.Prelude.{◌≡◌, length};

use crate::demand::{Arc, Demand};
use crate::numbers::{number_at, put, repeated};
use merlin_model::OutOfMemory;
use sqlite_items::Items;
use std::alloc::Global;

/// Where no path leads.
pub const FAR: u64 = u64::MAX;

/// By vertex the least sum, and the number of the edge by which it is reached.
#[derive(Drop)]
pub struct LeastSums {
    pub distance: Items<u64>,
    pub before: Items<u64>,
}

/// The price of an edge for each kbit/s.
pub fn price_of(arc: &Arc, prices: &[u64]) -> u64 {
    match arc.crosses {
        None => 0,
        Some(link) => number_at(prices, link),
    }
}

// Whether some vertex got less, when each edge was followed once.
fn relax(arcs: &[Arc], prices: &[u64], sums: &mut LeastSums) -> bool {
    let mut changed = false;
    for (number, arc) in arcs.iter().enumerate() {
        let sum = number_at(sums.distance.as_slice(), arc.from).saturating_add(price_of(
            arc, prices,
        ));
        if sum < number_at(sums.distance.as_slice(), arc.to) {
            put(&mut sums.distance, arc.to, sum);
            put(&mut sums.before, arc.to, number as u64);
            changed = true;
        }
    }
    changed
}

/// The least sums of a flow at some prices.
pub fn sums_of(alloc: Global, demand: &Demand, prices: &[u64]) -> Result<LeastSums, OutOfMemory> {
    let mut sums = LeastSums {
        distance: repeated(alloc, demand.vertices, FAR)?,
        before: repeated(alloc, demand.vertices, FAR)?,
    };
    put(&mut sums.distance, demand.prefix.to, 0);
    for _round in 0..demand.vertices {
        if !relax(demand.arcs.as_slice(), prices, &mut sums) {
            break;
        }
    }
    Ok(sums)
}

// The number of the edge by which a vertex is reached.
fn before(sums: &LeastSums, vertex: usize) -> Option<usize> {
    let number = *sums.before.as_slice().get(vertex)?;
    usize::try_from(number).ok()
}

/// The edges of a flow's least path, those that it must take first; the others from the end backwards.
pub fn path_of(
    alloc: Global,
    demand: &Demand,
    sums: &LeastSums,
) -> Result<Items<usize>, OutOfMemory> {
    let mut path = Items::from_slice(alloc, demand.prefix.arcs.as_slice())?;
    let mut vertex = demand.vertices.saturating_sub(1);
    for _step in 0..demand.vertices {
        if vertex == demand.prefix.to {
            break;
        }
        let Some(number) = before(sums, vertex) else {
            break;
        };
        let Some(arc) = demand.arcs.as_slice().get(number) else {
            break;
        };
        path.push(number)?;
        vertex = arc.from;
    }
    Ok(path)
}
