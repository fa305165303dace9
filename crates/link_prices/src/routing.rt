//! A path for each flow, with what they put on links.

ghost use Rattle.std.specs.Prelude.{◌≡◌, length};

use crate::demand::{Demand, Traffic};
use crate::numbers::{dot, number_at, put, repeated};
use crate::spread::{path_of, sums_of};
use merlin_model::OutOfMemory;
use sqlite_items::Items;
use std::alloc::Global;

/// A path for each flow by the numbers of its edges, and the load of each link.
#[derive(Drop)]
pub struct Routing {
    pub paths: Items<Items<usize>>,
    pub loads: Items<u64>,
}

/// Adds what a path puts on links, or takes it off.
pub fn load(loads: &mut Items<u64>, demand: &Demand, path: &[usize], is_added: bool) {
    for number in path {
        if let Some(arc) = demand.arcs.as_slice().get(*number) {
            if let Some(link) = arc.crosses {
                let old = number_at(loads.as_slice(), link);
                let new = if is_added {
                    old.saturating_add(demand.rate)
                } else {
                    old.saturating_sub(demand.rate)
                };
                put(loads, link, new);
            }
        }
    }
}

/// The least path of a flow at some prices.
pub fn route(alloc: Global, demand: &Demand, prices: &[u64]) -> Result<Items<usize>, OutOfMemory> {
    let sums = sums_of(alloc, demand, prices)?;
    path_of(alloc, demand, &sums)
}

/// The least paths of all flows at some prices.
pub fn route_all(alloc: Global, traffic: &Traffic, prices: &[u64]) -> Result<Routing, OutOfMemory> {
    let mut paths = Items::new(alloc);
    let mut loads = repeated(alloc, traffic.rooms.len(), 0)?;
    for demand in traffic.all.as_slice() {
        let path = route(alloc, demand, prices)?;
        load(&mut loads, demand, path.as_slice(), true);
        paths.push(path)?;
    }
    Ok(Routing { paths, loads })
}

/// Whether no load is above its room.
pub fn have_room(loads: &[u64], rooms: &[u64]) -> bool {
    for (link, load) in loads.iter().enumerate() {
        if number_at(rooms, link) < *load {
            return false;
        }
    }
    true
}

/// Whether the lengths of walks keep below the cutoff, where they must.
pub fn is_short(traffic: &Traffic, loads: &[u64]) -> bool {
    match traffic.most {
        None => true,
        Some(most) => dot(loads, traffic.costs.as_slice()) <= most,
    }
}

// Chooses the variables of a path.
fn choose(point: &mut Items<bool>, demand: &Demand, path: &[usize]) {
    for number in path {
        if let Some(arc) = demand.arcs.as_slice().get(*number) {
            if arc.variable < point.len() {
                point.set(arc.variable, true);
            }
        }
    }
}

/// The variables of all paths, among so many.
pub fn point_along(
    alloc: Global,
    traffic: &Traffic,
    paths: &[Items<usize>],
    variables: usize,
) -> Result<Items<bool>, OutOfMemory> {
    let mut point = Items::from_vec(vec![in alloc; false; variables]?);
    for (flow, path) in paths.iter().enumerate() {
        if let Some(demand) = traffic.all.as_slice().get(flow) {
            choose(&mut point, demand, path.as_slice());
        }
    }
    Ok(point)
}
