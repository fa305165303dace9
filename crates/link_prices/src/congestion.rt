//! Points by negotiated congestion (McMurchie and Ebeling 1995): one flow after the other is taken out and routed again, where a link
//! costs more the more often it was overloaded, and more still where the flow would not fit.

use crate::demand::{Demand, Traffic};
use crate::numbers::{dot, number_at, put, scaled};
use crate::routing::{Routing, have_room, is_short, load, route};
use merlin_model::OutOfMemory;
use sqlite_items::Items;
use std::alloc::Global;

/// What is paid for a link beside its cost: what is remembered of it, and how much weight an excess has.
#[derive(Drop)]
pub struct Congestion {
    pub remembered: Items<u64>,
    pub penalty: u64,
}

// What one more flow pays for each link.
fn costs_for(
    alloc: Global,
    traffic: &Traffic,
    loads: &[u64],
    rate: u64,
    congestion: &Congestion,
) -> Result<Items<u64>, OutOfMemory> {
    let mut costs = Items::new(alloc);
    for (link, room) in traffic.rooms.as_slice().iter().enumerate() {
        let cost = number_at(traffic.costs.as_slice(), link).saturating_add(number_at(
            congestion.remembered.as_slice(),
            link,
        ));
        let over = number_at(loads, link)
            .saturating_add(rate)
            .saturating_sub(*room);
        let more = if over == 0 {
            0
        } else {
            scaled(over, congestion.penalty, *room).saturating_add(congestion.penalty)
        };
        costs.push(cost.saturating_add(more))?;
    }
    Ok(costs)
}

// Routes one flow again.
fn reroute(
    alloc: Global,
    traffic: &Traffic,
    demand: &Demand,
    flow: usize,
    routing: &mut Routing,
    congestion: &Congestion,
) -> Result<(), OutOfMemory> {
    if let Some(path) = routing.paths.get(flow) {
        load(&mut routing.loads, demand, path.as_slice(), false);
    }
    let costs = costs_for(
        alloc,
        traffic,
        routing.loads.as_slice(),
        demand.rate,
        congestion,
    )?;
    let path = route(alloc, demand, costs.as_slice())?;
    load(&mut routing.loads, demand, path.as_slice(), true);
    if flow < routing.paths.len() {
        routing.paths.set(flow, path);
    }
    Ok(())
}

// Routes all flows again, one after the other.
fn reroute_all(
    alloc: Global,
    traffic: &Traffic,
    routing: &mut Routing,
    congestion: &Congestion,
) -> Result<(), OutOfMemory> {
    for (flow, demand) in traffic.all.as_slice().iter().enumerate() {
        reroute(alloc, traffic, demand, flow, routing, congestion)?;
    }
    Ok(())
}

// Remembers which links are overloaded; forgets a part where all have_room.
fn remember(traffic: &Traffic, loads: &[u64], congestion: &mut Congestion) {
    let are_fitting = have_room(loads, traffic.rooms.as_slice());
    for (link, room) in traffic.rooms.as_slice().iter().enumerate() {
        let old = number_at(congestion.remembered.as_slice(), link);
        let over = number_at(loads, link).saturating_sub(*room);
        let new = if are_fitting {
            scaled(old, 3, 4)
        } else {
            old.saturating_add(scaled(over, traffic.unit, *room).min(traffic.unit))
        };
        put(&mut congestion.remembered, link, new);
    }
}

/// Routes all flows again, at most so often, until all have_room and is short enough; answers whether it does.
pub fn negotiate(
    alloc: Global,
    traffic: &Traffic,
    routing: &mut Routing,
    congestion: &mut Congestion,
    rounds: usize,
) -> Result<bool, OutOfMemory> {
    for _round in 0..rounds {
        reroute_all(alloc, traffic, routing, congestion)?;
        let loads = routing.loads.as_slice();
        if have_room(loads, traffic.rooms.as_slice()) && is_short(traffic, loads) {
            return Ok(true);
        }
        remember(traffic, loads, congestion);
    }
    Ok(false)
}

/// Routes all flows again where they stay within all rooms, at most so often, as long as what they cost gets less.
pub fn shorten(
    alloc: Global,
    traffic: &Traffic,
    routing: &mut Routing,
    congestion: &Congestion,
    rounds: usize,
) -> Result<(), OutOfMemory> {
    let costs = traffic.costs.as_slice();
    for _round in 0..rounds {
        let before = dot(routing.loads.as_slice(), costs);
        reroute_all(alloc, traffic, routing, congestion)?;
        if before <= dot(routing.loads.as_slice(), costs) {
            break;
        }
    }
    Ok(())
}
