//! Points by a local search that breaks out of what it cannot better (Morris 1993): of the flows on an overloaded link the one is moved
//! that lessens the weighted excess most, also by nothing; then overloaded links get heavier, and a flow that was moved rests a while.

use crate::demand::{Demand, Traffic};
use crate::numbers::{number_at, put, repeated};
use crate::routing::{Routing, have_room, load, route};
use merlin_model::OutOfMemory;
use sqlite_items::Items;
use std::alloc::Global;

/// How much weight an excess has on each link, and until which move each flow rests.
#[derive(Drop)]
pub struct Breakout {
    weights: Items<u64>,
    rests: Items<u64>,
}

// A move: the flow, its new path, and by how much the weighted excess gets less.
#[derive(Drop)]
struct Move {
    flow: usize,
    path: Items<usize>,
    gain: u64,
}

// At most so many flows are looked at for a move.
const CANDIDATES: usize = 14;

// What a further rate adds to the weighted excess of each link, and a little for each link.
fn excess_costs(
    alloc: Global,
    rooms: &[u64],
    loads: &[u64],
    weights: &[u64],
    rate: u64,
) -> Result<Items<u64>, OutOfMemory> {
    let mut costs = Items::new(alloc);
    for (link, room) in rooms.iter().enumerate() {
        let load = number_at(loads, link);
        let before = load.saturating_sub(*room);
        let after = load.saturating_add(rate).saturating_sub(*room);
        let more = after
            .saturating_sub(before)
            .saturating_mul(number_at(weights, link));
        costs.push(more.saturating_mul(16).saturating_add(1))?;
    }
    Ok(costs)
}

// What a path costs.
fn cost_along(demand: &Demand, path: &[usize], costs: &[u64]) -> u64 {
    let mut sum = 0_u64;
    for number in path {
        if let Some(arc) = demand.arcs.as_slice().get(*number) {
            if let Some(link) = arc.crosses {
                sum = sum.saturating_add(number_at(costs, link));
            }
        }
    }
    sum
}

// Whether a path crosses a link.
fn is_over(demand: &Demand, path: &[usize], link: usize) -> bool {
    for number in path {
        if let Some(arc) = demand.arcs.as_slice().get(*number) {
            if arc.crosses == Some(link) {
                return true;
            }
        }
    }
    false
}

// The overloaded link with the greatest weighted excess.
fn worst_link(rooms: &[u64], loads: &[u64], weights: &[u64]) -> Option<usize> {
    let mut worst = None;
    let mut greatest = 0_u64;
    for (link, room) in rooms.iter().enumerate() {
        let over = number_at(loads, link).saturating_sub(*room);
        let excess = over.saturating_mul(number_at(weights, link));
        if greatest < excess {
            greatest = excess;
            worst = Some(link);
        }
    }
    worst
}

// The best way to go for one flow, where the others stay.
fn move_of(
    alloc: Global,
    traffic: &Traffic,
    demand: &Demand,
    flow: usize,
    routing: &mut Routing,
    weights: &[u64],
) -> Result<Option<Move>, OutOfMemory> {
    let Routing { paths, loads } = routing;
    let Some(old) = paths.get(flow) else {
        return Ok(None);
    };
    load(loads, demand, old.as_slice(), false);
    let rooms = traffic.rooms.as_slice();
    let costs = excess_costs(alloc, rooms, loads.as_slice(), weights, demand.rate)?;
    let before = cost_along(demand, old.as_slice(), costs.as_slice());
    let path = route(alloc, demand, costs.as_slice())?;
    let after = cost_along(demand, path.as_slice(), costs.as_slice());
    load(loads, demand, old.as_slice(), true);
    Ok(Some(Move {
        flow,
        path,
        gain: before.saturating_sub(after),
    }))
}

// Whether a flow may be moved off a link.
fn may_move(
    demand: &Demand,
    routing: &Routing,
    breakout: &Breakout,
    flow: usize,
    link: usize,
    turn: u64,
) -> bool {
    match routing.paths.get(flow) {
        None => false,
        Some(path) => {
            number_at(breakout.rests.as_slice(), flow) <= turn
                && is_over(demand, path.as_slice(), link)
        }
    }
}

// The better of two moves.
fn better(best: Option<Move>, next: Option<Move>) -> Option<Move> {
    match (best, next) {
        (None, next) => next,
        (Some(best), None) => Some(best),
        (Some(best), Some(next)) => {
            if best.gain < next.gain {
                Some(next)
            } else {
                Some(best)
            }
        }
    }
}

// The best move of flows off a link.
fn best_move(
    alloc: Global,
    traffic: &Traffic,
    routing: &mut Routing,
    breakout: &Breakout,
    link: usize,
    turn: u64,
) -> Result<Option<Move>, OutOfMemory> {
    let mut best = None;
    let mut count = 0_usize;
    for (flow, demand) in traffic.all.as_slice().iter().enumerate() {
        if count < CANDIDATES && may_move(demand, routing, breakout, flow, link, turn) {
            count = count.saturating_add(1);
            let weights = breakout.weights.as_slice();
            let next = move_of(alloc, traffic, demand, flow, routing, weights)?;
            best = better(best, next);
        }
    }
    Ok(best)
}

// Moves a flow.
fn apply(traffic: &Traffic, routing: &mut Routing, found: Move) {
    let Move {
        flow,
        path,
        gain: _,
    } = found;
    if let Some(demand) = traffic.all.as_slice().get(flow) {
        if let Some(old) = routing.paths.get(flow) {
            load(&mut routing.loads, demand, old.as_slice(), false);
        }
        load(&mut routing.loads, demand, path.as_slice(), true);
        if flow < routing.paths.len() {
            routing.paths.set(flow, path);
        }
    }
}

// Makes overloaded links heavier.
fn raise(rooms: &[u64], loads: &[u64], weights: &mut Items<u64>) {
    for (link, room) in rooms.iter().enumerate() {
        if *room < number_at(loads, link) {
            let weight = number_at(weights.as_slice(), link).saturating_add(2);
            put(weights, link, weight);
        }
    }
}

// One turn: a move off the worst link.
fn turn_once(
    alloc: Global,
    traffic: &Traffic,
    routing: &mut Routing,
    breakout: &mut Breakout,
    turn: u64,
) -> Result<(), OutOfMemory> {
    let rooms = traffic.rooms.as_slice();
    let worst = worst_link(rooms, routing.loads.as_slice(), breakout.weights.as_slice());
    let Some(link) = worst else {
        return Ok(());
    };
    let found = best_move(alloc, traffic, routing, breakout, link, turn)?;
    let Some(found) = found else {
        raise(rooms, routing.loads.as_slice(), &mut breakout.weights);
        return Ok(());
    };
    if found.gain == 0 {
        raise(rooms, routing.loads.as_slice(), &mut breakout.weights);
    }
    let rest = turn.saturating_add(4).saturating_add(turn % 5);
    put(&mut breakout.rests, found.flow, rest);
    apply(traffic, routing, found);
    Ok(())
}

/// Moves flows until no link is overloaded, at most so often; answers whether none is.
pub fn break_out(
    alloc: Global,
    traffic: &Traffic,
    routing: &mut Routing,
    turns: u64,
) -> Result<bool, OutOfMemory> {
    let mut breakout = Breakout {
        weights: repeated(alloc, traffic.rooms.len(), 16)?,
        rests: repeated(alloc, traffic.all.len(), 0)?,
    };
    for turn in 0..turns {
        if have_room(routing.loads.as_slice(), traffic.rooms.as_slice()) {
            return Ok(true);
        }
        turn_once(alloc, traffic, routing, &mut breakout, turn)?;
    }
    Ok(have_room(routing.loads.as_slice(), traffic.rooms.as_slice()))
}
