//! Prices by subgradient steps with averaged loads (Polyak 1969; the average is that of the volume algorithm, Barahona and Anbil 2000). They
//! serve where lengths are to be kept below a cutoff: a step goes as far as what is missing to it asks.

use crate::demand::Traffic;
use crate::numbers::{dot, number_at, put, repeated, scaled};
use merlin_model::OutOfMemory;
use sqlite_items::Items;
use std::alloc::Global;

/// The prices, the best so far with what they show, and the average loads times 256.
#[derive(Drop)]
pub struct Ascent {
    pub prices: Items<u64>,
    pub best: Items<u64>,
    shown: u64,
    averages: Items<u64>,
    stale: usize,
    pace: u64,
}

/// The start of an ascent at some prices.
pub fn start(alloc: Global, prices: &[u64]) -> Result<Ascent, OutOfMemory> {
    Ok(Ascent {
        prices: Items::from_slice(alloc, prices)?,
        best: Items::from_slice(alloc, prices)?,
        shown: 0,
        averages: Items::new(alloc),
        stale: 0,
        pace: 256,
    })
}

// The averages, nearer to the loads; the loads themselves in the first step.
fn average(alloc: Global, ascent: &mut Ascent, loads: &[u64]) -> Result<(), OutOfMemory> {
    let mut averages = repeated(alloc, loads.len(), 0)?;
    let is_first = ascent.averages.is_empty();
    for (link, load) in loads.iter().enumerate() {
        let old = number_at(ascent.averages.as_slice(), link).saturating_mul(7) / 8;
        let new = if is_first {
            load.saturating_mul(256)
        } else {
            old.saturating_add(load.saturating_mul(32))
        };
        put(&mut averages, link, new);
    }
    ascent.averages = averages;
    Ok(())
}

// By how much a link is over its room or under it, in parts of 1024 of the room.
fn excess(average: u64, room: u64) -> (bool, u64) {
    let room = room.saturating_mul(256);
    if room <= average {
        (
            true,
            scaled(average.saturating_sub(room), 1024, room).min(4096),
        )
    } else {
        (false, scaled(room.saturating_sub(average), 1024, room))
    }
}

// The sum of the squares of what moves.
fn square(ascent: &Ascent, rooms: &[u64]) -> u64 {
    let mut sum = 0_u64;
    for (link, room) in rooms.iter().enumerate() {
        let (is_over, by) = excess(number_at(ascent.averages.as_slice(), link), *room);
        if is_over || 0 < number_at(ascent.prices.as_slice(), link) {
            sum = sum.saturating_add(by.saturating_mul(by));
        }
    }
    sum
}

// Moves each price along the excess of its link.
fn step(ascent: &mut Ascent, rooms: &[u64], missing: u64) {
    let square = square(ascent, rooms);
    let far = scaled(missing, ascent.pace, 256);
    for (link, room) in rooms.iter().enumerate() {
        let (is_over, by) = excess(number_at(ascent.averages.as_slice(), link), *room);
        let change = scaled(far, by.saturating_mul(1024), square) / (*room).max(1);
        let price = number_at(ascent.prices.as_slice(), link);
        let new = if is_over {
            price.saturating_add(change)
        } else {
            price.saturating_sub(change)
        };
        put(&mut ascent.prices, link, new);
    }
}

// Keeps what is better than before; after some steps without gain goes back and on more slowly.
fn keep(alloc: Global, ascent: &mut Ascent, shown: u64) -> Result<(), OutOfMemory> {
    if ascent.shown < shown {
        ascent.shown = shown;
        ascent.best = Items::from_slice(alloc, ascent.prices.as_slice())?;
        ascent.stale = 0;
        return Ok(());
    }
    ascent.stale = ascent.stale.saturating_add(1);
    if 8 <= ascent.stale {
        ascent.prices = Items::from_slice(alloc, ascent.best.as_slice())?;
        ascent.pace = scaled(ascent.pace, 6, 10).max(1);
        ascent.stale = 0;
    }
    Ok(())
}

/// One step after least paths with such loads and costs were found.
pub fn ascend(
    alloc: Global,
    traffic: &Traffic,
    ascent: &mut Ascent,
    loads: &[u64],
    priced: &[u64],
) -> Result<(), OutOfMemory> {
    let rooms = traffic.rooms.as_slice();
    let free = dot(ascent.prices.as_slice(), rooms);
    let shown = dot(loads, priced).saturating_sub(free);
    let most = match traffic.most {
        None => 0,
        Some(most) => most,
    };
    average(alloc, ascent, loads)?;
    keep(alloc, ascent, shown)?;
    step(
        ascent,
        rooms,
        most.saturating_add(traffic.unit).saturating_sub(shown),
    );
    Ok(())
}
