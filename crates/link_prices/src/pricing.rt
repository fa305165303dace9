//! Prices that grow where links are overloaded and fall where they are not, by factors (multiplicative weights: Plotkin, Shmoys and
//! Tardos 1995). They serve where loads alone decide.

use crate::numbers::{dot, number_at, put, repeated, scale_all, scaled};
use merlin_model::OutOfMemory;
use sqlite_items::Items;
use std::alloc::Global;

/// What the greatest price is worth that a link has, times its room.
const WORTH: u64 = 17_592_186_044_416;

/// How much of a relative excess is added in a step, in parts of 256.
fn factor_at(step: usize) -> u64 {
    if step < 12 {
        512
    } else if step < 40 {
        384
    } else if step < 100 {
        256
    } else {
        160
    }
}

/// A price after a step: greater by the factor of the relative excess, or less by that of the relative rest.
fn moved(price: u64, load: u64, room: u64, factor: u64) -> u64 {
    if room <= load {
        let over = scaled(load.saturating_sub(room), 256, room).min(256);
        price.saturating_add(scaled(price, over.saturating_mul(factor), 65536))
    } else {
        let under = scaled(room.saturating_sub(load), 256, room).min(256);
        scaled(
            price,
            65536,
            under.saturating_mul(factor).saturating_add(65536),
        )
    }
}

/// What the dearest link is worth.
fn greatest_worth(prices: &[u64], rooms: &[u64]) -> u64 {
    let mut greatest = 0_u64;
    for (link, price) in prices.iter().enumerate() {
        greatest = greatest.max(price.saturating_mul(number_at(rooms, link)));
    }
    greatest
}

/// Prices at which each link is worth the same.
pub fn even_prices(alloc: Global, rooms: &[u64]) -> Result<Items<u64>, OutOfMemory> {
    let mut prices = repeated(alloc, rooms.len(), 1)?;
    for (link, room) in rooms.iter().enumerate() {
        put(&mut prices, link, scaled(WORTH, 1, *room).max(1));
    }
    Ok(prices)
}

/// Moves all prices by the loads of least paths.
pub fn move_prices(prices: &mut Items<u64>, loads: &[u64], rooms: &[u64], step: usize) {
    let factor = factor_at(step);
    for (link, room) in rooms.iter().enumerate() {
        let price = number_at(prices.as_slice(), link);
        put(
            prices,
            link,
            moved(price, number_at(loads, link), *room, factor),
        );
    }
    let greatest = greatest_worth(prices.as_slice(), rooms);
    scale_all(prices, WORTH, greatest, 1);
}

/// Whether what least paths cost is more than all rooms and what may be spent.
pub fn are_too_dear(
    loads: &[u64],
    priced: &[u64],
    prices: &[u64],
    rooms: &[u64],
    most: Option<u64>,
) -> bool {
    let spent = match most {
        None => 0,
        Some(most) => most,
    };
    dot(prices, rooms).saturating_add(spent) < dot(loads, priced)
}
