//! The leaf of some prices: their links' rows, the cutoff row, and for each flow the least sums at its vertices, none above that of the end.

use crate::demand::{Arc, Demand, Traffic};
use crate::numbers::{number_at, put};
use crate::spread::{price_of, sums_of};
use merlin_model::OutOfMemory;
use merlin_model::certificate::Weight;
use merlin_model::limits::MAX_WEIGHT;
use sqlite_items::Items;
use std::alloc::Global;

// Adds a row with its weight, if that is not 0.
fn put_row(weights: &mut Items<Weight>, row: usize, weight: u64) -> Result<(), OutOfMemory> {
    if weight != 0 && weight <= MAX_WEIGHT {
        let weight = weight as i64;
        weights.push(Weight { row, weight })?;
    }
    Ok(())
}

// Adds rows with their weights, the first of which has such a number.
fn put_rows(
    weights: &mut Items<Weight>,
    first: usize,
    numbers: &[u64],
    times: u64,
) -> Result<(), OutOfMemory> {
    for (place, number) in numbers.iter().enumerate() {
        put_row(
            weights,
            first.saturating_add(place),
            number.saturating_mul(times),
        )?;
    }
    Ok(())
}

// No number above the last.
fn cap(numbers: &mut Items<u64>) {
    let last = number_at(numbers.as_slice(), numbers.len().saturating_sub(1));
    for place in 0..numbers.len() {
        let number = number_at(numbers.as_slice(), place).min(last);
        put(numbers, place, number);
    }
}

// Raises all numbers by one.
fn raise(numbers: &mut Items<u64>, by: u64) {
    for place in 0..numbers.len() {
        let number = number_at(numbers.as_slice(), place).saturating_add(by);
        put(numbers, place, number);
    }
}

// The sum of the prices of edges that must be taken.
fn sum_of(arcs: &[Arc], prefix: &[usize], prices: &[u64]) -> u64 {
    let mut sum = 0_u64;
    for number in prefix {
        if let Some(arc) = arcs.get(*number) {
            sum = sum.saturating_add(price_of(arc, prices));
        }
    }
    sum
}

// Lowers the numbers of vertices that only one edge leaves, among those that must be taken, to that of the next less its price.
fn lower(numbers: &mut Items<u64>, arcs: &[Arc], prefix: &[usize], prices: &[u64]) {
    for step in 0..prefix.len() {
        let place = prefix.len() - 1 - step;
        if let Some(arc) = arcs.get(prefix[place]) {
            if !arc.is_fixed {
                let next = number_at(numbers.as_slice(), arc.to);
                put(
                    numbers,
                    arc.from,
                    next.saturating_sub(price_of(arc, prices)),
                );
            }
        }
    }
}

// The numbers at the vertices of a flow, for each kbit/s.
fn numbers_of(alloc: Global, demand: &Demand, prices: &[u64]) -> Result<Items<u64>, OutOfMemory> {
    let mut numbers = sums_of(alloc, demand, prices)?.distance;
    let (arcs, prefix) = (demand.arcs.as_slice(), demand.prefix.arcs.as_slice());
    cap(&mut numbers);
    raise(&mut numbers, sum_of(arcs, prefix, prices));
    lower(&mut numbers, arcs, prefix, prices);
    Ok(numbers)
}

/// The leaf of prices on links, where `priced` are those with the costs of the cutoff row.
pub fn leaf_of(
    alloc: Global,
    traffic: &Traffic,
    prices: &[u64],
    priced: &[u64],
) -> Result<Items<Weight>, OutOfMemory> {
    let mut weights = Items::new(alloc);
    let mut row = 0_usize;
    for demand in traffic.all.as_slice() {
        let numbers = numbers_of(alloc, demand, priced)?;
        put_rows(&mut weights, row, numbers.as_slice(), demand.rate)?;
        row = row.saturating_add(demand.vertices.max(2));
    }
    put_rows(&mut weights, row, prices, 1)?;
    if traffic.most.is_some() {
        put_row(&mut weights, row.saturating_add(prices.len()), traffic.unit)?;
    }
    Ok(weights)
}
