//! Whole numbers by place. A place that is not there has 0, and sums and products stop at the greatest number.

ghost use Rattle.std.specs.Prelude.{◌≡◌, length, replicate, IfOk};

use merlin_model::OutOfMemory;
use sqlite_items::Items;
use std::alloc::Global;

/// The number at a place.
pub fn number_at(numbers: &[u64], place: usize) -> u64 {
    match numbers.get(place) {
        Some(number) => *number,
        None => 0,
    }
}

/// Puts a number at a place, if there is one.
pub fn put(numbers: &mut Items<u64>, place: usize, number: u64)
    ensures { length numbers.new ≡ length numbers.old }
{
    if place < numbers.len() {
        numbers.set(place, number);
    }
}

/// One number so many times.
pub fn repeated(alloc: Global, count: usize, number: u64) -> Result<Items<u64>, OutOfMemory>
    ensures { IfOk result (λ numbers. numbers ≡ replicate count number) }
{
    Ok(Items::from_vec(vec![in alloc; number; count]?))
}

/// A number times one and by another, rounded down; 0 where that is 0.
pub fn scaled(number: u64, up: u64, down: u64) -> u64 {
    if down == 0 {
        return 0;
    }
    let scaled = u128::from(number).saturating_mul(u128::from(up)) / u128::from(down);
    if scaled < u128::from(u64::MAX) {
        scaled as u64
    } else {
        u64::MAX
    }
}

/// The sum of the products, place by place.
pub fn dot(first: &[u64], second: &[u64]) -> u64 {
    let mut sum = 0_u64;
    for (place, number) in first.iter().enumerate() {
        sum = sum.saturating_add(number.saturating_mul(number_at(second, place)));
    }
    sum
}

/// The sums, place by place.
pub fn summed(alloc: Global, first: &[u64], second: &[u64]) -> Result<Items<u64>, OutOfMemory> {
    let mut sums = Items::new(alloc);
    for (place, number) in first.iter().enumerate() {
        sums.push(number.saturating_add(number_at(second, place)))?;
    }
    Ok(sums)
}

/// Each number times one and by another, but at least so much.
pub fn scale_all(numbers: &mut Items<u64>, up: u64, down: u64, least: u64) {
    for place in 0..numbers.len() {
        let number = scaled(number_at(numbers.as_slice(), place), up, down);
        put(numbers, place, number.max(least));
    }
}
