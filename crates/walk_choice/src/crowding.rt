//! Which link is the most crowded by some paths.

use cutoff_program::flow::Variable;
use link_prices::numbers::{number_at, put, repeated};
use merlin_model::OutOfMemory;
use merlin_model::network::DirectedLink;
use sqlite_items::Items;
use std::alloc::Global;

// Adds what a path puts on links.
fn add_path(loads: &mut Items<u64>, variables: &[Variable], path: &[usize]) {
    for number in path {
        if let Some(variable) = variables.get(*number) {
            if let Some(link) = variable.edge.crosses {
                let load = number_at(loads.as_slice(), link).saturating_add(variable.rate);
                put(loads, link, load);
            }
        }
    }
}

/// What some paths put on each of so many links.
pub fn loads_along(
    alloc: Global,
    variables: &[Variable],
    paths: &[Items<usize>],
    links: usize,
) -> Result<Items<u64>, OutOfMemory> {
    let mut loads = repeated(alloc, links, 0)?;
    for path in paths {
        add_path(&mut loads, variables, path.as_slice());
    }
    Ok(loads)
}

// Whether a load is a greater part of a capacity than another of another.
fn is_greater_part(load: u64, capacity: u64, other: u64, of: u64) -> bool {
    let here = u128::from(load).saturating_mul(u128::from(of));
    u128::from(other).saturating_mul(u128::from(capacity)) < here
}

/// The link of whose capacity the load is the greatest part, if there is any load.
pub fn most_crowded(links: &[DirectedLink], loads: &[u64]) -> Option<usize> {
    let mut found = None;
    let mut load = 0_u64;
    let mut capacity = 1_u64;
    for (link, directed) in links.iter().enumerate() {
        let here = number_at(loads, link);
        if is_greater_part(here, directed.capacity, load, capacity) {
            found = Some(link);
            load = here;
            capacity = directed.capacity;
        }
    }
    found
}

/// Whether a path crosses a link.
pub fn is_over(variables: &[Variable], path: &[usize], link: usize) -> bool {
    for number in path {
        if let Some(variable) = variables.get(*number) {
            if variable.edge.crosses == Some(link) {
                return true;
            }
        }
    }
    false
}
