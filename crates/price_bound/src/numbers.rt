//! Numbers at the vertices of flows, one flow after the other: least sums that none passes that of the end, or 0 and 1.

ghost use Rattle.std.specs.Prelude.{ℕ, ◌≡◌, ◌<◌, ◌+◌, ◌++◌, map, length, replicate, Some, slice_get, OnOk, IfOk};
ghost use Rattle.cutoff_program.specs.declared.flow.Flow.{Flow};
ghost use Rattle.cutoff_program.specs.Flows.{last_of};
ghost use Rattle.graph_search.specs.Graphs.{known_at};
ghost use Rattle.price_candidates.specs.Leaves.{flow_weights};
ghost use Rattle.price_candidates.specs.Tried.{capped, missing, only};
ghost use Rattle.price_bound.specs.Numbers.{numbers_at};

use crate::permitted::vertices_of;
use merlin_model::OutOfMemory;
use merlin_program::MerlinProgram;
use sqlite_items::Items;
use std::alloc::Global;

// The lesser of a number and of a distance, if there is one.
fn capped(most: u64, distance: Option<u128>) -> u64
    ensures { result ≡ capped most distance }
{
    match distance {
        None => most,
        Some(sum) => {
            if sum < u128::from(most) {
                sum as u64
            } else {
                most
            }
        }
    }
}

// 1 where there is no distance.
fn missing(distance: Option<u128>) -> u64
    ensures { result ≡ missing distance }
{
    match distance {
        None => 1,
        Some(_) => 0,
    }
}

/// Adds the distances, none greater than a number.
pub fn push_capped(
    numbers: &mut Items<u64>,
    distances: &[Option<u128>],
    most: u64,
) -> Result<(), OutOfMemory>
    ensures { OnOk result (numbers.new ≡ numbers.old ++ map (capped most) distances.now) }
{
    for distance in distances {
        numbers.push(capped(most, *distance))?;
    }
    Ok(())
}

// Adds 1 for each vertex that is not reached, and 0 for the others.
fn push_missing(numbers: &mut Items<u64>, distances: &[Option<u128>]) -> Result<(), OutOfMemory>
    ensures { OnOk result (numbers.new ≡ numbers.old ++ map missing distances.now) }
{
    for distance in distances {
        numbers.push(missing(*distance))?;
    }
    Ok(())
}

/// Adds so many times 0.
pub fn push_zeros(numbers: &mut Items<u64>, count: usize) -> Result<(), OutOfMemory>
    ensures { OnOk result (numbers.new ≡ numbers.old ++ replicate count 0) }
{
    for _ in 0..count {
        numbers.push(0)?;
    }
    Ok(())
}

// Adds the numbers of a flow: 1 at the vertices that are not reached where it is the one that is cut, else 0.
fn push_part(
    numbers: &mut Items<u64>,
    program: &MerlinProgram,
    flow: usize,
    cut: usize,
    distances: &[Option<u128>],
) -> Result<(), OutOfMemory>
    requires in_range { flow < length program.now.problem.flows }
    requires size { (stated : Flow) → slice_get program.now.problem.flows cut ≡ Some stated →
        length distances.now ≡ last_of stated + 1 }
    ensures { (stated : Flow) → slice_get program.now.problem.flows flow ≡ Some stated →
        let at = only cut (λ vertex. missing (known_at distances.now vertex)) in
        OnOk result (numbers.new ≡ numbers.old ++ numbers_at at flow stated) }
{
    if flow == cut {
        push_missing(numbers, distances)
    } else {
        push_zeros(numbers, vertices_of(program, flow))
    }
}

/// Numbers that are 1 at the vertices of one flow that are not reached, and 0 elsewhere.
pub fn cut_numbers(
    alloc: Global,
    program: &MerlinProgram,
    cut: usize,
    distances: &[Option<u128>],
) -> Result<Items<u64>, OutOfMemory>
    requires { (stated : Flow) → slice_get program.now.problem.flows cut ≡ Some stated →
        length distances.now ≡ last_of stated + 1 }
    ensures { let at = only cut (λ vertex. missing (known_at distances.now vertex)) in
        IfOk result (λ numbers. numbers ≡ flow_weights at 0 program.now.problem.flows) }
{
    let mut numbers = Items::new(alloc);
    for flow in 0..program.problem().flows.len() {
        push_part(&mut numbers, program, flow, cut, distances)?;
    }
    Ok(numbers)
}
