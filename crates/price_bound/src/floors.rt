//! What is tried of one link: the least rates there along the paths of each flow, or what is fixed of it, if that is more.

ghost use Rattle.std.specs.Prelude.{ℕ, ◌≡◌, ◌≤◌, ◌<◌, ◌+◌, ◌==◌, ◌++◌, ◌^◌, map, length, replicate, OnOk, IfOk};
ghost use Rattle.std.specs.Option.{option_copied};
ghost use Rattle.merlin_model.specs.Trees.{fixed_at};
ghost use Rattle.cutoff_program.specs.Flows.{variables_of, rate_over};
ghost use Rattle.cutoff_program.specs.Easy.{rate_if_fixed, fixed_from};
ghost use Rattle.merlin_program.specs.Kept.{variable_at};
ghost use Rattle.price_candidates.specs.Tried.{capped};
ghost use Rattle.price_bound.specs.Asked.{IsBoxAsked};
ghost use Rattle.price_bound.specs.Numbers.{AreFloors, EachIsReached};

use crate::measure::{Measure, term};
use crate::numbers::{push_capped, push_zeros};
use crate::spread::spread_of;
use integer_program::{Fixed, Program};
use merlin_model::OutOfMemory;
use merlin_model::policy::Value;
use merlin_program::MerlinProgram;
use sqlite_items::Items;
use std::alloc::Global;

// What a variable puts on a link, if it is one of a flow and fixed to 1.
fn fixed_rate(
    program: &MerlinProgram,
    fixed: &Fixed,
    flow: usize,
    link: usize,
    number: usize,
) -> u64
    requires in_range { number < length (variables_of program.now.problem) }
    requires size { length fixed.now ≡ length (variables_of program.now.problem) }
    ensures value { let v = variable_at program.now.problem number in
        result ≡ rate_if_fixed (fixed_at fixed.now number) (v.flow == flow) (rate_over link v) }
    ensures small { result ≤ 10 ^ 9 }
{
    match fixed.get(number) {
        Some(true) => {
            if program.edges()[number].flow == flow {
                term(program, Measure::Rate(link), number)
            } else {
                0
            }
        }
        _ => 0,
    }
}

// What the variables of a flow that are fixed to 1 put on a link.
fn fixed_on(program: &MerlinProgram, fixed: &Fixed, flow: usize, link: usize) -> u64
    requires { length fixed.now ≡ length (variables_of program.now.problem) }
    ensures { (cutoff : _) → let problem = program.now.problem in
        result ≡ fixed_from problem cutoff fixed.now flow link 0 (variables_of problem) }
{
    let mut load = 0;
    for number in 0..program.variables() {
        load += fixed_rate(program, fixed, flow, link, number);
    }
    load
}

// Adds the distances where what is fixed is no more than that of the end, else 0 for each vertex.
fn push_floor(
    numbers: &mut Items<u64>,
    distances: &[Option<u128>],
    most: u64,
    fixed: u64,
) -> Result<(), OutOfMemory>
    ensures path { fixed ≤ most →
        OnOk result (numbers.new ≡ numbers.old ++ map (capped most) distances.now) }
    ensures fixed { most < fixed →
        OnOk result (numbers.new ≡ numbers.old ++ replicate (length distances.now) 0) }
{
    if fixed <= most {
        push_capped(numbers, distances, most)
    } else {
        push_zeros(numbers, distances.len())
    }
}

// Adds the numbers of a flow.
fn add_floor(
    alloc: Global,
    program: &MerlinProgram,
    cutoff: Option<&Value>,
    fixed: &Fixed,
    link: usize,
    flow: usize,
    numbers: &mut Items<u64>,
) -> Result<(), OutOfMemory>
    requires asked { IsBoxAsked program.now.problem (option_copied cutoff) fixed.now }
    requires in_range { flow < length program.now.problem.flows }
    requires reached { EachIsReached program.now.problem (option_copied cutoff) fixed.now }
    requires floors { let at = option_copied cutoff in
        AreFloors program.now.problem at fixed.now link flow numbers.old }
    ensures { let at = option_copied cutoff.entry in
        OnOk result (AreFloors program.now.problem at fixed.now link (flow + 1) numbers.new) }
{
    let spread = spread_of(alloc, program, cutoff, fixed, flow, Measure::Rate(link))?;
    let distances = spread.least.distance.as_slice();
    match distances[spread.graph.vertices - 1] {
        None => Ok(()),
        Some(most) => push_floor(
            numbers,
            distances,
            most as u64,
            fixed_on(program, fixed, flow, link),
        ),
    }
}

/// What is tried of a link, where each flow has a path.
pub fn floors_on(
    alloc: Global,
    program: &MerlinProgram,
    cutoff: Option<&Value>,
    fixed: &Fixed,
    link: usize,
) -> Result<Items<u64>, OutOfMemory>
    requires asked { IsBoxAsked program.now.problem (option_copied cutoff) fixed.now }
    requires reached { EachIsReached program.now.problem (option_copied cutoff) fixed.now }
    ensures { let at = option_copied cutoff.entry in
        let count = length program.now.problem.flows in
        IfOk result (AreFloors program.now.problem at fixed.now link count) }
{
    let mut numbers = Items::new(alloc);
    for flow in 0..program.problem().flows.len() {
        add_floor(alloc, program, cutoff, fixed, link, flow, &mut numbers)?;
    }
    Ok(numbers)
}
