//! Paths of least cost, one for each flow, or a flow that has none.

ghost use Rattle.std.specs.Prelude.{ℕ, ◌≡◌, ◌<◌, length, replicate, false, IfOk};
ghost use Rattle.std.specs.Option.{option_copied};
ghost use Rattle.cutoff_program.specs.Flows.{variables_of};
ghost use Rattle.price_bound.specs.Asked.{IsBoxAsked};
ghost use Rattle.price_bound.specs.Numbers.{AreCosts, IsAdded, ArePathsFound};

use crate::measure::Measure;
use crate::numbers::{cut_numbers, push_capped};
use crate::spread::{mark_back, spread_of};
use integer_program::{Fixed, Program};
use merlin_model::OutOfMemory;
use merlin_model::policy::Value;
use merlin_program::MerlinProgram;
use sqlite_items::Items;
use std::alloc::Global;

/// The least costs at the vertices of flows, one flow after the other, and the point of the edges of such paths.
#[derive(Drop)]
pub struct Costs {
    pub numbers: Items<u64>,
    pub point: Items<bool>,
}

/// Numbers at vertices that show that a flow has no path, or the costs of all.
#[derive(Drop)]
pub enum CostsFound {
    Cut(Items<u64>),
    Paths(Costs),
}

// The point of so many variables that chooses none.
fn no_choice(alloc: Global, variables: usize) -> Result<Items<bool>, OutOfMemory>
    ensures { IfOk result (λ point. point ≡ replicate variables false) }
{
    Ok(Items::from_vec(vec![in alloc; false; variables]?))
}

// No costs, and the point that chooses nothing.
fn no_costs(alloc: Global, program: &MerlinProgram) -> Result<Costs, OutOfMemory>
    ensures { (cutoff : _) (box : _) → IfOk result (AreCosts program.now.problem cutoff box 0) }
{
    Ok(Costs {
        numbers: Items::new(alloc),
        point: no_choice(alloc, program.variables())?,
    })
}

// Adds a flow to the costs, or answers numbers that show that it has no path.
fn add_flow(
    alloc: Global,
    program: &MerlinProgram,
    cutoff: Option<&Value>,
    fixed: &Fixed,
    flow: usize,
    costs: &mut Costs,
) -> Result<Option<Items<u64>>, OutOfMemory>
    requires asked { IsBoxAsked program.now.problem (option_copied cutoff) fixed.now }
    requires in_range { flow < length program.now.problem.flows }
    requires costs { AreCosts program.now.problem (option_copied cutoff) fixed.now flow costs.old }
    ensures { let at = option_copied cutoff.entry in
        IfOk result (IsAdded program.now.problem at fixed.now flow costs.new) }
{
    let spread = spread_of(alloc, program, cutoff, fixed, flow, Measure::Cost)?;
    let distances = spread.least.distance.as_slice();
    let end = spread.graph.vertices - 1;
    match distances[end] {
        None => {
            let numbers = cut_numbers(alloc, program, flow, distances)?;
            Ok(Some(numbers))
        }
        Some(most) => {
            push_capped(&mut costs.numbers, distances, most as u64)?;
            mark_back(&mut costs.point, &spread, end);
            Ok(None)
        }
    }
}

/// The paths of least cost in a box, or a flow that has none.
pub fn find(
    alloc: Global,
    program: &MerlinProgram,
    cutoff: Option<&Value>,
    fixed: &Fixed,
) -> Result<CostsFound, OutOfMemory>
    requires { IsBoxAsked program.now.problem (option_copied cutoff) fixed.now }
    ensures { let at = option_copied cutoff.entry in
        IfOk result (ArePathsFound program.now.problem at fixed.now) }
{
    let mut costs = no_costs(alloc, program)?;
    for flow in 0..program.problem().flows.len() {
        if let Some(numbers) = add_flow(alloc, program, cutoff, fixed, flow, &mut costs)? {
            return Ok(CostsFound::Cut(numbers));
        }
    }
    Ok(CostsFound::Paths(costs))
}
