//! What prices on several links and rerouting find, each candidate tested before it is answered.

ghost use Rattle.std.specs.Prelude.{ℕ, ◌≡◌, ◌≢◌, length, true, false, Some, IfOk, IfSome};
ghost use Rattle.std.specs.Option.{option_copied};
ghost use Rattle.merlin_model.specs.Trees.{fixed_at};
ghost use Rattle.cutoff_program.specs.Flows.{variables_of};
ghost use Rattle.price_bound.specs.Asked.{IsBoxAsked};
ghost use Rattle.price_bound.specs.Trials.{AreNeatPaths, IsTested};

use crate::costs::{CostsFound, find};
use certificate::{Workspace, leaf_refutes};
use integer_program::{Fixed, is_solution};
use link_prices::{LinkPrices, Trial, try_prices};
use merlin_model::OutOfMemory;
use merlin_model::certificate::Weight;
use merlin_model::policy::Value;
use merlin_program::MerlinProgram;
use sqlite_items::{Items, at};
use std::alloc::Global;

/// What comes of candidates: weights that refute the box, a neat solution, paths that are none, or nothing.
#[derive(Drop)]
pub enum TestedCandidate {
    Refuting(Items<Weight>),
    Better(Items<bool>),
    Others(Items<bool>),
    Nothing,
}

// The box that fixes to 0 what another does, and what a point does not choose.
fn box_within(alloc: Global, fixed: &Fixed, point: &[bool]) -> Result<Fixed, OutOfMemory>
    ensures size { IfOk result (λ within. length within ≡ length fixed.now) }
    ensures none { IfOk result (λ within. (k : ℕ) → fixed_at within k ≢ Some true) }
    ensures zeros { IfOk result (λ within. (k : ℕ) → fixed_at fixed.now k ≡ Some false →
        fixed_at within k ≡ Some false) }
{
    let mut within = Fixed::free(alloc, fixed.len())?;
    for variable in 0..fixed.len() {
        if at(point, variable) != Some(&true) || fixed.get(variable) == Some(false) {
            within.set(variable, Some(false));
        }
    }
    Ok(within)
}

// Paths of least cost among the edges of a point that a box allows, if each flow has one.
fn paths_within(
    alloc: Global,
    program: &MerlinProgram,
    cutoff: Option<&Value>,
    fixed: &Fixed,
    taken: &[bool],
) -> Result<Option<Items<bool>>, OutOfMemory>
    requires { IsBoxAsked program.now.problem (option_copied cutoff) fixed.now }
    ensures { let problem = program.now.problem in
        let at = option_copied cutoff.entry in
        IfOk result (λ found. IfSome found (AreNeatPaths problem at fixed.now)) }
{
    price_candidates::candidates::tried_points_are_neat();
    let within = box_within(alloc, fixed, taken)?;
    match find(alloc, program, cutoff, &within)? {
        CostsFound::Cut(_) => Ok(None),
        CostsFound::Paths(costs) => Ok(Some(costs.point)),
    }
}

// Such paths, and whether they are better than the cutoff.
fn test_paths(
    alloc: Global,
    program: &MerlinProgram,
    cutoff: Option<&Value>,
    fixed: &Fixed,
    taken: &[bool],
) -> Result<TestedCandidate, OutOfMemory>
    requires { IsBoxAsked program.now.problem (option_copied cutoff) fixed.now }
    ensures { let problem = program.now.problem in
        let at = option_copied cutoff.entry in
        IfOk result (IsTested problem at fixed.now) }
{
    match paths_within(alloc, program, cutoff, fixed, taken)? {
        None => Ok(TestedCandidate::Nothing),
        Some(point) => {
            if is_solution(program, cutoff, point.as_slice()) {
                Ok(TestedCandidate::Better(point))
            } else {
                Ok(TestedCandidate::Others(point))
            }
        }
    }
}

// Weights, if they refute the box.
fn test_weights(
    program: &MerlinProgram,
    cutoff: Option<&Value>,
    fixed: &Fixed,
    workspace: &mut Workspace,
    weights: Items<Weight>,
) -> TestedCandidate
    requires asked { IsBoxAsked program.now.problem (option_copied cutoff) fixed.now }
    requires room { workspace.old ≡ length (variables_of program.now.problem) }
    ensures same { workspace.new ≡ workspace.old }
    ensures tested { let at = option_copied cutoff.entry in
        IsTested program.now.problem at fixed.now result }
{
    if leaf_refutes(program, cutoff, fixed, workspace, weights.as_slice()) {
        TestedCandidate::Refuting(weights)
    } else {
        TestedCandidate::Nothing
    }
}

/// What comes of the candidates for a box.
pub fn by_trials(
    alloc: Global,
    program: &MerlinProgram,
    cutoff: Option<&Value>,
    fixed: &Fixed,
    workspace: &mut Workspace,
    prices: &mut LinkPrices,
) -> Result<TestedCandidate, OutOfMemory>
    requires asked { IsBoxAsked program.now.problem (option_copied cutoff) fixed.now }
    requires room { workspace.old ≡ length (variables_of program.now.problem) }
    ensures same { workspace.new ≡ workspace.old }
    ensures tested { let problem = program.now.problem in
        let at = option_copied cutoff.entry in
        IfOk result (IsTested problem at fixed.now) }
{
    match try_prices(alloc, program, cutoff, fixed, prices)? {
        Trial::Leaf(weights) => Ok(test_weights(program, cutoff, fixed, workspace, weights)),
        Trial::Paths(taken) => test_paths(alloc, program, cutoff, fixed, taken.as_slice()),
        Trial::Nothing => Ok(TestedCandidate::Nothing),
    }
}
