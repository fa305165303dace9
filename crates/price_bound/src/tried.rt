//! Leaves that are tried, each by the sum of its rows.

ghost use Rattle.std.specs.Prelude.{ℕ, ℤ, ◌≡◌, ◌<◌, ◌^◌, ◌⊎◌, pos, negsuc, length, None, IfOk};
ghost use Rattle.std.specs.Option.{option_copied};
ghost use Rattle.cutoff_program.specs.Flows.{variables_of, program_at};
ghost use Rattle.price_candidates.specs.Leaves.{AreSmallNumbers, flow_weights, leaf_from};
ghost use Rattle.price_candidates.specs.Tried.{leaf_by_costs, one_weight};
ghost use Rattle.price_bound.specs.Loads.{IsLoadOf, IsOfPaths};
ghost use Rattle.price_bound.specs.Asked.{IsBoxAsked};
ghost use Rattle.price_bound.specs.Numbers.{AreNumbers, EachIsReached, IsLeafTried, IsLinkTried, AreLinksTried, IsRowTried, AreRowsTried};
ghost use Rattle.price_bound.specs.Priced.{pricing_of, IsPricedIn};

use crate::floors::floors_on;
use crate::leaf::{Priced, leaf};
use crate::loads::{fits, loads_of};
use crate::numbers::push_zeros;
use certificate::{Workspace, leaf_refutes};
use integer_program::{Fixed, Program};
use merlin_model::OutOfMemory;
use merlin_model::certificate::Weight;
use merlin_model::policy::{Objective, Value};
use merlin_program::MerlinProgram;
use sqlite_items::Items;
use std::alloc::Global;

/// The leaf of some numbers at vertices, if it refutes the box.
pub fn try_leaf(
    alloc: Global,
    program: &MerlinProgram,
    cutoff: Option<&Value>,
    fixed: &Fixed,
    workspace: &mut Workspace,
    numbers: &[u64],
    pricing: Priced,
) -> Result<Option<Items<Weight>>, OutOfMemory>
    requires asked { IsBoxAsked program.now.problem (option_copied cutoff) fixed.now }
    requires room { workspace.old ≡ length (variables_of program.now.problem) }
    requires numbers { AreNumbers program.now.problem numbers.now }
    requires priced { IsPricedIn (length program.now.problem.links) (pricing_of pricing) }
    ensures same { workspace.new ≡ workspace.old }
    ensures tried { let problem = program.now.problem in
        let stated = program_at problem (option_copied cutoff.entry) in
        (at : ℕ → ℕ → ℕ) → numbers.now ≡ flow_weights at 0 problem.flows →
        IfOk result (IsLeafTried stated fixed.now (leaf_from problem at (pricing_of pricing))) }
{
    let links = program.problem().links.len();
    let weights = leaf(alloc, numbers, links, pricing)?;
    if leaf_refutes(program, cutoff, fixed, workspace, weights.as_slice()) {
        Ok(Some(weights))
    } else {
        Ok(None)
    }
}

/// The leaf of the least costs, if it refutes the box.
pub fn try_lengths(
    alloc: Global,
    program: &MerlinProgram,
    cutoff: Option<&Value>,
    fixed: &Fixed,
    workspace: &mut Workspace,
    costs: &[u64],
) -> Result<Option<Items<Weight>>, OutOfMemory>
    requires asked { IsBoxAsked program.now.problem (option_copied cutoff) fixed.now }
    requires room { workspace.old ≡ length (variables_of program.now.problem) }
    requires costs { AreNumbers program.now.problem costs.now }
    ensures same { workspace.new ≡ workspace.old }
    ensures tried { let problem = program.now.problem in
        let stated = program_at problem (option_copied cutoff.entry) in
        (at : ℕ → ℕ → ℕ) → costs.now ≡ flow_weights at 0 problem.flows →
        IfOk result (IsLeafTried stated fixed.now (leaf_by_costs problem at)) }
{
    match program.problem().objective {
        Objective::Shortest => {
            try_leaf(
                alloc,
                program,
                cutoff,
                fixed,
                workspace,
                costs,
                Priced::Lengths,
            )
        }
        _ => {
            let mut zeros = Items::new(alloc);
            push_zeros(&mut zeros, costs.len())?;
            try_leaf(
                alloc,
                program,
                cutoff,
                fixed,
                workspace,
                zeros.as_slice(),
                Priced::Lengths,
            )
        }
    }
}

// What is tried of a link, if it refutes the box. Where what least paths put there with what is fixed fits, it cannot.
fn try_link(
    alloc: Global,
    program: &MerlinProgram,
    cutoff: Option<&Value>,
    fixed: &Fixed,
    workspace: &mut Workspace,
    link: usize,
    load: u64,
) -> Result<Option<Items<Weight>>, OutOfMemory>
    requires asked { IsBoxAsked program.now.problem (option_copied cutoff) fixed.now }
    requires room { workspace.old ≡ length (variables_of program.now.problem) }
    requires reached { EachIsReached program.now.problem (option_copied cutoff) fixed.now }
    requires in_range { link < length program.now.problem.links }
    requires small { load < 2 ^ 62 }
    requires load { IsLoadOf program.now.problem (option_copied cutoff) fixed.now link load }
    ensures same { workspace.new ≡ workspace.old }
    ensures tried { let at = option_copied cutoff.entry in
        IfOk result (IsLinkTried program.now.problem at fixed.now link) }
{
    if fits(program, cutoff, link, load) {
        return Ok(None);
    }
    let numbers = floors_on(alloc, program, cutoff, fixed, link)?;
    try_leaf(
        alloc,
        program,
        cutoff,
        fixed,
        workspace,
        numbers.as_slice(),
        Priced::Link(link),
    )
}

/// What is tried of the first link that refutes the box, where a point has the edges of paths of least cost.
pub fn try_links(
    alloc: Global,
    program: &MerlinProgram,
    cutoff: Option<&Value>,
    fixed: &Fixed,
    workspace: &mut Workspace,
    point: &[bool],
) -> Result<Option<Items<Weight>>, OutOfMemory>
    requires asked { IsBoxAsked program.now.problem (option_copied cutoff) fixed.now }
    requires room { workspace.old ≡ length (variables_of program.now.problem) }
    requires paths { IsOfPaths program.now.problem (option_copied cutoff) fixed.now point.now }
    ensures same { workspace.new ≡ workspace.old }
    ensures tried { let at = option_copied cutoff.entry in
        IfOk result (AreLinksTried program.now.problem at fixed.now) }
{
    let loads = loads_of(alloc, program, fixed, point)?;
    for (link, load) in loads.as_slice().iter().enumerate() {
        if let Some(weights) = try_link(alloc, program, cutoff, fixed, workspace, link, *load)? {
            return Ok(Some(weights));
        }
    }
    Ok(None)
}

// One row with a weight.
fn one_row(alloc: Global, row: usize, weight: i64) -> Result<Items<Weight>, OutOfMemory>
    ensures { IfOk result (λ weights. weights ≡ one_weight row weight) }
{
    let mut weights = Items::new(alloc);
    weights.push(Weight { row, weight })?;
    Ok(weights)
}

// A row with a weight, if it refutes the box.
fn try_weight(
    alloc: Global,
    program: &MerlinProgram,
    cutoff: Option<&Value>,
    fixed: &Fixed,
    workspace: &mut Workspace,
    row: usize,
    weight: i64,
) -> Result<Option<Items<Weight>>, OutOfMemory>
    requires asked { IsBoxAsked program.now.problem (option_copied cutoff) fixed.now }
    requires room { workspace.old ≡ length (variables_of program.now.problem) }
    ensures same { workspace.new ≡ workspace.old }
    ensures tried { let stated = program_at program.now.problem (option_copied cutoff.entry) in
        IfOk result (IsLeafTried stated fixed.now (one_weight row weight)) }
{
    let weights = one_row(alloc, row, weight)?;
    if leaf_refutes(program, cutoff, fixed, workspace, weights.as_slice()) {
        Ok(Some(weights))
    } else {
        Ok(None)
    }
}

// A row with the weight 1 or -1, if it refutes the box.
fn try_row(
    alloc: Global,
    program: &MerlinProgram,
    cutoff: Option<&Value>,
    fixed: &Fixed,
    workspace: &mut Workspace,
    row: usize,
) -> Result<Option<Items<Weight>>, OutOfMemory>
    requires asked { IsBoxAsked program.now.problem (option_copied cutoff) fixed.now }
    requires room { workspace.old ≡ length (variables_of program.now.problem) }
    ensures same { workspace.new ≡ workspace.old }
    ensures tried { let stated = program_at program.now.problem (option_copied cutoff.entry) in
        IfOk result (IsRowTried stated fixed.now row) }
{
    match try_weight(alloc, program, cutoff, fixed, workspace, row, 1)? {
        Some(weights) => Ok(Some(weights)),
        None => try_weight(alloc, program, cutoff, fixed, workspace, row, -1),
    }
}

/// The first row that refutes the box by itself.
pub fn try_rows(
    alloc: Global,
    program: &MerlinProgram,
    cutoff: Option<&Value>,
    fixed: &Fixed,
    workspace: &mut Workspace,
) -> Result<Option<Items<Weight>>, OutOfMemory>
    requires asked { IsBoxAsked program.now.problem (option_copied cutoff) fixed.now }
    requires room { workspace.old ≡ length (variables_of program.now.problem) }
    ensures same { workspace.new ≡ workspace.old }
    ensures tried { let stated = program_at program.now.problem (option_copied cutoff.entry) in
        IfOk result (AreRowsTried stated fixed.now) }
{
    for row in 0..program.rows() {
        if let Some(weights) = try_row(alloc, program, cutoff, fixed, workspace, row)? {
            return Ok(Some(weights));
        }
    }
    Ok(None)
}
