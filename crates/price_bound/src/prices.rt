//! The look at a box: what is tried of it, one after the other. By linear programming duality prices on the rows of links turn the
//! program into one search for least paths for each flow, whose distances are the weights of the flow's rows.

ghost use Rattle.std.specs.Prelude.{ℕ, ◌≡◌, ◌==◌, ◌<◌, length, None, false, IfOk, IfSome, IsTrue};
ghost use Rattle.std.specs.Option.{option_copied};
ghost use Rattle.merlin_model.specs.Trees.{IsOpen, HasOpen};
ghost use Rattle.cutoff_program.specs.Flows.{variables_of, program_at};
ghost use Rattle.price_bound.specs.Asked.{IsBoxAsked, IsLawfulAt};
ghost use Rattle.price_bound.specs.Loads.{IsOfPaths};
ghost use Rattle.price_bound.specs.Numbers.{AreCosts, AreLinksTried, ArePricesTried, DoNotRefute, IsCutAt};

use crate::costs::{Costs, CostsFound, find};
use crate::leaf::{Priced, leaf};
use crate::trials::{TestedCandidate, by_trials};
use crate::tried::{try_lengths, try_links, try_rows};
use certificate::Workspace;
use integer_program::{Fixed, Program, Relaxation, Verdict, is_open, is_solution};
use link_prices::LinkPrices;
use merlin_model::OutOfMemory;
use merlin_model::certificate::Weight;
use merlin_model::policy::Value;
use merlin_program::MerlinProgram;
use sqlite_items::Items;
use std::alloc::Global;

// Whether a box has an open variable.
fn has_open(program: &MerlinProgram, cutoff: Option<&Value>, fixed: &Fixed) -> bool
    requires { IsBoxAsked program.now.problem (option_copied cutoff) fixed.now }
    ensures some { let stated = program_at program.now.problem (option_copied cutoff.entry) in
        IsTrue result → HasOpen stated fixed.now }
    ensures none { let stated = program_at program.now.problem (option_copied cutoff.entry) in
        result ≡ false → (k : ℕ) → ¬ IsOpen stated fixed.now k }
{
    for variable in 0..program.variables() {
        if is_open(program, cutoff, fixed, variable) {
            return true;
        }
    }
    false
}

// What the point of least paths and single rows decide, where neither their costs nor a link refutes.
fn by_point(
    alloc: Global,
    program: &MerlinProgram,
    cutoff: Option<&Value>,
    fixed: &Fixed,
    workspace: &mut Workspace,
    point: Items<bool>,
) -> Result<Verdict, OutOfMemory>
    requires asked { IsBoxAsked program.now.problem (option_copied cutoff) fixed.now }
    requires room { workspace.old ≡ length (variables_of program.now.problem) }
    requires tried { ArePricesTried program.now.problem (option_copied cutoff) fixed.now point }
    ensures same { workspace.new ≡ workspace.old }
    ensures lawful { let problem = program.now.problem in
        let at = option_copied cutoff.entry in
        IfOk result (IsLawfulAt problem at fixed.now) }
{
    price_candidates::candidates::easy_boxes_are_decided();
    price_candidates::candidates::closed_boxes_are_decided();
    price_candidates::candidates::tried_points_are_neat();
    if is_solution(program, cutoff, point.as_slice()) {
        return Ok(Verdict::Better(point));
    }
    if has_open(program, cutoff, fixed) {
        return Ok(Verdict::Undecided);
    }
    match try_rows(alloc, program, cutoff, fixed, workspace)? {
        Some(weights) => Ok(Verdict::Closed(weights)),
        None => Ok(Verdict::Better(point)),
    }
}

// What is tried of links: those are looked at on which other paths put too much, or the paths of least cost where there are no others.
fn try_crowded(
    alloc: Global,
    program: &MerlinProgram,
    cutoff: Option<&Value>,
    fixed: &Fixed,
    workspace: &mut Workspace,
    point: &[bool],
    others: &Option<Items<bool>>,
) -> Result<Option<Items<Weight>>, OutOfMemory>
    requires asked { IsBoxAsked program.now.problem (option_copied cutoff) fixed.now }
    requires room { workspace.old ≡ length (variables_of program.now.problem) }
    requires paths { IsOfPaths program.now.problem (option_copied cutoff) fixed.now point.now }
    requires others { let at = option_copied cutoff in
        IfSome others.now (IsOfPaths program.now.problem at fixed.now) }
    ensures same { workspace.new ≡ workspace.old }
    ensures tried { let at = option_copied cutoff.entry in
        IfOk result (AreLinksTried program.now.problem at fixed.now) }
{
    match others {
        Some(others) => try_links(alloc, program, cutoff, fixed, workspace, others.as_slice()),
        None => try_links(alloc, program, cutoff, fixed, workspace, point),
    }
}

// What links decide, where neither the costs refute nor a candidate serves.
fn by_links(
    alloc: Global,
    program: &MerlinProgram,
    cutoff: Option<&Value>,
    fixed: &Fixed,
    workspace: &mut Workspace,
    costs: Costs,
    others: Option<Items<bool>>,
) -> Result<Verdict, OutOfMemory>
    requires asked { IsBoxAsked program.now.problem (option_copied cutoff) fixed.now }
    requires room { workspace.old ≡ length (variables_of program.now.problem) }
    requires costs { let count = length program.now.problem.flows in
        AreCosts program.now.problem (option_copied cutoff) fixed.now count costs }
    requires lengths { let at = option_copied cutoff in
        DoNotRefute program.now.problem at fixed.now costs.numbers }
    requires others { let at = option_copied cutoff in
        IfSome others (IsOfPaths program.now.problem at fixed.now) }
    ensures same { workspace.new ≡ workspace.old }
    ensures lawful { let problem = program.now.problem in
        let at = option_copied cutoff.entry in
        IfOk result (IsLawfulAt problem at fixed.now) }
{
    let point = costs.point.as_slice();
    match try_crowded(alloc, program, cutoff, fixed, workspace, point, &others)? {
        Some(weights) => Ok(Verdict::Closed(weights)),
        None => by_point(alloc, program, cutoff, fixed, workspace, costs.point),
    }
}

// What candidates and then links decide, where the costs do not refute.
fn by_candidates(
    alloc: Global,
    program: &MerlinProgram,
    cutoff: Option<&Value>,
    fixed: &Fixed,
    workspace: &mut Workspace,
    prices: &mut LinkPrices,
    costs: Costs,
) -> Result<Verdict, OutOfMemory>
    requires asked { IsBoxAsked program.now.problem (option_copied cutoff) fixed.now }
    requires room { workspace.old ≡ length (variables_of program.now.problem) }
    requires costs { let count = length program.now.problem.flows in
        AreCosts program.now.problem (option_copied cutoff) fixed.now count costs }
    requires lengths { let at = option_copied cutoff in
        DoNotRefute program.now.problem at fixed.now costs.numbers }
    ensures same { workspace.new ≡ workspace.old }
    ensures lawful { let problem = program.now.problem in
        let at = option_copied cutoff.entry in
        IfOk result (IsLawfulAt problem at fixed.now) }
{
    price_candidates::candidates::tried_points_are_neat();
    if is_solution(program, cutoff, costs.point.as_slice()) {
        return Ok(Verdict::Better(costs.point));
    }
    match by_trials(alloc, program, cutoff, fixed, workspace, prices)? {
        TestedCandidate::Refuting(weights) => Ok(Verdict::Closed(weights)),
        TestedCandidate::Better(point) => Ok(Verdict::Better(point)),
        TestedCandidate::Others(others) => {
            by_links(
                alloc,
                program,
                cutoff,
                fixed,
                workspace,
                costs,
                Some(others),
            )
        }
        TestedCandidate::Nothing => by_links(alloc, program, cutoff, fixed, workspace, costs, None),
    }
}

// What paths of least cost and links decide.
fn by_costs(
    alloc: Global,
    program: &MerlinProgram,
    cutoff: Option<&Value>,
    fixed: &Fixed,
    workspace: &mut Workspace,
    prices: &mut LinkPrices,
    costs: Costs,
) -> Result<Verdict, OutOfMemory>
    requires asked { IsBoxAsked program.now.problem (option_copied cutoff) fixed.now }
    requires room { workspace.old ≡ length (variables_of program.now.problem) }
    requires costs { let count = length program.now.problem.flows in
        AreCosts program.now.problem (option_copied cutoff) fixed.now count costs }
    ensures same { workspace.new ≡ workspace.old }
    ensures lawful { let problem = program.now.problem in
        let at = option_copied cutoff.entry in
        IfOk result (IsLawfulAt problem at fixed.now) }
{
    match try_lengths(
        alloc,
        program,
        cutoff,
        fixed,
        workspace,
        costs.numbers.as_slice(),
    )? {
        Some(weights) => Ok(Verdict::Closed(weights)),
        None => by_candidates(alloc, program, cutoff, fixed, workspace, prices, costs),
    }
}

// The leaf of a flow that has no path.
fn closed_by_cut(
    alloc: Global,
    program: &MerlinProgram,
    cutoff: Option<&Value>,
    fixed: &Fixed,
    numbers: Items<u64>,
) -> Result<Verdict, OutOfMemory>
    requires asked { IsBoxAsked program.now.problem (option_copied cutoff) fixed.now }
    requires cut { IsCutAt program.now.problem (option_copied cutoff) fixed.now numbers }
    ensures { let problem = program.now.problem in
        let at = option_copied cutoff.entry in
        IfOk result (IsLawfulAt problem at fixed.now) }
{
    price_candidates::candidates::unreached_flows_refute();
    let links = program.problem().links.len();
    let weights = leaf(alloc, numbers.as_slice(), links, Priced::Nothing)?;
    Ok(Verdict::Closed(weights))
}

// What is found of a box.
fn look_at(
    alloc: Global,
    program: &MerlinProgram,
    cutoff: Option<&Value>,
    fixed: &Fixed,
    workspace: &mut Workspace,
    prices: &mut LinkPrices,
) -> Result<Verdict, OutOfMemory>
    requires asked { IsBoxAsked program.now.problem (option_copied cutoff) fixed.now }
    requires room { workspace.old ≡ length (variables_of program.now.problem) }
    ensures same { workspace.new ≡ workspace.old }
    ensures lawful { let problem = program.now.problem in
        let at = option_copied cutoff.entry in
        IfOk result (IsLawfulAt problem at fixed.now) }
{
    match find(alloc, program, cutoff, fixed)? {
        CostsFound::Cut(numbers) => closed_by_cut(alloc, program, cutoff, fixed, numbers),
        CostsFound::Paths(costs) => by_costs(
            alloc, program, cutoff, fixed, workspace, prices, costs,
        ),
    }
}

/// Prices on links and shortest walks, with the room in which leaves are tested and the last prices.
#[derive(Drop)]
pub struct Prices {
    workspace: Workspace,
    prices: LinkPrices,
}

impl Relaxation<MerlinProgram> for Prices {
    ghost is_of = { λ prices program.
        prices.workspace == length (variables_of program.problem) };

    fn look(
        &mut self,
        alloc: Global,
        program: &MerlinProgram,
        cutoff: Option<&Value>,
        fixed: &Fixed,
    ) -> Result<Verdict, OutOfMemory> {
        look_at(
            alloc,
            program,
            cutoff,
            fixed,
            &mut self.workspace,
            &mut self.prices,
        )
    }
}

/// Prices for a program, with room for the sums of its rows.
pub fn new(alloc: Global, program: &MerlinProgram) -> Result<Prices, OutOfMemory>
    ensures { let is_of = ⟦<Prices as Relaxation<MerlinProgram>>⟧.is_of in
        IfOk result (λ prices. IsTrue (is_of prices program.now)) }
{
    let workspace = Workspace::new(alloc, program.variables())?;
    let prices = link_prices::new(alloc, program)?;
    Ok(Prices { workspace, prices })
}
