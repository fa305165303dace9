//! Links that need not be tried: what the paths of least cost put there, with what is fixed, fits.

ghost use Rattle.std.specs.Prelude.{ℕ, ◌≡◌, ◌≤◌, ◌<◌, ◌+◌, ◌*◌, ◌^◌, ◌↔◌, ◌≤ℤ◌, pos, length, replicate, slice_index_or, IfOk, IsTrue};
ghost use Rattle.std.specs.Option.{option_copied};
ghost use Rattle.merlin_model.specs.Programs.{Takes};
ghost use Rattle.cutoff_program.specs.Flows.{variables_of, rate_over, room, takes};
ghost use Rattle.merlin_program.specs.Kept.{variable_at};
ghost use Rattle.price_candidates.specs.Leaves.{capacity_at};
ghost use Rattle.price_bound.specs.Loads.{is_loaded, AreLoads};

use integer_program::{Fixed, Program};
use merlin_model::OutOfMemory;
use merlin_model::policy::Value;
use merlin_program::MerlinProgram;
use sqlite_items::Items;
use std::alloc::Global;

// Whether a point chooses a variable, or a box fixes it to 1.
fn is_loaded(point: &[bool], fixed: &Fixed, variable: usize) -> bool
    requires point { variable < length point.now }
    requires fixed { variable < length fixed.now }
    ensures { result ≡ is_loaded point.now fixed.now variable }
{
    match fixed.get(variable) {
        Some(true) => true,
        _ => point[variable],
    }
}

// Adds the rate of a variable to the load of the link that it crosses.
fn add_load(loads: &mut Items<u64>, program: &MerlinProgram, variable: usize)
    requires in_range { variable < length (variables_of program.now.problem) }
    requires size { length loads.old ≡ length program.now.problem.links }
    requires small { (link : ℕ) → slice_index_or loads.old link 0 < 2 ^ 62 }
    ensures size { length loads.new ≡ length loads.old }
    ensures each { let v = variable_at program.now.problem variable in
        (link : ℕ) → link < length loads.old →
        slice_index_or loads.new link 0 ≡ slice_index_or loads.old link 0 + rate_over link v }
{
    cutoff_program::laws::variables_are_small();
    let edge = &program.edges()[variable];
    if let Some(link) = edge.edge.crosses {
        let load = loads.as_slice()[link] + edge.rate;
        loads.set(link, load);
    }
}

// No load on so many links.
fn no_loads(alloc: Global, links: usize) -> Result<Items<u64>, OutOfMemory>
    ensures { IfOk result (λ loads. loads ≡ replicate links 0) }
{
    Ok(Items::from_vec(vec![in alloc; 0; links]?))
}

/// What a point and a box put on each link.
pub fn loads_of(
    alloc: Global,
    program: &MerlinProgram,
    fixed: &Fixed,
    point: &[bool],
) -> Result<Items<u64>, OutOfMemory>
    requires fixed { length fixed.now ≡ length (variables_of program.now.problem) }
    requires point { length point.now ≡ length (variables_of program.now.problem) }
    ensures loads { IfOk result (AreLoads program.now.problem point.now fixed.now) }
    ensures small { IfOk result (λ loads. (link : ℕ) → slice_index_or loads link 0 < 2 ^ 62) }
{
    let mut loads = no_loads(alloc, program.problem().links.len())?;
    for variable in 0..program.variables() {
        if is_loaded(point, fixed, variable) {
            add_load(&mut loads, program, variable);
        }
    }
    Ok(loads)
}

// What a cutoff leaves of the capacity of a link.
fn room_on(program: &MerlinProgram, cutoff: Option<&Value>, link: usize) -> i64
    requires takes { Takes (takes program.now.problem.objective) (option_copied cutoff) }
    requires in_range { link < length program.now.problem.links }
    ensures { let problem = program.now.problem in
        result ≡ room problem.objective (option_copied cutoff.entry) (capacity_at problem link) }
{
    let flow_rows = program.rows() - 1 - program.problem().links.len();
    program.right(flow_rows + link, cutoff)
}

// Whether a load is at most a right side.
fn is_at_most(load: u64, right: i64) -> bool
    requires { load < 2 ^ 62 }
    ensures { IsTrue result ↔ (pos load ≤ℤ right) }
{
    load as i64 <= right
}

/// Whether a load fits on a link at a cutoff.
pub fn fits(program: &MerlinProgram, cutoff: Option<&Value>, link: usize, load: u64) -> bool
    requires takes { Takes (takes program.now.problem.objective) (option_copied cutoff) }
    requires in_range { link < length program.now.problem.links }
    requires small { load < 2 ^ 62 }
    ensures { let problem = program.now.problem in
        let most = room problem.objective (option_copied cutoff.entry) (capacity_at problem link) in
        IsTrue result ↔ (pos load ≤ℤ most) }
{
    is_at_most(load, room_on(program, cutoff, link))
}
