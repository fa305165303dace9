//! The search over the program of guaranteed statements.

ghost use Rattle.std.specs.Prelude.{◌<◌, ◌≤◌, IfOk};
ghost use Rattle.walk_search.specs.Found.{IsFoundOf};

use crate::found::{WalksFound, found_of};
use bound_search::Search;
use integer_program::Fixed;
use merlin_model::OutOfMemory;
use merlin_model::limits::MAX_NODES;
use merlin_program::MerlinProgram;
use std::alloc::Global;

/// What a search with at most so many nodes finds of the program.
pub fn search_of(
    alloc: Global,
    program: MerlinProgram,
    budget: usize,
) -> Result<WalksFound, OutOfMemory>
    requires some { 0 < budget }
    requires most { budget ≤ MAX_NODES }
    ensures { IfOk result (IsFoundOf program.problem program.symbols budget) }
{
    let prices = price_bound::new(alloc, &program)?;
    let choice = walk_choice::new(alloc, &program)?;
    let mut search = Search::new(program, prices, |fixed: &Fixed| choice.choose(alloc, fixed));
    let outcome = search.run(alloc, budget)?;
    found_of(alloc, search.program(), outcome)
}
