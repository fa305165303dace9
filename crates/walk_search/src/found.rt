//! What is found for guaranteed statements, from what a search answers.

ghost use Rattle.std.specs.Prelude.{ℕ, ◌≡◌, ◌<◌, length, List, Option, None, Some, IfOk};
ghost use Rattle.cutoff_program.specs.Flows.{cutoff_of, variables_of};
ghost use Rattle.program_walks.specs.Bounds.{IsSeparateBound, HasFlowWithoutTrail};
ghost use Rattle.walk_search.specs.Found.{IsFoundOf};
ghost use Rattle.walk_search.specs.Searched.{IsNeatSolution, IsLeastSolution, IsStoppedAt, IsOutcomeOf, AreWalksIf};

use bound_search::Outcome;
use integer_program::Program;
use merlin_model::OutOfMemory;
use merlin_model::certificate::Tree;
use merlin_model::policy::{Symbol, Value};
use merlin_program::MerlinProgram;
use sqlite_items::Items;
use std::alloc::Global;

/// What is found for guaranteed statements.
#[derive(Drop)]
pub enum WalksFound {
    /// Walks of least value, one for each guaranteed statement, their value, and a tree that refutes the program at it.
    Least {
        value: Value,
        walks: Items<Items<Symbol>>,
        tree: Tree,
    },
    /// No assignment is feasible: a tree that refutes the program without a cutoff.
    Infeasible {
        tree: Tree,
    },
    /// The nodes are spent: the best walks with their value, if any were found, a value that no feasible assignment is below, and the
    /// tree at the best value with an open end.
    Budget {
        best: Option<(Value, Items<Items<Symbol>>)>,
        bound: Value,
        tree: Tree,
    },
}

// The walks of a point that is least.
fn least_of(
    alloc: Global,
    program: &MerlinProgram,
    point: Items<bool>,
    value: Value,
    tree: Tree,
) -> Result<WalksFound, OutOfMemory>
    requires { length point ≡ length (variables_of program.now.problem) }
    ensures { (budget : ℕ) → IsLeastSolution program.now.problem budget point value tree →
        IfOk result (IsFoundOf program.now.problem program.now.symbols budget) }
{
    let _variables = program.edges();
    let walks = program.assignment_of(alloc, point.as_slice())?;
    Ok(WalksFound::Least { value, walks, tree })
}

// The bound that takes each statement by itself, where each has a path.
fn bound_of(alloc: Global, program: &MerlinProgram) -> Result<Value, OutOfMemory>
    requires { ¬ HasFlowWithoutTrail program.now.problem }
    ensures { IfOk result (λ bound. IsSeparateBound program.now.problem (Some bound)) }
{
    match program.separate_bound(alloc)? {
        Some(bound) => Ok(bound),
        None => unreachable!(),
    }
}

// The walks of the best point with its value.
fn best_of(
    alloc: Global,
    program: &MerlinProgram,
    best: Option<Items<bool>>,
) -> Result<Option<(Value, Items<Items<Symbol>>)>, OutOfMemory>
    requires { (point : List _) → best ≡ Some point → IsNeatSolution program.now.problem point }
    ensures { IfOk result (AreWalksIf program.now.problem program.now.symbols best) }
{
    match best {
        None => Ok(None),
        Some(point) => {
            let value = program.cutoff_of(point.as_slice());
            let walks = program.assignment_of(alloc, point.as_slice())?;
            Ok(Some((value, walks)))
        }
    }
}

// What a search leaves whose nodes are spent.
fn spent_of(
    alloc: Global,
    program: &MerlinProgram,
    best: Option<Items<bool>>,
    tree: Tree,
) -> Result<WalksFound, OutOfMemory>
    requires { (budget : ℕ) × IsStoppedAt program.now.problem budget tree best }
    ensures { (budget : ℕ) → IsStoppedAt program.now.problem budget tree best →
        IfOk result (IsFoundOf program.now.problem program.now.symbols budget) }
{
    let bound = bound_of(alloc, program)?;
    let best = best_of(alloc, program, best)?;
    Ok(WalksFound::Budget { best, bound, tree })
}

/// What is found by what a search answered.
pub fn found_of(
    alloc: Global,
    program: &MerlinProgram,
    outcome: Outcome<Value>,
) -> Result<WalksFound, OutOfMemory>
    requires { (budget : ℕ) × IsOutcomeOf program.now.problem budget outcome }
    ensures { (budget : ℕ) → IsOutcomeOf program.now.problem budget outcome →
        IfOk result (IsFoundOf program.now.problem program.now.symbols budget) }
{
    match outcome {
        Outcome::Least {
            point,
            cutoff,
            tree,
        } => least_of(alloc, program, point, cutoff, tree),
        Outcome::Infeasible { tree } => Ok(WalksFound::Infeasible { tree }),
        Outcome::Budget { best, tree } => spent_of(alloc, program, best, tree),
    }
}
