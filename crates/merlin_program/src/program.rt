//! The program of a problem.

ghost use Rattle.std.specs.Prelude.{ℕ, ◌≡◌, ◌≤◌, ◌<◌, ◌^◌, length, None, IfOk};
ghost use Rattle.std.specs.List.{AllByRecursion};
ghost use Rattle.std.proofs.Props.{props};
ghost use Rattle.cutoff_program.specs.Flows.{variables_of, cost_of_variable, program_at, takes, is_below, cutoff_of};
ghost use Rattle.cutoff_program.specs.Easy.{IsEasy};
ghost use Rattle.cutoff_program.specs.Limits.{IsProblem};
ghost use Rattle.cutoff_program.specs.Trails.{IsNeat};
ghost use Rattle.cutoff_program.proofs.Forms.{is_program};
ghost use Rattle.cutoff_program.proofs.Cutoffs.{has_cutoffs};
ghost use Rattle.program_walks.specs.Solutions.{IsPointOfWalks, AreWalksOfPoint};
ghost use Rattle.program_walks.specs.Loads.{AreSimpleWalks, IsValueOfWalks};
ghost use Rattle.program_walks.specs.Bounds.{IsSeparateBound};
ghost use Rattle.merlin_program.specs.Kept.{kept, variable_at};

use crate::loads::value_of;
use crate::reading::{entries_at, flow_rows, right_at, upper_at};
use crate::rooms::is_less;
use crate::rows::{Rows, all_rows, all_variables};
use cutoff_program::flow::{Problem, Variable};
use integer_program::Program;
use merlin_model::OutOfMemory;
use merlin_model::policy::{Symbol, Value};
use program_walks::{cost, point_of_walks, separate_bound, value_of_walks, walks_of_point};
use sqlite_items::Items;
use std::alloc::Global;

/// The program whose solutions are assignments that are better than a cutoff.
#[derive(Drop)]
pub struct MerlinProgram {
    problem: Problem,
    // flow by flow the symbols of the vertices
    symbols: Items<Items<Symbol>>,
    variables: Items<Variable>,
    rows: Rows,
    ghost symbols_are: { length symbols ≡ length problem.flows },
    ghost is: { IsProblem problem } by { Prim.hlevel props },
    ghost variables_are: { variables ≡ variables_of problem },
    ghost rows_are: { rows ≡ kept (program_at problem None).rows },
}

/// The program of a problem: rows of the flows, of the directed links, and the cutoff row.
/// With it stand, flow by flow, the symbols of the vertices.
pub fn program_of(
    alloc: Global,
    problem: Problem,
    symbols: Items<Items<Symbol>>,
) -> Result<MerlinProgram, OutOfMemory>
    requires is { IsProblem problem }
    requires symbols { length symbols ≡ length problem.flows }
    ensures problem { IfOk result (λ program. program.problem ≡ problem) }
    ensures symbols { IfOk result (λ program. program.symbols ≡ symbols) }
{
    cutoff_program::laws::variables_are_small();
    let variables = all_variables(alloc, &problem)?;
    let rows = all_rows(alloc, &problem, variables.as_slice())?;
    Ok(MerlinProgram {
        problem,
        symbols,
        variables,
        rows,
    })
}

impl MerlinProgram {
    /// The flows and links whose program it is.
    pub fn problem(&self) -> &Problem
        ensures { result.now ≡ self.now.problem }
    {
        &self.problem
    }

    /// Its variables: the edges of all flows, in the order of their numbers.
    pub fn edges(&self) -> &[Variable]
        ensures { result.now ≡ variables_of self.now.problem }
    {
        self.variables.as_slice()
    }

    /// What a variable costs, whatever the objective: its rate as often as the weight of the link that it crosses says, else 0.
    pub fn cost(&self, variable: usize) -> u64
        requires { variable < length (variables_of self.now.problem) }
        ensures { result ≡
            cost_of_variable self.now.problem (variable_at self.now.problem variable) }
    {
        cutoff_program::laws::variables_are_small();
        cost(&self.problem, &self.variables.as_slice()[variable])
    }

    /// The point of walks, one for each guaranteed statement. Of what a walk takes it has a path without a repeated vertex, so that
    /// where the walks are allowed and feasible it is a solution at each cutoff that their value is below.
    pub fn solution_of(
        &self,
        alloc: Global,
        walks: &[Items<Symbol>],
    ) -> Result<Items<bool>, OutOfMemory>
        requires { length walks.now ≡ length self.now.problem.flows }
        ensures { IfOk result (IsPointOfWalks self.now.problem self.now.symbols walks.now) }
    {
        let variables = self.variables.as_slice();
        point_of_walks(
            alloc,
            &self.problem,
            self.symbols.as_slice(),
            variables,
            walks,
        )
    }

    /// The value of walks that are allowed and simple, one for each guaranteed statement.
    pub fn value(&self, walks: &[Items<Symbol>]) -> Value
        requires { AreSimpleWalks self.now.problem self.now.symbols walks.now }
        ensures { IsValueOfWalks self.now.problem self.now.symbols walks.now result }
    {
        value_of_walks(&self.problem, self.symbols.as_slice(), walks)
    }

    /// The walks of a point, one for each guaranteed statement. Those of a solution are allowed, simple and feasible, and their value
    /// is at most its own.
    pub fn assignment_of(
        &self,
        alloc: Global,
        point: &[bool],
    ) -> Result<Items<Items<Symbol>>, OutOfMemory>
        requires { length point.now ≡ length (variables_of self.now.problem) }
        ensures { IfOk result (AreWalksOfPoint self.now.problem self.now.symbols point.now) }
    {
        let variables = self.variables.as_slice();
        walks_of_point(
            alloc,
            &self.problem,
            self.symbols.as_slice(),
            variables,
            point,
        )
    }

    /// A value that no feasible assignment is below, from the paths of each guaranteed statement by itself, without a cutoff: for the
    /// shortest walks the sum of their least costs, for the others the greatest of their least shares. Without a statement it is the
    /// value of no walks. None exactly where some statement has no path.
    pub fn separate_bound(&self, alloc: Global) -> Result<Option<Value>, OutOfMemory>
        ensures { IfOk result (IsSeparateBound self.now.problem) }
    {
        separate_bound(alloc, &self.problem, self.variables.as_slice())
    }
}

impl Program for MerlinProgram {
    type Cutoff = Value;

    ghost instance = { λ it cutoff. program_at it.problem cutoff };

    ghost takes = { λ it z. takes it.problem.objective z };

    ghost easy = { λ it cutoff box. IsEasy it.problem cutoff box };

    ghost neat = { λ it point. IsNeat it.problem point };

    ghost value = { λ it point. cutoff_of it.problem point };

    ghost is_below = { λ it a b. is_below a b };

    fn variables(&self) -> usize {
        self.variables.len()
    }

    fn rows(&self) -> usize {
        self.rows.ends.len()
    }

    fn entries(&self, row: usize) -> &[(usize, i64)] {
        entries_at(&self.problem, &self.rows, row)
    }

    fn is_equality(&self, row: usize) -> bool {
        row < flow_rows(&self.problem, &self.rows)
    }

    fn right(&self, row: usize, cutoff: Option<&Value>) -> i64 {
        right_at(&self.problem, &self.rows, cutoff, row)
    }

    fn upper(&self, variable: usize, cutoff: Option<&Value>) -> bool {
        cutoff_program::laws::variables_are_small();
        upper_at(&self.problem, cutoff, &self.variables.as_slice()[variable])
    }

    fn cutoff_of(&self, point: &[bool]) -> Value {
        value_of(&self.problem, self.variables.as_slice(), point)
    }

    fn below(&self, a: &Value, b: &Value) -> bool {
        is_less(a, b)
    }

    ghost is_program = { λ it cutoff coefficient_if. is_program it.problem cutoff it.is };

    ghost cutoffs = { λ it. has_cutoffs it.problem it.is };
}
