//! The search as an object.

ghost use Rattle.std.specs.Prelude.{ℕ, ◌≡◌, ◌<◌, ◌≤◌, length, Option, Bool, IfOk, IsTrue, List, None};
ghost use Rattle.std.specs.Fn.{FnReturnsAt};
ghost use Rattle.merlin_model.specs.Programs.{variables};
ghost use Rattle.bound_search.specs.Boxes.{IsFree};
ghost use Rattle.bound_search.specs.Outcomes.{IsSearchOutcome};

use crate::boxes::root;
use crate::grow::{Grown, grow};
use crate::outcome::{Best, Outcome, bound_of, outcome_of};
use integer_program::{Fixed, Program, Relaxation};
use merlin_model::OutOfMemory;
use merlin_model::limits::MAX_NODES;
use std::alloc::Global;

// Grows a tree at each cutoff, until the one at the best value is whole or its nodes are spent. Each better point has fewer
// points below it, so that this ends.
fn descend<P: Program, R: Relaxation<P>, C: Fn(&Fixed) -> usize>(
    alloc: Global,
    program: &P,
    relaxation: &mut R,
    chooser: &C,
    budget: usize,
) -> Result<Outcome<P::Cutoff>, OutOfMemory>
    requires of { IsTrue (R.is_of relaxation.old program.now) }
    requires taken { (point : List Bool) → length point ≡ variables (P.instance program.now None) →
        IsTrue (P.takes program.now (P.value program.now point)) }
    requires callable { C.IsAlwaysCallable chooser.now }
    requires chooses { (box : List (Option Bool)) (variable r : ℕ) → IsFree box variable →
        FnReturnsAt C.Fn chooser.now box r → IsFree box r }
    requires budget { 0 < budget }
    ensures of { IsTrue (R.is_of relaxation.new program.now) }
    ensures outcome { let it = program.now in
        let chose = λ (box : List (Option Bool)) (r : ℕ). FnReturnsAt C.Fn chooser.now box r in
        let is = IsSearchOutcome P.Cutoff (P.instance it) (P.easy it) (P.neat it) in
        IfOk result (is (P.is_below it) (P.value it) chose budget) }
{
    let mut best: Option<Best<P::Cutoff>> = None;
    loop {
        let cutoff = bound_of(&best);
        let mut boxes = root(alloc, program, cutoff.as_ref())?;
        let mut left = budget - 1;
        match grow(
            alloc,
            program,
            relaxation,
            chooser,
            cutoff.as_ref(),
            &mut boxes,
            &mut left,
        )? {
            Grown::Halted(point) => {
                let cutoff = program.cutoff_of(point.as_slice());
                best = Some(Best { point, cutoff });
            }
            Grown::Whole(tree) => return Ok(outcome_of(program, chooser, best, tree, budget)),
        }
    }
}

/// A program with a relaxation of it and a chooser of the variable at which a box is split.
#[derive(Drop)]
pub struct Search<P: Program, R: Relaxation<P>, C: Fn(&Fixed) -> usize> {
    program: P,
    relaxation: R,
    chooser: C,
    ghost taken: { (point : List Bool) → length point ≡ variables (P.instance program None) →
        IsTrue (P.takes program (P.value program point)) },
    ghost of: { IsTrue (R.is_of relaxation program) },
}

impl<P: Program, R: Relaxation<P>, C: Fn(&Fixed) -> usize> Search<P, R, C> {
    /// A search over a program that takes some cutoff. What a chooser must answer is asked where it runs.
    pub fn new(program: P, relaxation: R, chooser: C) -> Search<P, R, C>
        requires taken { (z : P.Cutoff) × IsTrue (P.takes program z) }
        requires of { IsTrue (R.is_of relaxation program) }
        ensures program { result.program ≡ program }
        ensures chooser { result.chooser ≡ chooser }
    {
        Search {
            program,
            relaxation,
            chooser,
        }
    }

    /// The program that was handed in.
    pub fn program(&self) -> &P
        ensures { result.now ≡ self.now.program }
    {
        &self.program
    }

    /// A least point, that there is none, or that a tree of so many nodes decides neither. The chooser answers a free variable
    /// of each box that has one; it is asked for each split, at the box in which the variables that may not be 1 are fixed to 0.
    /// Without memory it may be called again.
    pub fn run(&mut self, alloc: Global, budget: usize) -> Result<Outcome<P::Cutoff>, OutOfMemory>
        requires some { 0 < budget }
        requires most { budget ≤ MAX_NODES }
        requires callable { C.IsAlwaysCallable self.old.chooser }
        requires chooses { (box : List (Option Bool)) (variable r : ℕ) → IsFree box variable →
            FnReturnsAt C.Fn self.old.chooser box r → IsFree box r }
        ensures program { self.new.program ≡ self.old.program }
        ensures chooser { self.new.chooser ≡ self.old.chooser }
        ensures outcome { let it = self.old.program in
            let chose = λ (box : List (Option Bool)) (r : ℕ).
            FnReturnsAt C.Fn self.old.chooser box r in
            let is = IsSearchOutcome P.Cutoff (P.instance it) (P.easy it) (P.neat it) in
            IfOk result (is (P.is_below it) (P.value it) chose budget) }
    {
        descend(
            alloc,
            &self.program,
            &mut self.relaxation,
            &self.chooser,
            budget,
        )
    }
}
