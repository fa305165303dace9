//! Relaxations: what is found of a box without splitting it.

ghost use Rattle.std.specs.Prelude.{ℕ, ◌≡◌, Option, Bool, List, IfOk, IsTrue};
ghost use Rattle.std.specs.Option.{option_copied};
ghost use Rattle.merlin_model.specs.Programs.{Takes};
ghost use Rattle.merlin_model.specs.Trees.{IsBox};
ghost use Rattle.integer_program.specs.Verdicts.{IsLawful};

use crate::fixed::Fixed;
use crate::program::Program;
use merlin_model::OutOfMemory;
use merlin_model::certificate::Weight;
use sqlite_items::Items;
use std::alloc::Global;

/// What a relaxation finds of a box: weights that refute it, a neat solution, which need not lie in the box, or neither.
#[derive(Drop)]
pub enum Verdict {
    Closed(Items<Weight>),
    Better(Items<bool>),
    Undecided,
}

/// A relaxation of programs. It decides each box that is easy or has no open variable.
pub trait Relaxation<P: Program> {
    /// Whether it is one of a program.
    ghost is_of: { Self → P → Bool };

    /// What it finds of a box that fixes to 1 only what may be 1. It stays one of the program, without memory too.
    fn look(
        &mut self,
        alloc: Global,
        program: &P,
        cutoff: Option<&P::Cutoff>,
        fixed: &Fixed,
    ) -> Result<Verdict, OutOfMemory>
        requires of { IsTrue (is_of self.old program.now) }
        requires takes { Takes (P.takes program.now) (option_copied cutoff) }
        requires in_box { IsBox (P.instance program.now (option_copied cutoff)) fixed.now }
        ensures of { IsTrue (is_of self.new program.now) }
        ensures lawful { let at = option_copied cutoff.entry in
            let stated = P.instance program.now at in
            IfOk result (IsLawful stated (P.easy program.now at) (P.neat program.now) fixed.now) };
}
