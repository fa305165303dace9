//! Certificates at smaller cutoffs.

ghost use Rattle.std.specs.Prelude.{◌≡◌, List, Option, Bool, true};
ghost use Rattle.merlin_model.specs.Programs.{Takes, is_lower};
ghost use Rattle.merlin_model.specs.Trees.{RefutesBox, Refutes, root_box};
ghost use Rattle.merlin_model.specs.declared.certificate.Weight.{Weight};
ghost use Rattle.merlin_model.specs.declared.certificate.Tree.{Tree};
ghost use Rattle.certificate.specs.Narrowed.{narrowed};

use integer_program::Program;

/// What refutes at a cutoff refutes at each smaller one: a leaf its box, and a tree the program once splits of variables that may
/// not be 1 there are replaced by their part `zero`. It does nothing.
pub fn smaller_cutoffs<P: Program>(_program: &P)
    ensures leaf { (low high : Option P.Cutoff) (box : List (Option Bool)) (weights : List Weight) →
        Takes (P.takes _program.now) low → Takes (P.takes _program.now) high →
        is_lower (P.is_below _program.now) low high ≡ true →
        RefutesBox (P.instance _program.now high) box weights →
        RefutesBox (P.instance _program.now low) box weights }
    ensures tree { (low high : Option P.Cutoff) (tree : Tree) →
        Takes (P.takes _program.now) low → Takes (P.takes _program.now) high →
        is_lower (P.is_below _program.now) low high ≡ true →
        Refutes (P.instance _program.now high) tree (root_box (P.instance _program.now high)) →
        let narrow = P.instance _program.now low in
        Refutes narrow (narrowed narrow tree) (root_box narrow) }
{}
