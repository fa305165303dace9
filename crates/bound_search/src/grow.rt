//! The tree over one box at one cutoff, grown depth-first: the half where the variable is 0 comes before the one where it is 1.

ghost use Rattle.std.specs.Prelude.{ℕ, ◌≡◌, ◌<◌, length, Option, Bool, IfOk, IsTrue, List};
ghost use Rattle.std.specs.Option.{option_copied};
ghost use Rattle.std.specs.Fn.{FnReturnsAt};
ghost use Rattle.merlin_model.specs.Programs.{Takes};
ghost use Rattle.merlin_model.specs.Trees.{HasOpen, IsOpen};
ghost use Rattle.merlin_model.specs.declared.certificate.Tree.{Split};
ghost use Rattle.bound_search.specs.Boxes.{AreBoxes, IsFree};
ghost use Rattle.bound_search.specs.Growing.{IsGrownOr};

use crate::boxes::{Boxes, fix_both};
use integer_program::{Fixed, Program, Relaxation, Verdict};
use merlin_model::OutOfMemory;
use merlin_model::certificate::Tree;
use sqlite_items::{Boxed, Items};
use std::alloc::Global;

/// A whole tree, or a point that ends the growing.
#[derive(Drop)]
pub enum Grown {
    Whole(Tree),
    Halted(Items<bool>),
}

// The variable at which a box is split: the one that the chooser answers at the shut box.
fn choose<P: Program, C: Fn(&Fixed) -> usize>(
    _program: &P,
    _cutoff: Option<&P::Cutoff>,
    chooser: &C,
    boxes: &Boxes,
) -> usize
    requires callable { C.IsAlwaysCallable chooser.now }
    requires chooses { (box : List (Option Bool)) (variable r : ℕ) → IsFree box variable →
        FnReturnsAt C.Fn chooser.now box r → IsFree box r }
    requires boxes { AreBoxes (P.instance _program.now (option_copied _cutoff)) boxes.now }
    requires has_open { HasOpen (P.instance _program.now (option_copied _cutoff)) boxes.now.plain }
    ensures chosen { FnReturnsAt C.Fn chooser.now boxes.now.shut result }
    ensures is_open { let stated = P.instance _program.now (option_copied _cutoff.entry) in
        IsOpen stated boxes.now.plain result }
    ensures plain { result < length boxes.now.plain }
    ensures shut { result < length boxes.now.shut }
{
    chooser(&boxes.shut)
}

// A split over two trees.
fn split(alloc: Global, variable: usize, zero: Tree, one: Tree) -> Result<Tree, OutOfMemory>
    ensures { IfOk result (λ tree. tree ≡ Split variable zero one) }
{
    Ok(Tree::Split {
        variable,
        zero: Boxed::new(alloc, zero)?,
        one: Boxed::new(alloc, one)?,
    })
}

/// Grows the tree of a box. The relaxation sees the plain box, and the chooser the one that is shut.
/// `left` counts the nodes that may still be made beside the one that each box has at least: a split takes two of them.
/// So it calls itself no deeper than half of what is left.
pub fn grow<P: Program, R: Relaxation<P>, C: Fn(&Fixed) -> usize>(
    alloc: Global,
    program: &P,
    relaxation: &mut R,
    chooser: &C,
    cutoff: Option<&P::Cutoff>,
    boxes: &mut Boxes,
    left: &mut usize,
) -> Result<Grown, OutOfMemory>
    requires of { IsTrue (R.is_of relaxation.old program.now) }
    requires takes { Takes (P.takes program.now) (option_copied cutoff) }
    requires callable { C.IsAlwaysCallable chooser.now }
    requires chooses { (box : List (Option Bool)) (variable r : ℕ) → IsFree box variable →
        FnReturnsAt C.Fn chooser.now box r → IsFree box r }
    requires boxes { AreBoxes (P.instance program.now (option_copied cutoff)) boxes.old }
    ensures of { IsTrue (R.is_of relaxation.new program.now) }
    ensures grown { let it = program.now in
        let at = option_copied cutoff.entry in
        let chose = λ (box : List (Option Bool)) (r : ℕ). FnReturnsAt C.Fn chooser.now box r in
        let lawful = IsGrownOr (P.instance it at) (P.easy it at) (P.neat it) chose in
        IfOk result (lawful boxes.old boxes.new left.old left.new) }
{
    match relaxation.look(alloc, program, cutoff, &boxes.plain)? {
        Verdict::Closed(weights) => Ok(Grown::Whole(Tree::Leaf(weights))),
        Verdict::Better(point) => Ok(Grown::Halted(point)),
        Verdict::Undecided => {
            if *left < 2 {
                return Ok(Grown::Whole(Tree::Unclosed));
            }
            *left -= 2;
            let variable = choose(program, cutoff, chooser, boxes);
            fix_both(boxes, variable, Some(false));
            let zero = match grow(alloc, program, relaxation, chooser, cutoff, boxes, left)? {
                Grown::Whole(tree) => tree,
                Grown::Halted(point) => return Ok(Grown::Halted(point)),
            };
            fix_both(boxes, variable, Some(true));
            let one = match grow(alloc, program, relaxation, chooser, cutoff, boxes, left)? {
                Grown::Whole(tree) => tree,
                Grown::Halted(point) => return Ok(Grown::Halted(point)),
            };
            fix_both(boxes, variable, None);
            Ok(Grown::Whole(split(alloc, variable, zero, one)?))
        }
    }
}
