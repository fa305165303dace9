//! What a search answers, by its best point and its last tree.

ghost use Rattle.std.specs.Prelude.{ℕ, ◌≡◌, Option, Bool, List};
ghost use Rattle.std.specs.Fn.{FnReturnsAt};
ghost use Rattle.merlin_model.specs.Trees.{nodes_of, has_open_end};
ghost use Rattle.bound_search.specs.Outcomes.{IsSearchOutcome};
ghost use Rattle.bound_search.specs.Descent.{IsBestSoFar, IsRootTree, cutoff_of_best};

use integer_program::{Fixed, Program};
use merlin_model::certificate::Tree;
use sqlite_items::Items;

/// What a search answers.
#[derive(Drop)]
pub enum Outcome<K> {
    /// A neat solution of least value, its value, and a tree that refutes the program at that value.
    Least {
        point: Items<bool>,
        cutoff: K,
        tree: Tree,
    },
    /// There is no solution: a tree that refutes the program without a cutoff.
    Infeasible {
        tree: Tree,
    },
    /// The nodes are spent: the best point found, if there is one, and the tree at its value with an open end.
    Budget {
        best: Option<Items<bool>>,
        tree: Tree,
    },
}

/// The best point so far, with its value.
#[derive(Drop)]
pub struct Best<K> {
    pub point: Items<bool>,
    pub cutoff: K,
}

/// The cutoff at which the next tree is grown: the value of the best point.
pub fn bound_of<K: Copy>(best: &Option<Best<K>>) -> Option<K>
    ensures { result ≡ cutoff_of_best best.now }
{
    match best {
        Some(best) => Some(best.cutoff),
        None => None,
    }
}

// Whether some end of a tree is open.
fn has_open(tree: &Tree) -> bool
    ensures { (box : List (Option Bool)) → result ≡ has_open_end (nodes_of tree.now box) }
{
    match tree {
        Tree::Leaf(_) => false,
        Tree::Split { zero, one, .. } => has_open(zero.get()) || has_open(one.get()),
        Tree::Unclosed => true,
    }
}

/// What a tree at the best cutoff shows.
pub fn outcome_of<P: Program, C: Fn(&Fixed) -> usize>(
    _program: &P,
    _chooser: &C,
    best: Option<Best<P::Cutoff>>,
    tree: Tree,
    _budget: usize,
) -> Outcome<P::Cutoff>
    requires best { let it = _program.now in
        IsBestSoFar P.Cutoff (P.instance it) (P.neat it) (P.takes it) (P.value it) best }
    requires tree { let at = cutoff_of_best best in
        let chose = λ (box : List (Option Bool)) (r : ℕ). FnReturnsAt C.Fn _chooser.now box r in
        IsRootTree (P.instance _program.now at) (P.easy _program.now at) chose _budget tree }
    ensures { let it = _program.now in
        let chose = λ (box : List (Option Bool)) (r : ℕ). FnReturnsAt C.Fn _chooser.now box r in
        let is = IsSearchOutcome P.Cutoff (P.instance it) (P.easy it) (P.neat it) in
        is (P.is_below it) (P.value it) chose _budget result }
{
    let open = has_open(&tree);
    merlin_model::laws::refuted_box_has_no_solution();
    match best {
        Some(best) => {
            if open {
                Outcome::Budget {
                    best: Some(best.point),
                    tree,
                }
            } else {
                Outcome::Least {
                    point: best.point,
                    cutoff: best.cutoff,
                    tree,
                }
            }
        }
        None => {
            if open {
                Outcome::Budget { best: None, tree }
            } else {
                Outcome::Infeasible { tree }
            }
        }
    }
}
