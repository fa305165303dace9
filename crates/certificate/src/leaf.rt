//! Whether a leaf refutes a box: the least value over the box of the weighted sum of left sides is above that of right sides
//! (a linear combination of rows that no point meets, as in Farkas' lemma). Sums are kept by variable, one row after the other.

ghost use Rattle.std.specs.Prelude.{ℕ, ◌≡◌, ◌≤◌, ◌<◌, ◌↔◌, ℤ, nat_abs, length, IsTrue, None, IfOk};
ghost use Rattle.std.specs.Option.{option_copied};
ghost use Rattle.merlin_model.specs.Programs.{Takes, variables};
ghost use Rattle.merlin_model.specs.Trees.{IsPositiveOnBounds, weighted_right, RefutesBox};
ghost use Rattle.certificate.specs.Adding.{clear_sums};
ghost use Rattle.certificate.specs.Weights.{AreWeights};

use crate::sums::{Sums, add_rows, clear_rows, no_sums};
use integer_program::{Fixed, Program};
use merlin_model::OutOfMemory;
use merlin_model::certificate::Weight;
use merlin_model::limits::MAX_WEIGHT;
use std::alloc::Global;
use std::marker::Model;

// the greatest weight, with a sign
const GREATEST_WEIGHT: i64 = MAX_WEIGHT as i64;

/// Room for the sum of weighted rows, which a test of leaves takes once and leaves empty.
/// It is seen as the number of variables that it serves.
#[derive(Drop)]
pub struct Workspace {
    sums: Sums,
}

impl Model for Workspace {
    ghost use Rattle.std.specs.Prelude.{ℕ, ◌≡◌, length};

    ghost Value = { ℕ };

    ghost view = { λ it. length it.sums.by_variable };

    ghost use Rattle.certificate.specs.Adding.{clear_sums};

    ghost invariant = { λ it. it.sums ≡ clear_sums (length it.sums.by_variable) };
}

impl Workspace {
    /// Room for so many variables.
    pub fn new(alloc: Global, variables: usize) -> Result<Workspace, OutOfMemory>
        ensures { IfOk result (λ workspace. workspace ≡ variables) }
    {
        let sums = no_sums(alloc, variables)?;
        Ok(Workspace { sums })
    }
}

// Whether a weight is positive where its row is a bound, and not 0 where it is an equality.
fn is_positive(is_equality: bool, weight: i64) -> bool
    ensures { IsTrue result ↔ IsPositiveOnBounds is_equality weight }
{
    if is_equality { weight != 0 } else { weight > 0 }
}

// Whether a row of this kind may have this weight.
fn may_weigh(is_equality: bool, weight: i64) -> bool
    ensures { let is_small = nat_abs weight ≤ MAX_WEIGHT in
        IsTrue result ↔ (is_small × IsPositiveOnBounds is_equality weight) }
{
    is_positive(is_equality, weight) && -GREATEST_WEIGHT <= weight && weight <= GREATEST_WEIGHT
}

// Whether the rows exist and ascend, with weights that they may have.
fn are_weights<P: Program>(program: &P, cutoff: Option<&P::Cutoff>, weights: &[Weight]) -> bool
    requires { Takes (P.takes program.now) (option_copied cutoff) }
    ensures { let stated = P.instance program.now (option_copied cutoff.entry) in
        IsTrue result ↔ AreWeights stated weights.now }
{
    let mut next = 0;
    for w in weights {
        if w.row < next {
            return false;
        }
        if program.rows() <= w.row {
            return false;
        }
        if !may_weigh(program.is_equality(w.row), w.weight) {
            return false;
        }
        next = w.row + 1;
    }
    true
}

// The weighted sum of the right sides.
fn right_side<P: Program>(program: &P, cutoff: Option<&P::Cutoff>, weights: &[Weight]) -> i128
    requires takes { Takes (P.takes program.now) (option_copied cutoff) }
    requires weights { AreWeights (P.instance program.now (option_copied cutoff)) weights.now }
    ensures { let stated = P.instance program.now (option_copied cutoff.entry) in
        result ≡ weighted_right stated weights.now }
{
    let mut right = 0;
    for w in weights {
        right += i128::from(w.weight) * i128::from(program.right(w.row, cutoff));
    }
    right
}

// Whether weighted rows refute a box, by sums that are clear before and after.
fn refutes_by<P: Program>(
    program: &P,
    cutoff: Option<&P::Cutoff>,
    fixed: &Fixed,
    sums: &mut Sums,
    weights: &[Weight],
) -> bool
    requires takes { Takes (P.takes program.now) (option_copied cutoff) }
    requires size { length fixed.now ≡ variables (P.instance program.now None) }
    requires clear { sums.old ≡ clear_sums (variables (P.instance program.now None)) }
    ensures clear { sums.new ≡ sums.old }
    ensures answer { let stated = P.instance program.now (option_copied cutoff.entry) in
        IsTrue result ↔ RefutesBox stated fixed.now weights.now }
{
    if !are_weights(program, cutoff, weights) {
        return false;
    }
    add_rows(program, cutoff, fixed, sums, weights);
    let least = sums.least;
    clear_rows(program, sums, weights);
    right_side(program, cutoff, weights) < least
}

/// Whether a leaf with these weights refutes a box. It takes no memory, and the workspace is as before.
pub fn leaf_refutes<P: Program>(
    program: &P,
    cutoff: Option<&P::Cutoff>,
    fixed: &Fixed,
    workspace: &mut Workspace,
    weights: &[Weight],
) -> bool
    requires takes { Takes (P.takes program.now) (option_copied cutoff) }
    requires size { length fixed.now ≡ variables (P.instance program.now None) }
    requires room { workspace.old ≡ variables (P.instance program.now None) }
    ensures same { workspace.new ≡ workspace.old }
    ensures answer { let stated = P.instance program.now (option_copied cutoff.entry) in
        IsTrue result ↔ RefutesBox stated fixed.now weights.now }
{
    refutes_by(program, cutoff, fixed, &mut workspace.sums, weights)
}
