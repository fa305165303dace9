//! A relaxation that decides closed boxes alone, and two choosers.

ghost use Rattle.std.specs.Prelude.{ℕ, ◌≡◌, IfOk, true};
ghost use Rattle.std.specs.Option.{option_copied};
ghost use Rattle.merlin_model.specs.Trees.{IsBox};
ghost use Rattle.integer_program.specs.Verdicts.{IsLawful};
ghost use Rattle.search_tests.specs.Items.{items_at};
ghost use Rattle.bound_search.specs.Boxes.{IsFree};
ghost use Rattle.search_tests.specs.Settling.{IsClosed, is_one, leaf_of, point_of, are_few, spent};

use crate::items::{TwoItems, Wanted, most_spent};
use integer_program::{Fixed, Program, Relaxation, Verdict, Weight, is_open};
use merlin_model::OutOfMemory;
use sqlite_items::Items;
use std::alloc::Global;

/// A relaxation that leaves each box with an open variable undecided, but for a first point that it may offer at once.
#[derive(Drop)]
pub struct Settling {
    pub offers_both: bool,
}

// Whether a place is fixed to 1.
fn is_one(place: Option<bool>) -> bool
    ensures { result ≡ is_one place }
{
    match place {
        Some(to) => to,
        None => false,
    }
}

// A leaf of one row, of weight 1.
fn leaf_of(alloc: Global, row: usize) -> Result<Verdict, OutOfMemory>
    ensures { IfOk result (λ verdict. verdict ≡ leaf_of row) }
{
    let mut weights = Items::new(alloc);
    weights.push(Weight { row, weight: 1 })?;
    Ok(Verdict::Closed(weights))
}

// The point that takes these items.
fn point_of(alloc: Global, first: bool, second: bool) -> Result<Verdict, OutOfMemory>
    ensures { IfOk result (λ verdict. verdict ≡ point_of first second) }
{
    let mut point = Items::new(alloc);
    point.push(first)?;
    point.push(second)?;
    Ok(Verdict::Better(point))
}

// Whether so many items are too few.
fn are_few(wanted: Wanted, first: bool, second: bool) -> bool
    ensures { result ≡ are_few wanted first second }
{
    match wanted {
        Wanted::One => !first && !second,
        Wanted::Both => !first || !second,
        Wanted::Three => true,
    }
}

// What items cost.
fn spent(first: bool, second: bool) -> i64
    ensures { result ≡ spent first second }
{
    match (first, second) {
        (true, true) => 3,
        (true, false) => 2,
        (false, true) => 1,
        (false, false) => 0,
    }
}

// What is found of a box without an open variable: too few items, or the point, or a cost that is too high.
fn settle(
    alloc: Global,
    program: &TwoItems,
    cutoff: Option<&u64>,
    fixed: &Fixed,
) -> Result<Verdict, OutOfMemory>
    requires in_box { IsBox (items_at program.now.wanted (option_copied cutoff)) fixed.now }
    requires closed { IsClosed (items_at program.now.wanted (option_copied cutoff)) fixed.now }
    ensures { let stated = items_at program.now.wanted (option_copied cutoff.entry) in
        IfOk result (IsLawful stated (λ box. ⊥) (λ point. Unit {0}) fixed.now) }
{
    let first = is_one(fixed.get(0));
    let second = is_one(fixed.get(1));
    if are_few(program.wanted, first, second) {
        return leaf_of(alloc, 0);
    }
    if spent(first, second) <= most_spent(cutoff) {
        return point_of(alloc, first, second);
    }
    leaf_of(alloc, 1)
}

impl Relaxation<TwoItems> for Settling {
    ghost is_of = { λ it program. true };

    fn look(
        &mut self,
        alloc: Global,
        program: &TwoItems,
        cutoff: Option<&u64>,
        fixed: &Fixed,
    ) -> Result<Verdict, OutOfMemory> {
        if self.offers_both && cutoff.is_none() && !are_few(program.wanted, true, true) {
            return point_of(alloc, true, true);
        }
        if is_open(program, cutoff, fixed, 0) {
            return Ok(Verdict::Undecided);
        }
        if is_open(program, cutoff, fixed, 1) {
            return Ok(Verdict::Undecided);
        }
        settle(alloc, program, cutoff, fixed)
    }
}

/// The first free variable, if there is one.
pub fn first_free(fixed: &Fixed) -> usize
    ensures { (variable : ℕ) → IsFree fixed.now variable → IsFree fixed.now result }
{
    for variable in 0..fixed.len() {
        if fixed.get(variable).is_none() {
            return variable;
        }
    }
    0
}

/// The last free variable, if there is one.
pub fn last_free(fixed: &Fixed) -> usize
    ensures { (variable : ℕ) → IsFree fixed.now variable → IsFree fixed.now result }
{
    for variable in (0..fixed.len()).rev() {
        if fixed.get(variable).is_none() {
            return variable;
        }
    }
    0
}
