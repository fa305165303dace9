//! The weighted sum of some rows, variable by variable, with its least value over a box.

ghost use Rattle.std.specs.Prelude.{ℕ, ◌≡◌, ◌≤◌, ◌<◌, ◌+◌, ◌^◌, ℤ, pos, ◌+ℤ◌, ◌-ℤ◌, ◌*ℤ◌, [], length, slice_set, None, IfOk};
ghost use Rattle.std.specs.List.{AllByRecursion};
ghost use Rattle.std.specs.Option.{option_copied};
ghost use Rattle.merlin_model.specs.Programs.{Takes, variables, is_chosen, row_at};
ghost use Rattle.merlin_model.specs.Trees.{coefficient_in, least_addition};
ghost use Rattle.certificate.specs.Adding.{sum_at, AreSumsWithin, least_sum, IsSum, clear_sums, IsCleared, IsOnlyOf};
ghost use Rattle.certificate.specs.Weights.{AreWeights};
ghost use Rattle.integer_program.specs.Bounds.{IsBounded};

use integer_program::{Fixed, Program};
use merlin_model::OutOfMemory;
use merlin_model::certificate::Weight;
use sqlite_items::Items;
use std::alloc::Global;

/// The coefficient of each variable in the sum, and the least value of the sum over a box.
#[derive(Drop)]
pub struct Sums {
    pub by_variable: Items<i128>,
    pub least: i128,
}

/// The sum of no rows.
pub fn no_sums(alloc: Global, variables: usize) -> Result<Sums, OutOfMemory>
    ensures { IfOk result (λ sums. sums ≡ clear_sums variables) }
{
    let by_variable = vec![in alloc; 0i128; variables]?;
    Ok(Sums {
        by_variable: Items::from_vec(by_variable),
        least: 0,
    })
}

// The least that a variable can add.
fn addition(place: Option<bool>, may_be_one: bool, coefficient: i128) -> i128
    ensures { result ≡ least_addition place may_be_one coefficient }
{
    match place {
        Some(true) => coefficient,
        Some(false) => 0,
        None => { if may_be_one { coefficient.min(0) } else { 0 } }
    }
}

// Adds an amount to the coefficient of a variable.
fn add_entry(sums: &mut Sums, variable: usize, amount: i128, place: Option<bool>, may_be_one: bool)
    requires in_range { variable < length sums.old.by_variable }
    requires small { AreSumsWithin (2 ^ 125) sums.old }
    requires amount { IsBounded (2 ^ 90) amount }
    ensures coefficient { let sum = sum_at sums.old variable +ℤ amount in
        sums.new.by_variable ≡ slice_set sums.old.by_variable variable sum }
    ensures least { let least = least_addition place may_be_one in
        let before = least (sum_at sums.old variable) in
        sums.new.least ≡ (sums.old.least +ℤ least (sum_at sums.old variable +ℤ amount)) -ℤ before }
{
    let before = sums.by_variable.as_slice()[variable];
    let after = before + amount;
    sums.least += addition(place, may_be_one, after) - addition(place, may_be_one, before);
    sums.by_variable.set(variable, after);
}

// Adds a weighted row.
fn add_row<P: Program>(
    program: &P,
    cutoff: Option<&P::Cutoff>,
    fixed: &Fixed,
    sums: &mut Sums,
    row: usize,
    weight: i64,
)
    requires takes { Takes (P.takes program.now) (option_copied cutoff) }
    requires size { length fixed.now ≡ variables (P.instance program.now None) }
    requires in_range { row < length (P.instance program.now None).rows }
    requires weight { IsBounded (2 ^ 60) weight }
    requires sums { length sums.old.by_variable ≡ variables (P.instance program.now None) }
    requires least { let stated = P.instance program.now (option_copied cutoff) in
        sums.old.least ≡ least_sum stated fixed.now sums.old.by_variable }
    requires small { AreSumsWithin (2 ^ 124) sums.old }
    ensures sums { length sums.new.by_variable ≡ variables (P.instance program.now None) }
    ensures each { let stated = P.instance program.now (option_copied cutoff.entry) in
        let entries = (row_at stated row).entries in
        (v : ℕ) → sum_at sums.new v ≡ sum_at sums.old v +ℤ (weight *ℤ coefficient_in v entries) }
    ensures least { let stated = P.instance program.now (option_copied cutoff.entry) in
        sums.new.least ≡ least_sum stated fixed.now sums.new.by_variable }
    ensures small { (bound : ℕ) → AreSumsWithin bound sums.old →
        AreSumsWithin (bound + 2 ^ 105) sums.new }
{
    for (variable, coefficient) in program.entries(row) {
        let amount = i128::from(weight) * i128::from(*coefficient);
        let may_be_one = program.upper(*variable, cutoff);
        add_entry(sums, *variable, amount, fixed.get(*variable), may_be_one);
    }
}

/// Adds weighted rows to none.
pub fn add_rows<P: Program>(
    program: &P,
    cutoff: Option<&P::Cutoff>,
    fixed: &Fixed,
    sums: &mut Sums,
    weights: &[Weight],
)
    requires takes { Takes (P.takes program.now) (option_copied cutoff) }
    requires size { length fixed.now ≡ variables (P.instance program.now None) }
    requires weights { AreWeights (P.instance program.now (option_copied cutoff)) weights.now }
    requires none { IsSum (P.instance program.now (option_copied cutoff)) fixed.now [] 0 sums.old }
    ensures { let stated = P.instance program.now (option_copied cutoff.entry) in
        IsSum stated fixed.now weights.now (length weights.now) sums.new }
{
    for w in weights {
        add_row(program, cutoff, fixed, sums, w.row, w.weight);
    }
}

// Sets the coefficients of the variables of a row to 0.
fn clear_row<P: Program>(program: &P, sums: &mut Sums, row: usize)
    requires in_range { row < length (P.instance program.now None).rows }
    requires size { length sums.old.by_variable ≡ variables (P.instance program.now None) }
    ensures { IsCleared (row_at (P.instance program.now None) row).entries sums.old sums.new }
{
    for (variable, _) in program.entries(row) {
        sums.by_variable.set(*variable, 0);
    }
}

/// Sets the sum of rows to that of none.
pub fn clear_rows<P: Program>(program: &P, sums: &mut Sums, weights: &[Weight])
    requires exist { let stated = P.instance program.now None in
        AllByRecursion (λ w. w.row < length stated.rows) weights.now }
    requires only { IsOnlyOf (P.instance program.now None) weights.now sums.old }
    ensures { sums.new ≡ clear_sums (variables (P.instance program.now None)) }
{
    for w in weights {
        clear_row(program, sums, w.row);
    }
    sums.least = 0;
}
