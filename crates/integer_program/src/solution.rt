//! Solutions of programs.

ghost use Rattle.std.specs.Prelude.{ℕ, ◌≡◌, ◌<◌, ◌≤◌, ◌↔◌, length, IsTrue, true, nat_abs};
ghost use Rattle.std.specs.List.{AllByRecursion};
ghost use Rattle.std.specs.Option.{option_copied};
ghost use Rattle.merlin_model.specs.Programs.{Row, Takes, variables, row_at, is_chosen, left_side, Compares, IsSolution};

use crate::program::Program;
use merlin_model::limits::{MAX_COEFFICIENT, MAX_VARIABLES};

/// Whether a point gives each variable 0 or 1 within its bound and meets all rows.
pub fn is_solution<P: Program>(program: &P, cutoff: Option<&P::Cutoff>, point: &[bool]) -> bool
    requires { Takes (P.takes program.now) (option_copied cutoff) }
    ensures { let stated = P.instance program.now (option_copied cutoff.entry) in
        IsTrue result ↔ IsSolution stated point.now }
{
    if point.len() != program.variables() {
        return false;
    }
    if !is_within(program, cutoff, point) {
        return false;
    }
    meets_rows(program, cutoff, point)
}

// Whether no variable of the point is 1 that may not be.
fn is_within<P: Program>(program: &P, cutoff: Option<&P::Cutoff>, point: &[bool]) -> bool
    requires takes { Takes (P.takes program.now) (option_copied cutoff) }
    requires size { length point.now ≡ variables (P.instance program.now None) }
    ensures { let stated = P.instance program.now (option_copied cutoff.entry) in
        IsTrue result ↔ ((variable : ℕ) →
        is_chosen point.now variable ≡ true → is_chosen stated.upper variable ≡ true) }
{
    for (variable, chosen) in point.iter().enumerate() {
        if *chosen && !program.upper(variable, cutoff) {
            return false;
        }
    }
    true
}

// Whether the point meets each row.
fn meets_rows<P: Program>(program: &P, cutoff: Option<&P::Cutoff>, point: &[bool]) -> bool
    requires takes { Takes (P.takes program.now) (option_copied cutoff) }
    requires size { length point.now ≡ variables (P.instance program.now None) }
    ensures { let stated = P.instance program.now (option_copied cutoff.entry) in
        let meets = λ (row : Row).
        Compares row.is_equality (left_side row.entries point.now) row.right in
        IsTrue result ↔ AllByRecursion meets stated.rows }
{
    for row in 0..program.rows() {
        if !meets_row(program, cutoff, point, row) {
            return false;
        }
    }
    true
}

// Whether the point meets a row.
fn meets_row<P: Program>(
    program: &P,
    cutoff: Option<&P::Cutoff>,
    point: &[bool],
    row: usize,
) -> bool
    requires takes { Takes (P.takes program.now) (option_copied cutoff) }
    requires size { length point.now ≡ variables (P.instance program.now None) }
    requires in_range { row < length (P.instance program.now None).rows }
    ensures { let stated = row_at (P.instance program.now (option_copied cutoff.entry)) row in
        let left = left_side stated.entries point.now in
        IsTrue result ↔ Compares stated.is_equality left stated.right }
{
    let left = left_side(program.entries(row), point);
    compares(program.is_equality(row), left, program.right(row, cutoff))
}

// Whether the sides of a row compare as the row asks.
fn compares(is_equality: bool, left: i64, right: i64) -> bool
    ensures { IsTrue result ↔ Compares is_equality left right }
{
    if is_equality {
        left == right
    } else {
        left <= right
    }
}

// The left side of a row at a point.
fn left_side(entries: &[(usize, i64)], point: &[bool]) -> i64
    requires few { length entries.now ≤ MAX_VARIABLES }
    requires exist { AllByRecursion (λ e. e.0 < length point.now) entries.now }
    requires small { AllByRecursion (λ e. nat_abs e.1 ≤ MAX_COEFFICIENT) entries.now }
    ensures { result ≡ left_side entries.now point.now }
{
    let mut left = 0;
    for (variable, coefficient) in entries {
        if point[*variable] {
            left += *coefficient;
        }
    }
    left
}
