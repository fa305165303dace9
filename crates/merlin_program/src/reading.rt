//! What is read of kept rows.

ghost use Rattle.std.specs.Prelude.{ℕ, ◌≡◌, ◌≤◌, ◌<◌, ◌+◌, ◌-◌, ◌^◌, length, None, take, drop, nat_lt, slice_index_or};
ghost use Rattle.std.specs.Option.{option_copied};
ghost use Rattle.merlin_model.specs.Programs.{Takes, row_at};
ghost use Rattle.cutoff_program.specs.Flows.{program_at, takes, may_be_one};
ghost use Rattle.cutoff_program.specs.Limits.{IsProblem};
ghost use Rattle.cutoff_program.proofs.Solutions.{total_of};
ghost use Rattle.merlin_program.specs.Kept.{kept, start_from};

use crate::rooms::{right_of, room_of};
use crate::rows::Rows;
use cutoff_program::flow::{Problem, Variable};
use merlin_model::policy::Value;

/// Where the entries of a row start.
fn start_of(ends: &[usize], row: usize) -> usize
    requires { row < length ends.now }
    ensures { result ≡ start_from 0 ends.now row }
{
    if row == 0 { 0 } else { ends[row - 1] }
}

/// Where the entries of a row end.
fn end_of(ends: &[usize], row: usize) -> usize
    requires { row < length ends.now }
    ensures { result ≡ slice_index_or ends.now row 0 }
{
    ends[row]
}

/// A part of the entries.
fn part(entries: &[(usize, i64)], start: usize, end: usize) -> &[(usize, i64)]
    requires order { start ≤ end }
    requires inside { end ≤ length entries.now }
    ensures { result.now ≡ take (end - start) (drop start entries.now) }
{
    &entries[start..end]
}

/// The entries of a row.
pub fn entries_at<'a>(problem: &Problem, rows: &'a Rows, row: usize) -> &'a [(usize, i64)]
    requires is { rows.now ≡ kept (program_at problem.now None).rows }
    requires in_range { row < length (program_at problem.now None).rows }
    ensures { result.now ≡ (row_at (program_at problem.now None) row).entries }
{
    let ends = rows.ends.as_slice();
    let start = start_of(ends, row);
    part(rows.entries.as_slice(), start, end_of(ends, row))
}

/// The number of rows of flows.
pub fn flow_rows(problem: &Problem, rows: &Rows) -> usize
    requires is { rows.now ≡ kept (program_at problem.now None).rows }
    ensures { result + length problem.now.links + 1 ≡ length (program_at problem.now None).rows }
{
    rows.ends.len() - problem.links.len() - 1
}

/// What all variables add to the last row.
fn total(problem: &Problem, rows: &Rows) -> u64
    requires problem { IsProblem problem.now }
    requires is { rows.now ≡ kept (program_at problem.now None).rows }
    ensures value { result ≡ total_of problem.now }
    ensures small { result ≤ 2 ^ 45 }
{
    let last = flow_rows(problem, rows) + problem.links.len();
    rows.rights.as_slice()[last] as u64
}

/// The right side of a row at a cutoff.
pub fn right_at(problem: &Problem, rows: &Rows, cutoff: Option<&Value>, row: usize) -> i64
    requires problem { IsProblem problem.now }
    requires is { rows.now ≡ kept (program_at problem.now None).rows }
    requires in_range { row < length (program_at problem.now None).rows }
    requires takes { Takes (takes problem.now.objective) (option_copied cutoff) }
    ensures { result ≡ (row_at (program_at problem.now (option_copied cutoff.entry)) row).right }
{
    let flows = flow_rows(problem, rows);
    if row < flows {
        return rows.rights.as_slice()[row];
    }
    let link = row - flows;
    if link < problem.links.len() {
        room_of(
            problem.objective,
            cutoff,
            problem.links.as_slice()[link].capacity,
        )
    } else {
        right_of(problem.objective, cutoff, total(problem, rows))
    }
}

/// Whether a variable may be 1 at a cutoff.
pub fn upper_at(problem: &Problem, cutoff: Option<&Value>, variable: &Variable) -> bool
    requires problem { IsProblem problem.now }
    requires rate { variable.now.rate ≤ 10 ^ 9 }
    requires takes { Takes (takes problem.now.objective) (option_copied cutoff) }
    ensures { result ≡ may_be_one problem.now (option_copied cutoff.entry) variable.now }
{
    match variable.edge.crosses {
        None => true,
        Some(l) => match problem.links.as_slice().get(l) {
            None => true,
            Some(directed) => {
                variable.rate as i64 <= room_of(problem.objective, cutoff, directed.capacity)
            }
        },
    }
}
