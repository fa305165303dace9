//! The rows of a program, one after the other.

ghost use Rattle.std.specs.Prelude.{ℕ, ℤ, Bool, List, [], ◌∷◌, ◌++◌, ◌+◌, ◌-◌, ◌==◌, ◌≡◌, ◌≤◌, ◌<◌, ◌^◌, map, length, pos, negsuc, None, OnOk, IfOk, sum_by, if◌then◌else◌};
ghost use Rattle.std.specs.List.{AllByRecursion, range_with_len};
ghost use Rattle.merlin_model.specs.Programs.{Row};
ghost use Rattle.cutoff_program.specs.Flows.{entries_from, variable_of, variables_of, last_of, flow_row, flow_rows_from, link_rows_from, length_of, cost_of_variable, program_at};
ghost use Rattle.cutoff_program.specs.Limits.{IsProblem};
ghost use Rattle.merlin_program.specs.Kept.{kept, term_in_row, variables_in, row_with, right_at_vertex, rows_of_flow};

use crate::terms::{RowTerm, added, length_added};
use cutoff_program::flow::{Flow, Problem, Variable};
use merlin_model::OutOfMemory;
use sqlite_items::Items;
use std::alloc::Global;

/// The entries of all rows, the number of entries up to the end of each row, and the right sides without a cutoff.
#[derive(Drop)]
pub struct Rows {
    pub entries: Items<(usize, i64)>,
    pub ends: Items<usize>,
    pub rights: Items<i64>,
}

/// Adds the edges of a flow.
fn push_variables(
    variables: &mut Items<Variable>,
    number: usize,
    flow: &Flow,
) -> Result<(), OutOfMemory>
    ensures { OnOk result (variables.new ≡ variables.old ++ variables_in number flow.now) }
{
    for edge in flow.edges.as_slice() {
        variables.push(Variable {
            flow: number,
            rate: flow.rate,
            edge: *edge,
        })?;
    }
    Ok(())
}

/// The edges of all flows.
pub fn all_variables(alloc: Global, problem: &Problem) -> Result<Items<Variable>, OutOfMemory>
    ensures { IfOk result (λ found. found ≡ variables_of problem.now) }
{
    let mut found = Items::new(alloc);
    for (number, flow) in problem.flows.as_slice().iter().enumerate() {
        push_variables(&mut found, number, flow)?;
    }
    Ok(found)
}

/// Adds the entries of a row.
fn push_entries(
    entries: &mut Items<(usize, i64)>,
    problem: &Problem,
    variables: &[Variable],
    of: RowTerm,
) -> Result<(), OutOfMemory>
    requires { AllByRecursion (λ v. v.rate ≤ 10 ^ 9) variables.now }
    ensures { OnOk result (entries.new ≡
        entries.old ++ entries_from 0 (term_in_row problem.now of) variables.now) }
{
    for (number, variable) in variables.iter().enumerate() {
        let coefficient = added(problem, of, variable);
        if coefficient != 0 {
            entries.push((number, coefficient))?;
        }
    }
    Ok(())
}

/// Adds a row.
fn push_row(
    rows: &mut Rows,
    problem: &Problem,
    variables: &[Variable],
    of: RowTerm,
    right: i64,
) -> Result<(), OutOfMemory>
    requires { AllByRecursion (λ v. v.rate ≤ 10 ^ 9) variables.now }
    ensures { (before : List Row) (is_equality : Bool) → rows.old ≡ kept before →
        OnOk result (rows.new ≡
        kept (before ++ row_with problem.now of variables.now is_equality right ∷ [])) }
{
    push_entries(&mut rows.entries, problem, variables, of)?;
    rows.ends.push(rows.entries.len())?;
    rows.rights.push(right)?;
    Ok(())
}

/// The right side of the row of a vertex, of so many.
fn flow_right_of(vertex: usize, count: usize) -> i64
    requires { 0 < count }
    ensures { result ≡ right_at_vertex vertex count }
{
    if vertex == 0 {
        1
    } else if vertex == count - 1 {
        -1
    } else {
        0
    }
}

/// Adds the rows of a flow, one for each vertex.
fn push_flow(
    rows: &mut Rows,
    problem: &Problem,
    variables: &[Variable],
    number: usize,
    flow: &Flow,
) -> Result<(), OutOfMemory>
    requires are { variables.now ≡ variables_of problem.now }
    requires small { AllByRecursion (λ v. v.rate ≤ 10 ^ 9) variables.now }
    ensures { (before : List Row) → rows.old ≡ kept before →
        OnOk result (rows.new ≡ kept (before ++ rows_of_flow problem.now number flow.now)) }
{
    let count = flow.vertices.max(2);
    for vertex in 0..count {
        let of = RowTerm::Leaves {
            flow: number,
            vertex,
        };
        push_row(rows, problem, variables, of, flow_right_of(vertex, count))?;
    }
    Ok(())
}

/// Adds the rows of all flows.
fn push_flows(rows: &mut Rows, problem: &Problem, variables: &[Variable]) -> Result<(), OutOfMemory>
    requires are { variables.now ≡ variables_of problem.now }
    requires small { AllByRecursion (λ v. v.rate ≤ 10 ^ 9) variables.now }
    ensures { (before : List Row) → rows.old ≡ kept before → OnOk result (rows.new ≡
        kept (before ++ flow_rows_from problem.now 0 problem.now.flows)) }
{
    for (number, flow) in problem.flows.as_slice().iter().enumerate() {
        push_flow(rows, problem, variables, number, flow)?;
    }
    Ok(())
}

/// Adds the rows of all links.
fn push_links(rows: &mut Rows, problem: &Problem, variables: &[Variable]) -> Result<(), OutOfMemory>
    requires is { IsProblem problem.now }
    requires are { variables.now ≡ variables_of problem.now }
    requires small { AllByRecursion (λ v. v.rate ≤ 10 ^ 9) variables.now }
    ensures { (before : List Row) → rows.old ≡ kept before → OnOk result (rows.new ≡
        kept (before ++ link_rows_from problem.now None 0 problem.now.links)) }
{
    for (link, directed) in problem.links.as_slice().iter().enumerate() {
        push_row(
            rows,
            problem,
            variables,
            RowTerm::Over(link),
            directed.capacity as i64,
        )?;
    }
    Ok(())
}

/// What all variables add to the row that bounds the length.
pub fn total_length(problem: &Problem, variables: &[Variable]) -> u64
    requires few { length variables.now ≤ 32768 }
    requires small { AllByRecursion (λ v. v.rate ≤ 10 ^ 9) variables.now }
    requires costs { AllByRecursion (λ v. cost_of_variable problem.now v ≤ 10 ^ 9) variables.now }
    ensures { result ≡ sum_by (length_of problem.now.objective problem.now) variables.now }
{
    let mut total = 0;
    for variable in variables {
        total += length_added(problem, variable);
    }
    total
}

/// All rows.
pub fn all_rows(
    alloc: Global,
    problem: &Problem,
    variables: &[Variable],
) -> Result<Rows, OutOfMemory>
    requires is { IsProblem problem.now }
    requires are { variables.now ≡ variables_of problem.now }
    requires small { AllByRecursion (λ v. v.rate ≤ 10 ^ 9) variables.now }
    requires costs { AllByRecursion (λ v. cost_of_variable problem.now v ≤ 10 ^ 9) variables.now }
    ensures { IfOk result (λ found. found ≡ kept (program_at problem.now None).rows) }
{
    let mut found = Rows {
        entries: Items::new(alloc),
        ends: Items::new(alloc),
        rights: Items::new(alloc),
    };
    push_flows(&mut found, problem, variables)?;
    push_links(&mut found, problem, variables)?;
    let total = total_length(problem, variables);
    push_row(
        &mut found,
        problem,
        variables,
        RowTerm::Length,
        total as i64,
    )?;
    Ok(found)
}
