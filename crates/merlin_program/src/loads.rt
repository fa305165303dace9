//! What a point puts on the links, and the cutoff that it reaches.

ghost use Rattle.std.specs.Prelude.{ℕ, ◌≡◌, ◌≤◌, ◌<◌, ◌^◌, length, map, if◌then◌else◌};
ghost use Rattle.std.specs.List.{AllByRecursion};
ghost use Rattle.merlin_model.specs.Rates.{greatest_of};
ghost use Rattle.merlin_model.specs.Assignments.{greatest_ratio, ratio_lt};
ghost use Rattle.cutoff_program.specs.Flows.{variables_of, rate_over, cost_of_variable, taken_from, cutoff_of};
ghost use Rattle.cutoff_program.specs.Limits.{IsProblem};
ghost use Rattle.merlin_program.specs.Kept.{loads_by};

use crate::terms::rate_on;
use cutoff_program::flow::{Problem, Variable};
use merlin_model::policy::{Objective, Value};
use program_walks::cost;

/// The load of a link.
fn load_of(variables: &[Variable], link: usize, point: &[bool]) -> u64
    requires few { length variables.now ≤ 32768 }
    requires small { AllByRecursion (λ v. v.rate ≤ 10 ^ 9) variables.now }
    requires size { length point.now ≡ length variables.now }
    ensures value { result ≡ taken_from 0 (rate_over link) variables.now point.now }
    ensures small { result < 2 ^ 45 }
{
    let mut load = 0;
    for (number, variable) in variables.iter().enumerate() {
        if point[number] {
            load += rate_on(link, variable);
        }
    }
    load
}

/// The length of all walks.
fn length_of_all(problem: &Problem, variables: &[Variable], point: &[bool]) -> u64
    requires few { length variables.now ≤ 32768 }
    requires small { AllByRecursion (λ v. v.rate ≤ 10 ^ 9) variables.now }
    requires costs { AllByRecursion (λ v. cost_of_variable problem.now v ≤ 10 ^ 9) variables.now }
    requires size { length point.now ≡ length variables.now }
    ensures { result ≡ taken_from 0 (cost_of_variable problem.now) variables.now point.now }
{
    let mut all = 0;
    for (number, variable) in variables.iter().enumerate() {
        if point[number] {
            all += cost(problem, variable);
        }
    }
    all
}

/// The greatest load.
fn greatest_load(problem: &Problem, variables: &[Variable], point: &[bool]) -> u64
    requires few { length variables.now ≤ 32768 }
    requires small { AllByRecursion (λ v. v.rate ≤ 10 ^ 9) variables.now }
    requires size { length point.now ≡ length variables.now }
    ensures { result ≡
        greatest_of (map (λ l. l.0) (loads_by problem.now variables.now point.now)) }
{
    let mut greatest = 0;
    let mut link = problem.links.len();
    while link > 0 {
        link -= 1;
        greatest = load_of(variables, link, point).max(greatest);
    }
    greatest
}

/// The first of two ratios, unless the second is greater.
fn greater(first: (u64, u64), second: (u64, u64)) -> (u64, u64)
    ensures { result ≡ (if ratio_lt first second then second else first) }
{
    if u128::from(first.0) * u128::from(second.1) < u128::from(second.0) * u128::from(first.1) {
        second
    } else {
        first
    }
}

/// The greatest load of a capacity, as the first that is as great.
fn greatest_ratio_of(problem: &Problem, variables: &[Variable], point: &[bool]) -> (u64, u64)
    requires few { length variables.now ≤ 32768 }
    requires small { AllByRecursion (λ v. v.rate ≤ 10 ^ 9) variables.now }
    requires size { length point.now ≡ length variables.now }
    ensures { result ≡ greatest_ratio (loads_by problem.now variables.now point.now) }
{
    let mut greatest = (0, 1);
    let mut link = problem.links.len();
    while link > 0 {
        link -= 1;
        let capacity = problem.links.as_slice()[link].capacity;
        greatest = greater((load_of(variables, link, point), capacity), greatest);
    }
    greatest
}

/// The cutoff that a point reaches.
pub fn value_of(problem: &Problem, variables: &[Variable], point: &[bool]) -> Value
    requires is { IsProblem problem.now }
    requires are { variables.now ≡ variables_of problem.now }
    requires size { length point.now ≡ length variables.now }
    ensures { result ≡ cutoff_of problem.now point.now }
{
    cutoff_program::laws::variables_are_small();
    match problem.objective {
        Objective::Shortest => Value::Whole(length_of_all(problem, variables, point)),
        Objective::Reserved => Value::Whole(greatest_load(problem, variables, point)),
        Objective::Ratio => {
            let (load, capacity) = greatest_ratio_of(problem, variables, point);
            Value::Ratio { load, capacity }
        }
    }
}
