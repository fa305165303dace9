//! The program of guaranteed statements, as a text of a program.

ghost use Rattle.std.specs.Prelude.{◌<◌, ◌≡◌, length, None, IfSome, IsTrue};
ghost use Rattle.std.specs.Option.{option_copied};
ghost use Rattle.merlin_model.specs.Programs.{Takes, variables};
ghost use Rattle.cutoff_program.specs.Flows.{program_at, takes};

use crate::guaranteed::{Asked, add_value};
use crate::lines::Lines;
use crate::points;
use crate::texts::parted;
use cutoff_program::flow::Flow;
use integer_program::Program;
use merlin_model::policy::{Objective, Value};
use merlin_program::MerlinProgram;
use std::alloc::Global;
use topology::Topology;

// A load and a capacity with a bar between them, as `60/100`.
fn ratio_from(text: &str) -> Option<Value>
    ensures { IfSome result (λ z. IsTrue (takes Objective.Ratio z)) }
{
    let (load, capacity) = text.split_once('/')?;
    let load = load.parse::<u64>().ok()?;
    let capacity = capacity.parse::<u64>().ok()?;
    if capacity == 0 {
        return None;
    }
    Some(Value::Ratio { load, capacity })
}

fn number_from(text: &str) -> Option<Value>
    ensures shortest { IfSome result (λ z. IsTrue (takes Objective.Shortest z)) }
    ensures reserved { IfSome result (λ z. IsTrue (takes Objective.Reserved z)) }
{
    let number = text.parse::<u64>().ok()?;
    Some(Value::Whole(number))
}

/// A cutoff for an objective.
pub fn cutoff_from(objective: Objective, text: &str) -> Option<Value>
    ensures { IfSome result (λ z. IsTrue (takes objective z)) }
{
    match objective {
        Objective::Shortest => number_from(text),
        Objective::Ratio => ratio_from(text),
        Objective::Reserved => number_from(text),
    }
}

fn add_entries(out: &mut Lines, entries: &[(usize, i64)]) {
    for (variable, coefficient) in entries {
        out.add_numbers(&[*variable as u64]);
        out.add(":");
        out.add_signed(*coefficient);
    }
}

// The line of a row.
fn add_row(out: &mut Lines, program: &MerlinProgram, cutoff: Option<&Value>, row: usize)
    requires takes { Takes (takes program.now.problem.objective) (option_copied cutoff) }
    requires in_range { row < length (program_at program.now.problem None).rows }
{
    out.add(if program.is_equality(row) {
        "row eq "
    } else {
        "row le "
    });
    out.add_signed(program.right(row, cutoff));
    add_entries(out, program.entries(row));
    out.add("\n");
}

// The lines of a program.
fn add_program(out: &mut Lines, program: &MerlinProgram, cutoff: Option<&Value>)
    requires { Takes (takes program.now.problem.objective) (option_copied cutoff) }
{
    out.add("0\nprogram 1\nvariables");
    out.add_numbers(&[program.variables() as u64]);
    out.add("\n");
    for row in 0..program.rows() {
        add_row(out, program, cutoff, row);
    }
    out.add("end\n");
}

// A line of digits: 1 for each variable that may be 1, and 0 for each other one.
fn add_uppers(out: &mut Lines, program: &MerlinProgram, cutoff: Option<&Value>)
    requires { Takes (takes program.now.problem.objective) (option_copied cutoff) }
{
    out.add("0\n");
    for variable in 0..program.variables() {
        out.add(if program.upper(variable, cutoff) {
            "1"
        } else {
            "0"
        });
    }
    out.add("\n");
}

// The number of vertices of all flows.
fn vertices_of(flows: &[Flow]) -> u64 {
    let mut count = 0_u64;
    for flow in flows {
        count = count.saturating_add(flow.vertices as u64);
    }
    count
}

// The number of edges of all flows.
fn edges_of(flows: &[Flow]) -> u64 {
    let mut count = 0_u64;
    for flow in flows {
        count = count.saturating_add(flow.edges.len() as u64);
    }
    count
}

fn add_sizes(out: &mut Lines, program: &MerlinProgram) {
    let flows = program.problem().flows.as_slice();
    out.add("0\nflows");
    out.add_numbers(&[flows.len() as u64]);
    out.add(" vertices");
    out.add_numbers(&[vertices_of(flows)]);
    out.add(" edges");
    out.add_numbers(&[edges_of(flows)]);
    out.add(" variables");
    out.add_numbers(&[program.variables() as u64]);
    out.add(" rows");
    out.add_numbers(&[program.rows() as u64]);
    out.add("\n");
}

// What no value is below, or that there is nothing since some statement has no path.
fn add_bound(alloc: Global, out: &mut Lines, program: &MerlinProgram) {
    match program.separate_bound(alloc) {
        Ok(Some(bound)) => {
            out.add("0\n");
            add_value(out, bound);
            out.add("\n");
        }
        Ok(None) => out.answer(0, "none"),
        Err(_) => out.cut(),
    }
}

// What is asked of the program at a cutoff.
fn at_cutoff(
    alloc: Global,
    net: &Topology,
    program: &MerlinProgram,
    cutoff: Option<&Value>,
    asked: Asked,
    words: &str,
    out: &mut Lines,
)
    requires { Takes (takes program.now.problem.objective) (option_copied cutoff) }
{
    match asked {
        Asked::Program => add_program(out, program, cutoff),
        Asked::Uppers => add_uppers(out, program, cutoff),
        _ => points::answer_to(alloc, net, program, cutoff, words, out),
    }
}

// The same at the cutoff that is the first word, or without one where it is empty.
fn at_word(
    alloc: Global,
    net: &Topology,
    program: &MerlinProgram,
    asked: Asked,
    words: &str,
    out: &mut Lines,
) {
    let (word, words) = parted(words);
    if word == "" {
        at_cutoff(alloc, net, program, None, asked, words, out);
        return;
    }
    match cutoff_from(program.problem().objective, word) {
        Some(cutoff) => at_cutoff(alloc, net, program, Some(&cutoff), asked, words, out),
        None => out.answer(1, "no cutoff"),
    }
}

/// What is asked of a program.
pub fn answer_to(
    alloc: Global,
    net: &Topology,
    program: &MerlinProgram,
    asked: Asked,
    words: &str,
    out: &mut Lines,
) {
    match asked {
        Asked::Sizes => add_sizes(out, program),
        Asked::Bound => add_bound(alloc, out, program),
        _ => at_word(alloc, net, program, asked, words, out),
    }
}
