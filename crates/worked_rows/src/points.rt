//! Walks of guaranteed statements as points of their program, and back.

ghost use Rattle.std.specs.Prelude.{◌≡◌, length, None};
ghost use Rattle.std.specs.Option.{option_copied};
ghost use Rattle.merlin_model.specs.Programs.{Takes};
ghost use Rattle.cutoff_program.specs.Flows.{program_at, takes, variables_of};

use crate::comparisons::add_symbol;
use crate::guaranteed::add_value;
use crate::lines::Lines;
use integer_program::{Program, is_solution};
use merlin_base::OutOfMemory;
use merlin_model::policy::{Symbol, Value};
use merlin_program::MerlinProgram;
use sqlite_items::Items;
use std::alloc::Global;
use topology::Topology;

// The number of a packet function, by its name.
fn function_of(net: &Topology, name: &str) -> Option<usize> {
    for (number, function) in net.functions().iter().enumerate() {
        if function.name.bytes() == name.as_bytes() {
            return Some(number);
        }
    }
    None
}

// A location by its name, with the function whose name stands behind a colon.
fn symbol_of(net: &Topology, word: &str) -> Symbol {
    let (loc, fun) = word.split_once(':').unwrap_or((word, ""));
    Symbol {
        loc: net.find(loc.as_bytes()).unwrap_or(usize::MAX),
        fun: function_of(net, fun),
    }
}

// A walk, whose symbols blanks part.
fn walk_of(alloc: Global, net: &Topology, words: &str) -> Result<Items<Symbol>, OutOfMemory> {
    let mut walk = Items::new(alloc);
    for word in words.split(' ') {
        walk.push(symbol_of(net, word))?;
    }
    Ok(walk)
}

// Walks, which bars part.
fn walks_of(
    alloc: Global,
    net: &Topology,
    words: &str,
) -> Result<Items<Items<Symbol>>, OutOfMemory> {
    let mut walks = Items::new(alloc);
    if words != "" {
        for word in words.split('|') {
            walks.push(walk_of(alloc, net, word)?)?;
        }
    }
    Ok(walks)
}

// The line of the variables that are 1.
fn add_chosen(out: &mut Lines, point: &[bool]) {
    out.add("0\npoint");
    for (variable, chosen) in point.iter().enumerate() {
        if *chosen {
            out.add_numbers(&[variable as u64]);
        }
    }
    out.add("\n");
}

/// The line of a walk.
pub fn add_walk(out: &mut Lines, net: &Topology, walk: &[Symbol]) {
    out.add("walk");
    for symbol in walk {
        add_symbol(out, net, symbol);
    }
    out.add("\n");
}

// The lines of the walks of a point.
fn add_walks(
    alloc: Global,
    out: &mut Lines,
    net: &Topology,
    program: &MerlinProgram,
    point: &[bool],
)
    requires { length point.now ≡ length (variables_of program.now.problem) }
{
    match program.assignment_of(alloc, point) {
        Ok(walks) => {
            for walk in walks.as_slice() {
                add_walk(out, net, walk.as_slice());
            }
        }
        Err(_) => out.cut(),
    }
}

// The line of what a point reaches, and that of whether it is a solution at the cutoff.
fn add_verdict(out: &mut Lines, program: &MerlinProgram, cutoff: Option<&Value>, point: &[bool])
    requires takes { Takes (takes program.now.problem.objective) (option_copied cutoff) }
    requires size { length point.now ≡ length (variables_of program.now.problem) }
{
    out.add("value ");
    add_value(out, program.cutoff_of(point));
    out.add(if is_solution(program, cutoff, point) {
        "\nsolution\n"
    } else {
        "\nno solution\n"
    });
}

// What is said of a point.
fn of_point(
    alloc: Global,
    net: &Topology,
    program: &MerlinProgram,
    cutoff: Option<&Value>,
    point: &[bool],
    out: &mut Lines,
)
    requires { Takes (takes program.now.problem.objective) (option_copied cutoff) }
{
    if point.len() == program.edges().len() {
        add_chosen(out, point);
        add_verdict(out, program, cutoff, point);
        add_walks(alloc, out, net, program, point);
    } else {
        out.answer(1, "no point");
    }
}

// The same of the point of walks.
fn of_walks(
    alloc: Global,
    net: &Topology,
    program: &MerlinProgram,
    cutoff: Option<&Value>,
    walks: &[Items<Symbol>],
    out: &mut Lines,
)
    requires { Takes (takes program.now.problem.objective) (option_copied cutoff) }
{
    if walks.len() != program.problem().flows.len() {
        out.answer(1, "no walks");
        return;
    }
    match program.solution_of(alloc, walks) {
        Ok(point) => of_point(alloc, net, program, cutoff, point.as_slice(), out),
        Err(_) => out.cut(),
    }
}

/// What is said of the point of walks, one for each statement.
pub fn answer_to(
    alloc: Global,
    net: &Topology,
    program: &MerlinProgram,
    cutoff: Option<&Value>,
    words: &str,
    out: &mut Lines,
)
    requires { Takes (takes program.now.problem.objective) (option_copied cutoff) }
{
    match walks_of(alloc, net, words) {
        Ok(walks) => of_walks(alloc, net, program, cutoff, walks.as_slice(), out),
        Err(_) => out.cut(),
    }
}
