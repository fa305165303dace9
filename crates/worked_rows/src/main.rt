//! Runs worked rows: cases of commands over files in memory, each with what it must answer. The files of rows are in data/, and `args` names those
//! that are run; `script.rt` says what a line of them says, and `answers.rt` which commands there are beside those of the program.
#![tactic(auto)]

mod answers;
mod automata;
mod comparisons;
mod deliveries;
mod flows;
mod guaranteed;
mod lines;
mod loads;
mod networks;
mod outside;
mod packets;
mod parts;
mod points;
mod policies;
mod programs;
mod rates;
mod results;
mod row;
mod script;
mod searches;
mod sizes;
mod splits;
mod store;
mod texts;
mod tokens;
mod traffic;
mod trees;

use crate::script::Script;
use crate::texts::text_of;
use merlin_base::{StdFiles, read_all};
use std::alloc::Global;
use std::process::ExitCode;
use std::rt::Env;
use std::{env, io};

// A file of rows may have so many bytes.
const LONGEST: usize = 16_777_216;

// The rows of a text that were tried, with what is wrong.
fn tried(alloc: Global, text: &str) -> Script {
    let mut script = Script::new(alloc);
    for line in text.lines() {
        script.take(line);
    }
    script.end_block();
    script
}

// Says how many rows there are in a file, and what is wrong on the error output.
fn tell(rt: &HostRuntime, name: &str, rows: u64, wrong: &str) -> io::Result<bool> {
    println!(rt; "{name}: {rows} rows")?;
    if wrong != "" {
        eprint!(rt; "{name}:\n{wrong}")?;
    }
    Ok(wrong == "")
}

// Whether all rows of a text are as they must be.
fn are_right(rt: &HostRuntime, name: &str, text: &str) -> io::Result<bool> {
    let script = tried(rt.alloc(), text);
    tell(rt, name, script.rows, script.wrong.text())
}

// Whether all rows of a file are as they must be.
fn is_well(rt: &HostRuntime, name: &str) -> io::Result<bool> {
    let mut files = StdFiles::new(rt);
    match read_all(rt.alloc(), &mut files, name, LONGEST) {
        Ok(bytes) => are_right(rt, name, text_of(&bytes)),
        Err(_) => tell(rt, name, 0, "the file is not read\n"),
    }
}

fn are_well(rt: &HostRuntime) -> io::Result<bool> {
    let mut all_well = true;
    for name in env::args(rt)?.skip(1) {
        all_well &= is_well(rt, name.as_str())?;
    }
    Ok(all_well)
}

fn main(rt: HostRuntime) -> ExitCode {
    match are_well(&rt) {
        Ok(true) => ExitCode::from(0),
        _ => ExitCode::from(1),
    }
}
