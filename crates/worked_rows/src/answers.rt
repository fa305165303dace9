//! What commands answer.

use crate::lines::Lines;
use crate::policies::Asked;
use crate::store::{Store, content, memory};
use crate::texts::parted;
use crate::{
    comparisons, deliveries, guaranteed, networks, outside, packets, policies, results, tokens,
    trees,
};
use merlin::run;
use merlin_base::{MemoryFiles, MemorySink, OutOfMemory};
use packet_model::Packet;
use packet_trace::declared;
use std::alloc::Global;
use topology::FnDecl;

// The words of a line, which bars part.
fn words_of(alloc: Global, line: &str) -> Result<Vec<String>, OutOfMemory> {
    let mut words = Vec::new(alloc);
    if line != "" {
        for word in line.split('|') {
            words.push(String::from_str(alloc, word)?)?;
        }
    }
    Ok(words)
}

// What the program answers to words over files, and what it hands to a sink.
fn run_words(
    alloc: Global,
    words: &[String],
    files: &mut MemoryFiles,
    sink: &mut MemorySink,
    out: &mut Lines,
) {
    let status = run(
        alloc,
        words,
        files,
        sink,
        |decl: &FnDecl, packet: Packet| declared(decl, packet),
    );
    out.add_number(u64::from(status.code()));
    out.add("\n");
    out.add_bytes(sink.taken());
}

// The same on a sink whose calls of these numbers fail.
fn run_on_sink(
    alloc: Global,
    words: &[String],
    files: &mut MemoryFiles,
    failing_writes: &[u64],
    out: &mut Lines,
) {
    match Vec::from_slice(alloc, failing_writes) {
        Ok(failing) => {
            let mut sink = MemorySink::new(alloc, failing);
            run_words(alloc, words, files, &mut sink, out);
        }
        Err(_) => out.cut(),
    }
}

// The same of the words of a line.
fn run_line(
    alloc: Global,
    line: &str,
    files: &mut MemoryFiles,
    failing_writes: &[u64],
    out: &mut Lines,
) {
    match words_of(alloc, line) {
        Ok(words) => run_on_sink(alloc, &words, files, failing_writes, out),
        Err(_) => out.cut(),
    }
}

// What the program answers to the words of a line. The calls whose numbers are listed fail.
fn run_program(
    alloc: Global,
    line: &str,
    store: &Store,
    failing_reads: &[u64],
    failing_writes: &[u64],
    out: &mut Lines,
) {
    match memory(alloc, store, failing_reads) {
        Ok(mut files) => run_line(alloc, line, &mut files, failing_writes, out),
        Err(_) => out.cut(),
    }
}

/// The status of a command as a line, and then what it writes. A command is one of the library calls below, or else the words of the program.
pub fn answer_to(
    alloc: Global,
    line: &str,
    store: &Store,
    failing_reads: &[u64],
    failing_writes: &[u64],
    out: &mut Lines,
) {
    let (command, rest) = parted(line);
    match command {
        "read" => outside::answer_to(alloc, rest, store, failing_reads, out),
        "tokens" => tokens::answer_to(alloc, content(store, rest), out),
        "packet" => packets::reading(alloc, rest, out),
        "set" => packets::setting(alloc, rest, out),
        "proper" => networks::answer_to(alloc, rest, store, networks::Asked::Proper, out),
        "policy" => policies::answer_to(alloc, rest, store, Asked::Whole, out),
        "size" => policies::answer_to(alloc, rest, store, Asked::Size, out),
        "statement" => policies::answer_to(alloc, rest, store, Asked::Statement, out),
        "holds" => policies::answer_to(alloc, rest, store, Asked::Holds, out),
        "meets" => policies::answer_to(alloc, rest, store, Asked::Meets, out),
        "rates" => policies::answer_to(alloc, rest, store, Asked::Rates, out),
        "automaton" => policies::answer_to(alloc, rest, store, Asked::Table, out),
        "states" => policies::answer_to(alloc, rest, store, Asked::States, out),
        "accepts" => policies::answer_to(alloc, rest, store, Asked::Accepts, out),
        "overlap" => policies::answer_to(alloc, rest, store, Asked::Overlap, out),
        "outside" => policies::answer_to(alloc, rest, store, Asked::Outside, out),
        "common" => policies::answer_to(alloc, rest, store, Asked::Common, out),
        "cells" => policies::answer_to(alloc, rest, store, Asked::Cells, out),
        "count" => policies::answer_to(alloc, rest, store, Asked::CellCount, out),
        "topology" => networks::answer_to(alloc, rest, store, networks::Asked::Whole, out),
        "compare" => comparisons::answer_to(alloc, rest, store, out),
        "delivery" => deliveries::answer_to(alloc, rest, store, out),
        "result" => results::answer_to(alloc, rest, store, results::Asked::Whole, out),
        "line" => results::answer_to(alloc, rest, store, results::Asked::Line, out),
        "tree" => trees::answer_to(alloc, rest, store, out),
        _ => match guaranteed::asked_of(command) {
            Some(asked) => guaranteed::answer_to(alloc, rest, store, asked, out),
            None => run_program(alloc, line, store, failing_reads, failing_writes, out),
        },
    }
}
