//! Programs and the trees that are to refute them.

use crate::lines::Lines;
use crate::store::{Store, content};
use crate::texts::parted;
use certificate::{Checker, new as checker_of};
use certificate_text::{ProgramTextFault, TreeTextFault, print_tree, read_program, read_tree};
use integer_program::PlainProgram;
use merlin_model::certificate::Tree;
use std::alloc::Global;

// What the checker says, twice in turn.
fn answer_verdict(checker: &mut Checker<'_, PlainProgram>, tree: &Tree, out: &mut Lines) {
    match (checker.refutes(tree, None), checker.refutes(tree, None)) {
        (Ok(()), Ok(())) => out.answer(0, "refuted"),
        (Err(first), Err(again)) if first.node == again.node => {
            out.add("5\nno");
            out.add_numbers(&[first.node as u64]);
            out.add("\n");
        }
        _ => out.answer(5, "no, and then otherwise"),
    }
}

// The verdict on a tree.
fn of_tree(alloc: Global, program: &PlainProgram, tree: &Tree, out: &mut Lines) {
    match checker_of(alloc, program) {
        Ok(mut checker) => answer_verdict(&mut checker, tree, out),
        Err(_) => out.cut(),
    }
}

// Whether the tree is printed as it stood. If it is not, that is the answer.
fn is_printed_as(alloc: Global, tree: &Tree, text: &[u8], out: &mut Lines) -> bool {
    let mut printed = Lines::new(alloc);
    printed.add_name(print_tree(alloc, tree));
    let is_same = printed.text().as_bytes() == text;
    if !is_same {
        out.answer(1, printed.text());
    }
    is_same
}

fn of_program(alloc: Global, program: &PlainProgram, text: &[u8], out: &mut Lines) {
    match read_tree(alloc, text) {
        Ok(tree) => {
            if is_printed_as(alloc, &tree, text, out) {
                of_tree(alloc, program, &tree, out);
            }
        }
        Err(TreeTextFault::BadTree { at }) => out.answer_at("tree", at),
        Err(TreeTextFault::OutOfMemory) => out.cut(),
    }
}

/// `tree|PROGRAM|TREE`: whether the tree refutes the program, or where a text is wrong.
pub fn answer_to(alloc: Global, words: &str, store: &Store, out: &mut Lines) {
    let (program, tree) = parted(words);
    match read_program(alloc, content(store, program)) {
        Ok(program) => of_program(alloc, &program, content(store, tree), out),
        Err(ProgramTextFault::BadProgram { at }) => out.answer_at("program", at),
        Err(ProgramTextFault::OutOfMemory) => out.cut(),
    }
}
