//! Files that are read whole.

use crate::lines::Lines;
use crate::store::{Store, memory};
use crate::texts::{parted, text_of};
use merlin_base::{MemoryFiles, ReadFail, read_all};
use std::alloc::Global;

// The text of a file, or why it is not read.
fn read(alloc: Global, files: &mut MemoryFiles, words: &str, out: &mut Lines) {
    let (name, limit) = parted(words);
    let limit = limit.parse::<usize>().unwrap_or(0);
    match read_all(alloc, files, name, limit) {
        Ok(bytes) => out.answer(0, text_of(&bytes)),
        Err(ReadFail::Outside) => out.answer(1, "outside"),
        Err(ReadFail::TooLong) => out.answer(1, "too long"),
        Err(ReadFail::OutOfMemory) => out.cut(),
    }
}

/// `read|NAME|LIMIT`: the text of a file of at most so many bytes, or why it is not read.
pub fn answer_to(alloc: Global, words: &str, store: &Store, failing: &[u64], out: &mut Lines) {
    match memory(alloc, store, failing) {
        Ok(mut files) => read(alloc, &mut files, words, out),
        Err(_) => out.cut(),
    }
}
