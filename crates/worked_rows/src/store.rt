//! The files of a row.

use crate::lines::Lines;
use merlin_base::{MemoryFiles, Name, OutOfMemory, name_from};
use std::alloc::Global;
use std::collections::BTreeMap;

/// Files by name.
pub type Store = BTreeMap<String, Vec<u8>>;

/// Sets the content of a file.
pub fn put(
    store: &mut Store,
    alloc: Global,
    name: &str,
    content: &[u8],
) -> Result<(), OutOfMemory> {
    let content = Vec::from_slice(alloc, content)?;
    store.insert(String::from_str(alloc, name)?, content)?;
    Ok(())
}

/// Adds to the end of a file. One that isn't there begins empty.
pub fn add(store: &mut Store, alloc: Global, name: &str, piece: &[u8]) -> Result<(), OutOfMemory> {
    match store.get_mut(name) {
        Some(content) => Ok(content.extend_from_slice(piece)?),
        None => put(store, alloc, name, piece),
    }
}

// Adds the piece with a number in place of each `~`.
fn add_left(text: &mut Lines, piece: &str, left: u64) {
    for (place, part) in piece.split('~').enumerate() {
        if place > 0 {
            text.add_number(left);
        }
        text.add(part);
    }
}

// Adds the piece with a number in place of each `%`, and how many there are from it on in place of each `~`.
fn add_numbered(text: &mut Lines, piece: &str, number: u64, left: u64) {
    for (place, part) in piece.split('%').enumerate() {
        if place > 0 {
            text.add_number(number);
        }
        add_left(text, part, left);
    }
}

/// Adds a piece and an end to a file for each number from the first to that before the last, which stands in place of each `%` of the piece, and how many
/// there are from it on in place of each `~`: the last has 1.
pub fn add_times(
    store: &mut Store,
    alloc: Global,
    name: &str,
    piece: &str,
    end: &str,
    first: u64,
    past: u64,
) -> Result<(), OutOfMemory> {
    let mut text = Lines::new(alloc);
    for number in first..past {
        add_numbered(&mut text, piece, number, past - number);
        text.add(end);
    }
    add(store, alloc, name, text.text().as_bytes())
}

/// The content of a file. One that isn't there is empty.
pub fn content<'a>(store: &'a Store, name: &str) -> &'a [u8] {
    match store.get(name) {
        Some(content) => content.as_slice(),
        None => &[],
    }
}

// A file and its content.
fn entry_of(
    alloc: Global,
    name: &String,
    content: &Vec<u8>,
) -> Result<(Name, Vec<u8>), OutOfMemory> {
    let content = Vec::from_slice(alloc, content.as_slice())?;
    Ok((name_from(alloc, name.as_bytes())?, content))
}

// The files of a store, in a list.
fn entries(alloc: Global, store: &Store) -> Result<Vec<(Name, Vec<u8>)>, OutOfMemory> {
    let mut entries = Vec::new(alloc);
    for (name, content) in store {
        entries.push(entry_of(alloc, name, content)?)?;
    }
    Ok(entries)
}

/// The files in memory. The calls whose numbers are listed fail.
pub fn memory(alloc: Global, store: &Store, failing: &[u64]) -> Result<MemoryFiles, OutOfMemory> {
    let failing = Vec::from_slice(alloc, failing)?;
    Ok(MemoryFiles::new(entries(alloc, store)?, failing))
}
