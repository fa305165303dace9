//! Lines as they are written, in place of a `Result` at each piece: once memory ran out they stay cut, and say so.

use crate::texts::text_of;
use merlin_base::{Name, OutOfMemory};
use std::alloc::Global;

/// Lines, and whether something of them is lost for want of memory.
#[derive(Drop)]
pub struct Lines {
    text: String,
    is_cut: bool,
}

impl Lines {
    /// No lines.
    pub fn new(alloc: Global) -> Lines {
        Lines {
            text: String::new(alloc),
            is_cut: false,
        }
    }

    /// Notes that something is lost.
    pub fn cut(&mut self) {
        self.is_cut = true;
    }

    /// The lines, or a word that none of them is, where something is lost.
    pub fn text(&self) -> &str {
        if self.is_cut {
            "out of memory"
        } else {
            self.text.as_str()
        }
    }

    /// Adds a text.
    pub fn add(&mut self, text: &str) {
        if self.text.push_str(text).is_err() {
            self.is_cut = true;
        }
    }

    /// Adds a text of these bytes.
    pub fn add_bytes(&mut self, bytes: &[u8]) {
        self.add(text_of(bytes));
    }

    /// Adds a text that was made, if it could be.
    pub fn add_name(&mut self, name: Result<Name, OutOfMemory>) {
        match name {
            Ok(name) => self.add_bytes(name.bytes()),
            Err(_) => self.cut(),
        }
    }

    /// Adds a number.
    pub fn add_number(&mut self, number: u64) {
        if write!(self.text, "{number}").is_err() {
            self.is_cut = true;
        }
    }

    /// Adds a number that may be below 0.
    pub fn add_signed(&mut self, number: i64) {
        if write!(self.text, "{number}").is_err() {
            self.is_cut = true;
        }
    }

    /// Adds numbers, each behind a blank.
    pub fn add_numbers(&mut self, numbers: &[u64]) {
        for number in numbers {
            self.add(" ");
            self.add_number(*number);
        }
    }

    /// Adds a text between quotes, with what cannot be seen in it spelled out.
    pub fn add_quoted(&mut self, text: &str) {
        if write!(self.text, "{text:?}").is_err() {
            self.is_cut = true;
        }
    }

    /// A whole answer: a status, and one line.
    pub fn answer(&mut self, status: u64, line: &str) {
        self.add_number(status);
        self.add("\n");
        self.add(line);
        self.add("\n");
    }

    /// A whole answer: status 1, what is wrong, and where.
    pub fn answer_at(&mut self, what: &str, at: usize) {
        self.add("1\n");
        self.add(what);
        self.add(" at");
        self.add_numbers(&[at as u64]);
        self.add("\n");
    }
}
