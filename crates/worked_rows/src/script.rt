//! A file of rows, line by line. A line is one of these; what begins with a bar belongs to the `file` or to the row before it.
//!
//! | Line | Says |
//! |---|---|
//! | `# ..`, or nothing | nothing |
//! | `file NAME` | a file, whose lines follow, each behind a bar and a blank |
//! | `text NAME: TEXT` | a file of this text without a newline |
//! | `bytes NAME: 7b ff` | a file of these bytes |
//! | `add NAME TIMES: TEXT` | so many times this text more at the end of a file, each time with its number, from 0, in place of each `%`, and in place of each `~` how many there are from it on |
//! | `add NAME FIRST..END: TEXT` | the same, with the numbers from the first up to the end, which is left out |
//! | `lines NAME TIMES: TEXT` | the same, each time with a newline |
//! | `run WORD\|WORD\|..` | the command of the rows that follow, up to the next `run` |
//! | `keep NAME` | a file of what the command writes now, which must end with status 0 |
//! | `fail read N`, `fail write N` | call N, from 0, on the files or on the sink fails in the next row |
//! | `= STATUS TEXT` | a row: the command runs, and ends with this status and these lines; further lines follow behind bars |
//! | `! STATUS TEXT` | a row that must not hold |
//! | `or STATUS TEXT` | another answer that the row before may have, with its lines |
//!
//! In a wanted line the first `*` may stand for digits, and `..` at its end for any text. A wanted line `..` stands for any lines.

use crate::answers::answer_to;
use crate::lines::Lines;
use crate::row::Row;
use crate::store::{Store, add, add_times, put};
use merlin_base::OutOfMemory;
use std::alloc::Global;
use std::collections::BTreeMap;
use std::mem;

// A file and a text of it, as `p: [ ]`.
fn named_text(rest: &str) -> Option<(&str, &str)> {
    let (name, text) = rest.split_once(':')?;
    Some((name, text.strip_prefix(' ').unwrap_or(text)))
}

// Numbers, as `128` from 0 or `5..9`.
fn numbers_of(text: &str) -> Option<(u64, u64)> {
    let (first, end) = text.split_once("..").unwrap_or(("0", text));
    Some((first.parse::<u64>().ok()?, end.parse::<u64>().ok()?))
}

// A file, numbers, and a text, as `p 128: (`.
fn counted_text(rest: &str) -> Option<(&str, (u64, u64), &str)> {
    let (head, text) = named_text(rest)?;
    let (name, numbers) = head.split_once(' ')?;
    Some((name, numbers_of(numbers)?, text))
}

// The status of an answer, and its first line, if it has one.
fn wanted_from(alloc: Global, rest: &str) -> Lines {
    let (status, first) = rest.split_once(' ').unwrap_or((rest, ""));
    let mut wanted = Lines::new(alloc);
    wanted.add(status);
    wanted.add("\n");
    if status != rest {
        wanted.add(first);
        wanted.add("\n");
    }
    wanted
}

/// The rows so far.
#[derive(Drop)]
pub struct Script {
    alloc: Global,
    line: u64,
    /// how many rows were tried
    pub rows: u64,
    /// what is wrong, a line each
    pub wrong: Lines,
    store: Store,
    command: String,
    failing_reads: Vec<u64>,
    failing_writes: Vec<u64>,
    /// the file that lines with a bar are added to
    file: Option<String>,
    /// the row that lines with a bar are added to
    row: Option<Row>,
}

impl Script {
    pub fn new(alloc: Global) -> Script {
        Script {
            alloc,
            line: 0,
            rows: 0,
            wrong: Lines::new(alloc),
            store: BTreeMap::new(alloc),
            command: String::new(alloc),
            failing_reads: Vec::new(alloc),
            failing_writes: Vec::new(alloc),
            file: None,
            row: None,
        }
    }

    // Notes that something at this line is wrong.
    fn note(&mut self, line: u64, why: &str) {
        self.wrong.add("line");
        self.wrong.add_numbers(&[line]);
        self.wrong.add(": ");
        self.wrong.add(why);
        self.wrong.add("\n");
    }

    // Notes a line that was wanted, and what came in its place.
    fn note_difference(&mut self, line: u64, wanted: &str, found: &str) {
        self.wrong.add("line");
        self.wrong.add_numbers(&[line]);
        self.wrong.add(": wanted ");
        self.wrong.add_quoted(wanted);
        self.wrong.add(", got ");
        self.wrong.add_quoted(found);
        self.wrong.add("\n");
    }

    // Notes that memory ran out, where it did.
    fn note_fault(&mut self, done: Result<(), OutOfMemory>) {
        if done.is_err() {
            self.wrong.cut();
        }
    }

    // Compares what was answered with what the row wants.
    fn compare(&mut self, row: &Row, got: &str) {
        match row.difference(got) {
            Some((wanted, found)) if row.is_to_be_right => {
                self.note_difference(row.line, wanted, found)
            }
            None if !row.is_to_be_right => self.note(row.line, "it is right, and must not be"),
            _ => {}
        }
    }

    // What the command answers.
    fn answered(&self) -> Lines {
        let mut out = Lines::new(self.alloc);
        answer_to(
            self.alloc,
            &self.command,
            &self.store,
            &self.failing_reads,
            &self.failing_writes,
            &mut out,
        );
        out
    }

    // Runs the command of a row, and compares.
    fn run_row(&mut self, row: &Row) {
        self.rows = self.rows.saturating_add(1);
        let out = self.answered();
        self.compare(row, out.text());
    }

    /// Ends the open file or row.
    pub fn end_block(&mut self) {
        self.file = None;
        if let Some(row) = self.row.take() {
            self.run_row(&row);
            self.failing_reads.clear();
            self.failing_writes.clear();
        }
    }

    // Adds a line to the open file.
    fn add_to_file(&mut self, part: &str) -> Result<(), OutOfMemory> {
        match &self.file {
            Some(name) => {
                add(&mut self.store, self.alloc, name, part.as_bytes())?;
                add(&mut self.store, self.alloc, name, b"\n")
            }
            None => {
                self.note(self.line, "a bar, and no file or row before it");
                Ok(())
            }
        }
    }

    // A line of the open file or row.
    fn take_part(&mut self, part: &str) {
        if let Some(row) = &mut self.row {
            row.wanted.add(part);
            row.wanted.add("\n");
            return;
        }
        let done = self.add_to_file(part);
        self.note_fault(done);
    }

    // Begins a row, with its status and its first line, if it has one.
    fn begin_row(&mut self, rest: &str, is_to_be_right: bool) {
        self.row = Some(Row {
            line: self.line,
            is_to_be_right,
            wanted: wanted_from(self.alloc, rest),
            others: Vec::new(self.alloc),
        });
    }

    // Begins another answer that the open row may have.
    fn begin_other(&mut self, rest: &str) -> Result<(), OutOfMemory> {
        match &mut self.row {
            Some(row) => {
                let before = mem::replace(&mut row.wanted, wanted_from(self.alloc, rest));
                row.others.push(before)?;
            }
            None => self.note(self.line, "another answer, and no row before it"),
        }
        Ok(())
    }

    // Begins a file, empty.
    fn begin_file(&mut self, name: &str) -> Result<(), OutOfMemory> {
        put(&mut self.store, self.alloc, name, b"")?;
        self.file = Some(String::from_str(self.alloc, name)?);
        Ok(())
    }

    // A file of one line without its end.
    fn take_text(&mut self, rest: &str) -> Result<(), OutOfMemory> {
        match named_text(rest) {
            Some((name, text)) => put(&mut self.store, self.alloc, name, text.as_bytes()),
            None => {
                self.note(self.line, "no file and text");
                Ok(())
            }
        }
    }

    // A piece so many times more at the end of a file, where `%` stands for its number, from 0, and `~` for how many there are from it on.
    fn take_times(&mut self, rest: &str, end: &str) -> Result<(), OutOfMemory> {
        match counted_text(rest) {
            Some((name, (first, past), piece)) => {
                add_times(&mut self.store, self.alloc, name, piece, end, first, past)
            }
            None => {
                self.note(self.line, "no file, numbers and text");
                Ok(())
            }
        }
    }

    // Bytes that are written in hexadecimal, at the end of a file.
    fn add_digits(&mut self, name: &str, digits: &str) -> Result<(), OutOfMemory> {
        for pair in digits.split(' ') {
            match u8::from_str_radix(pair, 16) {
                Ok(byte) => add(&mut self.store, self.alloc, name, &[byte])?,
                Err(_) => self.note(self.line, "no byte"),
            }
        }
        Ok(())
    }

    // A file of the bytes that are written in hexadecimal.
    fn take_bytes(&mut self, rest: &str) -> Result<(), OutOfMemory> {
        match named_text(rest) {
            Some((name, digits)) => {
                put(&mut self.store, self.alloc, name, b"")?;
                self.add_digits(name, digits)
            }
            None => {
                self.note(self.line, "no file and bytes");
                Ok(())
            }
        }
    }

    // The calls that fail in the next row.
    fn take_fail(&mut self, rest: &str) -> Result<(), OutOfMemory> {
        let (which, number) = rest.split_once(' ').unwrap_or((rest, ""));
        match (which, number.parse::<u64>()) {
            ("read", Ok(number)) => self.failing_reads.push(number)?,
            ("write", Ok(number)) => self.failing_writes.push(number)?,
            _ => self.note(self.line, "no call and number"),
        }
        Ok(())
    }

    // A file of what the command writes.
    fn keep(&mut self, name: &str) -> Result<(), OutOfMemory> {
        let out = self.answered();
        match out.text().strip_prefix("0\n") {
            Some(text) => put(&mut self.store, self.alloc, name, text.as_bytes()),
            None => {
                self.note(self.line, "the command was not done");
                Ok(())
            }
        }
    }

    // The command of the rows that follow.
    fn take_run(&mut self, command: &str) -> Result<(), OutOfMemory> {
        self.command = String::from_str(self.alloc, command)?;
        Ok(())
    }

    // A line that begins no part.
    fn take_word(&mut self, line: &str) -> Result<(), OutOfMemory> {
        let (word, rest) = line.split_once(' ').unwrap_or((line, ""));
        match word {
            "" | "#" => {}
            "file" => return self.begin_file(rest),
            "text" => return self.take_text(rest),
            "add" => return self.take_times(rest, ""),
            "lines" => return self.take_times(rest, "\n"),
            "bytes" => return self.take_bytes(rest),
            "fail" => return self.take_fail(rest),
            "keep" => return self.keep(rest),
            "run" => return self.take_run(rest),
            "=" => self.begin_row(rest, true),
            "!" => self.begin_row(rest, false),
            _ => self.note(self.line, "no such word"),
        }
        Ok(())
    }

    // A line without a bar.
    fn take_line(&mut self, line: &str) -> Result<(), OutOfMemory> {
        match line.strip_prefix("or ") {
            Some(rest) => self.begin_other(rest),
            None => {
                self.end_block();
                self.take_word(line)
            }
        }
    }

    /// Takes the next line.
    pub fn take(&mut self, line: &str) {
        self.line = self.line.saturating_add(1);
        match line.strip_prefix('|') {
            Some(part) => self.take_part(part.strip_prefix(' ').unwrap_or(part)),
            None => {
                let done = self.take_line(line);
                self.note_fault(done);
            }
        }
    }
}
