//! A row: what its command is to answer, against what it answers.

use crate::lines::Lines;

/// A row that is being read.
#[derive(Drop)]
pub struct Row {
    /// the number of its line
    pub line: u64,
    /// whether it is to be right; one that is to be wrong tests the comparison itself
    pub is_to_be_right: bool,
    /// the status and the lines that it wants
    pub wanted: Lines,
    /// what it may have in their place
    pub others: Vec<Lines>,
}

// Whether the bytes are ASCII digits, and some.
fn are_digits(bytes: &[u8]) -> bool {
    for byte in bytes {
        if !byte.is_ascii_digit() {
            return false;
        }
    }
    !bytes.is_empty()
}

// Whether a text is some digits between these two.
fn is_digits_between(before: &str, after: &str, line: &str) -> bool {
    match line.strip_prefix(before) {
        Some(rest) => match rest.strip_suffix(after) {
            Some(digits) => are_digits(digits.as_bytes()),
            None => false,
        },
        None => false,
    }
}

// Whether a line is as it is wanted: equal, or so that two points at the end of what is wanted stand for any text, or its first `*` for digits.
fn is_as_wanted(wanted: &str, line: &str) -> bool {
    if wanted == line {
        return true;
    }
    if let Some(before) = wanted.strip_suffix("..") {
        return line.starts_with(before);
    }
    match wanted.split_once('*') {
        Some((before, after)) => is_digits_between(before, after, line),
        None => false,
    }
}

/// The first line that is wanted and did not come, with what came in its place, if there is one. A wanted line of two points stands for any lines up to
/// the first that is as the next one is wanted.
pub fn difference<'a>(wanted: &'a str, got: &'a str) -> Option<(&'a str, &'a str)> {
    let mut lines = wanted.split('\n');
    let mut next = lines.next();
    let mut passes_over = false;
    for found in got.split('\n') {
        if next == Some("..") {
            next = lines.next();
            passes_over = true;
        }
        match next {
            Some(line) if is_as_wanted(line, found) => {
                next = lines.next();
                passes_over = false;
            }
            Some(line) if !passes_over => return Some((line, found)),
            Some(_) => {}
            None => return Some(("no more", found)),
        }
    }
    match next {
        Some(line) => Some((line, "no more")),
        None => None,
    }
}

impl Row {
    /// The same of the last answer that the row wants, unless another one came that it may have.
    pub fn difference<'a>(&'a self, got: &'a str) -> Option<(&'a str, &'a str)> {
        for other in &self.others {
            difference(other.text(), got)?;
        }
        difference(self.wanted.text(), got)
    }
}
