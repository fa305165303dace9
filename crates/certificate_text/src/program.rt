//! Programs as texts.

ghost use Rattle.std.specs.Prelude.{ℕ, ◌≡◌, ◌≤◌, ◌<◌, ◌++◌, ◌-◌, length, List, None, Bool, IfOk, IfErr, IfSome, IfNone};
ghost use Rattle.merlin_model.specs.Programs.{Program as Stated, Row};
ghost use Rattle.certificate_text.specs.ProgramTexts.{head_text, kind_word, row_line, program_text, IsRowLine, IsProgramText};
ghost use Rattle.merlin_base.specs.Faults.{IsFirstWrongLine, GoesWrong};
ghost use Rattle.certificate_text.specs.Outcomes.{IsLineFault};
ghost use Rattle.certificate_text.specs.ProgramAnswers.{IsProgramFault};

use crate::fault::LineFault;
use crate::line::number_line;
use crate::pairs::read_pairs;
use integer_program::{PlainProgram, PlainRow, Program};
use merlin_base::{cut_before, read_whole, split_at_byte, strip_front};
use merlin_model::OutOfMemory;
use merlin_model::limits::{MAX_COEFFICIENT, MAX_RIGHT_SIDE, MAX_ROWS, MAX_VARIABLES};
use std::alloc::Global;

// the limits on numbers, as their reader takes them
const GREATEST_COEFFICIENT: usize = MAX_COEFFICIENT as usize;

const GREATEST_RIGHT: usize = MAX_RIGHT_SIDE as usize;

/// Why a text is no program: the start of the first line with which no program goes on, or the length where lines are missing.
#[derive(Clone, Copy)]
pub enum ProgramTextFault {
    BadProgram { at: usize },
    OutOfMemory,
}

// The number of variables by the first two lines, and what stands behind them. Where they go wrong, what is left of the text from
// the wrong line on.
fn read_head(text: &[u8]) -> Result<(usize, &[u8]), usize>
    ensures ok { IfOk result (λ r. (text.now ≡ head_text r.0 ++ r.1.now) × (r.0 ≤ MAX_VARIABLES)) }
    ensures err { IfErr result (GoesWrong head_text (λ count. count ≤ MAX_VARIABLES) text.now) }
{
    let Some(rest) = strip_front(text, b"program 1\n") else {
        return Err(text.len());
    };
    let Some(number) = strip_front(rest, b"variables ") else {
        return Err(rest.len());
    };
    match number_line(number) {
        Some((count, rows)) => {
            if MAX_VARIABLES < count {
                return Err(rest.len());
            }
            Ok((count, rows))
        }
        None => Err(rest.len()),
    }
}

// Whether a row is an equality, by the words that it begins with, and what stands behind them.
fn read_kind(text: &[u8]) -> Option<(bool, &[u8])>
    ensures some { IfSome result (λ r. text.now ≡ kind_word r.0 ++ r.1.now) }
    ensures none { IfNone result ((is_equality : Bool) (rest : List ℕ) →
        text.now ≡ kind_word is_equality ++ rest → ⊥) }
{
    if let Some(rest) = strip_front(text, b"row le ") {
        return Some((false, rest));
    }
    let rest = strip_front(text, b"row eq ")?;
    Some((true, rest))
}

// The row with which the text begins, and what stands behind it.
fn read_row(
    alloc: Global,
    text: &[u8],
    count: usize,
) -> Result<Option<(PlainRow, &[u8])>, OutOfMemory>
    requires { count ≤ MAX_VARIABLES }
    ensures some { IfOk result (λ o. IfSome o (λ r.
        (text.now ≡ row_line r.0 ++ r.1.now) × IsRowLine count r.0)) }
    ensures none { IfOk result (λ o. IfNone o ((row : Row) (rest : List ℕ) →
        IsRowLine count row → text.now ≡ row_line row ++ rest → ⊥)) }
{
    let Some((is_equality, words)) = read_kind(text) else {
        return Ok(None);
    };
    let Some((line, rest)) = split_at_byte(words, b'\n') else {
        return Ok(None);
    };
    let (number, pairs) = cut_before(line, b' ');
    let Some(right) = read_whole(number, GREATEST_RIGHT) else {
        return Ok(None);
    };
    match read_pairs(alloc, pairs, count, GREATEST_COEFFICIENT)? {
        Some(entries) => Ok(Some((PlainRow::new(entries, is_equality, right), rest))),
        None => Ok(None),
    }
}

// The program of the text, or the first wrong line.
fn read_whole_program(alloc: Global, text: &[u8]) -> Result<PlainProgram, LineFault>
    ensures ok { IfOk result (λ program.
        let stated = ⟦<PlainProgram as Program>⟧.instance program None in
        (text.now ≡ program_text stated) × IsProgramText stated) }
    ensures err { IfErr result (IsLineFault (λ left. (left ≤ length text.now)
        × IsFirstWrongLine program_text IsProgramText text.now (length text.now - left))) }
{
    let (count, mut rest) = read_head(text)?;
    let mut program = PlainProgram::new(alloc, count);
    'rows: loop {
        if let Some(more) = strip_front(rest, b"end\n") {
            if more.is_empty() {
                return Ok(program);
            }
            return Err(LineFault::Wrong(more.len()));
        }
        if program.rows() == MAX_ROWS {
            return Err(LineFault::Wrong(rest.len()));
        }
        let Some((row, others)) = read_row(alloc, rest, count)? else {
            return Err(LineFault::Wrong(rest.len()));
        };
        program.push(row)?;
        rest = others;
    }
}

/// The program that a text stands for. Where it is none, the fault is at the start of the first line with which no program goes on.
pub fn read_program(alloc: Global, bytes: &[u8]) -> Result<PlainProgram, ProgramTextFault>
    ensures ok { IfOk result (λ program.
        let stated = ⟦<PlainProgram as Program>⟧.instance program None in
        (bytes.now ≡ program_text stated) × IsProgramText stated) }
    ensures only { IfOk result (λ program. (other : Stated) → IsProgramText other →
        bytes.now ≡ program_text other →
        other ≡ ⟦<PlainProgram as Program>⟧.instance program None) }
    ensures err { IfErr result (IsProgramFault bytes.now) }
{
    match read_whole_program(alloc, bytes) {
        Ok(program) => Ok(program),
        Err(LineFault::Wrong(left)) => Err(ProgramTextFault::BadProgram {
            at: bytes.len() - left,
        }),
        Err(LineFault::Memory) => Err(ProgramTextFault::OutOfMemory),
    }
}
