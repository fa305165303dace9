//! Programs without cutoffs, as a text states them.

ghost use Rattle.std.specs.Prelude.{◌≡◌, ◌<◌, ◌≤◌, [], length, None, false, OnOk, OnErr};
ghost use Rattle.std.proofs.Props.{props};
ghost use Rattle.merlin_model.specs.Programs.{IsRow, IsProgram};
ghost use Rattle.integer_program.specs.Plain.{plain_program, with_row, plain-cutoffs};

use crate::program::Program;
use merlin_model::OutOfMemory;
use merlin_model::limits::{MAX_ROWS, MAX_VARIABLES};
use sqlite_items::Items;
use std::alloc::Global;
use std::marker::Model;

/// A row of a plain program.
#[derive(Drop)]
pub struct PlainRow {
    entries: Items<(usize, i64)>,
    is_equality: bool,
    right: i64,
}

impl Model for PlainRow {
    ghost use Rattle.merlin_model.specs.Programs.{Row};

    ghost Value = { Row };

    ghost view = { λ it.
        record { entries = it.entries; is_equality = it.is_equality; right = it.right } };
}

impl PlainRow {
    /// A row by its entries, its kind and its right side.
    pub fn new(entries: Items<(usize, i64)>, is_equality: bool, right: i64) -> PlainRow
        ensures { result ≡ record { entries = entries; is_equality = is_equality; right = right } }
    {
        PlainRow {
            entries,
            is_equality,
            right,
        }
    }
}

/// A program without cutoffs, in which each variable may be 1.
#[derive(Drop)]
pub struct PlainProgram {
    variables: usize,
    rows: Items<PlainRow>,
    ghost form: { IsProgram (plain_program variables rows) } by { Prim.hlevel props },
}

impl PlainProgram {
    /// A program of so many variables, without a row.
    pub fn new(alloc: Global, variables: usize) -> PlainProgram
        requires { variables ≤ MAX_VARIABLES }
        ensures { ⟦<PlainProgram as Program>⟧.instance result None ≡ plain_program variables [] }
    {
        PlainProgram {
            variables,
            rows: Items::new(alloc),
        }
    }

    /// Adds a row after the others. Without memory nothing changes.
    pub fn push(&mut self, row: PlainRow) -> Result<(), OutOfMemory>
        requires row { IsRow (⟦<PlainProgram as Program>⟧.instance self.old None) row }
        requires room { let program = ⟦<PlainProgram as Program>⟧.instance self.old None in
            length program.rows < MAX_ROWS }
        ensures ok { let program = ⟦<PlainProgram as Program>⟧.instance in
            OnOk result (program self.new None ≡ with_row (program self.old None) row) }
        ensures err { let program = ⟦<PlainProgram as Program>⟧.instance in
            OnErr result (program self.new None ≡ program self.old None) }
    {
        self.rows.push(row)?;
        Ok(())
    }
}

impl Program for PlainProgram {
    type Cutoff = ();

    ghost instance = { λ it cutoff. plain_program it.variables it.rows };

    ghost takes = { λ it z. false };

    ghost easy = { λ it cutoff box. ⊥ };

    ghost neat = { λ it point. Unit {0} };

    ghost value = { λ it point. tt };

    ghost is_below = { λ it a b. false };

    fn variables(&self) -> usize {
        self.variables
    }

    fn rows(&self) -> usize {
        self.rows.len()
    }

    fn entries(&self, row: usize) -> &[(usize, i64)] {
        let row = &self.rows.as_slice()[row];
        row.entries.as_slice()
    }

    fn is_equality(&self, row: usize) -> bool {
        let row = &self.rows.as_slice()[row];
        row.is_equality
    }

    fn right(&self, row: usize, _cutoff: Option<&()>) -> i64 {
        let row = &self.rows.as_slice()[row];
        row.right
    }

    fn upper(&self, _variable: usize, _cutoff: Option<&()>) -> bool {
        true
    }

    fn cutoff_of(&self, _point: &[bool]) {}

    // No cutoff is taken, so that this is never asked.
    fn below(&self, _a: &(), _b: &()) -> bool
        ensures { result ≡ false }
    {
        false
    }

    ghost is_program = { λ it cutoff taken. it.form };

    ghost cutoffs = { λ it. plain-cutoffs (plain_program it.variables it.rows) };
}
