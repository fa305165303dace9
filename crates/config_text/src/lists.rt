//! Texts joined by commas, written one by one. What stands before a text tells whether it is the first: a space before the first, a comma before
//! each other.

ghost use Rattle.std.specs.Prelude.{◌≡◌, ◌++◌, ◌∷◌, ℕ, List, OnOk};
ghost use Rattle.config_text.specs.Words.{joined_by_commas};
ghost use Rattle.config_text.specs.Separated.{AreTextsAdded};

use crate::line::Line;
use merlin_base::OutOfMemory;

/// What stands before the first text of a list.
pub(crate) const FIRST: u8 = b' ';

/// What stands before each other text of a list.
pub(crate) const NEXT: u8 = b',';

/// Ends a list: where no text was written, this word stands for it.
pub(crate) fn end_list(line: &mut Line, separator: u8, none: &[u8]) -> Result<(), OutOfMemory>
    ensures { (old : List ℕ) (texts : List (List ℕ)) →
        AreTextsAdded 32 old texts separator line.old →
        OnOk result (line.new ≡ old ++ 32 ∷ joined_by_commas none.now texts) }
{
    if separator == FIRST {
        line.word(none)?;
    }
    Ok(())
}
