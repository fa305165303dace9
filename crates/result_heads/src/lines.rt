//! Lines with the objective and with values.

ghost use Rattle.std.specs.Prelude.{◌≡◌, ◌++◌, ◌∷◌, [], OnOk, IfOk, codes};
ghost use Rattle.std.specs.String.{string_bytes};
ghost use Rattle.config_text.specs.Words.{line};
ghost use Rattle.config_text.specs.Result.{objective_word, value_text};
ghost use Rattle.result_heads.specs.Heads.{value_line};

use merlin_base::{Name, OutOfMemory, name_from};
use merlin_model::policy::{Objective, Value};
use std::alloc::Global;

/// Adds the text as a line.
pub(crate) fn push_line(alloc: Global, lines: &mut Vec<Name>, text: &str) -> Result<(), OutOfMemory>
    ensures { OnOk result (lines.new.items ≡ lines.old.items ++ line text.now ∷ []) }
{
    let text = format!(in alloc; "{text}\n")?;
    lines.push(name_from(alloc, text.as_bytes())?)?;
    Ok(())
}

/// The word for an objective, after the word that begins its line.
pub(crate) fn objective_words(objective: Objective) -> &'static str
    ensures { result.now ≡ codes "objective " ++ objective_word objective }
{
    match objective {
        Objective::Shortest => "objective shortest",
        Objective::Ratio => "objective ratio",
        Objective::Reserved => "objective reserved",
    }
}

// A text and a value.
fn valued_text(alloc: Global, text: &str, value: Value) -> Result<String, OutOfMemory>
    ensures { IfOk result (λ valued. string_bytes valued ≡
        text.now ++ (codes " " ++ value_text value)) }
{
    match value {
        Value::Whole(number) => Ok(format!(in alloc; "{text} {number}")?),
        Value::Ratio { load, capacity } => Ok(format!(in alloc; "{text} {load}/{capacity}")?),
    }
}

/// Adds a text and a value as a line.
pub(crate) fn push_value(
    alloc: Global,
    lines: &mut Vec<Name>,
    text: &str,
    value: Value,
) -> Result<(), OutOfMemory>
    ensures { OnOk result (lines.new.items ≡ lines.old.items ++ value_line text.now value ∷ []) }
{
    let text = valued_text(alloc, text, value)?;
    push_line(alloc, lines, &text)
}
