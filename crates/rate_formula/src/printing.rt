//! Formulas as texts.

ghost use Rattle.std.specs.Prelude.{◌≡◌, ◌++◌, codes, IfOk, OnOk};
ghost use Rattle.std.specs.List.{join_by};
ghost use Rattle.rate_formula.specs.FormulaText.{formula_text, term_text, part_text, rate_text};
ghost use Rattle.rate_formula.specs.FormulaLexemes.{IsWritable, HasLexemes, formula_lexemes};

use crate::formula::Formula;
use merlin_model::policy::{Bound, Part, Term};
use merlin_model::{Name, OutOfMemory, name_from};
use std::alloc::{AllocError, Global};

/// The text of a formula, such as `max(x + y + 5kbps, 9kbps) and min(x, 2kbps)`. Without a term it is empty.
pub fn print_formula(alloc: Global, formula: &Formula) -> Result<Name, OutOfMemory>
    ensures text { IfOk result (λ text. text ≡ formula_text formula.now.terms) }
    ensures reads_back { IfOk result (λ text. IsWritable formula.now.terms →
        HasLexemes text (formula_lexemes formula.now.terms)) }
{
    let mut text = Vec::new(alloc);
    for (place, term) in formula.terms.as_slice().iter().enumerate() {
        if 0 < place {
            text.extend_from_slice(b" and ")?;
        }
        write_term(alloc, &mut text, term)?;
    }
    name_from(alloc, &text)
}

/// Writes a term at the end of a text.
fn write_term(alloc: Global, text: &mut Vec<u8>, term: &Term) -> Result<(), AllocError>
    ensures { OnOk result (text.new.items ≡ text.old.items ++ term_text term.now) }
{
    let bound = match term.bound {
        Bound::Max => b"max(",
        Bound::Min => b"min(",
    };
    text.extend_from_slice(bound)?;
    write_sum(alloc, text, term.parts.as_slice())?;
    text.extend_from_slice(b", ")?;
    write_rate(alloc, text, term.rate)?;
    text.extend_from_slice(b")")
}

/// Writes the parts of a sum at the end of a text.
fn write_sum(alloc: Global, text: &mut Vec<u8>, parts: &[Part]) -> Result<(), AllocError>
    ensures { OnOk result (text.new.items ≡ text.old.items ++ join_by part_text
        (codes " + ") parts.now) }
{
    for (place, part) in parts.iter().enumerate() {
        if 0 < place {
            text.extend_from_slice(b" + ")?;
        }
        write_part(alloc, text, part)?;
    }
    Ok(())
}

/// Writes a part of a sum at the end of a text.
fn write_part(alloc: Global, text: &mut Vec<u8>, part: &Part) -> Result<(), AllocError>
    ensures { OnOk result (text.new.items ≡ text.old.items ++ part_text part.now) }
{
    match part {
        Part::Id(id) => text.extend_from_slice(id.bytes()),
        Part::Constant(rate) => write_rate(alloc, text, *rate),
    }
}

/// Writes a rate in kbit/s at the end of a text.
fn write_rate(alloc: Global, text: &mut Vec<u8>, rate: u64) -> Result<(), AllocError>
    ensures { OnOk result (text.new.items ≡ text.old.items ++ rate_text rate) }
{
    let rate = format!(in alloc; "{rate}kbps")?;
    text.extend_from_slice(rate.as_bytes())
}
