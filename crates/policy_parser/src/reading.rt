//! A whole policy from its lexemes.

ghost use Rattle.policy_grammar.specs.Machine.{first_state};
ghost use Rattle.policy_parser.specs.Readers.{ReadsAll};

use crate::fault::ReadError;
use crate::items::items;
use crate::sets::sets;
use crate::terms::formula_of;
use merlin_text::Lexemes;
use policy_grammar::written::WrittenPolicy;
use std::alloc::Global;

/// The policy as it is written, or how many lexemes are left where no policy goes on.
pub fn read_policy(alloc: Global, lexemes: Lexemes<'_>) -> Result<WrittenPolicy, ReadError>
    ensures { ReadsAll first_state lexemes.entry result (λ policy. policy) }
{
    let (sets, rest) = sets(alloc, lexemes)?;
    let ((items, default_path), rest) = items(alloc, rest)?;
    let terms = formula_of(alloc, rest)?;
    Ok(WrittenPolicy {
        sets,
        items,
        default_path,
        terms,
    })
}
