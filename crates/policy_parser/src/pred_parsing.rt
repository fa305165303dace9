//! A predicate that is a whole text.

ghost use Rattle.std.specs.Prelude.{◌≡◌, IfOk, IfErr, Result};
ghost use Rattle.merlin_model.specs.declared.policy.Pred.{Pred};
ghost use Rattle.merlin_model.specs.Predicates.{IsPred};
ghost use Rattle.policy_parser.specs.declared.fault.PolicyFault.{PolicyFault};
ghost use Rattle.policy_parser.specs.Policies.{AreOneReading};
ghost use Rattle.policy_parser.specs.PredicateTexts.{IsPredicateText, IsPredicateRead, IsPredicateReading, IsRefusedPredicate};
ghost use Rattle.policy_parser.specs.Readers.{ReadsPredicate, first_pred};

use crate::fault::{PolicyFault, ReadError};
use crate::parsing::place_of;
use crate::predicates::predicate;
use merlin_model::policy::Pred;
use merlin_text::{Cursor, Lexemes, scan};
use policy_grammar::limits::{MAX_NESTING, MAX_TESTS};
use std::alloc::Global;

/// The predicate that the whole text stands for, or why it stands for none.
///
/// # Errors
/// The first of: a faulty token (`BadByte`, `BadNumber`), the place where the tokens stop being a predicate (`Syntax`).
pub fn parse_pred(alloc: Global, bytes: &[u8]) -> Result<Pred, PolicyFault>
    ensures ok { IfOk result (IsPredicateText bytes.now) }
    ensures err { IfErr result (λ fault. IsRefusedPredicate fault bytes.now) }
    ensures only { (other : Result Pred PolicyFault) →
        IsPredicateReading bytes.now other → AreOneReading result other }
    ensures formed { IfOk result IsPred }
{
    match scan(bytes) {
        Ok(tokens) => pred_of(alloc, bytes, tokens),
        Err(fault) => Err(PolicyFault::from(fault)),
    }
}

// The predicate of these tokens.
fn pred_of(alloc: Global, bytes: &[u8], tokens: Cursor<'_>) -> Result<Pred, PolicyFault>
    ensures { IsPredicateRead bytes.now tokens.entry result }
{
    let count = tokens.len();
    match read_pred(alloc, Lexemes::new(bytes, tokens.copy())) {
        Ok(pred) => Ok(pred),
        Err(ReadError::Memory) => Err(PolicyFault::OutOfMemory),
        Err(ReadError::Syntax(left)) => Err(PolicyFault::Syntax {
            at: place_of(bytes, tokens, count - left),
        }),
    }
}

// The predicate that the lexemes are, or how many are left where no predicate goes on.
fn read_pred(alloc: Global, lexemes: Lexemes<'_>) -> Result<Pred, ReadError>
    ensures { ReadsPredicate first_pred lexemes.entry result }
{
    let ((pred, _left), rest) = predicate(alloc, lexemes, MAX_NESTING, MAX_TESTS)?;
    match rest.split_first() {
        None => Ok(pred),
        Some(_) => Err(ReadError::Syntax(rest.len())),
    }
}
