//! Terms of the bandwidth formula.

ghost use Rattle.std.specs.Prelude.{◌≡◌, ◌<◌, ◌≤◌, ℕ, List, [], ◌∷◌, ◌++◌, IfOk, IfErr, IfSome, Option, length};
ghost use Rattle.merlin_model.specs.declared.policy.Bound.{Bound};
ghost use Rattle.merlin_model.specs.declared.policy.Part.{Part};
ghost use Rattle.merlin_model.specs.declared.policy.Term.{Term};
ghost use Rattle.policy_grammar.specs.declared.written.Item.{Item};
ghost use Rattle.policy_grammar.specs.declared.written.RawPath.{RawPath};
ghost use Rattle.policy_grammar.specs.declared.written.WrittenPolicy.{WrittenPolicy};
ghost use Rattle.policy_grammar.specs.declared.written.WrittenSet.{WrittenSet};
ghost use Rattle.policy_grammar.specs.Machine.{terms_rest, term as any_term, leading, summand};
ghost use Rattle.policy_parser.specs.Readers.{run_text, AgreesWithRun, Reads, Shortens, ReadsAll, IsSyntax, alone, policy_with, after_list, term_awaited, after_leading, after_summand, after_sum, after_term, more_terms};

use crate::fault::ReadError;
use crate::signs::{Read, bound_at, next_of, rate_at, sign_at};
use merlin_model::name::name_from;
use merlin_model::policy::{Part, Term};
use merlin_text::{Lexeme, Lexemes, Sign, Word};
use sqlite_items::Items;
use std::alloc::Global;

/// The rates before the first id, and that id.
fn leading_part<'a>(alloc: Global, lexemes: Lexemes<'a>) -> Read<'a, Items<Part>>
    ensures reads { (w : WrittenPolicy) (b : Bound) →
        Reads (alone (leading w b [])) lexemes.entry result (after_leading w b) }
    ensures shorter { Shortens lexemes.entry result }
{
    let mut parts = Items::new(alloc);
    let mut rest = lexemes;
    'rates: loop {
        let (first, others) = next_of(&rest)?;
        match first {
            Lexeme::Rate(rate) => {
                parts.push(Part::Constant(rate))?;
                rest = sign_at(Sign::Plus, others)?;
            }
            Lexeme::Name(text, _) => {
                parts.push(Part::Id(name_from(alloc, text)?))?;
                return Ok((parts, others));
            }
            _ => return Err(ReadError::Syntax(rest.len())),
        }
    }
}

/// A part after `+`, and what follows it.
fn summand_at<'a>(alloc: Global, lexemes: Lexemes<'a>) -> Read<'a, Part>
    ensures reads { (w : WrittenPolicy) (b : Bound) (parts : List Part) →
        Reads (alone (summand w b parts)) lexemes.entry result (after_summand w b parts) }
    ensures shorter { Shortens lexemes.entry result }
{
    let (first, rest) = next_of(&lexemes)?;
    match first {
        Lexeme::Rate(rate) => Ok((Part::Constant(rate), rest)),
        Lexeme::Name(text, _) => Ok((Part::Id(name_from(alloc, text)?), rest)),
        _ => Err(ReadError::Syntax(lexemes.len())),
    }
}

/// The sum of a term, up to the comma before its rate.
fn sum<'a>(alloc: Global, lexemes: Lexemes<'a>) -> Read<'a, Items<Part>>
    ensures reads { (w : WrittenPolicy) (b : Bound) →
        Reads (alone (leading w b [])) lexemes.entry result (after_sum w b) }
    ensures shorter { Shortens lexemes.entry result }
{
    let (mut parts, mut rest) = leading_part(alloc, lexemes)?;
    'summands: loop {
        let (first, others) = next_of(&rest)?;
        match first {
            Lexeme::Sign(Sign::Plus) => {
                let (part, others) = summand_at(alloc, others)?;
                parts.push(part)?;
                rest = others;
            }
            Lexeme::Sign(Sign::Comma) => return Ok((parts, others)),
            _ => return Err(ReadError::Syntax(rest.len())),
        }
    }
}

/// A term, and what follows it.
fn term<'a>(alloc: Global, lexemes: Lexemes<'a>) -> Read<'a, Term>
    ensures reads { (w : WrittenPolicy) →
        Reads (alone (any_term w)) lexemes.entry result (after_term w) }
    ensures shorter { Shortens lexemes.entry result }
{
    let (bound, rest) = bound_at(lexemes)?;
    let rest = sign_at(Sign::OpenGroup, rest)?;
    let (parts, rest) = sum(alloc, rest)?;
    let (rate, rest) = rate_at(rest)?;
    let rest = sign_at(Sign::CloseGroup, rest)?;
    Ok((Term { bound, parts, rate }, rest))
}

/// What follows `and`, if another term stands after this one. None at the end of the text.
fn next_term<'a>(lexemes: Lexemes<'a>) -> Result<Option<Lexemes<'a>>, ReadError>
    ensures reads { (w : WrittenPolicy) →
        AgreesWithRun result (more_terms w) (run_text lexemes.entry (alone (terms_rest w))) }
    ensures shorter { IfOk result (λ r. IfSome r (λ rest. length rest < length lexemes.entry)) }
    ensures no_memory { IfErr result IsSyntax }
{
    let Some((first, rest)) = lexemes.split_first() else {
        return Ok(None);
    };
    match first {
        Lexeme::Word(Word::And) => Ok(Some(rest)),
        _ => Err(ReadError::Syntax(lexemes.len())),
    }
}

/// The terms up to the end of the text.
fn terms_after<'a>(alloc: Global, lexemes: Lexemes<'a>) -> Result<Items<Term>, ReadError>
    ensures { (sets : List WrittenSet) (items : List Item) (default : Option RawPath) →
        ReadsAll (term_awaited sets items default) lexemes.entry result
        (policy_with sets items default) }
{
    let mut terms = Items::new(alloc);
    let mut rest = lexemes;
    'terms: loop {
        let (term, others) = term(alloc, rest)?;
        terms.push(term)?;
        match next_term(others)? {
            Some(after) => rest = after,
            None => return Ok(terms),
        }
    }
}

/// What follows the list: nothing, or a comma and terms.
pub(crate) fn formula_of<'a>(alloc: Global, lexemes: Lexemes<'a>) -> Result<Items<Term>, ReadError>
    ensures { (sets : List WrittenSet) (items : List Item) (default : Option RawPath) →
        ReadsAll (after_list sets (items, default)) lexemes.entry result
        (policy_with sets items default) }
{
    let Some((first, rest)) = lexemes.split_first() else {
        return Ok(Items::new(alloc));
    };
    match first {
        Lexeme::Sign(Sign::Comma) => terms_after(alloc, rest),
        _ => Err(ReadError::Syntax(lexemes.len())),
    }
}
