//! Readers of one lexeme, of which recursive descent is made: each takes the lexemes from its phrase on, and gives those after it.

ghost use Rattle.std.specs.Prelude.{◌≡◌, ◌==◌, ℕ, List, [], ◌∷◌, IfOk, IfErr};
ghost use Rattle.merlin_model.specs.declared.policy.Bound.{Bound};
ghost use Rattle.merlin_model.specs.declared.policy.Part.{Part};
ghost use Rattle.merlin_text.specs.ReadLexemes.{as_lexeme};
ghost use Rattle.policy_grammar.specs.declared.written.WrittenPolicy.{WrittenPolicy};
ghost use Rattle.policy_grammar.specs.Machine.{Awaited, Head, Opened, this_sign, this_word, any_name, outer_set, inner_set, each_id, limit, limit_rate, term, sign_number, word_number, awaiting};
ghost use Rattle.policy_parser.specs.declared.fault.ReadError.TheVariants as errors;
ghost use Rattle.policy_parser.specs.Readers.{Reads, Shortens, Skips, ShortensTo, IsSyntax, alone, after_outer, after_inner, after_each_id, after_bound, after_rate, after_sum, after_term_bound, after_term_rate};

use crate::fault::ReadError;
use merlin_model::name::{Name, name_from};
use merlin_model::policy::Bound;
use merlin_text::{Lexeme, Lexemes, Sign, Word};
use std::alloc::Global;

/// What a reader gives: the value of its phrase and the lexemes after it.
pub(crate) type Read<'a, T> = Result<(T, Lexemes<'a>), ReadError>;

/// The next lexeme, and those after it: where none is left, no policy goes on.
pub(crate) fn next_of<'a>(lexemes: &Lexemes<'a>) -> Read<'a, Lexeme<'a>>
    ensures some { IfOk result (λ read. lexemes.now ≡ as_lexeme read.0 ∷ read.1) }
    ensures none { IfErr result (λ error. (lexemes.now ≡ []) × (error ≡ errors.Syntax 0)) }
{
    match lexemes.split_first() {
        Some((first, rest)) => Ok((first, rest)),
        None => Err(ReadError::Syntax(0)),
    }
}

fn is_sign(found: Sign, sign: Sign) -> bool
    ensures { result ≡ (sign_number sign == sign_number found) }
{
    found == sign
}

fn is_word(found: Word, word: Word) -> bool
    ensures { result ≡ (word_number word == word_number found) }
{
    found == word
}

/// What follows this sign.
pub(crate) fn sign_at<'a>(sign: Sign, lexemes: Lexemes<'a>) -> Result<Lexemes<'a>, ReadError>
    ensures reads { (k : List Awaited) (n : ℕ) →
        Skips (awaiting (this_sign sign ∷ k) n) lexemes.entry result (awaiting k n) }
    ensures shorter { ShortensTo lexemes.entry result }
    ensures no_memory { IfErr result IsSyntax }
{
    let (first, rest) = next_of(&lexemes)?;
    match first {
        Lexeme::Sign(found) if is_sign(found, sign) => Ok(rest),
        _ => Err(ReadError::Syntax(lexemes.len())),
    }
}

/// What follows this word.
pub(crate) fn word_at<'a>(word: Word, lexemes: Lexemes<'a>) -> Result<Lexemes<'a>, ReadError>
    ensures reads { (k : List Awaited) (n : ℕ) →
        Skips (awaiting (this_word word ∷ k) n) lexemes.entry result (awaiting k n) }
    ensures shorter { ShortensTo lexemes.entry result }
    ensures no_memory { IfErr result IsSyntax }
{
    let (first, rest) = next_of(&lexemes)?;
    match first {
        Lexeme::Word(found) if is_word(found, word) => Ok(rest),
        _ => Err(ReadError::Syntax(lexemes.len())),
    }
}

/// What follows a name, whatever it is.
pub(crate) fn any_name_at<'a>(lexemes: Lexemes<'a>) -> Result<Lexemes<'a>, ReadError>
    ensures reads { (k : List Awaited) (n : ℕ) →
        Skips (awaiting (any_name ∷ k) n) lexemes.entry result (awaiting k n) }
    ensures shorter { ShortensTo lexemes.entry result }
    ensures no_memory { IfErr result IsSyntax }
{
    let (first, rest) = next_of(&lexemes)?;
    match first {
        Lexeme::Name(_, _) => Ok(rest),
        _ => Err(ReadError::Syntax(lexemes.len())),
    }
}

/// The name of a set after `cross`, or the id of its statement, and what follows it.
pub(crate) fn name_at<'a>(alloc: Global, lexemes: Lexemes<'a>) -> Read<'a, Name>
    ensures outer { (h : Head) →
        Reads (alone (outer_set h)) lexemes.entry result (after_outer h) }
    ensures inner { (h : Head) (outer : List ℕ) →
        Reads (alone (inner_set h outer)) lexemes.entry result (after_inner h outer) }
    ensures id { (h : Head) (outer inner : List ℕ) →
        Reads (alone (each_id h outer inner)) lexemes.entry result (after_each_id h outer inner) }
    ensures shorter { Shortens lexemes.entry result }
{
    let (first, rest) = next_of(&lexemes)?;
    match first {
        Lexeme::Name(text, _) => Ok((name_from(alloc, text)?, rest)),
        _ => Err(ReadError::Syntax(lexemes.len())),
    }
}

/// The bound of a limit or a term, and what follows it.
pub(crate) fn bound_at<'a>(lexemes: Lexemes<'a>) -> Read<'a, Bound>
    ensures limit { (o : Opened) →
        Reads (alone (limit o)) lexemes.entry result (after_bound o) }
    ensures term { (w : WrittenPolicy) →
        Reads (alone (term w)) lexemes.entry result (after_term_bound w) }
    ensures shorter { Shortens lexemes.entry result }
    ensures no_memory { IfErr result IsSyntax }
{
    let (first, rest) = next_of(&lexemes)?;
    match first {
        Lexeme::Word(Word::Max) => Ok((Bound::Max, rest)),
        Lexeme::Word(Word::Min) => Ok((Bound::Min, rest)),
        _ => Err(ReadError::Syntax(lexemes.len())),
    }
}

/// The rate of a limit or a term, and what follows it.
pub(crate) fn rate_at<'a>(lexemes: Lexemes<'a>) -> Read<'a, u64>
    ensures limit { (o : Opened) (b : Bound) →
        Reads (alone (limit_rate o b)) lexemes.entry result (after_rate o b) }
    ensures term { (w : WrittenPolicy) (b : Bound) (parts : List Part) →
        Reads (after_sum w b parts) lexemes.entry result (after_term_rate w b parts) }
    ensures shorter { Shortens lexemes.entry result }
    ensures no_memory { IfErr result IsSyntax }
{
    let (first, rest) = next_of(&lexemes)?;
    match first {
        Lexeme::Rate(rate) => Ok((rate, rest)),
        _ => Err(ReadError::Syntax(lexemes.len())),
    }
}
