//! Path expressions.

ghost use Rattle.std.specs.Prelude.{◌≡◌, ◌+◌, ◌≤◌, ℕ, List, [], ◌∷◌, ◌++◌, IfOk, length, false};
ghost use Rattle.policy_grammar.specs.declared.limits.TheConstants.{MAX_NESTING};
ghost use Rattle.policy_grammar.specs.declared.written.RawPath.{RawPath};
ghost use Rattle.policy_grammar.specs.PathTexts.{one_or_cat, one_or_alt};
ghost use Rattle.policy_grammar.specs.Machine.{Awaited, rep as rep_awaited, prim, reps, alts, path_bracket, whole_path, put_path, opens, awaiting};
ghost use Rattle.policy_parser.specs.Readers.{run_text, Reads, Shortens, IsInSequence, path_awaited, after_rep, after_sequence, after_path, begins_list, stars_list};

use crate::fault::ReadError;
use crate::signs::{Read, next_of};
use merlin_model::name::name_from;
use merlin_text::{Lexeme, Lexemes, Sign};
use policy_grammar::written::RawPath;
use sqlite_items::{Boxed, Items};
use std::alloc::Global;

/// Whether there are stars, and what follows them.
fn stars<'a>(lexemes: Lexemes<'a>) -> (bool, Lexemes<'a>)
    ensures reads { (p : RawPath) (k : List Awaited) (n : ℕ) →
        run_text lexemes.entry (awaiting (prim p false ∷ k) n)
        ≡ run_text result.1 (awaiting (prim p result.0 ∷ k) n) }
    ensures all { stars_list result.1 ≡ false }
    ensures shorter { length result.1 ≤ length lexemes.entry }
{
    let mut found = false;
    let mut rest = lexemes;
    'stars: while let Some((Lexeme::Sign(Sign::Star), others)) = rest.split_first() {
        found = true;
        rest = others;
    }
    (found, rest)
}

/// A path with the stars after it, and what follows them.
fn with_stars<'a>(alloc: Global, path: RawPath, lexemes: Lexemes<'a>) -> Read<'a, RawPath>
    ensures reads { (k : List Awaited) (n : ℕ) → IsInSequence k →
        Reads (awaiting (prim path false ∷ k) n) lexemes.entry result
        (λ path. awaiting (put_path path k) n) }
    ensures shorter { IfOk result (λ read. length read.1 ≤ length lexemes.entry) }
{
    let (found, rest) = stars(lexemes);
    if found {
        Ok((RawPath::Star(Boxed::new(alloc, path)?), rest))
    } else {
        Ok((path, rest))
    }
}

/// One path is itself, several are a `Cat`.
fn cat(mut parts: Items<RawPath>) -> RawPath
    ensures { result ≡ one_or_cat parts }
{
    if parts.len() == 1 {
        if let Some(part) = parts.pop() {
            return part;
        }
    }
    RawPath::Cat(parts)
}

/// One path is itself, several are an `Alt`.
fn alt(mut parts: Items<RawPath>) -> RawPath
    ensures { result ≡ one_or_alt parts }
{
    if parts.len() == 1 {
        if let Some(part) = parts.pop() {
            return part;
        }
    }
    RawPath::Alt(parts)
}

/// A name, a dot or a bracket with its stars, or a bang before such. `room` is how many brackets and bangs may still be opened, `left`
/// how many names and dots may still come; what is left of these is given back.
#[tactic(auto, using(crate::proofs::Stars::path_laws))]
#[cycle(path_of)]
fn rep<'a>(
    alloc: Global,
    lexemes: Lexemes<'a>,
    room: usize,
    left: usize,
) -> Read<'a, (RawPath, usize)>
    ensures reads { (k : List Awaited) → IsInSequence k → opens k + room ≡ MAX_NESTING →
        Reads (awaiting (rep_awaited ∷ k) left) lexemes.entry result (after_rep k) }
    ensures shorter { Shortens lexemes.entry result }
{
    if left == 0 {
        return Err(ReadError::Syntax(lexemes.len()));
    }
    let (first, rest) = next_of(&lexemes)?;
    match first {
        Lexeme::Sign(Sign::Bang) if 0 < room => {
            let ((path, left), rest) = rep(alloc, rest, room - 1, left)?;
            Ok(((RawPath::Not(Boxed::new(alloc, path)?), left), rest))
        }
        Lexeme::Sign(Sign::OpenGroup) if 0 < room => group(alloc, rest, room - 1, left),
        Lexeme::Sign(Sign::Dot) => {
            let (path, rest) = with_stars(alloc, RawPath::Dot, rest)?;
            Ok(((path, left - 1), rest))
        }
        Lexeme::Name(text, at) => {
            let name = name_from(alloc, text)?;
            let (path, rest) = with_stars(alloc, RawPath::Named { name, at }, rest)?;
            Ok(((path, left - 1), rest))
        }
        _ => Err(ReadError::Syntax(lexemes.len())),
    }
}

/// A path after its opening bracket, with the closing one and its stars.
#[tactic(auto, using(crate::proofs::Stars::path_laws))]
#[cycle(path_of)]
fn group<'a>(
    alloc: Global,
    lexemes: Lexemes<'a>,
    room: usize,
    left: usize,
) -> Read<'a, (RawPath, usize)>
    ensures reads { (k : List Awaited) → IsInSequence k → opens k + 1 + room ≡ MAX_NESTING →
        Reads (awaiting (path_awaited (path_bracket ∷ k)) left) lexemes.entry result
        (after_rep k) }
    ensures shorter { Shortens lexemes.entry result }
{
    let ((path, left), rest) = path_of(alloc, lexemes, room, left)?;
    let (first, after) = next_of(&rest)?;
    match first {
        Lexeme::Sign(Sign::CloseGroup) => {
            let (path, rest) = with_stars(alloc, path, after)?;
            Ok(((path, left), rest))
        }
        _ => Err(ReadError::Syntax(rest.len())),
    }
}

fn begins_rep(lexemes: &Lexemes<'_>) -> bool
    ensures { result ≡ begins_list lexemes.now }
{
    match lexemes.split_first() {
        Some((first, _rest)) => matches!(
            first,
            Lexeme::Name(_, _) | Lexeme::Sign(Sign::Bang | Sign::OpenGroup | Sign::Dot)
        ),
        None => false,
    }
}

/// Such paths one after another.
#[tactic(auto, using(crate::proofs::Stars::path_laws))]
#[cycle(path_of)]
fn sequence<'a>(
    alloc: Global,
    lexemes: Lexemes<'a>,
    room: usize,
    left: usize,
) -> Read<'a, (RawPath, usize)>
    ensures reads { (k : List Awaited) (ps : List RawPath) → opens k + room ≡ MAX_NESTING →
        Reads (awaiting (rep_awaited ∷ reps [] ∷ alts ps ∷ k) left) lexemes.entry result
        (after_sequence ps k) }
    ensures shorter { Shortens lexemes.entry result }
{
    let mut parts = Items::new(alloc);
    let ((path, mut spare), mut rest) = rep(alloc, lexemes, room, left)?;
    parts.push(path)?;
    'reps: while begins_rep(&rest) {
        let ((path, fewer), others) = rep(alloc, rest, room, spare)?;
        parts.push(path)?;
        rest = others;
        spare = fewer;
    }
    Ok(((cat(parts), spare), rest))
}

/// A path expression: sequences with `|` between them.
#[tactic(auto, using(crate::proofs::Stars::path_laws))]
#[cycle(path_of)]
pub(crate) fn path_of<'a>(
    alloc: Global,
    lexemes: Lexemes<'a>,
    room: usize,
    left: usize,
) -> Read<'a, (RawPath, usize)>
    ensures reads { (k : List Awaited) → opens k + room ≡ MAX_NESTING →
        Reads (awaiting (path_awaited k) left) lexemes.entry result (after_path k) }
    ensures shorter { Shortens lexemes.entry result }
{
    let mut parts = Items::new(alloc);
    let ((path, mut spare), mut rest) = sequence(alloc, lexemes, room, left)?;
    parts.push(path)?;
    'alternatives: loop {
        let Some((first, after)) = rest.split_first() else {
            return Ok(((alt(parts), spare), rest));
        };
        match first {
            Lexeme::Sign(Sign::Bar) if 0 < spare => {
                let ((path, fewer), others) = sequence(alloc, after, room, spare)?;
                parts.push(path)?;
                rest = others;
                spare = fewer;
            }
            _ => return Ok(((alt(parts), spare), rest)),
        }
    }
}
