//! Sets of addresses.

ghost use Rattle.std.specs.Prelude.{◌≡◌, ℕ, List, [], ◌∷◌, ◌++◌, IfErr};
ghost use Rattle.policy_grammar.specs.declared.written.Literal.{Literal};
ghost use Rattle.policy_grammar.specs.declared.written.WrittenSet.{WrittenSet};
ghost use Rattle.policy_grammar.specs.Machine.{set_start, set_more, first_state};
ghost use Rattle.policy_parser.specs.Readers.{Reads, Shortens, IsSyntax, alone, set_awaited, after_literal, after_set, first_item};

use crate::fault::ReadError;
use crate::signs::{Read, next_of, sign_at};
use merlin_model::name::name_from;
use merlin_text::{Lexeme, Lexemes, Sign};
use policy_grammar::written::{Literal, WrittenSet};
use sqlite_items::Items;
use std::alloc::Global;

/// An address of a set, and what follows it.
fn literal_at<'a>(lexemes: Lexemes<'a>) -> Read<'a, Literal>
    ensures reads { (sets : List WrittenSet) (name : List ℕ) (literals : List Literal) →
        Reads (alone (set_more sets name literals)) lexemes.entry result
        (after_literal sets name literals) }
    ensures shorter { Shortens lexemes.entry result }
    ensures no_memory { IfErr result IsSyntax }
{
    let (first, rest) = next_of(&lexemes)?;
    match first {
        Lexeme::Mac(mac) => Ok((Literal::Mac(mac), rest)),
        Lexeme::Ip(ip) => Ok((Literal::Ip(ip), rest)),
        _ => Err(ReadError::Syntax(lexemes.len())),
    }
}

/// The addresses up to the end of a set.
fn literals<'a>(alloc: Global, lexemes: Lexemes<'a>) -> Read<'a, Items<Literal>>
    ensures reads { (sets : List WrittenSet) (name : List ℕ) →
        Reads (alone (set_start sets name)) lexemes.entry result (after_set sets name) }
    ensures shorter { Shortens lexemes.entry result }
{
    let mut literals = Items::new(alloc);
    if let Some((Lexeme::Sign(Sign::CloseSet), rest)) = lexemes.split_first() {
        return Ok((literals, rest));
    }
    let mut rest = lexemes;
    'literals: loop {
        let (literal, others) = literal_at(rest)?;
        literals.push(literal)?;
        let (first, after) = next_of(&others)?;
        match first {
            Lexeme::Sign(Sign::Comma) => rest = after,
            Lexeme::Sign(Sign::CloseSet) => return Ok((literals, after)),
            _ => return Err(ReadError::Syntax(others.len())),
        }
    }
}

/// A set whose name is read.
fn set_after<'a>(alloc: Global, lexemes: Lexemes<'a>) -> Read<'a, Items<Literal>>
    ensures reads { (sets : List WrittenSet) (name : List ℕ) →
        Reads (set_awaited sets name) lexemes.entry result (after_set sets name) }
    ensures shorter { Shortens lexemes.entry result }
{
    let rest = sign_at(Sign::Becomes, lexemes)?;
    let rest = sign_at(Sign::OpenSet, rest)?;
    literals(alloc, rest)
}

/// The sets before the list, and what follows its opening.
pub(crate) fn sets<'a>(alloc: Global, lexemes: Lexemes<'a>) -> Read<'a, Items<WrittenSet>>
    ensures { Reads first_state lexemes.entry result first_item }
{
    let mut sets = Items::new(alloc);
    let mut rest = lexemes;
    'sets: loop {
        let (first, others) = next_of(&rest)?;
        match first {
            Lexeme::Name(text, _) => {
                let name = name_from(alloc, text)?;
                let (literals, others) = set_after(alloc, others)?;
                sets.push(WrittenSet { name, literals })?;
                rest = others;
            }
            Lexeme::Sign(Sign::OpenList) => return Ok((sets, others)),
            _ => return Err(ReadError::Syntax(rest.len())),
        }
    }
}
