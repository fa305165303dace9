//! The items of the list.

ghost use Rattle.std.specs.Prelude.{◌≡◌, ℕ, List, [], ◌∷◌, IfErr, Option, None};
ghost use Rattle.merlin_model.specs.declared.policy.Pred.{Pred};
ghost use Rattle.policy_grammar.specs.declared.written.RawPath.{RawPath};
ghost use Rattle.policy_grammar.specs.declared.written.WrittenSet.{WrittenSet};
ghost use Rattle.policy_grammar.specs.Machine.{Awaited, Head, Heading, Opened, limit as any_limit, item, heading_of, awaiting};
ghost use Rattle.policy_parser.specs.Readers.{Reads, Shortens, Skips, ShortensTo, IsSyntax, alone, after_limit, limits_awaited, after_limits, end_of_statement, path_of_statement, after_statement, after_entry, after_list, statement_awaited, variables_awaited, cross_awaited, for_each_awaited, after_cross, default_awaited, first_item};

use crate::fault::ReadError;
use crate::paths::path_of;
use crate::predicates::predicate;
use crate::signs::{Read, any_name_at, bound_at, name_at, next_of, rate_at, sign_at, word_at};
use merlin_model::name::{Name, name_from};
use merlin_model::policy::Pred;
use merlin_text::{Lexeme, Lexemes, Sign, Word};
use policy_grammar::limits::{MAX_NESTING, MAX_PATH_NAMES, MAX_TESTS};
use policy_grammar::written::{Item, Limit, RawPath, WrittenStatement};
use sqlite_items::Items;
use std::alloc::Global;

/// What a sign after an item ends.
#[derive(Clone, Copy)]
pub enum Ending {
    /// The item alone: another may follow.
    Item,
    /// The whole list.
    List,
}

/// What stands where an item may begin.
#[derive(Drop)]
pub enum Entry {
    /// An item, with what its last sign ends.
    Item(Item, Ending),
    /// The default, which ends the list.
    Default(RawPath),
    /// The end of the list.
    End,
}

/// A limit, and what follows it.
fn limit_at<'a>(lexemes: Lexemes<'a>) -> Read<'a, Limit>
    ensures reads { (o : Opened) →
        Reads (alone (any_limit o)) lexemes.entry result (after_limit o) }
    ensures shorter { Shortens lexemes.entry result }
    ensures no_memory { IfErr result IsSyntax }
{
    let (bound, rest) = bound_at(lexemes)?;
    let rest = sign_at(Sign::OpenGroup, rest)?;
    let (rate, rest) = rate_at(rest)?;
    let rest = sign_at(Sign::CloseGroup, rest)?;
    Ok((Limit { bound, rate }, rest))
}

/// The limits after `at`, up to the sign that ends the statement.
fn limits<'a>(alloc: Global, lexemes: Lexemes<'a>) -> Read<'a, (Items<Limit>, Ending)>
    ensures reads { (h : Heading) (pred : Pred) (path : RawPath) →
        Reads (limits_awaited h pred path) lexemes.entry result (after_limits h pred path) }
    ensures shorter { Shortens lexemes.entry result }
{
    let mut limits = Items::new(alloc);
    let mut rest = lexemes;
    'limits: loop {
        let (limit, others) = limit_at(rest)?;
        limits.push(limit)?;
        let (first, after) = next_of(&others)?;
        match first {
            Lexeme::Word(Word::And) => rest = after,
            Lexeme::Sign(Sign::Semicolon) => return Ok(((limits, Ending::Item), after)),
            Lexeme::Sign(Sign::CloseList) => return Ok(((limits, Ending::List), after)),
            _ => return Err(ReadError::Syntax(others.len())),
        }
    }
}

/// What follows a statement's path: its limits, and the sign that ends it.
fn statement_end<'a>(alloc: Global, lexemes: Lexemes<'a>) -> Read<'a, (Items<Limit>, Ending)>
    ensures reads { (h : Heading) (pred : Pred) (path : RawPath) (n : ℕ) →
        Reads (end_of_statement h pred path n) lexemes.entry result (after_limits h pred path) }
    ensures shorter { Shortens lexemes.entry result }
{
    let (first, rest) = next_of(&lexemes)?;
    match first {
        Lexeme::Word(Word::At) => limits(alloc, rest),
        Lexeme::Sign(Sign::Semicolon) => Ok(((Items::new(alloc), Ending::Item), rest)),
        Lexeme::Sign(Sign::CloseList) => Ok(((Items::new(alloc), Ending::List), rest)),
        _ => Err(ReadError::Syntax(lexemes.len())),
    }
}

/// A predicate and the arrow after it.
fn pred_part<'a>(alloc: Global, lexemes: Lexemes<'a>) -> Read<'a, Pred>
    ensures reads { (h : Heading) →
        Reads (statement_awaited h) lexemes.entry result (path_of_statement h) }
    ensures shorter { Shortens lexemes.entry result }
{
    let rest = sign_at(Sign::Colon, lexemes)?;
    let ((pred, _left), rest) = predicate(alloc, rest, MAX_NESTING, MAX_TESTS)?;
    let (first, after) = next_of(&rest)?;
    match first {
        Lexeme::Sign(Sign::Arrow) => Ok((pred, after)),
        _ => Err(ReadError::Syntax(rest.len())),
    }
}

/// A statement whose id is read, with the sign that ends it.
fn statement<'a>(
    alloc: Global,
    id: Name,
    lexemes: Lexemes<'a>,
) -> Read<'a, (WrittenStatement, Ending)>
    ensures reads { (h : Head) (pair : Option (List ℕ × List ℕ)) →
        Reads (statement_awaited (heading_of h pair id)) lexemes.entry result
        (after_statement h pair) }
    ensures shorter { Shortens lexemes.entry result }
{
    let (pred, rest) = pred_part(alloc, lexemes)?;
    let ((path, _left), rest) = path_of(alloc, rest, MAX_NESTING, MAX_PATH_NAMES)?;
    let ((limits, end), rest) = statement_end(alloc, rest)?;
    let statement = WrittenStatement {
        id,
        pred,
        path,
        limits,
    };
    Ok(((statement, end), rest))
}

/// A plain statement whose id is read.
fn plain<'a>(alloc: Global, id: &[u8], lexemes: Lexemes<'a>) -> Read<'a, Entry>
    ensures reads { (h : Head) →
        Reads (statement_awaited (heading_of h None id.now)) lexemes.entry result (after_entry h) }
    ensures shorter { Shortens lexemes.entry result }
{
    let id = name_from(alloc, id)?;
    let ((statement, end), rest) = statement(alloc, id, lexemes)?;
    Ok((Entry::Item(Item::One(statement), end), rest))
}

/// The two names after `foreach`, which stand for nothing else.
fn variables<'a>(lexemes: Lexemes<'a>) -> Result<Lexemes<'a>, ReadError>
    ensures reads { (k : List Awaited) (n : ℕ) →
        Skips (awaiting (variables_awaited k) n) lexemes.entry result (awaiting k n) }
    ensures shorter { ShortensTo lexemes.entry result }
    ensures no_memory { IfErr result IsSyntax }
{
    let rest = sign_at(Sign::OpenGroup, lexemes)?;
    let rest = any_name_at(rest)?;
    let rest = sign_at(Sign::Comma, rest)?;
    let rest = any_name_at(rest)?;
    sign_at(Sign::CloseGroup, rest)
}

/// The two sets of a `foreach`, after its names.
fn crossed<'a>(alloc: Global, lexemes: Lexemes<'a>) -> Read<'a, (Name, Name)>
    ensures reads { (h : Head) →
        Reads (awaiting (cross_awaited h) 0) lexemes.entry result (after_cross h) }
    ensures shorter { Shortens lexemes.entry result }
{
    let rest = word_at(Word::In, lexemes)?;
    let rest = word_at(Word::Cross, rest)?;
    let rest = sign_at(Sign::OpenGroup, rest)?;
    let (outer, rest) = name_at(alloc, rest)?;
    let rest = sign_at(Sign::Comma, rest)?;
    let (inner, rest) = name_at(alloc, rest)?;
    Ok(((outer, inner), rest))
}

/// What follows `foreach`.
fn for_each<'a>(alloc: Global, lexemes: Lexemes<'a>) -> Read<'a, Entry>
    ensures reads { (h : Head) →
        Reads (for_each_awaited h) lexemes.entry result (after_entry h) }
    ensures shorter { Shortens lexemes.entry result }
{
    let rest = variables(lexemes)?;
    let ((outer, inner), rest) = crossed(alloc, rest)?;
    let rest = sign_at(Sign::CloseGroup, rest)?;
    let rest = sign_at(Sign::Colon, rest)?;
    let (id, rest) = name_at(alloc, rest)?;
    let ((statement, end), rest) = statement(alloc, id, rest)?;
    let item = Item::ForEach {
        outer,
        inner,
        statement,
    };
    Ok((Entry::Item(item, end), rest))
}

/// What follows `default`, up to the end of the list.
fn default_path<'a>(alloc: Global, lexemes: Lexemes<'a>) -> Read<'a, Entry>
    ensures reads { (h : Head) →
        Reads (default_awaited h) lexemes.entry result (after_entry h) }
    ensures shorter { Shortens lexemes.entry result }
{
    let rest = sign_at(Sign::Arrow, lexemes)?;
    let ((path, _left), rest) = path_of(alloc, rest, MAX_NESTING, MAX_PATH_NAMES)?;
    let (first, after) = next_of(&rest)?;
    match first {
        Lexeme::Sign(Sign::CloseList) => Ok((Entry::Default(path), after)),
        Lexeme::Sign(Sign::Semicolon) => {
            let after = sign_at(Sign::CloseList, after)?;
            Ok((Entry::Default(path), after))
        }
        _ => Err(ReadError::Syntax(rest.len())),
    }
}

/// What stands where an item may begin, with the sign that ends it.
fn entry_of<'a>(alloc: Global, lexemes: Lexemes<'a>) -> Read<'a, Entry>
    ensures reads { (h : Head) →
        Reads (alone (item h)) lexemes.entry result (after_entry h) }
    ensures shorter { Shortens lexemes.entry result }
{
    let (first, rest) = next_of(&lexemes)?;
    match first {
        Lexeme::Name(text, _) => plain(alloc, text, rest),
        Lexeme::Word(Word::Foreach) => for_each(alloc, rest),
        Lexeme::Word(Word::Default) => default_path(alloc, rest),
        Lexeme::Sign(Sign::CloseList) => Ok((Entry::End, rest)),
        _ => Err(ReadError::Syntax(lexemes.len())),
    }
}

/// The items of the list and its default, and what follows the list.
pub(crate) fn items<'a>(
    alloc: Global,
    lexemes: Lexemes<'a>,
) -> Read<'a, (Items<Item>, Option<RawPath>)>
    ensures { (sets : List WrittenSet) →
        Reads (first_item sets) lexemes.entry result (after_list sets) }
{
    let mut items = Items::new(alloc);
    let mut rest = lexemes;
    'items: loop {
        let (entry, others) = entry_of(alloc, rest)?;
        match entry {
            Entry::Item(item, Ending::Item) => {
                items.push(item)?;
                rest = others;
            }
            Entry::Item(item, Ending::List) => {
                items.push(item)?;
                return Ok(((items, None), others));
            }
            Entry::Default(path) => return Ok(((items, Some(path)), others)),
            Entry::End => return Ok(((items, None), others)),
        }
    }
}
