//! Predicates.

ghost use Rattle.std.specs.Prelude.{if◌then◌else◌, ◌≡◌, ◌+◌, ℕ, List, [], ◌∷◌, ◌++◌, IfErr, Option, Some, None, nat_le};
ghost use Rattle.merlin_model.specs.declared.policy.Pred.{Pred};
ghost use Rattle.merlin_model.specs.declared.policy.Test.{Test};
ghost use Rattle.merlin_model.specs.declared.policy.Test.TheVariants.{Port};
ghost use Rattle.merlin_text.specs.ReadLexemes.{as_lexeme};
ghost use Rattle.policy_grammar.specs.declared.limits.TheConstants.{MAX_NESTING};
ghost use Rattle.policy_grammar.specs.Predicates.{test_of, block_test as test_of_block, all_of, any_of};
ghost use Rattle.policy_grammar.specs.Machine.{Awaited, literal as literal_awaited, lits, conjs, whole_pred, bracket, second, value_of, is_first as is_first_name, field_at, put, opens, awaiting};
ghost use Rattle.policy_parser.specs.Readers.{Reads, Shortens, Skips, ShortensTo, IsSyntax, pred_awaited, second_awaited, after_field, after_test, after_lit, after_conjunction, after_pred};

use crate::fault::ReadError;
use crate::signs::{Read, next_of, sign_at};
use merlin_model::policy::{Field, Pred, Test};
use merlin_text::{Lexeme, Lexemes, Sign, Word};
use policy_grammar::written::Tested;
use sqlite_items::{Boxed, Items};
use std::alloc::Global;

fn is_first(name: &[u8]) -> bool
    ensures { result ≡ is_first_name name.now }
{
    name == b"eth".as_slice()
        || name == b"ip".as_slice()
        || name == b"tcp".as_slice()
        || name == b"udp".as_slice()
}

fn field_of(first: &[u8], second: &[u8]) -> Option<Tested>
    ensures { result ≡ field_at first.now second.now }
{
    if first == b"eth".as_slice() && second == b"src".as_slice() {
        Some(Tested::EthSrc)
    } else if first == b"eth".as_slice() && second == b"dst".as_slice() {
        Some(Tested::EthDst)
    } else if first == b"ip".as_slice() && second == b"src".as_slice() {
        Some(Tested::IpSrc)
    } else if first == b"ip".as_slice() && second == b"dst".as_slice() {
        Some(Tested::IpDst)
    } else if first == b"ip".as_slice() && second == b"proto".as_slice() {
        Some(Tested::IpProto)
    } else if first == b"tcp".as_slice() && second == b"src".as_slice() {
        Some(Tested::TcpSrc)
    } else if first == b"tcp".as_slice() && second == b"dst".as_slice() {
        Some(Tested::TcpDst)
    } else if first == b"udp".as_slice() && second == b"src".as_slice() {
        Some(Tested::UdpSrc)
    } else if first == b"udp".as_slice() && second == b"dst".as_slice() {
        Some(Tested::UdpDst)
    } else {
        None
    }
}

fn port_test(proto: u8, field: Field, number: u32) -> Option<Test>
    ensures { result ≡ (if nat_le number 65535 then Some (Port proto field number) else None) }
{
    match u16::try_from(number) {
        Ok(value) => Some(Test::Port {
            proto,
            field,
            value,
        }),
        Err(_) => None,
    }
}

/// The test of a block of addresses: its bits past the length are taken as 0, and a block of one address is that address.
fn block_test(field: Field, value: u32, length: u8) -> Test
    ensures { result ≡ test_of_block field value length }
{
    let value = u64::from(value);
    if length < 32 {
        let size = 1u64 << (32 - length);
        Test::Within {
            field,
            value: value / size * size,
            length,
        }
    } else {
        Test::Is { field, value }
    }
}

/// The test of a field with a value, where the field takes that lexeme.
fn test_with(field: Tested, value: Lexeme<'_>) -> Option<Test>
    ensures { result ≡ test_of field (as_lexeme value.entry) }
{
    match (field, value) {
        (Tested::EthSrc, Lexeme::Mac(value)) => Some(Test::Is {
            field: Field::EthSrc,
            value,
        }),
        (Tested::EthDst, Lexeme::Mac(value)) => Some(Test::Is {
            field: Field::EthDst,
            value,
        }),
        (Tested::IpSrc, Lexeme::Ip(ip)) => Some(Test::Is {
            field: Field::IpSrc,
            value: ip as u64,
        }),
        (Tested::IpDst, Lexeme::Ip(ip)) => Some(Test::Is {
            field: Field::IpDst,
            value: ip as u64,
        }),
        (Tested::IpSrc, Lexeme::Prefix { value, length }) => {
            Some(block_test(Field::IpSrc, value, length))
        }
        (Tested::IpDst, Lexeme::Prefix { value, length }) => {
            Some(block_test(Field::IpDst, value, length))
        }
        (Tested::IpProto, Lexeme::Number(n)) if 1 <= n && n <= 255 => Some(Test::Is {
            field: Field::Proto,
            value: n as u64,
        }),
        (Tested::TcpSrc, Lexeme::Number(n)) => port_test(6, Field::Sport, n),
        (Tested::TcpDst, Lexeme::Number(n)) => port_test(6, Field::Dport, n),
        (Tested::UdpSrc, Lexeme::Number(n)) => port_test(17, Field::Sport, n),
        (Tested::UdpDst, Lexeme::Number(n)) => port_test(17, Field::Dport, n),
        _ => None,
    }
}

/// The field whose first name is read, and what follows its second.
fn field_part<'a>(first: &[u8], lexemes: Lexemes<'a>) -> Read<'a, Tested>
    ensures reads { (k : List Awaited) (n : ℕ) →
        Reads (awaiting (second first.now ∷ k) n) lexemes.entry result (after_field k n) }
    ensures shorter { Shortens lexemes.entry result }
    ensures no_memory { IfErr result IsSyntax }
{
    let (second, rest) = next_of(&lexemes)?;
    match second {
        Lexeme::Name(text, _) => match field_of(first, text) {
            Some(field) => Ok((field, rest)),
            None => Err(ReadError::Syntax(lexemes.len())),
        },
        _ => Err(ReadError::Syntax(lexemes.len())),
    }
}

fn value_part<'a>(field: Tested, lexemes: Lexemes<'a>) -> Read<'a, Test>
    ensures reads { (k : List Awaited) (n : ℕ) →
        Reads (awaiting (value_of field ∷ k) n) lexemes.entry result (after_test k n) }
    ensures shorter { Shortens lexemes.entry result }
    ensures no_memory { IfErr result IsSyntax }
{
    let (value, rest) = next_of(&lexemes)?;
    match test_with(field, value) {
        Some(test) => Ok((test, rest)),
        None => Err(ReadError::Syntax(lexemes.len())),
    }
}

/// The rest of a test whose first name is read.
fn test_after<'a>(first: &[u8], lexemes: Lexemes<'a>) -> Read<'a, Test>
    ensures reads { (k : List Awaited) (n : ℕ) →
        Reads (awaiting (second_awaited first.now k) n) lexemes.entry result (after_test k n) }
    ensures shorter { Shortens lexemes.entry result }
    ensures no_memory { IfErr result IsSyntax }
{
    let rest = sign_at(Sign::Dot, lexemes)?;
    let (field, rest) = field_part(first, rest)?;
    let rest = sign_at(Sign::Equals, rest)?;
    value_part(field, rest)
}

/// One predicate is itself, several are an `All`.
fn all(mut parts: Items<Pred>) -> Pred
    ensures { result ≡ all_of parts }
{
    if parts.len() == 1 {
        if let Some(part) = parts.pop() {
            return part;
        }
    }
    Pred::All(parts)
}

/// One predicate is itself, several are an `AnyOf`.
fn any(mut parts: Items<Pred>) -> Pred
    ensures { result ≡ any_of parts }
{
    if parts.len() == 1 {
        if let Some(part) = parts.pop() {
            return part;
        }
    }
    Pred::AnyOf(parts)
}

/// What follows the bracket that closes a predicate.
fn after_bracket<'a>(lexemes: Lexemes<'a>) -> Result<Lexemes<'a>, ReadError>
    ensures reads { (pred : Pred) (k : List Awaited) (n : ℕ) →
        Skips (awaiting (whole_pred pred ∷ bracket ∷ k) n) lexemes.entry result
        (awaiting (put pred k) n) }
    ensures shorter { ShortensTo lexemes.entry result }
    ensures no_memory { IfErr result IsSyntax }
{
    let (first, rest) = next_of(&lexemes)?;
    match first {
        Lexeme::Sign(Sign::CloseGroup) => Ok(rest),
        _ => Err(ReadError::Syntax(lexemes.len())),
    }
}

/// A literal. `room` is how many brackets and bangs may still be opened, `left` how many tests may still come; what is left of these
/// is given back.
#[cycle(predicate)]
fn literal<'a>(
    alloc: Global,
    lexemes: Lexemes<'a>,
    room: usize,
    left: usize,
) -> Read<'a, (Pred, usize)>
    ensures reads { (k : List Awaited) → opens k + room ≡ MAX_NESTING →
        Reads (awaiting (literal_awaited ∷ k) left) lexemes.entry result (after_lit k) }
    ensures shorter { Shortens lexemes.entry result }
{
    let (first, rest) = next_of(&lexemes)?;
    match first {
        Lexeme::Sign(Sign::Bang) if 0 < room => {
            let ((pred, left), rest) = literal(alloc, rest, room - 1, left)?;
            Ok(((Pred::Not(Boxed::new(alloc, pred)?), left), rest))
        }
        Lexeme::Sign(Sign::OpenGroup) if 0 < room => {
            let ((pred, left), rest) = predicate(alloc, rest, room - 1, left)?;
            Ok(((pred, left), after_bracket(rest)?))
        }
        Lexeme::Word(Word::True) => Ok(((Pred::Yes, left), rest)),
        Lexeme::Word(Word::False) => Ok(((Pred::No, left), rest)),
        Lexeme::Name(text, _) if 0 < left && is_first(text) => {
            let (test, rest) = test_after(text, rest)?;
            Ok(((Pred::Test(test), left - 1), rest))
        }
        _ => Err(ReadError::Syntax(lexemes.len())),
    }
}

/// Literals with `and` between them.
#[cycle(predicate)]
fn conjunction<'a>(
    alloc: Global,
    lexemes: Lexemes<'a>,
    room: usize,
    left: usize,
) -> Read<'a, (Pred, usize)>
    ensures reads { (k : List Awaited) (ps : List Pred) → opens k + room ≡ MAX_NESTING →
        Reads (awaiting (literal_awaited ∷ lits [] ∷ conjs ps ∷ k) left) lexemes.entry result
        (after_conjunction ps k) }
    ensures shorter { Shortens lexemes.entry result }
{
    let mut parts = Items::new(alloc);
    let ((pred, mut spare), mut rest) = literal(alloc, lexemes, room, left)?;
    parts.push(pred)?;
    'literals: while let Some((Lexeme::Word(Word::And), others)) = rest.split_first() {
        let ((pred, fewer), others) = literal(alloc, others, room, spare)?;
        parts.push(pred)?;
        rest = others;
        spare = fewer;
    }
    Ok(((all(parts), spare), rest))
}

/// A predicate: conjunctions with `or` between them.
#[cycle(predicate)]
pub(crate) fn predicate<'a>(
    alloc: Global,
    lexemes: Lexemes<'a>,
    room: usize,
    left: usize,
) -> Read<'a, (Pred, usize)>
    ensures reads { (k : List Awaited) → opens k + room ≡ MAX_NESTING →
        Reads (awaiting (pred_awaited k) left) lexemes.entry result (after_pred k) }
    ensures shorter { Shortens lexemes.entry result }
{
    let mut parts = Items::new(alloc);
    let ((pred, mut spare), mut rest) = conjunction(alloc, lexemes, room, left)?;
    parts.push(pred)?;
    'conjunctions: while let Some((Lexeme::Word(Word::Or), others)) = rest.split_first() {
        let ((pred, fewer), others) = conjunction(alloc, others, room, spare)?;
        parts.push(pred)?;
        rest = others;
        spare = fewer;
    }
    Ok(((any(parts), spare), rest))
}
