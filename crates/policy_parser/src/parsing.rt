//! From the bytes of a policy to what it stands for.

ghost use Rattle.std.specs.Prelude.{◌≡◌, ℕ, IfOk, IfErr, Result};
ghost use Rattle.policy_expansion.specs.declared.policy.Policy.{Policy};
ghost use Rattle.policy_parser.specs.declared.fault.PolicyFault.{PolicyFault};
ghost use Rattle.policy_parser.specs.Policies.{IsWritten, IsRead, IsRefused, IsReading, AreOneReading, IsParsed, place_of as place};

use crate::fault::{PolicyFault, ReadError};
use crate::reading::read_policy;
use merlin_text::{Cursor, Lexemes, scan};
use policy_expansion::{Policy, expand};
use policy_grammar::written::WrittenPolicy;
use std::alloc::Global;

/// The policy that the text stands for, or why it stands for none.
///
/// # Errors
/// The first of: a faulty token, the place where the tokens stop being a policy, a fault of the sets, too many statements, a repeated id.
pub fn parse(alloc: Global, bytes: &[u8]) -> Result<Policy, PolicyFault>
    ensures reading { IsReading bytes.now result }
    ensures only { (other : Result Policy PolicyFault) →
        IsReading bytes.now other → AreOneReading result other }
    ensures parsed { IfOk result IsParsed }
{
    reading_of(alloc, bytes)
}

// What the text is read as.
fn reading_of(alloc: Global, bytes: &[u8]) -> Result<Policy, PolicyFault>
    ensures { IsReading bytes.now result }
{
    let written = written(alloc, bytes)?;
    Ok(expand(alloc, written)?)
}

// The policy as it is written.
fn written(alloc: Global, bytes: &[u8]) -> Result<WrittenPolicy, PolicyFault>
    ensures ok { IfOk result (IsWritten bytes.now) }
    ensures err { IfErr result (λ fault. IsRefused fault bytes.now) }
{
    match scan(bytes) {
        Ok(tokens) => read(alloc, bytes, tokens),
        Err(fault) => Err(PolicyFault::from(fault)),
    }
}

// The policy of these tokens as it is written.
fn read(alloc: Global, bytes: &[u8], tokens: Cursor<'_>) -> Result<WrittenPolicy, PolicyFault>
    ensures { IsRead bytes.now tokens.entry result }
{
    let count = tokens.len();
    match read_policy(alloc, Lexemes::new(bytes, tokens.copy())) {
        Ok(policy) => Ok(policy),
        Err(ReadError::Memory) => Err(PolicyFault::OutOfMemory),
        Err(ReadError::Syntax(left)) => Err(PolicyFault::Syntax {
            at: place_of(bytes, tokens, count - left),
        }),
    }
}

// The byte at which a token starts, by its number; the end past the last one.
pub(crate) fn place_of(bytes: &[u8], tokens: Cursor<'_>, number: usize) -> usize
    ensures { result ≡ place bytes.now tokens.entry number }
{
    let mut rest = tokens;
    let mut before = number;
    'skipped: while 0 < before {
        let Some((_token, others)) = rest.split_first() else {
            return bytes.len();
        };
        rest = others;
        before -= 1;
    }
    match rest.split_first() {
        Some((token, _others)) => token.span.start,
        None => bytes.len(),
    }
}
