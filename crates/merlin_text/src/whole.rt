// All tokens of a text.
ghost use Rattle.std.specs.Prelude.{◌≡◌, ◌⊎◌, List, IfOk, IfErr, MatchResult, Err};
ghost use Rattle.merlin_text.specs.Tokens.{AreTokens, AreSlices, IsTokenFault};
ghost use Rattle.merlin_text.specs.declared.token.Token.{Token};
ghost use Rattle.merlin_text.specs.declared.token.TokenFault.{TokenFault};
ghost use Rattle.merlin_text.specs.declared.token.TokenFault.TheVariants as faults;

use crate::cursor::{Cursor, scan};
use crate::{Token, TokenFault};
use std::alloc::Global;

/// The tokens of a policy text, in order. A fault is the first of the text.
pub fn tokens(alloc: Global, bytes: &[u8]) -> Result<Vec<Token>, TokenFault>
    ensures tokens { IfOk result (λ tokens. AreTokens bytes.now tokens.items) }
    ensures fault { IfErr result (IsTokenFault bytes.now) }
    ensures slices { IfOk result (λ tokens. AreSlices bytes.now 0 tokens.items) }
    ensures only { (tokens : List Token) → AreTokens bytes.now tokens →
        MatchResult result (λ kept. kept.items ≡ tokens) (λ fault. fault ≡ faults.OutOfMemory) }
    ensures only_fault { (fault : TokenFault) → IsTokenFault bytes.now fault →
        (fault ≡ faults.OutOfMemory) ⊎ (result ≡ Err fault) ⊎ (result ≡ Err faults.OutOfMemory) }
{
    match scan(bytes) {
        Ok(tokens) => kept(alloc, tokens),
        Err(fault) => Err(fault),
    }
}

// All tokens that are left.
fn kept(alloc: Global, tokens: Cursor<'_>) -> Result<Vec<Token>, TokenFault>
    ensures ok { IfOk result (λ kept. kept.items ≡ tokens.entry) }
    ensures err { IfErr result (λ fault. fault ≡ faults.OutOfMemory) }
{
    let mut kept = Vec::with_capacity(alloc, tokens.len())?;
    let mut rest = tokens;
    'rest: while let Some((token, others)) = rest.split_first() {
        kept.push(token)?;
        rest = others;
    }
    Ok(kept)
}
