//! What is left of a text, token by token.
ghost use Rattle.std.specs.Prelude.{◌≡◌, ◌≢◌, ℕ, List, [], ◌∷◌, length, IfOk, IfErr, IfSome, IfNone};
ghost use Rattle.merlin_text.specs.declared.token.Token.{Token};
ghost use Rattle.merlin_text.specs.declared.token.TokenFault.TheVariants as faults;
ghost use Rattle.merlin_text.specs.Tokens.{AreTokens, IsTokenFault, StopsAt, token_at};
ghost use Rattle.merlin_text.specs.Rest.{Rest, Rest-prop};

use crate::pieces::front_of;
use crate::{Kind, Span, Token, TokenFault};
use std::marker::Model;

/// The tokens of a text from a place on. They are found as they are asked for, so that none is kept.
#[derive(Drop)]
pub struct Cursor<'a> {
    text: &'a [u8],
    at: usize,
    left: usize,
    ghost rest: { Rest text.now at } by { Rest-prop text.now at },
    ghost counted: { left ≡ length rest.0 },
}

impl<'a> Model for Cursor<'a> {
    ghost Value = { List Token };

    ghost view = { λ cursor. cursor.rest.0 };
}

impl<'a> Cursor<'a> {
    /// How many tokens are left.
    pub fn len(&self) -> usize
        ensures { result ≡ length self.now }
    {
        self.left
    }

    /// The same tokens once more.
    pub fn copy(&self) -> Cursor<'a>
        ensures { result ≡ self.now }
    {
        Cursor {
            text: self.text,
            at: self.at,
            left: self.left,
        }
    }

    /// The next token, and those after it. None where none is left.
    pub fn split_first(&self) -> Option<(Token, Cursor<'a>)>
        ensures some { IfSome result (λ split. self.now ≡ split.0 ∷ split.1) }
        ensures none { IfNone result (self.now ≡ []) }
    {
        let text = self.text;
        let mut at = self.at;
        while at < text.len() {
            let front = front_of(&text[at..])?;
            let start = at;
            at += front.length;
            if let Some(kind) = front.kind {
                let span = Span { start, end: at };
                let left = self.left - 1;
                let rest = Cursor { text, at, left };
                return Some((Token { kind, span }, rest));
            }
        }
        None
    }
}

// The fault where no piece begins with the byte at this place.
fn fault_of(byte: u8, at: usize) -> TokenFault
    ensures fault { (text : List ℕ) → StopsAt text at byte → IsTokenFault text result }
    ensures given { result ≢ faults.OutOfMemory }
{
    if byte.is_ascii_digit() {
        TokenFault::BadNumber { at }
    } else {
        TokenFault::BadByte { at }
    }
}

// How many tokens a piece is: one or none.
fn count_of(kind: Option<Kind>) -> usize
    ensures { result ≡ length (token_at kind 0 0) }
{
    match kind {
        Some(_) => 1,
        None => 0,
    }
}

/// The tokens of a policy text, in order, where each piece of it is a token, a blank or a comment. A fault is the first of the text.
/// It takes no memory.
pub fn scan(text: &[u8]) -> Result<Cursor<'_>, TokenFault>
    ensures tokens { IfOk result (AreTokens text.now) }
    ensures fault { IfErr result (IsTokenFault text.now) }
    ensures given { IfErr result (λ fault. fault ≢ faults.OutOfMemory) }
{
    let mut at = 0;
    let mut left = 0;
    while at < text.len() {
        let Some(front) = front_of(&text[at..]) else {
            return Err(fault_of(text[at], at));
        };
        at += front.length;
        left += count_of(front.kind);
    }
    Ok(Cursor { text, at: 0, left })
}
