//! What is left of a text, lexeme by lexeme: tokens with the text of each name.
ghost use Rattle.std.specs.Prelude.{◌≡◌, [], ◌∷◌, length, IfSome, IfNone};
ghost use Rattle.merlin_text.specs.Lexemes.{lexeme, lexemes, token_text};
ghost use Rattle.merlin_text.specs.ReadLexemes.{as_lexeme};

use crate::cursor::Cursor;
use crate::{Kind, Sign, Token, Word};
use std::marker::Model;

/// A lexeme of a text.
#[derive(Clone, Copy)]
pub enum Lexeme<'a> {
    /// A name: its text, and the byte at which it starts.
    Name(&'a [u8], usize),
    /// A word of the language, which is no name.
    Word(Word),
    /// A number to 65,535.
    Number(u32),
    /// A rate in kbit/s.
    Rate(u64),
    /// An Ethernet address.
    Mac(u64),
    /// An IPv4 address.
    Ip(u32),
    /// A block of IPv4 addresses as it is written: an address and a length up to 32 bits.
    Prefix { value: u32, length: u8 },
    /// A sign.
    Sign(Sign),
}

/// The lexemes of a text from a place on. They are found as they are asked for.
#[derive(Drop)]
pub struct Lexemes<'a> {
    text: &'a [u8],
    tokens: Cursor<'a>,
}

impl<'a> Model for Lexemes<'a> {
    ghost use Rattle.std.specs.Prelude.{List};
    ghost use Rattle.merlin_text.specs.Lexemes.{Lexeme as AnyLexeme, lexemes};

    ghost Value = { List AnyLexeme };

    ghost view = { λ left. lexemes left.text.now left.tokens };
}

impl<'a> Lexemes<'a> {
    /// The lexemes that these tokens are in this text.
    pub fn new(text: &'a [u8], tokens: Cursor<'a>) -> Lexemes<'a>
        ensures { result ≡ lexemes text.now tokens.entry }
    {
        Lexemes { text, tokens }
    }

    /// How many lexemes are left.
    pub fn len(&self) -> usize
        ensures { result ≡ length self.now }
    {
        self.tokens.len()
    }

    /// The next lexeme, and those after it. None where none is left.
    pub fn split_first(&self) -> Option<(Lexeme<'a>, Lexemes<'a>)>
        ensures some { IfSome result (λ split. self.now ≡ as_lexeme split.0 ∷ split.1) }
        ensures none { IfNone result (self.now ≡ []) }
    {
        let (token, tokens) = self.tokens.split_first()?;
        let first = lexeme_of(self.text, token);
        Some((first, Lexemes::new(self.text, tokens)))
    }
}

// The lexeme that a token is.
fn lexeme_of(text: &[u8], token: Token) -> Lexeme<'_>
    ensures { as_lexeme result ≡ lexeme text.now token }
{
    match token.kind {
        Kind::Name => Lexeme::Name(text_of(text, token), token.span.start),
        Kind::Word(word) => Lexeme::Word(word),
        Kind::Number(number) => Lexeme::Number(number),
        Kind::Rate(rate) => Lexeme::Rate(rate),
        Kind::Mac(mac) => Lexeme::Mac(mac),
        Kind::Ip(ip) => Lexeme::Ip(ip),
        Kind::Prefix { value, length } => Lexeme::Prefix { value, length },
        Kind::Sign(sign) => Lexeme::Sign(sign),
    }
}

// The bytes of a token; none where its ends are none of the text.
fn text_of(text: &[u8], token: Token) -> &[u8]
    ensures { result.now ≡ token_text text.now token }
{
    let span = token.span;
    if span.start <= span.end && span.end <= text.len() {
        &text[span.start..span.end]
    } else {
        &[]
    }
}
