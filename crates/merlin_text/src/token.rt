// Tokens: what each is, and where it stands.
ghost use Rattle.std.specs.Prelude.{◌≡◌};
ghost use Rattle.merlin_text.specs.declared.token.TokenFault.TheVariants.{OutOfMemory as TokenOutOfMemory};

use std::alloc::{AllocError, AllocFailed};
use thiserror::Error;

/// The place of a token in its text, in bytes: from the start up to the end.
#[derive(Clone, Copy)]
pub struct Span {
    pub start: usize,
    pub end: usize,
}

/// A word of the language.
#[derive(Clone, Copy, PartialEq, Eq)]
pub enum Word {
    True,
    False,
    And,
    Or,
    Foreach,
    In,
    Cross,
    Default,
    At,
    Max,
    Min,
}

/// A sign of the language.
#[derive(Clone, Copy, PartialEq, Eq)]
pub enum Sign {
    /// `:=`
    Becomes,
    /// `->`
    Arrow,
    /// `[`
    OpenList,
    /// `]`
    CloseList,
    /// `(`
    OpenGroup,
    /// `)`
    CloseGroup,
    /// `{`
    OpenSet,
    /// `}`
    CloseSet,
    /// `:`
    Colon,
    /// `;`
    Semicolon,
    /// `,`
    Comma,
    /// `=`
    Equals,
    /// `+`
    Plus,
    /// `*`
    Star,
    /// `!`
    Bang,
    /// `.`
    Dot,
    /// `|`
    Bar,
}

/// What a token is, with its value.
#[derive(Clone, Copy)]
pub enum Kind {
    /// A name, whose text is the token's slice.
    Name,
    /// A word of the language, which is no name.
    Word(Word),
    /// A number to 65,535.
    Number(u32),
    /// A rate in kbit/s.
    Rate(u64),
    /// An Ethernet address.
    Mac(u64),
    /// An IPv4 address.
    Ip(u32),
    /// A block of IPv4 addresses as it is written (RFC 4632): an address, whose bits past the length may be other than 0, and the length, up to 32 bits.
    Prefix { value: u32, length: u8 },
    /// A sign.
    Sign(Sign),
}

/// One token of a text.
#[derive(Clone, Copy)]
pub struct Token {
    pub kind: Kind,
    pub span: Span,
}

/// Why a text has no tokens.
#[derive(Clone, Copy, Debug, Error)]
pub enum TokenFault {
    /// No token begins with the byte at this place, or a name of more than 32 characters does.
    #[error("a byte that begins no token at {at}")]
    BadByte { at: usize },
    /// What begins with the digit at this place is no number, rate, address or block of addresses.
    #[error("no number, rate or address at {at}")]
    BadNumber { at: usize },
    /// Memory ran out.
    #[error("out of memory")]
    OutOfMemory,
}

impl From<AllocError> for TokenFault {
    ghost from_gives = { λ _ fault. fault ≡ TokenOutOfMemory };

    fn from(_: AllocError) -> Self {
        TokenFault::OutOfMemory
    }
}

impl<T: Drop> From<AllocFailed<T>> for TokenFault {
    ghost from_gives = { λ _ fault. fault ≡ TokenOutOfMemory };

    fn from(_: AllocFailed<T>) -> Self {
        TokenFault::OutOfMemory
    }
}
