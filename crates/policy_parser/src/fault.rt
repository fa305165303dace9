//! Why nothing is read.

ghost use Rattle.std.specs.Prelude.{◌≡◌};
ghost use Rattle.policy_parser.specs.declared.fault.ReadError.TheVariants.{Memory};
ghost use Rattle.policy_parser.specs.Policies.{of_tokens, of_expansion};

use merlin_model::name::{Name, OutOfMemory};
use merlin_text::TokenFault;
use policy_expansion::ExpansionFault;
use std::alloc::{AllocError, AllocFailed};

/// Why a text is no policy.
#[derive(Drop)]
pub enum PolicyFault {
    /// No token begins with the byte at this place, or a name of more than 32 characters does.
    BadByte { at: usize },
    /// What begins with the digit at this place is no number, rate or address.
    BadNumber { at: usize },
    /// What stands before this place begins a policy; with the token that starts there, or with the end, nothing does.
    Syntax { at: usize },
    /// An earlier set bears the name.
    DuplicateSet { name: Name },
    /// The set has Ethernet and IPv4 addresses.
    MixedSet { name: Name },
    /// No set bears the name.
    UnknownSet { name: Name },
    /// There are more than 4,096 statements, with the default; `count` is 4,097.
    TooManyStatements { count: u64 },
    /// An earlier statement bears the id.
    DuplicateId { id: Name },
    OutOfMemory,
}

impl From<TokenFault> for PolicyFault {
    ghost from_gives = { λ fault gives. gives ≡ of_tokens fault };

    fn from(fault: TokenFault) -> Self {
        match fault {
            TokenFault::BadByte { at } => PolicyFault::BadByte { at },
            TokenFault::BadNumber { at } => PolicyFault::BadNumber { at },
            TokenFault::OutOfMemory => PolicyFault::OutOfMemory,
        }
    }
}

impl From<ExpansionFault> for PolicyFault {
    ghost from_gives = { λ fault gives. gives ≡ of_expansion fault };

    fn from(fault: ExpansionFault) -> Self {
        match fault {
            ExpansionFault::DuplicateSet { name } => PolicyFault::DuplicateSet { name },
            ExpansionFault::MixedSet { name } => PolicyFault::MixedSet { name },
            ExpansionFault::UnknownSet { name } => PolicyFault::UnknownSet { name },
            ExpansionFault::TooManyStatements { count } => PolicyFault::TooManyStatements { count },
            ExpansionFault::DuplicateId { id } => PolicyFault::DuplicateId { id },
            ExpansionFault::OutOfMemory => PolicyFault::OutOfMemory,
        }
    }
}

/// Why a phrase is not read.
#[derive(Clone, Copy)]
pub enum ReadError {
    /// Memory ran out.
    Memory,
    /// No policy goes on so; that many lexemes are left there.
    Syntax(usize),
}

impl From<AllocError> for ReadError {
    ghost from_gives = { λ _ error. error ≡ Memory };

    fn from(_: AllocError) -> Self {
        ReadError::Memory
    }
}

impl<T: Drop> From<AllocFailed<T>> for ReadError {
    ghost from_gives = { λ _ error. error ≡ Memory };

    fn from(_: AllocFailed<T>) -> Self {
        ReadError::Memory
    }
}

impl From<OutOfMemory> for ReadError {
    ghost from_gives = { λ _ error. error ≡ Memory };

    fn from(_: OutOfMemory) -> Self {
        ReadError::Memory
    }
}
