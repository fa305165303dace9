//! Policies with sets and `foreach` written out, and why there is none.
ghost use Rattle.std.specs.Prelude.{◌≡◌};
ghost use Rattle.policy_expansion.specs.declared.policy.ExpansionFault.TheVariants as fault;

use merlin_model::name::{Name, OutOfMemory as NoMemory};
use merlin_model::policy::Pred;
use policy_grammar::written::RawPath;
use rate_formula::Formula;
use sqlite_items::Items;
use std::alloc::{AllocError, AllocFailed};

/// A statement: its id, the packets that it speaks of, and the path that they take.
#[derive(Drop)]
pub struct Statement {
    pub id: Name,
    pub pred: Pred,
    pub path: RawPath,
}

/// A policy without sets and `foreach`.
#[derive(Drop)]
pub struct Policy {
    pub statements: Items<Statement>,
    pub default_path: Option<RawPath>,
    pub formula: Formula,
}

/// Why a policy as it is written stands for none.
#[derive(Drop)]
pub enum ExpansionFault {
    /// Two sets bear this name.
    DuplicateSet { name: Name },
    /// The set has Ethernet and IPv4 addresses.
    MixedSet { name: Name },
    /// No set bears this name.
    UnknownSet { name: Name },
    /// There are at least this many statements, with the default.
    TooManyStatements { count: u64 },
    /// Two statements bear this id.
    DuplicateId { id: Name },
    OutOfMemory,
}

impl From<AllocError> for ExpansionFault {
    ghost from_gives = { λ _ gives. gives ≡ fault.OutOfMemory };

    fn from(_: AllocError) -> Self {
        ExpansionFault::OutOfMemory
    }
}

impl<T: Drop> From<AllocFailed<T>> for ExpansionFault {
    ghost from_gives = { λ _ gives. gives ≡ fault.OutOfMemory };

    fn from(_: AllocFailed<T>) -> Self {
        ExpansionFault::OutOfMemory
    }
}

impl From<NoMemory> for ExpansionFault {
    ghost from_gives = { λ _ gives. gives ≡ fault.OutOfMemory };

    fn from(_: NoMemory) -> Self {
        ExpansionFault::OutOfMemory
    }
}
