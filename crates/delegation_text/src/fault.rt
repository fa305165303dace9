//! Why a text describes no delegation tree.
ghost use Rattle.std.specs.Prelude.{◌≡◌};
ghost use Rattle.delegation_text.specs.declared.fault.EntryFault.TheVariants as fault;
ghost use Rattle.delegation_text.specs.declared.fault.NodePartFault.TheVariants as part;

use merlin_base::{Name, OutOfMemory as NoMemory};
use std::alloc::{AllocError, AllocFailed};

/// Why a text describes no delegation tree: no JSON; a member that is missing or wrong, as `nodes[2].scope`; a name that stands twice; a parent
/// that is no earlier node; more nodes than the limit, with the limit plus one.
#[derive(Drop)]
pub enum EntryFault {
    Json,
    Shape { what: Name },
    DuplicateName { name: Name },
    UnknownNode { name: Name },
    TooManyNodes { count: u64 },
    OutOfMemory,
}

impl From<AllocError> for EntryFault {
    ghost from_gives = { λ _ gives. gives ≡ fault.OutOfMemory };

    fn from(_: AllocError) -> Self {
        EntryFault::OutOfMemory
    }
}

impl<T: Drop> From<AllocFailed<T>> for EntryFault {
    ghost from_gives = { λ _ gives. gives ≡ fault.OutOfMemory };

    fn from(_: AllocFailed<T>) -> Self {
        EntryFault::OutOfMemory
    }
}

impl From<NoMemory> for EntryFault {
    ghost from_gives = { λ _ gives. gives ≡ fault.OutOfMemory };

    fn from(_: NoMemory) -> Self {
        EntryFault::OutOfMemory
    }
}

/// A part of the element of a node: the element as an object, or one of its members.
#[derive(Clone, Copy)]
pub enum NodePart {
    Itself,
    Name,
    Policy,
    Parent,
    Scope,
}

/// Why an element describes no node.
#[derive(Clone, Copy)]
pub(crate) enum NodePartFault {
    Wrong(NodePart),
    OutOfMemory,
}

impl From<AllocError> for NodePartFault {
    ghost from_gives = { λ _ gives. gives ≡ part.OutOfMemory };

    fn from(_: AllocError) -> Self {
        NodePartFault::OutOfMemory
    }
}

impl From<NoMemory> for NodePartFault {
    ghost from_gives = { λ _ gives. gives ≡ part.OutOfMemory };

    fn from(_: NoMemory) -> Self {
        NodePartFault::OutOfMemory
    }
}
