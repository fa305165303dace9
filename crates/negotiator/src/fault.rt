//! Why a child policy does not stand in the place of its parent.

ghost use Rattle.std.specs.Prelude.{◌≡◌};
ghost use Rattle.negotiator.specs.declared.fault.RefineFault.TheVariants as fault;

use merlin_model::OutOfMemory as NoMemory;
use merlin_model::policy::Symbol;
use packet_model::Packet;
use sqlite_items::Items;
use std::alloc::{AllocError, AllocFailed};

/// Why a child policy does not stand in the place of its parent, rule by rule in their order. The terms are the parent's, numbered from 1.
#[derive(Drop)]
pub enum RefineFault {
    /// The predicates of both policies have more cells than there may be. The count is one past the limit.
    TooManyCells { count: u64 },
    /// The least packet to which the child allows a walk that the parent does not, and the least such walk.
    PathWider { packet: Packet, word: Items<Symbol> },
    /// The caps of the statements that touch this `max` term sum to more than its amount, in kbit/s. One of them has no cap where there is no sum.
    CapWider { term: usize, sum: Option<u64> },
    /// The guarantees of the statements that touch this `min` term sum to more than its amount, in kbit/s. Where the term is 0, a statement with this
    /// guarantee touches what no `min` term bounds.
    ReserveWider { term: usize, sum: u64 },
    OutOfMemory,
}

impl From<AllocError> for RefineFault {
    ghost from_gives = { λ _ gives. gives ≡ fault.OutOfMemory };

    fn from(_: AllocError) -> Self {
        RefineFault::OutOfMemory
    }
}

impl<T: Drop> From<AllocFailed<T>> for RefineFault {
    ghost from_gives = { λ _ gives. gives ≡ fault.OutOfMemory };

    fn from(_: AllocFailed<T>) -> Self {
        RefineFault::OutOfMemory
    }
}

impl From<NoMemory> for RefineFault {
    ghost from_gives = { λ _ gives. gives ≡ fault.OutOfMemory };

    fn from(_: NoMemory) -> Self {
        RefineFault::OutOfMemory
    }
}
