//! Why a delegation tree is not accepted.

ghost use Rattle.std.specs.Prelude.{◌≡◌};
ghost use Rattle.delegation.specs.declared.fault.DelegationFault.TheVariants as fault;

use merlin_model::OutOfMemory as NoMemory;
use negotiator::RefineFault;
use packet_model::Packet;
use policy_check::CheckFault;
use std::alloc::{AllocError, AllocFailed};

/// Why a delegation tree is not accepted: the first question that is answered no, in their order here, and the first node at which it is. Nodes are
/// numbered from 0, and each count is one past its limit.
#[derive(Drop)]
pub enum DelegationFault {
    /// The node's own policy does not fit the network.
    Own {
        node: usize,
        fault: CheckFault,
    },
    /// The scopes of the node's children part the packets into more classes than there may be.
    Classes {
        node: usize,
        count: u64,
    },
    /// The scopes of these two children of one node share a packet: the least pair over the whole tree, and the least packet that they share.
    ScopeOverlap {
        first: usize,
        second: usize,
        packet: Packet,
    },
    /// The composition of the node has more statements, with its default, than a policy may have.
    TooManyStatements {
        node: usize,
        count: u64,
    },
    /// The join of the node with its children's own policies does not fit the network.
    Joined {
        node: usize,
        fault: CheckFault,
    },
    /// The predicates of the node's policy and of that join have more cells than there may be.
    Cells {
        node: usize,
        count: u64,
    },
    /// That join does not refine the node's policy in localised form. The terms are those of this form, numbered from 1.
    NotAccepted {
        node: usize,
        fault: RefineFault,
    },
    OutOfMemory,
}

impl From<AllocError> for DelegationFault {
    ghost from_gives = { λ _ gives. gives ≡ fault.OutOfMemory };

    fn from(_: AllocError) -> Self {
        DelegationFault::OutOfMemory
    }
}

impl<T: Drop> From<AllocFailed<T>> for DelegationFault {
    ghost from_gives = { λ _ gives. gives ≡ fault.OutOfMemory };

    fn from(_: AllocFailed<T>) -> Self {
        DelegationFault::OutOfMemory
    }
}

impl From<NoMemory> for DelegationFault {
    ghost from_gives = { λ _ gives. gives ≡ fault.OutOfMemory };

    fn from(_: NoMemory) -> Self {
        DelegationFault::OutOfMemory
    }
}
