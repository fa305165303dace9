//! Why a policy does not fit a topology.

ghost use Rattle.std.specs.Prelude.{◌≡◌};
ghost use Rattle.policy_check.specs.Conversions.{from_names, from_split, from_rates};
ghost use Rattle.policy_check.specs.declared.fault.CheckFault.TheVariants as fault;
ghost use Rattle.policy_check.specs.declared.fault.EndsFault.TheVariants as ends_fault;

use localise::RateFault;
use merlin_model::{Name, OutOfMemory as NoMemory};
use packet_model::Packet;
use policy_names::NameFault;
use predicate_split::SplitFault;
use std::alloc::{AllocError, AllocFailed};

/// Why a policy does not fit a topology, rule by rule in their order.
#[derive(Drop)]
pub enum CheckFault {
    /// Neither a location nor a function bears this name, which stands in a path.
    UnknownName {
        name: Name,
    },
    /// The function of this name stands under a `!`.
    FunctionUnderNot {
        name: Name,
    },
    /// The predicates part the packets into more classes than there may be. The count is one past the limit.
    TooManyClasses {
        count: u64,
    },
    /// The predicates of both statements hold of the packet.
    Overlap {
        first: Name,
        second: Name,
        packet: Packet,
    },
    /// No predicate holds of the packet, and there is no default.
    NotTotal {
        packet: Packet,
    },
    /// The formula gives no rates.
    Rate(RateFault),
    /// The path of this statement, or of the default where there is no id, has more states than there may be. The count is one past the limit.
    TooManyStates {
        id: Option<Name>,
        count: u64,
    },
    OutOfMemory,
}

impl From<NameFault> for CheckFault {
    ghost from_gives = { λ fault gives. gives ≡ from_names fault };

    fn from(fault: NameFault) -> Self {
        match fault {
            NameFault::UnknownName { name } => CheckFault::UnknownName { name },
            NameFault::FunctionUnderNot { name } => CheckFault::FunctionUnderNot { name },
            NameFault::OutOfMemory => CheckFault::OutOfMemory,
        }
    }
}

impl From<SplitFault> for CheckFault {
    ghost from_gives = { λ fault gives. gives ≡ from_split fault };

    fn from(fault: SplitFault) -> Self {
        match fault {
            SplitFault::TooManyClasses { count } => CheckFault::TooManyClasses { count },
            SplitFault::TooManyCells { count } => CheckFault::TooManyClasses { count },
            SplitFault::OutOfMemory => CheckFault::OutOfMemory,
        }
    }
}

impl From<RateFault> for CheckFault {
    ghost from_gives = { λ fault gives. gives ≡ from_rates fault };

    fn from(fault: RateFault) -> Self {
        match fault {
            RateFault::OutOfMemory => CheckFault::OutOfMemory,
            other => CheckFault::Rate(other),
        }
    }
}

impl From<AllocError> for CheckFault {
    ghost from_gives = { λ _ gives. gives ≡ fault.OutOfMemory };

    fn from(_: AllocError) -> Self {
        CheckFault::OutOfMemory
    }
}

impl<T: Drop> From<AllocFailed<T>> for CheckFault {
    ghost from_gives = { λ _ gives. gives ≡ fault.OutOfMemory };

    fn from(_: AllocFailed<T>) -> Self {
        CheckFault::OutOfMemory
    }
}

impl From<NoMemory> for CheckFault {
    ghost from_gives = { λ _ gives. gives ≡ fault.OutOfMemory };

    fn from(_: NoMemory) -> Self {
        CheckFault::OutOfMemory
    }
}

/// Why the guaranteed statements of a policy have no ends.
#[derive(Drop)]
pub enum EndsFault {
    /// More statements are guaranteed than may be. The count is one past the limit.
    TooManyGuarantees {
        count: u64,
    },
    /// No two hosts have traffic of the guaranteed statement.
    NoEnds {
        id: Name,
    },
    /// More than one pair of hosts has traffic of the guaranteed statement. These are the first two, by the numbers of their locations.
    ManyEnds {
        id: Name,
        first: (usize, usize),
        second: (usize, usize),
    },
    OutOfMemory,
}

impl From<NoMemory> for EndsFault {
    ghost from_gives = { λ _ gives. gives ≡ ends_fault.OutOfMemory };

    fn from(_: NoMemory) -> Self {
        EndsFault::OutOfMemory
    }
}

impl<T: Drop> From<AllocFailed<T>> for EndsFault {
    ghost from_gives = { λ _ gives. gives ≡ ends_fault.OutOfMemory };

    fn from(_: AllocFailed<T>) -> Self {
        EndsFault::OutOfMemory
    }
}
