//! Why demands are refused.
ghost use Rattle.std.specs.Prelude.{◌≡◌};
ghost use Rattle.fair_share.specs.declared.fault.DemandFault.TheVariants as fault;

use merlin_base::{Name, OutOfMemory as NoMemory};
use std::alloc::{AllocError, AllocFailed};

/// Why a text is no demands: no JSON; a member that is missing or wrong; more caps or tenants than the limit, with the limit plus one; a name
/// that stands twice; a name that something is under and that no cap has that it may be under.
#[derive(Drop)]
pub enum DemandFault {
    Json,
    Shape { what: Name },
    TooLarge { what: Name, count: u64 },
    DuplicateName { name: Name },
    UnknownCap { name: Name },
    OutOfMemory,
}

impl From<AllocError> for DemandFault {
    ghost from_gives = { λ _ gives. gives ≡ fault.OutOfMemory };

    fn from(_: AllocError) -> Self {
        DemandFault::OutOfMemory
    }
}

impl<T: Drop> From<AllocFailed<T>> for DemandFault {
    ghost from_gives = { λ _ gives. gives ≡ fault.OutOfMemory };

    fn from(_: AllocFailed<T>) -> Self {
        DemandFault::OutOfMemory
    }
}

impl From<NoMemory> for DemandFault {
    ghost from_gives = { λ _ gives. gives ≡ fault.OutOfMemory };

    fn from(_: NoMemory) -> Self {
        DemandFault::OutOfMemory
    }
}
