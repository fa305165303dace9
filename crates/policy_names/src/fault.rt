//! Why the paths of a policy stand for none over a topology.

ghost use Rattle.std.specs.Prelude.{◌≡◌};
ghost use Rattle.policy_names.specs.declared.fault.NameFault.TheVariants as fault;

use merlin_model::{Name, OutOfMemory as NoMemory};
use std::alloc::{AllocError, AllocFailed};

/// Why the paths of a policy stand for none over a topology.
#[derive(Drop)]
pub enum NameFault {
    /// Neither a location nor a function bears this name.
    UnknownName { name: Name },
    /// The function of this name stands under a `!`.
    FunctionUnderNot { name: Name },
    OutOfMemory,
}

impl From<AllocError> for NameFault {
    ghost from_gives = { λ _ gives. gives ≡ fault.OutOfMemory };

    fn from(_: AllocError) -> Self {
        NameFault::OutOfMemory
    }
}

impl<T: Drop> From<AllocFailed<T>> for NameFault {
    ghost from_gives = { λ _ gives. gives ≡ fault.OutOfMemory };

    fn from(_: AllocFailed<T>) -> Self {
        NameFault::OutOfMemory
    }
}

impl From<NoMemory> for NameFault {
    ghost from_gives = { λ _ gives. gives ≡ fault.OutOfMemory };

    fn from(_: NoMemory) -> Self {
        NameFault::OutOfMemory
    }
}
