//! Why a formula gives no rates.

ghost use Rattle.std.specs.Prelude.{◌≡◌};
ghost use Rattle.localise.specs.declared.fault.RateFault.TheVariants as fault;

use merlin_model::{Name, OutOfMemory as NoMemory};
use std::alloc::{AllocError, AllocFailed};

/// Why a formula gives no rates to some ids.
#[derive(Drop)]
pub enum RateFault {
    /// No statement bears this id, which stands in a term.
    UnknownId { id: Name },
    /// The id stands twice in one term.
    RepeatedId { id: Name },
    /// The constants of this `max` term sum above its rate. Terms are numbered from 1.
    ConstantTooLarge { term: usize },
    /// The greatest share of this id under `min` exceeds its least share under `max`, both in kbit/s.
    LocalisedConflict { id: Name, min: u64, max: u64 },
    OutOfMemory,
}

impl From<AllocError> for RateFault {
    ghost from_gives = { λ _ gives. gives ≡ fault.OutOfMemory };

    fn from(_: AllocError) -> Self {
        RateFault::OutOfMemory
    }
}

impl<T: Drop> From<AllocFailed<T>> for RateFault {
    ghost from_gives = { λ _ gives. gives ≡ fault.OutOfMemory };

    fn from(_: AllocFailed<T>) -> Self {
        RateFault::OutOfMemory
    }
}

impl From<NoMemory> for RateFault {
    ghost from_gives = { λ _ gives. gives ≡ fault.OutOfMemory };

    fn from(_: NoMemory) -> Self {
        RateFault::OutOfMemory
    }
}
