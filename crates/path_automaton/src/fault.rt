//! Why a path has no automaton here.

ghost use Rattle.std.specs.Prelude.{◌≡◌};
ghost use Rattle.path_automaton.specs.declared.fault.AutomatonFault.TheVariants as AutomatonFault;

use merlin_model::OutOfMemory;
use std::alloc::AllocError;

/// A path has more states than the limit, counted up to one more than that; or memory ran out.
#[derive(Clone, Copy, Debug, PartialEq, Eq)]
pub enum AutomatonFault {
    TooManyStates { count: u64 },
    OutOfMemory,
}

impl From<OutOfMemory> for AutomatonFault {
    ghost from_gives = { λ _ fault. fault ≡ AutomatonFault.OutOfMemory };

    fn from(_: OutOfMemory) -> Self {
        AutomatonFault::OutOfMemory
    }
}

impl From<AllocError> for AutomatonFault {
    ghost from_gives = { λ _ fault. fault ≡ AutomatonFault.OutOfMemory };

    fn from(_: AllocError) -> Self {
        AutomatonFault::OutOfMemory
    }
}
