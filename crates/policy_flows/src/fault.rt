//! Why guaranteed statements have no program.

ghost use Rattle.std.specs.Prelude.{◌≡◌};
ghost use Rattle.policy_flows.specs.declared.fault.ProgramFault.TheVariants as ProgramFault;

use merlin_model::OutOfMemory as NoMemory;
use std::alloc::AllocError;

/// The products of all statements have more vertices or edges than they may have, each counted up to one past its limit; or
/// the rate of a statement, times the weight of a link that its product crosses, is greater than a coefficient may be: the
/// first such statement with its least such link; or memory ran out.
#[derive(Clone, Copy, Debug, PartialEq, Eq)]
pub enum ProgramFault {
    Vertices { count: u64 },
    Edges { count: u64 },
    Heavy { statement: usize, link: usize },
    OutOfMemory,
}

impl From<NoMemory> for ProgramFault {
    ghost from_gives = { λ _ fault. fault ≡ ProgramFault.OutOfMemory };

    fn from(_: NoMemory) -> Self {
        ProgramFault::OutOfMemory
    }
}

impl From<AllocError> for ProgramFault {
    ghost from_gives = { λ _ fault. fault ≡ ProgramFault.OutOfMemory };

    fn from(_: AllocError) -> Self {
        ProgramFault::OutOfMemory
    }
}
