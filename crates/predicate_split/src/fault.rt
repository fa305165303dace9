//! Why packets are not told apart.

ghost use Rattle.std.specs.Prelude.{◌≡◌};
ghost use Rattle.predicate_split.specs.declared.fault.SplitFault.TheVariants as fault;

use merlin_model::OutOfMemory;

/// The most classes of packets.
pub const MAX_CLASSES: u64 = 4_194_304;

/// The most cells.
pub const MAX_CELLS: u64 = 524_288;

/// Why packets are not told apart. A count is one past its limit.
#[derive(Clone, Copy)]
pub enum SplitFault {
    TooManyClasses { count: u64 },
    TooManyCells { count: u64 },
    OutOfMemory,
}

impl From<OutOfMemory> for SplitFault {
    ghost from_gives = { λ _ gives. gives ≡ fault.OutOfMemory };

    fn from(_: OutOfMemory) -> Self {
        SplitFault::OutOfMemory
    }
}
