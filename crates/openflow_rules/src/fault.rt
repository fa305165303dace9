//! Why there is no plan, and the limits.

ghost use Rattle.std.specs.Prelude.{◌≡◌};
ghost use Rattle.openflow_rules.specs.declared.fault.RuleFault.TheVariants as fault;

use merlin_model::OutOfMemory;

/// The most tags, over all groups.
pub const MAX_TAGS: u64 = 4_094;

/// The most tag entries: one for each vertex at no host, and one more for each vertex with a function
/// at the same location, over all groups and destinations.
pub const MAX_ENTRIES: u64 = 524_288;

/// Why there is no plan. A count is one past its limit.
#[derive(Clone, Copy)]
pub enum RuleFault {
    TooManyTags { count: u64 },
    TooManyCells { count: u64 },
    TooManyEntries { count: u64 },
    OutOfMemory,
}

impl From<OutOfMemory> for RuleFault {
    ghost from_gives = { λ _ gives. gives ≡ fault.OutOfMemory };

    fn from(_: OutOfMemory) -> Self {
        RuleFault::OutOfMemory
    }
}
