//! Why a text is no result.

ghost use Rattle.std.specs.Prelude.{◌≡◌};
ghost use Rattle.config_read.specs.declared.fault.ConfigFault.TheVariants as fault;

use merlin_model::OutOfMemory as NoMemory;

/// Why a text is no result over a network: the start of the first line with which it begins none, as a byte offset, or its length where lines are missing.
#[derive(Clone, Copy)]
pub enum ConfigFault {
    BadConfig { at: usize },
    OutOfMemory,
}

impl From<NoMemory> for ConfigFault {
    ghost from_gives = { λ _ gives. gives ≡ fault.OutOfMemory };

    fn from(_: NoMemory) -> Self {
        ConfigFault::OutOfMemory
    }
}
