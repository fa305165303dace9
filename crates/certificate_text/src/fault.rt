//! Why a text is not read on.

ghost use Rattle.std.specs.Prelude.{◌≡◌};
ghost use Rattle.certificate_text.specs.declared.fault.LineFault.TheVariants.{Memory, Wrong};

use merlin_model::OutOfMemory;
use std::alloc::AllocError;

/// A wrong line, told by what is left of the text from its start on, or want of memory.
#[derive(Clone, Copy)]
pub enum LineFault {
    Wrong(usize),
    Memory,
}

impl From<usize> for LineFault {
    ghost from_gives = { λ left line. line ≡ Wrong left };

    // what is left of the text from the wrong line on
    fn from(left: usize) -> Self {
        LineFault::Wrong(left)
    }
}

impl From<OutOfMemory> for LineFault {
    ghost from_gives = { λ fault line. line ≡ Memory };

    fn from(_: OutOfMemory) -> Self {
        LineFault::Memory
    }
}

impl From<AllocError> for LineFault {
    ghost from_gives = { λ fault line. line ≡ Memory };

    fn from(_: AllocError) -> Self {
        LineFault::Memory
    }
}
