//! Files and a sink, by what they tell and by the count of their faults.
ghost use Rattle.std.specs.Prelude.{◌≡◌, ◌<◌, ◌≤◌, List, [], ℕ, Option, length, take, OnOk, OnErr, IfOk};
ghost use Rattle.std.specs.Io.{ReadsAtMost};
ghost use Rattle.merlin_base.specs.Outside.{KnownContents, Rose, IsReadUpTo, NoneFalls, EachRose, FailsOnlyIf, Grows, GivesNext};

use thiserror::Error;

/// Why a call on files or on a sink gave nothing.
#[derive(Clone, Copy, Debug, Error)]
pub enum OutsideFault {
    /// The outside failed, and its count of faults rose.
    #[error("the outside failed")]
    Failed,
    /// Memory ran out.
    #[error("out of memory")]
    OutOfMemory,
}

/// Files by name, one of which is read at a time.
pub trait Files {
    /// How many faults count for the file of this name.
    ghost faults: { Self → List ℕ → ℕ };

    /// The contents by name, where they are told.
    ghost contents: { Self → KnownContents };

    /// What is left of the started file, where it is told.
    ghost rest: { Self → Option (List ℕ) };

    /// A file is started, and no call on it failed since.
    ghost is_started: { Self → Type 0 };

    /// Begins a file at its first byte.
    fn start(&mut self, name: &str) -> Result<(), OutsideFault>
        ensures contents { contents self.new ≡ contents self.old }
        ensures started { OnOk result (is_started self.new) }
        ensures begins { OnOk result (IsReadUpTo (contents self.new) (rest self.new) name.now []) }
        ensures later { NoneFalls (faults self.old) (faults self.new) }
        ensures failed { FailsOnlyIf result (Rose (faults self.old name.now)
            (faults self.new name.now)) };

    /// Puts the next bytes at the front of the buffer. 0 for a buffer with room means the end.
    fn read(&mut self, buf: &mut [u8]) -> Result<usize, OutsideFault>
        requires { is_started self.old }
        ensures contents { contents self.new ≡ contents self.old }
        ensures started { OnOk result (is_started self.new) }
        ensures bound { ReadsAtMost result buf.new }
        ensures bytes { GivesNext (rest self.old) (rest self.new) result buf.new }
        ensures later { NoneFalls (faults self.old) (faults self.new) }
        ensures failed { FailsOnlyIf result (EachRose (faults self.old) (faults self.new)) };
}

/// What takes bytes.
pub trait Sink {
    /// How many faults there were.
    ghost faults: { Self → ℕ };

    /// The bytes taken so far, where they are told.
    ghost taken: { Self → Option (List ℕ) };

    /// Takes a prefix of the piece, at least one byte of one that isn't empty. At `Err` it took none.
    fn write(&mut self, piece: &[u8]) -> Result<usize, OutsideFault>
        ensures bound { IfOk result (λ n. n ≤ length piece.now) }
        ensures some { IfOk result (λ n. 0 < length piece.now → 0 < n) }
        ensures ok { IfOk result (λ n. Grows (taken self.old) (taken self.new) (take n piece.now)) }
        ensures err { OnErr result (taken self.new ≡ taken self.old) }
        ensures later { faults self.old ≤ faults self.new }
        ensures failed { FailsOnlyIf result (Rose (faults self.old) (faults self.new)) };
}
