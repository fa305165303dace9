//! Files that are read whole, and rates.

ghost use Rattle.std.specs.Prelude.{◌≤◌, ℕ, vec_len, IfOk, IfSome, IfNone, IsErrOf};
ghost use Rattle.merlin_base.specs.Outside.{Rose, IsFile, IsLongerThan};
ghost use Rattle.merlin_base.specs.Memory.{read_faults, held_contents};
ghost use Rattle.merlin_base.specs.Lexemes.{IsRate};
ghost use Rattle.merlin_base.specs.declared.transfer.ReadFail.TheVariants.{Outside, TooLong};

use merlin_base::{MemoryFiles, ReadFail, rate_value, read_all};
use std::alloc::Global;

/// What `read_all` answers.
pub fn whole_file(
    alloc: Global,
    files: &mut MemoryFiles,
    name: &str,
    limit: usize,
) -> Result<Vec<u8>, ReadFail>
    ensures whole { IfOk result (λ bytes. IsFile (held_contents files.old) name.now bytes.items) }
    ensures fits { IfOk result (λ bytes. vec_len bytes ≤ limit) }
    ensures outside { IsErrOf result Outside →
        Rose (read_faults files.old name.now) (read_faults files.new name.now) }
    ensures too_long { IsErrOf result TooLong →
        IsLongerThan (held_contents files.old) name.now limit }
{
    match read_all(alloc, files, name, limit) {
        Ok(bytes) => Ok(bytes),
        Err(ReadFail::Outside) => Err(ReadFail::Outside),
        Err(ReadFail::TooLong) => Err(ReadFail::TooLong),
        Err(ReadFail::OutOfMemory) => Err(ReadFail::OutOfMemory),
    }
}

/// What `rate_value` answers.
pub fn rate(text: &[u8]) -> Option<u64>
    ensures some { IfSome result (IsRate text.now) }
    ensures none { IfNone result ((rate : ℕ) → IsRate text.now rate → ⊥) }
{
    match rate_value(text) {
        Some(rate) => Some(rate),
        None => None,
    }
}
