//! A whole file, and a whole piece.
ghost use Rattle.std.specs.Prelude.{◌≡◌, ◌≤◌, ℕ, vec_len, OnOk, OnErr, IfOk, IsErrOf};
ghost use Rattle.merlin_base.specs.Outside.{Rose, IsFile, IsLongerThan, NoneFalls, FailsOnlyIf, Grows, GrowsByPrefix};
ghost use Rattle.merlin_base.specs.Texts.{joined};
ghost use Rattle.merlin_base.specs.declared.transfer.ReadFail.TheVariants.{OutOfMemory as ReadOutOfMemory};
ghost use Rattle.merlin_base.specs.Fails.{read_fail_of};

use crate::{Files, Name, OutsideFault, Sink};
use std::alloc::{AllocError, Global};
use thiserror::Error;

/// Why a file isn't read whole.
#[derive(Clone, Copy, Debug, Error)]
pub enum ReadFail {
    /// A call on the file failed.
    #[error("the file can't be read")]
    Outside,
    /// The file has more bytes than the limit.
    #[error("the file is too long")]
    TooLong,
    /// Memory ran out.
    #[error("out of memory")]
    OutOfMemory,
}

impl From<OutsideFault> for ReadFail {
    ghost from_gives = { λ fault fail. fail ≡ read_fail_of fault };

    fn from(fault: OutsideFault) -> Self {
        match fault {
            OutsideFault::Failed => ReadFail::Outside,
            OutsideFault::OutOfMemory => ReadFail::OutOfMemory,
        }
    }
}

impl From<AllocError> for ReadFail {
    ghost from_gives = { λ _ fail. fail ≡ ReadOutOfMemory };

    fn from(_: AllocError) -> Self {
        ReadFail::OutOfMemory
    }
}

// A read asks for so many bytes.
const CHUNK: usize = 16_384;

/// The bytes of a file, all of them, if there are no more than the limit.
pub fn read_all<F: Files>(
    alloc: Global,
    files: &mut F,
    name: &str,
    limit: usize,
) -> Result<Vec<u8>, ReadFail>
    ensures contents { F.contents files.new ≡ F.contents files.old }
    ensures whole { IfOk result (λ bytes. IsFile (F.contents files.old) name.now bytes.items) }
    ensures fits { IfOk result (λ bytes. vec_len bytes ≤ limit) }
    ensures later { NoneFalls (F.faults files.old) (F.faults files.new) }
    ensures outside { IsErrOf result ReadFail.Outside →
        Rose (F.faults files.old name.now) (F.faults files.new name.now) }
    ensures too_long { IsErrOf result ReadFail.TooLong →
        IsLongerThan (F.contents files.old) name.now limit }
{
    files.start(name)?;
    let mut bytes = Vec::new(alloc);
    let mut chunk = [0u8; CHUNK];
    loop {
        let count = files.read(&mut chunk)?;
        if count == 0 {
            return Ok(bytes);
        }
        if count > limit - bytes.len() {
            return Err(ReadFail::TooLong);
        }
        bytes.extend_from_slice(&chunk[..count])?;
    }
}

/// Hands a piece to the sink, the rest of what was taken in part again.
pub fn write_all<K: Sink>(out: &mut K, piece: &[u8]) -> Result<(), OutsideFault>
    ensures ok { OnOk result (Grows (K.taken out.old) (K.taken out.new) piece.now) }
    ensures err { OnErr result (GrowsByPrefix (K.taken out.old) (K.taken out.new) piece.now) }
    ensures later { K.faults out.old ≤ K.faults out.new }
    ensures failed { FailsOnlyIf result (Rose (K.faults out.old) (K.faults out.new)) }
{
    let mut at = 0;
    while at < piece.len() {
        at += out.write(&piece[at..])?;
    }
    Ok(())
}

/// Hands lines to the sink, each as one piece.
pub fn write_lines<K: Sink>(out: &mut K, lines: &[Name]) -> Result<(), OutsideFault>
    ensures ok { OnOk result (Grows (K.taken out.old) (K.taken out.new) (joined lines.now)) }
    ensures err { OnErr result (GrowsByPrefix (K.taken out.old) (K.taken out.new)
        (joined lines.now)) }
    ensures later { K.faults out.old ≤ K.faults out.new }
    ensures failed { FailsOnlyIf result (Rose (K.faults out.old) (K.faults out.new)) }
{
    for line in lines {
        write_all(out, line.bytes())?;
    }
    Ok(())
}
