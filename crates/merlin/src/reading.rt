//! Files, read one after the other.
ghost use Rattle.std.specs.Prelude.{◌≡◌, ◌∷◌, [], IfOk, IfErr};
ghost use Rattle.merlin_base.specs.Outside.{NoneFalls};
ghost use Rattle.merlin.specs.declared.reading.Unread.TheVariants as unread;
ghost use Rattle.merlin.specs.Reading.{AreContents, IsReason, IsUnread, files_wanted, texts_read};

use merlin_base::{Files, Name, OutOfMemory as NoMemory, ReadFail, name_from, read_all};
use std::alloc::{AllocError, AllocFailed, Global};

/// The most bytes of a policy, a topology or a program.
pub const TEXT_LIMIT: usize = 16_777_216;

/// The most bytes of a result.
pub const RESULT_LIMIT: usize = 1_610_612_736;

/// A file that a command names, and the most bytes that it may have.
#[derive(Clone, Copy)]
pub struct Wanted<'a> {
    pub name: &'a str,
    pub limit: usize,
}

/// Why the files were not all read.
#[derive(Drop)]
pub enum Unread {
    Fault,
    TooLong(Name),
    OutOfMemory,
}

impl<T: Drop> From<AllocFailed<T>> for Unread {
    ghost from_gives = { λ _ gives. gives ≡ unread.OutOfMemory };

    fn from(_: AllocFailed<T>) -> Self {
        Unread::OutOfMemory
    }
}

impl From<AllocError> for Unread {
    ghost from_gives = { λ _ gives. gives ≡ unread.OutOfMemory };

    fn from(_: AllocError) -> Self {
        Unread::OutOfMemory
    }
}

impl From<NoMemory> for Unread {
    ghost from_gives = { λ _ gives. gives ≡ unread.OutOfMemory };

    fn from(_: NoMemory) -> Self {
        Unread::OutOfMemory
    }
}

// Why a file of this name was not read.
fn why_unread(alloc: Global, name: &str, fail: ReadFail) -> Unread
    ensures { IsReason fail name.now result }
{
    match fail {
        ReadFail::Outside => Unread::Fault,
        ReadFail::TooLong => match name_from(alloc, name.as_bytes()) {
            Ok(name) => Unread::TooLong(name),
            Err(_) => Unread::OutOfMemory,
        },
        ReadFail::OutOfMemory => Unread::OutOfMemory,
    }
}

// What a file holds.
fn read_one<F: Files>(
    alloc: Global,
    files: &mut F,
    name: &str,
    limit: usize,
) -> Result<Vec<u8>, Unread>
    ensures contents { F.contents files.new ≡ F.contents files.old }
    ensures later { NoneFalls (F.faults files.old) (F.faults files.new) }
    ensures ok { IfOk result (λ bytes.
        AreContents (F.contents files.old) ((name.now, limit) ∷ []) (bytes.items ∷ [])) }
    ensures err { let wanted = (name.now, limit) ∷ [] in
        IfErr result (IsUnread (F.contents files.old) wanted
        (F.faults files.old) (F.faults files.new)) }
{
    match read_all(alloc, files, name, limit) {
        Ok(bytes) => Ok(bytes),
        Err(fail) => Err(why_unread(alloc, name, fail)),
    }
}

/// What the files hold, read one after the other.
pub fn read_files<F: Files>(
    alloc: Global,
    files: &mut F,
    wanted: &[Wanted],
) -> Result<Vec<Vec<u8>>, Unread>
    ensures contents { F.contents files.new ≡ F.contents files.old }
    ensures later { NoneFalls (F.faults files.old) (F.faults files.new) }
    ensures ok { IfOk result (λ contents.
        AreContents (F.contents files.old) (files_wanted wanted.now) (texts_read contents.items)) }
    ensures err { let named = files_wanted wanted.now in
        IfErr result (IsUnread (F.contents files.old) named
        (F.faults files.old) (F.faults files.new)) }
{
    let mut contents = Vec::new(alloc);
    for file in wanted {
        let Wanted { name, limit } = *file;
        let text = read_one(alloc, files, name, limit)?;
        contents.push(text)?;
    }
    Ok(contents)
}
