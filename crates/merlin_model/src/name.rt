//! Texts that are kept.
ghost use Rattle.std.specs.Prelude.{◌≡◌, ◌≤◌, List, ℕ, IfOk, length, take};

use sqlite_items::{Boxed, Items};
use std::alloc::{AllocError, AllocFailed, Global};
use std::marker::Model;

/// Memory ran out.
#[derive(Clone, Copy, Debug, PartialEq, Eq)]
pub struct OutOfMemory;

impl From<AllocError> for OutOfMemory {
    fn from(_: AllocError) -> Self {
        OutOfMemory
    }
}

impl<T: Drop> From<AllocFailed<T>> for OutOfMemory {
    fn from(_: AllocFailed<T>) -> Self {
        OutOfMemory
    }
}

// How many bytes a text may have that needs no memory beside the value.
const SHORT_LENGTH: usize = 14;

// A short text: as many of the bytes as its length says.
#[derive(Drop)]
struct Short {
    len: u8,
    bytes: [u8; SHORT_LENGTH],
}

impl Model for Short {
    ghost Value = { List ℕ };

    ghost view = { λ short. take short.len short.bytes };

    ghost invariant = { λ short. short.len ≤ 14 };
}

impl Short {
    fn from_slice(text: &[u8]) -> Short
        requires { length text.now ≤ 14 }
        ensures { result ≡ text.now }
    {
        let mut bytes = [0; SHORT_LENGTH];
        bytes[..text.len()].copy_from_slice(text);
        Short {
            len: text.len() as u8,
            bytes,
        }
    }

    fn bytes(&self) -> &[u8]
        ensures { result.now ≡ self.now }
    {
        &self.bytes[..usize::from(self.len)]
    }
}

// Short texts lie in the value itself: most names are short, and a policy may have millions of them.
#[derive(Drop)]
enum Kept {
    Short(Short),
    Long(Boxed<Items<u8>>),
}

/// A text of bytes, seen as their list. Up to 14 bytes take no memory beside the value, which is 16 bytes itself.
#[derive(Drop)]
pub struct Name {
    kept: Kept,
}

impl Model for Name {
    ghost use Rattle.std.specs.Prelude.{List, ℕ};

    ghost Value = { List ℕ };

    ghost use Rattle.merlin_model.specs.Names.{kept_text};

    ghost view = { λ name. kept_text name.kept };
}

/// The text of these bytes.
pub fn name_from(alloc: Global, bytes: &[u8]) -> Result<Name, OutOfMemory>
    ensures { IfOk result (λ name. name ≡ bytes.now) }
{
    let kept = if bytes.len() <= SHORT_LENGTH {
        Kept::Short(Short::from_slice(bytes))
    } else {
        Kept::Long(Boxed::new(alloc, Items::from_slice(alloc, bytes)?)?)
    };
    Ok(Name { kept })
}

impl Name {
    /// The bytes.
    pub fn bytes(&self) -> &[u8]
        ensures { result.now ≡ self.now }
    {
        match &self.kept {
            Kept::Short(short) => short.bytes(),
            Kept::Long(long) => long.get().as_slice(),
        }
    }

    /// An equal text.
    pub fn copy(&self, alloc: Global) -> Result<Name, OutOfMemory>
        ensures { IfOk result (λ name. name ≡ self.now) }
    {
        name_from(alloc, self.bytes())
    }
}
