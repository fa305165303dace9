//! Copies of paths.
ghost use Rattle.std.specs.Prelude.{◌≡◌, IfOk};

use crate::written::RawPath;
use merlin_model::name::OutOfMemory;
use sqlite_items::{Boxed, Items};
use std::alloc::Global;

impl RawPath {
    /// An equal path.
    #[cycle(copy)]
    pub fn copy(&self, alloc: Global) -> Result<Self, OutOfMemory>
        ensures { IfOk result (λ copy. copy ≡ self.now) }
    {
        Ok(match self {
            RawPath::Dot => RawPath::Dot,
            RawPath::Named { name, at } => RawPath::Named {
                name: name.copy(alloc)?,
                at: *at,
            },
            RawPath::Cat(parts) => RawPath::Cat(copies(alloc, parts.as_slice())?),
            RawPath::Alt(parts) => RawPath::Alt(copies(alloc, parts.as_slice())?),
            RawPath::Star(part) => RawPath::Star(Boxed::new(alloc, part.get().copy(alloc)?)?),
            RawPath::Not(part) => RawPath::Not(Boxed::new(alloc, part.get().copy(alloc)?)?),
        })
    }
}

// Equal paths, in the same order.
#[cycle(copy)]
fn copies(alloc: Global, parts: &[RawPath]) -> Result<Items<RawPath>, OutOfMemory>
    ensures { IfOk result (λ copies. copies ≡ parts.now) }
{
    let mut copies = Items::new(alloc);
    for part in parts {
        copies.push(part.copy(alloc)?)?;
    }
    Ok(copies)
}
