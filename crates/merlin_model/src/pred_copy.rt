//! Copies of predicates.

ghost use Rattle.std.specs.Prelude.{◌≡◌, IfOk};

use crate::name::OutOfMemory;
use crate::policy::Pred;
use sqlite_items::{Boxed, Items};
use std::alloc::Global;

impl Pred {
    /// An equal predicate.
    #[cycle(copy)]
    pub fn copy(&self, alloc: Global) -> Result<Self, OutOfMemory>
        ensures { IfOk result (λ copy. copy ≡ self.now) }
    {
        Ok(match self {
            Pred::Yes => Pred::Yes,
            Pred::No => Pred::No,
            Pred::Test(test) => Pred::Test(*test),
            Pred::All(preds) => Pred::All(copies(alloc, preds.as_slice())?),
            Pred::AnyOf(preds) => Pred::AnyOf(copies(alloc, preds.as_slice())?),
            Pred::Not(pred) => Pred::Not(Boxed::new(alloc, pred.get().copy(alloc)?)?),
        })
    }
}

// Equal predicates, in the same order.
#[cycle(copy)]
fn copies(alloc: Global, preds: &[Pred]) -> Result<Items<Pred>, OutOfMemory>
    ensures { IfOk result (λ copies. copies ≡ preds.now) }
{
    let mut copies = Items::new(alloc);
    for pred in preds {
        copies.push(pred.copy(alloc)?)?;
    }
    Ok(copies)
}
