//! Formulas and their copies.

ghost use Rattle.std.specs.Prelude.{◌≡◌, IfOk};

use merlin_model::OutOfMemory;
use merlin_model::policy::{Part, Term};
use sqlite_items::Items;
use std::alloc::Global;

/// A bandwidth formula: each of its terms is to hold.
#[derive(Drop)]
pub struct Formula {
    pub terms: Items<Term>,
}

impl Formula {
    /// An equal formula.
    pub fn copy(&self, alloc: Global) -> Result<Self, OutOfMemory>
        ensures { IfOk result (λ copy. copy ≡ self.now) }
    {
        let mut terms = Items::new(alloc);
        for term in self.terms.as_slice() {
            terms.push(copy_of_term(alloc, term)?)?;
        }
        Ok(Formula { terms })
    }
}

/// An equal term.
fn copy_of_term(alloc: Global, term: &Term) -> Result<Term, OutOfMemory>
    ensures { IfOk result (λ copy. copy ≡ term.now) }
{
    let mut parts = Items::new(alloc);
    for part in term.parts.as_slice() {
        parts.push(match part {
            Part::Id(id) => Part::Id(id.copy(alloc)?),
            Part::Constant(rate) => Part::Constant(*rate),
        })?;
    }
    Ok(Term {
        bound: term.bound,
        parts,
        rate: term.rate,
    })
}
