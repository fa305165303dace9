//! The ids and the predicates of the statements of a policy, each as a list.

ghost use Rattle.std.specs.Prelude.{◌≡◌, IfOk};
ghost use Rattle.policy_check.specs.Rules.{listed_ids, listed_preds};

use merlin_model::policy::Pred;
use merlin_model::{Name, OutOfMemory};
use policy_expansion::Policy;
use sqlite_items::Items;
use std::alloc::Global;

// The ids and the predicates of the statements, in their order.
#[derive(Drop)]
pub(crate) struct Listing {
    pub(crate) ids: Items<Name>,
    pub(crate) preds: Items<Pred>,
}

pub(crate) fn listing_of(alloc: Global, policy: &Policy) -> Result<Listing, OutOfMemory>
    ensures ids { IfOk result (λ listing. listing.ids ≡ listed_ids policy.now) }
    ensures preds { IfOk result (λ listing. listing.preds ≡ listed_preds policy.now) }
{
    let mut listing = Listing {
        ids: Items::new(alloc),
        preds: Items::new(alloc),
    };
    for statement in policy.statements.as_slice() {
        listing.ids.push(statement.id.copy(alloc)?)?;
        listing.preds.push(statement.pred.copy(alloc)?)?;
    }
    Ok(listing)
}
