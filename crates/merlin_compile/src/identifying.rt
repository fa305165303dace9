//! The ids of guaranteed statements.
ghost use Rattle.std.specs.Prelude.{Some, IfOk, slice_get, ◌≡◌};
ghost use Rattle.merlin_model.specs.Rates.{IsGuaranteed};
ghost use Rattle.rate_formula.specs.Usage.{ids_in};
ghost use Rattle.merlin_compile.specs.Compiled.{AreIdsOf};
ghost use Rattle.merlin_compile.specs.Provisions.{AreGuaranteedEnds};

use merlin_base::{Name, OutOfMemory};
use merlin_model::policy::Ends;
use policy_check::Checked;
use sqlite_items::Items;
use std::alloc::Global;

/// The id of a guaranteed statement.
pub fn id_of(alloc: Global, checked: &Checked, statement: usize) -> Result<Name, OutOfMemory>
    requires { IsGuaranteed checked.now.policy statement }
    ensures { IfOk result (λ id. slice_get (ids_in checked.now.policy) statement ≡ Some id) }
{
    match checked.id(statement) {
        Some(id) => id.copy(alloc),
        None => unreachable!(),
    }
}

// The ids of the statements that have these ends.
fn list_ids(alloc: Global, checked: &Checked, ends: &[Ends]) -> Result<Vec<Name>, OutOfMemory>
    requires { AreGuaranteedEnds checked.now.policy ends.now }
    ensures { IfOk result (λ ids. AreIdsOf checked.now.policy ends.now ids.items) }
{
    let mut ids = Vec::new(alloc);
    for end in ends {
        ids.push(id_of(alloc, checked, end.statement)?)?;
    }
    Ok(ids)
}

/// The ids of the guaranteed statements, in their order.
pub fn ids_of(alloc: Global, checked: &Checked, ends: &[Ends]) -> Result<Items<Name>, OutOfMemory>
    requires { AreGuaranteedEnds checked.now.policy ends.now }
    ensures { IfOk result (AreIdsOf checked.now.policy ends.now) }
{
    Ok(Items::from_vec(list_ids(alloc, checked, ends)?))
}
