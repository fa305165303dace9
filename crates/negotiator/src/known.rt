//! Verdicts between two hosts are kept, of each statement of the child the last one: packets in turn mostly belong to few statements.

ghost use Rattle.std.specs.Prelude.{ℕ, ◌<◌, length, IfOk, OnOk};
ghost use Rattle.merlin_model.specs.Networks.{IsHost};
ghost use Rattle.merlin_model.specs.Policies.{paths_of};
ghost use Rattle.negotiator.specs.Between.{IsCase, IsWalkVerdict};
ghost use Rattle.negotiator.specs.Known.{IsKeptWith, KnowsVerdicts};

use crate::verdicts::{Case, WalkVerdict, verdict_on};
use merlin_model::OutOfMemory;
use std::alloc::Global;

/// A verdict on a statement of the child, and the statement of the parent that it was given with.
#[derive(Clone, Copy)]
pub struct Known {
    pub parent: usize,
    pub verdict: WalkVerdict,
}

/// A place for each statement of the child, with nothing kept.
pub(crate) fn nothing_known(
    alloc: Global,
    case: &Case<'_>,
) -> Result<Vec<Option<Known>>, OutOfMemory>
    ensures { (s d : ℕ) → IfOk result (λ kept. KnowsVerdicts case.now s d kept.items) }
{
    Ok(vec![in alloc; None; case.child.statements()]?)
}

// The verdict that is kept with a statement of the parent, if there is one.
fn kept_with(kept: Option<Known>, of_parent: usize) -> Option<WalkVerdict>
    ensures { IsKeptWith kept of_parent result }
{
    match kept {
        Some(known) if known.parent == of_parent => Some(known.verdict),
        _ => None,
    }
}

/// What a statement of the child and one of the parent have to do with each other between two hosts: what is kept of it, or else what is then
/// asked, and kept.
pub(crate) fn known_verdict(
    alloc: Global,
    case: &Case<'_>,
    src: usize,
    dst: usize,
    of_child: usize,
    of_parent: usize,
    kept: &mut Vec<Option<Known>>,
) -> Result<WalkVerdict, OutOfMemory>
    requires case { IsCase case.now }
    requires src { IsHost case.now.net.now src }
    requires dst { IsHost case.now.net.now dst }
    requires of_child { of_child < length (paths_of case.now.child.now.policy) }
    requires of_parent { of_parent < length (paths_of case.now.parent.now.policy) }
    requires kept { KnowsVerdicts case.now src dst kept.old.items }
    ensures verdict { IfOk result (IsWalkVerdict case.now src dst of_child of_parent) }
    ensures kept { OnOk result (KnowsVerdicts case.now src dst kept.new.items) }
{
    if let Some(verdict) = kept_with(kept[of_child], of_parent) {
        return Ok(verdict);
    }
    let verdict = verdict_on(alloc, case, src, dst, of_child, of_parent)?;
    kept[of_child] = Some(Known {
        parent: of_parent,
        verdict,
    });
    Ok(verdict)
}
