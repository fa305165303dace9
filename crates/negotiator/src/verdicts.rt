//! What a statement of the child and one of the parent have to do with each other between two hosts, by the automata of their paths.

ghost use Rattle.std.specs.Prelude.{◌≡◌, ◌<◌, ◌↔◌, IsTrue, length, IfOk};
ghost use Rattle.merlin_model.specs.Networks.{IsHost};
ghost use Rattle.merlin_model.specs.Policies.{paths_of};
ghost use Rattle.negotiator.specs.Between.{HasWalk, StaysWithin, AcceptsNothing, IsCase, IsWalkVerdict};

use language_check::included;
use merlin_model::OutOfMemory;
use merlin_model::policy::{Path, Symbol};
use path_automaton::{Automaton, build};
use policy_check::Checked;
use std::alloc::Global;
use topology::Topology;

/// Two policies over one network and its symbols, with an automaton that accepts nothing.
#[derive(Clone, Copy)]
pub struct Case<'a> {
    pub parent: &'a Checked,
    pub child: &'a Checked,
    pub net: &'a Topology,
    pub symbols: &'a [Symbol],
    pub nothing: &'a Automaton,
}

/// Whether the child's statement has a walk between two hosts, and whether all of these are on the path of the parent's.
#[derive(Clone, Copy)]
pub struct WalkVerdict {
    pub walks: bool,
    pub stays: bool,
}

/// The automaton of no word.
pub(crate) fn nothing(alloc: Global, symbols: &[Symbol]) -> Result<Automaton, OutOfMemory>
    ensures { IfOk result (AcceptsNothing symbols.now) }
{
    // It has one state, so that only memory may be lacking.
    match build(alloc, &Path::Nothing, symbols) {
        Ok(automaton) => Ok(automaton),
        Err(_) => Err(OutOfMemory),
    }
}

// Whether some walk between two hosts is on the path of a statement of the child.
fn has_walk(
    alloc: Global,
    case: &Case<'_>,
    src: usize,
    dst: usize,
    of_child: usize,
) -> Result<bool, OutOfMemory>
    requires case { IsCase case.now }
    requires src { IsHost case.now.net.now src }
    requires dst { IsHost case.now.net.now dst }
    requires of_child { of_child < length (paths_of case.now.child.now.policy) }
    ensures { IfOk result (λ has. IsTrue has ↔
        HasWalk case.now.net.now case.now.child.now.policy src dst of_child) }
{
    let path = case.child.automaton(of_child);
    let walk = included(alloc, path, case.nothing, case.net, case.symbols, src, dst)?;
    Ok(walk.is_some())
}

// Whether each walk between two hosts on the path of a statement of the child is on that of a statement of the parent.
fn stays_within(
    alloc: Global,
    case: &Case<'_>,
    src: usize,
    dst: usize,
    of_child: usize,
    of_parent: usize,
) -> Result<bool, OutOfMemory>
    requires case { IsCase case.now }
    requires src { IsHost case.now.net.now src }
    requires dst { IsHost case.now.net.now dst }
    requires of_child { of_child < length (paths_of case.now.child.now.policy) }
    requires of_parent { of_parent < length (paths_of case.now.parent.now.policy) }
    ensures { IfOk result (λ stays. IsTrue stays ↔ StaysWithin case.now.net.now
        case.now.parent.now.policy case.now.child.now.policy src dst of_child of_parent) }
{
    let path = case.child.automaton(of_child);
    let other = case.parent.automaton(of_parent);
    let stray = included(alloc, path, other, case.net, case.symbols, src, dst)?;
    Ok(stray.is_none())
}

/// What a statement of the child and one of the parent have to do with each other between two hosts.
pub(crate) fn verdict_on(
    alloc: Global,
    case: &Case<'_>,
    src: usize,
    dst: usize,
    of_child: usize,
    of_parent: usize,
) -> Result<WalkVerdict, OutOfMemory>
    requires case { IsCase case.now }
    requires src { IsHost case.now.net.now src }
    requires dst { IsHost case.now.net.now dst }
    requires of_child { of_child < length (paths_of case.now.child.now.policy) }
    requires of_parent { of_parent < length (paths_of case.now.parent.now.policy) }
    ensures { IfOk result (IsWalkVerdict case.now src dst of_child of_parent) }
{
    if !has_walk(alloc, case, src, dst, of_child)? {
        return Ok(WalkVerdict {
            walks: false,
            stays: true,
        });
    }
    let stays = stays_within(alloc, case, src, dst, of_child, of_parent)?;
    Ok(WalkVerdict { walks: true, stays })
}
