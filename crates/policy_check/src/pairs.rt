//! The pairs of hosts between which a predicate can hold, looked for in the order of their numbers.

ghost use Rattle.std.specs.Prelude.{◌≡◌, ◌<◌, ◌≤◌, ◌↔◌, ℕ, IsTrue, IfOk, IfSome, IfNone, length};
ghost use Rattle.merlin_model.specs.Predicates.{IsPred};
ghost use Rattle.policy_check.specs.Traffic.{HasPacket, HasNoPairFrom, IsNextPair, IsNextDestination, ArePairs};

use merlin_model::OutOfMemory;
use merlin_model::policy::Pred;
use predicate_split::holds_between;
use std::alloc::Global;
use topology::Topology;

// The pairs of hosts between which a predicate holds of some proper packet, as far as two.
#[derive(Clone, Copy)]
pub(crate) enum Pairs {
    NoPair,
    OnePair((usize, usize)),
    MorePairs((usize, usize), (usize, usize)),
}

// Whether the predicate holds of some proper packet between two locations.
fn has_packet(
    alloc: Global,
    pred: &Pred,
    net: &Topology,
    src: usize,
    dst: usize,
) -> Result<bool, OutOfMemory>
    requires formed { IsPred pred.now }
    requires src { src < length net.now.locations }
    requires dst { dst < length net.now.locations }
    ensures { IfOk result (λ found. IsTrue found ↔ HasPacket net.now pred.now (src, dst)) }
{
    if src == dst {
        return Ok(false);
    }
    let Some(source) = net.host(src) else {
        return Ok(false);
    };
    let Some(destination) = net.host(dst) else {
        return Ok(false);
    };
    holds_between(alloc, pred, source, destination)
}

// The first destination from this number on to which there is such a packet.
fn next_destination(
    alloc: Global,
    pred: &Pred,
    net: &Topology,
    src: usize,
    from: usize,
) -> Result<Option<usize>, OutOfMemory>
    requires formed { IsPred pred.now }
    requires src { src < length net.now.locations }
    ensures some { IfOk result (λ found.
        IfSome found (IsNextDestination net.now pred.now src from)) }
    ensures none { IfOk result (λ found.
        IfNone found ((dst : ℕ) → HasPacket net.now pred.now (src, dst) → dst < from)) }
{
    for dst in from..net.locations() {
        if has_packet(alloc, pred, net, src, dst)? {
            return Ok(Some(dst));
        }
    }
    Ok(None)
}

// The first pair from this one on between which there is such a packet.
fn next_pair(
    alloc: Global,
    pred: &Pred,
    net: &Topology,
    from: (usize, usize),
) -> Result<Option<(usize, usize)>, OutOfMemory>
    requires formed { IsPred pred.now }
    ensures some { IfOk result (λ found. IfSome found (IsNextPair net.now pred.now from)) }
    ensures none { IfOk result (λ found. IfNone found (HasNoPairFrom net.now pred.now from)) }
{
    for src in from.0..net.locations() {
        let least = if src == from.0 { from.1 } else { 0 };
        if let Some(dst) = next_destination(alloc, pred, net, src, least)? {
            return Ok(Some((src, dst)));
        }
    }
    Ok(None)
}

// The pairs between which there is such a packet, as far as two.
pub(crate) fn pairs_of(alloc: Global, pred: &Pred, net: &Topology) -> Result<Pairs, OutOfMemory>
    requires formed { IsPred pred.now }
    ensures { IfOk result (ArePairs net.now pred.now) }
{
    let Some(first) = next_pair(alloc, pred, net, (0, 0))? else {
        return Ok(Pairs::NoPair);
    };
    let _ = net.locations();
    match next_pair(alloc, pred, net, (first.0, first.1 + 1))? {
        None => Ok(Pairs::OnePair(first)),
        Some(second) => Ok(Pairs::MorePairs(first, second)),
    }
}
