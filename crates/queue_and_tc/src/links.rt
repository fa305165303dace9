//! The queues of the guarantees: at each directed link one for each walk that crosses it.

ghost use Rattle.std.specs.Prelude.{◌≡◌, ◌≤◌, ◌<◌, ◌+◌, ◌^◌, ◌++◌, length, map, OnOk, IfOk};
ghost use Rattle.std.specs.List.{AllByRecursion};
ghost use Rattle.merlin_model.specs.Networks.{from_a, from_b};
ghost use Rattle.merlin_model.specs.Words.{crosses as is_crossed, crossings as crossings_in};
ghost use Rattle.merlin_model.specs.Rates.{min_of};
ghost use Rattle.configuration_model.specs.Queues.{queue_line, queues_on, reserved_queues};
ghost use Rattle.queue_and_tc.specs.Reserved.{IsWithinRates, IsShort, queues_of_both};

use crate::rates::min_at;
use merlin_model::OutOfMemory;
use merlin_model::config::Queue;
use merlin_model::network::{DirectedLink, Link};
use merlin_model::policy::{Ends, Symbol};
use policy_check::Checked;
use std::alloc::Global;
use topology::Topology;

// Whether a step leads from the one location to the other.
fn crosses(here: &Symbol, next: &Symbol, from: usize, to: usize) -> bool
    ensures { result ≡ is_crossed from to (here.now, next.now) }
{
    here.loc == from && next.loc == to && from != to
}

// How often a walk goes from the one location to the other.
fn crossings(walk: &[Symbol], from: usize, to: usize) -> u64
    ensures count { result ≡ crossings_in walk.now from to }
    ensures few { result ≤ length walk.now }
{
    let mut count = 0;
    let mut rest = walk;
    'steps: while let [here, next, ..] = rest {
        if crosses(here, next, from, to) {
            count += 1;
        }
        rest = &rest[1..];
    }
    count
}

// Adds the queue of a guarantee at a directed link, if its walk crosses it.
fn add_queue(
    alloc: Global,
    checked: &Checked,
    link: DirectedLink,
    queue: u16,
    ends: &Ends,
    walk: &[Symbol],
    queues: &mut Vec<Queue>,
) -> Result<(), OutOfMemory>
    requires rate { IsWithinRates checked.now.policy ends.now }
    requires short { length walk.now < 2 ^ 32 }
    ensures { OnOk result (queues.new.items ≡
        queues.old.items ++ queue_line checked.now.policy link queue ends.now walk.now) }
{
    let crossed = crossings(walk, link.from, link.to);
    if crossed > 0 {
        queues.push(Queue {
            loc: link.from,
            port: link.out_port,
            queue,
            rate: min_at(checked, ends.statement) * crossed,
        })?;
    }
    Ok(())
}

// Adds the queues at a directed link, from the one of this number on.
fn add_queues(
    alloc: Global,
    checked: &Checked,
    link: DirectedLink,
    queue: u16,
    ends: &[Ends],
    walks: &[Vec<Symbol>],
    queues: &mut Vec<Queue>,
) -> Result<(), OutOfMemory>
    requires numbers { queue + length ends.now < 2 ^ 16 }
    requires rates { AllByRecursion (IsWithinRates checked.now.policy) ends.now }
    requires short { AllByRecursion IsShort walks.now }
    ensures { OnOk result (queues.new.items ≡ queues.old.items ++
        queues_on checked.now.policy link queue ends.now (map (λ w. w.items) walks.now)) }
{
    let (Some((first, others)), Some((walk, rest))) = (ends.split_first(), walks.split_first())
    else {
        return Ok(());
    };
    add_queue(alloc, checked, link, queue, first, walk, queues)?;
    add_queues(alloc, checked, link, queue + 1, others, rest, queues)
}

// A link from its first end, and from its second.

fn forth(link: &Link) -> DirectedLink
    ensures { result ≡ from_a link.now }
{
    DirectedLink {
        from: link.a,
        out_port: link.aport,
        to: link.b,
        in_port: link.bport,
        capacity: link.capacity,
        back: link.back,
        weight: link.weight,
    }
}

fn back(link: &Link) -> DirectedLink
    ensures { result ≡ from_b link.now }
{
    DirectedLink {
        from: link.b,
        out_port: link.bport,
        to: link.a,
        in_port: link.aport,
        capacity: link.back,
        back: link.capacity,
        weight: link.weight,
    }
}

// Adds the queues of both directions of a link.
fn add_both(
    alloc: Global,
    checked: &Checked,
    link: &Link,
    ends: &[Ends],
    walks: &[Vec<Symbol>],
    queues: &mut Vec<Queue>,
) -> Result<(), OutOfMemory>
    requires numbers { length ends.now ≤ 64 }
    requires rates { AllByRecursion (IsWithinRates checked.now.policy) ends.now }
    requires short { AllByRecursion IsShort walks.now }
    ensures { OnOk result (queues.new.items ≡ queues.old.items ++
        queues_of_both checked.now.policy ends.now (map (λ w. w.items) walks.now) link.now) }
{
    add_queues(alloc, checked, forth(link), 1, ends, walks, queues)?;
    add_queues(alloc, checked, back(link), 1, ends, walks, queues)
}

/// The queues of the guarantees, by directed link and then by number: `ends` are the guaranteed statements, which are numbered from 1, and `walks`
/// their walks. A walk has less than 2^32 symbols. The rate is what the guarantee reserves on the link, in kbit/s.
pub fn queues(
    alloc: Global,
    net: &Topology,
    checked: &Checked,
    ends: &[Ends],
    walks: &[Vec<Symbol>],
) -> Result<Vec<Queue>, OutOfMemory>
    requires numbers { length ends.now ≤ 64 }
    requires rates { AllByRecursion (IsWithinRates checked.now.policy) ends.now }
    requires short { AllByRecursion IsShort walks.now }
    ensures { IfOk result (λ queues. queues.items ≡
        reserved_queues net.now checked.now.policy ends.now (map (λ w. w.items) walks.now)) }
{
    let mut queues = Vec::new(alloc);
    for link in net.links() {
        add_both(alloc, checked, link, ends, walks, &mut queues)?;
    }
    Ok(queues)
}
