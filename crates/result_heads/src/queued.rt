//! What queues put on directed links.

ghost use Rattle.std.specs.Prelude.{◌≡◌, ◌++◌, ◌∷◌, ◌<◌, ◌^◌, ◌==◌, ◌&&◌, [], length, filter, nat_lt, IfOk, OnOk};
ghost use Rattle.std.specs.List.{All};
ghost use Rattle.config_text.specs.Loads.{load_over, loads_of};
ghost use Rattle.result_heads.specs.Queued.{queued_on, AreWithinCapacities};

use config_text::Load;
use merlin_base::OutOfMemory;
use merlin_model::config::Queue;
use std::alloc::Global;
use topology::{DirectedLink, Topology, directed_links_of};

// Whether a queue is at the port of a directed link.
fn is_queued_on(queue: &Queue, link: &DirectedLink) -> bool
    ensures { result ≡ (queue.now.loc == link.now.from) && (queue.now.port == link.now.out_port) }
{
    queue.loc == link.from && queue.port == link.out_port
}

// The rates of the queues at the port of a directed link, together.
fn queued_rate(queues: &[Queue], link: &DirectedLink) -> u64
    requires { queued_on queues.now link.now < 2 ^ 64 }
    ensures { result ≡ queued_on queues.now link.now }
{
    let mut total = 0;
    let mut rest = queues;
    'queues: while let [queue, ..] = rest {
        if is_queued_on(queue, link) {
            total += queue.rate;
        }
        rest = &rest[1..];
    }
    total
}

// Adds the load of a directed link, if something is queued on it.
fn push_load(
    loads: &mut Vec<Load>,
    queues: &[Queue],
    link: &DirectedLink,
) -> Result<(), OutOfMemory>
    requires { queued_on queues.now link.now < 2 ^ 64 }
    ensures { OnOk result (loads.new.items ≡ loads.old.items
        ++ filter (λ l. nat_lt 0 l.load) (load_over (queued_on queues.now) link.now ∷ [])) }
{
    let load = queued_rate(queues, link);
    if load > 0 {
        loads.push(Load {
            loc: link.from,
            port: link.out_port,
            load,
            capacity: link.capacity,
        })?;
    }
    Ok(())
}

/// The loads of the directed links on which queues reserve something, in the order of directed links. `queues` reserve at most what each link carries.
pub fn loads_from(alloc: Global, net: &Topology, queues: &[Queue]) -> Result<Vec<Load>, OutOfMemory>
    requires { AreWithinCapacities net.now queues.now }
    ensures loads { IfOk result (λ loads. loads.items ≡
        loads_of net.now (queued_on queues.now)) }
    ensures present { IfOk result (λ loads.
        All (λ load. load.loc < length net.now.locations) loads.items) }
{
    let _lawful = net.locations();
    let directed_links = directed_links_of(alloc, net.links())?;
    let mut loads = Vec::new(alloc);
    for link in &directed_links {
        push_load(&mut loads, queues, link)?;
    }
    Ok(loads)
}
