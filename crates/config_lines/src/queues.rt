//! Lines of queues.

ghost use Rattle.std.specs.Prelude.{◌≡◌, ◌++◌, List, ℕ, IfSome, IfNone};
ghost use Rattle.merlin_model.specs.declared.config.Queue.{Queue as Stated};
ghost use Rattle.config_lines.specs.Lines.{queue_line, IsQueueLine};

use crate::limits::MAX_QUEUE;
use crate::words::{GREATEST_PORT, location_then, rate_then, short_then};
use merlin_base::strip_front;
use merlin_model::config::Queue;
use topology::Topology;

/// The queue with whose line the text begins, and what stands behind the line. None where it begins with the line of no queue.
pub fn read_queue<'a>(net: &Topology, text: &'a [u8]) -> Option<(Queue, &'a [u8])>
    ensures some { IfSome result (λ r.
        (text.now ≡ queue_line net.now r.0 ++ r.1.now) × IsQueueLine net.now r.0) }
    ensures none { IfNone result ((queue : Stated) (rest : List ℕ) →
        IsQueueLine net.now queue →
        text.now ≡ queue_line net.now queue ++ rest → ⊥) }
{
    let rest = strip_front(text, b"queue ")?;
    let (loc, rest) = location_then(net, rest)?;
    let (port, rest) = short_then(rest, b' ', 1, GREATEST_PORT)?;
    let (queue, rest) = short_then(rest, b' ', 1, MAX_QUEUE)?;
    let (rate, rest) = rate_then(rest, b"\n")?;
    let queue = Queue {
        loc,
        port,
        queue,
        rate,
    };
    Some((queue, rest))
}
