//! Lines of loads.

ghost use Rattle.std.specs.Prelude.{◌≡◌, ◌++◌, List, ℕ, IfSome, IfNone};
ghost use Rattle.config_text.specs.declared.loads.Load.{Load as Stated};
ghost use Rattle.config_lines.specs.Lines.{load_line, IsLoadLine};

use crate::words::{GREATEST_PORT, location_then, number_then, short_then};
use config_text::Load;
use merlin_base::strip_front;
use topology::Topology;

/// The load with whose line the text begins, and what stands behind the line. None where it begins with the line of no load.
pub fn read_load<'a>(net: &Topology, text: &'a [u8]) -> Option<(Load, &'a [u8])>
    ensures some { IfSome result (λ r.
        (text.now ≡ load_line net.now r.0 ++ r.1.now) × IsLoadLine net.now r.0) }
    ensures none { IfNone result ((load : Stated) (rest : List ℕ) → IsLoadLine net.now load →
        text.now ≡ load_line net.now load ++ rest → ⊥) }
{
    let rest = strip_front(text, b"load ")?;
    let (loc, rest) = location_then(net, rest)?;
    let (port, rest) = short_then(rest, b' ', 1, GREATEST_PORT)?;
    let (load, rest) = number_then(rest, b'/')?;
    let (capacity, rest) = number_then(rest, b'\n')?;
    let load = Load {
        loc,
        port,
        load,
        capacity,
    };
    Some((load, rest))
}
