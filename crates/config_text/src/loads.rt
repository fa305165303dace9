//! Lines of loads: what guaranteed statements put on directed links.

ghost use Rattle.std.specs.Prelude.{◌≡◌, ◌<◌, ◌++◌, length, IfOk, OnOk};
ghost use Rattle.std.specs.List.{All};
ghost use Rattle.config_text.specs.Words.{line as whole_line};
ghost use Rattle.config_text.specs.Loads.{load_text, load_lines};

use crate::line::Line;
use merlin_base::{Name, OutOfMemory};
use std::alloc::Global;
use topology::Topology;

/// What guaranteed statements put on the directed link at a port of a location, and what that link carries at most, both in kbit/s.
#[derive(Clone, Copy)]
pub struct Load {
    pub loc: usize,
    pub port: u16,
    pub load: u64,
    pub capacity: u64,
}

// The line of a load, from the name of its location.
fn load_line(line: &mut Line, location: &Name, load: &Load) -> Result<(), OutOfMemory>
    ensures { OnOk result (line.new ≡ whole_line (load_text location.now load.now)) }
{
    line.begin(b"load")?;
    line.word(location.bytes())?;
    line.number_word(u64::from(load.port))?;
    line.number_word(load.load)?;
    line.byte(b'/')?;
    line.number(load.capacity)?;
    line.byte(b'\n')
}

/// The lines of loads, each with its newline, in the order that is given.
pub fn print_loads(alloc: Global, loads: &[Load], net: &Topology) -> Result<Vec<Name>, OutOfMemory>
    requires { All (λ load. load.loc < length net.now.locations) loads.now }
    ensures { IfOk result (λ lines. lines.items ≡ load_lines net.now loads.now) }
{
    let mut lines = Vec::new(alloc);
    let mut line = Line::new(alloc);
    for load in loads {
        load_line(&mut line, net.name(load.loc), load)?;
        lines.push(line.name()?)?;
    }
    Ok(lines)
}
