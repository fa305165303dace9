//! All lines of a configuration.

ghost use Rattle.std.specs.Prelude.{◌≡◌, ◌++◌, map, OnOk, IfOk};
ghost use Rattle.std.specs.List.{All};
ghost use Rattle.config_text.specs.Lines.{config_lines, IsConfigOver};

use crate::entry::Entry;
use crate::line::Line;
use merlin_base::{Name, OutOfMemory};
use merlin_model::config::Config;
use std::alloc::Global;
use topology::Topology;

// Adds the lines of entries of one kind.
fn add_lines<E: Entry>(
    alloc: Global,
    net: &Topology,
    entries: &[E],
    lines: &mut Vec<Name>,
) -> Result<(), OutOfMemory>
    requires { All (E.is_over net.now) entries.now }
    ensures { OnOk result (lines.new.items ≡ lines.old.items
        ++ map (E.line_of net.now) entries.now) }
{
    let mut line = Line::new(alloc);
    for entry in entries {
        entry.write(alloc, net, &mut line)?;
        lines.push(line.name()?)?;
    }
    Ok(())
}

/// The lines of a configuration, each with its newline: rules, then middleboxes, queues and hosts, each kind in the order
/// of the configuration.
pub fn print(alloc: Global, config: &Config, net: &Topology) -> Result<Vec<Name>, OutOfMemory>
    requires { IsConfigOver net.now config.now }
    ensures { IfOk result (λ lines. lines.items ≡ config_lines net.now config.now) }
{
    let mut lines = Vec::new(alloc);
    add_lines(alloc, net, config.rules.as_slice(), &mut lines)?;
    add_lines(alloc, net, config.processes.as_slice(), &mut lines)?;
    add_lines(alloc, net, config.queues.as_slice(), &mut lines)?;
    add_lines(alloc, net, config.hosts.as_slice(), &mut lines)?;
    Ok(lines)
}
