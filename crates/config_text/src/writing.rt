//! A configuration handed to a sink, line by line. No line is kept once it was handed over.

ghost use Rattle.std.specs.Prelude.{◌≡◌, ◌≤◌, ℕ, List, map, OnOk, OnErr};
ghost use Rattle.std.specs.List.{All};
ghost use Rattle.merlin_base.specs.Outside.{Rose, FailsOnlyIf, Grows, GrowsByPrefix};
ghost use Rattle.merlin_base.specs.Texts.{joined};
ghost use Rattle.config_text.specs.Lines.{config_lines, IsConfigOver};

use crate::entry::Entry;
use crate::line::Line;
use merlin_base::{OutOfMemory, OutsideFault, Sink, write_all};
use merlin_model::config::Config;
use std::alloc::Global;
use topology::Topology;

// Hands over a line, if there was memory for it.
fn hand_over<K: Sink>(
    out: &mut K,
    line: &Line,
    written: Result<(), OutOfMemory>,
) -> Result<(), OutsideFault>
    ensures ok { (text : List ℕ) → OnOk written (line.now ≡ text) →
        OnOk result (Grows (K.taken out.old) (K.taken out.new) text) }
    ensures err { (text : List ℕ) → OnOk written (line.now ≡ text) →
        OnErr result (GrowsByPrefix (K.taken out.old) (K.taken out.new) text) }
    ensures later { K.faults out.old ≤ K.faults out.new }
    ensures failed { FailsOnlyIf result (Rose (K.faults out.old) (K.faults out.new)) }
{
    match written {
        Ok(()) => write_all(out, line.bytes()),
        Err(OutOfMemory) => Err(OutsideFault::OutOfMemory),
    }
}

// Hands over the lines of entries of one kind.
fn write_each<K: Sink, E: Entry>(
    alloc: Global,
    line: &mut Line,
    net: &Topology,
    entries: &[E],
    out: &mut K,
) -> Result<(), OutsideFault>
    requires { All (E.is_over net.now) entries.now }
    ensures ok { let lines = map (E.line_of net.now) entries.now in
        OnOk result (Grows (K.taken out.old) (K.taken out.new) (joined lines)) }
    ensures err { let lines = map (E.line_of net.now) entries.now in
        OnErr result (GrowsByPrefix (K.taken out.old) (K.taken out.new) (joined lines)) }
    ensures later { K.faults out.old ≤ K.faults out.new }
    ensures failed { FailsOnlyIf result (Rose (K.faults out.old) (K.faults out.new)) }
{
    for entry in entries {
        let written = entry.write(alloc, net, line);
        hand_over(out, line, written)?;
    }
    Ok(())
}

/// Hands the lines of a configuration to a sink, one at a time, each with its newline: the lines that `print` gives. Memory is taken for one
/// line alone.
///
/// # Errors
/// Where the sink fails or memory runs out, a prefix of the text was taken.
pub fn write_config<K: Sink>(
    alloc: Global,
    config: &Config,
    net: &Topology,
    out: &mut K,
) -> Result<(), OutsideFault>
    requires { IsConfigOver net.now config.now }
    ensures ok { let lines = config_lines net.now config.now in
        OnOk result (Grows (K.taken out.old) (K.taken out.new) (joined lines)) }
    ensures err { let lines = config_lines net.now config.now in
        OnErr result (GrowsByPrefix (K.taken out.old) (K.taken out.new) (joined lines)) }
    ensures later { K.faults out.old ≤ K.faults out.new }
    ensures failed { FailsOnlyIf result (Rose (K.faults out.old) (K.faults out.new)) }
{
    let mut line = Line::new(alloc);
    write_each(alloc, &mut line, net, config.rules.as_slice(), out)?;
    write_each(alloc, &mut line, net, config.processes.as_slice(), out)?;
    write_each(alloc, &mut line, net, config.queues.as_slice(), out)?;
    write_each(alloc, &mut line, net, config.hosts.as_slice(), out)
}
