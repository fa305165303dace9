//! Configurations, as they are printed and handed over.

ghost use Rattle.std.specs.Prelude.{◌≡◌, ◌≤◌, IfOk, OnOk, OnErr};
ghost use Rattle.merlin_base.specs.Outside.{Rose, FailsOnlyIf, Grows, GrowsByPrefix};
ghost use Rattle.merlin_base.specs.Texts.{joined};
ghost use Rattle.config_text.specs.Lines.{config_lines, IsConfigOver};

use config_text::{Config, print, write_config};
use merlin_base::{Name, OutOfMemory, OutsideFault, Sink};
use std::alloc::Global;
use topology::Topology;

/// What `print` answers.
pub fn lines(alloc: Global, config: &Config, net: &Topology) -> Result<Vec<Name>, OutOfMemory>
    requires { IsConfigOver net.now config.now }
    ensures { IfOk result (λ lines. lines.items ≡ config_lines net.now config.now) }
{
    match print(alloc, config, net) {
        Ok(lines) => Ok(lines),
        Err(fault) => Err(fault),
    }
}

/// What `write_config` hands over.
pub fn handed<K: Sink>(
    alloc: Global,
    config: &Config,
    net: &Topology,
    out: &mut K,
) -> Result<(), OutsideFault>
    requires { IsConfigOver net.now config.now }
    ensures ok { let lines = config_lines net.now config.now in
        OnOk result (Grows (K.taken out.old) (K.taken out.new) (joined lines)) }
    ensures err { let lines = config_lines net.now config.now in
        OnErr result (GrowsByPrefix (K.taken out.old) (K.taken out.new) (joined lines)) }
    ensures later { K.faults out.old ≤ K.faults out.new }
    ensures failed { FailsOnlyIf result (Rose (K.faults out.old) (K.faults out.new)) }
{
    match write_config(alloc, config, net, out) {
        Ok(()) => Ok(()),
        Err(fault) => Err(fault),
    }
}
