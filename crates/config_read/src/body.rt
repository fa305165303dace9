//! What stands between the second line of a result and its tree.

ghost use Rattle.std.specs.Prelude.{◌≡◌, [], IfOk};
ghost use Rattle.config_lines.specs.Lines.{load_line};
ghost use Rattle.config_read.specs.Sections.{TakesAll, IsEmptyConfig, IsVersionLoad};
ghost use Rattle.config_read.specs.Bodies.{IsEmptyBody, TakesBody};

use crate::sections::{read_config, read_loads, read_walks};
use config_text::Load;
use merlin_base::Name;
use merlin_model::OutOfMemory;
use merlin_model::config::Config;
use merlin_model::policy::Symbol;
use sqlite_items::Items;
use std::alloc::Global;
use topology::Topology;

/// The walks beside the ids of their statements, the loads, and the configuration.
#[derive(Drop)]
pub struct Body {
    pub walks: Items<(Name, Items<Symbol>)>,
    pub loads: Items<Load>,
    pub config: Config,
}

/// The configuration without a line.
pub(crate) fn empty_config(alloc: Global) -> Config
    ensures { IsEmptyConfig result }
{
    Config {
        rules: Items::new(alloc),
        processes: Items::new(alloc),
        queues: Items::new(alloc),
        hosts: Items::new(alloc),
    }
}

impl Body {
    /// Without a line.
    pub(crate) fn new(alloc: Global) -> Self
        ensures { IsEmptyBody result }
    {
        Body {
            walks: Items::new(alloc),
            loads: Items::new(alloc),
            config: empty_config(alloc),
        }
    }
}

// The loads with whose lines the text begins, and what stands behind them. In version 1 there are none.
fn read_loads_of<'a>(
    net: &Topology,
    version: u8,
    text: &'a [u8],
    loads: &mut Items<Load>,
) -> Result<&'a [u8], OutOfMemory>
    requires { loads.old ≡ [] }
    ensures { IfOk result (λ rest.
        TakesAll (load_line net.now) (IsVersionLoad net.now version) text.now loads.new rest.now) }
{
    if version == 2 {
        read_loads(net, text, loads)
    } else {
        Ok(text)
    }
}

/// The lines of walks, of loads and of the configuration with which the text begins, and what stands behind them.
pub(crate) fn read_body<'a>(
    alloc: Global,
    net: &Topology,
    version: u8,
    text: &'a [u8],
    body: &mut Body,
) -> Result<&'a [u8], OutOfMemory>
    requires { IsEmptyBody body.old }
    ensures { IfOk result (λ rest. TakesBody net.now version text.now body.new rest.now) }
{
    let rest = read_walks(alloc, net, text, &mut body.walks)?;
    let rest = read_loads_of(net, version, rest, &mut body.loads)?;
    read_config(alloc, net, rest, &mut body.config)
}
