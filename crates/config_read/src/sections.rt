//! The lines of a result by kinds: of each kind as many as there are.

ghost use Rattle.std.specs.Prelude.{◌≡◌, [], OnOk, IfOk};
ghost use Rattle.config_lines.specs.Lines.{rule_line, IsRuleLine, process_line, IsProcessLine, queue_line, IsQueueLine, host_line, IsHostLine, load_line, IsLoadLine, walk_line, IsWalkLine};
ghost use Rattle.config_read.specs.Sections.{TakesAll, TakesConfig, IsEmptyConfig};

use config_lines::{read_host, read_load, read_process, read_queue, read_rule, read_walk};
use config_text::Load;
use merlin_base::Name;
use merlin_model::OutOfMemory;
use merlin_model::config::{Config, HostLine, Process, Queue, Rule};
use merlin_model::policy::Symbol;
use sqlite_items::Items;
use std::alloc::Global;
use topology::Topology;

/// The walks with whose lines the text begins, as many as there are, and what stands behind them.
pub fn read_walks<'a>(
    alloc: Global,
    net: &Topology,
    text: &'a [u8],
    walks: &mut Items<(Name, Items<Symbol>)>,
) -> Result<&'a [u8], OutOfMemory>
    requires { walks.old ≡ [] }
    ensures { IfOk result (λ rest.
        TakesAll (walk_line net.now) (IsWalkLine net.now) text.now walks.new rest.now) }
{
    let mut rest = text;
    'walks: loop {
        let Some((walk, more)) = read_walk(alloc, net, rest)? else {
            return Ok(rest);
        };
        walks.push(walk)?;
        rest = more;
    }
}

/// The loads with whose lines the text begins, as many as there are, and what stands behind them.
pub fn read_loads<'a>(
    net: &Topology,
    text: &'a [u8],
    loads: &mut Items<Load>,
) -> Result<&'a [u8], OutOfMemory>
    requires { loads.old ≡ [] }
    ensures { IfOk result (λ rest.
        TakesAll (load_line net.now) (IsLoadLine net.now) text.now loads.new rest.now) }
{
    let mut rest = text;
    'loads: loop {
        let Some((load, more)) = read_load(net, rest) else {
            return Ok(rest);
        };
        loads.push(load)?;
        rest = more;
    }
}

// The rules with whose lines the text begins, as many as there are, and what stands behind them.
fn read_rules<'a>(
    alloc: Global,
    net: &Topology,
    text: &'a [u8],
    rules: &mut Items<Rule>,
) -> Result<&'a [u8], OutOfMemory>
    requires { rules.old ≡ [] }
    ensures { IfOk result (λ rest.
        TakesAll (rule_line net.now) (IsRuleLine net.now) text.now rules.new rest.now) }
{
    let mut rest = text;
    'rules: loop {
        let Some((rule, more)) = read_rule(alloc, net, rest)? else {
            return Ok(rest);
        };
        rules.push(rule)?;
        rest = more;
    }
}

// The lines of middleboxes with which the text begins, as many as there are, and what stands behind them.
fn read_processes<'a>(
    alloc: Global,
    net: &Topology,
    text: &'a [u8],
    processes: &mut Items<Process>,
) -> Result<&'a [u8], OutOfMemory>
    requires { processes.old ≡ [] }
    ensures { IfOk result (λ rest.
        TakesAll (process_line net.now) (IsProcessLine net.now) text.now processes.new rest.now) }
{
    let mut rest = text;
    'processes: loop {
        let Some((process, more)) = read_process(alloc, net, rest)? else {
            return Ok(rest);
        };
        processes.push(process)?;
        rest = more;
    }
}

// The queues with whose lines the text begins, as many as there are, and what stands behind them.
fn read_queues<'a>(
    net: &Topology,
    text: &'a [u8],
    queues: &mut Items<Queue>,
) -> Result<&'a [u8], OutOfMemory>
    requires { queues.old ≡ [] }
    ensures { IfOk result (λ rest.
        TakesAll (queue_line net.now) (IsQueueLine net.now) text.now queues.new rest.now) }
{
    let mut rest = text;
    'queues: loop {
        let Some((queue, more)) = read_queue(net, rest) else {
            return Ok(rest);
        };
        queues.push(queue)?;
        rest = more;
    }
}

// The lines of hosts with which the text begins, as many as there are, and what stands behind them.
fn read_hosts<'a>(
    net: &Topology,
    text: &'a [u8],
    hosts: &mut Items<HostLine>,
) -> Result<&'a [u8], OutOfMemory>
    requires { hosts.old ≡ [] }
    ensures { IfOk result (λ rest.
        TakesAll (host_line net.now) (IsHostLine net.now) text.now hosts.new rest.now) }
{
    let mut rest = text;
    'hosts: loop {
        let Some((host, more)) = read_host(net, rest) else {
            return Ok(rest);
        };
        hosts.push(host)?;
        rest = more;
    }
}

/// The configuration by the lines with which the text begins, and what stands behind them.
pub fn read_config<'a>(
    alloc: Global,
    net: &Topology,
    text: &'a [u8],
    config: &mut Config,
) -> Result<&'a [u8], OutOfMemory>
    requires { IsEmptyConfig config.old }
    ensures { IfOk result (λ rest. TakesConfig net.now text.now config.new rest.now) }
{
    let rest = read_rules(alloc, net, text, &mut config.rules)?;
    let rest = read_processes(alloc, net, rest, &mut config.processes)?;
    let rest = read_queues(net, rest, &mut config.queues)?;
    read_hosts(net, rest, &mut config.hosts)
}
