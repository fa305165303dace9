//! The lines of all hosts: a host drops what has no share of a cap there, and puts into classes what has one or is guaranteed.

ghost use Rattle.std.specs.Prelude.{◌≡◌, ◌≤◌, ◌<◌, ◌^◌, ◌-◌, ◌++◌, length, OnOk, IfOk};
ghost use Rattle.std.specs.List.{flat_map};
ghost use Rattle.merlin_model.specs.Policies.{paths_of};
ghost use Rattle.configuration_model.specs.Hosts.{host_lines as lines_of_hosts};
ghost use Rattle.configuration_model.specs.Pairs.{pair_cells};
ghost use Rattle.queue_and_tc.specs.Shares.{sources_in, HasFewCells};
ghost use Rattle.queue_and_tc.specs.HostTexts.{host_lines_at};

use crate::host_texts::add_lines;
use crate::reaches::{Host, hosts_of, reaches_of};
use crate::standings::standings_of;
use merlin_model::OutOfMemory;
use merlin_model::config::HostLine;
use policy_check::Checked;
use std::alloc::Global;
use topology::Topology;

// Adds the lines of a host.
fn add_host_lines(
    alloc: Global,
    net: &Topology,
    checked: &Checked,
    sources: &[Vec<usize>],
    hosts: &[Host],
    host: Host,
    lines: &mut Vec<HostLine>,
) -> Result<(), OutOfMemory>
    requires statements { length (paths_of checked.now.policy) < 2 ^ 16 - 1 }
    ensures { OnOk result (lines.new.items ≡ lines.old.items ++
        host_lines_at net.now checked.now.policy sources.now hosts.now host) }
{
    let _sound = checked.statements();
    let default = checked.preds().len();
    let standings = standings_of(alloc, net, checked, sources, host.loc)?;
    let reaches = reaches_of(alloc, checked.preds(), host, hosts)?;
    add_lines(alloc, host, &standings, default, &reaches, lines)
}

// Adds the lines of these hosts.
fn add_all_lines(
    alloc: Global,
    net: &Topology,
    checked: &Checked,
    sources: &[Vec<usize>],
    hosts: &[Host],
    lines: &mut Vec<HostLine>,
) -> Result<(), OutOfMemory>
    requires statements { length (paths_of checked.now.policy) < 2 ^ 16 - 1 }
    ensures { OnOk result (lines.new.items ≡ lines.old.items ++
        flat_map (host_lines_at net.now checked.now.policy sources.now hosts.now) hosts.now) }
{
    for host in hosts {
        add_host_lines(alloc, net, checked, sources, hosts, *host, lines)?;
    }
    Ok(())
}

/// The lines of all hosts, by host. `sources` are the live sources of each statement, the default's last, in the order of their locations. A host that
/// is one of a statement's sources has a class for it if the statement is guaranteed or has a share of its cap there, and drops it if its share is 0.
/// A class of a guaranteed statement has its minimum for a rate, and for a ceiling its maximum, or what the host's link carries from the host; each
/// other class has the share for both. Rates are in kbit/s.
pub fn host_lines(
    alloc: Global,
    net: &Topology,
    checked: &Checked,
    sources: &[Vec<usize>],
) -> Result<Vec<HostLine>, OutOfMemory>
    requires statements { length (paths_of checked.now.policy) < 2 ^ 16 - 1 }
    requires sources { length sources.now ≤ length (paths_of checked.now.policy) }
    requires cells { HasFewCells net.now checked.now.policy }
    ensures { IfOk result (λ lines. lines.items ≡ lines_of_hosts net.now checked.now.policy
        (sources_in sources.now) (pair_cells net.now checked.now.policy)) }
{
    let mut lines = Vec::new(alloc);
    let hosts = hosts_of(alloc, net)?;
    add_all_lines(alloc, net, checked, sources, &hosts, &mut lines)?;
    Ok(lines)
}
