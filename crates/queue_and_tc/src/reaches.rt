//! The hosts, and what each may send to another: the cells that tell its packets apart.

ghost use Rattle.std.specs.Prelude.{◌≡◌, ◌<◌, ◌++◌, ◌==◌, [], ◌∷◌, not, map, filter, length, OnOk, IfOk};
ghost use Rattle.std.specs.List.{AllByRecursion};
ghost use Rattle.merlin_model.specs.Networks.{kind_of};
ghost use Rattle.merlin_model.specs.Predicates.{IsPred};
ghost use Rattle.rules_model.specs.Tables.{is_host_kind};
ghost use Rattle.predicate_split.specs.Cells.{cells_between};
ghost use Rattle.queue_and_tc.specs.HostTexts.{host_in, hosts_in, reach_between, others_than, reaches_between};

use merlin_model::OutOfMemory;
use merlin_model::network::HostAddress;
use merlin_model::policy::Pred;
use predicate_split::{Cell, cells};
use sqlite_items::Items;
use std::alloc::Global;
use topology::Topology;

/// A host by its location, with its addresses.
#[derive(Clone, Copy)]
pub struct Host {
    pub loc: usize,
    pub address: HostAddress,
}

/// Another host, and the cells of what is sent there.
#[derive(Drop)]
pub struct Reach {
    pub dest: HostAddress,
    pub cells: Items<Cell>,
}

// Adds the host at a location, if there is one.
fn add_host(
    alloc: Global,
    net: &Topology,
    loc: usize,
    hosts: &mut Vec<Host>,
) -> Result<(), OutOfMemory>
    requires { loc < length net.now.locations }
    ensures { OnOk result (hosts.new.items ≡ hosts.old.items ++
        map (host_in net.now) (filter (λ l. is_host_kind (kind_of net.now l)) (loc ∷ []))) }
{
    if let Some(address) = net.host(loc) {
        hosts.push(Host { loc, address })?;
    }
    Ok(())
}

/// All hosts, by their locations.
pub(crate) fn hosts_of(alloc: Global, net: &Topology) -> Result<Vec<Host>, OutOfMemory>
    ensures { IfOk result (λ hosts. hosts.items ≡ hosts_in net.now) }
{
    let mut hosts = Vec::new(alloc);
    for loc in 0..net.locations() {
        add_host(alloc, net, loc, &mut hosts)?;
    }
    Ok(hosts)
}

// The cells between two hosts.
fn pair_cells(
    alloc: Global,
    preds: &[Pred],
    src: HostAddress,
    dst: HostAddress,
) -> Result<Items<Cell>, OutOfMemory>
    requires { AllByRecursion IsPred preds.now }
    ensures { IfOk result (λ found. found ≡ cells_between preds.now src dst) }
{
    match cells(alloc, preds, src, dst) {
        Ok(found) => Ok(Items::from_slice(alloc, &found)?),
        Err(_) => Err(OutOfMemory),
    }
}

// Adds what is sent to a host, unless it is the same.
fn add_reach(
    alloc: Global,
    preds: &[Pred],
    host: Host,
    other: &Host,
    reaches: &mut Vec<Reach>,
) -> Result<(), OutOfMemory>
    requires { AllByRecursion IsPred preds.now }
    ensures { OnOk result (reaches.new.items ≡
        reaches.old.items ++ reaches_between preds.now host (other.now ∷ [])) }
{
    if other.loc != host.loc {
        let cells = pair_cells(alloc, preds, host.address, other.address)?;
        reaches.push(Reach {
            dest: other.address,
            cells,
        })?;
    }
    Ok(())
}

/// What a host may send to each of the others.
pub(crate) fn reaches_of(
    alloc: Global,
    preds: &[Pred],
    host: Host,
    hosts: &[Host],
) -> Result<Vec<Reach>, OutOfMemory>
    requires { AllByRecursion IsPred preds.now }
    ensures { IfOk result (λ reaches. reaches.items ≡
        reaches_between preds.now host hosts.now) }
{
    let mut reaches = Vec::new(alloc);
    for other in hosts {
        add_reach(alloc, preds, host, other, &mut reaches)?;
    }
    Ok(reaches)
}
