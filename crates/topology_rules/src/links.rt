//! Directed links, and links that share a port or both ends.
ghost use Rattle.std.specs.Prelude.{◌≡◌, map, IfOk, IfErr, IfSome, IfNone, OnOk};
ghost use Rattle.merlin_model.specs.Networks.{directed_links_of as directed_links_of_links};
ghost use Rattle.topology_shape.specs.Described.{described_by};
ghost use Rattle.topology_shape.specs.Forms.{AreWellFormed};
ghost use Rattle.topology_rules.specs.Clashes.{IsFirstClash, HasNoClash};
ghost use Rattle.topology_rules.specs.Keys.{port_key, ends_key};
ghost use Rattle.topology_rules.specs.Rules.{SharePort, AreParallel, HasAddresses, HasPorts, HasLinks};
ghost use Rattle.topology_rules.specs.Faults.{Breaks};

use crate::fault::NetFault;
use crate::names::name_at;
use crate::repeats::first_repeated;
use merlin_model::network::{DirectedLink, Link};
use std::alloc::{AllocError, Global};
use topology_shape::Shape;

/// Both directions of each link, the one from `a` to `b` first.
pub fn directed_links_of(alloc: Global, links: &[Link]) -> Result<Vec<DirectedLink>, AllocError>
    ensures { IfOk result (λ directed_links.
        directed_links.items ≡ directed_links_of_links links.now) }
{
    let mut directed_links = Vec::new(alloc);
    for link in links {
        directed_links.push(DirectedLink {
            from: link.a,
            out_port: link.aport,
            to: link.b,
            in_port: link.bport,
            capacity: link.capacity,
            back: link.back,
            weight: link.weight,
        })?;
        directed_links.push(DirectedLink {
            from: link.b,
            out_port: link.bport,
            to: link.a,
            in_port: link.aport,
            capacity: link.back,
            back: link.capacity,
            weight: link.weight,
        })?;
    }
    Ok(directed_links)
}

fn port_keys(
    alloc: Global,
    directed_links: &[DirectedLink],
) -> Result<Vec<(usize, u16)>, AllocError>
    ensures { IfOk result (λ keys. keys.items ≡ map port_key directed_links.now) }
{
    directed_links
        .iter()
        .map(|directed| (directed.from, directed.out_port))
        .collect(alloc)
}

// The place of the first end that shares its port with an earlier one.
fn shared_port(alloc: Global, directed_links: &[DirectedLink]) -> Result<Option<usize>, AllocError>
    ensures some { IfOk result (λ o. IfSome o (IsFirstClash SharePort directed_links.now)) }
    ensures none { IfOk result (λ o. IfNone o (HasNoClash SharePort directed_links.now)) }
{
    let keys = port_keys(alloc, directed_links)?;
    first_repeated(alloc, &keys)
}

/// Asks that each port of a location be that of one link.
pub(crate) fn ask_ports(
    alloc: Global,
    shape: &Shape,
    directed_links: &[DirectedLink],
) -> Result<(), NetFault>
    requires earlier { HasAddresses (described_by shape.now) }
    requires links { directed_links.now ≡ directed_links_of_links shape.now.links.items }
    requires forms { AreWellFormed (described_by shape.now) }
    ensures ok { OnOk result (HasPorts (described_by shape.now)) }
    ensures err { IfErr result (Breaks (described_by shape.now)) }
{
    match shared_port(alloc, directed_links)? {
        Some(place) => {
            let directed = directed_links[place];
            let name = name_at(alloc, shape.named.locations(), directed.from)?;
            Err(NetFault::DuplicatePort {
                name,
                port: directed.out_port,
            })
        }
        None => Ok(()),
    }
}

// The two ends of a link, the lesser first.
fn ends_of(link: &Link) -> (usize, usize)
    ensures { result ≡ ends_key link.now }
{
    if link.a < link.b {
        (link.a, link.b)
    } else {
        (link.b, link.a)
    }
}

fn ends_keys(alloc: Global, links: &[Link]) -> Result<Vec<(usize, usize)>, AllocError>
    ensures { IfOk result (λ keys. keys.items ≡ map ends_key links.now) }
{
    links.iter().map(ends_of).collect(alloc)
}

// The place of the first link that is parallel to an earlier one.
fn parallel_link(alloc: Global, links: &[Link]) -> Result<Option<usize>, AllocError>
    ensures some { IfOk result (λ o. IfSome o (IsFirstClash AreParallel links.now)) }
    ensures none { IfOk result (λ o. IfNone o (HasNoClash AreParallel links.now)) }
{
    let keys = ends_keys(alloc, links)?;
    first_repeated(alloc, &keys)
}

/// Asks that two locations have at most one link.
pub(crate) fn ask_links(alloc: Global, shape: &Shape) -> Result<(), NetFault>
    requires { HasPorts (described_by shape.now) }
    ensures ok { OnOk result (HasLinks (described_by shape.now)) }
    ensures err { IfErr result (Breaks (described_by shape.now)) }
{
    match parallel_link(alloc, &shape.links)? {
        Some(link) => Err(NetFault::ParallelLink { link }),
        None => Ok(()),
    }
}
