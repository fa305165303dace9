//! The links of hosts.
ghost use Rattle.std.specs.Prelude.{◌≡◌, ◌<◌, ◌==◌, ◌↔◌, ℕ, [], ◌∷◌, filter, length, IfErr, OnOk, IfSome, IfNone, IsTrue};
ghost use Rattle.merlin_model.specs.declared.network.DirectedLink.{DirectedLink};
ghost use Rattle.merlin_model.specs.Networks.{directed_links_of as directed_links_of_links};
ghost use Rattle.topology_shape.specs.Described.{described_by};
ghost use Rattle.topology_rules.specs.Rules.{IsLinked, IsLinkedIfHost, IsFirstUnlinked, HostsAreLinked, HasLinks, HasHosts};
ghost use Rattle.topology_rules.specs.Faults.{Breaks};

use crate::fault::NetFault;
use crate::names::name_at;
use merlin_model::network::{DirectedLink, Location, LocationKind};
use std::alloc::Global;
use topology_shape::Shape;

// The only directed link that leaves a location.
fn only_link(directed_links: &[DirectedLink], loc: usize) -> Option<DirectedLink>
    ensures some { IfSome result (λ directed.
        filter (λ w. w.from == loc) directed_links.now ≡ directed ∷ []) }
    ensures none { IfNone result ((directed : DirectedLink) →
        ¬ (filter (λ w. w.from == loc) directed_links.now ≡ directed ∷ [])) }
{
    let mut found = None;
    for directed in directed_links {
        if directed.from == loc {
            if found.is_some() {
                return None;
            }
            found = Some(*directed);
        }
    }
    found
}

fn is_linked(locations: &[Location], directed_links: &[DirectedLink], loc: usize) -> bool
    ensures { IsTrue result ↔ IsLinked locations.now directed_links.now loc }
{
    match only_link(directed_links, loc) {
        Some(directed) => match locations.get(directed.to) {
            Some(location) => matches!(location.kind, LocationKind::Switch),
            None => false,
        },
        None => false,
    }
}

fn keeps_host_link(locations: &[Location], directed_links: &[DirectedLink], loc: usize) -> bool
    requires { loc < length locations.now }
    ensures { IsTrue result ↔ IsLinkedIfHost locations.now directed_links.now loc }
{
    match locations[loc].kind {
        LocationKind::Host(_) => is_linked(locations, directed_links, loc),
        LocationKind::Switch | LocationKind::Middlebox => true,
    }
}

// The first host that has not exactly one link, to a switch.
fn unlinked_host(locations: &[Location], directed_links: &[DirectedLink]) -> Option<usize>
    ensures some { IfSome result (IsFirstUnlinked locations.now directed_links.now) }
    ensures none { IfNone result (HostsAreLinked locations.now directed_links.now) }
{
    for loc in 0..locations.len() {
        if !keeps_host_link(locations, directed_links, loc) {
            return Some(loc);
        }
    }
    None
}

/// Asks that each host have one link, to a switch.
pub(crate) fn ask_hosts(
    alloc: Global,
    shape: &Shape,
    directed_links: &[DirectedLink],
) -> Result<(), NetFault>
    requires earlier { HasLinks (described_by shape.now) }
    requires links { directed_links.now ≡ directed_links_of_links shape.now.links.items }
    ensures ok { OnOk result (HasHosts (described_by shape.now)) }
    ensures err { IfErr result (Breaks (described_by shape.now)) }
{
    let locations = shape.named.locations();
    match unlinked_host(locations, directed_links) {
        Some(loc) => Err(NetFault::HostLink {
            name: name_at(alloc, locations, loc)?,
        }),
        None => Ok(()),
    }
}
