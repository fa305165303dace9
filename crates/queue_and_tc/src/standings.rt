//! What each statement is at a host: dropped there, or classed with a rate and a ceiling.

ghost use Rattle.std.specs.Prelude.{◌≡◌, ◌<◌, ◌^◌, ◌+◌, ◌-◌, ◌==◌, nat_lt, [], ◌∷◌, length, find, slice_get, option_map, unwrap_or, is_some, if◌then◌else◌, IfOk, IfSome};
ghost use Rattle.merlin_model.specs.Networks.{from_a, from_b};
ghost use Rattle.std.specs.Option.{option_map_or};
ghost use Rattle.merlin_model.specs.Machine.{uplink_of};
ghost use Rattle.merlin_model.specs.Policies.{paths_of};
ghost use Rattle.configuration_model.specs.Hosts.{place_among as place_of, share_among as share_of, is_zero as zero, is_above as above};
ghost use Rattle.queue_and_tc.specs.Shares.{sources_in, numbered_standing, standings_of as all_standings};

use crate::rates::{max_at, min_at};
use localise::share;
use merlin_model::OutOfMemory;
use merlin_model::network::Link;
use policy_check::Checked;
use std::alloc::Global;
use topology::Topology;

/// What a statement is at a host: whether its packets are dropped there, and the number of its class, if it has one, with the class's rate and
/// ceiling in kbit/s.
#[derive(Clone, Copy)]
pub struct Standing {
    pub is_out: bool,
    pub class: Option<u16>,
    pub rate: u64,
    pub ceiling: u64,
}

// The place of a host in a list.
fn place_among(hosts: &[usize], host: usize) -> Option<usize>
    ensures place { result ≡ place_of hosts.now host }
    ensures within { IfSome result (λ place. place < length hosts.now) }
{
    for (place, other) in hosts.iter().enumerate() {
        if *other == host {
            return Some(place);
        }
    }
    None
}

// The share of a cap at a host among the live sources, if it is one.
fn share_among(cap: Option<u64>, hosts: &[usize], host: usize) -> Option<u64>
    ensures { result ≡ share_of cap hosts.now host }
{
    let cap = cap?;
    let place = place_among(hosts, host)?;
    Some(share(cap, hosts.len() as u64, place as u64))
}

// The live sources of a statement.
fn sources_at(sources: &[Vec<usize>], statement: usize) -> &[usize]
    ensures { result.now ≡ unwrap_or (slice_get (sources_in sources.now) statement) [] }
{
    match sources.get(statement) {
        Some(hosts) => hosts.as_slice(),
        None => &[],
    }
}

// What a link carries from a location, if it is one of its ends.
fn capacity_from(link: &Link, loc: usize) -> Option<u64>
    ensures { result ≡ option_map (λ w. w.capacity)
        (find (λ w. w.from == loc) (from_a link.now ∷ from_b link.now ∷ [])) }
{
    if link.a == loc {
        Some(link.capacity)
    } else if link.b == loc {
        Some(link.back)
    } else {
        None
    }
}

// What the link of a host carries from it, in kbit/s.
fn link_capacity(net: &Topology, host: usize) -> u64
    ensures { result ≡ option_map_or (λ w. w.capacity) (uplink_of net.now host) 0 }
{
    for link in net.links() {
        if let Some(capacity) = capacity_from(link, host) {
            return capacity;
        }
    }
    0
}

// What is left of a cap at a host is nothing, or something.

fn is_zero(share: Option<u64>) -> bool
    ensures { result ≡ zero share }
{
    match share {
        Some(share) => share == 0,
        None => false,
    }
}

fn is_above(share: Option<u64>) -> bool
    ensures { result ≡ above share }
{
    match share {
        Some(share) => share > 0,
        None => false,
    }
}

// The ceiling of a class: that of a guarantee, or else the share.
fn ceiling_of(net: &Topology, host: usize, min: u64, cap: Option<u64>, share: Option<u64>) -> u64
    ensures { result ≡ if nat_lt 0 min then
        unwrap_or cap (option_map_or (λ w. w.capacity) (uplink_of net.now host) 0)
        else unwrap_or share 0 }
{
    if min > 0 {
        match cap {
            Some(cap) => cap,
            None => link_capacity(net, host),
        }
    } else {
        share.unwrap_or(0)
    }
}

// What a statement is at a host, with this number for its class if it has one.
fn standing_at(
    net: &Topology,
    checked: &Checked,
    sources: &[Vec<usize>],
    host: usize,
    statement: usize,
    number: u16,
) -> Standing
    ensures { result ≡
        numbered_standing net.now checked.now.policy sources.now host statement number }
{
    let hosts = sources_at(sources, statement);
    let cap = max_at(checked, statement);
    let min = min_at(checked, statement);
    let share = share_among(cap, hosts, host);
    let is_source = place_among(hosts, host).is_some();
    let is_classed = is_source && (min > 0 || is_above(share));
    Standing {
        is_out: is_zero(share),
        class: if is_classed { Some(number) } else { None },
        rate: if min > 0 { min } else { share.unwrap_or(0) },
        ceiling: ceiling_of(net, host, min, cap, share),
    }
}

// The number of the next class.
fn next_number(standing: &Standing, number: u16) -> u16
    requires { number < 2 ^ 16 - 1 }
    ensures { result ≡ if is_some standing.now.class then number + 1 else number }
{
    match standing.class {
        Some(_) => number + 1,
        None => number,
    }
}

/// What each statement is at a host, the default last.
pub(crate) fn standings_of(
    alloc: Global,
    net: &Topology,
    checked: &Checked,
    sources: &[Vec<usize>],
    host: usize,
) -> Result<Vec<Standing>, OutOfMemory>
    requires few { length (paths_of checked.now.policy) < 2 ^ 16 - 1 }
    ensures { IfOk result (λ standings. standings.items ≡
        all_standings net.now checked.now.policy sources.now host) }
{
    let mut standings = Vec::new(alloc);
    let mut number = 1;
    for statement in 0..checked.statements() {
        let standing = standing_at(net, checked, sources, host, statement, number);
        number = next_number(&standing, number);
        standings.push(standing)?;
    }
    Ok(standings)
}
