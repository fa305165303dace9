//! What walks put on the links of a network.

use crate::lines::Lines;
use merlin_model::policy::{Ends, Symbol};
use sqlite_items::Items;
use topology::Topology;

// How often a walk goes from one location to another.
fn crossings(walk: &[Symbol], from: usize, to: usize) -> u64 {
    let mut count = 0_u64;
    let mut before = None;
    for symbol in walk {
        if before == Some(from) && symbol.loc == to {
            count = count.saturating_add(1);
        }
        before = Some(symbol.loc);
    }
    count
}

// What all walks put on the way from one location to another: each its statement's rate for each crossing.
fn load_of(rates: &[u64], ends: &[Ends], walks: &[Items<Symbol>], from: usize, to: usize) -> u64 {
    let mut load = 0_u64;
    for (named, walk) in ends.iter().zip(walks) {
        let rate = rates.get(named.statement).copied().unwrap_or(0);
        let crossed = crossings(walk.as_slice(), from, to);
        load = load.saturating_add(rate.saturating_mul(crossed));
    }
    load
}

// The line of a load that is not 0.
fn add_load(out: &mut Lines, net: &Topology, loc: usize, port: u16, load: u64, capacity: u64) {
    if load == 0 || net.locations() <= loc {
        return;
    }
    out.add("load ");
    out.add_bytes(net.name(loc).bytes());
    out.add_numbers(&[u64::from(port), load]);
    out.add("/");
    out.add_number(capacity);
    out.add("\n");
}

/// A line for each direction of a link that walks load: the location and port that it begins at, the load, and its capacity.
pub fn add_loads(
    out: &mut Lines,
    net: &Topology,
    rates: &[u64],
    ends: &[Ends],
    walks: &[Items<Symbol>],
) {
    for link in net.links() {
        let there = load_of(rates, ends, walks, link.a, link.b);
        add_load(out, net, link.a, link.aport, there, link.capacity);
        let back = load_of(rates, ends, walks, link.b, link.a);
        add_load(out, net, link.b, link.bport, back, link.back);
    }
}
