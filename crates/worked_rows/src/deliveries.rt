//! What becomes of a packet under what a policy compiles to.

ghost use Rattle.std.specs.Prelude.{IsTrue};
ghost use Rattle.merlin_model.specs.Networks.{IsHost};

use crate::lines::Lines;
use crate::packets::packet_from;
use crate::store::{Store, content};
use crate::texts::{parted, text_of};
use merlin_compile::{Compiled, Solved, compile};
use merlin_model::policy::Objective;
use packet_model::{Packet, print_packet};
use packet_trace::{End, Trace, Tracer, declared};
use std::alloc::Global;
use topology::{FnDecl, Topology};

// The nodes that a search may make.
const BUDGET: usize = 512;

fn is_host(net: &Topology, loc: usize) -> bool
    ensures { IsTrue result → IsHost net.now loc }
{
    loc < net.locations() && net.host(loc).is_some()
}

// The name of a location.
fn name_of(net: &Topology, loc: usize) -> &str {
    if loc < net.locations() {
        text_of(net.name(loc).bytes())
    } else {
        "nowhere"
    }
}

// A line of a word and a location.
fn add_place(out: &mut Lines, net: &Topology, word: &str, loc: usize) {
    out.add(word);
    out.add(name_of(net, loc));
    out.add("\n");
}

fn add_end(alloc: Global, out: &mut Lines, net: &Topology, end: End) {
    match end {
        End::Delivered { host, packet } => {
            out.add("delivered ");
            out.add(name_of(net, host));
            out.add(" ");
            out.add_name(print_packet(alloc, &packet));
            out.add("\n");
        }
        End::Dropped { loc } => add_place(out, net, "dropped ", loc),
        End::StillRunning => out.add("still running\n"),
    }
}

// Status 0, a line for each location that the packet leaves, and its end.
fn describe(alloc: Global, out: &mut Lines, net: &Topology, trace: &Trace) {
    out.add("0\n");
    for visit in trace.visits.as_slice() {
        add_place(out, net, "at ", visit.loc);
    }
    add_end(alloc, out, net, trace.end);
}

fn follow(alloc: Global, solved: &Solved, host: usize, packet: Packet, out: &mut Lines) {
    if !is_host(&solved.net, host) {
        out.answer(1, "no host");
        return;
    }
    let tracer = Tracer::new(
        &solved.net,
        &solved.config,
        |decl: &FnDecl, packet: Packet| declared(decl, packet),
    );
    match tracer.trace(alloc, host, packet) {
        Ok(trace) => describe(alloc, out, &solved.net, &trace),
        Err(_) => out.cut(),
    }
    let Tracer {
        net: _net,
        config: _config,
        apply: _apply,
    } = tracer;
}

fn follow_from(alloc: Global, solved: &Solved, words: &str, out: &mut Lines) {
    let (host, packet) = parted(words);
    match (solved.net.find(host.as_bytes()), packet_from(packet)) {
        (Some(loc), Some(packet)) => follow(alloc, solved, loc, packet, out),
        _ => out.answer(1, "no host and packet"),
    }
}

/// `delivery|POLICY|TOPOLOGY|HOST|PACKET`: what becomes of a packet that the host sends.
pub fn answer_to(alloc: Global, words: &str, store: &Store, out: &mut Lines) {
    let (policy, words) = parted(words);
    let (topology, words) = parted(words);
    let (policy, topology) = (content(store, policy), content(store, topology));
    match compile(alloc, policy, topology, Objective::Shortest, BUDGET) {
        Ok(Compiled::Least(solved)) => follow_from(alloc, &solved, words, out),
        _ => out.answer(1, "not compiled"),
    }
}
