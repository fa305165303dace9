//! What a topology is read as.
ghost use Rattle.std.specs.Prelude.{◌<◌, length};

use crate::lines::Lines;
use crate::packets;
use crate::store::{Store, content};
use crate::texts::parted;
use merlin_base::{Name, ip_text, mac_text};
use merlin_model::network::Place;
use merlin_model::policy::{Field, Symbol};
use std::alloc::Global;
use topology::{FnDecl, HostAddress, NetFault, Topology, read};

fn place_word(place: Place) -> &'static str {
    match place {
        Place::Host => "host",
        Place::Switch => "switch",
        Place::Middlebox => "middlebox",
    }
}

// The addresses of a host, each behind a blank.
fn add_address(alloc: Global, out: &mut Lines, address: HostAddress) {
    out.add(" ");
    out.add_name(mac_text(alloc, address.eth));
    out.add(" ");
    out.add_name(ip_text(alloc, address.ip));
}

// The line of a location: what stands there, its number and its name, and the addresses of a host. It is found by its name.
fn add_location(alloc: Global, out: &mut Lines, net: &Topology, loc: usize)
    requires { loc < length net.now.locations }
{
    let name = net.name(loc).bytes();
    out.add(place_word(net.place(loc)));
    out.add_numbers(&[loc as u64]);
    out.add(" ");
    out.add_bytes(name);
    if let Some(address) = net.host(loc) {
        add_address(alloc, out, address);
    }
    if net.find(name) != Some(loc) {
        out.add(" not found");
    }
    out.add("\n");
}

// The line of a port that has a link: its far end, and the port that leads there.
fn add_neighbour(out: &mut Lines, net: &Topology, loc: usize, port: u16, to: usize, in_port: u16)
    requires { loc < length net.now.locations }
{
    out.add("from");
    out.add_numbers(&[loc as u64, u64::from(port)]);
    out.add(" to");
    out.add_numbers(&[to as u64, u64::from(in_port)]);
    if to < net.locations() && net.port_to(loc, to) != Some(port) {
        out.add(" no port");
    }
    out.add("\n");
}

// A line for each port of a location that has a link.
fn add_neighbours(out: &mut Lines, net: &Topology, loc: usize)
    requires { loc < length net.now.locations }
{
    for port in 0..=u16::MAX {
        if let Some((to, in_port)) = net.neighbour(loc, port) {
            add_neighbour(out, net, loc, port, to, in_port);
        }
    }
}

// A line for each link: its two ends, its capacity there and back, and its weight.
fn add_links(out: &mut Lines, net: &Topology) {
    for link in net.links() {
        out.add("link");
        out.add_numbers(&[link.a as u64, u64::from(link.aport)]);
        out.add_numbers(&[link.b as u64, u64::from(link.bport)]);
        out.add_numbers(&[link.capacity, link.back, u64::from(link.weight)]);
        out.add("\n");
    }
}

fn field_word(field: Field) -> &'static str {
    match field {
        Field::EthSrc => "eth.src",
        Field::EthDst => "eth.dst",
        Field::IpSrc => "ip.src",
        Field::IpDst => "ip.dst",
        Field::Proto => "ip.proto",
        Field::Sport => "sport",
        Field::Dport => "dport",
    }
}

// The line of a packet function: its name, its places, and what it sets.
fn add_function(out: &mut Lines, function: &FnDecl) {
    out.add("function ");
    out.add_bytes(function.name.bytes());
    out.add(" at");
    for place in function.places.as_slice() {
        out.add_numbers(&[*place as u64]);
    }
    for setting in function.set.as_slice() {
        out.add(" ");
        out.add(field_word(setting.0));
        out.add("=");
        out.add_number(setting.1);
    }
    out.add("\n");
}

/// A symbol behind a blank: its location, and a function behind a colon.
pub fn add_symbol(out: &mut Lines, symbol: Symbol) {
    out.add_numbers(&[symbol.loc as u64]);
    if let Some(function) = symbol.fun {
        out.add(":");
        out.add_number(function as u64);
    }
}

// A line for each packet function, and one for all symbols where there are functions.
fn add_functions(out: &mut Lines, net: &Topology) {
    for function in net.functions() {
        add_function(out, function);
    }
    if net.functions().is_empty() {
        return;
    }
    out.add("symbols");
    for symbol in net.symbols() {
        add_symbol(out, *symbol);
    }
    out.add("\n");
}

// Status 0 and the lines of a network.
fn describe(alloc: Global, out: &mut Lines, net: &Topology) {
    out.add("0\n");
    for loc in 0..net.locations() {
        add_location(alloc, out, net, loc);
    }
    add_links(out, net);
    for loc in 0..net.locations() {
        add_neighbours(out, net, loc);
    }
    add_functions(out, net);
}

fn add_named(out: &mut Lines, what: &str, name: &Name) {
    out.add(what);
    out.add(" ");
    out.add_bytes(name.bytes());
}

// Status 1 and why a text is no topology.
fn refuse(out: &mut Lines, fault: &NetFault) {
    out.add("1\n");
    match fault {
        NetFault::Json => out.add("json"),
        NetFault::Shape { what } => add_named(out, "shape", what),
        NetFault::TooLarge { what, count } => {
            add_named(out, "too large", what);
            out.add_numbers(&[*count]);
        }
        NetFault::DuplicateName { name } => add_named(out, "duplicate name", name),
        NetFault::DuplicateAddress { name } => add_named(out, "duplicate address", name),
        NetFault::DuplicatePort { name, port } => {
            add_named(out, "duplicate port", name);
            out.add_numbers(&[u64::from(*port)]);
        }
        NetFault::ParallelLink { link } => {
            out.add("parallel link");
            out.add_numbers(&[*link as u64]);
        }
        NetFault::HostLink { name } => add_named(out, "host link", name),
        NetFault::Placement { name } => add_named(out, "placement", name),
        NetFault::OutOfMemory => out.cut(),
    }
    out.add("\n");
}

/// What is asked of a topology.
#[derive(Clone, Copy)]
pub enum Asked {
    /// `topology|FILE`: the network that it describes
    Whole,
    /// `proper|FILE|PACKET|HOST|HOST`: whether the packet is one from the first host to the second
    Proper,
}

fn answer(alloc: Global, net: &Topology, asked: Asked, words: &str, out: &mut Lines) {
    match asked {
        Asked::Whole => describe(alloc, out, net),
        Asked::Proper => packets::properness(net, words, out),
    }
}

/// What is asked of the network of a topology, or status 1 and why it describes none.
pub fn answer_to(alloc: Global, words: &str, store: &Store, asked: Asked, out: &mut Lines) {
    let (file, words) = parted(words);
    match read(alloc, content(store, file)) {
        Ok(net) => answer(alloc, &net, asked, words, out),
        Err(fault) => refuse(out, &fault),
    }
}
