//! One step of the machine, up to what packet functions do.

ghost use Rattle.std.specs.Prelude.{◌≡◌, ◌≢◌, ◌<◌, None, Some, length};
ghost use Rattle.merlin_model.specs.declared.network.LocationKind.TheVariants.{Middlebox};
ghost use Rattle.merlin_model.specs.Networks.{kind_of};
ghost use Rattle.merlin_model.specs.Machine.{next, act, send_over, link_to, from_host as from_host_of, arrived_at, at_switch, at_middlebox as at_line_of, acting_rule};
ghost use Rattle.packet_trace.specs.Fitting.{frame_of};
ghost use Rattle.packet_trace.specs.Steps.{seen, plainly, stay, toward, IsMove};

use crate::fitting::fitting_rule;
use crate::frame::Frame;
use crate::hosts::{class_by, is_dropped, link_of};
use crate::processes::fitting_process;
use config_text::{Action, Config, HostLine, Out, Process};
use merlin_model::network::Place;
use packet_model::{Field, Packet};
use topology::Topology;

/// What is recorded of a location that a frame leaves: the place of the `process` line that acts, whose functions run, the queue
/// that it is sent through, and the class that its host puts it in.
#[derive(Clone, Copy)]
pub(crate) struct Left {
    pub process: Option<usize>,
    pub queue: Option<u16>,
    pub class: Option<u16>,
}

/// Where a frame goes next: over a link to its far end and the port there, under a tag; or it has come to its host; or it is dropped.
#[derive(Clone, Copy)]
pub(crate) enum Move {
    Leaves {
        to: usize,
        port: u16,
        tag: Option<u16>,
        left: Left,
    },
    Arrives {
        host: usize,
        packet: Packet,
    },
    Drops {
        loc: usize,
    },
}

// The frame goes on to the far end of a link, or is dropped where there is none.
fn toward(loc: usize, far: Option<(usize, u16)>, tag: Option<u16>, left: Left) -> Move
    ensures { result ≡ toward loc far tag left }
{
    match far {
        None => Move::Drops { loc },
        Some((to, port)) => Move::Leaves {
            to,
            port,
            tag,
            left,
        },
    }
}

// No line of a middlebox acts.
fn plainly(queue: Option<u16>, class: Option<u16>) -> Left
    ensures { result ≡ plainly queue class }
{
    Left {
        process: None,
        queue,
        class,
    }
}

// Sends the frame out of a port, where a named port is no way back.
fn send(net: &Topology, frame: &Frame, out: Out, tag: Option<u16>, queue: Option<u16>) -> Move
    requires { frame.now.loc < length net.now.locations }
    ensures { result ≡ seen None
        (send_over frame.now.loc (link_to net.now (frame_of frame.now) out) tag
        (stay frame.now.loc queue None)) }
{
    let far = match out {
        Out::InPort => net.neighbour(frame.loc, frame.port),
        Out::Port(port) if port == frame.port => None,
        Out::Port(port) => net.neighbour(frame.loc, port),
    };
    toward(frame.loc, far, tag, plainly(queue, None))
}

// Does what the actions say, in order, up to the first that sends.
fn act(net: &Topology, frame: &Frame, actions: &[Action]) -> Move
    requires { frame.now.loc < length net.now.locations }
    ensures { result ≡ seen None (act net.now (frame_of frame.now) frame.now.tag actions.now) }
{
    let mut tag = frame.tag;
    for action in actions {
        match *action {
            Action::SetVlan(to) => tag = Some(to),
            Action::StripVlan => tag = None,
            Action::Output(out) => return send(net, frame, out, tag, None),
            Action::Enqueue(out, queue) => return send(net, frame, out, tag, Some(queue)),
        }
    }
    Move::Drops { loc: frame.loc }
}

fn at_switch(net: &Topology, config: &Config, frame: &Frame) -> Move
    requires { frame.now.loc < length net.now.locations }
    ensures { result ≡ seen None (at_switch net.now (frame_of frame.now)
        (acting_rule config.now.rules (frame_of frame.now))) }
{
    let rules = config.rules.as_slice();
    match fitting_rule(rules, frame.loc, frame.port, frame.tag, &frame.packet) {
        None => Move::Drops { loc: frame.loc },
        Some(place) => act(net, frame, rules[place].actions.as_slice()),
    }
}

fn from_host(net: &Topology, lines: &[HostLine], frame: &Frame) -> Move
    ensures { result ≡ seen None (from_host_of net.now lines.now (frame_of frame.now)) }
{
    if is_dropped(lines, frame.loc, &frame.packet) {
        return Move::Drops { loc: frame.loc };
    }
    let class = class_by(lines, frame.loc, &frame.packet);
    let far = link_of(net, frame.loc);
    toward(frame.loc, far, None, plainly(None, class))
}

// A tagged frame is dropped at a host.
fn arrived_at(frame: &Frame) -> Move
    ensures { result ≡ seen None (arrived_at frame.now.loc frame.now.tag frame.now.packet) }
{
    match frame.tag {
        None => Move::Arrives {
            host: frame.loc,
            packet: frame.packet,
        },
        Some(_) => Move::Drops { loc: frame.loc },
    }
}

// The `process` line at this place acts.
fn at_line(net: &Topology, frame: &Frame, place: usize, line: &Process) -> Move
    requires { frame.now.loc < length net.now.locations }
    ensures { result ≡ seen (Some place) (at_line_of net.now (frame_of frame.now) (Some line.now)) }
{
    let left = Left {
        process: Some(place),
        queue: if line.queue == 0 {
            None
        } else {
            Some(line.queue)
        },
        class: None,
    };
    let far = net.neighbour(frame.loc, line.port);
    toward(frame.loc, far, Some(line.next_tag), left)
}

fn at_middlebox(net: &Topology, config: &Config, frame: &Frame) -> Move
    requires located { frame.now.loc < length net.now.locations }
    requires middlebox { kind_of net.now frame.now.loc ≡ Some Middlebox }
    ensures { IsMove net.now config.now (frame_of frame.now) result }
{
    let lines = config.processes.as_slice();
    let eth_dst = frame.packet.value(Field::EthDst);
    match fitting_process(lines, frame.loc, frame.tag, eth_dst) {
        None => Move::Drops { loc: frame.loc },
        Some(place) => at_line(net, frame, place, &lines[place]),
    }
}

// One step where no middlebox stands.
fn plain_move(net: &Topology, config: &Config, frame: &Frame) -> Move
    requires located { frame.now.loc < length net.now.locations }
    requires away { kind_of net.now frame.now.loc ≢ Some Middlebox }
    ensures { result ≡ seen None (next net.now config.now (frame_of frame.now)) }
{
    match net.place(frame.loc) {
        Place::Host if frame.port == 0 => from_host(net, config.hosts.as_slice(), frame),
        Place::Host => arrived_at(frame),
        Place::Switch => at_switch(net, config, frame),
        Place::Middlebox => unreachable!(),
    }
}

/// One step of the machine, up to what packet functions do.
pub(crate) fn next_move(net: &Topology, config: &Config, frame: &Frame) -> Move
    requires { frame.now.loc < length net.now.locations }
    ensures { IsMove net.now config.now (frame_of frame.now) result }
{
    match net.place(frame.loc) {
        Place::Middlebox => at_middlebox(net, config, frame),
        Place::Host | Place::Switch => plain_move(net, config, frame),
    }
}
