//! Packets followed through a configuration, with the functions that a caller hands in.

ghost use Rattle.std.specs.Prelude.{◌≡◌, ◌<◌, length, IfOk};
ghost use Rattle.merlin_model.specs.Networks.{IsHost};
ghost use Rattle.merlin_model.specs.Functions.{MayMake, MayMakeInTurn};
ghost use Rattle.merlin_model.specs.Machine.{start};
ghost use Rattle.packet_trace.specs.Behaviours.{behaviour_by};
ghost use Rattle.packet_trace.specs.Fitting.{frame};
ghost use Rattle.packet_trace.specs.Steps.{functions_by_line, IsStepBy, IsLonger};
ghost use Rattle.packet_trace.specs.Trace.{IsTrace};

use crate::frame::Frame;
use crate::moves::{Left, Move, next_move};
use crate::trace::{End, MAX_HOPS, Trace, Visit};
use config_text::{Config, Process};
use merlin_base::OutOfMemory;
use packet_model::Packet;
use sqlite_items::Items;
use std::alloc::Global;
use topology::{FnDecl, Topology};

/// A topology, a configuration over it, and what packet functions leave of a packet.
pub struct Tracer<'a, A> {
    pub net: &'a Topology,
    pub config: &'a Config,
    pub apply: A,
}

/// What becomes of a frame in one step: it hops to a location, it has come to its host, or it is lost.
#[derive(Clone, Copy)]
pub enum Next {
    Hop {
        loc: usize,
        port: u16,
        tag: Option<u16>,
        packet: Packet,
    },
    Arrived {
        host: usize,
        packet: Packet,
    },
    Lost {
        loc: usize,
    },
}

// The functions of the `process` line at a place, if one acts.
fn functions_by_line(lines: &[Process], process: Option<usize>) -> &[usize]
    ensures { result.now ≡ functions_by_line lines.now process }
{
    let Some(place) = process else {
        return &[];
    };
    match lines.get(place) {
        Some(line) => line.functions.as_slice(),
        None => &[],
    }
}

// What the function of this number leaves of a packet. A number that names none leaves it as it is.
fn after_function<A: Fn(&FnDecl, Packet) -> Packet>(
    net: &Topology,
    apply: &A,
    function: usize,
    packet: Packet,
) -> Packet
    requires { A.IsAlwaysCallable apply.now }
    ensures { let behaviour = behaviour_by (A.post apply.now) (λ d. d.now) in
        MayMake net.now behaviour function packet result }
{
    match net.functions().get(function) {
        Some(decl) => apply(decl, packet),
        None => packet,
    }
}

// What the functions of these numbers leave of a packet, one after the other.
fn after_functions<A: Fn(&FnDecl, Packet) -> Packet>(
    net: &Topology,
    apply: &A,
    functions: &[usize],
    packet: Packet,
) -> Packet
    requires { A.IsAlwaysCallable apply.now }
    ensures { let behaviour = behaviour_by (A.post apply.now) (λ d. d.now) in
        MayMakeInTurn net.now behaviour functions.now packet result }
{
    let mut changed = packet;
    for function in functions {
        changed = after_function(net, apply, *function, changed);
    }
    changed
}

// Records that a location is left, and the functions that run.
fn push_visit(
    alloc: Global,
    visits: &mut Items<Visit>,
    loc: usize,
    functions: &[usize],
    left: Left,
) -> Result<(), OutOfMemory>
    ensures { IfOk result (λ _. IsLonger visits.old loc functions.now left visits.new) }
{
    visits.push(Visit {
        loc,
        functions: Items::from_slice(alloc, functions)?,
        queue: left.queue,
        class: left.class,
    })?;
    Ok(())
}

impl<'a, A: Fn(&FnDecl, Packet) -> Packet> Tracer<'a, A> {
    /// A tracer over a configuration of a topology. `apply` says what a packet function leaves of a packet.
    pub fn new(net: &'a Topology, config: &'a Config, apply: A) -> Self
        ensures net { result.net.now ≡ net.now }
        ensures config { result.config.now ≡ config.now }
        ensures apply { result.apply ≡ apply }
    {
        Tracer { net, config, apply }
    }

    /// What becomes of a frame at a location in one step, where it came in by a port (0 at the host where it starts) with a tag or
    /// untagged. It takes no memory.
    pub fn step(&self, loc: usize, port: u16, tag: Option<u16>, packet: Packet) -> Next
        requires callable { A.IsAlwaysCallable self.now.apply }
        requires located { loc < length self.now.net.now.locations }
        ensures { let behaviour = behaviour_by (A.post self.now.apply) (λ d. d.now) in
            IsStepBy self.now.net.now self.now.config.now behaviour
            (frame loc port tag packet) result }
    {
        let frame = Frame {
            loc,
            port,
            tag,
            packet,
        };
        match next_move(self.net, self.config, &frame) {
            Move::Arrives { host, packet } => Next::Arrived { host, packet },
            Move::Drops { loc } => Next::Lost { loc },
            Move::Leaves {
                to,
                port,
                tag,
                left,
            } => {
                let functions = functions_by_line(self.config.processes.as_slice(), left.process);
                Next::Hop {
                    loc: to,
                    port,
                    tag,
                    packet: after_functions(self.net, &self.apply, functions, packet),
                }
            }
        }
    }

    /// Follows a packet that starts at a host, for at most 65,536 hops. `StillRunning` comes where each of the first 65,536 steps is a hop.
    pub fn trace(&self, alloc: Global, host: usize, packet: Packet) -> Result<Trace, OutOfMemory>
        requires callable { A.IsAlwaysCallable self.now.apply }
        requires host { IsHost self.now.net.now host }
        ensures { let behaviour = behaviour_by (A.post self.now.apply) (λ d. d.now) in
            IfOk result (IsTrace self.now.net.now self.now.config.now behaviour
            (start host packet)) }
    {
        // The network is lawful, so that each hop leads to a location.
        let _locations = self.net.locations();
        let mut visits = Items::new(alloc);
        let mut frame = Frame {
            loc: host,
            port: 0,
            tag: None,
            packet,
        };
        'hops: while visits.len() < MAX_HOPS {
            match next_move(self.net, self.config, &frame) {
                Move::Arrives { host, packet } => {
                    let end = End::Delivered { host, packet };
                    return Ok(Trace { visits, end });
                }
                Move::Drops { loc } => {
                    let end = End::Dropped { loc };
                    return Ok(Trace { visits, end });
                }
                Move::Leaves {
                    to,
                    port,
                    tag,
                    left,
                } => {
                    let functions = functions_by_line(
                        self.config.processes.as_slice(),
                        left.process,
                    );
                    push_visit(alloc, &mut visits, frame.loc, functions, left)?;
                    frame = Frame {
                        loc: to,
                        port,
                        tag,
                        packet: after_functions(self.net, &self.apply, functions, frame.packet),
                    };
                }
            }
        }
        Ok(Trace {
            visits: Items::new(alloc),
            end: End::StillRunning,
        })
    }
}
