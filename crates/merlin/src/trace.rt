//! The command `trace`.
ghost use Rattle.std.specs.Prelude.{◌≡◌, ◌++◌, ◌∷◌, [], ℕ, List, length, map, IfOk, IfSome, IfNone};
ghost use Rattle.merlin_model.specs.Networks.{IsHost};
ghost use Rattle.merlin_model.specs.Machine.{start};
ghost use Rattle.packet_trace.specs.Behaviours.{behaviour_by};
ghost use Rattle.packet_trace.specs.Trace.{IsTrace, record_of};
ghost use Rattle.topology_rules.specs.Faults.{IsTopology};
ghost use Rattle.merlin.specs.Words.{word_texts};
ghost use Rattle.merlin.specs.Reading.{files_wanted, texts_read};
ghost use Rattle.merlin.specs.Reports.{IsReportWith, IsWrittenAs};
ghost use Rattle.merlin.specs.Inputs.{AreNetworkAndResult};
ghost use Rattle.merlin.specs.Trace.{TraceForm, IsTraceForm, trace_form, trace_files, IsHostNamed};
ghost use Rattle.merlin.specs.Trace.{visit_line, Traces, IsTraceReply};
ghost use Rattle.merlin.specs.Tracing.{IsWordedStart, IsEndedWith, TellsTrace, TellsRun};
ghost use Rattle.merlin.specs.declared.trace.TraceReply.TheVariants.{UnknownHost};
ghost use Rattle.merlin.specs.Trace.{trace_lines as lines_of_reply, trace_status};

use crate::inputs::{wrong_result_lines, wrong_topology_lines};
use crate::reading::{RESULT_LIMIT, TEXT_LIMIT, Wanted};
use crate::report::{Report, ReportBody, named_line, numbered_line, one_line};
use crate::trace_lines::{delivered_line, dropped_line, push_visits};
use config_read::{ConfigFault, ResultText, read as read_result};
use config_text::Config;
use merlin_base::{Name, OutOfMemory, Status, name_from};
use packet_model::{Packet, PacketFault, parse_packet};
use packet_trace::{End, Trace, Tracer};
use std::alloc::Global;
use topology::{FnDecl, NetFault, Topology, read as read_topology};

/// A command to follow a packet through the configuration of a result.
#[derive(Clone, Copy)]
pub struct Tracing<'a> {
    pub topology: &'a str,
    pub result: &'a str,
    pub host: &'a str,
    pub packet: &'a str,
}

/// What is replied to it. `Ended` has the lines of the run.
#[derive(Drop)]
pub enum TraceReply {
    BadTopology(NetFault),
    BadResult(usize),
    UnknownHost(Name),
    BadPacket(usize),
    Ended(Vec<Name>),
    StillRunning,
}

/// The command to follow a packet that the words are, if they are one.
pub fn trace_of(words: &[String]) -> Option<Tracing<'_>>
    ensures some { IfSome result (λ command.
        IsTraceForm (word_texts words.now) (trace_form command)) }
    ensures none { IfNone result ((form : TraceForm) →
        ¬ IsTraceForm (word_texts words.now) form) }
{
    let [command, topology, result, host, packet] = words else {
        return None;
    };
    if command.as_str() != "trace" {
        return None;
    }
    Some(Tracing {
        topology: topology.as_str(),
        result: result.as_str(),
        host: host.as_str(),
        packet: packet.as_str(),
    })
}

/// Its files.
pub fn files_to_trace<'a>(command: Tracing<'a>) -> [Wanted<'a>; 2]
    ensures { files_wanted result ≡ trace_files (trace_form command.entry) }
{
    [
        Wanted {
            name: command.topology,
            limit: TEXT_LIMIT,
        },
        Wanted {
            name: command.result,
            limit: RESULT_LIMIT,
        },
    ]
}

// The host that bears the name.
fn host_named(net: &Topology, name: &[u8]) -> Option<usize>
    ensures some { IfSome result (IsHostNamed net.now name.now) }
    ensures none { IfNone result ((host : ℕ) → ¬ IsHostNamed net.now name.now host) }
{
    // No two locations bear one name.
    let _locations = net.locations();
    let loc = net.find(name)?;
    match net.host(loc) {
        Some(_) => Some(loc),
        None => None,
    }
}

/// Where the packet starts, or why it does not.
#[derive(Clone, Copy)]
pub enum Start {
    At(usize, Packet),
    UnknownHost,
    BadPacket(usize),
}

// Where the packet starts by the last two words.
fn start_by(net: &Topology, host: &[u8], packet: &[u8]) -> Start
    ensures { IsWordedStart net.now host.now packet.now result }
{
    let Some(loc) = host_named(net, host) else {
        return Start::UnknownHost;
    };
    match parse_packet(packet) {
        Ok(packet) => Start::At(loc, packet),
        Err(PacketFault::BadPacket { at }) => Start::BadPacket(at),
    }
}

// The lines of the locations that a trace leaves, and the line of its end.
fn reply_with(
    alloc: Global,
    net: &Topology,
    trace: &Trace,
    end: Name,
) -> Result<TraceReply, OutOfMemory>
    ensures { IfOk result (IsEndedWith
        (map (visit_line net.now) (map record_of trace.now.visits) ++ end ∷ [])) }
{
    let mut lines = Vec::new(alloc);
    push_visits(alloc, &mut lines, net, trace.visits.as_slice())?;
    lines.push(end)?;
    Ok(TraceReply::Ended(lines))
}

// What is replied where a trace is this one.
fn reply_to_trace(alloc: Global, net: &Topology, trace: &Trace) -> Result<TraceReply, OutOfMemory>
    ensures { IfOk result (TellsTrace net.now trace.now) }
{
    match trace.end {
        End::Delivered { host, packet } => {
            let end = delivered_line(alloc, net, host, &packet)?;
            reply_with(alloc, net, trace, end)
        }
        End::Dropped { loc } => {
            let end = dropped_line(alloc, net, loc)?;
            reply_with(alloc, net, trace, end)
        }
        End::StillRunning => Ok(TraceReply::StillRunning),
    }
}

// Follows a packet from a host through a configuration.
fn follow<A: Fn(&FnDecl, Packet) -> Packet + Drop>(
    alloc: Global,
    net: &Topology,
    config: &Config,
    host: usize,
    packet: Packet,
    apply: A,
) -> Result<Trace, OutOfMemory>
    requires callable { A.IsAlwaysCallable apply }
    requires host { IsHost net.now host }
    ensures { let behaviour = behaviour_by (A.post apply) (λ d. d.now) in
        IfOk result (IsTrace net.now config.now behaviour (start host packet)) }
{
    let tracer = Tracer::new(net, config, apply);
    let trace = tracer.trace(alloc, host, packet);
    let Tracer {
        net: _net,
        config: _config,
        apply: _apply,
    } = tracer;
    trace
}

// What is replied to a packet that starts at a host.
fn reply_from<A: Fn(&FnDecl, Packet) -> Packet + Drop>(
    alloc: Global,
    net: &Topology,
    config: &Config,
    host: usize,
    packet: Packet,
    apply: A,
) -> Result<TraceReply, OutOfMemory>
    requires callable { A.IsAlwaysCallable apply }
    requires host { IsHost net.now host }
    ensures { let behaviour = behaviour_by (A.post apply) (λ d. d.now) in
        IfOk result (TellsRun net.now config.now behaviour (start host packet)) }
{
    match follow(alloc, net, config, host, packet, apply) {
        Ok(trace) => reply_to_trace(alloc, net, &trace),
        Err(OutOfMemory) => Err(OutOfMemory),
    }
}

// What is replied to words that let no packet start.
fn unknown_host(alloc: Global, name: &str) -> Result<TraceReply, OutOfMemory>
    ensures { IfOk result (λ reply. reply ≡ UnknownHost name.now) }
{
    Ok(TraceReply::UnknownHost(name_from(alloc, name.as_bytes())?))
}

// What is replied where the result is read, whatever texts it and the network come from.
fn reply_over_result<A: Fn(&FnDecl, Packet) -> Packet + Drop>(
    alloc: Global,
    net: &Topology,
    read: &ResultText,
    command: Tracing,
    apply: A,
) -> Result<TraceReply, OutOfMemory>
    requires callable { A.IsAlwaysCallable apply }
    ensures { let behaviour = behaviour_by (A.post apply) (λ d. d.now) in
        let form = trace_form command.entry in
        (topology bytes : List ℕ) → AreNetworkAndResult topology bytes net.now read.now →
        IfOk result (Traces behaviour form topology bytes) }
{
    match start_by(net, command.host.as_bytes(), command.packet.as_bytes()) {
        Start::At(host, packet) => reply_from(alloc, net, &read.config, host, packet, apply),
        Start::UnknownHost => unknown_host(alloc, command.host),
        Start::BadPacket(at) => Ok(TraceReply::BadPacket(at)),
    }
}

// What is replied where the network is read, whatever text it comes from.
fn reply_over_network<A: Fn(&FnDecl, Packet) -> Packet + Drop>(
    alloc: Global,
    net: &Topology,
    bytes: &[u8],
    command: Tracing,
    apply: A,
) -> Result<TraceReply, OutOfMemory>
    requires callable { A.IsAlwaysCallable apply }
    ensures { let behaviour = behaviour_by (A.post apply) (λ d. d.now) in
        let form = trace_form command.entry in
        (topology : List ℕ) → IsTopology topology net.now →
        IfOk result (Traces behaviour form topology bytes.now) }
{
    match read_result(alloc, bytes, net) {
        Ok(read) => reply_over_result(alloc, net, &read, command, apply),
        Err(ConfigFault::BadConfig { at }) => Ok(TraceReply::BadResult(at)),
        Err(ConfigFault::OutOfMemory) => Err(OutOfMemory),
    }
}

// What is replied to a topology and a result.
fn trace_reply<A: Fn(&FnDecl, Packet) -> Packet + Drop>(
    alloc: Global,
    topology: &[u8],
    bytes: &[u8],
    command: Tracing,
    apply: A,
) -> Result<TraceReply, OutOfMemory>
    requires callable { A.IsAlwaysCallable apply }
    ensures { let behaviour = behaviour_by (A.post apply) (λ d. d.now) in
        IfOk result (Traces behaviour (trace_form command.entry) topology.now bytes.now) }
{
    match read_topology(alloc, topology) {
        Ok(net) => reply_over_network(alloc, &net, bytes, command, apply),
        Err(NetFault::OutOfMemory) => Err(OutOfMemory),
        Err(fault) => Ok(TraceReply::BadTopology(fault)),
    }
}

// The lines of a reply that is no run.
fn lines_of(alloc: Global, reply: TraceReply) -> Result<Vec<Name>, OutOfMemory>
    ensures { IfOk result (λ lines. lines.items ≡ lines_of_reply reply) }
{
    match reply {
        TraceReply::BadTopology(fault) => wrong_topology_lines(alloc, &fault),
        TraceReply::BadResult(at) => wrong_result_lines(alloc, at),
        TraceReply::UnknownHost(name) => named_line(alloc, "refused: unknown host ", &name),
        TraceReply::BadPacket(at) => numbered_line(alloc, "refused: packet at ", at),
        TraceReply::Ended(lines) => Ok(lines),
        TraceReply::StillRunning => one_line(alloc, "still running"),
    }
}

fn status_of(reply: &TraceReply) -> Status
    ensures { result ≡ trace_status reply.now }
{
    match reply {
        TraceReply::BadTopology(_)
        | TraceReply::BadResult(_)
        | TraceReply::UnknownHost(_)
        | TraceReply::BadPacket(_) => Status::Refused,
        TraceReply::Ended(_) => Status::Done,
        TraceReply::StillRunning => Status::StillRunning,
    }
}

// What is reported of a reply.
fn report_on(alloc: Global, reply: TraceReply) -> Result<Report, OutOfMemory>
    ensures lines { IfOk result (λ report. IsWrittenAs report.body (lines_of_reply reply)) }
    ensures status { IfOk result (λ report. report.status ≡ trace_status reply) }
{
    let status = status_of(&reply);
    let lines = lines_of(alloc, reply)?;
    Ok(Report {
        body: ReportBody::Lines(lines),
        status,
    })
}

/// What is reported of the contents of its files. Packet functions do what `apply` does.
pub fn trace_report<A: Fn(&FnDecl, Packet) -> Packet + Drop>(
    alloc: Global,
    command: Tracing,
    contents: &[Vec<u8>],
    apply: A,
) -> Result<Report, OutOfMemory>
    requires callable { A.IsAlwaysCallable apply }
    requires read { length contents.now ≡ 2 }
    ensures { let behaviour = behaviour_by (A.post apply) (λ d. d.now) in
        let form = trace_form command.entry in
        let is_reply = IsTraceReply behaviour form (texts_read contents.now) in
        IfOk result (IsReportWith is_reply lines_of_reply trace_status) }
{
    match trace_reply(alloc, &contents[0], &contents[1], command, apply) {
        Ok(reply) => report_on(alloc, reply),
        Err(OutOfMemory) => Err(OutOfMemory),
    }
}
