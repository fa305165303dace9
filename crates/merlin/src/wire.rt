//! The command `wire`.
ghost use Rattle.std.specs.Prelude.{◌≡◌, ℕ, List, length, IfOk, IfSome, IfNone};
ghost use Rattle.topology_rules.specs.Faults.{IsTopology};
ghost use Rattle.merlin.specs.Words.{word_texts};
ghost use Rattle.merlin.specs.Reading.{files_wanted, texts_read};
ghost use Rattle.merlin.specs.Reports.{IsReportWith, IsWrittenAs};
ghost use Rattle.merlin.specs.Inputs.{AreNetworkAndResult};
ghost use Rattle.merlin.specs.Wire.{WireForm, IsWireForm, wire_form, wire_files};
ghost use Rattle.merlin.specs.Wire.{HaveMessages, Wires, IsWireReply};
ghost use Rattle.merlin.specs.Wire.{wire_lines as lines_of_reply, wire_status};

use crate::inputs::{switch_named, unknown_switch_lines, wrong_result_lines, wrong_topology_lines};
use crate::reading::{RESULT_LIMIT, TEXT_LIMIT, Wanted};
use crate::report::{Report, ReportBody};
use config_read::{ConfigFault, ResultText, read as read_result};
use merlin_base::{Name, OutOfMemory, Status, name_from};
use merlin_model::config::Rule;
use sqlite_items::Items;
use std::alloc::Global;
use topology::{NetFault, Topology, read as read_topology};

/// A command to write the messages of a switch.
#[derive(Clone, Copy)]
pub struct Wire<'a> {
    pub topology: &'a str,
    pub result: &'a str,
    pub switch: &'a str,
}

/// What is replied to it. `Written` has all rules of the result, of which those at the switch have messages.
#[derive(Drop)]
pub enum WireReply {
    BadTopology(NetFault),
    BadResult(usize),
    UnknownSwitch(Name),
    Written { switch: usize, rules: Items<Rule> },
}

/// The command to write messages that the words are, if they are one.
pub fn wire_of(words: &[String]) -> Option<Wire<'_>>
    ensures some { IfSome result (λ command.
        IsWireForm (word_texts words.now) (wire_form command)) }
    ensures none { IfNone result ((form : WireForm) →
        ¬ IsWireForm (word_texts words.now) form) }
{
    let [command, topology, result, switch] = words else {
        return None;
    };
    if command.as_str() != "wire" {
        return None;
    }
    Some(Wire {
        topology: topology.as_str(),
        result: result.as_str(),
        switch: switch.as_str(),
    })
}

/// Its files.
pub fn files_to_wire<'a>(command: Wire<'a>) -> [Wanted<'a>; 2]
    ensures { files_wanted result ≡ wire_files (wire_form command.entry) }
{
    [
        Wanted {
            name: command.topology,
            limit: TEXT_LIMIT,
        },
        Wanted {
            name: command.result,
            limit: RESULT_LIMIT,
        },
    ]
}

// All rules of a result.
fn rules_of(read: ResultText) -> Items<Rule>
    ensures { result ≡ read.config.rules }
{
    let config = read.config;
    config.rules
}

// What is replied where the result is read, whatever texts it and the network come from.
fn reply_over_result(
    alloc: Global,
    net: &Topology,
    read: ResultText,
    name: &str,
) -> Result<WireReply, OutOfMemory>
    ensures { (form : WireForm) (topology bytes : List ℕ) → form.switch ≡ name.now →
        AreNetworkAndResult topology bytes net.now read →
        IfOk result (Wires form topology bytes) }
{
    let Some(switch) = switch_named(net, name.as_bytes()) else {
        return Ok(WireReply::UnknownSwitch(name_from(alloc, name.as_bytes())?));
    };
    Ok(WireReply::Written {
        switch,
        rules: rules_of(read),
    })
}

// What is replied where the network is read, whatever text it comes from.
fn reply_over_network(
    alloc: Global,
    net: &Topology,
    bytes: &[u8],
    name: &str,
) -> Result<WireReply, OutOfMemory>
    ensures { (form : WireForm) (topology : List ℕ) → form.switch ≡ name.now →
        IsTopology topology net.now → IfOk result (Wires form topology bytes.now) }
{
    match read_result(alloc, bytes, net) {
        Ok(read) => reply_over_result(alloc, net, read, name),
        Err(ConfigFault::BadConfig { at }) => Ok(WireReply::BadResult(at)),
        Err(ConfigFault::OutOfMemory) => Err(OutOfMemory),
    }
}

// What is replied to a topology and a result.
fn wire_reply(
    alloc: Global,
    topology: &[u8],
    bytes: &[u8],
    command: Wire,
) -> Result<WireReply, OutOfMemory>
    ensures { IfOk result (Wires (wire_form command.entry) topology.now bytes.now) }
{
    match read_topology(alloc, topology) {
        Ok(net) => reply_over_network(alloc, &net, bytes, command.switch),
        Err(NetFault::OutOfMemory) => Err(OutOfMemory),
        Err(fault) => Ok(WireReply::BadTopology(fault)),
    }
}

fn body_of(alloc: Global, reply: WireReply) -> Result<ReportBody, OutOfMemory>
    requires { HaveMessages reply }
    ensures { IfOk result (λ body. IsWrittenAs body (lines_of_reply reply)) }
{
    match reply {
        WireReply::BadTopology(fault) => Ok(ReportBody::Lines(wrong_topology_lines(
            alloc, &fault,
        )?)),
        WireReply::BadResult(at) => Ok(ReportBody::Lines(wrong_result_lines(alloc, at)?)),
        WireReply::UnknownSwitch(name) => Ok(ReportBody::Lines(unknown_switch_lines(
            alloc, &name,
        )?)),
        WireReply::Written { switch, rules } => Ok(ReportBody::Messages { switch, rules }),
    }
}

fn status_of(reply: &WireReply) -> Status
    ensures { result ≡ wire_status reply.now }
{
    match reply {
        WireReply::BadTopology(_) | WireReply::BadResult(_) | WireReply::UnknownSwitch(_) => {
            Status::Refused
        }
        WireReply::Written { .. } => Status::Done,
    }
}

// What is reported of a reply.
fn report_on(alloc: Global, reply: WireReply) -> Result<Report, OutOfMemory>
    requires { HaveMessages reply }
    ensures lines { IfOk result (λ report. IsWrittenAs report.body (lines_of_reply reply)) }
    ensures status { IfOk result (λ report. report.status ≡ wire_status reply) }
{
    let status = status_of(&reply);
    let body = body_of(alloc, reply)?;
    Ok(Report { body, status })
}

/// What is reported of the contents of its files.
pub fn wire_report(
    alloc: Global,
    command: Wire,
    contents: &[Vec<u8>],
) -> Result<Report, OutOfMemory>
    requires { length contents.now ≡ 2 }
    ensures { let is_reply = IsWireReply (wire_form command.entry) (texts_read contents.now) in
        IfOk result (IsReportWith is_reply lines_of_reply wire_status) }
{
    match wire_reply(alloc, &contents[0], &contents[1], command) {
        Ok(reply) => report_on(alloc, reply),
        Err(OutOfMemory) => Err(OutOfMemory),
    }
}
