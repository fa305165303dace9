//! The command `unwire`.
ghost use Rattle.std.specs.Prelude.{◌≡◌, ◌++◌, ◌∷◌, [], ℕ, List, length, OnOk, IfOk, IfErr, IfSome, IfNone};
ghost use Rattle.config_text.specs.Words.{line};
ghost use Rattle.merlin_model.specs.declared.config.Rule.{Rule as Stated};
ghost use Rattle.topology_rules.specs.Faults.{IsTopology};
ghost use Rattle.merlin.specs.Words.{word_texts};
ghost use Rattle.merlin.specs.Reading.{files_wanted, texts_read};
ghost use Rattle.merlin.specs.Reports.{IsReportWith, IsWrittenAs};
ghost use Rattle.merlin.specs.Unwire.{UnwireForm, IsUnwireForm, unwire_form, unwire_files};
ghost use Rattle.merlin.specs.Unwire.{IsLineOfRule, BeginsWithMessages, rules_alone, no_digits_text, bad_message_text};
ghost use Rattle.merlin.specs.Unwire.{Unwires, IsUnwireReply, HasConfigOver, unwire_lines as lines_of_reply, unwire_status};
ghost use Rattle.merlin.specs.Messages.{IsDigitsFault, IsLineBefore, IsFaultBefore, IsMessageFault, Unwired};

use crate::inputs::{switch_named, unknown_switch_lines, wrong_topology_lines};
use crate::reading::{RESULT_LIMIT, TEXT_LIMIT, Wanted};
use crate::report::{Report, ReportBody, one_line};
use config_text::Config;
use hex::FromHexError;
use merlin_base::{Name, OutOfMemory, Status, name_from, split_at_byte};
use merlin_model::config::Rule;
use openflow_wire::{WireFault, decode};
use sqlite_items::Items;
use std::alloc::Global;
use topology::{NetFault, Topology, read as read_topology};

/// A command to read messages for a switch.
#[derive(Clone, Copy)]
pub struct Unwire<'a> {
    pub topology: &'a str,
    pub switch: &'a str,
    pub messages: &'a str,
}

/// What is replied to it. `NoDigits` and `BadMessage` have the number of the line, from 1, and `BadMessage` the place of the field. `Written` has
/// the rules of all messages as a configuration over the network.
#[derive(Drop)]
pub enum UnwireReply {
    BadTopology(NetFault),
    UnknownSwitch(Name),
    NoDigits(usize),
    BadMessage(usize, usize),
    Written { net: Topology, config: Config },
}

/// The command to read messages that the words are, if they are one.
pub fn unwire_of(words: &[String]) -> Option<Unwire<'_>>
    ensures some { IfSome result (λ command.
        IsUnwireForm (word_texts words.now) (unwire_form command)) }
    ensures none { IfNone result ((form : UnwireForm) →
        ¬ IsUnwireForm (word_texts words.now) form) }
{
    let [command, topology, switch, messages] = words else {
        return None;
    };
    if command.as_str() != "unwire" {
        return None;
    }
    Some(Unwire {
        topology: topology.as_str(),
        switch: switch.as_str(),
        messages: messages.as_str(),
    })
}

/// Its files.
pub fn files_to_unwire<'a>(command: Unwire<'a>) -> [Wanted<'a>; 2]
    ensures { files_wanted result ≡ unwire_files (unwire_form command.entry) }
{
    [
        Wanted {
            name: command.topology,
            limit: TEXT_LIMIT,
        },
        Wanted {
            name: command.messages,
            limit: RESULT_LIMIT,
        },
    ]
}

/// Why a line has no rule. The place is a byte offset in the message.
#[derive(Clone, Copy)]
pub enum DigitsFault {
    NoDigits,
    BadMessage(usize),
    OutOfMemory,
}

// The rule of the message of these digits.
fn rule_of_digits(alloc: Global, digits: &[u8], switch: usize) -> Result<Rule, DigitsFault>
    ensures ok { IfOk result (IsLineOfRule switch digits.now) }
    ensures err { IfErr result (IsDigitsFault digits.now) }
{
    match hex::decode(alloc, digits) {
        Ok(message) => match decode(alloc, &message, switch) {
            Ok((rule, _)) => Ok(rule),
            Err(WireFault::BadMessage { at }) => Err(DigitsFault::BadMessage(at)),
            Err(WireFault::OutOfMemory) => Err(DigitsFault::OutOfMemory),
        },
        Err(FromHexError::OutOfMemory) => Err(DigitsFault::OutOfMemory),
        Err(_) => Err(DigitsFault::NoDigits),
    }
}

/// Why a text is not all lines of messages: what is wrong, and the number of the line, from 1.
#[derive(Clone, Copy)]
pub struct MessageFault {
    pub line: usize,
    pub fault: DigitsFault,
}

// Adds the rule of the message with whose line the text begins. It answers what stands behind the line.
fn read_message<'a>(
    alloc: Global,
    text: &'a [u8],
    switch: usize,
    rules: &mut Items<Rule>,
) -> Result<&'a [u8], DigitsFault>
    ensures ok { IfOk result (λ rest. (rule : Stated)
        × IsLineBefore switch text.now rule rest.now × (rules.new ≡ rules.old ++ rule ∷ [])) }
    ensures err { IfErr result (IsFaultBefore text.now) }
{
    let Some((digits, rest)) = split_at_byte(text, b'\n') else {
        return Err(DigitsFault::NoDigits);
    };
    match rule_of_digits(alloc, digits, switch) {
        Ok(rule) => match rules.push(rule) {
            Ok(()) => Ok(rest),
            Err(_) => Err(DigitsFault::OutOfMemory),
        },
        Err(fault) => Err(fault),
    }
}

// Adds the rules of the messages whose lines the text is.
fn read_messages(
    alloc: Global,
    text: &[u8],
    switch: usize,
    rules: &mut Items<Rule>,
) -> Result<(), MessageFault>
    requires { rules.old ≡ [] }
    ensures ok { OnOk result (BeginsWithMessages switch text.now rules.new []) }
    ensures err { IfErr result (IsMessageFault switch text.now) }
{
    let mut rest = text;
    'lines: while !rest.is_empty() {
        // There is no memory for as many rules as no number counts.
        let Some(line) = rules.len().checked_add(1) else {
            return Err(MessageFault {
                line: 0,
                fault: DigitsFault::OutOfMemory,
            });
        };
        match read_message(alloc, rest, switch, rules) {
            Ok(behind) => rest = behind,
            Err(fault) => return Err(MessageFault { line, fault }),
        }
    }
    Ok(())
}

// A configuration of rules alone.
fn config_of(alloc: Global, rules: Items<Rule>) -> Config
    ensures { result ≡ rules_alone rules }
{
    Config {
        rules,
        processes: Items::new(alloc),
        queues: Items::new(alloc),
        hosts: Items::new(alloc),
    }
}

// What is replied to messages for a switch.
fn reply_to_messages(
    alloc: Global,
    net: Topology,
    switch: usize,
    messages: &[u8],
) -> Result<UnwireReply, OutOfMemory>
    ensures { IfOk result (Unwired net switch messages.now) }
{
    let mut rules = Items::new(alloc);
    match read_messages(alloc, messages, switch, &mut rules) {
        Ok(()) => Ok(UnwireReply::Written {
            net,
            config: config_of(alloc, rules),
        }),
        Err(MessageFault { line, fault }) => match fault {
            DigitsFault::NoDigits => Ok(UnwireReply::NoDigits(line)),
            DigitsFault::BadMessage(at) => Ok(UnwireReply::BadMessage(line, at)),
            DigitsFault::OutOfMemory => Err(OutOfMemory),
        },
    }
}

// What is replied where the network is read, whatever text it comes from.
fn reply_over_network(
    alloc: Global,
    net: Topology,
    name: &str,
    messages: &[u8],
) -> Result<UnwireReply, OutOfMemory>
    ensures { (form : UnwireForm) (topology : List ℕ) → form.switch ≡ name.now →
        IsTopology topology net → IfOk result (Unwires form topology messages.now) }
{
    match switch_named(&net, name.as_bytes()) {
        Some(switch) => reply_to_messages(alloc, net, switch, messages),
        None => Ok(UnwireReply::UnknownSwitch(name_from(alloc, name.as_bytes())?)),
    }
}

// What is replied to a topology and messages.
fn unwire_reply(
    alloc: Global,
    topology: &[u8],
    messages: &[u8],
    command: Unwire,
) -> Result<UnwireReply, OutOfMemory>
    ensures { IfOk result (Unwires (unwire_form command.entry) topology.now messages.now) }
{
    match read_topology(alloc, topology) {
        Ok(net) => reply_over_network(alloc, net, command.switch, messages),
        Err(NetFault::OutOfMemory) => Err(OutOfMemory),
        Err(fault) => Ok(UnwireReply::BadTopology(fault)),
    }
}

// What is said of a line that is no hexadecimal digits.
fn no_digits_line(alloc: Global, number: usize) -> Result<Vec<Name>, OutOfMemory>
    ensures { IfOk result (λ lines. lines.items ≡ line (no_digits_text number) ∷ []) }
{
    let text = format!(in alloc; "refused: message {number} hex")?;
    one_line(alloc, &text)
}

// What is said of a line that is no message.
fn bad_message_line(alloc: Global, number: usize, at: usize) -> Result<Vec<Name>, OutOfMemory>
    ensures { IfOk result (λ lines. lines.items ≡ line (bad_message_text number at) ∷ []) }
{
    let text = format!(in alloc; "refused: message {number} at {at}")?;
    one_line(alloc, &text)
}

fn body_of(alloc: Global, reply: UnwireReply) -> Result<ReportBody, OutOfMemory>
    requires { HasConfigOver reply }
    ensures { IfOk result (λ body. IsWrittenAs body (lines_of_reply reply)) }
{
    let lines = match reply {
        UnwireReply::BadTopology(fault) => wrong_topology_lines(alloc, &fault)?,
        UnwireReply::UnknownSwitch(name) => unknown_switch_lines(alloc, &name)?,
        UnwireReply::NoDigits(number) => no_digits_line(alloc, number)?,
        UnwireReply::BadMessage(number, at) => bad_message_line(alloc, number, at)?,
        UnwireReply::Written { net, config } => {
            return Ok(ReportBody::Configuration { net, config });
        }
    };
    Ok(ReportBody::Lines(lines))
}

fn status_of(reply: &UnwireReply) -> Status
    ensures { result ≡ unwire_status reply.now }
{
    match reply {
        UnwireReply::BadTopology(_)
        | UnwireReply::UnknownSwitch(_)
        | UnwireReply::NoDigits(_)
        | UnwireReply::BadMessage(..) => Status::Refused,
        UnwireReply::Written { .. } => Status::Done,
    }
}

// What is reported of a reply.
fn report_on(alloc: Global, reply: UnwireReply) -> Result<Report, OutOfMemory>
    requires { HasConfigOver reply }
    ensures lines { IfOk result (λ report. IsWrittenAs report.body (lines_of_reply reply)) }
    ensures status { IfOk result (λ report. report.status ≡ unwire_status reply) }
{
    let status = status_of(&reply);
    let body = body_of(alloc, reply)?;
    Ok(Report { body, status })
}

/// What is reported of the contents of its files.
pub fn unwire_report(
    alloc: Global,
    command: Unwire,
    contents: &[Vec<u8>],
) -> Result<Report, OutOfMemory>
    requires { length contents.now ≡ 2 }
    ensures { let is_reply = IsUnwireReply (unwire_form command.entry) (texts_read contents.now) in
        IfOk result (IsReportWith is_reply lines_of_reply unwire_status) }
{
    match unwire_reply(alloc, &contents[0], &contents[1], command) {
        Ok(reply) => report_on(alloc, reply),
        Err(OutOfMemory) => Err(OutOfMemory),
    }
}
