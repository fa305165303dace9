//! The command `refine`.
ghost use Rattle.std.specs.Prelude.{◌≡◌, ◌++◌, ◌∷◌, [], List, ℕ, length, IfOk, IfSome, IfNone};
ghost use Rattle.config_text.specs.Words.{line};
ghost use Rattle.policy_expansion.specs.declared.policy.Policy.{Policy as NamedPolicy};
ghost use Rattle.policy_parser.specs.Policies.{IsParsed, IsPolicyText};
ghost use Rattle.policy_check.specs.Checked.{HasAutomata, IsCheckOf};
ghost use Rattle.topology.specs.Symbols.{network_symbols};
ghost use Rattle.merlin.specs.Words.{word_texts};
ghost use Rattle.merlin.specs.Reading.{files_wanted, texts_read};
ghost use Rattle.refusal_text.specs.Refusals.{policy_fault_text as text_of_policy_fault, check_fault_text as text_of_check_fault};
ghost use Rattle.merlin.specs.Refine.{RefineForm, IsRefineForm, refine_form, refine_files};
ghost use Rattle.merlin.specs.Refine.{ArePolicyTexts, AreComparable, Negotiates};
ghost use Rattle.refusal_text.specs.Wider.{NamesSymbols};
ghost use Rattle.merlin.specs.Refine.{IsFaultReply};
ghost use Rattle.merlin.specs.Refine.{IsRefineReply, refine_lines, refine_status};
ghost use Rattle.merlin.specs.Reports.{IsReportWith, IsWrittenAs};

use crate::reading::{TEXT_LIMIT, Wanted};
use crate::report::{Report, ReportBody, named_line, one_line};
use merlin_base::{Name, OutOfMemory, Status};
use negotiator::RefineFault;
use policy_check::{CheckFault, Checked, check};
use policy_parser::{Policy, PolicyFault, parse};
use refusal_text::{check_fault_text, net_fault_text, policy_fault_text, wider_text};
use std::alloc::Global;
use topology::{NetFault, Topology, read};

/// A command to compare the policy of a child with that of its parent.
#[derive(Clone, Copy)]
pub struct Refine<'a> {
    pub parent: &'a str,
    pub child: &'a str,
    pub topology: &'a str,
}

/// What is replied to it. `Wider` has what the first rule that fails is called.
#[derive(Drop)]
pub enum RefineReply {
    UnreadParent(PolicyFault),
    UnreadChild(PolicyFault),
    UnreadTopology(NetFault),
    WrongParent(CheckFault),
    WrongChild(CheckFault),
    TooManyCells,
    Wider(Name),
    Refines,
}

/// The command to compare that the words are, if they are one.
pub fn refine_of(words: &[String]) -> Option<Refine<'_>>
    ensures some { IfSome result (λ command.
        IsRefineForm (word_texts words.now) (refine_form command)) }
    ensures none { IfNone result ((form : RefineForm) →
        ¬ IsRefineForm (word_texts words.now) form) }
{
    let [command, parent, child, topology] = words else {
        return None;
    };
    if command.as_str() != "refine" {
        return None;
    }
    Some(Refine {
        parent: parent.as_str(),
        child: child.as_str(),
        topology: topology.as_str(),
    })
}

// A file of the command.
fn wanted(name: &str) -> Wanted<'_>
    ensures { (result.name.now ≡ name.now) × (result.limit ≡ TEXT_LIMIT) }
{
    Wanted {
        name,
        limit: TEXT_LIMIT,
    }
}

/// Its files.
pub fn files_to_refine<'a>(command: Refine<'a>) -> [Wanted<'a>; 3]
    ensures { files_wanted result ≡ refine_files (refine_form command.entry) }
{
    [
        wanted(command.parent),
        wanted(command.child),
        wanted(command.topology),
    ]
}

// What is replied to a fault over the network.
fn fault_reply(
    alloc: Global,
    net: &Topology,
    fault: &RefineFault,
) -> Result<RefineReply, OutOfMemory>
    requires { NamesSymbols net.now fault.now }
    ensures { IfOk result (IsFaultReply net.now fault.now) }
{
    match fault {
        RefineFault::TooManyCells { .. } => Ok(RefineReply::TooManyCells),
        _ => Ok(RefineReply::Wider(wider_text(alloc, net, fault)?)),
    }
}

// What is replied to policies that were checked over a network, whatever texts they come from.
fn verdict_on(
    alloc: Global,
    parent: &Checked,
    child: &Checked,
    net: &Topology,
) -> Result<RefineReply, OutOfMemory>
    requires parent { HasAutomata (network_symbols net.now) parent.now }
    requires child { HasAutomata (network_symbols net.now) child.now }
    ensures { (first second third : List ℕ) →
        AreComparable first second third net.now parent.now.policy child.now.policy →
        IfOk result (Negotiates first second third) }
{
    match negotiator::refine(alloc, parent, child, net) {
        Ok(()) => Ok(RefineReply::Refines),
        Err(fault) => fault_reply(alloc, net, &fault),
    }
}

// What is replied where the parent was checked, whatever texts all come from.
fn child_reply(
    alloc: Global,
    parent: &Checked,
    child: &Policy,
    net: &Topology,
) -> Result<RefineReply, OutOfMemory>
    requires parent { HasAutomata (network_symbols net.now) parent.now }
    requires child { IsParsed child.now }
    ensures { (first second third : List ℕ) (raw : NamedPolicy) →
        ArePolicyTexts first second third raw child.now net.now →
        IsCheckOf net.now (network_symbols net.now) raw parent.now →
        IfOk result (Negotiates first second third) }
{
    match check(alloc, child, net) {
        Ok(child) => verdict_on(alloc, parent, &child, net),
        Err(CheckFault::OutOfMemory) => Err(OutOfMemory),
        Err(fault) => Ok(RefineReply::WrongChild(fault)),
    }
}

// What is replied to policies over a network, whatever texts they come from.
fn parent_reply(
    alloc: Global,
    parent: &Policy,
    child: &Policy,
    net: &Topology,
) -> Result<RefineReply, OutOfMemory>
    requires parent { IsParsed parent.now }
    requires child { IsParsed child.now }
    ensures { (first second third : List ℕ) →
        ArePolicyTexts first second third parent.now child.now net.now →
        IfOk result (Negotiates first second third) }
{
    match check(alloc, parent, net) {
        Ok(parent) => child_reply(alloc, &parent, child, net),
        Err(CheckFault::OutOfMemory) => Err(OutOfMemory),
        Err(fault) => Ok(RefineReply::WrongParent(fault)),
    }
}

// What is replied to two policies and a topology, whatever texts the policies come from.
fn topology_reply(
    alloc: Global,
    parent: &Policy,
    child: &Policy,
    topology: &[u8],
) -> Result<RefineReply, OutOfMemory>
    requires parent { IsParsed parent.now }
    requires child { IsParsed child.now }
    ensures { (first second : List ℕ) → IsPolicyText first parent.now →
        IsPolicyText second child.now → IfOk result (Negotiates first second topology.now) }
{
    match read(alloc, topology) {
        Ok(net) => parent_reply(alloc, parent, child, &net),
        Err(NetFault::OutOfMemory) => Err(OutOfMemory),
        Err(fault) => Ok(RefineReply::UnreadTopology(fault)),
    }
}

// What is replied to a parent, whatever text it comes from, and two texts.
fn texts_reply(
    alloc: Global,
    parent: &Policy,
    child: &[u8],
    topology: &[u8],
) -> Result<RefineReply, OutOfMemory>
    requires { IsParsed parent.now }
    ensures { (first : List ℕ) → IsPolicyText first parent.now →
        IfOk result (Negotiates first child.now topology.now) }
{
    match parse(alloc, child) {
        Ok(child) => topology_reply(alloc, parent, &child, topology),
        Err(PolicyFault::OutOfMemory) => Err(OutOfMemory),
        Err(fault) => Ok(RefineReply::UnreadChild(fault)),
    }
}

// What is replied to three texts.
fn refine_reply(
    alloc: Global,
    parent: &[u8],
    child: &[u8],
    topology: &[u8],
) -> Result<RefineReply, OutOfMemory>
    ensures { IfOk result (Negotiates parent.now child.now topology.now) }
{
    match parse(alloc, parent) {
        Ok(parent) => texts_reply(alloc, &parent, child, topology),
        Err(PolicyFault::OutOfMemory) => Err(OutOfMemory),
        Err(fault) => Ok(RefineReply::UnreadParent(fault)),
    }
}

fn unread_lines(alloc: Global, text: &str, fault: &PolicyFault) -> Result<Vec<Name>, OutOfMemory>
    ensures { IfOk result (λ lines. lines.items ≡
        line (text.now ++ text_of_policy_fault fault.now) ∷ []) }
{
    let name = policy_fault_text(alloc, fault)?;
    named_line(alloc, text, &name)
}

fn wrong_lines(alloc: Global, text: &str, fault: &CheckFault) -> Result<Vec<Name>, OutOfMemory>
    ensures { IfOk result (λ lines. lines.items ≡
        line (text.now ++ text_of_check_fault fault.now) ∷ []) }
{
    let name = check_fault_text(alloc, fault)?;
    named_line(alloc, text, &name)
}

fn topology_lines(alloc: Global, fault: &NetFault) -> Result<Vec<Name>, OutOfMemory>
    ensures { IfOk result (λ lines. lines.items ≡
        refine_lines (RefineReply.UnreadTopology fault.now)) }
{
    let name = net_fault_text(alloc, fault)?;
    named_line(alloc, "refused: ", &name)
}

fn lines_of(alloc: Global, reply: &RefineReply) -> Result<Vec<Name>, OutOfMemory>
    ensures { IfOk result (λ lines. lines.items ≡ refine_lines reply.now) }
{
    match reply {
        RefineReply::UnreadParent(fault) => unread_lines(alloc, "refused parent: ", fault),
        RefineReply::UnreadChild(fault) => unread_lines(alloc, "refused child: ", fault),
        RefineReply::UnreadTopology(fault) => topology_lines(alloc, fault),
        RefineReply::WrongParent(fault) => wrong_lines(alloc, "refused parent: ", fault),
        RefineReply::WrongChild(fault) => wrong_lines(alloc, "refused child: ", fault),
        RefineReply::TooManyCells => one_line(alloc, "refused: more than 524288 cells"),
        RefineReply::Wider(text) => named_line(alloc, "", text),
        RefineReply::Refines => one_line(alloc, "refines"),
    }
}

fn status_of(reply: &RefineReply) -> Status
    ensures { result ≡ refine_status reply.now }
{
    match reply {
        RefineReply::UnreadParent(_) | RefineReply::UnreadChild(_) => Status::Refused,
        RefineReply::UnreadTopology(_) | RefineReply::TooManyCells => Status::Refused,
        RefineReply::WrongParent(_) | RefineReply::WrongChild(_) => Status::Refused,
        RefineReply::Wider(_) => Status::RefineNo,
        RefineReply::Refines => Status::Done,
    }
}

fn report_on(alloc: Global, reply: &RefineReply) -> Result<Report, OutOfMemory>
    ensures lines { IfOk result (λ report. IsWrittenAs report.body (refine_lines reply.now)) }
    ensures status { IfOk result (λ report. report.status ≡ refine_status reply.now) }
{
    let lines = lines_of(alloc, reply)?;
    Ok(Report {
        body: ReportBody::Lines(lines),
        status: status_of(reply),
    })
}

/// What is reported of the contents of its files.
pub fn refine_report(alloc: Global, contents: &[Vec<u8>]) -> Result<Report, OutOfMemory>
    requires { length contents.now ≡ 3 }
    ensures { let is_reply = IsRefineReply (texts_read contents.now) in
        IfOk result (IsReportWith is_reply refine_lines refine_status) }
{
    match refine_reply(alloc, &contents[0], &contents[1], &contents[2]) {
        Ok(reply) => report_on(alloc, &reply),
        Err(OutOfMemory) => Err(OutOfMemory),
    }
}
