//! What is said of a command line, and how its run ends.
ghost use Rattle.std.specs.Prelude.{◌≡◌, ◌++◌, ◌∷◌, [], OnOk, IfOk};
ghost use Rattle.std.specs.Fmt.{decimal};
ghost use Rattle.config_text.specs.Words.{line};
ghost use Rattle.merlin.specs.Outcome.{NoForm, NotRead, TooLong};
ghost use Rattle.merlin.specs.Parts.{IsReportOf, Tells};

use crate::reading::Unread;
use config_text::Config;
use merlin_base::{Name, OutOfMemory, Status, name_from};
use merlin_model::certificate::Tree;
use merlin_model::config::Rule;
use sqlite_items::Items;
use std::alloc::Global;
use topology::Topology;

/// What is written. Where it is long, its lines are made one at a time, when they are handed over.
#[derive(Drop)]
pub enum ReportBody {
    /// These lines.
    Lines(Vec<Name>),
    /// First lines, and a certificate.
    Certified {
        head: Vec<Name>,
        tree: Tree,
    },
    /// First lines, a configuration over a network, and a certificate.
    Configured {
        head: Vec<Name>,
        net: Topology,
        config: Config,
        tree: Tree,
    },
    /// A configuration over a network.
    Configuration {
        net: Topology,
        config: Config,
    },
    /// The message of each rule that is at the switch.
    Messages {
        switch: usize,
        rules: Items<Rule>,
    },
}

/// What is written, and the status once it is.
#[derive(Drop)]
pub struct Report {
    pub body: ReportBody,
    pub status: Status,
}

/// Adds the text as a line.
pub fn push_line(alloc: Global, lines: &mut Vec<Name>, text: &str) -> Result<(), OutOfMemory>
    ensures { OnOk result (lines.new.items ≡ lines.old.items ++ line text.now ∷ []) }
{
    let text = format!(in alloc; "{text}\n")?;
    lines.push(name_from(alloc, text.as_bytes())?)?;
    Ok(())
}

/// The text as one line.
pub fn one_line(alloc: Global, text: &str) -> Result<Vec<Name>, OutOfMemory>
    ensures { IfOk result (λ lines. lines.items ≡ line text.now ∷ []) }
{
    let mut lines = Vec::new(alloc);
    push_line(alloc, &mut lines, text)?;
    Ok(lines)
}

/// One line: the text with a number after it.
pub fn numbered_line(alloc: Global, text: &str, number: usize) -> Result<Vec<Name>, OutOfMemory>
    ensures { IfOk result (λ lines. lines.items ≡ line (text.now ++ decimal number) ∷ []) }
{
    let text = format!(in alloc; "{text}{number}")?;
    one_line(alloc, &text)
}

/// One line: the text with a name after it.
pub fn named_line(alloc: Global, text: &str, name: &Name) -> Result<Vec<Name>, OutOfMemory>
    ensures { IfOk result (λ lines. lines.items ≡ line (text.now ++ name.now) ∷ []) }
{
    let mut bytes = Vec::from_slice(alloc, text.as_bytes())?;
    bytes.extend_from_slice(name.bytes())?;
    bytes.push(b'\n')?;
    let mut lines = Vec::new(alloc);
    lines.push(name_from(alloc, &bytes)?)?;
    Ok(lines)
}

const USAGE: &str =
    "usage: compile POLICY TOPOLOGY shortest|ratio|reserved [BUDGET]; check POLICY TOPOLOGY RESULT; trace TOPOLOGY RESULT HOST PACKET; refine PARENT CHILD TOPOLOGY; refute PROGRAM TREE; grow N; wire TOPOLOGY RESULT SWITCH; unwire TOPOLOGY SWITCH MESSAGES; delegate TREE TOPOLOGY; fair DEMANDS; fairness DEMANDS SHARES";

/// What is said of words that are no form of a command.
pub fn usage_report(alloc: Global) -> Result<Report, OutOfMemory>
    ensures { IfOk result (IsReportOf NoForm) }
{
    let lines = one_line(alloc, USAGE)?;
    Ok(Report {
        body: ReportBody::Lines(lines),
        status: Status::Usage,
    })
}

// What is said where a file could not be read.
fn fault_report(alloc: Global) -> Result<Report, OutOfMemory>
    ensures { IfOk result (IsReportOf NotRead) }
{
    let lines = one_line(alloc, "fault: read")?;
    Ok(Report {
        body: ReportBody::Lines(lines),
        status: Status::ReadFault,
    })
}

// What is said where the file of this name is too long.
fn too_long_report(alloc: Global, name: &Name) -> Result<Report, OutOfMemory>
    ensures { IfOk result (IsReportOf (TooLong name.now)) }
{
    let lines = named_line(alloc, "refused: too long ", name)?;
    Ok(Report {
        body: ReportBody::Lines(lines),
        status: Status::Refused,
    })
}

/// What is said where files were not all read.
pub fn unread_report(alloc: Global, unread: &Unread) -> Result<Report, OutOfMemory>
    ensures { IfOk result (Tells unread.now) }
{
    match unread {
        Unread::Fault => fault_report(alloc),
        Unread::TooLong(name) => too_long_report(alloc, name),
        Unread::OutOfMemory => Err(OutOfMemory),
    }
}
