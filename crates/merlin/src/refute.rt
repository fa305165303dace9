//! The command `refute`.
ghost use Rattle.std.specs.Prelude.{◌≡◌, length, IfOk, IfSome, IfNone};
ghost use Rattle.merlin.specs.Words.{word_texts};
ghost use Rattle.merlin.specs.Reading.{files_wanted, texts_read};
ghost use Rattle.merlin.specs.Refute.{RefuteForm, IsRefuteForm, refute_form, refute_files};
ghost use Rattle.merlin.specs.Refute.{Checks, IsRefuteReply, refute_lines, refute_status};
ghost use Rattle.merlin.specs.Reports.{IsReportWith, IsWrittenAs};

use crate::reading::{TEXT_LIMIT, Wanted};
use crate::report::{Report, ReportBody, numbered_line, one_line};
use certificate_text::{ProgramTextFault, TreeTextFault, read_program, read_tree};
use merlin_base::{Name, OutOfMemory, Status};
use std::alloc::Global;

/// The most bytes of a tree.
pub const TREE_LIMIT: usize = 1_610_612_736;

/// A command to check a tree against a program.
#[derive(Clone, Copy)]
pub struct Refute<'a> {
    pub program: &'a str,
    pub tree: &'a str,
}

/// What is replied to it. `NotRefuted` has the first node that fails.
#[derive(Clone, Copy)]
pub enum RefuteReply {
    BadProgram(usize),
    BadTree(usize),
    Refuted,
    NotRefuted(usize),
}

/// The command to check a tree that the words are, if they are one.
pub fn refute_of(words: &[String]) -> Option<Refute<'_>>
    ensures some { IfSome result (λ command.
        IsRefuteForm (word_texts words.now) (refute_form command)) }
    ensures none { IfNone result ((form : RefuteForm) →
        ¬ IsRefuteForm (word_texts words.now) form) }
{
    let [command, program, tree] = words else {
        return None;
    };
    if command.as_str() != "refute" {
        return None;
    }
    Some(Refute {
        program: program.as_str(),
        tree: tree.as_str(),
    })
}

/// Its files.
pub fn files_to_refute<'a>(command: Refute<'a>) -> [Wanted<'a>; 2]
    ensures { files_wanted result ≡ refute_files (refute_form command.entry) }
{
    [
        Wanted {
            name: command.program,
            limit: TEXT_LIMIT,
        },
        Wanted {
            name: command.tree,
            limit: TREE_LIMIT,
        },
    ]
}

// What is replied to a program and a tree.
fn refute_reply(alloc: Global, program: &[u8], tree: &[u8]) -> Result<RefuteReply, OutOfMemory>
    ensures { IfOk result (Checks program.now tree.now) }
{
    let program = match read_program(alloc, program) {
        Ok(program) => program,
        Err(ProgramTextFault::BadProgram { at }) => return Ok(RefuteReply::BadProgram(at)),
        Err(ProgramTextFault::OutOfMemory) => return Err(OutOfMemory),
    };
    let tree = match read_tree(alloc, tree) {
        Ok(tree) => tree,
        Err(TreeTextFault::BadTree { at }) => return Ok(RefuteReply::BadTree(at)),
        Err(TreeTextFault::OutOfMemory) => return Err(OutOfMemory),
    };
    let mut checker = certificate::new(alloc, &program)?;
    match checker.refutes(&tree, None) {
        Ok(()) => Ok(RefuteReply::Refuted),
        Err(fault) => Ok(RefuteReply::NotRefuted(fault.node)),
    }
}

fn lines_of(alloc: Global, reply: RefuteReply) -> Result<Vec<Name>, OutOfMemory>
    ensures { IfOk result (λ lines. lines.items ≡ refute_lines reply) }
{
    match reply {
        RefuteReply::BadProgram(at) => numbered_line(alloc, "refused: program at ", at),
        RefuteReply::BadTree(at) => numbered_line(alloc, "refused: tree at ", at),
        RefuteReply::Refuted => one_line(alloc, "refuted"),
        RefuteReply::NotRefuted(node) => numbered_line(alloc, "no ", node),
    }
}

fn status_of(reply: RefuteReply) -> Status
    ensures { result ≡ refute_status reply }
{
    match reply {
        RefuteReply::BadProgram(_) | RefuteReply::BadTree(_) => Status::Refused,
        RefuteReply::Refuted => Status::Done,
        RefuteReply::NotRefuted(_) => Status::CheckNo,
    }
}

fn report_on(alloc: Global, reply: RefuteReply) -> Result<Report, OutOfMemory>
    ensures lines { IfOk result (λ report. IsWrittenAs report.body (refute_lines reply)) }
    ensures status { IfOk result (λ report. report.status ≡ refute_status reply) }
{
    let lines = lines_of(alloc, reply)?;
    Ok(Report {
        body: ReportBody::Lines(lines),
        status: status_of(reply),
    })
}

/// What is reported of the contents of its files.
pub fn refute_report(alloc: Global, contents: &[Vec<u8>]) -> Result<Report, OutOfMemory>
    requires { length contents.now ≡ 2 }
    ensures { let is_reply = IsRefuteReply (texts_read contents.now) in
        IfOk result (IsReportWith is_reply refute_lines refute_status) }
{
    let reply = refute_reply(alloc, &contents[0], &contents[1])?;
    report_on(alloc, reply)
}
