//! The command `fair`.
ghost use Rattle.std.specs.Prelude.{◌≡◌, ◌++◌, ◌-◌, length, IfOk, IfSome, IfNone, codes};
ghost use Rattle.std.specs.Fmt.{decimal};
ghost use Rattle.std.specs.String.{string_bytes};
ghost use Rattle.merlin.specs.Words.{word_texts};
ghost use Rattle.merlin.specs.Reading.{files_wanted, texts_read};
ghost use Rattle.merlin.specs.Reports.{IsReportWith, IsWrittenAs};
ghost use Rattle.merlin.specs.Fair.{FairForm, IsFairForm, fair_form, fair_files};
ghost use Rattle.merlin.specs.Fair.{AreBestLines, Divides, refused_demands_lines};
ghost use Rattle.merlin.specs.Fair.{IsFairReply, fair_lines, fair_status};

use crate::reading::{TEXT_LIMIT, Wanted};
use crate::report::{Report, ReportBody, named_line, one_line};
use fair_share::{DemandFault, Demands, divide, print_shares, read};
use merlin_base::{Name, OutOfMemory, Status};
use std::alloc::Global;

/// A command to divide caps among tenants.
#[derive(Clone, Copy)]
pub struct Fair<'a> {
    pub demands: &'a str,
}

/// What is replied to it. `Divided` has the lines of the division.
#[derive(Drop)]
pub enum FairReply {
    Refused(DemandFault),
    Divided(Vec<Name>),
}

/// The command to divide that the words are, if they are one.
pub fn fair_of(words: &[String]) -> Option<Fair<'_>>
    ensures some { IfSome result (λ command.
        IsFairForm (word_texts words.now) (fair_form command)) }
    ensures none { IfNone result ((form : FairForm) → ¬ IsFairForm (word_texts words.now) form) }
{
    let [command, demands] = words else {
        return None;
    };
    if command.as_str() != "fair" {
        return None;
    }
    Some(Fair {
        demands: demands.as_str(),
    })
}

/// Its file.
pub fn files_to_divide<'a>(command: Fair<'a>) -> [Wanted<'a>; 1]
    ensures { files_wanted result ≡ fair_files (fair_form command.entry) }
{
    [Wanted {
        name: command.demands,
        limit: TEXT_LIMIT,
    }]
}

// The lines of a best division of demands.
fn best_lines(alloc: Global, demands: &Demands) -> Result<Vec<Name>, OutOfMemory>
    ensures { IfOk result (λ lines. AreBestLines demands.now lines.items) }
{
    let shares = divide(alloc, demands)?;
    print_shares(alloc, demands, &shares)
}

// What is replied to demands.
fn fair_reply(alloc: Global, demands: &[u8]) -> Result<FairReply, OutOfMemory>
    ensures { IfOk result (Divides demands.now) }
{
    match read(alloc, demands) {
        Ok(demands) => Ok(FairReply::Divided(best_lines(alloc, &demands)?)),
        Err(DemandFault::OutOfMemory) => Err(OutOfMemory),
        Err(fault) => Ok(FairReply::Refused(fault)),
    }
}

// Why so many of these are too many; the count is one past the limit.
fn excess_text(alloc: Global, count: u64) -> Result<String, OutOfMemory>
    ensures { IfOk result (λ text. string_bytes text
        ≡ codes "refused: more than " ++ (decimal (count - 1) ++ codes " ")) }
{
    let limit = count.saturating_sub(1);
    Ok(format!(in alloc; "refused: more than {limit} ")?)
}

fn excess_lines(alloc: Global, what: &Name, count: u64) -> Result<Vec<Name>, OutOfMemory>
    ensures { IfOk result (λ lines. lines.items
        ≡ refused_demands_lines (DemandFault.TooLarge what.now count)) }
{
    let text = excess_text(alloc, count)?;
    named_line(alloc, &text, what)
}

/// The line that says why demands are refused. Want of memory has none.
pub fn demand_fault_lines(alloc: Global, fault: &DemandFault) -> Result<Vec<Name>, OutOfMemory>
    ensures { IfOk result (λ lines. lines.items ≡ refused_demands_lines fault.now) }
{
    match fault {
        DemandFault::Json => one_line(alloc, "refused: demands json"),
        DemandFault::Shape { what } => named_line(alloc, "refused: demands shape ", what),
        DemandFault::TooLarge { what, count } => excess_lines(alloc, what, *count),
        DemandFault::DuplicateName { name } => named_line(alloc, "refused: duplicate name ", name),
        DemandFault::UnknownCap { name } => named_line(alloc, "refused: unknown cap ", name),
        DemandFault::OutOfMemory => Err(OutOfMemory),
    }
}

// What is reported of a reply.
fn report_on(alloc: Global, reply: FairReply) -> Result<Report, OutOfMemory>
    ensures lines { IfOk result (λ report. IsWrittenAs report.body (fair_lines reply)) }
    ensures status { IfOk result (λ report. report.status ≡ fair_status reply) }
{
    match reply {
        FairReply::Refused(fault) => Ok(Report {
            body: ReportBody::Lines(demand_fault_lines(alloc, &fault)?),
            status: Status::Refused,
        }),
        FairReply::Divided(lines) => Ok(Report {
            body: ReportBody::Lines(lines),
            status: Status::Done,
        }),
    }
}

/// What is reported of the contents of its file.
pub fn fair_report(alloc: Global, contents: &[Vec<u8>]) -> Result<Report, OutOfMemory>
    requires { length contents.now ≡ 1 }
    ensures { let is_reply = IsFairReply (texts_read contents.now) in
        IfOk result (IsReportWith is_reply fair_lines fair_status) }
{
    match fair_reply(alloc, &contents[0]) {
        Ok(reply) => report_on(alloc, reply),
        Err(OutOfMemory) => Err(OutOfMemory),
    }
}
