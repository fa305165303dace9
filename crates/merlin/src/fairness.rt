//! The command `fairness`.
ghost use Rattle.std.specs.Prelude.{◌≡◌, ℕ, List, length, IfOk, IfSome, IfNone};
ghost use Rattle.fair_share.specs.Reading.{IsDemandsText};
ghost use Rattle.merlin.specs.Words.{word_texts};
ghost use Rattle.merlin.specs.Reading.{files_wanted, texts_read};
ghost use Rattle.merlin.specs.Reports.{IsReportWith, IsWrittenAs};
ghost use Rattle.merlin.specs.Fairness.{FairnessForm, IsFairnessForm, fairness_form};
ghost use Rattle.merlin.specs.Fairness.{fairness_files, AreReadAs, Judges};
ghost use Rattle.merlin.specs.Fairness.{IsFairnessReply, fairness_lines, fairness_status};

use crate::fair::demand_fault_lines;
use crate::reading::{TEXT_LIMIT, Wanted};
use crate::report::{Report, ReportBody, named_line, numbered_line, one_line};
use fair_share::{DemandFault, Demands, Share, SharesFault, fair, read, read_shares};
use merlin_base::{Name, OutOfMemory, Status};
use std::alloc::Global;

/// A command to judge a division.
#[derive(Clone, Copy)]
pub struct Fairness<'a> {
    pub demands: &'a str,
    pub shares: &'a str,
}

/// What is replied to it. `Unsound` has the name of the first tenant at fault.
#[derive(Drop)]
pub enum FairnessReply {
    Refused(DemandFault),
    BadShares(usize),
    Sound,
    Unsound(Name),
}

/// The command to judge that the words are, if they are one.
pub fn fairness_of(words: &[String]) -> Option<Fairness<'_>>
    ensures some { IfSome result (λ command.
        IsFairnessForm (word_texts words.now) (fairness_form command)) }
    ensures none { IfNone result ((form : FairnessForm) →
        ¬ IsFairnessForm (word_texts words.now) form) }
{
    let [command, demands, shares] = words else {
        return None;
    };
    if command.as_str() != "fairness" {
        return None;
    }
    Some(Fairness {
        demands: demands.as_str(),
        shares: shares.as_str(),
    })
}

/// Its files.
pub fn files_to_judge<'a>(command: Fairness<'a>) -> [Wanted<'a>; 2]
    ensures { files_wanted result ≡ fairness_files (fairness_form command.entry) }
{
    [
        Wanted {
            name: command.demands,
            limit: TEXT_LIMIT,
        },
        Wanted {
            name: command.shares,
            limit: TEXT_LIMIT,
        },
    ]
}

// What is replied to a division of demands, whatever texts they come from.
fn verdict_on(
    alloc: Global,
    demands: &Demands,
    shares: &[Share],
) -> Result<FairnessReply, OutOfMemory>
    requires { length shares.now ≡ length demands.now.tenants }
    ensures { (text bytes : List ℕ) → AreReadAs text bytes demands.now shares.now →
        IfOk result (Judges text bytes) }
{
    match fair(demands, shares) {
        None => Ok(FairnessReply::Sound),
        Some(place) => Ok(FairnessReply::Unsound(demands.tenant(place).copy(alloc)?)),
    }
}

// What is replied to shares over demands, whatever text these come from.
fn shares_reply(
    alloc: Global,
    demands: &Demands,
    shares: &[u8],
) -> Result<FairnessReply, OutOfMemory>
    ensures { (text : List ℕ) → IsDemandsText text demands.now →
        IfOk result (Judges text shares.now) }
{
    match read_shares(alloc, shares, demands) {
        Ok(division) => verdict_on(alloc, demands, &division),
        Err(SharesFault::BadShares { at }) => Ok(FairnessReply::BadShares(at)),
        Err(SharesFault::OutOfMemory) => Err(OutOfMemory),
    }
}

// What is replied to demands and shares.
fn fairness_reply(
    alloc: Global,
    demands: &[u8],
    shares: &[u8],
) -> Result<FairnessReply, OutOfMemory>
    ensures { IfOk result (Judges demands.now shares.now) }
{
    match read(alloc, demands) {
        Ok(demands) => shares_reply(alloc, &demands, shares),
        Err(DemandFault::OutOfMemory) => Err(OutOfMemory),
        Err(fault) => Ok(FairnessReply::Refused(fault)),
    }
}

fn lines_of(alloc: Global, reply: &FairnessReply) -> Result<Vec<Name>, OutOfMemory>
    ensures { IfOk result (λ lines. lines.items ≡ fairness_lines reply.now) }
{
    match reply {
        FairnessReply::Refused(fault) => demand_fault_lines(alloc, fault),
        FairnessReply::BadShares(at) => numbered_line(alloc, "refused: shares at ", *at),
        FairnessReply::Sound => one_line(alloc, "yes"),
        FairnessReply::Unsound(name) => named_line(alloc, "no ", name),
    }
}

fn status_of(reply: &FairnessReply) -> Status
    ensures { result ≡ fairness_status reply.now }
{
    match reply {
        FairnessReply::Refused(_) | FairnessReply::BadShares(_) => Status::Refused,
        FairnessReply::Sound => Status::Done,
        FairnessReply::Unsound(_) => Status::CheckNo,
    }
}

fn report_on(alloc: Global, reply: &FairnessReply) -> Result<Report, OutOfMemory>
    ensures lines { IfOk result (λ report. IsWrittenAs report.body (fairness_lines reply.now)) }
    ensures status { IfOk result (λ report. report.status ≡ fairness_status reply.now) }
{
    let lines = lines_of(alloc, reply)?;
    Ok(Report {
        body: ReportBody::Lines(lines),
        status: status_of(reply),
    })
}

/// What is reported of the contents of its files.
pub fn fairness_report(alloc: Global, contents: &[Vec<u8>]) -> Result<Report, OutOfMemory>
    requires { length contents.now ≡ 2 }
    ensures { let is_reply = IsFairnessReply (texts_read contents.now) in
        IfOk result (IsReportWith is_reply fairness_lines fairness_status) }
{
    match fairness_reply(alloc, &contents[0], &contents[1]) {
        Ok(reply) => report_on(alloc, &reply),
        Err(OutOfMemory) => Err(OutOfMemory),
    }
}
