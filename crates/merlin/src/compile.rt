//! The command `compile`.
ghost use Rattle.std.specs.Prelude.{◌≡◌, ◌≢◌, ℕ, length, IfOk, IfSome, IfNone};
ghost use Rattle.config_text.specs.Result.{objective_word};
ghost use Rattle.merlin_base.specs.declared.status.Status.TheVariants as status;
ghost use Rattle.merlin_compile.specs.Written.{solved_lines, partial_lines, compiled_lines};
ghost use Rattle.merlin_compile.specs.Written.{IsSolvedFromSome, IsPartialFromSome, IsCompiledFromSome};
ghost use Rattle.result_heads.specs.Heads.{infeasible_lines};
ghost use Rattle.merlin.specs.Words.{word_texts};
ghost use Rattle.merlin.specs.Reading.{files_wanted, texts_read};
ghost use Rattle.merlin.specs.Compile.{CompileForm, IsBudget, IsInBudget, IsCompileForm, compile_form};
ghost use Rattle.merlin.specs.Compile.{compile_files, Compiles, compile_lines};
ghost use Rattle.merlin.specs.Compile.{IsCompileReply};
ghost use Rattle.merlin.specs.Compile.{compile_status, compiled_status};
ghost use Rattle.merlin.specs.Parts.{IsPrintable};
ghost use Rattle.merlin.specs.Reports.{IsReportWith, IsWrittenAs};

use crate::reading::{TEXT_LIMIT, Wanted};
use crate::report::{Report, ReportBody, named_line};
use merlin_base::{OutOfMemory, Status, read_decimal};
use merlin_compile::{
    CompileFault, Compiled, Partial, Solved, compile, compile_fault_text, partial_head, solved_head,
};
use merlin_model::certificate::Tree;
use merlin_model::limits::MAX_NODES;
use merlin_model::policy::Objective;
use result_heads::infeasible_head;
use std::alloc::Global;

/// The most nodes of a tree, where the words do not say.
pub const DEFAULT_BUDGET: u64 = 512;

/// The most nodes of a tree that words may ask for.
pub const MAX_BUDGET: u64 = MAX_NODES as u64;

/// A command to compile two files.
#[derive(Clone, Copy)]
pub struct Compile<'a> {
    pub policy: &'a str,
    pub topology: &'a str,
    pub objective: Objective,
    pub budget: u64,
}

/// What is replied to it.
#[derive(Drop)]
pub enum CompileReply {
    Refused(CompileFault),
    Compiled(Compiled),
}

fn objective_of(word: &str) -> Option<Objective>
    ensures some { IfSome result (λ objective. word.now ≡ objective_word objective) }
    ensures none { IfNone result ((objective : _) → word.now ≢ objective_word objective) }
{
    match word {
        "shortest" => Some(Objective::Shortest),
        "ratio" => Some(Objective::Ratio),
        "reserved" => Some(Objective::Reserved),
        _ => None,
    }
}

fn budget_of(rest: &[String]) -> Option<u64>
    ensures some { IfSome result (IsBudget (word_texts rest.now)) }
    ensures none { IfNone result ((budget : ℕ) → ¬ IsBudget (word_texts rest.now) budget) }
{
    match rest {
        [] => Some(DEFAULT_BUDGET),
        [text] => {
            let budget = read_decimal(text.as_bytes())?;
            if budget < 1 || budget > MAX_BUDGET {
                return None;
            }
            Some(budget)
        }
        _ => None,
    }
}

/// The command to compile that the words are, if they are one.
pub fn compile_of(words: &[String]) -> Option<Compile<'_>>
    ensures some { IfSome result (λ command.
        IsCompileForm (word_texts words.now) (compile_form command)) }
    ensures none { IfNone result ((form : CompileForm) →
        ¬ IsCompileForm (word_texts words.now) form) }
{
    let [command, policy, topology, objective, rest @ ..] = words else {
        return None;
    };
    if command.as_str() != "compile" {
        return None;
    }
    let objective = objective_of(objective.as_str())?;
    let budget = budget_of(rest)?;
    Some(Compile {
        policy: policy.as_str(),
        topology: topology.as_str(),
        objective,
        budget,
    })
}

/// Its files.
pub fn files_to_compile<'a>(command: Compile<'a>) -> [Wanted<'a>; 2]
    ensures { files_wanted result ≡ compile_files (compile_form command.entry) }
{
    [
        Wanted {
            name: command.policy,
            limit: TEXT_LIMIT,
        },
        Wanted {
            name: command.topology,
            limit: TEXT_LIMIT,
        },
    ]
}

// What is replied to a policy and a topology.
fn compile_reply(
    alloc: Global,
    command: Compile,
    policy: &[u8],
    topology: &[u8],
) -> Result<CompileReply, OutOfMemory>
    requires { IsInBudget command.budget }
    ensures reply { IfOk result (Compiles (compile_form command.entry) policy.now topology.now) }
    ensures printable { IfOk result IsPrintable }
{
    let budget = command.budget as usize;
    match compile(alloc, policy, topology, command.objective, budget) {
        Ok(compiled) => Ok(CompileReply::Compiled(compiled)),
        Err(fault) => {
            if fault.is_want_of_memory() {
                return Err(OutOfMemory);
            }
            Ok(CompileReply::Refused(fault))
        }
    }
}

// What is reported of a refusal.
fn refused_report(alloc: Global, fault: &CompileFault) -> Result<Report, OutOfMemory>
    ensures lines { IfOk result (λ report.
        IsWrittenAs report.body (compile_lines (CompileReply.Refused fault.now))) }
    ensures status { IfOk result (λ report. report.status ≡ status.Refused) }
{
    let text = compile_fault_text(alloc, fault)?;
    let lines = named_line(alloc, "refused: ", &text)?;
    Ok(Report {
        body: ReportBody::Lines(lines),
        status: Status::Refused,
    })
}

fn status_of(compiled: &Compiled) -> Status
    ensures { result ≡ compiled_status compiled.now }
{
    match compiled {
        Compiled::Least(_) => Status::Done,
        Compiled::Infeasible { .. } => Status::Infeasible,
        Compiled::Budget(_) => Status::Budget,
    }
}

// The parts of a least result.
fn solved_body(alloc: Global, solved: Solved) -> Result<ReportBody, OutOfMemory>
    requires { IsSolvedFromSome solved }
    ensures { IfOk result (λ body. IsWrittenAs body (solved_lines solved)) }
{
    let head = solved_head(alloc, &solved)?;
    Ok(ReportBody::Configured {
        head,
        net: solved.net,
        config: solved.config,
        tree: solved.tree,
    })
}

// The parts of what says that no assignment is feasible.
fn infeasible_body(
    alloc: Global,
    objective: Objective,
    tree: Tree,
) -> Result<ReportBody, OutOfMemory>
    ensures { IfOk result (λ body. IsWrittenAs body (infeasible_lines objective tree)) }
{
    let head = infeasible_head(alloc, objective)?;
    Ok(ReportBody::Certified { head, tree })
}

// The parts of what a spent budget leaves.
fn partial_body(alloc: Global, partial: Partial) -> Result<ReportBody, OutOfMemory>
    requires { IsPartialFromSome partial }
    ensures { IfOk result (λ body. IsWrittenAs body (partial_lines partial)) }
{
    let head = partial_head(alloc, &partial)?;
    Ok(ReportBody::Certified {
        head,
        tree: partial.tree,
    })
}

// The parts of a result, with the certificate last.
fn body_of(alloc: Global, compiled: Compiled) -> Result<ReportBody, OutOfMemory>
    requires { IsCompiledFromSome compiled }
    ensures { IfOk result (λ body. IsWrittenAs body (compiled_lines compiled)) }
{
    match compiled {
        Compiled::Least(solved) => solved_body(alloc, solved),
        Compiled::Infeasible { objective, tree } => infeasible_body(alloc, objective, tree),
        Compiled::Budget(partial) => partial_body(alloc, partial),
    }
}

// What is reported of a result.
fn compiled_report(alloc: Global, compiled: Compiled) -> Result<Report, OutOfMemory>
    requires { IsCompiledFromSome compiled }
    ensures lines { IfOk result (λ report. IsWrittenAs report.body (compiled_lines compiled)) }
    ensures status { IfOk result (λ report. report.status ≡ compiled_status compiled) }
{
    let status = status_of(&compiled);
    let body = body_of(alloc, compiled)?;
    Ok(Report { body, status })
}

fn report_on(alloc: Global, reply: CompileReply) -> Result<Report, OutOfMemory>
    requires { IsPrintable reply }
    ensures lines { IfOk result (λ report. IsWrittenAs report.body (compile_lines reply)) }
    ensures status { IfOk result (λ report. report.status ≡ compile_status reply) }
{
    match reply {
        CompileReply::Refused(fault) => refused_report(alloc, &fault),
        CompileReply::Compiled(compiled) => compiled_report(alloc, compiled),
    }
}

/// What is reported of the contents of its files.
pub fn compile_report(
    alloc: Global,
    command: Compile,
    contents: &[Vec<u8>],
) -> Result<Report, OutOfMemory>
    requires budget { IsInBudget command.budget }
    requires two { length contents.now ≡ 2 }
    ensures { let is_reply = IsCompileReply (compile_form command.entry)
        (texts_read contents.now) in
        IfOk result (IsReportWith is_reply compile_lines compile_status) }
{
    match compile_reply(alloc, command, &contents[0], &contents[1]) {
        Ok(reply) => report_on(alloc, reply),
        Err(OutOfMemory) => Err(OutOfMemory),
    }
}
