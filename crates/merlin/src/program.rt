//! A run of the program.
ghost use Rattle.std.specs.Prelude.{◌≡◌, IfOk};
ghost use Rattle.merlin.specs.Words.{word_texts};
ghost use Rattle.packet_trace.specs.Behaviours.{behaviour_by};
ghost use Rattle.merlin.specs.Outcome.{IsOutcome, SaysByStatus, world_of, taking_of};
ghost use Rattle.merlin.specs.Parts.{IsReportTo, CanBeWritten, EndsByResult};
ghost use Rattle.merlin.specs.Runs.{KeepsPromises};

use crate::commands::{command_of, contents_for, report_over};
use crate::handing::write_body;
use crate::report::{Report, unread_report, usage_report};
use merlin_base::{Files, OutOfMemory, OutsideFault, Sink, Status};
use packet_model::Packet;
use std::alloc::Global;
use topology::FnDecl;

// What is reported of the command that the words are.
fn report_to<F: Files, A: Fn(&FnDecl, Packet) -> Packet + Drop>(
    alloc: Global,
    words: &[String],
    files: &mut F,
    apply: A,
) -> Result<Report, OutOfMemory>
    requires callable { A.IsAlwaysCallable apply }
    ensures { let world = world_of (F.contents files.old)
        (F.faults files.old) (F.faults files.new) (behaviour_by (A.post apply) (λ d. d.now)) in
        IfOk result (IsReportTo world (word_texts words.now)) }
{
    let Some(command) = command_of(words) else {
        return usage_report(alloc);
    };
    match contents_for(alloc, files, command) {
        Ok(contents) => report_over(alloc, command, &contents, apply),
        Err(unread) => unread_report(alloc, &unread),
    }
}

// Hands the lines of a report to the sink. It answers how the run ends.
fn hand_over<K: Sink>(alloc: Global, out: &mut K, report: &Result<Report, OutOfMemory>) -> Status
    requires { CanBeWritten report.now }
    ensures { let sink = taking_of (K.faults out.old) (K.faults out.new)
        (K.taken out.old) (K.taken out.new) in
        EndsByResult sink report.now result }
{
    let Ok(report) = report else {
        return Status::Memory;
    };
    match write_body(alloc, out, &report.body) {
        Ok(()) => report.status,
        Err(OutsideFault::Failed) => Status::WriteFault,
        Err(OutsideFault::OutOfMemory) => Status::Memory,
    }
}

/// Runs the command that the words are, without the program's name, over these files, and hands its
/// lines to the sink.
///
/// `apply` says what a packet function leaves of a packet. It may be called on everything and keeps
/// the destination Ethernet address. Until there are packet functions it is not called.
///
/// `outcome` has an answer with its cause for each run. `says` and `promises` are what follows from
/// it: what each status says of the words, of the files and of the bytes that the sink took, and what
/// a reader asks of each command.
pub fn run<F: Files, K: Sink, A: Fn(&FnDecl, Packet) -> Packet + Drop>(
    alloc: Global,
    words: &[String],
    files: &mut F,
    out: &mut K,
    apply: A,
) -> Status
    requires callable { A.IsAlwaysCallable apply }
    requires keeps { (decl : _) (packet changed : _) →
        A.post apply decl packet changed → changed.eth_dst ≡ packet.eth_dst }
    ensures outcome { let world = world_of (F.contents files.old)
        (F.faults files.old) (F.faults files.new) (behaviour_by (A.post apply) (λ d. d.now)) in
        let sink = taking_of (K.faults out.old) (K.faults out.new)
        (K.taken out.old) (K.taken out.new) in
        IsOutcome world sink (word_texts words.now) result }
    ensures says { let world = world_of (F.contents files.old)
        (F.faults files.old) (F.faults files.new) (behaviour_by (A.post apply) (λ d. d.now)) in
        let sink = taking_of (K.faults out.old) (K.faults out.new)
        (K.taken out.old) (K.taken out.new) in
        SaysByStatus world sink (word_texts words.now) result }
    ensures promises { let world = world_of (F.contents files.old)
        (F.faults files.old) (F.faults files.new) (behaviour_by (A.post apply) (λ d. d.now)) in
        let sink = taking_of (K.faults out.old) (K.faults out.new)
        (K.taken out.old) (K.taken out.new) in
        KeepsPromises world sink (word_texts words.now) result }
{
    let report = report_to(alloc, words, files, apply);
    hand_over(alloc, out, &report)
}
