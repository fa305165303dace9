//! The commands. A new one has a line in each of these functions, in `add_further` only if the contents of its files name further ones.
ghost use Rattle.std.specs.Prelude.{◌≡◌, OnOk, IfOk, IfErr, IfSome, IfNone};
ghost use Rattle.merlin_base.specs.Outside.{KnownContents, NoneFalls};
ghost use Rattle.merlin.specs.Words.{word_texts};
ghost use Rattle.merlin.specs.Reading.{AreContents, IsUnread, texts_read};
ghost use Rattle.merlin.specs.Commands.{form_of, files_of, IsForm, IsLawfulForm};
ghost use Rattle.merlin.specs.Contents.{AreContentsOf, IsUnreadOf};
ghost use Rattle.packet_trace.specs.Behaviours.{behaviour_by};
ghost use Rattle.merlin.specs.Outcome.{IsNoForm};
ghost use Rattle.merlin.specs.Parts.{IsReplyReport};

use crate::compile::{Compile, compile_of, compile_report, files_to_compile};
use crate::delegate::{Delegate, add_policies, delegate_of, delegate_report, files_to_delegate};
use crate::fair::{Fair, fair_of, fair_report, files_to_divide};
use crate::fairness::{Fairness, fairness_of, fairness_report, files_to_judge};
use crate::reading::{Unread, read_files};
use crate::refine::{Refine, files_to_refine, refine_of, refine_report};
use crate::refute::{Refute, files_to_refute, refute_of, refute_report};
use crate::report::Report;
use crate::trace::{Tracing, files_to_trace, trace_of, trace_report};
use crate::unwire::{Unwire, files_to_unwire, unwire_of, unwire_report};
use crate::wire::{Wire, files_to_wire, wire_of, wire_report};
use merlin_base::{Files, OutOfMemory};
use packet_model::Packet;
use std::alloc::Global;
use topology::FnDecl;

/// A command, as its words ask for it.
#[derive(Clone, Copy)]
pub enum Command<'a> {
    Compile(Compile<'a>),
    Refine(Refine<'a>),
    Refute(Refute<'a>),
    Fair(Fair<'a>),
    Fairness(Fairness<'a>),
    Trace(Tracing<'a>),
    Wire(Wire<'a>),
    Unwire(Unwire<'a>),
    Delegate(Delegate<'a>),
}

/// The command that the words are, if they are one.
pub fn command_of(words: &[String]) -> Option<Command<'_>>
    ensures some { IfSome result (λ command. IsForm (word_texts words.now) (form_of command)) }
    ensures none { IfNone result (IsNoForm (word_texts words.now)) }
{
    if let Some(command) = compile_of(words) {
        return Some(Command::Compile(command));
    }
    if let Some(command) = refine_of(words) {
        return Some(Command::Refine(command));
    }
    if let Some(command) = refute_of(words) {
        return Some(Command::Refute(command));
    }
    if let Some(command) = fair_of(words) {
        return Some(Command::Fair(command));
    }
    if let Some(command) = fairness_of(words) {
        return Some(Command::Fairness(command));
    }
    if let Some(command) = trace_of(words) {
        return Some(Command::Trace(command));
    }
    if let Some(command) = wire_of(words) {
        return Some(Command::Wire(command));
    }
    if let Some(command) = unwire_of(words) {
        return Some(Command::Unwire(command));
    }
    if let Some(command) = delegate_of(words) {
        return Some(Command::Delegate(command));
    }
    None
}

// What the files hold that the words of a command name.
fn read_first<F: Files>(
    alloc: Global,
    files: &mut F,
    command: Command,
) -> Result<Vec<Vec<u8>>, Unread>
    ensures contents { F.contents files.new ≡ F.contents files.old }
    ensures later { NoneFalls (F.faults files.old) (F.faults files.new) }
    ensures ok { let named = files_of (form_of command.entry) in
        IfOk result (λ contents.
        AreContents (F.contents files.old) named (texts_read contents.items)) }
    ensures err { let named = files_of (form_of command.entry) in
        IfErr result (IsUnread (F.contents files.old) named
        (F.faults files.old) (F.faults files.new)) }
{
    match command {
        Command::Compile(words) => read_files(alloc, files, &files_to_compile(words)),
        Command::Refine(words) => read_files(alloc, files, &files_to_refine(words)),
        Command::Refute(words) => read_files(alloc, files, &files_to_refute(words)),
        Command::Fair(words) => read_files(alloc, files, &files_to_divide(words)),
        Command::Fairness(words) => read_files(alloc, files, &files_to_judge(words)),
        Command::Trace(words) => read_files(alloc, files, &files_to_trace(words)),
        Command::Wire(words) => read_files(alloc, files, &files_to_wire(words)),
        Command::Unwire(words) => read_files(alloc, files, &files_to_unwire(words)),
        Command::Delegate(words) => read_files(alloc, files, &files_to_delegate(words)),
    }
}

// Adds what the further files hold that the contents of the first ones name.
fn add_further<F: Files>(
    alloc: Global,
    files: &mut F,
    command: Command,
    contents: &mut Vec<Vec<u8>>,
) -> Result<(), Unread>
    requires { AreContents (F.contents files.old) (files_of (form_of command))
        (texts_read contents.old.items) }
    ensures ok { OnOk result (AreContentsOf (F.contents files.old) (form_of command.entry)
        (texts_read contents.new.items)) }
    ensures err { IfErr result (IsUnreadOf (F.contents files.old) (form_of command.entry)
        (F.faults files.old) (F.faults files.new)) }
{
    match command {
        Command::Delegate(_) => add_policies(alloc, files, contents),
        _ => Ok(()),
    }
}

/// What all files of a command hold.
pub fn contents_for<F: Files>(
    alloc: Global,
    files: &mut F,
    command: Command,
) -> Result<Vec<Vec<u8>>, Unread>
    ensures ok { IfOk result (λ contents. AreContentsOf (F.contents files.old)
        (form_of command.entry) (texts_read contents.items)) }
    ensures err { IfErr result (IsUnreadOf (F.contents files.old) (form_of command.entry)
        (F.faults files.old) (F.faults files.new)) }
{
    let mut contents = read_first(alloc, files, command)?;
    add_further(alloc, files, command, &mut contents)?;
    Ok(contents)
}

/// What is reported of the contents of a command's files. Packet functions do what `apply` does.
pub fn report_over<A: Fn(&FnDecl, Packet) -> Packet + Drop>(
    alloc: Global,
    command: Command,
    contents: &[Vec<u8>],
    apply: A,
) -> Result<Report, OutOfMemory>
    requires callable { A.IsAlwaysCallable apply }
    requires lawful { IsLawfulForm (form_of command) }
    requires read { (known : KnownContents)
        × AreContentsOf known (form_of command) (texts_read contents.now) }
    ensures { let behaviour = behaviour_by (A.post apply) (λ d. d.now) in
        IfOk result (IsReplyReport behaviour (form_of command.entry) (texts_read contents.now)) }
{
    match command {
        Command::Compile(words) => compile_report(alloc, words, contents),
        Command::Refine(_) => refine_report(alloc, contents),
        Command::Refute(_) => refute_report(alloc, contents),
        Command::Fair(_) => fair_report(alloc, contents),
        Command::Fairness(_) => fairness_report(alloc, contents),
        Command::Trace(words) => trace_report(alloc, words, contents, apply),
        Command::Wire(words) => wire_report(alloc, words, contents),
        Command::Unwire(words) => unwire_report(alloc, words, contents),
        Command::Delegate(_) => delegate_report(alloc, contents),
    }
}
