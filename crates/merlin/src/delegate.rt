//! The command `delegate`.
ghost use Rattle.std.specs.Prelude.{◌≡◌, ◌≢◌, [], length, OnOk, IfOk, IfErr, IfSome, IfNone};
ghost use Rattle.merlin.specs.Words.{word_texts};
ghost use Rattle.merlin.specs.Reading.{AreContents, IsUnread, IsUnreadNamed};
ghost use Rattle.merlin.specs.Reading.{files_wanted, texts_read};
ghost use Rattle.merlin.specs.Reports.{IsReportWith, IsWrittenAs};
ghost use Rattle.merlin.specs.Delegate.{DelegateForm, IsDelegateForm, delegate_form};
ghost use Rattle.merlin.specs.Delegate.{delegate_files, policy_files, TreeNames, NamesPolicies};
ghost use Rattle.merlin.specs.Delegate.{ArePoliciesOf, HasAdded, HasTextForEach};
ghost use Rattle.merlin.specs.Delegate.{IsDelegateReply, delegate_lines};
ghost use Rattle.delegation_verdict.specs.Lines.{delegate_status as status_of_reply};

use crate::reading::{TEXT_LIMIT, Unread, Wanted, read_files};
use crate::report::{Report, ReportBody, named_line};
use delegation_text::{EntryFault, TreeEntry, read};
use delegation_verdict::{DelegateReply, delegate_line, delegate_reply, delegate_status};
use merlin_base::{Files, Name, OutOfMemory};
use std::alloc::Global;

/// A command to judge a tree of policies.
#[derive(Clone, Copy)]
pub struct Delegate<'a> {
    pub tree: &'a str,
    pub topology: &'a str,
}

/// The command to judge a tree that the words are, if they are one.
pub fn delegate_of(words: &[String]) -> Option<Delegate<'_>>
    ensures some { IfSome result (λ command.
        IsDelegateForm (word_texts words.now) (delegate_form command)) }
    ensures none { IfNone result ((form : DelegateForm) →
        ¬ IsDelegateForm (word_texts words.now) form) }
{
    let [command, tree, topology] = words else {
        return None;
    };
    if command.as_str() != "delegate" {
        return None;
    }
    Some(Delegate {
        tree: tree.as_str(),
        topology: topology.as_str(),
    })
}

/// The files that its words name.
pub fn files_to_delegate<'a>(command: Delegate<'a>) -> [Wanted<'a>; 2]
    ensures { files_wanted result ≡ delegate_files (delegate_form command.entry) }
{
    [
        Wanted {
            name: command.tree,
            limit: TEXT_LIMIT,
        },
        Wanted {
            name: command.topology,
            limit: TEXT_LIMIT,
        },
    ]
}

// The files of the policies of nodes.
fn policies_wanted<'a>(
    alloc: Global,
    entries: &'a [TreeEntry],
) -> Result<Vec<Wanted<'a>>, OutOfMemory>
    ensures { IfOk result (λ wanted. files_wanted wanted.items ≡ policy_files entries.now) }
{
    let mut wanted = Vec::new(alloc);
    for entry in entries {
        wanted.push(Wanted {
            name: entry.policy.as_str(),
            limit: TEXT_LIMIT,
        })?;
    }
    Ok(wanted)
}

// What the policies of nodes hold, in the order of these.
fn read_policies<F: Files>(
    alloc: Global,
    files: &mut F,
    entries: &[TreeEntry],
) -> Result<Vec<Vec<u8>>, Unread>
    ensures ok { IfOk result (λ policies. AreContents (F.contents files.old)
        (policy_files entries.now) (texts_read policies.items)) }
    ensures err { let named = policy_files entries.now in
        IfErr result (IsUnread (F.contents files.old) named
        (F.faults files.old) (F.faults files.new)) }
{
    let wanted = policies_wanted(alloc, entries)?;
    read_files(alloc, files, &wanted)
}

// A text that is no tree names no policies.
fn none_named(alloc: Global, fault: &EntryFault) -> Result<Vec<Vec<u8>>, Unread>
    ensures ok { IfOk result (λ policies.
        (fault.now ≢ EntryFault.OutOfMemory) × (policies.items ≡ [])) }
    ensures err { IfErr result (λ reason. reason ≡ Unread.OutOfMemory) }
{
    match fault {
        EntryFault::OutOfMemory => Err(Unread::OutOfMemory),
        _ => Ok(Vec::new(alloc)),
    }
}

// What the policies hold that a tree names.
fn read_tree<F: Files>(alloc: Global, files: &mut F, tree: &[u8]) -> Result<Vec<Vec<u8>>, Unread>
    ensures ok { IfOk result (λ policies.
        ArePoliciesOf (F.contents files.old) tree.now (texts_read policies.items)) }
    ensures err { IfErr result (IsUnreadNamed (F.contents files.old) (TreeNames tree.now)
        (F.faults files.old) (F.faults files.new)) }
{
    match read(alloc, tree) {
        Ok(entries) => read_policies(alloc, files, &entries),
        Err(fault) => none_named(alloc, &fault),
    }
}

/// Adds what the policies hold that the first text names.
pub fn add_policies<F: Files>(
    alloc: Global,
    files: &mut F,
    contents: &mut Vec<Vec<u8>>,
) -> Result<(), Unread>
    requires { length contents.old.items ≡ 2 }
    ensures ok { OnOk result (HasAdded (F.contents files.old)
        (texts_read contents.old.items) (texts_read contents.new.items)) }
    ensures err { let names = NamesPolicies (texts_read contents.old.items) in
        IfErr result (IsUnreadNamed (F.contents files.old) names
        (F.faults files.old) (F.faults files.new)) }
{
    let mut policies = read_tree(alloc, files, &contents[0])?;
    contents.append(&mut policies)?;
    Ok(())
}

// What is written of a reply.
fn report_on(alloc: Global, reply: &DelegateReply) -> Result<Report, OutOfMemory>
    ensures lines { IfOk result (λ report. IsWrittenAs report.body (delegate_lines reply.now)) }
    ensures status { IfOk result (λ report. report.status ≡ status_of_reply reply.now) }
{
    let text = delegate_line(alloc, reply)?;
    let lines = named_line(alloc, "", &text)?;
    Ok(Report {
        body: ReportBody::Lines(lines),
        status: delegate_status(reply),
    })
}

/// What is reported of the contents of its files: of the tree, of the topology, and of the policies that
/// the tree names.
pub fn delegate_report(alloc: Global, contents: &[Vec<u8>]) -> Result<Report, OutOfMemory>
    requires { HasTextForEach (texts_read contents.now) }
    ensures { let is_reply = IsDelegateReply (texts_read contents.now) in
        IfOk result (IsReportWith is_reply delegate_lines status_of_reply) }
{
    match delegate_reply(alloc, &contents[0], &contents[1], &contents[2..]) {
        Ok(reply) => report_on(alloc, &reply),
        Err(OutOfMemory) => Err(OutOfMemory),
    }
}
