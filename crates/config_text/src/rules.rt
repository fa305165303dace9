//! Rules, lines of middleboxes and queues.

ghost use Rattle.std.specs.Prelude.{◌≡◌, ◌<◌, ◌++◌, ◌∷◌, OnOk, length};
ghost use Rattle.std.specs.List.{All};
ghost use Rattle.config_text.specs.Words.{line as whole_line};
ghost use Rattle.config_text.specs.Lines.{out_text, action_text, actions_text, rule_text, function_name, functions_text, process_text, rate_with_unit, queue_text};

use crate::fields::match_word;
use crate::line::Line;
use crate::lists::{FIRST, NEXT, end_list};
use merlin_base::{Name, OutOfMemory};
use merlin_model::config::{Action, Out, Process, Queue, Rule};
use merlin_model::network::FnDecl;

fn out(line: &mut Line, out: Out) -> Result<(), OutOfMemory>
    ensures { OnOk result (line.new ≡ line.old ++ out_text out) }
{
    match out {
        Out::InPort => line.text(b"in_port"),
        Out::Port(port) => line.number(u64::from(port)),
    }
}

fn set_vlan(line: &mut Line, tag: u16) -> Result<(), OutOfMemory>
    ensures { OnOk result (line.new ≡ line.old ++ action_text (Action.SetVlan tag)) }
{
    line.text(b"set_vlan_vid=")?;
    line.number(u64::from(tag))
}

fn enqueue(line: &mut Line, to: Out, queue: u16) -> Result<(), OutOfMemory>
    ensures { OnOk result (line.new ≡ line.old ++ action_text (Action.Enqueue to queue)) }
{
    line.text(b"enqueue=")?;
    out(line, to)?;
    line.byte(b':')?;
    line.number(u64::from(queue))
}

fn action(line: &mut Line, action: Action) -> Result<(), OutOfMemory>
    ensures { OnOk result (line.new ≡ line.old ++ action_text action) }
{
    match action {
        Action::SetVlan(tag) => set_vlan(line, tag),
        Action::StripVlan => line.text(b"strip_vlan"),
        Action::Output(to) => {
            line.text(b"output=")?;
            out(line, to)
        }
        Action::Enqueue(to, queue) => enqueue(line, to, queue),
    }
}

// An action after what stands before it.
fn listed_action(line: &mut Line, separator: u8, step: Action) -> Result<(), OutOfMemory>
    ensures { OnOk result (line.new ≡ line.old ++ separator ∷ action_text step) }
{
    line.byte(separator)?;
    action(line, step)
}

// One more word: the actions joined by commas, or `drop` where there is none.
fn actions_word(line: &mut Line, actions: &[Action]) -> Result<(), OutOfMemory>
    ensures { OnOk result (line.new ≡ line.old ++ 32 ∷ actions_text actions.now) }
{
    let mut separator = FIRST;
    for step in actions {
        listed_action(line, separator, *step)?;
        separator = NEXT;
    }
    end_list(line, separator, b"drop")
}

/// The line of a rule, from the name of its switch.
pub(crate) fn rule_line(line: &mut Line, location: &Name, rule: &Rule) -> Result<(), OutOfMemory>
    ensures { OnOk result (line.new ≡ whole_line (rule_text location.now rule.now)) }
{
    line.begin(b"rule")?;
    line.word(location.bytes())?;
    line.number_word(u64::from(rule.priority))?;
    match_word(line, &rule.fits)?;
    actions_word(line, rule.actions.as_slice())?;
    line.byte(b'\n')
}

// The name of a function after what stands before it.
fn listed_function(
    line: &mut Line,
    separator: u8,
    declared: &[FnDecl],
    function: usize,
) -> Result<(), OutOfMemory>
    requires { function < length declared.now }
    ensures { OnOk result (line.new ≡
        line.old ++ separator ∷ function_name declared.now function) }
{
    line.byte(separator)?;
    line.text(declared[function].name.bytes())
}

// One more word: the names of functions joined by commas, or `-` where there is none.
fn functions_word(
    line: &mut Line,
    declared: &[FnDecl],
    functions: &[usize],
) -> Result<(), OutOfMemory>
    requires { All (λ function. function < length declared.now) functions.now }
    ensures { OnOk result (line.new ≡ line.old ++ 32 ∷ functions_text declared.now functions.now) }
{
    let mut separator = FIRST;
    for function in functions {
        listed_function(line, separator, declared, *function)?;
        separator = NEXT;
    }
    end_list(line, separator, b"-")
}

/// The line of a middlebox, from its name and the functions that are declared.
pub(crate) fn process_line(
    line: &mut Line,
    location: &Name,
    declared: &[FnDecl],
    process: &Process,
) -> Result<(), OutOfMemory>
    requires { All (λ function. function < length declared.now) process.now.functions }
    ensures { OnOk result (line.new ≡
        whole_line (process_text location.now declared.now process.now)) }
{
    line.begin(b"process")?;
    line.word(location.bytes())?;
    line.number_word(u64::from(process.tag))?;
    line.byte(b' ')?;
    line.mac(process.eth_dst)?;
    functions_word(line, declared, process.functions.as_slice())?;
    line.number_word(u64::from(process.next_tag))?;
    line.number_word(u64::from(process.port))?;
    line.number_word(u64::from(process.queue))?;
    line.byte(b'\n')
}

/// The line of a queue, from the name of its location.
pub(crate) fn queue_line(line: &mut Line, location: &Name, queue: &Queue) -> Result<(), OutOfMemory>
    ensures { OnOk result (line.new ≡ whole_line (queue_text location.now queue.now)) }
{
    line.begin(b"queue")?;
    line.word(location.bytes())?;
    line.number_word(u64::from(queue.port))?;
    line.number_word(u64::from(queue.queue))?;
    line.number_word(queue.rate)?;
    line.text(b"kbit\n")
}
