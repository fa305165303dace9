//! What is reported, handed to a sink line by line.
ghost use Rattle.std.specs.Prelude.{◌≡◌, ◌≤◌, ◌++◌, OnOk, OnErr, IfOk};
ghost use Rattle.std.specs.List.{All};
ghost use Rattle.std.specs.String.{string_bytes};
ghost use Rattle.merlin_base.specs.Outside.{Rose, FailsOnlyIf, Grows, GrowsByPrefix};
ghost use Rattle.merlin_base.specs.Texts.{joined};
ghost use Rattle.config_text.specs.Lines.{config_lines, IsConfigOver};
ghost use Rattle.openflow_wire.specs.Rules.{IsRule};
ghost use Rattle.merlin.specs.Wire.{rules_at, message_line, message_lines};
ghost use Rattle.result_heads.specs.Heads.{certificate_lines};
ghost use Rattle.merlin.specs.Reports.{body_lines, CanBeMade};

use crate::report::ReportBody;
use certificate_text::write_tree;
use config_text::{Config, write_config};
use merlin_base::{Name, OutOfMemory, OutsideFault, Sink, write_all, write_lines};
use merlin_model::certificate::Tree;
use merlin_model::config::Rule;
use openflow_wire::encode;
use std::alloc::Global;
use topology::Topology;

// The line of a rule's message. A message has 32 bits for its number, and no result has as many lines.
fn line_of_message(alloc: Global, rule: &Rule, number: usize) -> Result<String, OutOfMemory>
    requires { IsRule rule.now }
    ensures { IfOk result (λ text. string_bytes text ≡ message_line rule.now number) }
{
    let message = encode(alloc, rule, (number % 0x1_0000_0000) as u32)?;
    let mut digits = hex::encode(alloc, message)?;
    digits.push_str("\n")?;
    Ok(digits)
}

// Hands over the line of a rule's message.
fn write_message<K: Sink>(
    alloc: Global,
    out: &mut K,
    rule: &Rule,
    number: usize,
) -> Result<(), OutsideFault>
    requires { IsRule rule.now }
    ensures ok { let text = message_line rule.now number in
        OnOk result (Grows (K.taken out.old) (K.taken out.new) text) }
    ensures err { let text = message_line rule.now number in
        OnErr result (GrowsByPrefix (K.taken out.old) (K.taken out.new) text) }
    ensures later { K.faults out.old ≤ K.faults out.new }
    ensures failed { FailsOnlyIf result (Rose (K.faults out.old) (K.faults out.new)) }
{
    match line_of_message(alloc, rule, number) {
        Ok(text) => write_all(out, text.as_bytes()),
        Err(OutOfMemory) => Err(OutsideFault::OutOfMemory),
    }
}

// Hands over the lines of the messages of a switch's rules.
fn write_messages<K: Sink>(
    alloc: Global,
    out: &mut K,
    switch: usize,
    rules: &[Rule],
) -> Result<(), OutsideFault>
    requires { All IsRule rules.now }
    ensures ok { let lines = message_lines 1 (rules_at switch rules.now) in
        OnOk result (Grows (K.taken out.old) (K.taken out.new) (joined lines)) }
    ensures err { let lines = message_lines 1 (rules_at switch rules.now) in
        OnErr result (GrowsByPrefix (K.taken out.old) (K.taken out.new) (joined lines)) }
    ensures later { K.faults out.old ≤ K.faults out.new }
    ensures failed { FailsOnlyIf result (Rose (K.faults out.old) (K.faults out.new)) }
{
    let mut number = 0;
    for rule in rules {
        if rule.loc == switch {
            number += 1;
            write_message(alloc, out, rule, number)?;
        }
    }
    Ok(())
}

// Hands over first lines and a certificate.
fn write_certified<K: Sink>(
    alloc: Global,
    out: &mut K,
    head: &[Name],
    tree: &Tree,
) -> Result<(), OutsideFault>
    ensures ok { let lines = head.now ++ certificate_lines tree.now in
        OnOk result (Grows (K.taken out.old) (K.taken out.new) (joined lines)) }
    ensures err { let lines = head.now ++ certificate_lines tree.now in
        OnErr result (GrowsByPrefix (K.taken out.old) (K.taken out.new) (joined lines)) }
    ensures later { K.faults out.old ≤ K.faults out.new }
    ensures failed { FailsOnlyIf result (Rose (K.faults out.old) (K.faults out.new)) }
{
    write_lines(out, head)?;
    write_tree(alloc, tree, out)
}

// Hands over first lines and a configuration over a network.
fn write_configured<K: Sink>(
    alloc: Global,
    out: &mut K,
    head: &[Name],
    net: &Topology,
    config: &Config,
) -> Result<(), OutsideFault>
    requires { IsConfigOver net.now config.now }
    ensures ok { let lines = head.now ++ config_lines net.now config.now in
        OnOk result (Grows (K.taken out.old) (K.taken out.new) (joined lines)) }
    ensures err { let lines = head.now ++ config_lines net.now config.now in
        OnErr result (GrowsByPrefix (K.taken out.old) (K.taken out.new) (joined lines)) }
    ensures later { K.faults out.old ≤ K.faults out.new }
    ensures failed { FailsOnlyIf result (Rose (K.faults out.old) (K.faults out.new)) }
{
    write_lines(out, head)?;
    write_config(alloc, config, net, out)
}

// Hands over the whole text of a result.
fn write_result<K: Sink>(
    alloc: Global,
    out: &mut K,
    head: &[Name],
    net: &Topology,
    config: &Config,
    tree: &Tree,
) -> Result<(), OutsideFault>
    requires { IsConfigOver net.now config.now }
    ensures ok { let lines =
        head.now ++ config_lines net.now config.now ++ certificate_lines tree.now in
        OnOk result (Grows (K.taken out.old) (K.taken out.new) (joined lines)) }
    ensures err { let lines =
        head.now ++ config_lines net.now config.now ++ certificate_lines tree.now in
        OnErr result (GrowsByPrefix (K.taken out.old) (K.taken out.new) (joined lines)) }
    ensures later { K.faults out.old ≤ K.faults out.new }
    ensures failed { FailsOnlyIf result (Rose (K.faults out.old) (K.faults out.new)) }
{
    write_configured(alloc, out, head, net, config)?;
    write_tree(alloc, tree, out)
}

/// Hands over all lines of what is reported. No line of a configuration, a certificate or a message is kept.
///
/// # Errors
/// Where the sink fails or memory runs out, a prefix of the text was taken.
pub fn write_body<K: Sink>(
    alloc: Global,
    out: &mut K,
    body: &ReportBody,
) -> Result<(), OutsideFault>
    requires { CanBeMade body.now }
    ensures ok { let lines = body_lines body.now in
        OnOk result (Grows (K.taken out.old) (K.taken out.new) (joined lines)) }
    ensures err { let lines = body_lines body.now in
        OnErr result (GrowsByPrefix (K.taken out.old) (K.taken out.new) (joined lines)) }
    ensures later { K.faults out.old ≤ K.faults out.new }
    ensures failed { FailsOnlyIf result (Rose (K.faults out.old) (K.faults out.new)) }
{
    match body {
        ReportBody::Lines(lines) => write_lines(out, lines),
        ReportBody::Certified { head, tree } => write_certified(alloc, out, head, tree),
        ReportBody::Configured {
            head,
            net,
            config,
            tree,
        } => write_result(alloc, out, head, net, config, tree),
        ReportBody::Configuration { net, config } => write_config(alloc, config, net, out),
        ReportBody::Messages { switch, rules } => write_messages(
            alloc,
            out,
            *switch,
            rules.as_slice(),
        ),
    }
}
