//! Results: what a text of one stands for, or where it is wrong.
ghost use Rattle.config_text.specs.Lines.{IsConfigOver};

use crate::lines::Lines;
use crate::networks::add_symbol;
use crate::store::{Store, content};
use crate::texts::parted;
use config_read::{ConfigFault, Head, Load, Objective, ResultText, Symbol, read as read_result};
use config_text::print;
use merlin_base::Name;
use merlin_model::config::Config;
use sqlite_items::Items;
use std::alloc::Global;
use topology::{Topology, read as read_topology};

fn objective_word(objective: Objective) -> &'static str {
    match objective {
        Objective::Shortest => "shortest",
        Objective::Ratio => "ratio",
        Objective::Reserved => "reserved",
    }
}

// The line of a walk: the id of its statement, and its symbols by their numbers.
fn add_walk(out: &mut Lines, walk: &(Name, Items<Symbol>)) {
    out.add("walk ");
    out.add_bytes(walk.0.bytes());
    for symbol in walk.1.as_slice() {
        add_symbol(out, *symbol);
    }
    out.add("\n");
}

// The lines of walks and loads, by their numbers.
fn add_lists(out: &mut Lines, walks: &[(Name, Items<Symbol>)], loads: &[Load]) {
    for walk in walks {
        add_walk(out, walk);
    }
    for load in loads {
        out.add("load");
        out.add_numbers(&[
            load.loc as u64,
            u64::from(load.port),
            load.load,
            load.capacity,
        ]);
        out.add("\n");
    }
}

// The lines of a configuration, as they are printed.
fn add_config(alloc: Global, out: &mut Lines, config: &Config, net: &Topology)
    requires { IsConfigOver net.now config.now }
{
    match print(alloc, config, net) {
        Ok(lines) => {
            for line in lines.iter() {
                out.add_bytes(line.bytes());
            }
        }
        Err(_) => out.cut(),
    }
}

// What is asked for, with its value or that there is none.
fn add_value(out: &mut Lines, head: &Head) {
    match head {
        Head::Least {
            objective,
            value,
            ..
        } => {
            out.add(" ok ");
            out.add(objective_word(*objective));
            out.add(" ");
            out.add_bytes(value.bytes());
        }
        Head::Infeasible { objective } => {
            out.add(" infeasible ");
            out.add(objective_word(*objective));
        }
    }
}

// The lines before the configuration.
fn add_head(out: &mut Lines, read: &ResultText) {
    out.add("0\nversion");
    out.add_numbers(&[u64::from(read.version)]);
    add_value(out, &read.head);
    out.add(" nodes at");
    out.add_numbers(&[read.tree_start as u64]);
    out.add("\n");
}

fn add_body(alloc: Global, out: &mut Lines, read: &ResultText, net: &Topology)
    requires { IsConfigOver net.now read.now.config }
{
    if let Head::Least { walks, loads, .. } = &read.head {
        add_lists(out, walks.as_slice(), loads.as_slice());
    }
    add_config(alloc, out, &read.config, net);
}

// What the bytes stand for over a network: all of it, or the lines between the second one and the tree alone.
fn answer(alloc: Global, net: &Topology, bytes: &[u8], asked: Asked, out: &mut Lines) {
    match read_result(alloc, bytes, net) {
        Ok(text) => {
            match asked {
                Asked::Whole => add_head(out, &text),
                Asked::Line => out.add("0\n"),
            }
            add_body(alloc, out, &text, net);
        }
        Err(ConfigFault::BadConfig { at }) => out.answer_at("result", at),
        Err(ConfigFault::OutOfMemory) => out.cut(),
    }
}

/// What is asked of a text.
#[derive(Clone, Copy)]
pub enum Asked {
    /// `result|TOPOLOGY|FILE`: the result that it stands for
    Whole,
    /// `line|TOPOLOGY|FILE`: what the line stands for in a result of version 2, where it begins at 33
    Line,
}

// The line in a result that has no other but those that each result has.
fn with_line(alloc: Global, line: &[u8]) -> Lines {
    let mut text = Lines::new(alloc);
    text.add("merlin 2 ok\nobjective shortest 0\n");
    text.add_bytes(line);
    text.add("\ntree\nleaf\nend\n");
    text
}

fn answer_over(alloc: Global, net: &Topology, content: &[u8], asked: Asked, out: &mut Lines) {
    match asked {
        Asked::Whole => answer(alloc, net, content, asked, out),
        Asked::Line => {
            let text = with_line(alloc, content);
            answer(alloc, net, text.text().as_bytes(), asked, out);
        }
    }
}

/// What is asked of a file over the network of a topology.
pub fn answer_to(alloc: Global, words: &str, store: &Store, asked: Asked, out: &mut Lines) {
    let (topology, file) = parted(words);
    match read_topology(alloc, content(store, topology)) {
        Ok(net) => answer_over(alloc, &net, content(store, file), asked, out),
        Err(_) => out.answer(1, "no topology"),
    }
}
