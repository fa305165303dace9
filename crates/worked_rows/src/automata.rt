//! Automata of paths over named symbols. A name of a list of symbols such as `m1` is a location, and `m1:dpi` is that location, which stands in the
//! list too, with the function dpi that runs there. A location's number is its place, and a function's that of the first name which it stands in.

use crate::lines::Lines;
use crate::policies::Asked;
use crate::store::{Store, content};
use crate::texts::{parted, text_of, verdict};
use merlin_base::OutOfMemory;
use merlin_model::policy::{Path, Symbol};
use path_automaton::{Automaton, AutomatonFault, build};
use policy_grammar::written::RawPath;
use policy_parser::Policy;
use sqlite_items::{Boxed, Items};
use std::alloc::Global;

// The location of a symbol's name, and its function, which is empty where it has none.
fn halves(word: &str) -> (&str, &str) {
    word.split_once(':').unwrap_or((word, ""))
}

// The place of a name in a list of symbols.
fn place_of(symbols: &str, name: &str) -> Option<usize> {
    for (place, word) in symbols.split(' ').enumerate() {
        if word == name {
            return Some(place);
        }
    }
    None
}

// The place of the first name in a list of symbols that has this function.
fn place_of_function(symbols: &str, name: &str) -> Option<usize> {
    for (place, word) in symbols.split(' ').enumerate() {
        if halves(word).1 == name {
            return Some(place);
        }
    }
    None
}

fn symbol_of(symbols: &str, word: &str) -> Symbol {
    let (loc, fun) = halves(word);
    let loc = place_of(symbols, loc).unwrap_or(usize::MAX);
    let fun = if fun == "" {
        None
    } else {
        place_of_function(symbols, fun)
    };
    Symbol { loc, fun }
}

fn symbols_of(alloc: Global, symbols: &str) -> Result<Vec<Symbol>, OutOfMemory> {
    let mut all = Vec::new(alloc);
    for word in symbols.split(' ') {
        all.push(symbol_of(symbols, word))?;
    }
    Ok(all)
}

// The path of a name: of a location, of a function, or of no word where it is neither.
fn path_of_name(symbols: &str, name: &str) -> Path {
    match (place_of(symbols, name), place_of_function(symbols, name)) {
        (Some(loc), _) => Path::Loc(loc),
        (None, Some(fun)) => Path::Fun(fun),
        (None, None) => Path::Nothing,
    }
}

fn star(alloc: Global, path: Path) -> Result<Path, OutOfMemory> {
    Ok(Path::Star(Boxed::new(alloc, path)?))
}

fn complement(alloc: Global, path: Path) -> Result<Path, OutOfMemory> {
    Ok(Path::Not(Boxed::new(alloc, path)?))
}

fn cat(alloc: Global, first: Path, next: Path) -> Result<Path, OutOfMemory> {
    Ok(Path::Cat(Boxed::new(alloc, first)?, Boxed::new(alloc, next)?))
}

#[cycle(path_of)]
fn path_of(alloc: Global, symbols: &str, path: &RawPath) -> Result<Path, OutOfMemory> {
    match path {
        RawPath::Dot => Ok(Path::Dot),
        RawPath::Named { name, .. } => Ok(path_of_name(symbols, text_of(name.bytes()))),
        RawPath::Cat(parts) => sequence_of(alloc, symbols, parts.as_slice()),
        RawPath::Alt(parts) => choice_of(alloc, symbols, parts.as_slice()),
        RawPath::Star(part) => star(alloc, path_of(alloc, symbols, part.get())?),
        RawPath::Not(part) => complement(alloc, path_of(alloc, symbols, part.get())?),
    }
}

#[cycle(path_of)]
fn sequence_of(alloc: Global, symbols: &str, parts: &[RawPath]) -> Result<Path, OutOfMemory> {
    let mut whole = Path::Empty;
    for part in parts {
        whole = cat(alloc, whole, path_of(alloc, symbols, part)?)?;
    }
    Ok(whole)
}

#[cycle(path_of)]
fn choice_of(alloc: Global, symbols: &str, parts: &[RawPath]) -> Result<Path, OutOfMemory> {
    let mut paths = Items::new(alloc);
    for part in parts {
        paths.push(path_of(alloc, symbols, part)?)?;
    }
    Ok(Path::Alt(paths))
}

// The path of the default of a policy.
fn default_path_of(alloc: Global, symbols: &str, policy: &Policy) -> Result<Path, OutOfMemory> {
    match &policy.default_path {
        Some(path) => path_of(alloc, symbols, path),
        None => Ok(Path::Nothing),
    }
}

// The line of a state: the states after each symbol, and whether it accepts and lives.
fn add_state(out: &mut Lines, automaton: &Automaton, state: usize) {
    if automaton.states() <= state {
        return;
    }
    out.add_number(state as u64);
    out.add(":");
    for symbol in 0..automaton.symbols() {
        out.add_numbers(&[automaton.step(state, symbol) as u64]);
    }
    if automaton.accepts(state) {
        out.add(" accepts");
    }
    if automaton.live(state) {
        out.add(" lives");
    }
    out.add("\n");
}

fn add_states(out: &mut Lines, automaton: &Automaton) {
    out.add("0\n");
    for state in 0..automaton.states() {
        add_state(out, automaton, state);
    }
}

// Status, and a number of states.
fn answer_count(out: &mut Lines, status: u64, count: u64) {
    out.add_number(status);
    out.add("\n");
    out.add_number(count);
    out.add(" states\n");
}

// The state after a symbol, which is given by its name.
fn after(automaton: &Automaton, state: usize, symbols: &str, name: &str) -> Option<usize> {
    let symbol = place_of(symbols, name)?;
    if state < automaton.states() && symbol < automaton.symbols() {
        Some(automaton.step(state, symbol))
    } else {
        None
    }
}

// The state after a word, whose symbols blanks part.
fn after_word(automaton: &Automaton, symbols: &str, word: &str) -> Option<usize> {
    let mut state = 0;
    for name in word.split(' ') {
        if name != "" {
            state = after(automaton, state, symbols, name)?;
        }
    }
    Some(state)
}

fn accepts(automaton: &Automaton, symbols: &str, word: &str) -> bool {
    match after_word(automaton, symbols, word) {
        Some(state) => state < automaton.states() && automaton.accepts(state),
        None => false,
    }
}

fn add_verdicts(out: &mut Lines, automaton: &Automaton, symbols: &str, words: &str) {
    out.add("0\n");
    for word in words.lines() {
        out.add(verdict(accepts(automaton, symbols, word)));
        out.add(": ");
        out.add(word);
        out.add("\n");
    }
}

// What is asked of an automaton; the words are those of a file.
fn answer(automaton: &Automaton, asked: Asked, symbols: &str, words: &str, out: &mut Lines) {
    match asked {
        Asked::Table => add_states(out, automaton),
        Asked::Accepts => add_verdicts(out, automaton, symbols, words),
        _ => answer_count(out, 0, automaton.states() as u64),
    }
}

// What is answered of the automaton of a path over symbols.
fn of_symbols(
    alloc: Global,
    path: &Path,
    all: &[Symbol],
    asked: Asked,
    symbols: &str,
    words: &str,
    out: &mut Lines,
) {
    match build(alloc, path, all) {
        Ok(automaton) => answer(&automaton, asked, symbols, words, out),
        Err(AutomatonFault::TooManyStates { count }) => answer_count(out, 1, count),
        Err(AutomatonFault::OutOfMemory) => out.cut(),
    }
}

// The same over the symbols of these names.
fn of_path(alloc: Global, path: &Path, asked: Asked, symbols: &str, words: &str, out: &mut Lines) {
    match symbols_of(alloc, symbols) {
        Ok(all) => of_symbols(alloc, path, &all, asked, symbols, words, out),
        Err(_) => out.cut(),
    }
}

/// What is asked of the automaton of a policy's default path over symbols.
pub fn answer_to(
    alloc: Global,
    policy: &Policy,
    asked: Asked,
    words: &str,
    store: &Store,
    out: &mut Lines,
) {
    let (symbols, file) = parted(words);
    let words = text_of(content(store, file));
    match default_path_of(alloc, symbols, policy) {
        Ok(path) => of_path(alloc, &path, asked, symbols, words, out),
        Err(_) => out.cut(),
    }
}
