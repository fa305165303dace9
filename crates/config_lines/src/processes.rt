//! Lines of middleboxes.

ghost use Rattle.std.specs.Prelude.{ℕ, ◌≡◌, ◌<◌, ◌++◌, List, length, IfOk, IfSome, IfNone};
ghost use Rattle.std.specs.List.{AllByRecursion};
ghost use Rattle.merlin_model.specs.declared.config.Process.{Process as Stated};
ghost use Rattle.config_text.specs.Lines.{function_name, functions_text};
ghost use Rattle.config_lines.specs.Words.{IsLineFunction};
ghost use Rattle.config_lines.specs.Lines.{process_line, IsProcessLine};
ghost use Rattle.config_lines.specs.Frames.{frame_text, IsFrame};

use crate::addresses::mac_then;
use crate::limits::{MAX_QUEUE, MAX_TAG};
use crate::words::{GREATEST_PORT, location_then, short_then};
use merlin_base::{cut_before, is_identifier, split_at_byte, strip_front};
use merlin_model::OutOfMemory;
use merlin_model::config::Process;
use merlin_model::network::FnDecl;
use sqlite_items::Items;
use std::alloc::Global;
use topology::Topology;

// The first function of this name.
fn place_of(declared: &[FnDecl], name: &[u8]) -> Option<usize>
    ensures some { IfSome result (λ f.
        (f < length declared.now) × (function_name declared.now f ≡ name.now)) }
    ensures none { IfNone result ((f : ℕ) → f < length declared.now →
        function_name declared.now f ≡ name.now → ⊥) }
{
    for (place, function) in declared.iter().enumerate() {
        if function.name.bytes() == name {
            return Some(place);
        }
    }
    None
}

/// The packet function that the word names.
pub(crate) fn function_of(net: &Topology, word: &[u8]) -> Option<usize>
    ensures some { IfSome result (λ f.
        (word.now ≡ function_name net.now.functions f) × IsLineFunction net.now f) }
    ensures none { IfNone result ((f : ℕ) → IsLineFunction net.now f →
        word.now ≡ function_name net.now.functions f → ⊥) }
{
    if !is_identifier(word) {
        return None;
    }
    place_of(net.functions(), word)
}

// The functions that the word names: `-` for none, else their names joined by commas.
fn read_functions(
    alloc: Global,
    net: &Topology,
    word: &[u8],
) -> Result<Option<Items<usize>>, OutOfMemory>
    ensures some { IfOk result (λ o. IfSome o (λ fs.
        (word.now ≡ functions_text net.now.functions fs)
        × AllByRecursion (IsLineFunction net.now) fs)) }
    ensures none { IfOk result (λ o. IfNone o ((fs : List ℕ) →
        AllByRecursion (IsLineFunction net.now) fs →
        word.now ≡ functions_text net.now.functions fs → ⊥)) }
{
    let mut functions = Items::new(alloc);
    if word == b"-".as_slice() {
        return Ok(Some(functions));
    }
    let mut rest = word;
    'names: loop {
        let (name, behind) = cut_before(rest, b',');
        let Some(function) = function_of(net, name) else {
            return Ok(None);
        };
        functions.push(function)?;
        let Some(more) = strip_front(behind, b",") else {
            return Ok(Some(functions));
        };
        rest = more;
    }
}

/// A line of a middlebox whose functions are still a word.
#[derive(Clone, Copy)]
pub struct Frame<'a> {
    pub loc: usize,
    pub tag: u16,
    pub eth_dst: u64,
    pub names: &'a [u8],
    pub next_tag: u16,
    pub port: u16,
    pub queue: u16,
}

// The line with which the text begins, with its functions as they stand there, and what stands behind the line.
fn read_frame<'a>(net: &Topology, text: &'a [u8]) -> Option<(Frame<'a>, &'a [u8])>
    ensures some { IfSome result (λ r. (text.now ≡ frame_text net.now r.0 r.1.now)
        × IsFrame net.now r.0) }
    ensures none { IfNone result ((process : Stated) (rest : List ℕ) →
        IsProcessLine net.now process →
        text.now ≡ process_line net.now process ++ rest → ⊥) }
{
    let rest = strip_front(text, b"process ")?;
    let (loc, rest) = location_then(net, rest)?;
    let (tag, rest) = short_then(rest, b' ', 1, MAX_TAG)?;
    let (eth_dst, rest) = mac_then(rest)?;
    let (names, rest) = split_at_byte(rest, b' ')?;
    let (next_tag, rest) = short_then(rest, b' ', 1, MAX_TAG)?;
    let (port, rest) = short_then(rest, b' ', 1, GREATEST_PORT)?;
    let (queue, rest) = short_then(rest, b'\n', 0, MAX_QUEUE)?;
    let frame = Frame {
        loc,
        tag,
        eth_dst,
        names,
        next_tag,
        port,
        queue,
    };
    Some((frame, rest))
}

/// The line of a middlebox with which the text begins, and what stands behind it. None where it begins with no such line.
pub fn read_process<'a>(
    alloc: Global,
    net: &Topology,
    text: &'a [u8],
) -> Result<Option<(Process, &'a [u8])>, OutOfMemory>
    ensures some { IfOk result (λ o. IfSome o (λ r.
        (text.now ≡ process_line net.now r.0 ++ r.1.now) × IsProcessLine net.now r.0)) }
    ensures none { IfOk result (λ o. IfNone o ((process : Stated) (rest : List ℕ) →
        IsProcessLine net.now process →
        text.now ≡ process_line net.now process ++ rest → ⊥)) }
{
    let Some((frame, rest)) = read_frame(net, text) else {
        return Ok(None);
    };
    let Some(functions) = read_functions(alloc, net, frame.names)? else {
        return Ok(None);
    };
    let process = Process {
        loc: frame.loc,
        tag: frame.tag,
        eth_dst: frame.eth_dst,
        functions,
        next_tag: frame.next_tag,
        port: frame.port,
        queue: frame.queue,
    };
    Ok(Some((process, rest)))
}
