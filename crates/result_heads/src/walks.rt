//! Lines of walks.

ghost use Rattle.std.specs.Prelude.{◌≡◌, ◌++◌, ◌∷◌, [], zip, map, IfOk, OnOk};
ghost use Rattle.std.specs.List.{AllByRecursion};
ghost use Rattle.merlin_model.specs.Words.{IsSymbol};
ghost use Rattle.config_text.specs.Words.{line as whole_line, spaced};
ghost use Rattle.config_text.specs.Result.{symbol_text, walk_text};
ghost use Rattle.result_heads.specs.Heads.{walk_lines};

use merlin_base::{Name, OutOfMemory, name_from};
use merlin_model::policy::Symbol;
use sqlite_items::Items;
use std::alloc::Global;
use topology::Topology;

// Adds a symbol after a space: the name of its location, and of the function that runs there.
fn push_symbol(line: &mut Vec<u8>, net: &Topology, symbol: Symbol) -> Result<(), OutOfMemory>
    requires { IsSymbol net.now symbol }
    ensures { OnOk result (line.new.items ≡ line.old.items ++ 32 ∷ symbol_text net.now symbol) }
{
    line.push(b' ')?;
    line.extend_from_slice(net.name(symbol.loc).bytes())?;
    if let Some(function) = symbol.fun {
        line.push(b':')?;
        line.extend_from_slice(net.functions()[function].name.bytes())?;
    }
    Ok(())
}

// Adds the symbols of a walk, each after a space.
fn push_symbols(line: &mut Vec<u8>, net: &Topology, walk: &[Symbol]) -> Result<(), OutOfMemory>
    requires { AllByRecursion (IsSymbol net.now) walk.now }
    ensures { OnOk result (line.new.items ≡
        line.old.items ++ spaced (map (symbol_text net.now) walk.now)) }
{
    let mut rest = walk;
    'symbols: while let [symbol, ..] = rest {
        push_symbol(line, net, *symbol)?;
        rest = &rest[1..];
    }
    Ok(())
}

// The line of a walk, beside the id of its statement.
fn walk_line(alloc: Global, net: &Topology, id: &Name, walk: &[Symbol]) -> Result<Name, OutOfMemory>
    requires { AllByRecursion (IsSymbol net.now) walk.now }
    ensures { IfOk result (λ line. line ≡ whole_line (walk_text net.now (id.now, walk.now))) }
{
    let mut line = Vec::from_slice(alloc, b"walk ")?;
    line.extend_from_slice(id.bytes())?;
    push_symbols(&mut line, net, walk)?;
    line.push(b'\n')?;
    name_from(alloc, &line)
}

/// Adds the lines of walks, each beside the id of its statement.
pub(crate) fn push_walks(
    alloc: Global,
    lines: &mut Vec<Name>,
    net: &Topology,
    ids: &[Name],
    walks: &[Items<Symbol>],
) -> Result<(), OutOfMemory>
    requires { AllByRecursion (AllByRecursion (IsSymbol net.now)) walks.now }
    ensures { OnOk result (lines.new.items ≡
        lines.old.items ++ walk_lines net.now (zip ids.now walks.now)) }
{
    let mut ids_left = ids;
    let mut walks_left = walks;
    'walks: while let [walk, ..] = walks_left {
        let [id, ..] = ids_left else {
            return Ok(());
        };
        lines.push(walk_line(alloc, net, id, walk.as_slice())?)?;
        ids_left = &ids_left[1..];
        walks_left = &walks_left[1..];
    }
    Ok(())
}
