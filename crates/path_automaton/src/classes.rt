//! Classes of symbols that a path cannot tell apart, so that one derivative serves a whole class (derivative classes, as Owens,
//! Reppy and Turon have them, 2009).

ghost use Rattle.std.specs.Prelude.{◌≡◌, ℕ, List, length, map, slice_get, Some, Contains};
ghost use Rattle.std.specs.Prelude.{IfOk, MatchOption};
ghost use Rattle.std.specs.List.{AllByRecursion};
ghost use Rattle.merlin_model.specs.declared.policy.Symbol.{Symbol};
ghost use Rattle.merlin_model.specs.declared.policy.Path.{Path};
ghost use Rattle.path_automaton.specs.SeenSymbols.{mentions as mentioned, seen_by as seen};
ghost use Rattle.path_automaton.specs.Classes.{AreClasses};

use merlin_model::OutOfMemory;
use merlin_model::policy::{Path, Symbol};
use sqlite_items::Items;
use std::alloc::Global;

/// A symbol as a path sees it: those that it doesn't name look alike.
#[derive(Clone, Copy, PartialEq, Eq)]
pub enum SeenSymbol {
    Location(usize),
    Function(usize),
    OtherLocation,
    OtherFunction,
}

/// Whether the path names the symbol's function, or its location where it has none.
fn mentions(path: &Path, symbol: Symbol) -> bool
    ensures { result ≡ mentioned path.now symbol }
{
    match path {
        Path::Nothing | Path::Empty | Path::Dot => false,
        Path::Loc(loc) => symbol.fun.is_none() && *loc == symbol.loc,
        Path::Fun(fun) => symbol.fun == Some(*fun),
        Path::Cat(first, rest) => mentions(first.get(), symbol) || mentions(rest.get(), symbol),
        Path::Alt(paths) => {
            for path in paths.as_slice() {
                if mentions(path, symbol) {
                    return true;
                }
            }
            false
        }
        Path::Star(inner) | Path::Not(inner) => mentions(inner.get(), symbol),
    }
}

/// The symbol as the path sees it.
fn seen_by(path: &Path, symbol: Symbol) -> SeenSymbol
    ensures { result ≡ seen path.now symbol }
{
    match (mentions(path, symbol), symbol.fun) {
        (true, None) => SeenSymbol::Location(symbol.loc),
        (true, Some(fun)) => SeenSymbol::Function(fun),
        (false, None) => SeenSymbol::OtherLocation,
        (false, Some(_)) => SeenSymbol::OtherFunction,
    }
}

/// The place of the kind, or none where it has no place.
fn class_of(kinds: &[SeenSymbol], kind: SeenSymbol) -> Option<usize>
    ensures { MatchOption result (¬ Contains kinds.now kind) (λ class.
        slice_get kinds.now class ≡ Some kind) }
{
    for (class, other) in kinds.iter().enumerate() {
        if *other == kind {
            return Some(class);
        }
    }
    None
}

/// The class of each symbol, and the first symbol of each class.
#[derive(Drop)]
pub struct Classes {
    pub numbers: Items<usize>,
    pub firsts: Items<Symbol>,
}

impl Classes {
    /// Symbols that the path sees alike are of one class, and others of different ones. The classes
    /// are numbered by their first symbols.
    pub fn new(alloc: Global, path: &Path, symbols: &[Symbol]) -> Result<Classes, OutOfMemory>
        ensures { IfOk result (AreClasses path.now symbols.now) }
    {
        let mut numbers = Items::new(alloc);
        let mut firsts = Items::new(alloc);
        let mut kinds = Items::new(alloc);
        for symbol in symbols {
            let kind = seen_by(path, *symbol);
            match class_of(kinds.as_slice(), kind) {
                Some(class) => numbers.push(class)?,
                None => {
                    numbers.push(kinds.len())?;
                    kinds.push(kind)?;
                    firsts.push(*symbol)?;
                }
            }
        }
        Ok(Classes { numbers, firsts })
    }
}
