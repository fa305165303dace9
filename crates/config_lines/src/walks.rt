//! Lines of walks.

ghost use Rattle.std.specs.Prelude.{ℕ, ◌≡◌, ◌≢◌, ◌++◌, ◌∷◌, [], map, List, codes, IfOk, IfSome, IfNone};
ghost use Rattle.std.specs.List.{AllByRecursion, join_with_byte};
ghost use Rattle.merlin_model.specs.declared.policy.Symbol.{Symbol as Stated};
ghost use Rattle.merlin_base.specs.Lexemes.{IsIdentifier, Lacks};
ghost use Rattle.config_text.specs.Result.{symbol_text};
ghost use Rattle.config_lines.specs.Parts.{IsLineSymbol};
ghost use Rattle.config_lines.specs.Lines.{walk_line, IsWalkLine};

use crate::processes::function_of;
use crate::words::location_of;
use merlin_base::{Name, cut_before, is_identifier, name_from, split_at_byte, strip_front};
use merlin_model::OutOfMemory;
use merlin_model::policy::Symbol;
use sqlite_items::Items;
use std::alloc::Global;
use topology::Topology;

// The symbol that the word is.
fn read_symbol(net: &Topology, word: &[u8]) -> Option<Symbol>
    ensures some { IfSome result (λ symbol.
        (word.now ≡ symbol_text net.now symbol) × IsLineSymbol net.now symbol) }
    ensures none { IfNone result ((symbol : Stated) → IsLineSymbol net.now symbol →
        word.now ≡ symbol_text net.now symbol → ⊥) }
{
    let Some((place, name)) = split_at_byte(word, b':') else {
        let loc = location_of(net, word)?;
        return Some(Symbol { loc, fun: None });
    };
    let loc = location_of(net, place)?;
    let function = function_of(net, name)?;
    Some(Symbol {
        loc,
        fun: Some(function),
    })
}

// The symbols that the text is, with a blank between them. There is at least one.
fn read_symbols(
    alloc: Global,
    net: &Topology,
    text: &[u8],
) -> Result<Option<Items<Symbol>>, OutOfMemory>
    ensures some { IfOk result (λ o. IfSome o (λ symbols.
        (text.now ≡ join_with_byte 32 (map (symbol_text net.now) symbols))
        × AllByRecursion (IsLineSymbol net.now) symbols × (symbols ≢ []))) }
    ensures none { IfOk result (λ o. IfNone o ((symbols : List Stated) →
        AllByRecursion (IsLineSymbol net.now) symbols → symbols ≢ [] →
        text.now ≡ join_with_byte 32 (map (symbol_text net.now) symbols) → ⊥)) }
{
    let mut symbols = Items::new(alloc);
    let mut rest = text;
    'symbols: loop {
        let (word, behind) = cut_before(rest, b' ');
        let Some(symbol) = read_symbol(net, word) else {
            return Ok(None);
        };
        symbols.push(symbol)?;
        let Some(more) = strip_front(behind, b" ") else {
            return Ok(Some(symbols));
        };
        rest = more;
    }
}

// The id and the symbols of the line with which the text begins, each as it stands there, and what stands behind the line.
fn split_walk(text: &[u8]) -> Option<(&[u8], &[u8], &[u8])>
    ensures some { IfSome result (λ r.
        (text.now ≡ codes "walk " ++ (r.0.now ++ 32 ∷ (r.1.now ++ 10 ∷ r.2.now)))
        × IsIdentifier r.0.now × Lacks 10 r.1.now) }
    ensures none { IfNone result ((id symbols rest : List ℕ) → IsIdentifier id →
        text.now ≡ codes "walk " ++ (id ++ 32 ∷ (symbols ++ 10 ∷ rest)) → ⊥) }
{
    let rest = strip_front(text, b"walk ")?;
    let (id, rest) = split_at_byte(rest, b' ')?;
    if !is_identifier(id) {
        return None;
    }
    let (symbols, rest) = split_at_byte(rest, b'\n')?;
    Some((id, symbols, rest))
}

/// The walk, beside the id of its statement, with whose line the text begins, and what stands behind the line. None where it begins with the line
/// of no walk.
pub fn read_walk<'a>(
    alloc: Global,
    net: &Topology,
    text: &'a [u8],
) -> Result<Option<((Name, Items<Symbol>), &'a [u8])>, OutOfMemory>
    ensures some { IfOk result (λ o. IfSome o (λ r.
        (text.now ≡ walk_line net.now r.0 ++ r.1.now) × IsWalkLine net.now r.0)) }
    ensures none { IfOk result (λ o. IfNone o ((walk : List ℕ × List Stated) (rest : List ℕ) →
        IsWalkLine net.now walk → text.now ≡ walk_line net.now walk ++ rest → ⊥)) }
{
    let Some((id, words, rest)) = split_walk(text) else {
        return Ok(None);
    };
    let Some(symbols) = read_symbols(alloc, net, words)? else {
        return Ok(None);
    };
    let id = name_from(alloc, id)?;
    Ok(Some(((id, symbols), rest)))
}
