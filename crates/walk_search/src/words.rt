//! Walks as vectors, as tables are made of them.

ghost use Rattle.std.specs.Prelude.{◌≡◌, map, IfOk};

use merlin_model::OutOfMemory;
use merlin_model::policy::Symbol;
use sqlite_items::Items;
use std::alloc::Global;

// A walk as a vector.
fn word_of(alloc: Global, walk: &Items<Symbol>) -> Result<Vec<Symbol>, OutOfMemory>
    ensures { IfOk result (λ word. word.items ≡ walk.now) }
{
    let mut word = Vec::new(alloc);
    word.extend_from_slice(walk.as_slice())?;
    Ok(word)
}

/// Walks as vectors.
pub fn words_of(alloc: Global, walks: &[Items<Symbol>]) -> Result<Vec<Vec<Symbol>>, OutOfMemory>
    ensures { IfOk result (λ words. map (λ w. w.items) words.items ≡ walks.now) }
{
    let mut words = Vec::new(alloc);
    for walk in walks {
        words.push(word_of(alloc, walk)?)?;
    }
    Ok(words)
}
