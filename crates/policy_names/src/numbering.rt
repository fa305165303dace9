//! Paths over names as paths over the numbers of locations and functions.

ghost use Rattle.std.specs.Prelude.{◌≡◌, IfOk, map};
ghost use Rattle.policy_grammar.specs.NumberedPaths.{in_sequence as sequence_of, numbered as numbered_path};
ghost use Rattle.policy_names.specs.Meanings.{meaning_in};

use crate::names::{Meanings, path_of};
use merlin_model::OutOfMemory;
use merlin_model::policy::Path;
use policy_grammar::written::RawPath;
use sqlite_items::{Boxed, Items};
use std::alloc::Global;

// The path that some paths are one after another.
fn in_sequence(alloc: Global, mut paths: Items<Path>) -> Result<Path, OutOfMemory>
    ensures { IfOk result (λ path. path ≡ sequence_of paths) }
{
    let Some(mut sequence) = paths.pop() else {
        return Ok(Path::Empty);
    };
    while let Some(first) = paths.pop() {
        sequence = Path::Cat(Boxed::new(alloc, first)?, Boxed::new(alloc, sequence)?);
    }
    Ok(sequence)
}

// The same path over what its names stand for.
#[cycle(numbered)]
pub(crate) fn numbered(
    alloc: Global,
    names: &Meanings<'_>,
    path: &RawPath,
) -> Result<Path, OutOfMemory>
    ensures { IfOk result (λ own. own ≡ numbered_path (meaning_in names.now) path.now) }
{
    Ok(match path {
        RawPath::Dot => Path::Dot,
        RawPath::Named { name, .. } => path_of(names, name),
        RawPath::Cat(parts) => in_sequence(alloc, each_numbered(alloc, names, parts.as_slice())?)?,
        RawPath::Alt(parts) => Path::Alt(each_numbered(alloc, names, parts.as_slice())?),
        RawPath::Star(part) => Path::Star(Boxed::new(alloc, numbered(alloc, names, part.get())?)?),
        RawPath::Not(part) => Path::Not(Boxed::new(alloc, numbered(alloc, names, part.get())?)?),
    })
}

// The same paths, in the same order.
#[cycle(numbered)]
fn each_numbered(
    alloc: Global,
    names: &Meanings<'_>,
    parts: &[RawPath],
) -> Result<Items<Path>, OutOfMemory>
    ensures { IfOk result (λ all. all ≡ map (numbered_path (meaning_in names.now)) parts.now) }
{
    let mut all = Items::new(alloc);
    for part in parts {
        all.push(numbered(alloc, names, part)?)?;
    }
    Ok(all)
}
