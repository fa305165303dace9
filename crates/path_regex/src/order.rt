//! The order of paths: that of the words that spell them from the left, each variant as a number before its parts.

ghost use Rattle.std.specs.Prelude.{◌≡◌};
ghost use Rattle.std.specs.Cmp.Lexicographic.{slice_cmp};
ghost use Rattle.path_regex.specs.Order.{rank as rank_of, order};

use merlin_model::policy::Path;
use std::cmp::Ordering;

/// The place of the path's variant, from 1.
fn rank(path: &Path) -> u8
    ensures { result ≡ rank_of path.now }
{
    match path {
        Path::Nothing => 1,
        Path::Empty => 2,
        Path::Dot => 3,
        Path::Loc(_) => 4,
        Path::Fun(_) => 5,
        Path::Cat(_, _) => 6,
        Path::Alt(_) => 7,
        Path::Star(_) => 8,
        Path::Not(_) => 9,
    }
}

/// Compares two paths by their variants, and paths of one variant by their parts.
#[cycle(compare)]
pub fn compare(first: &Path, second: &Path) -> Ordering
    ensures { result ≡ order first.now second.now }
{
    let ranks = rank(first).cmp(&rank(second));
    match first {
        Path::Nothing | Path::Empty | Path::Dot => ranks,
        Path::Loc(first) => match second {
            Path::Loc(second) => first.cmp(second),
            _ => ranks,
        },
        Path::Fun(first) => match second {
            Path::Fun(second) => first.cmp(second),
            _ => ranks,
        },
        Path::Cat(first, rest) => match second {
            Path::Cat(second, others) => match compare(first.get(), second.get()) {
                Ordering::Equal => compare(rest.get(), others.get()),
                decided => decided,
            },
            _ => ranks,
        },
        Path::Alt(paths) => match second {
            Path::Alt(others) => compare_members(paths.as_slice(), others.as_slice()),
            _ => ranks,
        },
        Path::Star(first) => match second {
            Path::Star(second) => compare(first.get(), second.get()),
            _ => ranks,
        },
        Path::Not(first) => match second {
            Path::Not(second) => compare(first.get(), second.get()),
            _ => ranks,
        },
    }
}

/// Compares two lists of paths by the first place at which they differ; a list comes before what goes on behind it.
#[cycle(compare)]
fn compare_members(paths: &[Path], others: &[Path]) -> Ordering
    ensures { result ≡ slice_cmp order paths.now others.now }
{
    let mut left = others;
    for path in paths {
        let [other, rest @ ..] = left else {
            return Ordering::Greater;
        };
        let members = compare(path, other);
        if members.is_ne() {
            return members;
        }
        left = rest;
    }
    if left.is_empty() {
        Ordering::Equal
    } else {
        Ordering::Less
    }
}
