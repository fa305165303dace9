//! The first name of a path that is at fault, in the order of the text.

ghost use Rattle.std.specs.Prelude.{◌≡◌, slice_get};
ghost use Rattle.std.specs.List.{flat_map};
ghost use Rattle.std.specs.Option.{option_copied};
ghost use Rattle.policy_names.specs.Names.{faulty_in};
ghost use Rattle.policy_names.specs.Meanings.{meaning_in};

use crate::names::{Meanings, is_at_fault};
use merlin_model::Name;
use policy_grammar::written::RawPath;

// The first name at fault in a path. Under a `!` functions are at fault.
#[cycle(first_faulty)]
pub(crate) fn first_faulty<'p>(
    names: &Meanings<'_>,
    negated: bool,
    path: &'p RawPath,
) -> Option<&'p Name>
    ensures { option_copied result ≡
        slice_get (faulty_in (meaning_in names.now) negated path.now) 0 }
{
    match path {
        RawPath::Dot => None,
        RawPath::Named { name, .. } => {
            if is_at_fault(names, name, negated) {
                Some(name)
            } else {
                None
            }
        }
        RawPath::Cat(parts) => first_among(names, negated, parts.as_slice()),
        RawPath::Alt(parts) => first_among(names, negated, parts.as_slice()),
        RawPath::Star(part) => first_faulty(names, negated, part.get()),
        RawPath::Not(part) => first_faulty(names, true, part.get()),
    }
}

// The first name at fault in some paths.
#[cycle(first_faulty)]
fn first_among<'p>(names: &Meanings<'_>, negated: bool, parts: &'p [RawPath]) -> Option<&'p Name>
    ensures { option_copied result ≡
        slice_get (flat_map (faulty_in (meaning_in names.now) negated) parts.now) 0 }
{
    for part in parts {
        if let Some(name) = first_faulty(names, negated, part) {
            return Some(name);
        }
    }
    None
}
