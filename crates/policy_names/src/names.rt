//! What each name of a network stands for, in a tree that is ordered by the names.

ghost use Rattle.std.specs.Prelude.{◌≡◌, List, ℕ, IfOk, OnOk, Some, None, is_some, bytes_eq, if◌then◌else◌};
ghost use Rattle.std.specs.Option.{option_or};
ghost use Rattle.policy_grammar.specs.NumberedPaths.{place_or_none};
ghost use Rattle.policy_names.specs.Names.{meaning_of, is_faulty_at};
ghost use Rattle.policy_names.specs.Meanings.{meaning_held, meaning_in, location_called, function_called};

use merlin_model::policy::Path;
use merlin_model::{Name, OutOfMemory};
use std::alloc::Global;
use std::collections::BTreeMap;
use topology::{FnDecl, Topology};

// What a name stands for: a location, or a function wherever it runs.
#[derive(Clone, Copy)]
pub(crate) enum Meaning {
    Location(usize),
    Function(usize),
}

// The meanings of names.
pub(crate) type Meanings<'a> = BTreeMap<&'a [u8], Meaning>;

// The meanings of all names of a network.
pub(crate) fn meanings<'a>(alloc: Global, net: &'a Topology) -> Result<Meanings<'a>, OutOfMemory>
    ensures { IfOk result (λ names. (name : List ℕ) →
        meaning_in names name ≡ meaning_of net.now name) }
{
    let mut names = BTreeMap::new(alloc);
    add_locations(&mut names, net)?;
    add_functions(&mut names, net.functions())?;
    Ok(names)
}

// Adds a name, unless it has a meaning.
fn add<'a>(names: &mut Meanings<'a>, name: &'a [u8], meaning: Meaning) -> Result<(), OutOfMemory>
    ensures { OnOk result ((other : List ℕ) → meaning_held names.new other
        ≡ option_or (meaning_held names.old other)
        (if bytes_eq name.now other then Some meaning else None)) }
{
    if !names.contains_key(name) {
        let _ = names.insert(name, meaning)?;
    }
    Ok(())
}

fn add_locations<'a>(names: &mut Meanings<'a>, net: &'a Topology) -> Result<(), OutOfMemory>
    ensures { OnOk result ((other : List ℕ) → meaning_held names.new other
        ≡ option_or (meaning_held names.old other) (location_called net.now.locations other)) }
{
    for loc in 0..net.locations() {
        add(names, net.name(loc).bytes(), Meaning::Location(loc))?;
    }
    Ok(())
}

fn add_functions<'a>(names: &mut Meanings<'a>, functions: &'a [FnDecl]) -> Result<(), OutOfMemory>
    ensures { OnOk result ((other : List ℕ) → meaning_held names.new other
        ≡ option_or (meaning_held names.old other) (function_called functions.now other)) }
{
    for (number, function) in functions.iter().enumerate() {
        add(names, function.name.bytes(), Meaning::Function(number))?;
    }
    Ok(())
}

// The path to what a name stands for; nothing where it stands for nothing.
pub(crate) fn path_of(names: &Meanings<'_>, name: &Name) -> Path
    ensures { result ≡ place_or_none (meaning_in names.now name.now) }
{
    match names.get(name.bytes()) {
        None => Path::Nothing,
        Some(Meaning::Location(loc)) => Path::Loc(*loc),
        Some(Meaning::Function(fun)) => Path::Fun(*fun),
    }
}

// Whether a name stands for something.
pub(crate) fn is_known(names: &Meanings<'_>, name: &Name) -> bool
    ensures { result ≡ is_some (meaning_in names.now name.now) }
{
    names.contains_key(name.bytes())
}

// Whether a name is at fault: it stands for nothing, or for a function under a `!`.
pub(crate) fn is_at_fault(names: &Meanings<'_>, name: &Name, negated: bool) -> bool
    ensures { result ≡ is_faulty_at negated (meaning_in names.now name.now) }
{
    match names.get(name.bytes()) {
        None => true,
        Some(Meaning::Location(_)) => false,
        Some(Meaning::Function(_)) => negated,
    }
}
