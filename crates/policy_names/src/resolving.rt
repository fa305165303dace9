//! The paths of a policy over the locations and functions of a topology.

ghost use Rattle.std.specs.Prelude.{◌≡◌, [], ◌∷◌, ◌++◌, IfOk, IfErr, OnOk, map};
ghost use Rattle.std.specs.Option.{option_to_list};
ghost use Rattle.policy_grammar.specs.NumberedPaths.{numbered as numbered_path};
ghost use Rattle.policy_names.specs.Names.{meaning_of, raw_paths, name_faults, IsFirstFault};
ghost use Rattle.policy_names.specs.Meanings.{meaning_in};

use crate::fault::NameFault;
use crate::faulty::first_faulty;
use crate::names::{Meanings, is_known, meanings};
use crate::numbering::numbered;
use merlin_model::policy::Path;
use policy_expansion::Policy;
use policy_grammar::written::RawPath;
use sqlite_items::Items;
use std::alloc::Global;
use topology::Topology;

/// The paths of the statements, in order, and that of the default last, over the numbers of the locations and functions that their names stand for. Otherwise the first name, in
/// the order of the text, that stands for nothing or for a function under a `!`.
pub fn numbered_paths(
    alloc: Global,
    policy: &Policy,
    net: &Topology,
) -> Result<Items<Path>, NameFault>
    ensures ok { IfOk result (λ paths.
        (name_faults (meaning_of net.now) (raw_paths policy.now) ≡ [])
        × (paths ≡ map (numbered_path (meaning_of net.now)) (raw_paths policy.now))) }
    ensures err { IfErr result (IsFirstFault
        (name_faults (meaning_of net.now) (raw_paths policy.now))) }
{
    let names = meanings(alloc, net)?;
    let mut paths = Items::new(alloc);
    for statement in policy.statements.as_slice() {
        add_path(alloc, &mut paths, &names, &statement.path)?;
    }
    add_default(alloc, &mut paths, &names, &policy.default_path)?;
    Ok(paths)
}

// Adds the path of the default, if there is one, and if no name of it is at fault.
fn add_default(
    alloc: Global,
    paths: &mut Items<Path>,
    names: &Meanings<'_>,
    default: &Option<RawPath>,
) -> Result<(), NameFault>
    ensures ok { OnOk result
        ((name_faults (meaning_in names.now) (option_to_list default.now) ≡ []) × (paths.new ≡
        paths.old ++ map (numbered_path (meaning_in names.now)) (option_to_list default.now))) }
    ensures err { IfErr result (IsFirstFault
        (name_faults (meaning_in names.now) (option_to_list default.now))) }
{
    match default {
        Some(path) => add_path(alloc, paths, names, path),
        None => Ok(()),
    }
}

// Adds a path, if no name of it is at fault.
fn add_path(
    alloc: Global,
    paths: &mut Items<Path>,
    names: &Meanings<'_>,
    path: &RawPath,
) -> Result<(), NameFault>
    ensures ok { OnOk result ((name_faults (meaning_in names.now) (path.now ∷ []) ≡ [])
        × (paths.new ≡ paths.old ++ numbered_path (meaning_in names.now) path.now ∷ [])) }
    ensures err { IfErr result (IsFirstFault (name_faults (meaning_in names.now) (path.now ∷ []))) }
{
    ask_names(alloc, names, path)?;
    paths.push(numbered(alloc, names, path)?)?;
    Ok(())
}

// Asks that no name of a path is at fault.
fn ask_names(alloc: Global, names: &Meanings<'_>, path: &RawPath) -> Result<(), NameFault>
    ensures ok { OnOk result (name_faults (meaning_in names.now) (path.now ∷ []) ≡ []) }
    ensures err { IfErr result (IsFirstFault (name_faults (meaning_in names.now) (path.now ∷ []))) }
{
    let Some(faulty) = first_faulty(names, false, path) else {
        return Ok(());
    };
    let name = faulty.copy(alloc)?;
    Err(if is_known(names, faulty) {
        NameFault::FunctionUnderNot { name }
    } else {
        NameFault::UnknownName { name }
    })
}
