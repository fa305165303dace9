//! The automata of the paths of a policy, one for each normal form among them: the states of a path are those of its normal form, so
//! that statements whose paths have one normal form share an automaton.

ghost use Rattle.std.specs.Prelude.{◌≡◌, ◌∷◌, ◌++◌, [], List, Option, Err, slice_get, position, length, IfOk, IfErr, OnOk};
ghost use Rattle.std.specs.Ordering.{is_eq};
ghost use Rattle.merlin_model.specs.declared.policy.Path.{Path};
ghost use Rattle.path_regex.specs.Order.{order};
ghost use Rattle.path_automaton.specs.Built.{IsBuilt};
ghost use Rattle.policy_check.specs.Sharing.{IsTableOf, ShareAutomata, IsNumberFor, IsFaultOfPath, IsLargeAmong};

use crate::fault::CheckFault;
use merlin_model::policy::{Path, Symbol};
use merlin_model::{Name, OutOfMemory};
use path_automaton::{Automaton, AutomatonFault, build};
use path_regex::normal;
use path_regex::order::compare;
use sqlite_items::Items;
use std::alloc::Global;

// The normal forms of some paths, with the automaton of each, and for each path the number of its normal form.
#[derive(Drop)]
pub(crate) struct Automata {
    pub(crate) forms: Items<Path>,
    pub(crate) built: Items<Automaton>,
    pub(crate) numbers: Items<usize>,
}

// The number of a path among others.
fn number_of(forms: &[Path], form: &Path) -> Option<usize>
    ensures { result ≡ position (λ other. is_eq (order other form.now)) forms.now }
{
    forms.iter().position(|other| compare(other, form).is_eq())
}

// Adds a normal form and its automaton.
fn add_form(
    alloc: Global,
    automata: &mut Automata,
    form: Path,
    symbols: &[Symbol],
) -> Result<usize, AutomatonFault>
    ensures number { IfOk result (λ number. number ≡ length automata.old.forms) }
    ensures forms { OnOk result (automata.new.forms ≡ automata.old.forms ++ form ∷ []) }
    ensures numbers { OnOk result (automata.new.numbers ≡ automata.old.numbers) }
    ensures built { OnOk result ((table : _) × IsTableOf symbols.now form table
        × (automata.new.built ≡ automata.old.built ++ table ∷ [])) }
    ensures err { IfErr result (λ fault. IsBuilt form symbols.now (Err fault)) }
{
    let number = automata.forms.len();
    let automaton = build(alloc, &form, symbols)?;
    automata.built.push(automaton)?;
    automata.forms.push(form)?;
    Ok(number)
}

// The number of a normal form, which is added where it is new.
fn number_with(
    alloc: Global,
    automata: &mut Automata,
    form: Path,
    symbols: &[Symbol],
) -> Result<usize, AutomatonFault>
    ensures ok { IfOk result (IsNumberFor symbols.now form automata.old automata.new) }
    ensures err { IfErr result (λ fault. IsBuilt form symbols.now (Err fault)) }
{
    match number_of(automata.forms.as_slice(), &form) {
        Some(number) => Ok(number),
        None => add_form(alloc, automata, form, symbols),
    }
}

// Adds a path.
fn add_path(
    alloc: Global,
    automata: &mut Automata,
    path: &Path,
    symbols: &[Symbol],
) -> Result<(), AutomatonFault>
    ensures ok { OnOk result ((paths : List Path) → ShareAutomata symbols.now paths automata.old →
        ShareAutomata symbols.now (paths ++ path.now ∷ []) automata.new) }
    ensures err { IfErr result (λ fault. IsBuilt path.now symbols.now (Err fault)) }
{
    let form = normal(alloc, path)?;
    let number = number_with(alloc, automata, form, symbols)?;
    automata.numbers.push(number)?;
    Ok(())
}

// The id at a place, if there is one.
fn id_at(alloc: Global, ids: &[Name], place: usize) -> Result<Option<Name>, OutOfMemory>
    ensures { IfOk result (λ id. id ≡ slice_get ids.now place) }
{
    match ids.get(place) {
        Some(id) => Ok(Some(id.copy(alloc)?)),
        None => Ok(None),
    }
}

// What the fault of the path at a place is for a policy.
fn fault_at(alloc: Global, ids: &[Name], place: usize, fault: AutomatonFault) -> CheckFault
    ensures { IsFaultOfPath ids.now place fault result }
{
    let AutomatonFault::TooManyStates { count } = fault else {
        return CheckFault::OutOfMemory;
    };
    match id_at(alloc, ids, place) {
        Ok(id) => CheckFault::TooManyStates { id, count },
        Err(_) => CheckFault::OutOfMemory,
    }
}

// The automata of some paths. The ids are those of the statements that the paths stand in, the default last.
pub(crate) fn automata_of(
    alloc: Global,
    ids: &[Name],
    paths: &[Path],
    symbols: &[Symbol],
) -> Result<Automata, CheckFault>
    ensures ok { IfOk result (ShareAutomata symbols.now paths.now) }
    ensures err { IfErr result (IsLargeAmong ids.now symbols.now paths.now) }
{
    let mut automata = Automata {
        forms: Items::new(alloc),
        built: Items::new(alloc),
        numbers: Items::new(alloc),
    };
    for (place, path) in paths.iter().enumerate() {
        if let Err(fault) = add_path(alloc, &mut automata, path, symbols) {
            return Err(fault_at(alloc, ids, place, fault));
        }
    }
    Ok(automata)
}
