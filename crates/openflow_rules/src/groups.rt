//! Groups of statements: each guaranteed statement alone, and those of best effort whose paths have
//! one normal form together.

ghost use Rattle.std.specs.Prelude.{ℕ, ◌≡◌, ◌<◌, ◌↔◌, ⊤, length, slice_get, Contains, None, Some};
ghost use Rattle.std.specs.Prelude.{IfOk, OnOk, IsTrue, MatchOption};
ghost use Rattle.std.specs.List.{slice_index_or};
ghost use Rattle.merlin_model.specs.Policies.{Policy, paths_of};
ghost use Rattle.merlin_model.specs.Rates.{IsGuaranteed};
ghost use Rattle.path_regex.specs.Shared.{AddsForms};
ghost use Rattle.configuration_model.specs.Groups.{AreGrouped};
ghost use Rattle.openflow_rules.specs.Kinds.{IsKindOf, AreKinds, IsStatementAdded, AreGroupedBelow};

use merlin_model::OutOfMemory;
use path_regex::forms::Forms;
use policy_check::Checked;
use sqlite_items::Items;
use std::alloc::Global;

/// For each group the statement that stands for it, and for each statement its group, the default's
/// last.
#[derive(Drop)]
pub struct Groups {
    pub leaders: Items<usize>,
    pub group_of: Items<usize>,
}

/// Groups while statements are added, with the kind of each group.
#[derive(Drop)]
pub struct Grouping {
    pub groups: Groups,
    pub kinds: Items<Option<usize>>,
}

/// The rate at a place, 0 where there is none.
fn rate_at(rates: &[u64], place: usize) -> u64
    ensures { result ≡ slice_index_or rates.now place 0 }
{
    match rates.get(place) {
        Some(rate) => *rate,
        None => 0,
    }
}

/// Whether a statement is guaranteed.
fn is_guaranteed(checked: &Checked, statement: usize) -> bool
    ensures { IsTrue result ↔ IsGuaranteed checked.now.policy statement }
{
    rate_at(checked.rates().min.as_slice(), statement) > 0
}

/// The kind of a statement: the number of the normal form of its path, None where it is guaranteed.
fn kind_of(
    alloc: Global,
    forms: &mut Forms,
    checked: &Checked,
    statement: usize,
) -> Result<Option<usize>, OutOfMemory>
    requires { statement < length (paths_of checked.now.policy) }
    ensures grows { AddsForms forms.old forms.new }
    ensures kind { IfOk result (IsKindOf checked.now.policy forms.new statement) }
{
    if is_guaranteed(checked, statement) {
        return Ok(None);
    }
    let form = forms.normal(alloc, checked.path(statement))?;
    Ok(Some(form))
}

/// The kinds of all statements.
fn kinds_of(alloc: Global, checked: &Checked) -> Result<Items<Option<usize>>, OutOfMemory>
    ensures { IfOk result (AreKinds checked.now.policy) }
{
    let mut forms = Forms::new(alloc);
    let mut kinds = Items::new(alloc);
    for statement in 0..checked.statements() {
        let kind = kind_of(alloc, &mut forms, checked, statement)?;
        kinds.push(kind)?;
    }
    // each form has one number
    forms.differ();
    Ok(kinds)
}

/// The group of best effort of this kind.
fn group_with(kinds: &[Option<usize>], kind: usize) -> Option<usize>
    ensures { MatchOption result (¬ Contains kinds.now (Some kind))
        (λ group. slice_get kinds.now group ≡ Some (Some kind)) }
{
    for (group, known) in kinds.iter().enumerate() {
        if *known == Some(kind) {
            return Some(group);
        }
    }
    None
}

/// The group of a statement of this kind, where there is one before it.
fn group_for(kinds: &[Option<usize>], kind: Option<usize>) -> Option<usize>
    ensures { MatchOption result
        (MatchOption kind ⊤ (λ form. ¬ Contains kinds.now (Some form)))
        (λ group. (form : ℕ) × (kind ≡ Some form)
        × (slice_get kinds.now group ≡ Some (Some form))) }
{
    match kind {
        Some(form) => group_with(kinds, form),
        None => None,
    }
}

/// Adds a statement to the group of its kind, or to a new one that it stands for.
fn add_statement(
    grouping: &mut Grouping,
    statement: usize,
    kind: Option<usize>,
) -> Result<(), OutOfMemory>
    ensures { OnOk result (IsStatementAdded statement kind grouping.old grouping.new) }
{
    match group_for(grouping.kinds.as_slice(), kind) {
        Some(group) => grouping.groups.group_of.push(group)?,
        None => {
            let group = grouping.groups.leaders.len();
            grouping.groups.group_of.push(group)?;
            grouping.groups.leaders.push(statement)?;
            grouping.kinds.push(kind)?;
        }
    }
    Ok(())
}

/// The groups of statements of these kinds.
fn group_all(alloc: Global, kinds: &[Option<usize>]) -> Result<Grouping, OutOfMemory>
    ensures { (policy : Policy) → AreKinds policy kinds.now →
        IfOk result (AreGroupedBelow policy kinds.now (length kinds.now)) }
{
    let mut grouping = Grouping {
        groups: Groups {
            leaders: Items::new(alloc),
            group_of: Items::new(alloc),
        },
        kinds: Items::new(alloc),
    };
    for (statement, kind) in kinds.iter().enumerate() {
        add_statement(&mut grouping, statement, *kind)?;
    }
    Ok(grouping)
}

/// The groups of a checked policy, in the order of the statements that stand for them: the first ones
/// of each.
pub fn groups_of(alloc: Global, checked: &Checked) -> Result<Groups, OutOfMemory>
    ensures { IfOk result (λ groups.
        AreGrouped checked.now.policy groups.leaders groups.group_of) }
{
    let kinds = kinds_of(alloc, checked)?;
    let Grouping { groups, kinds: _ } = group_all(alloc, kinds.as_slice())?;
    Ok(groups)
}
