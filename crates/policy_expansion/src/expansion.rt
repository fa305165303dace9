//! The policy that a policy as it is written stands for.
ghost use Rattle.std.specs.Prelude.{◌≡◌, [], None, IfOk, IfErr};
ghost use Rattle.policy_expansion.specs.WrittenOut.{without_formula, statements_of};
ghost use Rattle.policy_expansion.specs.Faults.{fault_of, IsFault};
ghost use Rattle.policy_expansion.specs.Expansion.{IsExpansion};
ghost use Rattle.policy_expansion.specs.Adding.{Adds};

use crate::faults::{ask_count, ask_ids, ask_kinds, ask_names};
use crate::policy::{ExpansionFault, Policy};
use crate::sets::sets_of;
use crate::writing::{Written, write_out};
use policy_grammar::written::{Item, RawPath, WrittenPolicy, WrittenSet};
use rate_formula::Formula;
use sqlite_items::Items;
use std::alloc::Global;

/// The policy that this one stands for: its sets and each `foreach` are written out, and limits of statements are terms.
/// Else the first fault, kind by kind: two sets of one name, a set with addresses of both kinds, a name that no set bears,
/// more than 4,096 statements with the default, or two statements of one id.
pub fn expand(alloc: Global, written: WrittenPolicy) -> Result<Policy, ExpansionFault>
    ensures { IsExpansion written result }
{
    let WrittenPolicy {
        sets,
        items,
        default_path,
        terms,
    } = written;
    let whole = lawful_statements(alloc, sets.as_slice(), items, &default_path)?;
    let mut all_terms = whole.terms;
    all_terms.append(terms)?;
    Ok(Policy {
        statements: whole.statements,
        default_path,
        formula: Formula { terms: all_terms },
    })
}

// The statements with the terms of their limits, if there is no fault.
fn lawful_statements(
    alloc: Global,
    sets: &[WrittenSet],
    items: Items<Item>,
    default_path: &Option<RawPath>,
) -> Result<Written, ExpansionFault>
    ensures ok { IfOk result (λ whole.
        (fault_of (without_formula sets.now items default_path.now) ≡ None) ×
        Adds (record { statements = []; terms = [] }) whole
        (statements_of (without_formula sets.now items default_path.now))) }
    ensures err { IfErr result (IsFault
        (fault_of (without_formula sets.now items default_path.now))) }
{
    let known = sets_of(alloc, sets)?;
    ask_kinds(alloc, sets)?;
    let list = items.as_slice();
    ask_names(alloc, &known, list)?;
    ask_count(&known, list, default_path)?;
    let whole = write_out(alloc, &known, items)?;
    ask_ids(alloc, whole.statements.as_slice())?;
    Ok(whole)
}
