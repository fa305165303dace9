//! Policies with the localised rates of their statements, and such policies as they are written.

ghost use Rattle.std.specs.Prelude.{◌≡◌, ◌++◌, IfOk, OnOk};
ghost use Rattle.localise.specs.Localised.{localised};
ghost use Rattle.policy_check.specs.Rules.{listed_ids};
ghost use Rattle.refinement_model.specs.Localised.{localised_term};
ghost use Rattle.delegation.specs.NamedJoins.{rated_policy, rate_terms, written_policy};

use localise::Rates;
use merlin_model::policy::{Bound, Part, Term};
use merlin_model::{Name, OutOfMemory};
use policy_expansion::{Policy, Statement};
use policy_grammar::written::RawPath;
use rate_formula::Formula;
use sqlite_items::Items;
use std::alloc::Global;

/// A statement with its localised rates in kbit/s: it uses at most the cap, if there is one, and at least the guarantee.
#[derive(Drop)]
pub struct RatedStatement {
    pub(crate) statement: Statement,
    pub(crate) cap: Option<u64>,
    pub(crate) guarantee: u64,
}

/// The statements of a policy with their rates, and its default.
#[derive(Drop)]
pub struct RatedPolicy {
    pub(crate) statements: Items<RatedStatement>,
    pub(crate) default_path: Option<RawPath>,
}

// An equal statement.
pub(crate) fn copy_of_statement(alloc: Global, s: &Statement) -> Result<Statement, OutOfMemory>
    ensures { IfOk result (λ copy. copy ≡ s.now) }
{
    Ok(Statement {
        id: s.id.copy(alloc)?,
        pred: s.pred.copy(alloc)?,
        path: s.path.copy(alloc)?,
    })
}

// An equal path, if there is one.
pub(crate) fn copy_of_default(
    alloc: Global,
    path: &Option<RawPath>,
) -> Result<Option<RawPath>, OutOfMemory>
    ensures { IfOk result (λ copy. copy ≡ path.now) }
{
    match path {
        Some(path) => Ok(Some(path.copy(alloc)?)),
        None => Ok(None),
    }
}

// A statement with these rates.
fn with_rates(
    alloc: Global,
    statement: &Statement,
    cap: Option<u64>,
    guarantee: u64,
) -> Result<RatedStatement, OutOfMemory>
    ensures { IfOk result (λ r.
        r ≡ record { statement = statement.now; cap = cap; guarantee = guarantee }) }
{
    Ok(RatedStatement {
        statement: copy_of_statement(alloc, statement)?,
        cap,
        guarantee,
    })
}

/// A policy with the rates that its formula gives.
pub fn rate(alloc: Global, policy: &Policy, rates: &Rates) -> Result<RatedPolicy, OutOfMemory>
    requires { rates.now ≡ localised policy.now.formula.terms (listed_ids policy.now) }
    ensures { IfOk result (λ rated. rated ≡ rated_policy policy.now) }
{
    let least = rates.min.as_slice();
    let most = rates.max.as_slice();
    let mut statements = Items::new(alloc);
    for (place, statement) in policy.statements.as_slice().iter().enumerate() {
        statements.push(with_rates(alloc, statement, most[place], least[place])?)?;
    }
    Ok(RatedPolicy {
        statements,
        default_path: copy_of_default(alloc, &policy.default_path)?,
    })
}

// The term of one id.
fn term_of_id(alloc: Global, bound: Bound, id: &Name, rate: u64) -> Result<Term, OutOfMemory>
    ensures { IfOk result (λ term. term ≡ localised_term bound id.now rate) }
{
    let mut parts = Items::new(alloc);
    parts.push(Part::Id(id.copy(alloc)?))?;
    Ok(Term { bound, parts, rate })
}

/// An equal policy.
pub(crate) fn copy_of_policy(alloc: Global, policy: &Policy) -> Result<Policy, OutOfMemory>
    ensures { IfOk result (λ copy. copy ≡ policy.now) }
{
    let mut statements = Items::new(alloc);
    for statement in policy.statements.as_slice() {
        statements.push(copy_of_statement(alloc, statement)?)?;
    }
    Ok(Policy {
        statements,
        default_path: copy_of_default(alloc, &policy.default_path)?,
        formula: policy.formula.copy(alloc)?,
    })
}

// Adds the terms of a statement.
fn add_terms(alloc: Global, r: &RatedStatement, terms: &mut Items<Term>) -> Result<(), OutOfMemory>
    ensures { OnOk result (terms.new ≡ terms.old ++ rate_terms r.now) }
{
    if let Some(cap) = r.cap {
        terms.push(term_of_id(alloc, Bound::Max, &r.statement.id, cap)?)?;
    }
    if r.guarantee > 0 {
        let term = term_of_id(alloc, Bound::Min, &r.statement.id, r.guarantee)?;
        terms.push(term)?;
    }
    Ok(())
}

/// The policy of some statements with their rates.
pub fn write(alloc: Global, rated: &RatedPolicy) -> Result<Policy, OutOfMemory>
    ensures { IfOk result (λ policy. policy ≡ written_policy rated.now) }
{
    let mut statements = Items::new(alloc);
    let mut terms = Items::new(alloc);
    for r in rated.statements.as_slice() {
        statements.push(copy_of_statement(alloc, &r.statement)?)?;
        add_terms(alloc, r, &mut terms)?;
    }
    Ok(Policy {
        statements,
        default_path: copy_of_default(alloc, &rated.default_path)?,
        formula: Formula { terms },
    })
}
