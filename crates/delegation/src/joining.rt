//! Joins: the statements of the children of a node, each within the scope of its child, and behind them those of the node outside all scopes.

ghost use Rattle.std.specs.Prelude.{◌≡◌, ◌++◌, ◌∷◌, [], IfOk, OnOk, length, map, flat_map, if◌then◌else◌};
ghost use Rattle.merlin_model.specs.declared.policy.Pred.{All as AllOf, AnyOf, Not};
ghost use Rattle.refinement_model.specs.Delegation.{joined_id};
ghost use Rattle.delegation.specs.NamedJoins.{default_as_statement, statement_in_scope, statements_of_child, statement_elsewhere, rated_join, restated};
ghost use Rattle.delegation.specs.NamedTrees.{has_parent, scopes_under, children_with};

use crate::node::Node;
use crate::rating::{RatedPolicy, RatedStatement, copy_of_default};
use merlin_model::policy::Pred;
use merlin_model::{Name, OutOfMemory, name_from};
use policy_expansion::Statement;
use policy_grammar::written::RawPath;
use sqlite_items::{Boxed, Items};
use std::alloc::Global;

/// Whether the node is a child of the node at a place.
pub(crate) fn is_child(node: &Node, place: usize) -> bool
    ensures { result ≡ has_parent place node.now }
{
    node.parent == Some(place)
}

/// The scopes of the children of the node at a place.
pub(crate) fn scopes_of(
    alloc: Global,
    nodes: &[Node],
    place: usize,
) -> Result<Items<Pred>, OutOfMemory>
    ensures { IfOk result (λ scopes. scopes ≡ scopes_under nodes.now place) }
{
    let mut scopes = Items::new(alloc);
    for node in nodes {
        if is_child(node, place) {
            scopes.push(node.scope.copy(alloc)?)?;
        }
    }
    Ok(scopes)
}

// CHILD/ID
fn id_in_child(alloc: Global, child: &Name, id: &Name) -> Result<Name, OutOfMemory>
    ensures { IfOk result (λ name. name ≡ joined_id child.now id.now) }
{
    let mut text = Vec::new(alloc);
    text.extend_from_slice(child.bytes())?;
    text.push(b'/')?;
    text.extend_from_slice(id.bytes())?;
    name_from(alloc, &text)
}

// The predicate that both hold.
fn both(alloc: Global, first: &Pred, second: &Pred) -> Result<Pred, OutOfMemory>
    ensures { IfOk result (λ pred. pred ≡ AllOf (first.now ∷ second.now ∷ [])) }
{
    let mut preds = Items::new(alloc);
    preds.push(first.copy(alloc)?)?;
    preds.push(second.copy(alloc)?)?;
    Ok(Pred::All(preds))
}

// The predicate that none of these holds.
fn none_of(alloc: Global, preds: Items<Pred>) -> Result<Pred, OutOfMemory>
    ensures { IfOk result (λ pred. pred ≡ Not (AnyOf preds)) }
{
    Ok(Pred::Not(Boxed::new(alloc, Pred::AnyOf(preds))?))
}

// The predicates of some statements.
fn preds_of(alloc: Global, statements: &[RatedStatement]) -> Result<Items<Pred>, OutOfMemory>
    ensures { IfOk result (λ preds. preds ≡ map (λ r. r.statement.pred) statements.now) }
{
    let mut preds = Items::new(alloc);
    for r in statements {
        preds.push(r.statement.pred.copy(alloc)?)?;
    }
    Ok(preds)
}

// The default as a statement.
fn default_statement(
    alloc: Global,
    policy: &RatedPolicy,
    path: &RawPath,
) -> Result<RatedStatement, OutOfMemory>
    ensures { IfOk result (λ r. r ≡ default_as_statement policy.now path.now) }
{
    let preds = preds_of(alloc, policy.statements.as_slice())?;
    Ok(RatedStatement {
        statement: Statement {
            id: name_from(alloc, b"default")?,
            pred: none_of(alloc, preds)?,
            path: path.copy(alloc)?,
        },
        cap: None,
        guarantee: 0,
    })
}

// A statement of a child, within its scope.
fn in_scope(alloc: Global, child: &Node, r: &RatedStatement) -> Result<RatedStatement, OutOfMemory>
    ensures { IfOk result (λ s. s ≡ statement_in_scope child.now r.now) }
{
    Ok(RatedStatement {
        statement: Statement {
            id: id_in_child(alloc, &child.name, &r.statement.id)?,
            pred: both(alloc, &child.scope, &r.statement.pred)?,
            path: r.statement.path.copy(alloc)?,
        },
        cap: r.cap,
        guarantee: r.guarantee,
    })
}

// Adds statements of a child.
fn add_statements(
    alloc: Global,
    child: &Node,
    statements: &[RatedStatement],
    joined: &mut Items<RatedStatement>,
) -> Result<(), OutOfMemory>
    ensures { OnOk result (joined.new ≡
        joined.old ++ map (statement_in_scope child.now) statements.now) }
{
    for r in statements {
        joined.push(in_scope(alloc, child, r)?)?;
    }
    Ok(())
}

// Adds what a child says under a policy, its default as the last.
fn add_child(
    alloc: Global,
    child: &Node,
    policy: &RatedPolicy,
    joined: &mut Items<RatedStatement>,
) -> Result<(), OutOfMemory>
    ensures { OnOk result (joined.new ≡
        joined.old ++ statements_of_child (child.now, policy.now)) }
{
    add_statements(alloc, child, policy.statements.as_slice(), joined)?;
    if let Some(path) = &policy.default_path {
        let default = default_statement(alloc, policy, path)?;
        joined.push(in_scope(alloc, child, &default)?)?;
    }
    Ok(())
}

// Adds what a node says, if it is a child of the node at a place.
fn add_if_child(
    alloc: Global,
    child: &Node,
    policy: &RatedPolicy,
    place: usize,
    joined: &mut Items<RatedStatement>,
) -> Result<(), OutOfMemory>
    ensures { OnOk result (joined.new ≡ joined.old ++ flat_map statements_of_child
        (if has_parent place child.now then (child.now, policy.now) ∷ [] else [])) }
{
    if !is_child(child, place) {
        return Ok(());
    }
    add_child(alloc, child, policy, joined)
}

// Adds what the children of the node at a place say.
fn add_children(
    alloc: Global,
    nodes: &[Node],
    policies: &[RatedPolicy],
    place: usize,
    joined: &mut Items<RatedStatement>,
) -> Result<(), OutOfMemory>
    requires { length policies.now ≡ length nodes.now }
    ensures { OnOk result (joined.new ≡
        joined.old ++ flat_map statements_of_child (children_with nodes.now policies.now place)) }
{
    for (number, child) in nodes.iter().enumerate() {
        add_if_child(alloc, child, &policies[number], place, joined)?;
    }
    Ok(())
}

// A statement of the node's own, outside the scopes.
fn elsewhere(
    alloc: Global,
    outside: &Pred,
    r: &RatedStatement,
) -> Result<RatedStatement, OutOfMemory>
    ensures { IfOk result (λ s. s ≡ restated r.now.statement.id
        (AllOf (r.now.statement.pred ∷ outside.now ∷ [])) r.now) }
{
    Ok(RatedStatement {
        statement: Statement {
            id: r.statement.id.copy(alloc)?,
            pred: both(alloc, &r.statement.pred, outside)?,
            path: r.statement.path.copy(alloc)?,
        },
        cap: r.cap,
        guarantee: r.guarantee,
    })
}

// Adds the statements of the node itself.
fn add_own(
    alloc: Global,
    scopes: Items<Pred>,
    own: &[RatedStatement],
    joined: &mut Items<RatedStatement>,
) -> Result<(), OutOfMemory>
    ensures { OnOk result (joined.new ≡ joined.old ++ map (statement_elsewhere scopes) own.now) }
{
    let outside = none_of(alloc, scopes)?;
    for r in own {
        joined.push(elsewhere(alloc, &outside, r)?)?;
    }
    Ok(())
}

// What the children of the node at a place say, and then what it says itself.
fn joined_statements(
    alloc: Global,
    nodes: &[Node],
    policies: &[RatedPolicy],
    own: &[RatedStatement],
    place: usize,
) -> Result<Items<RatedStatement>, OutOfMemory>
    requires { length policies.now ≡ length nodes.now }
    ensures { IfOk result (λ joined. joined ≡
        flat_map statements_of_child (children_with nodes.now policies.now place)
        ++ map (statement_elsewhere (scopes_under nodes.now place)) own.now) }
{
    let mut joined = Items::new(alloc);
    add_children(alloc, nodes, policies, place, &mut joined)?;
    let scopes = scopes_of(alloc, nodes, place)?;
    add_own(alloc, scopes, own, &mut joined)?;
    Ok(joined)
}

/// The join of a policy with those of the children of the node at a place.
pub fn join(
    alloc: Global,
    nodes: &[Node],
    policies: &[RatedPolicy],
    own: &RatedPolicy,
    place: usize,
) -> Result<RatedPolicy, OutOfMemory>
    requires { length policies.now ≡ length nodes.now }
    ensures { IfOk result (λ r.
        r ≡ rated_join own.now (children_with nodes.now policies.now place)) }
{
    let statements = joined_statements(alloc, nodes, policies, own.statements.as_slice(), place)?;
    let default_path = copy_of_default(alloc, &own.default_path)?;
    Ok(RatedPolicy {
        statements,
        default_path,
    })
}
