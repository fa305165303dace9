//! Nodes out of JSON objects, by name.
ghost use Rattle.std.specs.Prelude.{◌≡◌, ◌<◌, ℕ, List, map, length, IfOk, IfErr, IfSome, IfNone};
ghost use Rattle.std.specs.String.{string_bytes};
ghost use Rattle.serde_json.specs.Data.{Data};
ghost use Rattle.serde_json.specs.View.{view};
ghost use Rattle.topology_shape.specs.Json.{HasText, HasItems};
ghost use Rattle.topology_shape.specs.Format.{HasName};
ghost use Rattle.delegation_text.specs.Members.{IsWrongNodePart, IsWrongAbove, node_words, HasWrongNode, IsMisshapenTree};
ghost use Rattle.delegation_text.specs.Alongside.{HasAbove, IsWrittenNode, AreNodesOf, DescribesNodes};
ghost use Rattle.delegation_text.specs.Failing.{FailsAsMisshapen, FailsAsNodePart};

use crate::fault::{EntryFault, NodePart, NodePartFault};
use merlin_base::{Name, OutOfMemory, is_name, name_from};
use serde_json::Value;
use std::alloc::Global;

/// What a node says of its place in the tree: the name of its parent, and its scope.
#[derive(Drop)]
pub struct Above {
    pub parent: Name,
    pub scope: Name,
}

/// A node as it is written. What the first says of its place is passed over.
#[derive(Drop)]
pub struct WrittenNode {
    pub name: Name,
    pub policy: String,
    pub above: Option<Above>,
}

// The text under a name.
fn text_under<'v>(value: &'v Value, key: &str) -> Option<&'v str>
    ensures some { IfSome result (λ text. HasText key.now (view value.now) text.now) }
    ensures none { IfNone result ((text : List ℕ) → ¬ HasText key.now (view value.now) text) }
{
    value.get(key).and_then(Value::as_str)
}

fn name_of(value: &Value) -> Option<&str>
    ensures some { IfSome result (λ name. HasName (view value.now) name.now) }
    ensures none { IfNone result ((name : List ℕ) → ¬ HasName (view value.now) name) }
{
    let text = text_under(value, "name")?;
    if is_name(text.as_bytes()) {
        Some(text)
    } else {
        None
    }
}

// What the node at a place says of it.
fn above_of(alloc: Global, value: &Value, place: usize) -> Result<Option<Above>, NodePartFault>
    ensures ok { IfOk result (HasAbove place (view value.now)) }
    ensures err { IfErr result (FailsAsNodePart (IsWrongAbove place (view value.now))) }
{
    if place == 0 {
        return Ok(None);
    }
    let Some(parent) = text_under(value, "parent") else {
        return Err(NodePartFault::Wrong(NodePart::Parent));
    };
    let Some(scope) = text_under(value, "scope") else {
        return Err(NodePartFault::Wrong(NodePart::Scope));
    };
    let parent = name_from(alloc, parent.as_bytes())?;
    let scope = name_from(alloc, scope.as_bytes())?;
    Ok(Some(Above { parent, scope }))
}

// The node at a place that an object describes.
fn node_of(alloc: Global, value: &Value, place: usize) -> Result<WrittenNode, NodePartFault>
    ensures ok { IfOk result (IsWrittenNode place (view value.now)) }
    ensures err { IfErr result (FailsAsNodePart (IsWrongNodePart place (view value.now))) }
{
    if !value.is_object() {
        return Err(NodePartFault::Wrong(NodePart::Itself));
    }
    let Some(name) = name_of(value) else {
        return Err(NodePartFault::Wrong(NodePart::Name));
    };
    let Some(policy) = text_under(value, "policy") else {
        return Err(NodePartFault::Wrong(NodePart::Policy));
    };
    let above = above_of(alloc, value, place)?;
    let name = name_from(alloc, name.as_bytes())?;
    let policy = String::from_str(alloc, policy)?;
    Ok(WrittenNode {
        name,
        policy,
        above,
    })
}

// The fault of this shape.
fn shape_fault(alloc: Global, what: &str) -> EntryFault
    ensures { FailsAsMisshapen (λ words. words ≡ what.now) result }
{
    match name_from(alloc, what.as_bytes()) {
        Ok(what) => EntryFault::Shape { what },
        Err(OutOfMemory) => EntryFault::OutOfMemory,
    }
}

// The words for a part of the element at a place.
fn words_for(alloc: Global, place: usize, part: NodePart) -> Result<String, OutOfMemory>
    ensures { IfOk result (λ words. string_bytes words ≡ node_words place part) }
{
    match part {
        NodePart::Itself => Ok(format!(in alloc; "nodes[{place}]")?),
        NodePart::Name => Ok(format!(in alloc; "nodes[{place}].name")?),
        NodePart::Policy => Ok(format!(in alloc; "nodes[{place}].policy")?),
        NodePart::Parent => Ok(format!(in alloc; "nodes[{place}].parent")?),
        NodePart::Scope => Ok(format!(in alloc; "nodes[{place}].scope")?),
    }
}

// The fault of a part of the element at a place.
fn node_fault(alloc: Global, place: usize, part: NodePart) -> EntryFault
    ensures { FailsAsMisshapen (λ words. words ≡ node_words place part) result }
{
    match words_for(alloc, place, part) {
        Ok(words) => shape_fault(alloc, &words),
        Err(OutOfMemory) => EntryFault::OutOfMemory,
    }
}

fn items_under<'v>(value: &'v Value, key: &str) -> Option<&'v Vec<Value>>
    ensures some { IfSome result (λ items.
        HasItems key.now (view value.now) (map view items.now.items)) }
    ensures none { IfNone result ((items : List Data) → ¬ HasItems key.now (view value.now) items) }
{
    value.get(key).and_then(Value::as_array)
}

// The nodes that the elements of an array describe.
fn nodes_of(alloc: Global, items: &[Value]) -> Result<Vec<WrittenNode>, EntryFault>
    ensures ok { IfOk result (λ nodes. AreNodesOf (map view items.now) nodes.items) }
    ensures err { IfErr result (FailsAsMisshapen (HasWrongNode (map view items.now))) }
{
    let mut nodes = Vec::new(alloc);
    for place in 0..items.len() {
        let item = &items[place];
        match node_of(alloc, item, place) {
            Ok(node) => nodes.push(node)?,
            Err(NodePartFault::Wrong(part)) => return Err(node_fault(alloc, place, part)),
            Err(NodePartFault::OutOfMemory) => return Err(EntryFault::OutOfMemory),
        }
    }
    Ok(nodes)
}

/// The nodes that the value describes, at least one.
pub(crate) fn nodes_in(alloc: Global, value: &Value) -> Result<Vec<WrittenNode>, EntryFault>
    ensures ok { IfOk result (λ nodes. DescribesNodes (view value.now) nodes.items) }
    ensures err { IfErr result (FailsAsMisshapen (IsMisshapenTree (view value.now))) }
{
    if !value.is_object() {
        return Err(shape_fault(alloc, "top"));
    }
    let Some(items) = items_under(value, "nodes") else {
        return Err(shape_fault(alloc, "nodes"));
    };
    if items.is_empty() {
        return Err(shape_fault(alloc, "nodes"));
    }
    nodes_of(alloc, items)
}
