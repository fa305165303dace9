//! The tags of products, in order.

ghost use Rattle.std.specs.Prelude.{◌≡◌, ◌≤◌, [], length, map, OnOk, IfErr, IfOk, Contains, ◌⊎◌};
ghost use Rattle.merlin_model.specs.Networks.{Pairwise};
ghost use Rattle.product_graph.specs.Products.{vertex_of};
ghost use Rattle.rules_model.specs.Tables.{tag_key_of, IsBelowKey};
ghost use Rattle.openflow_rules.specs.declared.fault.TheConstants.{MAX_TAGS};
ghost use Rattle.rule_tables.specs.Branches.{key_of};
ghost use Rattle.openflow_rules.specs.Gathered.{IsKeyPut, AreTagsPut, IsTagOfVertex, IsTagFault};

use crate::fault::{MAX_TAGS, RuleFault};
use merlin_model::OutOfMemory;
use product_graph::Vertex;
use rule_tables::TagKey;
use sqlite_items::Items;
use std::alloc::Global;
use std::collections::BTreeSet;
use std::marker::Model;

/// Tags, each once and in order.
#[derive(Drop)]
pub struct TagSet {
    keys: BTreeSet<TagKey>,
}

impl Model for TagSet {
    ghost use Rattle.std.specs.Prelude.{List};
    ghost use Rattle.std.specs.Coded.{codes};
    ghost use Rattle.rules_model.specs.Tables.{TagKey as ModelKey};

    ghost Value = { List ModelKey };

    ghost coded = { Prim.hlevel codes };

    ghost use Rattle.std.specs.Prelude.{map};
    ghost use Rattle.rule_tables.specs.Branches.{key_of};

    ghost view = { λ s. map key_of s.keys.keys };
}

impl TagSet {
    pub fn new(alloc: Global) -> TagSet
        ensures { result ≡ [] }
    {
        TagSet {
            keys: BTreeSet::new(alloc),
        }
    }

    /// How many tags there are.
    pub fn len(&self) -> usize
        ensures count { result ≡ length self.now }
        ensures ascend { Pairwise IsBelowKey self.now }
    {
        self.keys.len()
    }

    /// Puts the tag of a vertex among the others.
    fn put(&mut self, group: usize, vertex: Vertex) -> Result<(), OutOfMemory>
        ensures { OnOk result (IsKeyPut (tag_key_of group (vertex_of vertex)) self.old self.new) }
    {
        self.keys.insert(TagKey {
            group,
            state: vertex.state,
            fun: vertex.symbol.fun,
        })?;
        Ok(())
    }

    /// The tags as a list.
    pub fn into_items(self, alloc: Global) -> Result<Items<TagKey>, OutOfMemory>
        ensures { IfOk result (λ keys. map key_of keys ≡ self) }
    {
        let TagSet { keys } = self;
        let keys: Vec<TagKey> = keys.into_iter().collect(alloc)?;
        Ok(Items::from_vec(keys))
    }
}

/// Puts the tag of a vertex among the others, if there is room for it.
fn put_tag(tags: &mut TagSet, group: usize, vertex: Vertex) -> Result<(), RuleFault>
    ensures put { OnOk result (IsKeyPut (tag_key_of group (vertex_of vertex)) tags.old tags.new) }
    ensures few { OnOk result (length tags.new ≤ MAX_TAGS) }
    ensures err { IfErr result (IsTagFault (λ k.
        Contains tags.old k ⊎ (k ≡ tag_key_of group (vertex_of vertex)))) }
{
    tags.put(group, vertex)?;
    if tags.len() as u64 > MAX_TAGS {
        return Err(RuleFault::TooManyTags {
            count: MAX_TAGS + 1,
        });
    }
    Ok(())
}

/// Puts the tags of vertices among the others, if there is room for them.
pub fn put_tags(tags: &mut TagSet, group: usize, vertices: &[Vertex]) -> Result<(), RuleFault>
    requires { length tags.old ≤ MAX_TAGS }
    ensures put { OnOk result
        (AreTagsPut group (map vertex_of vertices.now) tags.old tags.new) }
    ensures few { OnOk result (length tags.new ≤ MAX_TAGS) }
    ensures err { IfErr result (IsTagFault (λ k.
        Contains tags.old k ⊎ IsTagOfVertex group (map vertex_of vertices.now) k)) }
{
    for vertex in vertices {
        put_tag(tags, group, *vertex)?;
    }
    Ok(())
}
