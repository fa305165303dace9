//! What the products of all groups come to, built one after the other.

ghost use Rattle.std.specs.Prelude.{◌≡◌, ◌≤◌, ◌⊎◌, ◌∷◌, [], List, length, map, IfOk, IfErr, OnOk, Contains};
ghost use Rattle.std.specs.List.{AllByRecursion};
ghost use Rattle.topology.specs.Symbols.{network_symbols};
ghost use Rattle.rules_model.specs.Products.{SymbolAutomaton, Group};
ghost use Rattle.merlin_model.specs.Networks.{Network, IsHost, Pairwise};
ghost use Rattle.rules_model.specs.Tables.{IsBelowKey};
ghost use Rattle.product_graph.specs.Followers.{AreFollowersOf};
ghost use Rattle.product_graph.specs.Products.{vertex_of, dest_of, IsProduct};
ghost use Rattle.openflow_rules.specs.declared.fault.TheConstants.{MAX_TAGS};
ghost use Rattle.openflow_rules.specs.Planning.{entries_in};
ghost use Rattle.openflow_rules.specs.GroupSpans.{IsGroupSpan};
ghost use Rattle.openflow_rules.specs.Gathered.{AreInnerOf, IsBranchFor, IsBranchOfSpan, IsBranchKept};
ghost use Rattle.openflow_rules.specs.Gathered.{IsAddition, IsGathered, IsTagIn, IsTagOfVertex};
ghost use Rattle.openflow_rules.specs.Gathered.{IsTagFault, AreTagsPut, IsRoomAfter, AreVerticesWithin};

use crate::entries::{inner_vertices, room_after};
use crate::fault::{MAX_ENTRIES, RuleFault};
use crate::sinks::sink_branch;
use crate::spans::GroupSpan;
use crate::tags::{TagSet, put_tags};
use merlin_model::OutOfMemory;
use policy_check::Checked;
use product_graph::{Followers, Product, Span2, Vertex, build_over};
use rule_tables::Branch;
use sqlite_items::Items;
use std::alloc::Global;
use topology::Topology;

/// What products are built over.
#[derive(Clone, Copy)]
pub struct Site<'a> {
    pub net: &'a Topology,
    pub followers: &'a Followers,
    pub checked: &'a Checked,
}

/// What products come to: the tags of their vertices, and how many more entries there may be, None
/// where there are too many; and, while there is room, for each product its branch, which for a
/// guaranteed group is empty, since its walk is not chosen yet.
#[derive(Drop)]
pub struct Gathered {
    pub tags: TagSet,
    pub room: Option<u64>,
    pub branches: Items<Branch>,
}

/// What is taken of a product: its vertices at no host, and its branch.
#[derive(Drop)]
struct Taken {
    inner: Items<Vertex>,
    branch: Branch,
}

/// The product of a group.
fn product_at(alloc: Global, site: &Site<'_>, span: GroupSpan) -> Result<Product, OutOfMemory>
    requires followers { AreFollowersOf site.now.net.now (network_symbols site.now.net.now)
        site.now.followers.now }
    requires span { (groups : List Group) ×
        IsGroupSpan site.now.net.now site.now.checked.now groups span }
    ensures { (groups : List Group) →
        (is : IsGroupSpan site.now.net.now site.now.checked.now groups span) →
        IfOk result (IsProduct site.now.net.now is.group.automaton span.span) }
{
    let automaton = site.checked.automaton(span.leader);
    build_over(alloc, site.net, site.followers, automaton, span.span)
}

/// The branch of a product, which for a guaranteed group is empty.
fn branch_of(alloc: Global, product: &Product, span: Span2) -> Result<Branch, OutOfMemory>
    requires { (net : Network) × (a : SymbolAutomaton) × IsProduct net a span product.now }
    ensures { (net : Network) (a : SymbolAutomaton) → IsHost net (dest_of span) →
        IsProduct net a span product.now → IfOk result (IsBranchOfSpan net a span) }
{
    match span {
        Span2::All { dst } => sink_branch(alloc, product, dst),
        Span2::Pair { src: _, dst } => Ok(Branch {
            dest: dst,
            steps: Items::new(alloc),
        }),
    }
}

/// What is taken of the product of a group.
fn taken_at(alloc: Global, site: &Site<'_>, span: GroupSpan) -> Result<Taken, OutOfMemory>
    requires followers { AreFollowersOf site.now.net.now (network_symbols site.now.net.now)
        site.now.followers.now }
    requires span { (groups : List Group) ×
        IsGroupSpan site.now.net.now site.now.checked.now groups span }
    ensures at { IfOk result (λ taken.
        AreVerticesWithin (length site.now.net.now.locations) taken.inner) }
    ensures inner { (groups : List Group) →
        IsGroupSpan site.now.net.now site.now.checked.now groups span → IfOk result (λ taken.
        AreInnerOf site.now.net.now groups span (map vertex_of taken.inner)) }
    ensures branch { (groups : List Group) →
        IsGroupSpan site.now.net.now site.now.checked.now groups span → IfOk result (λ taken.
        IsBranchFor site.now.net.now groups span taken.branch) }
{
    let product = product_at(alloc, site, span)?;
    let inner = inner_vertices(alloc, site.net, product.vertices())?;
    let branch = branch_of(alloc, &product, span.span)?;
    Ok(Taken { inner, branch })
}

/// Keeps a branch while there is room.
fn keep_branch(gathered: &mut Gathered, branch: Branch) -> Result<(), OutOfMemory>
    ensures kept { OnOk result
        (IsBranchKept gathered.old.room branch gathered.old.branches gathered.new.branches) }
    ensures tags { gathered.new.tags ≡ gathered.old.tags }
    ensures room { gathered.new.room ≡ gathered.old.room }
{
    if gathered.room.is_some() {
        gathered.branches.push(branch)?;
    }
    Ok(())
}

/// Adds what is taken of a product of a group.
fn add_taken(
    alloc: Global,
    net: &Topology,
    gathered: &mut Gathered,
    group: usize,
    taken: Taken,
) -> Result<(), RuleFault>
    requires few { length gathered.old.tags ≤ MAX_TAGS }
    requires at { AreVerticesWithin (length net.now.locations) taken.inner }
    ensures tags { OnOk result
        (AreTagsPut group (map vertex_of taken.inner) gathered.old.tags gathered.new.tags) }
    ensures few { OnOk result (length gathered.new.tags ≤ MAX_TAGS) }
    ensures room { OnOk result
        (IsRoomAfter gathered.old.room (entries_in (map vertex_of taken.inner)) gathered.new.room) }
    ensures kept { OnOk result
        (IsBranchKept gathered.new.room taken.branch gathered.old.branches gathered.new.branches) }
    ensures err { IfErr result (IsTagFault (λ k.
        Contains gathered.old.tags k ⊎ IsTagOfVertex group (map vertex_of taken.inner) k)) }
{
    let Taken { inner, branch } = taken;
    put_tags(&mut gathered.tags, group, inner.as_slice())?;
    gathered.room = room_after(alloc, net.locations(), inner.as_slice(), gathered.room)?;
    keep_branch(gathered, branch)?;
    Ok(())
}

/// Adds what the product of a group comes to.
fn add_product(
    alloc: Global,
    site: &Site<'_>,
    gathered: &mut Gathered,
    span: GroupSpan,
) -> Result<(), RuleFault>
    requires few { length gathered.old.tags ≤ MAX_TAGS }
    requires followers { AreFollowersOf site.now.net.now (network_symbols site.now.net.now)
        site.now.followers.now }
    requires span { (groups : List Group) ×
        IsGroupSpan site.now.net.now site.now.checked.now groups span }
    ensures ok { (groups : List Group) →
        IsGroupSpan site.now.net.now site.now.checked.now groups span →
        OnOk result (IsAddition site.now.net.now groups span gathered.old gathered.new) }
    ensures err { (groups : List Group) →
        IsGroupSpan site.now.net.now site.now.checked.now groups span →
        IfErr result (IsTagFault (λ k. Contains gathered.old.tags k ⊎
        IsTagIn site.now.net.now groups (span ∷ []) k)) }
{
    let taken = taken_at(alloc, site, span)?;
    add_taken(alloc, site.net, gathered, span.group, taken)?;
    Ok(())
}

/// What all these products come to, unless their tags are too many.
pub fn gather(alloc: Global, site: &Site<'_>, spans: &[GroupSpan]) -> Result<Gathered, RuleFault>
    requires followers { AreFollowersOf site.now.net.now (network_symbols site.now.net.now)
        site.now.followers.now }
    requires spans { (groups : List Group) × AllByRecursion
        (IsGroupSpan site.now.net.now site.now.checked.now groups) spans.now }
    ensures ok { (groups : List Group) → AllByRecursion
        (IsGroupSpan site.now.net.now site.now.checked.now groups) spans.now →
        IfOk result (IsGathered site.now.net.now groups spans.now) }
    ensures ascend { IfOk result (λ gathered. Pairwise IsBelowKey gathered.tags) }
    ensures err { (groups : List Group) → AllByRecursion
        (IsGroupSpan site.now.net.now site.now.checked.now groups) spans.now →
        IfErr result (IsTagFault (IsTagIn site.now.net.now groups spans.now)) }
{
    let mut gathered = Gathered {
        tags: TagSet::new(alloc),
        room: Some(MAX_ENTRIES),
        branches: Items::new(alloc),
    };
    for span in spans {
        add_product(alloc, site, &mut gathered, *span)?;
    }
    // tags are in order
    let _ = gathered.tags.len();
    Ok(gathered)
}
