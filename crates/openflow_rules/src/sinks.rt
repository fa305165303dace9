//! The branches of best effort: the vertices of a product, each with the one that follows it in the sink tree.

ghost use Rattle.std.specs.Prelude.{◌≡◌, ◌≤◌, ℕ, length, IfOk};
ghost use Rattle.merlin_model.specs.Networks.{Network, IsHost};
ghost use Rattle.rules_model.specs.Products.{SymbolAutomaton};
ghost use Rattle.product_graph.specs.declared.span.Span2.TheVariants.{All};
ghost use Rattle.product_graph.specs.Products.{IsProduct};
ghost use Rattle.sink_tree.specs.Trees.{next_in};
ghost use Rattle.openflow_rules.specs.SinkBranches.{before_end as before_the_end, AreStepsBelow, IsSinkBranch};

use merlin_model::OutOfMemory;
use product_graph::Product;
use rule_tables::{Branch, Step};
use sink_tree::{SinkTree, tree};
use sqlite_items::Items;
use std::alloc::Global;

/// The place of the vertex that follows, None where it is the end.
fn before_end(next: Option<usize>, end: usize) -> Option<usize>
    ensures { result ≡ before_the_end end next }
{
    match next {
        Some(place) if place == end => None,
        _ => next,
    }
}

/// The vertices before the end, each with the place of the one that follows.
fn steps_of(
    alloc: Global,
    product: &Product,
    tree: &SinkTree,
    end: usize,
) -> Result<Items<Step>, OutOfMemory>
    requires end { end ≤ length product.now.vertices }
    requires size { length tree.now.next ≡ length product.now.vertices }
    ensures { IfOk result (AreStepsBelow product.now (next_in tree.now) end end) }
{
    let vertices = product.vertices();
    let mut steps = Items::new(alloc);
    for place in 0..end {
        steps.push(Step {
            vertex: vertices[place],
            next: before_end(tree.next(place), end),
        })?;
    }
    Ok(steps)
}

/// The branch of a product of best effort for a destination.
pub fn sink_branch(alloc: Global, product: &Product, dest: usize) -> Result<Branch, OutOfMemory>
    requires { (net : Network) × (a : SymbolAutomaton) × IsProduct net a (All dest) product.now }
    ensures { (net : Network) (a : SymbolAutomaton) → IsHost net dest →
        IsProduct net a (All dest) product.now → IfOk result (IsSinkBranch net a dest) }
{
    configuration_model::laws::sink_tree_is_followed();
    let tree = tree(alloc, product)?;
    // the end is one of the vertices
    let _ = product.edges();
    let Some(end) = product.end() else {
        let steps = Items::new(alloc);
        return Ok(Branch { dest, steps });
    };
    let steps = steps_of(alloc, product, &tree, end)?;
    Ok(Branch { dest, steps })
}
