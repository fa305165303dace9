//! The flow of a statement: the product of its automaton between its hosts, with its rate.

ghost use Rattle.std.specs.Prelude.{◌≡◌, length, IfOk};
ghost use Rattle.merlin_model.specs.Networks.{IsHost, directed_links};
ghost use Rattle.topology.specs.Symbols.{network_symbols};
ghost use Rattle.product_graph.specs.Products.{automaton_of};
ghost use Rattle.product_graph.specs.Followers.{AreFollowersOf};
ghost use Rattle.policy_flows.specs.Layouts.{IsFlowBetween};
ghost use Rattle.policy_flows.specs.Edges.{flow_over};

use crate::edges::{edges_over, symbols_of};
use cutoff_program::flow::Flow;
use merlin_model::OutOfMemory;
use merlin_model::network::DirectedLink;
use merlin_model::policy::{Ends, Symbol};
use path_automaton::Automaton;
use product_graph::{Followers, Product, Span2, build_over};
use sqlite_items::Items;
use std::alloc::Global;
use topology::Topology;

/// A flow, with the symbols of the vertices of its product.
#[derive(Drop)]
pub struct SpelledFlow {
    pub flow: Flow,
    pub symbols: Items<Symbol>,
}

/// A product over links, with a rate.
fn flow_of(
    alloc: Global,
    links: &[DirectedLink],
    product: &Product,
    rate: u64,
) -> Result<SpelledFlow, OutOfMemory>
    ensures { IfOk result (λ found. found ≡ flow_over links.now product.now rate) }
{
    let vertices = product.vertices();
    let edges = edges_over(alloc, links, vertices, product.edges())?;
    let symbols = symbols_of(alloc, vertices)?;
    Ok(SpelledFlow {
        flow: Flow {
            rate,
            vertices: vertices.len(),
            edges,
        },
        symbols,
    })
}

/// The flow of an automaton between two hosts, with a rate.
pub fn flow_between(
    alloc: Global,
    net: &Topology,
    followers: &Followers,
    automaton: &Automaton,
    links: &[DirectedLink],
    rate: u64,
    ends: &Ends,
) -> Result<SpelledFlow, OutOfMemory>
    requires followers { AreFollowersOf net.now (network_symbols net.now) followers.now }
    requires width { automaton.now.width ≡ length (network_symbols net.now) }
    requires links { links.now ≡ directed_links net.now }
    requires src { IsHost net.now ends.now.src }
    requires dst { IsHost net.now ends.now.dst }
    ensures { IfOk result (λ found. IsFlowBetween net.now
        (automaton_of (network_symbols net.now) automaton.now) rate ends.now.src ends.now.dst
        found.flow found.symbols) }
{
    let span = Span2::Pair {
        src: ends.src,
        dst: ends.dst,
    };
    let product = build_over(alloc, net, followers, automaton, span)?;
    flow_of(alloc, links, &product, rate)
}
