//! The flows of all guaranteed statements over the links of a network, within the limits.

ghost use Rattle.std.specs.Prelude.{◌≡◌, ◌≤◌, ◌<◌, ◌+◌, length, map, IfOk, IfErr, OnOk};
ghost use Rattle.std.specs.List.{AllByRecursion};
ghost use Rattle.merlin_model.specs.Networks.{IsHost, directed_links};
ghost use Rattle.topology.specs.Symbols.{network_symbols};
ghost use Rattle.product_graph.specs.Followers.{AreFollowersOf};
ghost use Rattle.product_graph.specs.Products.{automaton_of};
ghost use Rattle.policy_flows.specs.declared.limits.TheConstants.{MAX_PRODUCT_EDGES};
ghost use Rattle.policy_flows.specs.Layouts.{statement_parts, IsLayout, KeepsProductLimits, HasParts, edges_of_flows};
ghost use Rattle.policy_flows.specs.Faults.{RefusesStatements};
ghost use Rattle.policy_flows.specs.Weights.{IsEdgesFault};
ghost use Rattle.policy_flows.specs.Adding.{IsAddedFlow, IsPastRoom, AreFewSpelled};

use crate::fault::ProgramFault;
use crate::flows::{SpelledFlow, flow_between};
use crate::limits::{MAX_PRODUCT_EDGES, MAX_PRODUCT_VERTICES};
use crate::weights::ask_weights;
use cutoff_program::flow::{Flow, Problem};
use merlin_model::OutOfMemory;
use merlin_model::network::DirectedLink;
use merlin_model::policy::{Ends, Objective, Symbol};
use path_automaton::Automaton;
use product_graph::{Followers, followers_of};
use sqlite_items::Items;
use std::alloc::Global;
use topology::Topology;
use topology_rules::directed_links_of;

/// The flows of guaranteed statements, and flow by flow the symbols of the vertices.
#[derive(Drop)]
pub struct Layout {
    pub problem: Problem,
    pub symbols: Items<Items<Symbol>>,
}

/// Flows, and flow by flow the symbols of the vertices.
#[derive(Drop)]
pub struct FlowList {
    pub flows: Items<Flow>,
    pub symbols: Items<Items<Symbol>>,
}

/// Adds the flow of a statement. What comes back is how many more vertices there may be.
fn add_flow(
    alloc: Global,
    net: &Topology,
    followers: &Followers,
    automaton: &Automaton,
    links: &[DirectedLink],
    rate: u64,
    ends: &Ends,
    room: usize,
    list: &mut FlowList,
) -> Result<usize, ProgramFault>
    requires followers { AreFollowersOf net.now (network_symbols net.now) followers.now }
    requires width { automaton.now.width ≡ length (network_symbols net.now) }
    requires links { links.now ≡ directed_links net.now }
    requires src { IsHost net.now ends.now.src }
    requires dst { IsHost net.now ends.now.dst }
    ensures ok { IfOk result (λ left. IsAddedFlow net.now
        (automaton_of (network_symbols net.now) automaton.now) rate ends.now room left
        list.old list.new) }
    ensures err { IfErr result (IsPastRoom net.now
        (automaton_of (network_symbols net.now) automaton.now) rate ends.now room) }
{
    let SpelledFlow { flow, symbols } = flow_between(
        alloc, net, followers, automaton, links, rate, ends,
    )?;
    let count = flow.vertices;
    if count > room {
        return Err(ProgramFault::Vertices {
            count: MAX_PRODUCT_VERTICES as u64 + 1,
        });
    }
    list.flows.push(flow)?;
    list.symbols.push(symbols)?;
    Ok(room - count)
}

/// The flows of all statements, which have few vertices.
fn all_flows(
    alloc: Global,
    net: &Topology,
    automata: &[&Automaton],
    rates: &[u64],
    ends: &[Ends],
    links: &[DirectedLink],
) -> Result<FlowList, ProgramFault>
    requires links { links.now ≡ directed_links net.now }
    requires parts { AllByRecursion
        (HasParts net.now (map (λ a. a.now) automata.now) rates.now) ends.now }
    ensures ok { IfOk result (AreFewSpelled net.now
        (statement_parts net.now (map (λ a. a.now) automata.now) rates.now) ends.now) }
    ensures err { IfErr result (RefusesStatements net.now
        (statement_parts net.now (map (λ a. a.now) automata.now) rates.now) ends.now) }
{
    let followers = followers_of(alloc, net)?;
    let mut list = FlowList {
        flows: Items::new(alloc),
        symbols: Items::new(alloc),
    };
    let mut room = MAX_PRODUCT_VERTICES;
    for named in ends {
        let automaton = automata[named.statement];
        let rate = rates[named.statement];
        room = add_flow(
            alloc, net, &followers, automaton, links, rate, named, room, &mut list,
        )?;
    }
    Ok(list)
}

/// Asks that flows have few edges.
fn ask_edges(flows: &[Flow]) -> Result<(), ProgramFault>
    ensures ok { OnOk result (edges_of_flows flows.now ≤ MAX_PRODUCT_EDGES) }
    ensures err { IfErr result (IsEdgesFault flows.now) }
{
    let mut room = MAX_PRODUCT_EDGES;
    for flow in flows {
        let count = flow.edges.len();
        if count > room {
            return Err(ProgramFault::Edges {
                count: MAX_PRODUCT_EDGES as u64 + 1,
            });
        }
        room -= count;
    }
    Ok(())
}

/// The directed links of a network.
fn links_of(alloc: Global, net: &Topology) -> Result<Items<DirectedLink>, OutOfMemory>
    ensures { IfOk result (λ links. links ≡ directed_links net.now) }
{
    Ok(Items::from_vec(directed_links_of(alloc, net.links())?))
}

/// The flows of guaranteed statements over the links of a network: of each statement the product of its automaton with the
/// network between its ends, with its rate in kbit/s.
///
/// # Errors
/// The first that applies, in the order of the variants of `ProgramFault`.
pub fn lay_out(
    alloc: Global,
    net: &Topology,
    automata: &[&Automaton],
    rates: &[u64],
    ends: &[Ends],
    objective: Objective,
) -> Result<Layout, ProgramFault>
    requires { AllByRecursion
        (HasParts net.now (map (λ a. a.now) automata.now) rates.now) ends.now }
    ensures layout { IfOk result (λ layout. IsLayout net.now
        (statement_parts net.now (map (λ a. a.now) automata.now) rates.now) ends.now objective
        layout.problem layout.symbols) }
    ensures limits { IfOk result (λ layout. KeepsProductLimits (directed_links net.now)
        layout.problem.flows) }
    ensures err { IfErr result (RefusesStatements net.now
        (statement_parts net.now (map (λ a. a.now) automata.now) rates.now) ends.now) }
{
    let links = links_of(alloc, net)?;
    let FlowList { flows, symbols } = all_flows(
        alloc,
        net,
        automata,
        rates,
        ends,
        links.as_slice(),
    )?;
    ask_edges(flows.as_slice())?;
    ask_weights(links.as_slice(), ends, flows.as_slice())?;
    Ok(Layout {
        problem: Problem {
            flows,
            links,
            objective,
        },
        symbols,
    })
}
