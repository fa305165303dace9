//! Which flow is the first that costs too much on a link.

ghost use Rattle.std.specs.Prelude.{◌≡◌, length, MatchOption, IfOk, IfErr, OnOk};
ghost use Rattle.std.specs.List.{AllByRecursion};
ghost use Rattle.cutoff_program.specs.Flows.{cost_over};
ghost use Rattle.policy_flows.specs.Layouts.{IsLight};
ghost use Rattle.policy_flows.specs.Faults.{IsLightFlow, IsLeastHeavy};
ghost use Rattle.policy_flows.specs.Weights.{IsHeavyEdge, IsLesserOf, IsHeavyFault};

use crate::fault::ProgramFault;
use cutoff_program::flow::{Flow, FlowEdge};
use merlin_model::limits::MAX_COEFFICIENT;
use merlin_model::network::DirectedLink;
use merlin_model::policy::Ends;

/// What an edge costs.
fn edge_cost(links: &[DirectedLink], rate: u64, edge: &FlowEdge) -> u128
    ensures { result ≡ cost_over links.now rate edge.now.crosses }
{
    match edge.crosses {
        None => 0,
        Some(place) => match links.get(place) {
            None => 0,
            Some(directed) => u128::from(rate) * u128::from(directed.weight),
        },
    }
}

/// The link on which an edge costs too much, if it does.
fn heavy_link(links: &[DirectedLink], flow: &Flow, edge: &FlowEdge) -> Option<usize>
    ensures { MatchOption result (IsLight links.now flow.now edge.now)
        (IsHeavyEdge links.now flow.now edge.now) }
{
    match edge.crosses {
        None => None,
        Some(place) => {
            if edge_cost(links, flow.rate, edge) > u128::from(MAX_COEFFICIENT) {
                Some(place / 2)
            } else {
                None
            }
        }
    }
}

/// The lesser of two links, where there are any.
fn lesser(first: Option<usize>, second: Option<usize>) -> Option<usize>
    ensures { IsLesserOf first second result }
{
    match (first, second) {
        (None, other) => other,
        (Some(link), None) => Some(link),
        (Some(link), Some(other)) => Some(if other < link { other } else { link }),
    }
}

/// The least link on which a flow costs too much, if there is one.
fn least_heavy(links: &[DirectedLink], flow: &Flow) -> Option<usize>
    ensures { MatchOption result (IsLightFlow links.now flow.now)
        (IsLeastHeavy links.now flow.now) }
{
    let mut least = None;
    for edge in flow.edges.as_slice() {
        least = lesser(least, heavy_link(links, flow, edge));
    }
    least
}

/// Asks that no flow costs too much on a link.
pub fn ask_weights(
    links: &[DirectedLink],
    ends: &[Ends],
    flows: &[Flow],
) -> Result<(), ProgramFault>
    requires { length flows.now ≡ length ends.now }
    ensures ok { OnOk result (AllByRecursion (IsLightFlow links.now) flows.now) }
    ensures err { IfErr result (IsHeavyFault links.now ends.now flows.now) }
{
    for (place, flow) in flows.iter().enumerate() {
        if let Some(link) = least_heavy(links, flow) {
            return Err(ProgramFault::Heavy {
                statement: ends[place].statement,
                link,
            });
        }
    }
    Ok(())
}
