//! A problem of one's own.

ghost use Rattle.std.specs.Prelude.{◌≡◌, IfOk};

use cutoff_program::flow::{Flow, Problem};
use merlin_model::OutOfMemory;
use sqlite_items::Items;
use std::alloc::Global;

fn copy_of_flow(alloc: Global, flow: &Flow) -> Result<Flow, OutOfMemory>
    ensures { IfOk result (λ copy. copy ≡ flow.now) }
{
    Ok(Flow {
        rate: flow.rate,
        vertices: flow.vertices,
        edges: Items::from_slice(alloc, flow.edges.as_slice())?,
    })
}

fn copy_of_flows(alloc: Global, flows: &[Flow]) -> Result<Items<Flow>, OutOfMemory>
    ensures { IfOk result (λ copy. copy ≡ flows.now) }
{
    let mut copy = Items::new(alloc);
    for flow in flows {
        copy.push(copy_of_flow(alloc, flow)?)?;
    }
    Ok(copy)
}

/// An equal problem.
pub fn copy_of(alloc: Global, problem: &Problem) -> Result<Problem, OutOfMemory>
    ensures { IfOk result (λ copy. copy ≡ problem.now) }
{
    let flows = copy_of_flows(alloc, problem.flows.as_slice())?;
    let links = Items::from_slice(alloc, problem.links.as_slice())?;
    Ok(Problem {
        flows,
        links,
        objective: problem.objective,
    })
}
