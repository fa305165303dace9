//! The choice of a variable: each statement keeps to edges that are fixed to 1, and from where none is goes on by its least walk.

ghost use Rattle.std.specs.Prelude.{ℕ, ◌≡◌, ◌<◌, length, map, nat_lt, IfOk, IfSome, IsTrue};
ghost use Rattle.std.proofs.Props.{props};
ghost use Rattle.bound_search.specs.Boxes.{IsFree};
ghost use Rattle.cutoff_program.specs.Flows.{variables_of};
ghost use Rattle.cutoff_program.specs.Limits.{IsProblem};

use crate::copies::copy_of;
use crate::crowding::{is_over, loads_along, most_crowded};
use crate::ways::{keep_to, point_of, ways_of};
use cutoff_program::flow::{Problem, Variable};
use integer_program::Fixed;
use merlin_model::OutOfMemory;
use merlin_program::MerlinProgram;
use program_walks::least_path;
use sqlite_items::Items;
use std::alloc::Global;

/// The flows of a program, by which its boxes are split.
#[derive(Drop)]
pub struct WalkChoice {
    problem: Problem,
    variables: Items<Variable>,
    ghost is: { IsProblem problem } by { Prim.hlevel props },
    ghost variables_are: { variables ≡ variables_of problem },
}

/// The choice for a program.
pub fn new(alloc: Global, program: &MerlinProgram) -> Result<WalkChoice, OutOfMemory>
    ensures { IfOk result (λ choice. choice.problem ≡ program.now.problem) }
{
    let problem = copy_of(alloc, program.problem())?;
    let variables = Items::from_slice(alloc, program.edges())?;
    Ok(WalkChoice { problem, variables })
}

/// The first free variable of a box, if there is one.
fn first_free(fixed: &Fixed) -> usize
    ensures { (variable : ℕ) → IsFree fixed.now variable → IsFree fixed.now result }
{
    for variable in 0..fixed.len() {
        if fixed.get(variable).is_none() {
            return variable;
        }
    }
    0
}

/// Whether a variable is free, and not the only one by which a walk may go on.
fn is_one_of_more(ways: &[usize], fixed: &Fixed, variable: usize) -> bool
    ensures { IsTrue result → IsFree fixed.now variable }
{
    match ways.get(variable) {
        Some(count) => *count > 1 && variable < fixed.len() && fixed.get(variable).is_none(),
        None => false,
    }
}

impl WalkChoice {
    /// Whether a flow has a walk over these variables without this one. They are the same afterwards.
    fn has_other_way(
        &self,
        alloc: Global,
        flow: usize,
        variable: usize,
        point: &mut Items<bool>,
    ) -> Result<bool, OutOfMemory>
        requires in_range { flow < length self.now.problem.flows }
        requires size { length point.old ≡ length self.now.variables }
        requires among { variable < length point.old }
        ensures { length point.new ≡ length point.old }
    {
        let old = point.as_slice()[variable];
        point.set(variable, false);
        let variables = self.variables.as_slice();
        let other = least_path(alloc, &self.problem, variables, flow, point.as_slice());
        point.set(variable, old);
        Ok(other?.is_some())
    }

    /// The first edge of a flow's path that it could do without, if it has one. The point keeps to the edges before it.
    fn fork_in(
        &self,
        alloc: Global,
        flow: usize,
        path: &[usize],
        point: &mut Items<bool>,
        ways: &[usize],
        fixed: &Fixed,
    ) -> Result<Option<usize>, OutOfMemory>
        requires in_range { flow < length self.now.problem.flows }
        requires size { length point.old ≡ length self.now.variables }
        requires fixed { length fixed.now ≡ length self.now.variables }
        ensures size { length point.new ≡ length point.old }
        ensures free { IfOk result (λ found. IfSome found (IsFree fixed.now)) }
    {
        for number in path {
            if is_one_of_more(ways, fixed, *number) {
                if self.has_other_way(alloc, flow, *number, point)? {
                    return Ok(Some(*number));
                }
            }
            if let Some(kept) = self.variables.get(*number) {
                keep_to(self.variables.as_slice(), kept, *number, point);
            }
        }
        Ok(None)
    }

    /// The first edge of a flow's least walk over these variables that it could do without, if it has one.
    fn fork_of(
        &self,
        alloc: Global,
        flow: usize,
        point: &mut Items<bool>,
        ways: &[usize],
        fixed: &Fixed,
    ) -> Result<Option<usize>, OutOfMemory>
        requires in_range { flow < length self.now.problem.flows }
        requires size { length point.old ≡ length self.now.variables }
        requires fixed { length fixed.now ≡ length self.now.variables }
        ensures size { length point.new ≡ length point.old }
        ensures free { IfOk result (λ found. IfSome found (IsFree fixed.now)) }
    {
        let variables = self.variables.as_slice();
        match least_path(alloc, &self.problem, variables, flow, point.as_slice())? {
            Some(found) => self.fork_in(alloc, flow, found.path.as_slice(), point, ways, fixed),
            None => Ok(None),
        }
    }

    /// The least walks of all flows over these variables, an empty one where there is none.
    fn paths(&self, alloc: Global, point: &[bool]) -> Result<Items<Items<usize>>, OutOfMemory>
        requires { length point.now ≡ length self.now.variables }
    {
        let mut paths = Items::new(alloc);
        let variables = self.variables.as_slice();
        for flow in 0..self.problem.flows.len() {
            match least_path(alloc, &self.problem, variables, flow, point)? {
                Some(found) => paths.push(found.path)?,
                None => paths.push(Items::new(alloc))?,
            }
        }
        Ok(paths)
    }

    /// The fork of the heaviest flow whose walk crosses a link, among those that have one.
    fn fork_over(
        &self,
        alloc: Global,
        paths: &[Items<usize>],
        link: usize,
        point: &mut Items<bool>,
        ways: &[usize],
        fixed: &Fixed,
    ) -> Result<Option<usize>, OutOfMemory>
        requires size { length point.old ≡ length self.now.variables }
        requires fixed { length fixed.now ≡ length self.now.variables }
        ensures size { length point.new ≡ length point.old }
        ensures free { IfOk result (λ found. IfSome found (IsFree fixed.now)) }
    {
        let mut best = None;
        let mut heaviest = 0_u64;
        for flow in 0..self.problem.flows.len() {
            if self.is_heavier(flow, heaviest, paths, link) {
                let found = self.fork_of(alloc, flow, point, ways, fixed)?;
                if found.is_some() {
                    best = found;
                    heaviest = self.rate_of(flow);
                }
            }
        }
        Ok(best)
    }

    // The rate of a flow.
    fn rate_of(&self, flow: usize) -> u64 {
        match self.problem.flows.get(flow) {
            Some(flow) => flow.rate,
            None => 0,
        }
    }

    // Whether a flow is heavier than a rate and its walk crosses a link.
    fn is_heavier(&self, flow: usize, rate: u64, paths: &[Items<usize>], link: usize) -> bool {
        match paths.get(flow) {
            Some(path) => {
                rate < self.rate_of(flow)
                    && is_over(self.variables.as_slice(), path.as_slice(), link)
            }
            None => false,
        }
    }

    /// The fork of the heaviest flow over the most crowded link, if there is one.
    fn crowded_fork(
        &self,
        alloc: Global,
        point: &mut Items<bool>,
        ways: &[usize],
        fixed: &Fixed,
    ) -> Result<Option<usize>, OutOfMemory>
        requires size { length point.old ≡ length self.now.variables }
        requires fixed { length fixed.now ≡ length self.now.variables }
        ensures size { length point.new ≡ length point.old }
        ensures free { IfOk result (λ found. IfSome found (IsFree fixed.now)) }
    {
        let paths = self.paths(alloc, point.as_slice())?;
        let links = self.problem.links.as_slice();
        let variables = self.variables.as_slice();
        let loads = loads_along(alloc, variables, paths.as_slice(), links.len())?;
        match most_crowded(links, loads.as_slice()) {
            Some(link) => self.fork_over(alloc, paths.as_slice(), link, point, ways, fixed),
            None => Ok(None),
        }
    }

    /// The fork of the first flow that has one.
    fn first_fork(
        &self,
        alloc: Global,
        point: &mut Items<bool>,
        ways: &[usize],
        fixed: &Fixed,
    ) -> Result<Option<usize>, OutOfMemory>
        requires size { length point.old ≡ length self.now.variables }
        requires fixed { length fixed.now ≡ length self.now.variables }
        ensures { IfOk result (λ found. IfSome found (IsFree fixed.now)) }
    {
        for flow in 0..self.problem.flows.len() {
            let found = self.fork_of(alloc, flow, point, ways, fixed)?;
            if found.is_some() {
                return Ok(found);
            }
        }
        Ok(None)
    }

    /// The fork over the most crowded link, else the first one.
    fn fork(&self, alloc: Global, fixed: &Fixed) -> Result<Option<usize>, OutOfMemory>
        requires { length self.now.variables ≡ length fixed.now }
        ensures { IfOk result (λ found. IfSome found (IsFree fixed.now)) }
    {
        let ways = ways_of(alloc, self.variables.as_slice(), fixed)?;
        let mut point = point_of(alloc, ways.as_slice())?;
        match self.crowded_fork(alloc, &mut point, ways.as_slice(), fixed)? {
            Some(variable) => Ok(Some(variable)),
            None => self.first_fork(alloc, &mut point, ways.as_slice(), fixed),
        }
    }

    /// A free variable of a box that has one: the first edge of a statement's least walk that the statement could do without, where it
    /// keeps to the edges before it and does not come back to a vertex. Of the statements with such an edge the heaviest decides whose walk
    /// crosses the link that least walks crowd most, else the first; where there is none, or memory runs out, the first free variable is
    /// answered.
    pub fn choose(&self, alloc: Global, fixed: &Fixed) -> usize
        ensures { (variable : ℕ) → IsFree fixed.now variable → IsFree fixed.now result }
    {
        if self.variables.len() != fixed.len() {
            return first_free(fixed);
        }
        match self.fork(alloc, fixed) {
            Ok(Some(variable)) => variable,
            _ => first_free(fixed),
        }
    }
}
