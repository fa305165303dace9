//! The trials of one box, one after the other: prices step by step, whose least paths are tried as a point at each step, then flows that are
//! routed again.

ghost use Rattle.std.specs.Option.{option_copied};
ghost use Rattle.merlin_model.specs.Programs.{Takes};
ghost use Rattle.cutoff_program.specs.Flows.{takes};

use crate::breakout::break_out;
use crate::congestion::{Congestion, negotiate, shorten};
use crate::demand::{Traffic, first_variables, traffic_of};
use crate::leaf::leaf_of;
use crate::numbers::{repeated, scale_all, summed};
use crate::pricing::{are_too_dear, even_prices, move_prices};
use crate::routing::{Routing, have_room, is_short, point_along, route_all};
use crate::subgradient::{Ascent, ascend, start};
use integer_program::{Fixed, Program};
use merlin_model::OutOfMemory;
use merlin_model::certificate::Weight;
use merlin_model::policy::Value;
use merlin_program::MerlinProgram;
use sqlite_items::Items;
use std::alloc::Global;

/// What was found: weights of a leaf, a path for each flow by the variables of all, or neither. Paths that overload a link or are too long are
/// handed out too, where there are no better ones.
#[derive(Drop)]
pub enum Trial {
    Leaf(Items<Weight>),
    Paths(Items<bool>),
    Nothing,
}

// What is found by steps of prices: the paths stand for flows.
#[derive(Drop)]
enum Found {
    Leaf(Items<Weight>),
    Paths(Routing),
    Others(Routing),
    Nothing,
}

/// What is kept between trials: where the variables of each flow begin, and the last prices of links by each rule.
#[derive(Drop)]
pub struct LinkPrices {
    first: Items<usize>,
    by_factor: Items<u64>,
    by_ascent: Items<u64>,
}

// What a flow pays where it would not fit, if it must.
const STRICT: u64 = 17_592_186_044_416;

// How many steps of prices, rounds of rerouting and moves are tried: at the box that fixes nothing, and at the others.
const STEPS: usize = 200;

const STEPS_BELOW: usize = 12;

const ROUNDS: usize = 24;

const SQUEEZED_ROUNDS: usize = 8;

const ROUNDS_BELOW: usize = 1;

const TURNS: u64 = 2000;

/// No prices yet.
pub fn new(alloc: Global, program: &MerlinProgram) -> Result<LinkPrices, OutOfMemory> {
    Ok(LinkPrices {
        first: first_variables(alloc, program)?,
        by_factor: Items::new(alloc),
        by_ascent: Items::new(alloc),
    })
}

// What a step comes to.
enum Judged {
    Fitting,
    TooDear,
    Neither,
}

fn judge(traffic: &Traffic, loads: &[u64], prices: &[u64], priced: &[u64]) -> Judged {
    let rooms = traffic.rooms.as_slice();
    if have_room(loads, rooms) && is_short(traffic, loads) {
        return Judged::Fitting;
    }
    if are_too_dear(loads, priced, prices, rooms, traffic.most) {
        Judged::TooDear
    } else {
        Judged::Neither
    }
}

// Least paths at some prices; then the prices move by factors.
fn factor_step(
    alloc: Global,
    traffic: &Traffic,
    prices: &mut Items<u64>,
    step: usize,
) -> Result<Found, OutOfMemory> {
    let routing = route_all(alloc, traffic, prices.as_slice())?;
    let loads = routing.loads.as_slice();
    match judge(traffic, loads, prices.as_slice(), prices.as_slice()) {
        Judged::Fitting => Ok(Found::Paths(routing)),
        Judged::TooDear => {
            let weights = leaf_of(alloc, traffic, prices.as_slice(), prices.as_slice())?;
            Ok(Found::Leaf(weights))
        }
        Judged::Neither => {
            move_prices(prices, loads, traffic.rooms.as_slice(), step);
            Ok(Found::Nothing)
        }
    }
}

fn factor_steps(
    alloc: Global,
    traffic: &Traffic,
    prices: &mut Items<u64>,
    steps: usize,
) -> Result<Found, OutOfMemory> {
    for step in 0..steps {
        match factor_step(alloc, traffic, prices, step)? {
            Found::Nothing => {}
            found => return Ok(found),
        }
    }
    Ok(Found::Nothing)
}

// Least paths at the costs and some prices; then the prices take a step of an ascent.
fn ascent_step(
    alloc: Global,
    traffic: &Traffic,
    ascent: &mut Ascent,
) -> Result<Found, OutOfMemory> {
    let priced = summed(alloc, traffic.costs.as_slice(), ascent.prices.as_slice())?;
    let routing = route_all(alloc, traffic, priced.as_slice())?;
    let loads = routing.loads.as_slice();
    match judge(traffic, loads, ascent.prices.as_slice(), priced.as_slice()) {
        Judged::Fitting => Ok(Found::Paths(routing)),
        Judged::TooDear => {
            let weights = leaf_of(alloc, traffic, ascent.prices.as_slice(), priced.as_slice())?;
            Ok(Found::Leaf(weights))
        }
        Judged::Neither => {
            ascend(alloc, traffic, ascent, loads, priced.as_slice())?;
            Ok(Found::Nothing)
        }
    }
}

fn ascent_steps(
    alloc: Global,
    traffic: &Traffic,
    ascent: &mut Ascent,
    steps: usize,
) -> Result<Found, OutOfMemory> {
    for _step in 0..steps {
        match ascent_step(alloc, traffic, ascent)? {
            Found::Nothing => {}
            found => return Ok(found),
        }
    }
    Ok(Found::Nothing)
}

// Steps of prices from the last ones on, by the rule that suits what is to be kept.
fn by_prices(
    alloc: Global,
    traffic: &Traffic,
    kept: &mut LinkPrices,
    steps: usize,
) -> Result<Found, OutOfMemory> {
    if traffic.most.is_none() {
        if kept.by_factor.len() != traffic.rooms.len() {
            kept.by_factor = even_prices(alloc, traffic.rooms.as_slice())?;
        }
        return factor_steps(alloc, traffic, &mut kept.by_factor, steps);
    }
    if kept.by_ascent.len() != traffic.rooms.len() {
        kept.by_ascent = repeated(alloc, traffic.rooms.len(), 0)?;
    }
    let mut ascent = start(alloc, kept.by_ascent.as_slice())?;
    let found = ascent_steps(alloc, traffic, &mut ascent, steps)?;
    kept.by_ascent = ascent.best;
    Ok(found)
}

// Where negotiation starts: from least paths, with the prices of an ascent remembered where there are some.
fn by_rerouting(
    alloc: Global,
    traffic: &Traffic,
    kept: &LinkPrices,
    rounds: usize,
) -> Result<Found, OutOfMemory> {
    let zeros = repeated(alloc, traffic.rooms.len(), 0)?;
    let remembered = match traffic.most {
        None => repeated(alloc, traffic.rooms.len(), 0)?,
        Some(_) => summed(alloc, zeros.as_slice(), kept.by_ascent.as_slice())?,
    };
    let mut congestion = Congestion {
        remembered,
        penalty: traffic.unit,
    };
    let mut routing = route_all(alloc, traffic, traffic.costs.as_slice())?;
    if !negotiate(alloc, traffic, &mut routing, &mut congestion, rounds)? {
        return Ok(Found::Others(routing));
    }
    if traffic.most.is_some() {
        let strict = Congestion {
            remembered: zeros,
            penalty: STRICT,
        };
        shorten(alloc, traffic, &mut routing, &strict, rounds)?;
    }
    Ok(Found::Paths(routing))
}

// Rerouting within a part of all rooms, in parts of 16.
fn by_squeezing(
    alloc: Global,
    traffic: &mut Traffic,
    kept: &LinkPrices,
    part: u64,
) -> Result<Found, OutOfMemory> {
    let whole = Items::from_slice(alloc, traffic.rooms.as_slice())?;
    scale_all(&mut traffic.rooms, part, 16, 0);
    let found = by_rerouting(alloc, traffic, kept, SQUEEZED_ROUNDS)?;
    traffic.rooms = whole;
    Ok(found)
}

// The closest rooms first.
fn by_closer_rooms(
    alloc: Global,
    traffic: &mut Traffic,
    kept: &LinkPrices,
) -> Result<Found, OutOfMemory> {
    for part in [12, 14, 15] {
        if let Found::Paths(routing) = by_squeezing(alloc, traffic, kept, part)? {
            return Ok(Found::Paths(routing));
        }
    }
    Ok(Found::Nothing)
}

// Local search from the paths of the last prices.
fn by_moves(alloc: Global, traffic: &Traffic, kept: &LinkPrices) -> Result<Found, OutOfMemory> {
    let mut routing = route_all(alloc, traffic, kept.by_factor.as_slice())?;
    if break_out(alloc, traffic, &mut routing, TURNS)? {
        Ok(Found::Paths(routing))
    } else {
        Ok(Found::Others(routing))
    }
}

// Points where loads alone decide.
fn by_loads(alloc: Global, traffic: &mut Traffic, kept: &LinkPrices) -> Result<Found, OutOfMemory> {
    match by_closer_rooms(alloc, traffic, kept)? {
        Found::Nothing => {}
        found => return Ok(found),
    }
    match by_rerouting(alloc, traffic, kept, ROUNDS)? {
        Found::Others(_) => by_moves(alloc, traffic, kept),
        found => Ok(found),
    }
}

// Whether a box fixes nothing.
fn is_free(fixed: &Fixed) -> bool {
    for variable in 0..fixed.len() {
        if fixed.get(variable).is_some() {
            return false;
        }
    }
    true
}

// What is found of all flows, as it is handed out.
fn trial_of(
    alloc: Global,
    traffic: &Traffic,
    found: Found,
    variables: usize,
) -> Result<Trial, OutOfMemory> {
    match found {
        Found::Leaf(weights) => Ok(Trial::Leaf(weights)),
        Found::Paths(routing) => {
            let paths = routing.paths.as_slice();
            Ok(Trial::Paths(point_along(alloc, traffic, paths, variables)?))
        }
        Found::Others(routing) => {
            let paths = routing.paths.as_slice();
            Ok(Trial::Paths(point_along(alloc, traffic, paths, variables)?))
        }
        Found::Nothing => Ok(Trial::Nothing),
    }
}

// Points with much effort, by the rule that suits what is to be kept.
fn by_points(
    alloc: Global,
    traffic: &mut Traffic,
    kept: &LinkPrices,
) -> Result<Found, OutOfMemory> {
    match traffic.most {
        None => by_loads(alloc, traffic, kept),
        Some(_) => by_rerouting(alloc, traffic, kept, ROUNDS),
    }
}

// The trials in order, with more effort where nothing is fixed.
fn find(
    alloc: Global,
    traffic: &mut Traffic,
    kept: &mut LinkPrices,
    is_whole: bool,
) -> Result<Found, OutOfMemory> {
    let steps = if is_whole { STEPS } else { STEPS_BELOW };
    match by_prices(alloc, traffic, kept, steps)? {
        Found::Nothing => {}
        found => return Ok(found),
    }
    if is_whole {
        by_points(alloc, traffic, kept)
    } else {
        by_rerouting(alloc, traffic, kept, ROUNDS_BELOW)
    }
}

/// Tries prices and paths at a box.
pub fn try_prices(
    alloc: Global,
    program: &MerlinProgram,
    cutoff: Option<&Value>,
    fixed: &Fixed,
    kept: &mut LinkPrices,
) -> Result<Trial, OutOfMemory>
    requires takes { Takes (takes program.now.problem.objective) (option_copied cutoff) }
{
    let mut traffic = traffic_of(alloc, program, cutoff, fixed, kept.first.as_slice())?;
    let found = find(alloc, &mut traffic, kept, is_free(fixed))?;
    trial_of(alloc, &traffic, found, program.variables())
}
