//! Between which hosts the traffic of each guaranteed statement goes.

ghost use Rattle.std.specs.Prelude.{◌≡◌, ◌≤◌, ◌<◌, length, map, IfOk, IfErr, slice_get, Some};
ghost use Rattle.merlin_model.specs.Rates.{IsGuaranteed};
ghost use Rattle.merlin_model.specs.Assignments.{AreAllEnds};
ghost use Rattle.rate_formula.specs.Usage.{ids_in};
ghost use Rattle.policy_check.specs.Checked.{IsSoundPolicy};
ghost use Rattle.policy_check.specs.Ends.{AreGuaranteed, AreEndsOf, BreaksEndsAt, BreaksEnds, IsFirstWithoutEnds, places_above};

use crate::checked::Checked;
use crate::fault::EndsFault;
use crate::pairs::{Pairs, pairs_of};
use merlin_model::OutOfMemory;
use merlin_model::policy::Ends;
use std::alloc::Global;
use topology::Topology;

/// The most guaranteed statements.
pub const MAX_GUARANTEES: u64 = 64;

// The places of the rates above 0.
fn guaranteed_places(alloc: Global, least: &[u64]) -> Result<Vec<usize>, OutOfMemory>
    ensures { IfOk result (λ places. places.items ≡ places_above 0 least.now) }
{
    let mut places = Vec::new(alloc);
    for (place, rate) in least.iter().enumerate() {
        if *rate > 0 {
            places.push(place)?;
        }
    }
    Ok(places)
}

// The ends of a guaranteed statement.
fn ends_of(
    alloc: Global,
    checked: &Checked,
    net: &Topology,
    statement: usize,
) -> Result<Ends, EndsFault>
    requires sound { IsSoundPolicy checked.now.policy }
    requires guaranteed { IsGuaranteed checked.now.policy statement }
    ensures ok { IfOk result (AreEndsOf net.now checked.now.policy statement) }
    ensures err { IfErr result (BreaksEndsAt net.now checked.now.policy statement) }
{
    match pairs_of(alloc, &checked.preds()[statement], net)? {
        Pairs::NoPair => Err(EndsFault::NoEnds {
            id: checked.ids()[statement].copy(alloc)?,
        }),
        Pairs::OnePair((src, dst)) => Ok(Ends {
            statement,
            src,
            dst,
        }),
        Pairs::MorePairs(first, second) => Err(EndsFault::ManyEnds {
            id: checked.ids()[statement].copy(alloc)?,
            first,
            second,
        }),
    }
}

// The ends of all guaranteed statements, if they are few.
fn ends_of_all(
    alloc: Global,
    checked: &Checked,
    net: &Topology,
    statements: &[usize],
) -> Result<Vec<Ends>, EndsFault>
    requires sound { IsSoundPolicy checked.now.policy }
    requires guaranteed { AreGuaranteed checked.now.policy statements.now }
    requires few { length statements.now ≤ MAX_GUARANTEES }
    ensures ok { IfOk result (λ ends. AreAllEnds net.now checked.now.policy ends.items) }
    ensures few { IfOk result (λ ends. length ends.items ≡ length statements.now) }
    ensures err { IfErr result (BreaksEnds net.now checked.now.policy) }
{
    let mut ends = Vec::new(alloc);
    for statement in statements {
        ends.push(ends_of(alloc, checked, net, *statement)?)?;
    }
    Ok(ends)
}

/// The guaranteed statements in their order, each with the one pair of hosts that has traffic of it. A pair has traffic where a proper packet between the two
/// belongs to the statement. Otherwise too many statements are guaranteed, or the first of them that no pair has traffic of, or more than one, is named.
pub fn ends(alloc: Global, checked: &Checked, net: &Topology) -> Result<Vec<Ends>, EndsFault>
    ensures ok { IfOk result (λ ends. AreAllEnds net.now checked.now.policy ends.items) }
    ensures few { IfOk result (λ ends. length ends.items ≤ MAX_GUARANTEES) }
    ensures err { IfErr result (BreaksEnds net.now checked.now.policy) }
{
    localise::laws::rates_of_statements();
    let _ = checked.statements();
    let statements = guaranteed_places(alloc, checked.rates().min.as_slice())?;
    if statements.len() as u64 > MAX_GUARANTEES {
        return Err(EndsFault::TooManyGuarantees {
            count: MAX_GUARANTEES + 1,
        });
    }
    ends_of_all(alloc, checked, net, &statements)
}
