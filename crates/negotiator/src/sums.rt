//! What statements have together: their caps, and their guarantees.

ghost use Rattle.std.specs.Prelude.{◌≡◌, ◌≤◌, ◌-◌, length, sum_by, IfSome};
ghost use Rattle.merlin_model.specs.declared.limits.TheConstants.{MAX_RATE};
ghost use Rattle.merlin_model.specs.Rates.{amount_of, constant_of_part, max_of, min_of};
ghost use Rattle.policy_expansion.specs.declared.limits.TheConstants.{MAX_STATEMENTS};
ghost use Rattle.refinement_model.specs.Refinement.{sum_of_caps as sum_of_all_caps};
ghost use Rattle.negotiator.specs.Marks.{marked};

use merlin_model::policy::{Part, Term};
use policy_check::Checked;

// What constants leave of a rate, or 0 where they leave nothing.
fn left_beside(parts: &[Part], rate: u64) -> u64
    ensures { result ≡ rate - sum_by constant_of_part parts.now }
{
    let mut left = rate;
    for part in parts {
        if let Part::Constant(constant) = part {
            left = left.saturating_sub(*constant);
        }
    }
    left
}

/// What is divided among the ids of a term, in kbit/s.
pub(crate) fn amount(term: &Term) -> u64
    ensures { result ≡ amount_of term.now }
{
    left_beside(term.parts.as_slice(), term.rate)
}

// What stands among the rates: the cap of a statement, if it has one.
fn cap_at(policy: &Checked, statement: usize) -> Option<u64>
    ensures { result ≡ max_of policy.now.policy statement }
{
    localise::laws::rates_of_statements();
    match policy.rates().max.get(statement) {
        Some(cap) => *cap,
        None => None,
    }
}

// The cap of a statement, if it has one. It is a rate.
fn cap_of(policy: &Checked, statement: usize) -> Option<u64>
    ensures is { result ≡ max_of policy.now.policy statement }
    ensures small { IfSome result (λ cap. cap ≤ MAX_RATE) }
{
    policy_check::laws::localised_rates_are_small();
    let _sound = policy.statements();
    cap_at(policy, statement)
}

// What stands among the rates: the guarantee of a statement, or 0.
fn guarantee_at(policy: &Checked, statement: usize) -> u64
    ensures { result ≡ min_of policy.now.policy statement }
{
    localise::laws::rates_of_statements();
    match policy.rates().min.get(statement) {
        Some(guarantee) => *guarantee,
        None => 0,
    }
}

/// The guarantee of a statement, or 0. It is a rate.
pub(crate) fn guarantee_of(policy: &Checked, statement: usize) -> u64
    ensures is { result ≡ min_of policy.now.policy statement }
    ensures small { result ≤ MAX_RATE }
{
    policy_check::laws::localised_rates_are_small();
    let _sound = policy.statements();
    guarantee_at(policy, statement)
}

/// The sum of the caps of the statements that are marked. None where one has no cap.
pub(crate) fn sum_of_caps(policy: &Checked, marks: &[bool]) -> Option<u64>
    requires { length marks.now ≤ MAX_STATEMENTS }
    ensures { result ≡ sum_of_all_caps policy.now.policy (marked marks.now) }
{
    let mut sum: u64 = 0;
    for (statement, is_marked) in marks.iter().enumerate() {
        if *is_marked {
            sum += cap_of(policy, statement)?;
        }
    }
    Some(sum)
}

/// The sum of the guarantees of the statements that are marked.
pub(crate) fn sum_of_guarantees(policy: &Checked, marks: &[bool]) -> u64
    requires { length marks.now ≤ MAX_STATEMENTS }
    ensures { result ≡ sum_by (min_of policy.now.policy) (marked marks.now) }
{
    let mut sum: u64 = 0;
    for (statement, is_marked) in marks.iter().enumerate() {
        if *is_marked {
            sum += guarantee_of(policy, statement);
        }
    }
    sum
}
