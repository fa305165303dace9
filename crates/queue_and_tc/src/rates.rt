//! The localised rates of a checked policy, by statement.

ghost use Rattle.std.specs.Prelude.{◌≡◌, None, slice_get, unwrap_or};
ghost use Rattle.merlin_model.specs.Rates.{min_of, max_of};

use policy_check::Checked;

// The rate at a place, or 0.
fn least_at(mins: &[u64], place: usize) -> u64
    ensures { result ≡ unwrap_or (slice_get mins.now place) 0 }
{
    match mins.get(place) {
        Some(min) => *min,
        None => 0,
    }
}

// The bound at a place, if there is one.
fn most_at(maxima: &[Option<u64>], place: usize) -> Option<u64>
    ensures { result ≡ unwrap_or (slice_get maxima.now place) None }
{
    match maxima.get(place) {
        Some(max) => *max,
        None => None,
    }
}

/// The minimum of a statement, in kbit/s. The default has none, which is 0.
pub(crate) fn min_at(checked: &Checked, statement: usize) -> u64
    ensures { result ≡ min_of checked.now.policy statement }
{
    least_at(checked.rates().min.as_slice(), statement)
}

/// The maximum of a statement, in kbit/s, if it is capped. The default is not.
pub(crate) fn max_at(checked: &Checked, statement: usize) -> Option<u64>
    ensures { result ≡ max_of checked.now.policy statement }
{
    most_at(checked.rates().max.as_slice(), statement)
}
