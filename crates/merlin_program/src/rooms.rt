//! What cutoffs leave of a capacity, and which are smaller.

ghost use Rattle.std.specs.Prelude.{ℕ, ℤ, ◌≡◌, ◌≤◌, ◌<◌, ◌*◌, ◌^◌, pos, IsTrue};
ghost use Rattle.std.specs.Int.{int_min};
ghost use Rattle.std.specs.Option.{option_copied};
ghost use Rattle.merlin_model.specs.Programs.{Takes};
ghost use Rattle.cutoff_program.specs.Flows.{one_less, quotient_of_one_less, room, cutoff_right, takes, is_below};

use merlin_model::policy::{Objective, Value};

/// The lesser of an amount and of one less than a number.
fn least_less(amount: u64, number: u64) -> i64
    requires { amount ≤ 2 ^ 45 }
    ensures { result ≡ int_min (pos amount) (one_less number) }
{
    if number == 0 {
        return -1;
    }
    let less = number - 1;
    if less < amount {
        less as i64
    } else {
        amount as i64
    }
}

/// The lesser of a capacity and of the greatest load of it that is less than a ratio.
fn least_load(capacity: u64, load: u64, of: u64) -> i64
    requires small { capacity ≤ 2 ^ 45 }
    requires positive { 0 < of }
    ensures { result ≡ int_min (pos capacity) (quotient_of_one_less (load * capacity) of) }
{
    let product = u128::from(load) * u128::from(capacity);
    if product == 0 {
        return -1;
    }
    let most = (product - 1) / u128::from(of);
    if most < u128::from(capacity) {
        most as i64
    } else {
        capacity as i64
    }
}

/// What a cutoff net_out of a capacity.
pub fn room_of(objective: Objective, cutoff: Option<&Value>, capacity: u64) -> i64
    requires small { capacity ≤ 2 ^ 45 }
    requires takes { Takes (takes objective) (option_copied cutoff) }
    ensures { result ≡ room objective (option_copied cutoff.entry) capacity }
{
    match (objective, cutoff) {
        (Objective::Reserved, Some(Value::Whole(z))) => least_less(capacity, *z),
        (Objective::Ratio, Some(Value::Ratio { load, capacity: of })) => {
            least_load(capacity, *load, *of)
        }
        (_, _) => capacity as i64,
    }
}

/// The right side of the row that bounds the length of all walks.
pub fn right_of(objective: Objective, cutoff: Option<&Value>, total: u64) -> i64
    requires small { total ≤ 2 ^ 45 }
    requires takes { Takes (takes objective) (option_copied cutoff) }
    ensures { result ≡ cutoff_right (option_copied cutoff.entry) total }
{
    match cutoff {
        None => total as i64,
        Some(Value::Whole(z)) => least_less(total, *z),
        Some(Value::Ratio { load, .. }) => least_less(total, *load),
    }
}

/// Whether one value is below another.
pub fn is_less(a: &Value, b: &Value) -> bool
    ensures { result ≡ is_below a.now b.now }
{
    match (a, b) {
        (Value::Whole(a), Value::Whole(b)) => *a < *b,
        (
            Value::Ratio {
                load: a,
                capacity: b,
            },
            Value::Ratio {
                load: c,
                capacity: d,
            },
        ) => u128::from(*a) * u128::from(*d) < u128::from(*c) * u128::from(*b),
        (_, _) => false,
    }
}
