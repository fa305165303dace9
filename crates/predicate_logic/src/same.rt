//! Whether predicates are the same.

ghost use Rattle.std.specs.Prelude.{◌≡◌, true};

use merlin_model::policy::{Pred, Test};

/// Whether two tests are the same.
fn same_test(left: Test, right: Test) -> bool
    ensures { result ≡ true → left ≡ right }
{
    match left {
        Test::Is { field, value } => match right {
            Test::Is {
                field: other,
                value: wanted,
            } => field == other && value == wanted,
            _ => false,
        },
        Test::Port {
            proto,
            field,
            value,
        } => match right {
            Test::Port {
                proto: under,
                field: other,
                value: wanted,
            } => proto == under && field == other && value == wanted,
            _ => false,
        },
        Test::Within {
            field,
            value,
            length,
        } => match right {
            Test::Within {
                field: other,
                value: block,
                length: bits,
            } => field == other && value == block && length == bits,
            _ => false,
        },
    }
}

/// Whether two predicates are the same. What it says no to may still hold of the same packets.
#[cycle(alike)]
pub fn alike(left: &Pred, right: &Pred) -> bool
    ensures { result ≡ true → left.now ≡ right.now }
{
    match left {
        Pred::Yes => matches!(right, Pred::Yes),
        Pred::No => matches!(right, Pred::No),
        Pred::Test(test) => match right {
            Pred::Test(other) => same_test(*test, *other),
            _ => false,
        },
        Pred::All(preds) => match right {
            Pred::All(others) => all_alike(preds.as_slice(), others.as_slice()),
            _ => false,
        },
        Pred::AnyOf(preds) => match right {
            Pred::AnyOf(others) => all_alike(preds.as_slice(), others.as_slice()),
            _ => false,
        },
        Pred::Not(pred) => match right {
            Pred::Not(other) => alike(pred.get(), other.get()),
            _ => false,
        },
    }
}

/// Whether the predicates are the same, in the same order.
#[cycle(alike)]
pub fn all_alike(left: &[Pred], right: &[Pred]) -> bool
    ensures { result ≡ true → left.now ≡ right.now }
{
    if left.len() != right.len() {
        return false;
    }
    for (index, pred) in left.iter().enumerate() {
        if !alike(pred, &right[index]) {
            return false;
        }
    }
    true
}
