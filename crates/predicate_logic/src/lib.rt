//! Predicates on packets: which packets they hold of, what is left of them when a field of the packet is fixed, and which values they mention.
#![tactic(auto)]

ghost use Rattle.std.specs.Prelude.{◌≡◌};
ghost use Rattle.std.specs.List.{list_all, list_any};
ghost use Rattle.merlin_model.specs.Predicates.{passes, first_bits as first_bits_of, holds as holds_of};

mod mentions;
mod residues;
mod same;

pub use mentions::{
    ascending, collect, collect_all, collect_all_prefixes, collect_prefixes, mentioned, prefixes,
};
pub use merlin_model::policy::{Pred, Test};
use packet_model::{Field, Packet};
pub use residues::partial;
pub use same::{alike, all_alike};

/// Whether the predicate holds of the packet.
#[cycle(holds)]
pub fn holds(pred: &Pred, packet: &Packet) -> bool
    ensures { result ≡ holds_of pred.now packet.now }
{
    match pred {
        Pred::Yes => true,
        Pred::No => false,
        Pred::Test(test) => passes_test(*test, packet),
        Pred::All(preds) => all_hold(preds.as_slice(), packet),
        Pred::AnyOf(preds) => any_holds(preds.as_slice(), packet),
        Pred::Not(pred) => !holds(pred.get(), packet),
    }
}

/// Whether all of the predicates hold of the packet.
#[cycle(holds)]
fn all_hold(preds: &[Pred], packet: &Packet) -> bool
    ensures { result ≡ list_all (λ pred. holds_of pred packet.now) preds.now }
{
    for pred in preds {
        if !holds(pred, packet) {
            return false;
        }
    }
    true
}

/// Whether any of the predicates holds of the packet.
#[cycle(holds)]
fn any_holds(preds: &[Pred], packet: &Packet) -> bool
    ensures { result ≡ list_any (λ pred. holds_of pred packet.now) preds.now }
{
    for pred in preds {
        if holds(pred, packet) {
            return true;
        }
    }
    false
}

/// Whether the packet passes the test.
fn passes_test(test: Test, packet: &Packet) -> bool
    ensures { result ≡ passes test packet.now }
{
    match test {
        Test::Is { field, value } => packet.value(field) == value,
        Test::Port {
            proto,
            field,
            value,
        } => {
            packet.value(Field::Proto) == u64::from(proto)
                && packet.value(field) == u64::from(value)
        }
        Test::Within {
            field,
            value,
            length,
        } => first_bits(length, packet.value(field)) == first_bits(length, value),
    }
}

/// The first bits of an IPv4 address, as many as the length says, as a number.
pub(crate) fn first_bits(length: u8, address: u64) -> u64
    ensures { result ≡ first_bits_of length address }
{
    address >> 32u8.saturating_sub(length)
}
