//! What is left of a predicate when a field is fixed.

ghost use Rattle.std.specs.Prelude.{◌≡◌, IfOk};
ghost use Rattle.merlin_model.specs.Packets.{Packet, field_of};
ghost use Rattle.merlin_model.specs.Predicates.{holds};
ghost use Rattle.predicate_logic.specs.Residues.{same_field, verdict as verdict_of, all_together as all, any_together as any, folded_all, folded_any, folded_not, test_residue, residue as residue_of, residues};

use crate::first_bits;
use merlin_model::OutOfMemory;
use merlin_model::policy::{Field, Pred, Test};
use sqlite_items::{Boxed, Items};
use std::alloc::Global;

/// Whether two fields are one.
pub(crate) fn are_same(left: Field, right: Field) -> bool
    ensures { result ≡ same_field left right }
{
    left == right
}

/// Yes or No.
fn verdict(passed: bool) -> Pred
    ensures { result ≡ verdict_of passed }
{
    if passed { Pred::Yes } else { Pred::No }
}

/// What is left of a test.
fn residue_of_test(test: Test, field: Field, value: u64) -> Pred
    ensures { result ≡ test_residue field value test }
{
    match test {
        Test::Is {
            field: tested,
            value: wanted,
        } => {
            if are_same(field, tested) {
                return verdict(value == wanted);
            }
            Pred::Test(test)
        }
        Test::Port {
            proto,
            field: port,
            value: wanted,
        } => {
            if are_same(field, Field::Proto) {
                if value == u64::from(proto) {
                    return Pred::Test(Test::Is {
                        field: port,
                        value: u64::from(wanted),
                    });
                }
                return Pred::No;
            }
            if are_same(field, port) {
                if value == u64::from(wanted) {
                    return Pred::Test(Test::Is {
                        field: Field::Proto,
                        value: u64::from(proto),
                    });
                }
                return Pred::No;
            }
            Pred::Test(test)
        }
        Test::Within {
            field: tested,
            value: block,
            length,
        } => {
            if are_same(field, tested) {
                return verdict(first_bits(length, value) == first_bits(length, block));
            }
            Pred::Test(test)
        }
    }
}

/// All of the predicates; one stands for itself.
fn all_of(mut preds: Items<Pred>) -> Pred
    ensures { result ≡ all preds }
{
    if preds.len() < 2 {
        return match preds.pop() {
            Some(pred) => pred,
            None => Pred::Yes,
        };
    }
    Pred::All(preds)
}

/// Any of the predicates; one stands for itself.
fn any_of(mut preds: Items<Pred>) -> Pred
    ensures { result ≡ any preds }
{
    if preds.len() < 2 {
        return match preds.pop() {
            Some(pred) => pred,
            None => Pred::No,
        };
    }
    Pred::AnyOf(preds)
}

/// The contrary, with Yes and No folded away.
fn not_of(alloc: Global, pred: Pred) -> Result<Pred, OutOfMemory>
    ensures { IfOk result (λ rest. rest ≡ folded_not pred) }
{
    match pred {
        Pred::Yes => Ok(Pred::No),
        Pred::No => Ok(Pred::Yes),
        pred => Ok(Pred::Not(Boxed::new(alloc, pred)?)),
    }
}

/// What is left of a predicate where the field has this value.
#[cycle(residue)]
fn residue(alloc: Global, pred: &Pred, field: Field, value: u64) -> Result<Pred, OutOfMemory>
    ensures { IfOk result (λ rest. rest ≡ residue_of field value pred.now) }
{
    match pred {
        Pred::Yes => Ok(Pred::Yes),
        Pred::No => Ok(Pred::No),
        Pred::Test(test) => Ok(residue_of_test(*test, field, value)),
        Pred::All(preds) => residue_of_all(alloc, preds.as_slice(), field, value),
        Pred::AnyOf(preds) => residue_of_any(alloc, preds.as_slice(), field, value),
        Pred::Not(pred) => not_of(alloc, residue(alloc, pred.get(), field, value)?),
    }
}

/// What is left of all of the predicates.
#[cycle(residue)]
fn residue_of_all(
    alloc: Global,
    preds: &[Pred],
    field: Field,
    value: u64,
) -> Result<Pred, OutOfMemory>
    ensures { IfOk result (λ rest. rest ≡ folded_all (residues field value preds.now)) }
{
    let mut kept = Items::new(alloc);
    for pred in preds {
        match residue(alloc, pred, field, value)? {
            Pred::Yes => {}
            Pred::No => return Ok(Pred::No),
            rest => kept.push(rest)?,
        }
    }
    Ok(all_of(kept))
}

/// What is left of any of the predicates.
#[cycle(residue)]
fn residue_of_any(
    alloc: Global,
    preds: &[Pred],
    field: Field,
    value: u64,
) -> Result<Pred, OutOfMemory>
    ensures { IfOk result (λ rest. rest ≡ folded_any (residues field value preds.now)) }
{
    let mut kept = Items::new(alloc);
    for pred in preds {
        match residue(alloc, pred, field, value)? {
            Pred::No => {}
            Pred::Yes => return Ok(Pred::Yes),
            rest => kept.push(rest)?,
        }
    }
    Ok(any_of(kept))
}

/// What is left of the predicate where the field has this value: it holds of a packet with that value exactly where the predicate does.
pub fn partial(alloc: Global, pred: &Pred, field: Field, value: u64) -> Result<Pred, OutOfMemory>
    ensures is { IfOk result (λ rest. rest ≡ residue_of field value pred.now) }
    ensures same { IfOk result (λ rest. (p : Packet) → field_of field p ≡ value →
        holds rest p ≡ holds pred.now p) }
{
    residue(alloc, pred, field, value)
}
