//! Whether a predicate can hold between two hosts.

ghost use Rattle.std.specs.Prelude.{◌↔◌, IsTrue, IfOk};
ghost use Rattle.merlin_model.specs.Predicates.{IsPred};
ghost use Rattle.predicate_split.specs.Between.{HoldsBetween};

use crate::least::least_from;
use crate::left::pred_between;
use merlin_model::OutOfMemory;
use merlin_model::network::HostAddress;
use merlin_model::policy::{Field, Pred};
use packet_model::packet_of;
use std::alloc::Global;

/// The fields of a packet beside its addresses.
const OTHER_FIELDS: [Field; 3] = [Field::Proto, Field::Sport, Field::Dport];

/// Whether the predicate holds of some packet from one host to another, by the addresses of both. Classes are not counted.
pub fn holds_between(
    alloc: Global,
    pred: &Pred,
    src: HostAddress,
    dst: HostAddress,
) -> Result<bool, OutOfMemory>
    requires { IsPred pred.now }
    ensures { IfOk result (λ found. IsTrue found ↔ HoldsBetween src dst pred.now) }
{
    let Some(packet) = packet_of(src.eth, dst.eth, src.ip, dst.ip, 0, 0, 0) else {
        return Ok(false);
    };
    let left = pred_between(alloc, pred, src, dst)?;
    let found = least_from(alloc, &left, &OTHER_FIELDS, packet)?;
    Ok(found.is_some())
}
