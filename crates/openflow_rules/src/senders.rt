//! The hosts that packets of a predicate come from, of those from which walks lead to where the packets go.

ghost use Rattle.std.specs.Prelude.{◌≡◌, ◌<◌, ◌↔◌, [], length, IsTrue, IfOk, OnOk};
ghost use Rattle.std.specs.List.{AllByRecursion};
ghost use Rattle.merlin_model.specs.Networks.{Pairwise};
ghost use Rattle.merlin_model.specs.Predicates.{IsPred};
ghost use Rattle.predicate_logic.specs.Residues.{is_no};
ghost use Rattle.openflow_rules.specs.Gathered.{AreAllBelow};
ghost use Rattle.openflow_rules.specs.Sources.{IsRowWithin, HoldsNowhereFrom, SendsTo, SendsAlong};
ghost use Rattle.openflow_rules.specs.Sources.{IsPutIf, AreSenders};

use crate::cells::host_address;
use crate::walk_rows::WalkRow;
use merlin_model::OutOfMemory;
use merlin_model::network::HostAddress;
use merlin_model::policy::{Field, Pred};
use predicate_logic::partial;
use predicate_split::holds_between;
use std::alloc::Global;
use topology::Topology;

/// Whether the predicate says that it holds nowhere.
fn is_never(pred: &Pred) -> bool
    ensures { result ≡ is_no pred.now }
{
    matches!(pred, Pred::No)
}

/// Whether the predicate is seen at once to hold of no packet from this source.
fn is_shut(alloc: Global, pred: &Pred, source: HostAddress) -> Result<bool, OutOfMemory>
    ensures { IfOk result (λ shut. IsTrue shut → HoldsNowhereFrom source pred.now) }
{
    let left = partial(alloc, pred, Field::EthSrc, source.eth)?;
    let left = partial(alloc, &left, Field::IpSrc, u64::from(source.ip))?;
    Ok(is_never(&left))
}

/// Whether the predicate holds of a packet from a host to the row's, and a walk leads there.
fn sends_to(
    alloc: Global,
    net: &Topology,
    pred: &Pred,
    source: usize,
    row: &WalkRow,
) -> Result<bool, OutOfMemory>
    requires formed { IsPred pred.now }
    requires source { source < length net.now.locations }
    requires row { IsRowWithin (length net.now.locations) row.now }
    ensures { IfOk result (λ found. IsTrue found ↔ SendsTo net.now pred.now source row.now) }
{
    if !row.marks.as_slice()[source] {
        return Ok(false);
    }
    let from = host_address(net, source);
    let to = host_address(net, row.dest);
    holds_between(alloc, pred, from, to)
}

/// Whether that is so of one of the rows.
fn sends_along(
    alloc: Global,
    net: &Topology,
    pred: &Pred,
    source: usize,
    rows: &[WalkRow],
) -> Result<bool, OutOfMemory>
    requires formed { IsPred pred.now }
    requires source { source < length net.now.locations }
    requires rows { AllByRecursion (IsRowWithin (length net.now.locations)) rows.now }
    ensures { IfOk result (λ found. IsTrue found ↔ SendsAlong net.now pred.now rows.now source) }
{
    if is_shut(alloc, pred, host_address(net, source))? {
        return Ok(false);
    }
    for row in rows {
        if sends_to(alloc, net, pred, source, row)? {
            return Ok(true);
        }
    }
    Ok(false)
}

/// Puts the host behind the others, if it sends.
fn put_if_sending(
    alloc: Global,
    net: &Topology,
    pred: &Pred,
    source: usize,
    rows: &[WalkRow],
    found: &mut Vec<usize>,
) -> Result<(), OutOfMemory>
    requires formed { IsPred pred.now }
    requires source { source < length net.now.locations }
    requires rows { AllByRecursion (IsRowWithin (length net.now.locations)) rows.now }
    ensures { OnOk result (IsPutIf (SendsAlong net.now pred.now rows.now source) source
        found.old.items found.new.items) }
{
    if sends_along(alloc, net, pred, source, rows)? {
        found.push(source)?;
    }
    Ok(())
}

/// Those of the hosts that send, in order.
pub fn senders(
    alloc: Global,
    net: &Topology,
    pred: &Pred,
    rows: &[WalkRow],
    hosts: &[usize],
) -> Result<Vec<usize>, OutOfMemory>
    requires formed { IsPred pred.now }
    requires rows { AllByRecursion (IsRowWithin (length net.now.locations)) rows.now }
    requires hosts { AreAllBelow (length net.now.locations) hosts.now }
    requires ascend { Pairwise (λ a b. a < b) hosts.now }
    ensures { IfOk result (λ found.
        AreSenders net.now pred.now rows.now hosts.now found.items) }
{
    let mut found = Vec::new(alloc);
    for host in hosts {
        put_if_sending(alloc, net, pred, *host, rows, &mut found)?;
    }
    Ok(found)
}
