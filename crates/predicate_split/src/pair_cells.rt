//! What a first switch tells apart of the packets between two hosts: cells that match a protocol and ports of it, or stars, by falling priority.

ghost use Rattle.std.specs.Prelude.{◌≡◌, ◌≤◌, ◌<◌, ◌^◌, ◌+◌, ◌++◌, sum_by, length, IfOk, IfErr, OnOk, option_to_list};
ghost use Rattle.std.specs.List.{AllByRecursion};
ghost use Rattle.merlin_model.specs.declared.policy.Field.TheVariants.{Proto as ProtoField};
ghost use Rattle.merlin_model.specs.Predicates.{IsPred};
ghost use Rattle.predicate_split.specs.declared.fault.TheConstants.{MAX_CELLS};
ghost use Rattle.predicate_split.specs.Classes.{zero_packet};
ghost use Rattle.predicate_split.specs.Left.{named_by as named_of};
ghost use Rattle.predicate_split.specs.Cells.{cells_between, RefusesCells};
ghost use Rattle.predicate_split.specs.Grids.{NamesPorts, grid_size, IsGrownByGrid, IsGrown, AreCellsUnder, other_cells, cells_left, RefusesRoom};

use crate::fault::{MAX_CELLS, SplitFault};
use crate::grids::{Grid, add_rows, grid_of, grid_within};
use crate::left::{entries_between, named_by};
use crate::pairs::{PlacedPred, holder};
use crate::parts::least_from;
use merlin_model::OutOfMemory;
use merlin_model::network::HostAddress;
use merlin_model::policy::{Field, Pred};
use packet_model::{Packet, packet_of};
use std::alloc::Global;

/// What is matched of a packet between two hosts: its protocol and its ports. None is a star, which matches everything. The owner is the place of the
/// first predicate that holds of the packets that no earlier cell fits, and None where none does.
#[derive(Clone, Copy)]
pub struct Cell {
    pub proto: Option<u8>,
    pub sport: Option<u16>,
    pub dport: Option<u16>,
    pub owner: Option<usize>,
}

/// The cells of some protocols: those that match both ports, the source port alone, the destination port alone, and neither.
#[derive(Drop)]
pub struct Ranks {
    pub both: Vec<Cell>,
    pub sport: Vec<Cell>,
    pub dport: Vec<Cell>,
    pub neither: Vec<Cell>,
}

/// Adds the cells of a grid.
fn add_grid(alloc: Global, grid: &Grid, ranks: &mut Ranks) -> Result<(), OutOfMemory>
    ensures { OnOk result (IsGrownByGrid grid.now ranks.old ranks.new) }
{
    add_rows(alloc, grid, &grid.sports, &grid.dports, &mut ranks.both)?;
    add_rows(
        alloc,
        grid,
        &grid.sports,
        &grid.other_dports,
        &mut ranks.sport,
    )?;
    add_rows(
        alloc,
        grid,
        &grid.other_sports,
        &grid.dports,
        &mut ranks.dport,
    )?;
    add_rows(
        alloc,
        grid,
        &grid.other_sports,
        &grid.other_dports,
        &mut ranks.neither,
    )
}

/// Adds the cells of a protocol, if there is room for them, and says how many they are.
fn add_protocol(
    alloc: Global,
    left: &[PlacedPred],
    zero: Packet,
    proto: u64,
    room: u64,
    ranks: &mut Ranks,
) -> Result<u64, SplitFault>
    requires zero { zero ≡ zero_packet }
    requires proto { proto < 2 ^ 8 }
    requires ports { NamesPorts left.now }
    ensures size { IfOk result (λ size. size ≡ grid_size left.now proto) }
    ensures within { IfOk result (λ size. size ≤ room) }
    ensures grown { OnOk result (IsGrown left.now proto ranks.old ranks.new) }
    ensures err { IfErr result (RefusesRoom (grid_size left.now proto) room) }
{
    let grid = grid_of(alloc, left, zero, proto)?;
    let Some(size) = grid_within(&grid, room) else {
        return Err(SplitFault::TooManyCells {
            count: MAX_CELLS + 1,
        });
    };
    add_grid(alloc, &grid, ranks)?;
    Ok(size)
}

/// The cells of these protocols, if there is room for them.
fn ranks_of(
    alloc: Global,
    left: &[PlacedPred],
    zero: Packet,
    protos: &[u64],
    room: u64,
) -> Result<Ranks, SplitFault>
    requires zero { zero ≡ zero_packet }
    requires protos { AllByRecursion (λ n. n < 2 ^ 8) protos.now }
    requires ports { NamesPorts left.now }
    ensures cells { IfOk result (AreCellsUnder left.now protos.now) }
    ensures within { IfOk result (λ _. sum_by (grid_size left.now) protos.now ≤ room) }
    ensures err { IfErr result (RefusesRoom (sum_by (grid_size left.now) protos.now) room) }
{
    let mut ranks = Ranks {
        both: Vec::new(alloc),
        sport: Vec::new(alloc),
        dport: Vec::new(alloc),
        neither: Vec::new(alloc),
    };
    let mut count = 0;
    for proto in protos {
        count += add_protocol(alloc, left, zero, *proto, room - count, &mut ranks)?;
    }
    Ok(ranks)
}

/// The cell for all protocols that are not mentioned, if there are such.
fn other_proto(left: &[PlacedPred], zero: Packet, named: &[u64]) -> Option<Cell>
    requires { zero ≡ zero_packet }
    ensures { option_to_list result ≡ other_cells left.now named.now }
{
    let least = least_from(0, named);
    if least < 1 << 8 {
        return Some(Cell {
            proto: None,
            sport: None,
            dport: None,
            owner: holder(left, &zero.with(Field::Proto, least)),
        });
    }
    None
}

/// How many cells there may be beside this one, if there is one.
fn room_beside(other: &Option<Cell>) -> u64
    ensures { result + length (option_to_list other.now) ≡ MAX_CELLS }
{
    match other {
        Some(_cell) => MAX_CELLS - 1,
        None => MAX_CELLS,
    }
}

/// All cells, one rank after the other.
fn joined(ranks: Ranks, other: Option<Cell>) -> Result<Vec<Cell>, OutOfMemory>
    ensures { IfOk result (λ cells. cells.items ≡
        (((ranks.both.items ++ ranks.sport.items) ++ ranks.dport.items) ++ ranks.neither.items) ++
        option_to_list other) }
{
    let Ranks {
        both: mut cells,
        mut sport,
        mut dport,
        mut neither,
    } = ranks;
    cells.append(&mut sport)?;
    cells.append(&mut dport)?;
    cells.append(&mut neither)?;
    if let Some(cell) = other {
        cells.push(cell)?;
    }
    Ok(cells)
}

/// The cells of what is left of the predicates between two hosts.
fn cells_of(alloc: Global, left: &[PlacedPred], zero: Packet) -> Result<Vec<Cell>, SplitFault>
    requires zero { zero ≡ zero_packet }
    requires protos { AllByRecursion (λ n. n < 2 ^ 8) (named_of ProtoField left.now) }
    requires ports { NamesPorts left.now }
    ensures cells { IfOk result (λ cells. cells.items ≡ cells_left left.now) }
    ensures few { IfOk result (λ cells. length cells.items ≤ MAX_CELLS) }
    ensures err { IfErr result (RefusesRoom (length (cells_left left.now)) MAX_CELLS) }
{
    let named = named_by(alloc, left, Field::Proto)?;
    let other = other_proto(left, zero, &named);
    let ranks = ranks_of(alloc, left, zero, &named, room_beside(&other))?;
    let cells = joined(ranks, other)?;
    Ok(cells)
}

/// The cells of a pair of hosts. Of those that fit a proper packet the first names as owner the first predicate that holds of it.
pub fn cells(
    alloc: Global,
    preds: &[Pred],
    src: HostAddress,
    dst: HostAddress,
) -> Result<Vec<Cell>, SplitFault>
    requires { AllByRecursion IsPred preds.now }
    ensures cells { IfOk result (λ cells. cells.items ≡ cells_between preds.now src dst) }
    ensures few { IfOk result (λ cells. length cells.items ≤ MAX_CELLS) }
    ensures err { IfErr result (RefusesCells preds.now src dst) }
{
    let Some(zero) = packet_of(0, 0, 0, 0, 0, 0, 0) else {
        return Ok(Vec::new(alloc));
    };
    let left = entries_between(alloc, preds, src, dst)?;
    cells_of(alloc, left.as_slice(), zero)
}
