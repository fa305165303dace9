//! The cells of one protocol: a row for each source port that is told apart, with a cell for each destination port.

ghost use Rattle.std.specs.Prelude.{◌≡◌, ◌<◌, ◌≤◌, ◌*◌, ◌^◌, ◌++◌, ℕ, [], if◌then◌else◌, true, false, IfOk, OnOk, MatchOption};
ghost use Rattle.std.specs.List.{AllByRecursion};
ghost use Rattle.predicate_split.specs.Grids.{ports_by as ports_named, port_choices, cell_row, rows_of, IsGrid, NamesPorts, cells_in};
ghost use Rattle.merlin_model.specs.Packets.{field_of};
ghost use Rattle.merlin_model.specs.Predicates.{IsPort};
ghost use Rattle.packet_model.specs.Fields.{packet_with};
ghost use Rattle.predicate_split.specs.Classes.{zero_packet};
ghost use Rattle.predicate_split.specs.Stretches.{IsInStretch};

use crate::left::{entries_at, named_by};
use crate::pair_cells::Cell;
use crate::pairs::{PlacedPred, holder};
use crate::parts::{has_field, least_from};
use crate::stretches::{Stretch, entries_within};
use merlin_model::OutOfMemory;
use merlin_model::policy::Field;
use packet_model::Packet;
use sqlite_items::Items;
use std::alloc::Global;

/// So many ports are not halved.
const FEW: usize = 8;

/// What a cell matches of a port, and the least port that stands for it. None is a star.
#[derive(Clone, Copy)]
pub struct Choice {
    pub port: Option<u16>,
    pub value: u16,
}

/// A protocol, by a packet of it: the predicates that can hold under it, and of the source and the destination ports those that are mentioned
/// and, apart, a star for all others.
#[derive(Drop)]
pub struct Grid {
    pub packet: Packet,
    pub entries: Items<PlacedPred>,
    pub sports: Vec<Choice>,
    pub other_sports: Vec<Choice>,
    pub dports: Vec<Choice>,
    pub other_dports: Vec<Choice>,
}

/// Each of the ports.
fn each_port(alloc: Global, named: &[u64]) -> Result<Vec<Choice>, OutOfMemory>
    requires { AllByRecursion (λ n. n < 2 ^ 16) named.now }
    ensures { IfOk result (λ each. each.items ≡ port_choices true named.now) }
{
    let mut each = Vec::new(alloc);
    for value in named {
        let value = *value as u16;
        each.push(Choice {
            port: Some(value),
            value,
        })?;
    }
    Ok(each)
}

/// A star for the ports that are not among these, if there is one.
fn other_port(alloc: Global, named: &[u64]) -> Result<Vec<Choice>, OutOfMemory>
    ensures { IfOk result (λ other. other.items ≡ port_choices false named.now) }
{
    let mut other = Vec::new(alloc);
    let least = least_from(0, named);
    if least < 1 << 16 {
        other.push(Choice {
            port: None,
            value: least as u16,
        })?;
    }
    Ok(other)
}

/// The ports that the entries mention under a protocol.
fn ports_by(
    alloc: Global,
    entries: &[PlacedPred],
    field: Field,
    proto: u64,
) -> Result<Vec<u64>, OutOfMemory>
    ensures { IfOk result (λ ports. ports.items ≡ ports_named field proto entries.now) }
{
    if has_field(Field::Sport, proto) {
        return named_by(alloc, entries, field);
    }
    Ok(Vec::new(alloc))
}

/// What a packet has for a field of ports with this port.
fn value_with(packet: Packet, field: Field, port: u16) -> u64
    requires { IsPort field }
    ensures value { result ≡ field_of field (packet_with packet field port) }
    ensures few { result < 2 ^ 16 }
{
    let packet = packet.with(field, u64::from(port));
    packet.value(field)
}

/// From what a packet has for a field with each of these ports: the least value, and one past the greatest.
fn stretch_of(packet: Packet, field: Field, choices: &[Choice]) -> Stretch
    requires { IsPort field }
    ensures field { result.field ≡ field }
    ensures each { AllByRecursion
        (λ c. IsInStretch result (packet_with packet field c.value)) choices.now }
{
    let mut stretch = Stretch {
        field,
        low: 1 << 16,
        past: 0,
    };
    for choice in choices {
        stretch = stretch.with(value_with(packet, field, choice.value));
    }
    stretch
}

/// Adds the cells of a protocol and a source port with each of these destination ports, of which there are few.
fn add_few_cells(
    alloc: Global,
    entries: &[PlacedPred],
    packet: Packet,
    sport: Choice,
    dports: &[Choice],
    cells: &mut Vec<Cell>,
) -> Result<(), OutOfMemory>
    ensures { OnOk result (cells.new.items ≡
        cells.old.items ++ cell_row entries.now packet sport dports.now) }
{
    let packet = packet.with(Field::Sport, u64::from(sport.value));
    for dport in dports {
        let packet = packet.with(Field::Dport, u64::from(dport.value));
        cells.push(Cell {
            proto: Some(packet.value(Field::Proto) as u8),
            sport: sport.port,
            dport: dport.port,
            owner: holder(entries, &packet),
        })?;
    }
    Ok(())
}

/// Adds the cells of a protocol and a source port with each of these destination ports: half by half, each by what is left of the entries there, so that
/// all tests are looked at as often as the ports can be halved.
#[cycle(add_cells)]
fn add_cells(
    alloc: Global,
    entries: &[PlacedPred],
    packet: Packet,
    sport: Choice,
    dports: &[Choice],
    cells: &mut Vec<Cell>,
) -> Result<(), OutOfMemory>
    ensures { OnOk result (cells.new.items ≡
        cells.old.items ++ cell_row entries.now packet sport dports.now) }
{
    if dports.len() <= FEW {
        return add_few_cells(alloc, entries, packet, sport, dports, cells);
    }
    let (lower, upper) = dports.split_at(dports.len() / 2);
    add_near_cells(alloc, entries, packet, sport, lower, cells)?;
    add_near_cells(alloc, entries, packet, sport, upper, cells)
}

/// The same by what is left of the entries at these ports.
#[cycle(add_cells)]
fn add_near_cells(
    alloc: Global,
    entries: &[PlacedPred],
    packet: Packet,
    sport: Choice,
    dports: &[Choice],
    cells: &mut Vec<Cell>,
) -> Result<(), OutOfMemory>
    ensures { OnOk result (cells.new.items ≡
        cells.old.items ++ cell_row entries.now packet sport dports.now) }
{
    let fixed = packet.with(Field::Sport, u64::from(sport.value));
    let stretch = stretch_of(fixed, Field::Dport, dports);
    let near = entries_within(alloc, entries, stretch)?;
    add_cells(alloc, near.as_slice(), packet, sport, dports, cells)
}

/// Adds the cells of a protocol and a source port, by what is left of the entries once it is fixed.
fn add_row(
    alloc: Global,
    entries: &[PlacedPred],
    packet: Packet,
    sport: Choice,
    dports: &[Choice],
    cells: &mut Vec<Cell>,
) -> Result<(), OutOfMemory>
    ensures { OnOk result (cells.new.items ≡
        cells.old.items ++ cell_row entries.now packet sport dports.now) }
{
    let fixed = packet.with(Field::Sport, u64::from(sport.value));
    let left = entries_at(alloc, entries, Field::Sport, fixed.value(Field::Sport))?;
    add_cells(alloc, left.as_slice(), packet, sport, dports, cells)
}

/// Adds the cells of a protocol with each of these source ports, of which there are few, and each of these destination ports.
fn add_few_rows(
    alloc: Global,
    entries: &[PlacedPred],
    packet: Packet,
    sports: &[Choice],
    dports: &[Choice],
    cells: &mut Vec<Cell>,
) -> Result<(), OutOfMemory>
    ensures { OnOk result (cells.new.items ≡
        cells.old.items ++ rows_of entries.now packet sports.now dports.now) }
{
    for sport in sports {
        add_row(alloc, entries, packet, *sport, dports, cells)?;
    }
    Ok(())
}

/// Adds the cells of a protocol with each of these source ports and each of these destination ports, half by half of the source ports.
#[cycle(add_all_rows)]
fn add_all_rows(
    alloc: Global,
    entries: &[PlacedPred],
    packet: Packet,
    sports: &[Choice],
    dports: &[Choice],
    cells: &mut Vec<Cell>,
) -> Result<(), OutOfMemory>
    ensures { OnOk result (cells.new.items ≡
        cells.old.items ++ rows_of entries.now packet sports.now dports.now) }
{
    if sports.len() <= FEW {
        return add_few_rows(alloc, entries, packet, sports, dports, cells);
    }
    let (lower, upper) = sports.split_at(sports.len() / 2);
    add_near_rows(alloc, entries, packet, lower, dports, cells)?;
    add_near_rows(alloc, entries, packet, upper, dports, cells)
}

/// The same by what is left of the entries at these source ports.
#[cycle(add_all_rows)]
fn add_near_rows(
    alloc: Global,
    entries: &[PlacedPred],
    packet: Packet,
    sports: &[Choice],
    dports: &[Choice],
    cells: &mut Vec<Cell>,
) -> Result<(), OutOfMemory>
    ensures { OnOk result (cells.new.items ≡
        cells.old.items ++ rows_of entries.now packet sports.now dports.now) }
{
    let stretch = stretch_of(packet, Field::Sport, sports);
    let near = entries_within(alloc, entries, stretch)?;
    add_all_rows(alloc, near.as_slice(), packet, sports, dports, cells)
}

/// Adds the cells of a grid with each of these source ports and each of these destination ports.
pub(crate) fn add_rows(
    alloc: Global,
    grid: &Grid,
    sports: &[Choice],
    dports: &[Choice],
    cells: &mut Vec<Cell>,
) -> Result<(), OutOfMemory>
    ensures { OnOk result (cells.new.items ≡
        cells.old.items ++ rows_of grid.now.entries grid.now.packet sports.now dports.now) }
{
    add_all_rows(
        alloc,
        grid.entries.as_slice(),
        grid.packet,
        sports,
        dports,
        cells,
    )
}

/// The ports that are told apart under a protocol.
pub(crate) fn grid_of(
    alloc: Global,
    left: &[PlacedPred],
    zero: Packet,
    proto: u64,
) -> Result<Grid, OutOfMemory>
    requires zero { zero ≡ zero_packet }
    requires proto { proto < 2 ^ 8 }
    requires ports { NamesPorts left.now }
    ensures { IfOk result (IsGrid left.now proto) }
{
    let entries = entries_at(alloc, left, Field::Proto, proto)?;
    let sports = ports_by(alloc, entries.as_slice(), Field::Sport, proto)?;
    let dports = ports_by(alloc, entries.as_slice(), Field::Dport, proto)?;
    Ok(Grid {
        packet: zero.with(Field::Proto, proto),
        entries,
        other_sports: other_port(alloc, &sports)?,
        sports: each_port(alloc, &sports)?,
        other_dports: other_port(alloc, &dports)?,
        dports: each_port(alloc, &dports)?,
    })
}

/// How many cells there are, if there is room for them.
fn size_within(rows: usize, columns: usize, room: u64) -> Option<u64>
    ensures { MatchOption result (room < rows * columns) (λ n. (n ≡ rows * columns) × (n ≤ room)) }
{
    match (rows as u64).checked_mul(columns as u64) {
        Some(size) if size <= room => Some(size),
        _ => None,
    }
}

/// How many cells a protocol has, if there is room for them.
pub(crate) fn grid_within(grid: &Grid, room: u64) -> Option<u64>
    ensures { MatchOption result (room < cells_in grid.now)
        (λ n. (n ≡ cells_in grid.now) × (n ≤ room)) }
{
    let rows = grid.sports.len() + grid.other_sports.len();
    let columns = grid.dports.len() + grid.other_dports.len();
    size_within(rows, columns, room)
}
