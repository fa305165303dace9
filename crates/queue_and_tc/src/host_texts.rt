//! The lines of a host: its classes, then what its list POSTROUTING and its list OUTPUT say, by destination and cell.

ghost use Rattle.std.specs.Prelude.{◌≡◌, ◌++◌, map, is_some, OnOk, IfOk};
ghost use Rattle.std.specs.List.{flat_map, list_any};
ghost use Rattle.queue_and_tc.specs.HostTexts.{owner_in, class_in, out_in, match_between, class_line, class_lines_in, headed_by, reading_by, reading_in, readings_in, output_in, outputs_in, lines_in};

use crate::reaches::{Host, Reach};
use crate::standings::Standing;
use merlin_model::OutOfMemory;
use merlin_model::config::{HostLine, HostMatch};
use predicate_split::Cell;
use std::alloc::Global;

// The class of a cell's owner, or of the default.
fn class_of(standings: &[Standing], default: usize, cell: &Cell) -> Option<u16>
    ensures { result ≡ class_in standings.now (owner_in default cell.now) }
{
    let owner = cell.owner.unwrap_or(default);
    standings.get(owner)?.class
}

// Whether a cell's owner is dropped.
fn is_out(standings: &[Standing], default: usize, cell: &Cell) -> bool
    ensures { result ≡ out_in standings.now (owner_in default cell.now) }
{
    let owner = cell.owner.unwrap_or(default);
    match standings.get(owner) {
        Some(standing) => standing.is_out,
        None => false,
    }
}

fn match_of(host: Host, reach: &Reach, cell: &Cell) -> HostMatch
    ensures { result ≡ match_between host reach.now cell.now }
{
    HostMatch {
        src: host.address.ip,
        dst: reach.dest.ip,
        proto: cell.proto,
        sport: cell.sport,
        dport: cell.dport,
    }
}

// Adds the class of a statement, if it has one.
fn add_class(
    alloc: Global,
    host: usize,
    standing: &Standing,
    lines: &mut Vec<HostLine>,
) -> Result<(), OutOfMemory>
    ensures { OnOk result (lines.new.items ≡ lines.old.items ++ class_line host standing.now) }
{
    if let Some(class) = standing.class {
        lines.push(HostLine::Class {
            host,
            class,
            rate: standing.rate,
            ceil: standing.ceiling,
        })?;
    }
    Ok(())
}

// The classes of a host.
fn class_lines(
    alloc: Global,
    host: usize,
    standings: &[Standing],
) -> Result<Vec<HostLine>, OutOfMemory>
    ensures { IfOk result (λ lines. lines.items ≡ class_lines_in host standings.now) }
{
    let mut lines = Vec::new(alloc);
    for standing in standings {
        add_class(alloc, host, standing, &mut lines)?;
    }
    Ok(lines)
}

// Adds lines of classes, with the root before them if there are any.
fn add_headed(
    alloc: Global,
    host: usize,
    classes: &[HostLine],
    lines: &mut Vec<HostLine>,
) -> Result<(), OutOfMemory>
    ensures { OnOk result (lines.new.items ≡ lines.old.items ++ headed_by host classes.now) }
{
    if !classes.is_empty() {
        lines.push(HostLine::Root { host })?;
        lines.extend_from_slice(classes)?;
    }
    Ok(())
}

// Adds the classes of a host.
fn add_classes(
    alloc: Global,
    host: usize,
    standings: &[Standing],
    lines: &mut Vec<HostLine>,
) -> Result<(), OutOfMemory>
    ensures { OnOk result (lines.new.items ≡
        lines.old.items ++ headed_by host (class_lines_in host standings.now)) }
{
    let classes = class_lines(alloc, host, standings)?;
    add_headed(alloc, host, &classes, lines)
}

// Adds what a cell says in the list POSTROUTING.
fn add_reading(
    alloc: Global,
    host: usize,
    fits: HostMatch,
    class: Option<u16>,
    lines: &mut Vec<HostLine>,
) -> Result<(), OutOfMemory>
    ensures { OnOk result (lines.new.items ≡ lines.old.items ++ reading_by host fits class) }
{
    if let Some(class) = class {
        lines.push(HostLine::Classify { host, fits, class })?;
    }
    lines.push(HostLine::Leave { host, fits })?;
    Ok(())
}

// Adds what all cells of a destination say there.
fn add_all_readings(
    alloc: Global,
    host: Host,
    standings: &[Standing],
    default: usize,
    reach: &Reach,
    lines: &mut Vec<HostLine>,
) -> Result<(), OutOfMemory>
    ensures { OnOk result (lines.new.items ≡ lines.old.items ++
        flat_map (reading_in host standings.now default reach.now) reach.now.cells) }
{
    for cell in reach.cells.as_slice() {
        let fits = match_of(host, reach, cell);
        let class = class_of(standings, default, cell);
        add_reading(alloc, host.loc, fits, class, lines)?;
    }
    Ok(())
}

// Whether some cell has a class.
fn is_some_classed(standings: &[Standing], default: usize, cells: &[Cell]) -> bool
    ensures { result ≡ list_any
        (λ c. is_some (class_in standings.now (owner_in default c))) cells.now }
{
    cells
        .iter()
        .any(|cell| class_of(standings, default, cell).is_some())
}

// Adds them where some cell has a class.
fn add_readings(
    alloc: Global,
    host: Host,
    standings: &[Standing],
    default: usize,
    reach: &Reach,
    lines: &mut Vec<HostLine>,
) -> Result<(), OutOfMemory>
    ensures { OnOk result (lines.new.items ≡
        lines.old.items ++ readings_in host standings.now default reach.now) }
{
    if is_some_classed(standings, default, reach.cells.as_slice()) {
        return add_all_readings(alloc, host, standings, default, reach, lines);
    }
    Ok(())
}

// Adds what all cells of a destination say in the list OUTPUT.
fn add_all_outputs(
    alloc: Global,
    host: Host,
    standings: &[Standing],
    default: usize,
    reach: &Reach,
    lines: &mut Vec<HostLine>,
) -> Result<(), OutOfMemory>
    ensures { OnOk result (lines.new.items ≡ lines.old.items ++
        map (output_in host standings.now default reach.now) reach.now.cells) }
{
    for cell in reach.cells.as_slice() {
        lines.push(HostLine::Output {
            host: host.loc,
            fits: match_of(host, reach, cell),
            drop: is_out(standings, default, cell),
        })?;
    }
    Ok(())
}

// Whether some cell's owner is dropped.
fn is_some_out(standings: &[Standing], default: usize, cells: &[Cell]) -> bool
    ensures { result ≡ list_any (λ c. out_in standings.now (owner_in default c)) cells.now }
{
    cells.iter().any(|cell| is_out(standings, default, cell))
}

// Adds them where some cell's owner is dropped.
fn add_outputs(
    alloc: Global,
    host: Host,
    standings: &[Standing],
    default: usize,
    reach: &Reach,
    lines: &mut Vec<HostLine>,
) -> Result<(), OutOfMemory>
    ensures { OnOk result (lines.new.items ≡
        lines.old.items ++ outputs_in host standings.now default reach.now) }
{
    if is_some_out(standings, default, reach.cells.as_slice()) {
        return add_all_outputs(alloc, host, standings, default, reach, lines);
    }
    Ok(())
}

// Adds the list POSTROUTING.
fn add_postrouting(
    alloc: Global,
    host: Host,
    standings: &[Standing],
    default: usize,
    reaches: &[Reach],
    lines: &mut Vec<HostLine>,
) -> Result<(), OutOfMemory>
    ensures { OnOk result (lines.new.items ≡
        lines.old.items ++ flat_map (readings_in host standings.now default) reaches.now) }
{
    for reach in reaches {
        add_readings(alloc, host, standings, default, reach, lines)?;
    }
    Ok(())
}

// Adds the list OUTPUT.
fn add_output(
    alloc: Global,
    host: Host,
    standings: &[Standing],
    default: usize,
    reaches: &[Reach],
    lines: &mut Vec<HostLine>,
) -> Result<(), OutOfMemory>
    ensures { OnOk result (lines.new.items ≡
        lines.old.items ++ flat_map (outputs_in host standings.now default) reaches.now) }
{
    for reach in reaches {
        add_outputs(alloc, host, standings, default, reach, lines)?;
    }
    Ok(())
}

/// Adds all lines of a host.
pub(crate) fn add_lines(
    alloc: Global,
    host: Host,
    standings: &[Standing],
    default: usize,
    reaches: &[Reach],
    lines: &mut Vec<HostLine>,
) -> Result<(), OutOfMemory>
    ensures { OnOk result (lines.new.items ≡
        lines.old.items ++ lines_in host standings.now default reaches.now) }
{
    add_classes(alloc, host.loc, standings, lines)?;
    add_postrouting(alloc, host, standings, default, reaches, lines)?;
    add_output(alloc, host, standings, default, reaches, lines)
}
