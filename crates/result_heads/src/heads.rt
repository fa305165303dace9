//! The lines of a result before its configuration, and those of the other two texts before their certificate.

ghost use Rattle.std.specs.Prelude.{◌≡◌, ◌++◌, ◌<◌, length, zip, Some, IfOk, OnOk, option_map};
ghost use Rattle.std.specs.List.{All, AllByRecursion};
ghost use Rattle.merlin_model.specs.Words.{IsSymbol};
ghost use Rattle.result_heads.specs.Heads.{ok_head_lines, infeasible_head_lines, best_lines, budget_head_lines, HasBestSymbols};

use crate::lines::{objective_words, push_line, push_value};
use crate::walks::push_walks;
use config_text::{Load, print_loads};
use merlin_base::{Name, OutOfMemory};
use merlin_model::policy::{Objective, Symbol, Value};
use sqlite_items::Items;
use std::alloc::Global;
use topology::Topology;

/// The lines of a result up to its configuration: what was asked for, with its value, a walk for each id, and the loads.
pub fn ok_head(
    alloc: Global,
    net: &Topology,
    objective: Objective,
    value: Value,
    ids: &[Name],
    walks: &[Items<Symbol>],
    loads: &[Load],
) -> Result<Vec<Name>, OutOfMemory>
    requires symbols { AllByRecursion (AllByRecursion (IsSymbol net.now)) walks.now }
    requires loads { All (λ load. load.loc < length net.now.locations) loads.now }
    ensures { IfOk result (λ lines. lines.items ≡
        ok_head_lines net.now objective value (zip ids.now walks.now) loads.now) }
{
    let mut lines = Vec::new(alloc);
    push_line(alloc, &mut lines, "merlin 2 ok")?;
    push_value(alloc, &mut lines, objective_words(objective), value)?;
    push_walks(alloc, &mut lines, net, ids, walks)?;
    lines.append(&mut print_loads(alloc, loads, net)?)?;
    Ok(lines)
}

/// The lines that say that no assignment is feasible, up to the certificate.
pub fn infeasible_head(alloc: Global, objective: Objective) -> Result<Vec<Name>, OutOfMemory>
    ensures { IfOk result (λ lines. lines.items ≡ infeasible_head_lines objective) }
{
    let mut lines = Vec::new(alloc);
    push_line(alloc, &mut lines, "merlin 2 infeasible")?;
    push_line(alloc, &mut lines, objective_words(objective))?;
    Ok(lines)
}

// Adds the lines of the best walks, if any were found.
fn push_best(
    alloc: Global,
    lines: &mut Vec<Name>,
    net: &Topology,
    ids: &[Name],
    best: &Option<(Value, Items<Items<Symbol>>)>,
) -> Result<(), OutOfMemory>
    requires { HasBestSymbols net.now best.now }
    ensures { OnOk result (lines.new.items ≡
        lines.old.items ++ best_lines net.now ids.now best.now) }
{
    match best {
        None => push_line(alloc, lines, "best none"),
        Some((value, walks)) => {
            push_value(alloc, lines, "best", *value)?;
            push_walks(alloc, lines, net, ids, walks.as_slice())
        }
    }
}

/// The lines that say that a budget is spent, up to the tree: the best walks that were found, with their value, and a bound.
pub fn budget_head(
    alloc: Global,
    net: &Topology,
    objective: Objective,
    ids: &[Name],
    best: &Option<(Value, Items<Items<Symbol>>)>,
    bound: Value,
) -> Result<Vec<Name>, OutOfMemory>
    requires { HasBestSymbols net.now best.now }
    ensures { IfOk result (λ lines. lines.items ≡
        budget_head_lines net.now objective ids.now best.now bound) }
{
    let mut lines = Vec::new(alloc);
    push_line(alloc, &mut lines, "merlin 2 budget")?;
    push_line(alloc, &mut lines, objective_words(objective))?;
    push_best(alloc, &mut lines, net, ids, best)?;
    push_value(alloc, &mut lines, "bound", bound)?;
    Ok(lines)
}
