//! The lines of a result before its configuration and its certificate.
ghost use Rattle.std.specs.Prelude.{◌≡◌, ◌++◌, IfOk};
ghost use Rattle.config_text.specs.Lines.{config_lines};
ghost use Rattle.result_heads.specs.Heads.{certificate_lines};
ghost use Rattle.merlin_compile.specs.Written.{solved_lines, partial_lines};
ghost use Rattle.merlin_compile.specs.Written.{IsSolvedFromSome, IsPartialFromSome};

use crate::outcome::{Partial, Solved};
use merlin_base::{Name, OutOfMemory};
use result_heads::{budget_head, loads_from, ok_head};
use std::alloc::Global;

/// The lines of a least result before its configuration and its certificate, each with its newline.
pub fn solved_head(alloc: Global, solved: &Solved) -> Result<Vec<Name>, OutOfMemory>
    requires { IsSolvedFromSome solved.now }
    ensures { IfOk result (λ lines. lines.items
        ++ (config_lines solved.now.net solved.now.config ++ certificate_lines solved.now.tree) ≡
        solved_lines solved.now) }
{
    result_heads::laws::result_has_three_parts();
    result_heads::laws::assigned_walks_have_symbols();
    result_heads::laws::guarantees_are_within_capacities();
    let loads = loads_from(alloc, &solved.net, solved.config.queues.as_slice())?;
    ok_head(
        alloc,
        &solved.net,
        solved.objective,
        solved.value,
        solved.ids.as_slice(),
        solved.walks.as_slice(),
        &loads,
    )
}

/// The lines of a spent budget before its tree, each with its newline.
pub fn partial_head(alloc: Global, partial: &Partial) -> Result<Vec<Name>, OutOfMemory>
    requires { IsPartialFromSome partial.now }
    ensures { IfOk result (λ lines. lines.items ++ certificate_lines partial.now.tree ≡
        partial_lines partial.now) }
{
    result_heads::laws::assigned_walks_have_symbols();
    budget_head(
        alloc,
        &partial.net,
        partial.objective,
        partial.ids.as_slice(),
        &partial.best,
        partial.bound,
    )
}
