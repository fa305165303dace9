//! The box of a node, and the same as a chooser sees it.

ghost use Rattle.std.specs.Prelude.{◌≡◌, ◌<◌, length, None, IfOk};
ghost use Rattle.std.specs.Option.{option_copied};
ghost use Rattle.merlin_model.specs.Programs.{Takes};
ghost use Rattle.merlin_model.specs.Trees.{root_box};
ghost use Rattle.bound_search.specs.Boxes.{with_place, shut_at, AreBoxes};

use integer_program::{Fixed, Program};
use merlin_model::OutOfMemory;
use std::alloc::Global;

/// A box, and the same box in which the variables that may not be 1 are fixed to 0 as well.
#[derive(Drop)]
pub struct Boxes {
    pub plain: Fixed,
    pub shut: Fixed,
}

/// Fixes a variable in both, or sets it free.
pub fn fix_both(boxes: &mut Boxes, variable: usize, to: Option<bool>)
    requires plain { variable < length boxes.old.plain }
    requires shut { variable < length boxes.old.shut }
    ensures { boxes.new ≡ with_place boxes.old variable to }
{
    boxes.plain.set(variable, to);
    boxes.shut.set(variable, to);
}

// To what a free variable is fixed in the shut box.
fn shut_to(upper: bool) -> Option<bool>
    ensures { result ≡ shut_at upper None }
{
    if upper { None } else { Some(false) }
}

/// The box that fixes nothing, and the one that fixes the variables that may not be 1.
pub fn root<P: Program>(
    alloc: Global,
    program: &P,
    cutoff: Option<&P::Cutoff>,
) -> Result<Boxes, OutOfMemory>
    requires { Takes (P.takes program.now) (option_copied cutoff) }
    ensures boxes { IfOk result (AreBoxes (P.instance program.now (option_copied cutoff.entry))) }
    ensures free { let stated = P.instance program.now (option_copied cutoff.entry) in
        IfOk result (λ boxes. boxes.plain ≡ root_box stated) }
{
    let variables = program.variables();
    let plain = Fixed::free(alloc, variables)?;
    let mut shut = Fixed::free(alloc, variables)?;
    for variable in 0..variables {
        shut.set(variable, shut_to(program.upper(variable, cutoff)));
    }
    Ok(Boxes { plain, shut })
}
