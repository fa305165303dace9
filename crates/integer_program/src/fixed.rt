//! Boxes.

ghost use Rattle.std.specs.Prelude.{◌≡◌, ◌<◌, ◌↔◌, length, slice_set, replicate, None, IfOk, IsTrue};
ghost use Rattle.std.specs.Option.{option_copied};
ghost use Rattle.merlin_model.specs.Programs.{Takes, variables};
ghost use Rattle.merlin_model.specs.Trees.{fixed_at, IsOpen};

use crate::program::Program;
use merlin_model::OutOfMemory;
use sqlite_items::Items;
use std::alloc::Global;
use std::marker::Model;

/// A box: for each variable the number to which it is fixed, if it is.
#[derive(Drop)]
pub struct Fixed {
    places: Items<Option<bool>>,
}

impl Model for Fixed {
    ghost use Rattle.std.specs.Prelude.{List, Option, Bool};

    ghost Value = { List (Option Bool) };

    ghost view = { λ it. it.places };
}

impl Fixed {
    /// The box that fixes none of so many variables.
    pub fn free(alloc: Global, variables: usize) -> Result<Fixed, OutOfMemory>
        ensures { IfOk result (λ fixed. fixed ≡ replicate variables None) }
    {
        let places = vec![in alloc; None; variables]?;
        Ok(Fixed {
            places: Items::from_vec(places),
        })
    }

    /// The number of variables.
    pub fn len(&self) -> usize
        ensures { result ≡ length self.now }
    {
        self.places.len()
    }

    /// To what a variable is fixed, if it is.
    pub fn get(&self, variable: usize) -> Option<bool>
        requires { variable < length self.now }
        ensures { result ≡ fixed_at self.now variable }
    {
        self.places.as_slice()[variable]
    }

    /// Fixes a variable, or sets it free. No other place changes.
    pub fn set(&mut self, variable: usize, to: Option<bool>)
        requires { variable < length self.old }
        ensures { self.new ≡ slice_set self.old variable to }
    {
        self.places.set(variable, to);
    }
}

/// Whether a variable is open in a box: it exists, is not fixed, and may be 1.
pub fn is_open<P: Program>(
    program: &P,
    cutoff: Option<&P::Cutoff>,
    fixed: &Fixed,
    variable: usize,
) -> bool
    requires takes { Takes (P.takes program.now) (option_copied cutoff) }
    requires size { length fixed.now ≡ variables (P.instance program.now None) }
    ensures { let stated = P.instance program.now (option_copied cutoff.entry) in
        IsTrue result ↔ IsOpen stated fixed.now variable }
{
    if program.variables() <= variable {
        return false;
    }
    match fixed.get(variable) {
        None => program.upper(variable, cutoff),
        Some(_) => false,
    }
}
