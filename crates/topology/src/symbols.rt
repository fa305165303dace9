//! The symbols of a network, in their order.
ghost use Rattle.std.specs.Prelude.{◌≡◌, ◌++◌, IfOk, OnOk};
ghost use Rattle.topology.specs.Symbols.{symbols_at, symbols_among};

use merlin_model::network::FnDecl;
use merlin_model::policy::Symbol;
use std::alloc::{AllocError, Global};

// Adds the symbols at a location.
fn push_symbols_at(
    symbols: &mut Vec<Symbol>,
    functions: &[FnDecl],
    loc: usize,
) -> Result<(), AllocError>
    ensures { OnOk result (symbols.new.items ≡ symbols.old.items ++ symbols_at functions.now loc) }
{
    symbols.push(Symbol { loc, fun: None })?;
    for (number, function) in functions.iter().enumerate() {
        if function.places.as_slice().contains(&loc) {
            symbols.push(Symbol {
                loc,
                fun: Some(number),
            })?;
        }
    }
    Ok(())
}

/// The symbols of so many locations, with these functions.
pub(crate) fn symbols_of(
    alloc: Global,
    locations: usize,
    functions: &[FnDecl],
) -> Result<Vec<Symbol>, AllocError>
    ensures { IfOk result (λ symbols. symbols.items ≡ symbols_among functions.now locations) }
{
    let mut symbols = Vec::new(alloc);
    for loc in 0..locations {
        push_symbols_at(&mut symbols, functions, loc)?;
    }
    Ok(symbols)
}
