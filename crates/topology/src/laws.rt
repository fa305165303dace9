//! A law of symbols. It is the contract of a function that does nothing.

ghost use Rattle.std.specs.Prelude.{◌↔◌, Contains};
ghost use Rattle.merlin_model.specs.declared.policy.Symbol.{Symbol};
ghost use Rattle.merlin_model.specs.Networks.{Network, AreDifferent};
ghost use Rattle.merlin_model.specs.Words.{IsSymbol};
ghost use Rattle.topology.specs.Symbols.{network_symbols};

/// The list of symbols has each symbol of the network, and each once.
pub fn symbols_are_all()
    ensures each { (net : Network) (x : Symbol) →
        Contains (network_symbols net) x ↔ IsSymbol net x }
    ensures once { (net : Network) → AreDifferent (network_symbols net) }
{}
