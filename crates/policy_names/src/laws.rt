//! A law of numbered paths. It is the contract of a function that does nothing.

ghost use Rattle.std.specs.Prelude.{◌≡◌, List, [], map};
ghost use Rattle.std.specs.List.{AllByRecursion};
ghost use Rattle.merlin_model.specs.Networks.{Network};
ghost use Rattle.path_regex.specs.Functions.{HasNoFunctionUnderNot};
ghost use Rattle.policy_grammar.specs.declared.written.RawPath.{RawPath};
ghost use Rattle.policy_grammar.specs.NumberedPaths.{numbered};
ghost use Rattle.policy_names.specs.Names.{meaning_of, name_faults};

/// Where no name of some paths is at fault, no function stands under a Not in the paths over numbers.
pub fn no_function_stands_under_not()
    ensures { (net : Network) (paths : List RawPath) → name_faults (meaning_of net) paths ≡ [] →
        AllByRecursion HasNoFunctionUnderNot (map (numbered (meaning_of net)) paths) }
{}
