//! Laws about the program of a policy. Each is the contract of a function that does nothing.

ghost use Rattle.std.specs.Prelude.{List};
ghost use Rattle.std.specs.List.{AllByRecursion};
ghost use Rattle.merlin_model.specs.declared.policy.Path.{Path};
ghost use Rattle.merlin_model.specs.declared.policy.Symbol.{Symbol};
ghost use Rattle.merlin_model.specs.declared.policy.Ends.{Ends};
ghost use Rattle.merlin_model.specs.declared.policy.Objective.{Objective};
ghost use Rattle.merlin_model.specs.Networks.{Network, IsNetwork};
ghost use Rattle.merlin_model.specs.Policies.{Policy};
ghost use Rattle.rules_model.specs.Products.{RecognisesPath};
ghost use Rattle.path_automaton.specs.Automata.{AutomatonTables, AcceptsWordsOf};
ghost use Rattle.topology.specs.Symbols.{network_symbols};
ghost use Rattle.product_graph.specs.Products.{automaton_of};
ghost use Rattle.cutoff_program.specs.declared.flow.Problem.{Problem};
ghost use Rattle.program_walks.specs.Solutions.{IsLaidOut};
ghost use Rattle.policy_flows.specs.Layouts.{StatementParts, IsLayout};
ghost use Rattle.merlin_program.specs.Guaranteed.{ArePartsIn};

/// The layout of statements whose parts are those of a policy is laid out of this policy. So what is said of points and walks of
/// the program holds of the policy's assignments.
pub fn layouts_are_of_policies()
    ensures { (net : Network) (policy : Policy) (parts : StatementParts) (ends : List Ends)
        (objective : Objective) (problem : Problem) (symbols : List (List Symbol)) →
        IsNetwork net → AllByRecursion (ArePartsIn net policy parts) ends →
        IsLayout net parts ends objective problem symbols →
        IsLaidOut net policy parts.automaton ends objective problem symbols }
{}

/// An automaton over the network's symbols that accepts the words of a path recognises the path.
pub fn automata_recognise_paths()
    ensures { (net : Network) (path : Path) (tables : AutomatonTables) →
        AcceptsWordsOf (network_symbols net) path tables →
        RecognisesPath net (automaton_of (network_symbols net) tables) path }
{}
