//! Laws of what is found. Each is the contract of a function that does nothing.

ghost use Rattle.std.specs.Prelude.{ℕ, ◌<◌, List, []};
ghost use Rattle.std.specs.List.{AllZip};
ghost use Rattle.merlin_model.specs.declared.policy.Ends.{Ends};
ghost use Rattle.merlin_model.specs.declared.policy.Objective.{Objective};
ghost use Rattle.merlin_model.specs.declared.policy.Symbol.{Symbol};
ghost use Rattle.merlin_model.specs.Assignments.{IsAssignment};
ghost use Rattle.merlin_model.specs.Networks.{Network};
ghost use Rattle.merlin_model.specs.Policies.{Policy};
ghost use Rattle.cutoff_program.specs.Walks.{IsSimple};
ghost use Rattle.topology.specs.Symbols.{network_symbols};
ghost use Rattle.policy_check.specs.Checked.{CheckedPolicy};
ghost use Rattle.configuration_model.specs.Groups.{HaveDifferentVertices};
ghost use Rattle.openflow_rules.specs.Planning.{statement_automata};
ghost use Rattle.walk_search.specs.Parts.{checked_parts};
ghost use Rattle.policy_flows.specs.Layouts.{StatementParts};
ghost use Rattle.walk_search.specs.declared.found.WalksFound.{WalksFound};
ghost use Rattle.walk_search.specs.Found.{IsFoundFor, AreNoWalks};

/// Where nothing is guaranteed, no walks are found, with their value and a tree that refutes the program at it.
pub fn without_guarantees_no_walks_are_least()
    ensures { (net : Network) (policy : Policy) (parts : StatementParts) (objective : Objective)
        (budget : ℕ) (found : WalksFound) → 0 < budget →
        IsFoundFor net policy parts [] objective budget found →
        AreNoWalks net policy objective found }
{}

/// Simple walks of a checked policy come to no vertex of their products twice, as those must of which tables are made.
pub fn simple_walks_have_different_vertices()
    ensures { (net : Network) (checked : CheckedPolicy) (ends : List Ends)
        (walks : List (List Symbol)) → IsAssignment net checked.policy ends walks →
        AllZip (λ e w. IsSimple ((checked_parts net checked).automaton e.statement) w) ends walks →
        HaveDifferentVertices checked.policy (network_symbols net) (statement_automata checked)
        ends walks }
{}
