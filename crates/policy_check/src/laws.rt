//! What later parts rest on of a policy that was checked. Each law is the contract of a function that does nothing.

ghost use Rattle.std.specs.Prelude.{◌≡◌, ◌<◌, ◌≤◌, ◌↔◌, ℕ, true, List, Some, length, slice_get};
ghost use Rattle.merlin_model.specs.declared.limits.TheConstants.{MAX_RATE};
ghost use Rattle.merlin_model.specs.declared.policy.Ends.{Ends};
ghost use Rattle.merlin_model.specs.declared.policy.Symbol.{Symbol};
ghost use Rattle.merlin_model.specs.Packets.{Packet, IsPacket};
ghost use Rattle.merlin_model.specs.Predicates.{holds};
ghost use Rattle.merlin_model.specs.Networks.{Network};
ghost use Rattle.merlin_model.specs.Policies.{Policy, Statement, match_of, paths_of};
ghost use Rattle.merlin_model.specs.Rates.{IsGuaranteed, max_of, min_of};
ghost use Rattle.merlin_model.specs.Assignments.{AreAllEnds};
ghost use Rattle.rate_formula.specs.Usage.{ids_in};
ghost use Rattle.path_automaton.specs.Automata.{AutomatonTables};
ghost use Rattle.policy_check.specs.Checked.{CheckedPolicy, IsSoundPolicy, HasAutomata, AcceptsPathOf, automaton_of_statement};

/// A packet belongs to a statement exactly where the predicate of the statement holds of it.
pub fn one_statement_holds()
    ensures { (policy : Policy) (p : Packet) (i : ℕ) (s : Statement) → IsSoundPolicy policy →
        IsPacket p → slice_get policy.statements i ≡ Some s →
        (match_of policy p ≡ i) ↔ (holds s.pred p ≡ true) }
{}

/// What is guaranteed is a statement with an id, and not the default.
pub fn guaranteed_statements_have_ids()
    ensures { (policy : Policy) (i : ℕ) → IsGuaranteed policy i →
        (id : List ℕ) × (slice_get (ids_in policy) i ≡ Some id) }
{}

/// The automaton of a statement, or of the default, accepts the words on its path and no others.
pub fn automata_accept_paths()
    ensures { (symbols : List Symbol) (checked : CheckedPolicy) (i : ℕ) (table : AutomatonTables) →
        HasAutomata symbols checked → i < length (paths_of checked.policy) →
        automaton_of_statement checked i ≡ Some table →
        AcceptsPathOf symbols checked.policy i table }
{}

/// The ends of a policy over a network are one list.
pub fn one_list_of_ends()
    ensures { (net : Network) (policy : Policy) (ends others : List Ends) →
        AreAllEnds net policy ends → AreAllEnds net policy others → ends ≡ others }
{}

/// The localised rates of a policy that was checked are within the limit of rates.
pub fn localised_rates_are_small()
    ensures caps { (policy : Policy) (i cap : ℕ) → IsSoundPolicy policy →
        max_of policy i ≡ Some cap → cap ≤ MAX_RATE }
    ensures guarantees { (policy : Policy) (i : ℕ) → IsSoundPolicy policy →
        min_of policy i ≤ MAX_RATE }
{}
