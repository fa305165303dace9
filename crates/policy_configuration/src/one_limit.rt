//! A law of limits. It is the contract of a function that does nothing but cite others.

ghost use Rattle.std.specs.Prelude.{◌≡◌, List, length};
ghost use Rattle.merlin_model.specs.Networks.{Network};
ghost use Rattle.merlin_model.specs.Policies.{paths_of};
ghost use Rattle.merlin_model.specs.declared.policy.Ends.{Ends};
ghost use Rattle.merlin_model.specs.Assignments.{AreAllEnds};
ghost use Rattle.topology.specs.Symbols.{network_symbols};
ghost use Rattle.policy_expansion.specs.declared.policy.Policy.{Policy as NamedPolicy};
ghost use Rattle.policy_check.specs.Numbered.{numbered_policy};
ghost use Rattle.policy_check.specs.Checked.{CheckedPolicy, IsCheckOf};
ghost use Rattle.openflow_rules.specs.declared.fault.RuleFault.{RuleFault};
ghost use Rattle.openflow_rules.specs.Planning.{IsWithinLimits, PassesLimit};

/// Which limit a policy passes does not depend on the tables of its automata: of two checks of one policy the one passes what the other does.
pub fn limits_of_one_policy()
    ensures { (net : Network) (raw : NamedPolicy) (checked other : CheckedPolicy)
        (ends : List Ends) (fault : RuleFault) →
        AreAllEnds net (numbered_policy net raw) ends →
        IsCheckOf net (network_symbols net) raw checked →
        length checked.automaton_numbers ≡ length (paths_of checked.policy) →
        IsCheckOf net (network_symbols net) raw other →
        length other.automaton_numbers ≡ length (paths_of other.policy) →
        IsWithinLimits net checked ends → PassesLimit net other ends fault →
        PassesLimit net checked ends fault }
{
    topology::laws::symbols_are_all();
    path_automaton::laws::one_numbering();
}
