//! What a caller that compiles rests on. Each law is the contract of a function that does nothing but cite others.

ghost use Rattle.std.specs.Prelude.{ℕ, ◌≡◌, ◌≤◌, List, [], length};
ghost use Rattle.merlin_model.specs.declared.config.Config.{Config};
ghost use Rattle.merlin_model.specs.declared.policy.Ends.{Ends};
ghost use Rattle.merlin_model.specs.declared.policy.Objective.{Objective};
ghost use Rattle.merlin_model.specs.declared.policy.Symbol.{Symbol};
ghost use Rattle.merlin_model.specs.Networks.{Network, IsNetwork};
ghost use Rattle.merlin_model.specs.Policies.{Policy, paths_of};
ghost use Rattle.merlin_model.specs.Rates.{IsGuaranteed};
ghost use Rattle.merlin_model.specs.Assignments.{AreAllEnds, IsAssignment, IsFeasible, IsLeast};
ghost use Rattle.merlin_model.specs.Headline.{DeliversPackets, KeepsCaps, MeetsGuarantees};
ghost use Rattle.merlin_model.specs.Headline.{HasOneLinePerClass};
ghost use Rattle.path_automaton.specs.Automata.{AutomatonTables};
ghost use Rattle.topology.specs.Symbols.{network_symbols};
ghost use Rattle.config_text.specs.Lines.{IsConfigOver};
ghost use Rattle.policy_expansion.specs.declared.policy.Policy.{Policy as NamedPolicy};
ghost use Rattle.policy_check.specs.declared.fault.CheckFault.{CheckFault};
ghost use Rattle.policy_check.specs.declared.fault.CheckFault.TheVariants as check_fault;
ghost use Rattle.policy_check.specs.declared.fault.EndsFault.{EndsFault};
ghost use Rattle.policy_check.specs.declared.fault.EndsFault.TheVariants as ends_fault;
ghost use Rattle.policy_check.specs.declared.guarantees.TheConstants.{MAX_GUARANTEES};
ghost use Rattle.policy_check.specs.Checked.{CheckedPolicy, IsSoundPolicy, IsCheckOf};
ghost use Rattle.policy_check.specs.Rules.{KeepsAllRules, BreaksRule};
ghost use Rattle.policy_check.specs.Ends.{BreaksEnds};
ghost use Rattle.configuration_model.specs.Checked.{IsChecked};
ghost use Rattle.configuration_model.specs.Groups.{HaveDifferentVertices};
ghost use Rattle.configuration_model.specs.Compiled.{IsMade};
ghost use Rattle.openflow_rules.specs.declared.fault.RuleFault.{RuleFault};
ghost use Rattle.openflow_rules.specs.declared.fault.RuleFault.TheVariants as rule_fault;
ghost use Rattle.openflow_rules.specs.Planning.{statement_automata, IsWithinLimits, PassesLimit};
ghost use Rattle.policy_configuration.specs.Parts.{HasLinesFor};

/// A policy that was checked has what configurations rest on: one automaton for each statement, in order, which accepts the words of
/// its path.
pub fn checked_policies_are_sound()
    ensures { (net : Network) (raw : NamedPolicy) (checked : CheckedPolicy) →
        IsCheckOf net (network_symbols net) raw checked → IsSoundPolicy checked.policy →
        length checked.automaton_numbers ≡ length (paths_of checked.policy) →
        IsChecked net checked.policy (network_symbols net) (statement_automata checked) }
{
    topology::laws::symbols_are_all();
    policy_names::laws::no_function_stands_under_not();
}

/// A policy that is within the limits of rules passes none of them.
pub fn limits_are_kept_or_passed()
    ensures { (net : Network) (checked : CheckedPolicy) (ends : List Ends) (fault : RuleFault) →
        AreAllEnds net checked.policy ends → IsWithinLimits net checked ends →
        PassesLimit net checked ends fault → fault ≡ rule_fault.OutOfMemory }
{}

/// A policy that keeps all rules breaks none.
pub fn kept_rules_are_not_broken()
    ensures { (net : Network) (symbols : List Symbol) (raw : NamedPolicy) (fault : CheckFault) →
        KeepsAllRules net symbols raw → BreaksRule net symbols raw fault →
        fault ≡ check_fault.OutOfMemory }
{}

/// Where each guaranteed statement has its one pair of hosts, and they are few, none is at fault.
pub fn ends_that_stand_are_not_refused()
    ensures { (net : Network) (policy : Policy) (ends : List Ends) (fault : EndsFault) →
        AreAllEnds net policy ends → length ends ≤ MAX_GUARANTEES →
        BreaksEnds net policy fault → fault ≡ ends_fault.OutOfMemory }
{}

/// What is made is over its network, so that it can be printed: its lines stand at locations, and run functions, of the network.
pub fn made_lines_are_over_the_network()
    ensures { (net : Network) (policy : Policy) (ends : List Ends) (walks : List (List Symbol))
        (config : Config) → IsMade net policy ends walks config → IsConfigOver net config }
{
    configuration_model::laws::made_is_compiled();
}

/// The lines for a policy with given automata and walks are determined.
pub fn one_configuration()
    ensures { (net : Network) (policy : Policy) (automata : List AutomatonTables)
        (ends : List Ends) (walks : List (List Symbol)) (config other : Config) →
        IsNetwork net → IsChecked net policy (network_symbols net) automata →
        AreAllEnds net policy ends → IsAssignment net policy ends walks →
        HaveDifferentVertices policy (network_symbols net) automata ends walks →
        HasLinesFor net policy automata ends walks config →
        HasLinesFor net policy automata ends walks other → config ≡ other }
{
    queue_and_tc::laws::pair_cells_name_owners();
    configuration_model::laws::made_is_compiled();
    rules_model::laws::one_plan();
}

/// Where nothing is guaranteed there are no ends and no walks, and what is made with none delivers packets, keeps caps and meets the
/// guarantees, of which there are none. No walks is then the least assignment.
pub fn made_without_guarantees()
    ensures ends { (net : Network) (policy : Policy) (ends : List Ends) →
        ((i : ℕ) → ¬ IsGuaranteed policy i) → AreAllEnds net policy ends → ends ≡ [] }
    ensures walks { (net : Network) (policy : Policy) (walks : List (List Symbol)) →
        IsAssignment net policy [] walks → walks ≡ [] }
    ensures assigned { (net : Network) (policy : Policy) → IsAssignment net policy [] [] }
    ensures simple { (policy : Policy) (symbols : List Symbol) (automata : List AutomatonTables) →
        HaveDifferentVertices policy symbols automata [] [] }
    ensures feasible { (net : Network) (policy : Policy) → IsFeasible net policy [] [] }
    ensures least { (net : Network) (policy : Policy) (objective : Objective) →
        IsLeast net policy [] objective [] }
    ensures delivers { (net : Network) (policy : Policy) (config : Config) →
        IsMade net policy [] [] config → DeliversPackets net policy [] [] config }
    ensures caps { (net : Network) (policy : Policy) (config : Config) →
        IsMade net policy [] [] config → KeepsCaps net policy [] [] config }
    ensures classes { (net : Network) (policy : Policy) (config : Config) →
        IsMade net policy [] [] config → HasOneLinePerClass config }
    ensures guarantees { (net : Network) (policy : Policy) (config : Config) →
        IsMade net policy [] [] config → MeetsGuarantees net policy [] [] config }
{
    configuration_model::laws::made_is_compiled();
    configuration_model::laws::made_keeps_caps();
    configuration_model::laws::made_meets_guarantees();
}
