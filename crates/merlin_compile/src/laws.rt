//! Which answers two texts have. Each law is the contract of a function that does nothing but cite others.

ghost use Rattle.std.specs.Prelude.{ℕ, ◌≡◌, ◌≤◌, ◌<◌, ◌+◌, ◌^◌, List, [], None};
ghost use Rattle.merlin_model.specs.declared.policy.Ends.{Ends};
ghost use Rattle.merlin_model.specs.declared.policy.Objective.{Objective};
ghost use Rattle.merlin_model.specs.declared.policy.Symbol.{Symbol};
ghost use Rattle.merlin_model.specs.Networks.{Network};
ghost use Rattle.merlin_model.specs.Programs.{variables};
ghost use Rattle.policy_expansion.specs.declared.policy.Policy.{Policy as NamedPolicy};
ghost use Rattle.policy_check.specs.Checked.{CheckedPolicy};
ghost use Rattle.cutoff_program.specs.Flows.{program_at};
ghost use Rattle.cutoff_program.specs.declared.flow.Problem.{Problem};
ghost use Rattle.policy_flows.specs.Faults.{RefusesStatements};
ghost use Rattle.policy_flows.specs.Layouts.{IsLayout};
ghost use Rattle.policy_flows.specs.declared.fault.ProgramFault.{ProgramFault};
ghost use Rattle.policy_flows.specs.declared.fault.ProgramFault.TheVariants as program_fault;
ghost use Rattle.walk_search.specs.Parts.{checked_parts};
ghost use Rattle.merlin_compile.specs.Input.{WasChecked, HasOnePairs, HasProgram, IsInput};
ghost use Rattle.merlin_compile.specs.Causes.{IsCompileFault, IsWantOfMemory};
ghost use Rattle.merlin_compile.specs.Compiled.{IsCompiledFrom};
ghost use Rattle.merlin_compile.specs.Completeness.{GuaranteesNothing, HasFeasibleWalks, IsProblemFor};
ghost use Rattle.merlin_compile.specs.Completeness.{NeverCouples, IsLeastResult, IsInfeasibleResult, IsSpentResult};
ghost use Rattle.merlin_compile.specs.declared.outcome.Compiled.{Compiled};
ghost use Rattle.merlin_compile.specs.declared.fault.CompileFault.{CompileFault};

use topology_rules::laws::one_network;

/// The program of the guaranteed statements does not depend on the tables of their automata: two checks of one policy have one program, which for both
/// or for neither is within its limits.
pub fn one_program()
    ensures problem { (net : Network) (raw : NamedPolicy) (checked other : CheckedPolicy)
        (ends : List Ends) (objective : Objective) (problem more : Problem)
        (symbols spelled : List (List Symbol)) → HasOnePairs net raw checked ends →
        WasChecked net raw other →
        IsLayout net (checked_parts net checked) ends objective problem symbols →
        IsLayout net (checked_parts net other) ends objective more spelled → problem ≡ more }
    ensures limits { (net : Network) (raw : NamedPolicy) (checked other : CheckedPolicy)
        (ends : List Ends) (fault : ProgramFault) → HasOnePairs net raw checked ends →
        WasChecked net raw other → HasProgram net checked ends →
        RefusesStatements net (checked_parts net other) ends fault →
        fault ≡ program_fault.OutOfMemory }
{
    topology::laws::symbols_are_all();
    path_automaton::laws::one_numbering();
}

/// What nothing refuses is refused for want of memory alone, and whatever compiles is refused for nothing else.
pub fn inputs_are_not_refused()
    ensures input { (policy topology : List ℕ) (net : Network) (checked : CheckedPolicy)
        (ends : List Ends) (fault : CompileFault) → IsInput policy topology net checked ends →
        IsCompileFault fault policy topology → IsWantOfMemory fault }
    ensures compiled { (policy topology : List ℕ) (objective : Objective) (budget : ℕ)
        (compiled : Compiled) (fault : CompileFault) →
        IsCompiledFrom policy topology objective budget compiled →
        IsCompileFault fault policy topology → IsWantOfMemory fault }
{
    one_network();
    one_program();
    policy_configuration::one_limit::limits_of_one_policy();
    policy_configuration::laws::limits_are_kept_or_passed();
    policy_configuration::laws::kept_rules_are_not_broken();
    policy_configuration::laws::ends_that_stand_are_not_refused();
}

/// Which results an input has. Without guarantees it is the least assignment, which is empty. With a feasible assignment it is never that none is feasible,
/// and without one never a least one. A budget of all nodes that a tree over the variables may have is never spent, nor is any where shortest
/// paths do not hinder one another.
pub fn inputs_have_results()
    ensures nothing { (policy topology : List ℕ) (net : Network) (checked : CheckedPolicy)
        (ends : List Ends) (objective : Objective) (budget : ℕ) (compiled : Compiled) →
        IsInput policy topology net checked ends → GuaranteesNothing checked.policy → 0 < budget →
        IsCompiledFrom policy topology objective budget compiled → IsLeastResult compiled }
    ensures feasible { (policy topology : List ℕ) (net : Network) (checked : CheckedPolicy)
        (ends : List Ends) (objective : Objective) (budget : ℕ) (compiled : Compiled) →
        IsInput policy topology net checked ends → HasFeasibleWalks net checked.policy ends →
        IsCompiledFrom policy topology objective budget compiled →
        ¬ IsInfeasibleResult compiled }
    ensures infeasible { (policy topology : List ℕ) (net : Network) (checked : CheckedPolicy)
        (ends : List Ends) (objective : Objective) (budget : ℕ) (compiled : Compiled) →
        IsInput policy topology net checked ends → ¬ HasFeasibleWalks net checked.policy ends →
        IsCompiledFrom policy topology objective budget compiled → ¬ IsLeastResult compiled }
    ensures enough { (policy topology : List ℕ) (net : Network) (checked : CheckedPolicy)
        (ends : List Ends) (objective : Objective) (budget : ℕ) (problem : Problem)
        (compiled : Compiled) → IsInput policy topology net checked ends →
        IsProblemFor net checked ends objective problem →
        2 ^ (variables (program_at problem None) + 1) ≤ budget + 1 →
        IsCompiledFrom policy topology objective budget compiled → ¬ IsSpentResult compiled }
    ensures uncoupled { (policy topology : List ℕ) (net : Network) (checked : CheckedPolicy)
        (ends : List Ends) (objective : Objective) (budget : ℕ) (problem : Problem)
        (compiled : Compiled) → IsInput policy topology net checked ends →
        IsProblemFor net checked ends objective problem →
        NeverCouples net checked.policy ends objective problem →
        IsCompiledFrom policy topology objective budget compiled → ¬ IsSpentResult compiled }
{
    one_network();
    one_program();
    walk_search::laws::without_guarantees_no_walks_are_least();
}
