//! What the texts are made of, for whoever writes or reads them whole.

ghost use Rattle.std.specs.Prelude.{◌≡◌, ◌++◌, ℕ, List};
ghost use Rattle.std.specs.List.{AllByRecursion};
ghost use Rattle.merlin_model.specs.declared.policy.Ends.{Ends};
ghost use Rattle.merlin_model.specs.declared.policy.Objective.{Objective};
ghost use Rattle.merlin_model.specs.declared.policy.Symbol.{Symbol};
ghost use Rattle.merlin_model.specs.declared.policy.Value.{Value};
ghost use Rattle.merlin_model.specs.declared.config.Config.{Config};
ghost use Rattle.merlin_model.specs.declared.certificate.Tree.{Tree};
ghost use Rattle.merlin_model.specs.Networks.{Network};
ghost use Rattle.merlin_model.specs.Policies.{Policy};
ghost use Rattle.merlin_model.specs.Words.{IsSymbol};
ghost use Rattle.merlin_model.specs.Assignments.{IsAssignment, load_on};
ghost use Rattle.merlin_model.specs.Headline.{MeetsGuarantees};
ghost use Rattle.config_text.specs.declared.loads.Load.{Load};
ghost use Rattle.config_text.specs.Lines.{config_lines};
ghost use Rattle.config_text.specs.Loads.{loads_of};
ghost use Rattle.config_text.specs.Result.{result_lines};
ghost use Rattle.result_heads.specs.Heads.{ok_head_lines, certificate_lines};
ghost use Rattle.result_heads.specs.Queued.{queued_on, AreWithinCapacities};

/// A result is its head, its configuration and its certificate.
pub fn result_has_three_parts()
    ensures { (net : Network) (objective : Objective) (value : Value)
        (walks : List (List ℕ × List Symbol)) (loads : List Load) (config : Config) (tree : Tree) →
        result_lines net objective value walks loads config tree ≡
        ok_head_lines net objective value walks loads
        ++ (config_lines net config ++ certificate_lines tree) }
{}

/// The walks of an assignment have symbols of the network.
pub fn assigned_walks_have_symbols()
    ensures { (net : Network) (policy : Policy) (ends : List Ends) (walks : List (List Symbol)) →
        IsAssignment net policy ends walks →
        AllByRecursion (AllByRecursion (IsSymbol net)) walks }
{}

/// Queues that meet guarantees are within the capacities.
pub fn guarantees_are_within_capacities()
    ensures { (net : Network) (policy : Policy) (ends : List Ends) (walks : List (List Symbol))
        (config : Config) → MeetsGuarantees net policy ends walks config →
        AreWithinCapacities net config.queues }
{}

/// What queues that meet guarantees put on directed links is what the walks put there.
pub fn loads_of_queues_are_those_of_walks()
    ensures { (net : Network) (policy : Policy) (ends : List Ends) (walks : List (List Symbol))
        (config : Config) → MeetsGuarantees net policy ends walks config →
        loads_of net (queued_on config.queues) ≡ loads_of net (load_on net policy ends walks) }
{}
