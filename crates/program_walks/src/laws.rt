//! Laws about the bound that takes each flow by itself. Each is the contract of a function that does nothing.

ghost use Rattle.std.specs.Prelude.{ℕ, ◌≡◌, List, [], ◌∷◌, false, None, Some};
ghost use Rattle.merlin_model.specs.declared.policy.Ends.{Ends};
ghost use Rattle.merlin_model.specs.declared.policy.Objective.{Objective};
ghost use Rattle.merlin_model.specs.declared.policy.Objective.TheVariants.{Shortest, Ratio as RatioOf, Reserved};
ghost use Rattle.merlin_model.specs.declared.policy.Symbol.{Symbol};
ghost use Rattle.merlin_model.specs.declared.policy.Value.{Value};
ghost use Rattle.merlin_model.specs.Networks.{Network, IsNetwork};
ghost use Rattle.merlin_model.specs.Policies.{Policy};
ghost use Rattle.merlin_model.specs.Assignments.{IsAssignment, IsFeasible, value_of};
ghost use Rattle.rules_model.specs.Products.{SymbolAutomaton};
ghost use Rattle.cutoff_program.specs.declared.flow.Problem.{Problem};
ghost use Rattle.cutoff_program.specs.Flows.{is_below};
ghost use Rattle.cutoff_program.specs.Limits.{IsProblem};
ghost use Rattle.cutoff_program.specs.Walks.{IsProblemOf};
ghost use Rattle.cutoff_program.specs.Rows.{triangle};
ghost use Rattle.program_walks.specs.Bounds.{greatest_share, IsSeparateBound};

/// No feasible assignment has a value below the bound, and where there is no bound there is no feasible assignment.
pub fn no_value_is_below_the_bound()
    ensures bound { (net : Network) (policy : Policy) (automata : ℕ → SymbolAutomaton)
        (ends : List Ends) (objective : Objective) (problem : Problem) (bound : Value)
        (walks : List (List Symbol)) → IsNetwork net →
        IsProblemOf net policy automata ends objective problem → IsProblem problem →
        IsSeparateBound problem (Some bound) → IsAssignment net policy ends walks →
        IsFeasible net policy ends walks →
        is_below (value_of net policy ends objective walks) bound ≡ false }
    ensures none { (net : Network) (policy : Policy) (automata : ℕ → SymbolAutomaton)
        (ends : List Ends) (objective : Objective) (problem : Problem)
        (walks : List (List Symbol)) → IsNetwork net →
        IsProblemOf net policy automata ends objective problem → IsProblem problem →
        IsSeparateBound problem None → IsAssignment net policy ends walks →
        ¬ IsFeasible net policy ends walks }
{}

/// A flow of 60 from a host over a link of 1000, one of 100 and one of 1000 to another host.
pub fn triangle_shares()
    ensures ratio { greatest_share (triangle RatioOf) (0 ∷ 1 ∷ 5 ∷ []) ≡ (60, 100) }
    ensures reserved { greatest_share (triangle Reserved) (0 ∷ 1 ∷ 5 ∷ []) ≡ (60, 1) }
    ensures shortest { greatest_share (triangle Shortest) (0 ∷ 1 ∷ 5 ∷ []) ≡ (0, 1) }
{}
