//! Laws about the program. Each is the contract of a function that does nothing.

ghost use Rattle.std.specs.Prelude.{ℕ, ℤ, ◌≡◌, ◌≢◌, ◌≤◌, ◌^◌, ◌↔◌, Bool, Option, length, map, true, false, pos, negsuc, slice_index_or, slice_get, Some, None, List, ◌∷◌, []};
ghost use Rattle.std.specs.List.{AllByRecursion};
ghost use Rattle.merlin_model.specs.declared.policy.Objective.{Objective};
ghost use Rattle.merlin_model.specs.declared.policy.Objective.TheVariants.{Shortest, Ratio as RatioOf, Reserved};
ghost use Rattle.merlin_model.specs.declared.policy.Value.{Value};
ghost use Rattle.merlin_model.specs.declared.policy.Value.TheVariants.{Whole, Ratio};
ghost use Rattle.merlin_model.specs.declared.policy.Symbol.{Symbol};
ghost use Rattle.merlin_model.specs.declared.policy.Ends.{Ends};
ghost use Rattle.merlin_model.specs.Programs.{left_side, IsProgram, IsSolution};
ghost use Rattle.merlin_model.specs.Networks.{Network, IsNetwork};
ghost use Rattle.merlin_model.specs.Words.{IsWalk};
ghost use Rattle.merlin_model.specs.Policies.{Policy, IsOnPath};
ghost use Rattle.merlin_model.specs.Assignments.{IsAssignment, IsFeasible, IsSmaller};
ghost use Rattle.rules_model.specs.Products.{SymbolAutomaton};
ghost use Rattle.cutoff_program.specs.Flows.{Flow, Problem, program_at, cutoff_of, takes, is_below, entries_from, chosen_from, Variable, variables_of, last_of, cost_of_variable};
ghost use Rattle.cutoff_program.specs.Limits.{IsProblem, HasCutoffsOf};
ghost use Rattle.cutoff_program.specs.Trails.{IsTrailOf, IsShortened, IsBalanced, HasChosenTrail, IsPath, ArePaths, AreTrailsFrom, edges_of, point_with, FitsCapacities, IsPointOf, HasPaths, AreOverChosenEdges, AreWithinPoint};
ghost use Rattle.cutoff_program.specs.Products.{IsProductOfHosts, flow_of};
ghost use Rattle.cutoff_program.specs.Walks.{IsFlowOf, IsProblemOf, KeepsPolicyLimits, HasTrailFor, HasWalkFor, HasPoint, HasWalks};
ghost use Rattle.cutoff_program.specs.Rows.{below_421, rights, right_of_row, triangle, cut_off, two_walks, all_shut, triangle_net, any_automaton, triangle_product, over_triangle};

/// Two flows of 60 over a triangle of switches, and one without a walk.
pub fn triangle_rows()
    ensures variables { length (program_at (triangle Shortest) None).upper ≡ 16 }
    ensures rows { length (program_at (triangle Shortest) None).rows ≡ 21 }
    ensures all_together { right_of_row (program_at (triangle Shortest) None) 20 ≡ pos 960 }
    ensures at_a_cutoff { right_of_row (program_at (triangle Shortest) below_421) 20 ≡ pos 420 }
    ensures value { cutoff_of (triangle Shortest) two_walks ≡ Whole 420 }
    ensures ratio { cutoff_of (triangle RatioOf) two_walks ≡ Ratio 60 100 }
    ensures reserved { cutoff_of (triangle Reserved) two_walks ≡ Whole 120 }
    ensures shut { (program_at (triangle Reserved) (Some (Whole 60))).upper ≡ all_shut }
    ensures room { rights (program_at (triangle RatioOf) (Some (Ratio 60 100))) ≡ pos 1 ∷
        pos 0 ∷ pos 0 ∷ pos 0 ∷ negsuc 0 ∷ pos 1 ∷ pos 0 ∷ pos 0 ∷ pos 0 ∷ negsuc 0 ∷ pos 599 ∷
        pos 599 ∷ pos 599 ∷ pos 599 ∷ pos 59 ∷ pos 59 ∷ pos 59 ∷ pos 59 ∷ pos 59 ∷ pos 59 ∷
        pos 0 ∷ [] }
    ensures cut { rights (program_at cut_off None) ≡ pos 1 ∷ negsuc 0 ∷
        pos 1000 ∷ pos 1000 ∷ pos 1000 ∷ pos 1000 ∷ pos 0 ∷ [] }
{}

/// A trail can be shortened to a path that uses each edge no more often.
pub fn trails_shorten()
    ensures { (variables : List Variable) (flow : ℕ) (ks : List ℕ) (from to : ℕ) →
        IsTrailOf variables flow ks from to → IsShortened variables flow ks from to }
{}

/// Chosen edges that are balanced have a trail from the one vertex to the other.
pub fn balanced_points_have_trails()
    ensures { (variables : List Variable) (flow : ℕ) (point : List Bool) (from to : ℕ) →
        AllByRecursion (λ v. v.edge.from ≢ v.edge.to) variables →
        IsBalanced variables flow point from to → HasChosenTrail variables flow point from to }
{}

/// The left side of a row of the program is the sum of its terms over the chosen variables.
pub fn rows_are_sums()
    ensures { (n : ℕ) (f : Variable → ℤ) (variables : List Variable) (point : List Bool) →
        left_side (entries_from n f variables) point ≡ chosen_from n f variables point }
{}

/// The program keeps the laws of cutoffs.
pub fn program_has_cutoffs()
    ensures { (problem : Problem) → IsProblem problem → HasCutoffsOf problem }
{}

/// The program has its form and keeps its limits at each cutoff.
pub fn program_is_program()
    ensures { (problem : Problem) (cutoff : Option Value) → IsProblem problem →
        IsProgram (program_at problem cutoff) }
{}

/// The order of cutoffs is that of values.
pub fn cutoffs_are_values()
    ensures { (a b : Value) → (is_below a b ≡ true) ↔ IsSmaller a b }
{}

/// Paths that fit have a point, which is a solution at each cutoff that their value is below. Trails are shortened first.
pub fn paths_give_points()
    ensures points { (problem : Problem) (paths : List (List ℕ)) → IsProblem problem →
        ArePaths problem paths → FitsCapacities problem (edges_of paths) →
        IsPointOf problem paths (point_with (length (variables_of problem)) (edges_of paths)) }
    ensures shortened { (problem : Problem) (trails : List (List ℕ)) → IsProblem problem →
        AreTrailsFrom (variables_of problem) 0 problem.flows trails → HasPaths problem trails }
{}

/// A solution has a path for each flow over its chosen edges; whatever such paths are taken, they fit, and their value is at most that
/// of the solution, and equal for a neat one.
pub fn points_give_paths()
    ensures chosen { (problem : Problem) (cutoff : Option Value) (point : List Bool) →
        IsProblem problem → IsSolution (program_at problem cutoff) point →
        (paths : List (List ℕ)) × ArePaths problem paths × AreOverChosenEdges point paths }
    ensures within { (problem : Problem) (cutoff : Option Value) (point : List Bool)
        (paths : List (List ℕ)) → IsProblem problem →
        IsSolution (program_at problem cutoff) point → ArePaths problem paths →
        AreOverChosenEdges point paths → AreWithinPoint problem point paths }
{}

/// The problem of a policy within the limits gives a program within them.
pub fn problem_is_problem()
    ensures { (net : Network) (policy : Policy) (automata : ℕ → SymbolAutomaton)
        (ends : List Ends) (objective : Objective) (problem : Problem) → IsNetwork net →
        IsProblemOf net policy automata ends objective problem →
        KeepsPolicyLimits net policy ends problem → IsProblem problem }
{}

/// A walk that is allowed has a trail through its flow, and a path through it spells a simple walk that is allowed; both cross each link alike.
pub fn paths_are_walks()
    ensures trail { (net : Network) (policy : Policy) (automata : ℕ → SymbolAutomaton)
        (problem : Problem) (n : ℕ) (e : Ends) (flow : Flow) (walk : List Symbol) →
        IsNetwork net → slice_get problem.flows n ≡ Some flow →
        IsFlowOf net policy automata e flow → IsWalk net e.src e.dst walk →
        IsOnPath policy e.statement walk →
        HasTrailFor net policy (variables_of problem) n flow e walk }
    ensures walk { (net : Network) (policy : Policy) (automata : ℕ → SymbolAutomaton)
        (problem : Problem) (n : ℕ) (e : Ends) (flow : Flow) (path : List ℕ) → IsNetwork net →
        slice_get problem.flows n ≡ Some flow → (of : IsFlowOf net policy automata e flow) →
        IsPath (variables_of problem) n path 0 (last_of flow) →
        HasWalkFor net policy automata (variables_of problem) e of.product.vertices path }
{}

/// A feasible assignment of walks, simple or not, has a point, which is a solution at each cutoff that its value is below.
pub fn walks_give_points()
    ensures { (net : Network) (policy : Policy) (automata : ℕ → SymbolAutomaton)
        (ends : List Ends) (objective : Objective) (problem : Problem)
        (walks : List (List Symbol)) → IsNetwork net →
        IsProblemOf net policy automata ends objective problem → IsProblem problem →
        IsAssignment net policy ends walks → IsFeasible net policy ends walks →
        HasPoint net policy automata ends objective problem walks }
{}

/// A solution has a feasible assignment of simple walks, whose value is at most its own, and equal for a neat solution.
pub fn points_give_walks()
    ensures { (net : Network) (policy : Policy) (automata : ℕ → SymbolAutomaton)
        (ends : List Ends) (objective : Objective) (problem : Problem) (cutoff : Option Value)
        (point : List Bool) → IsNetwork net →
        IsProblemOf net policy automata ends objective problem → IsProblem problem →
        IsSolution (program_at problem cutoff) point →
        HasWalks net policy automata ends objective problem point }
{}

/// The product of two hosts in a triangle of switches, as a flow.
pub fn triangle_flow()
    ensures product { IsProductOfHosts triangle_net any_automaton 0 1 triangle_product }
    ensures flow { flow_of triangle_net 60 triangle_product ≡ over_triangle }
{}

/// The rates of variables and what they cost are small.
pub fn variables_are_small()
    ensures rates { (problem : Problem) → IsProblem problem →
        AllByRecursion (λ v. v.rate ≤ 10 ^ 9) (variables_of problem) }
    ensures costs { (problem : Problem) → IsProblem problem →
        AllByRecursion (λ v. cost_of_variable problem v ≤ 10 ^ 9) (variables_of problem) }
{}
