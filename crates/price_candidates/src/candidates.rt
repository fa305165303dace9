//! Laws of what is tried of a box: potentials refute, and what is tried decides each box that must be decided.

ghost use Rattle.std.specs.Prelude.{ℕ, ℤ, ◌≡◌, ◌<◌, ◌≤◌, ◌*◌, ◌<ℤ◌, ◌⊎◌, pos, negsuc, Bool, length, List, Option, Some, None, slice_get};
ghost use Rattle.merlin_model.specs.declared.policy.Value.{Value};
ghost use Rattle.merlin_model.specs.Programs.{Program, IsSolution};
ghost use Rattle.merlin_model.specs.Trees.{RefutesBox, IsBox, IsOpen, root_box, weighted_right, least_value};
ghost use Rattle.cutoff_program.specs.declared.flow.Problem.{Problem};
ghost use Rattle.cutoff_program.specs.declared.flow.Flow.{Flow};
ghost use Rattle.cutoff_program.specs.declared.flow.Variable.{Variable};
ghost use Rattle.cutoff_program.specs.Flows.{variables_of, program_at, last_of};
ghost use Rattle.cutoff_program.specs.Trails.{IsNeat, IsPath, sum_along};
ghost use Rattle.cutoff_program.specs.Easy.{IsEasy};
ghost use Rattle.cutoff_program.specs.Limits.{IsProblem};
ghost use Rattle.price_candidates.specs.Leaves.{Pricing, Bare, Lengths, OnLink, IsPriced, leaf_from, priced_right, AreSmallNumbers, Adds, amounts_from};
ghost use Rattle.price_candidates.specs.OneLink.{least_at_root, two_over_link, rates_to, link_leaf};
ghost use Rattle.price_candidates.specs.Tried.{leaf_by_costs, IsReached, AreLeastSums, IsUnreached, IsTried, HasTriedLinks, HasFailed, IsLight, lengths_by, only, HasEdgesOf, IsBetter, IsDecidedBy, one_weight, IsSettled, point_with, edges_of, SpreadsCosts, IsCapped, capped, missing};

/// Numbers at vertices refute, with at most one row priced, where what the flows add is past the priced row's right side.
pub fn potentials_refute()
    ensures { (problem : Problem) (cutoff : Option Value) (box : List (Option Bool)) (at : ℕ → ℕ →
        ℕ) (pricing : Pricing) (amount : ℕ → Flow → ℕ) → IsProblem problem →
        IsPriced problem pricing → IsBox (program_at problem cutoff) box → AreSmallNumbers at →
        ((n : ℕ) (flow : Flow) → slice_get problem.flows n ≡ Some flow →
        Adds problem cutoff box pricing at amount n flow) →
        priced_right problem cutoff pricing <ℤ pos (amounts_from amount 0 problem.flows) →
        RefutesBox (program_at problem cutoff) box (leaf_from problem at pricing) }
{}

/// A flow whose end is not reached refutes by its own rows.
pub fn unreached_flows_refute()
    ensures { (problem : Problem) (cutoff : Option Value) (box : List (Option Bool)) (n : ℕ)
        (flow : Flow) (at : ℕ → ℕ) → IsProblem problem → IsBox (program_at problem cutoff) box →
        slice_get problem.flows n ≡ Some flow → IsUnreached problem cutoff box n flow at →
        RefutesBox (program_at problem cutoff) box (leaf_from problem (only n at) Bare) }
{}

/// What is tried decides each easy box.
pub fn easy_boxes_are_decided()
    ensures decided { (problem : Problem) (cutoff : Option Value) (box : List (Option Bool))
        (by_cost : ℕ → ℕ → ℕ) (paths : List (List ℕ)) (point : List Bool) → IsProblem problem →
        IsBox (program_at problem cutoff) box → IsTried problem cutoff box by_cost paths →
        HasEdgesOf problem paths point → (links : HasTriedLinks problem cutoff box) →
        IsEasy problem cutoff box → IsDecidedBy problem cutoff box by_cost links point }
    ensures undecided { (problem : Problem) (cutoff : Option Value) (box : List (Option Bool))
        (by_cost : ℕ → ℕ → ℕ) (paths : List (List ℕ)) (point : List Bool) → IsProblem problem →
        IsBox (program_at problem cutoff) box → IsTried problem cutoff box by_cost paths →
        HasEdgesOf problem paths point →
        ¬ RefutesBox (program_at problem cutoff) box (leaf_by_costs problem by_cost) →
        ((link : ℕ) → link < length problem.links →
        HasFailed problem cutoff box link ⊎ IsLight problem cutoff box link) →
        (¬ IsSolution (program_at problem cutoff) point) → ¬ IsEasy problem cutoff box }
{}

/// In a box without an open variable a row that is broken refutes by itself.
pub fn closed_boxes_are_settled()
    ensures { (program : Program) (box : List (Option Bool)) → IsBox program box → ((k : ℕ) →
        ¬ IsOpen program box k) → IsSettled program box }
{}

/// In a box without an open variable a row refutes by itself, or the point that is tried is better.
pub fn closed_boxes_are_decided()
    ensures { (problem : Problem) (cutoff : Option Value) (box : List (Option Bool))
        (by_cost : ℕ → ℕ → ℕ) (paths : List (List ℕ)) (point : List Bool) → IsProblem problem →
        IsBox (program_at problem cutoff) box → IsTried problem cutoff box by_cost paths →
        HasEdgesOf problem paths point → ((k : ℕ) → ¬ IsOpen (program_at problem cutoff) box k) →
        ((row : ℕ) (weight : ℤ) → row < length (program_at problem cutoff).rows →
        (weight ≡ pos 1) ⊎ (weight ≡ negsuc 0) →
        ¬ RefutesBox (program_at problem cutoff) box (one_weight row weight)) →
        IsBetter problem cutoff point }
{}

/// The point that is tried is neat, whether it is a solution or not.
pub fn tried_points_are_neat()
    ensures { (problem : Problem) (cutoff : Option Value) (box : List (Option Bool))
        (by_cost : ℕ → ℕ → ℕ) (paths : List (List ℕ)) (point : List Bool) → IsProblem problem →
        IsBox (program_at problem cutoff) box → IsTried problem cutoff box by_cost paths →
        HasEdgesOf problem paths point → IsNeat problem point }
{}

/// Least sums that are capped by that of the end are numbers at vertices as they are tried.
pub fn capped_sums_are_potentials()
    ensures reached { (problem : Problem) (cutoff : Option Value) (box : List (Option Bool))
        (n : ℕ) (flow : Flow) (f : Variable → ℕ) (most : ℕ) (distance : ℕ → Option ℕ) →
        SpreadsCosts problem cutoff box n f distance → distance (last_of flow) ≡ Some most →
        IsCapped problem cutoff box n flow f most (λ u. capped most (distance u)) }
    ensures unreached { (problem : Problem) (cutoff : Option Value) (box : List (Option Bool))
        (n : ℕ) (flow : Flow) (f : Variable → ℕ) (distance : ℕ → Option ℕ) →
        SpreadsCosts problem cutoff box n f distance → distance (last_of flow) ≡ None →
        IsUnreached problem cutoff box n flow (λ u. missing (distance u)) }
{}

/// The sum of a path is at most the greatest term for each variable.
pub fn path_sums_are_small()
    ensures { (variables : List Variable) (f : Variable → ℕ) (most n : ℕ) (path : List ℕ)
        (a b : ℕ) → ((j : ℕ) (v : Variable) → slice_get variables j ≡ Some v → f v ≤ most) →
        IsPath variables n path a b → sum_along variables f path ≤ length variables * most }
{}

/// What is tried has a point.
pub fn tried_paths_have_points()
    ensures { (problem : Problem) (cutoff : Option Value) (box : List (Option Bool))
        (by_cost : ℕ → ℕ → ℕ) (paths : List (List ℕ)) → IsTried problem cutoff box by_cost paths →
        HasEdgesOf problem paths (point_with (length (variables_of problem)) (edges_of paths)) }
{}

/// Least sums of trails, capped by that of the end, are tried; where the end has none, its flow is not reached.
pub fn least_sums_are_tried()
    ensures reached { (problem : Problem) (cutoff : Option Value) (box : List (Option Bool))
        (n : ℕ) (flow : Flow) (f : Variable → ℕ) (most : ℕ) (distance : ℕ → Option ℕ) →
        AreLeastSums problem cutoff box n f distance → distance (last_of flow) ≡ Some most →
        IsReached problem cutoff box n flow f (λ u. capped most (distance u)) }
    ensures unreached { (problem : Problem) (cutoff : Option Value) (box : List (Option Bool))
        (n : ℕ) (flow : Flow) (f : Variable → ℕ) (distance : ℕ → Option ℕ) →
        AreLeastSums problem cutoff box n f distance → distance (last_of flow) ≡ None →
        IsUnreached problem cutoff box n flow (λ u. missing (distance u)) }
{}

/// Two flows of 60 over a link of 100 are 20 too much.
pub fn two_over_one_link()
    ensures leaf { leaf_from two_over_link rates_to (OnLink 0) ≡ link_leaf }
    ensures right { weighted_right (program_at two_over_link None) link_leaf ≡ negsuc 19 }
    ensures least { least_at_root (program_at two_over_link None) link_leaf ≡ pos 0 }
{}
