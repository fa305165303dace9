//! Laws about refinement. Each is the contract of a function that does nothing.

ghost use Rattle.std.specs.Prelude.{◌≡◌, ℕ, ◌≤◌, List, map, sum_by, Contains, Some, slice_get, ◌↔◌};
ghost use Rattle.std.specs.List.{AllZip};
ghost use Rattle.merlin_model.specs.Predicates.{holds};
ghost use Rattle.merlin_model.specs.declared.policy.Bound.TheVariants.{Max, Min};
ghost use Rattle.merlin_model.specs.declared.policy.Term.{Term};
ghost use Rattle.merlin_model.specs.Packets.{Packet};
ghost use Rattle.merlin_model.specs.Networks.{Network, AreDifferent};
ghost use Rattle.merlin_model.specs.Policies.{Policy};
ghost use Rattle.merlin_model.specs.Rates.{max_of, min_of, ids_of, amount_of, rate_of_id};
ghost use Rattle.refinement_model.specs.Refinement.{Refines, IsIn, IsAllowedTraffic, rate_of, AreTouching, KeepsCap, KeepsReserve, IsAtMost, sum_of_caps};
ghost use Rattle.refinement_model.specs.Localised.{localised_form, HasDifferentIds, RefinesEach, ActsAs};
ghost use Rattle.refinement_model.specs.Delegation.{Child, DelegationNode, IsPlain, HasIds, AreChildren, HasStatementForEach, join, scopes_of, is_outside, IsDelegationTree, AreCompositions, IsAcceptedWith, IsLocallyAccepted, IsFinerChild};

/// What the child allows keeps the parent's `max` terms, where each statement of the child keeps to its maximum.
pub fn refined_usage_keeps_caps()
    ensures { (net : Network) (parent child : Policy) (traffic : List (Packet × ℕ)) →
        Refines net parent child → IsAllowedTraffic net child traffic → ((i m : ℕ) →
        max_of child i ≡ Some m → rate_of child traffic i ≤ m) → (term : Term) →
        Contains parent.terms term → term.bound ≡ Max → AreDifferent (ids_of term) →
        sum_by (rate_of_id parent traffic) (ids_of term) ≤ amount_of term }
{}

/// What the child allows stays within the parent's `min` terms, where each statement of the child keeps to its minimum, and a statement of the parent outside
/// these terms has none of it.
pub fn refined_usage_keeps_reserves()
    ensures terms { (net : Network) (parent child : Policy) (traffic : List (Packet × ℕ)) →
        Refines net parent child → IsAllowedTraffic net child traffic → ((i : ℕ) →
        rate_of child traffic i ≤ min_of child i) → (term : Term) → Contains parent.terms term →
        term.bound ≡ Min → AreDifferent (ids_of term) →
        sum_by (rate_of_id parent traffic) (ids_of term) ≤ amount_of term }
    ensures outside { (net : Network) (parent child : Policy) (traffic : List (Packet × ℕ)) →
        Refines net parent child → IsAllowedTraffic net child traffic → ((i : ℕ) →
        rate_of child traffic i ≤ min_of child i) → (j : ℕ) → ((term : Term) →
        Contains parent.terms term → term.bound ≡ Min → ¬ IsIn parent term j) →
        rate_of parent traffic j ≡ 0 }
{}

/// The localised form of a policy has its rates.
pub fn localised_rates()
    ensures caps { (policy : Policy) (i : ℕ) → HasDifferentIds policy →
        max_of (localised_form policy) i ≡ max_of policy i }
    ensures guarantees { (policy : Policy) (i : ℕ) → HasDifferentIds policy →
        min_of (localised_form policy) i ≡ min_of policy i }
{}

/// A policy refines its localised form.
pub fn policy_refines_its_localised_form()
    ensures { (net : Network) (policy : Policy) → HasDifferentIds policy →
        Refines net (localised_form policy) policy }
{}

/// Refinement of a localised form goes statement by statement.
pub fn localised_refinement()
    ensures each { (net : Network) (parent child : Policy) → HasDifferentIds parent →
        Refines net (localised_form parent) child → RefinesEach net parent child }
    ensures from { (net : Network) (parent child : Policy) → HasDifferentIds parent →
        RefinesEach net parent child → Refines net (localised_form parent) child }
{}

/// Refinement between localised forms is transitive.
pub fn refinement_is_transitive()
    ensures { (net : Network) (first second third : Policy) → HasDifferentIds first →
        HasDifferentIds second → HasDifferentIds third →
        Refines net (localised_form first) (localised_form second) →
        Refines net (localised_form second) (localised_form third) →
        Refines net (localised_form first) (localised_form third) }
{}

/// The ids of a join differ, none is `default`, and each packet has a statement of it.
pub fn join_is_sound()
    ensures ids { (policy : Policy) (children : List Child) → IsPlain policy →
        AreChildren children → HasIds (join policy children) }
    ensures total { (policy : Policy) (children : List Child) → IsPlain policy →
        AreChildren children → HasStatementForEach (join policy children) }
{}

/// Within the scope of a child a join does to packets what the child does, and outside all scopes what the policy itself does.
pub fn join_acts()
    ensures child { (policy : Policy) (children : List Child) (child : Child) → IsPlain policy →
        AreChildren children → Contains children child →
        ActsAs (join policy children) child.policy (λ p. holds child.scope p) }
    ensures own { (policy : Policy) (children : List Child) → IsPlain policy →
        AreChildren children →
        ActsAs (join policy children) policy (is_outside (scopes_of children)) }
{}

/// A join with finer children refines the join with the coarser ones.
pub fn finer_children_refine_the_join()
    ensures { (net : Network) (policy : Policy) (coarse fine : List Child) → IsPlain policy →
        AreChildren coarse → AreChildren fine →
        AllZip (IsFinerChild net) coarse fine →
        Refines net (join policy coarse) (join policy fine) }
{}

/// Where each node of a tree is accepted by itself, each is accepted, however deep the tree is, and the composition of each refines its own policy.
pub fn local_acceptance_suffices()
    ensures accepted { (net : Network) (nodes : List DelegationNode) (compositions : List Policy) →
        IsDelegationTree nodes → AreCompositions nodes compositions →
        ((k : ℕ) (node : DelegationNode) →
        slice_get nodes k ≡ Some node → IsLocallyAccepted net nodes k node) → (k : ℕ)
        (node : DelegationNode) → slice_get nodes k ≡ Some node →
        IsAcceptedWith net nodes compositions k node }
    ensures refines { (net : Network) (nodes : List DelegationNode) (compositions : List Policy) →
        IsDelegationTree nodes → AreCompositions nodes compositions →
        ((k : ℕ) (node : DelegationNode) →
        slice_get nodes k ≡ Some node → IsLocallyAccepted net nodes k node) → (k : ℕ)
        (node : DelegationNode) (composition : Policy) → slice_get nodes k ≡ Some node →
        slice_get compositions k ≡ Some composition →
        Refines net (localised_form node.policy) composition }
{}

/// Where all that touch a term are known, their sum decides: whoever has the list needs no other.
pub fn all_touching_decide()
    ensures caps { (net : Network) (parent child : Policy) (term : Term) (touching : List ℕ) →
        AreTouching net parent child term touching → KeepsCap net parent child term ↔
        IsAtMost (sum_of_caps child touching) (amount_of term) }
    ensures reserves { (net : Network) (parent child : Policy) (term : Term) (touching : List ℕ) →
        AreTouching net parent child term touching → KeepsReserve net parent child term ↔
        (sum_by (min_of child) touching ≤ amount_of term) }
{}

/// A tree has one list of compositions at most.
pub fn one_composition()
    ensures { (nodes : List DelegationNode) (compositions others : List Policy) →
        IsDelegationTree nodes →
        AreCompositions nodes compositions → AreCompositions nodes others → compositions ≡ others }
{}
