//! Laws about localised rates. Each is the contract of a function that does nothing.

ghost use Rattle.std.specs.Prelude.{◌≡◌, ◌≢◌, ℕ, List, [], Some, slice_get, sum_by};
ghost use Rattle.merlin_model.specs.declared.policy.Term.{Term};
ghost use Rattle.merlin_model.specs.Policies.{Policy, Statement};
ghost use Rattle.merlin_model.specs.Rates.{Meets, min_of, max_of, ids_of, amount_of, HasRoomForGuarantees};
ghost use Rattle.rate_formula.specs.Usage.{ids_in};
ghost use Rattle.localise.specs.Localised.{localised};
ghost use Rattle.localise.specs.Faults.{repeats_in, faults};
ghost use Rattle.localise.specs.Usage.{share_of, max_terms, min_terms, HaveIds, KeepsMaxima, KeepsMinima};

/// The localised rates of the ids of a policy are those of its statements, in order.
pub fn rates_of_statements()
    ensures min { (policy : Policy) (i : ℕ) (s : Statement) →
        slice_get policy.statements i ≡ Some s →
        slice_get (localised policy.terms (ids_in policy)).min i ≡ Some (min_of policy i) }
    ensures max { (policy : Policy) (i : ℕ) (s : Statement) →
        slice_get policy.statements i ≡ Some s →
        slice_get (localised policy.terms (ids_in policy)).max i ≡ Some (max_of policy i) }
{}

/// Where the formula of a policy has no fault, no minimum exceeds the maximum of its statement.
pub fn no_fault_leaves_room()
    ensures { (policy : Policy) → faults policy.terms (ids_in policy) ≡ [] →
        HasRoomForGuarantees policy }
{}

/// The shares of the ids of a term sum to what the constants leave of its rate.
pub fn shares_of_a_term_sum()
    ensures { (term : Term) → ids_of term ≢ [] → repeats_in (ids_of term) ≡ [] →
        sum_by (share_of term) (ids_of term) ≡ amount_of term }
{
    merlin_model::laws::shares_sum();
}

/// Uses at or below all localised maxima meet each `max` term. Uses at or above all localised minima meet each `min` term, where each term has an id. So uses between them
/// meet the formula; those of some traffic keep the formula of its policy, which is `Meets` of what the traffic gives to each id.
pub fn localised_rates_meet_the_formula()
    ensures maxima { (terms : List Term) (ids : List (List ℕ)) (usage : List ℕ → ℕ) →
        faults terms ids ≡ [] → KeepsMaxima terms ids usage → Meets usage (max_terms terms) }
    ensures minima { (terms : List Term) (ids : List (List ℕ)) (usage : List ℕ → ℕ) →
        faults terms ids ≡ [] → HaveIds terms → KeepsMinima terms ids usage →
        Meets usage (min_terms terms) }
    ensures both { (terms : List Term) (ids : List (List ℕ)) (usage : List ℕ → ℕ) →
        faults terms ids ≡ [] → HaveIds terms → KeepsMaxima terms ids usage →
        KeepsMinima terms ids usage → Meets usage terms }
{
    shares_of_a_term_sum();
}
