//! Laws about what formulas ask. Each is the contract of a function that does nothing.

ghost use Rattle.std.specs.Prelude.{◌≡◌, ◌↔◌, ℕ, List};
ghost use Rattle.merlin_model.specs.Packets.{Packet};
ghost use Rattle.merlin_model.specs.Policies.{Policy};
ghost use Rattle.merlin_model.specs.Rates.{Meets, KeepsFormula, rate_of_id};
ghost use Rattle.rate_formula.specs.Usage.{rate_among, ids_in, rates_of};

/// Where the ids are those of a policy, and each uses what some traffic gives to it, `meets` says whether the traffic keeps the formula of the
/// policy.
pub fn meets_by_traffic()
    ensures rate { (policy : Policy) (traffic : List (Packet × ℕ)) (id : List ℕ) →
        rate_among (ids_in policy) (rates_of policy traffic) id ≡ rate_of_id policy traffic id }
    ensures formula { (policy : Policy) (traffic : List (Packet × ℕ)) →
        Meets (rate_among (ids_in policy) (rates_of policy traffic)) policy.terms
        ↔ KeepsFormula policy traffic }
{}
