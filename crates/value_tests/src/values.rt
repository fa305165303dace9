//! Predicates of no parts, sums past 64 bits, and addresses past 48 bits.

ghost use Rattle.std.specs.Prelude.{ℕ, ◌≡◌, ◌*◌, ◌-◌, ◌^◌, [], ◌∷◌, true, false};
ghost use Rattle.merlin_model.specs.Packets.{Packet, IsPacket};
ghost use Rattle.merlin_model.specs.Predicates.{holds};
ghost use Rattle.merlin_model.specs.declared.policy.Pred.{All, AnyOf};
ghost use Rattle.merlin_model.specs.declared.policy.Bound.TheVariants.{Max};
ghost use Rattle.merlin_model.specs.declared.policy.Part.TheVariants.{Constant};
ghost use Rattle.merlin_model.specs.Rates.{total_of};

/// All of no predicate hold, and none of no predicate does.
pub fn all_and_any_of_no_predicate()
    ensures all { (packet : Packet) → holds (All []) packet ≡ true }
    ensures any { (packet : Packet) → holds (AnyOf []) packet ≡ false }
{}

/// A sum is counted whole, also past 64 bits.
pub fn a_sum_may_pass_64_bits()
    ensures { (usage : _) → total_of usage (record {
      bound = Max;
      parts = Constant (2 ^ 64 - 1) ∷ Constant (2 ^ 64 - 1) ∷ [];
      rate = 2 ^ 64 - 1;
    }) ≡ 2 * (2 ^ 64 - 1) }
{}

/// An Ethernet address has 48 bits.
pub fn an_address_has_48_bits()
    ensures source { (packet : Packet) → packet.eth_src ≡ 2 ^ 48 → ¬ IsPacket packet }
    ensures destination { (packet : Packet) → packet.eth_dst ≡ 2 ^ 48 → ¬ IsPacket packet }
{}
