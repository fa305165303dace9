//! Laws about what policies stand for. Each is the contract of a function that does nothing.

ghost use Rattle.std.specs.Prelude.{◌≡◌, ℕ, List, Option, Some, slice_get};
ghost use Rattle.policy_grammar.specs.declared.written.Literal.{Literal};
ghost use Rattle.policy_grammar.specs.declared.written.Item.TheVariants.{ForEach};
ghost use Rattle.policy_grammar.specs.declared.written.WrittenStatement.{WrittenStatement};
ghost use Rattle.policy_grammar.specs.declared.written.WrittenPolicy.{WrittenPolicy};
ghost use Rattle.policy_expansion.specs.declared.policy.Policy.{Policy};
ghost use Rattle.policy_expansion.specs.WrittenOut.{written_out};
ghost use Rattle.policy_expansion.specs.Kept.{IsExpanded, IsWellWritten, IsWellFormed};
ghost use Rattle.policy_expansion.specs.Packets.{IsForPair};
ghost use Rattle.policy_expansion.specs.Rows as rows;
ghost use Rattle.policy_expansion.specs.Expansion.{expansion};

/// The statement at a place among those that a `foreach` stands for bears the number of that place. Its predicate holds of
/// a packet exactly where the packet goes from the first to the second address of the pair at that place and the written
/// predicate holds of it.
pub fn statement_of_a_pair()
    ensures { (known : List ℕ → Option (List Literal)) (outer inner : List ℕ)
        (s : WrittenStatement) (place : ℕ) (t : WrittenStatement) →
        slice_get (written_out known (ForEach outer inner s)) place ≡ Some t →
        IsForPair known outer inner s place t }
{}

/// A policy that a written one stands for has at most 4,096 statements with the default, and their ids differ.
pub fn expanded_policy()
    ensures { (w : WrittenPolicy) (policy : Policy) → expansion w ≡ Ok policy → IsExpanded policy }
{}

/// Values that are in their ranges in a policy as it is written are so in the one that it stands for: addresses, predicates and rates.
pub fn well_formed_policy()
    ensures { (w : WrittenPolicy) (policy : Policy) → IsWellWritten w → expansion w ≡ Ok policy →
        IsWellFormed policy }
{}

/// Worked examples.
pub fn worked_rows()
    ensures two_pairs { expansion rows.two_hosts ≡ rows.two_statements }
    ensures duplicate_set { expansion rows.set_twice ≡ rows.refused_set_twice }
    ensures mixed_set { expansion rows.mixed ≡ rows.refused_mixed }
    ensures unknown_set { expansion rows.unknown ≡ rows.refused_unknown }
    ensures duplicate_id { expansion rows.id_twice ≡ rows.refused_id_twice }
    ensures limits { expansion rows.limited ≡ rows.limits_first }
{}
