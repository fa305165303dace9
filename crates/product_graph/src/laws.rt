//! Laws of products. Each is the contract of a function that does nothing.

ghost use Rattle.std.specs.Prelude.{ℕ, ◌≡◌, ◌∷◌, List, true};
ghost use Rattle.merlin_model.specs.declared.policy.Symbol.{Symbol};
ghost use Rattle.merlin_model.specs.Networks.{Network, IsHost};
ghost use Rattle.merlin_model.specs.Words.{at, IsWalk};
ghost use Rattle.rules_model.specs.Products.{SymbolAutomaton, ending_state, start_of};
ghost use Rattle.product_graph.specs.declared.span.Product.{Product};
ghost use Rattle.product_graph.specs.declared.span.Span2.{Span2};
ghost use Rattle.product_graph.specs.Products.{IsSource, IsTrimmed, dest_of};
ghost use Rattle.product_graph.specs.Walks.{IsPathBy, NeverTurns, word_by};

/// The paths from a start to the end of a product spell walks that the automaton accepts, and all of
/// these, but for turns at an unchanged symbol and state.
pub fn paths_spell_walks()
    ensures walks { (net : Network) (a : SymbolAutomaton) (span : Span2) (product : Product) →
        IsTrimmed net a span product → IsHost net (dest_of span) → (edges : List ℕ) →
        IsPathBy product edges → (s : ℕ) × IsSource net span s ×
        IsWalk net s (dest_of span) (word_by product edges) ×
        (a.accepts (ending_state a 0 (word_by product edges)) ≡ true) }
    ensures paths { (net : Network) (a : SymbolAutomaton) (span : Span2) (product : Product) →
        IsTrimmed net a span product → (s : ℕ) (rest : List Symbol) → IsSource net span s →
        IsWalk net s (dest_of span) (at s ∷ rest) →
        a.accepts (ending_state a 0 (at s ∷ rest)) ≡ true → NeverTurns a (start_of a s) rest →
        (edges : List ℕ) × IsPathBy product edges × (word_by product edges ≡ at s ∷ rest) }
{}
