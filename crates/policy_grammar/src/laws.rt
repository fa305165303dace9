//! Laws of the grammar, and that the machine is the grammar. Each is the contract of a function that does nothing.

ghost use Rattle.std.specs.Prelude.{◌≡◌, ◌≤◌, ◌-◌, ℕ, List, length, Ok, Err, ◌⊎◌};
ghost use Rattle.policy_grammar.specs.declared.written.WrittenPolicy.{WrittenPolicy};
ghost use Rattle.std.specs.List.{AllByRecursion};
ghost use Rattle.policy_grammar.specs.Lexemes.{Lexeme, IsSpelled};
ghost use Rattle.policy_grammar.specs.Grammar.{StandsFor, IsFaultAt};
ghost use Rattle.policy_grammar.specs.Machine.{run, first_state};

/// What stands for a policy is read as that policy.
pub fn complete()
    ensures { (lexemes : List Lexeme) (policy : WrittenPolicy) → StandsFor lexemes policy →
        run lexemes first_state ≡ Ok policy }
{}

/// What is read as a policy stands for it.
pub fn sound()
    ensures { (lexemes : List Lexeme) (policy : WrittenPolicy) →
        run lexemes first_state ≡ Ok policy → StandsFor lexemes policy }
{}

/// Where the reading stops, with some lexemes left, no policy goes on.
pub fn fault()
    ensures { (lexemes : List Lexeme) (left : ℕ) → run lexemes first_state ≡ Err left →
        (left ≤ length lexemes) × IsFaultAt lexemes (length lexemes - left) }
{}

/// Lexemes stand for one policy at most.
pub fn one_policy()
    ensures { (lexemes : List Lexeme) (p q : WrittenPolicy) → StandsFor lexemes p →
        StandsFor lexemes q → p ≡ q }
{}

/// Lexemes stand for a policy, or stop being one somewhere.
pub fn policy_or_fault()
    ensures { (lexemes : List Lexeme) → ((policy : WrittenPolicy) ×
        StandsFor lexemes policy) ⊎ ((n : ℕ) × IsFaultAt lexemes n) }
{}

/// Lexemes that texts can have stop being a policy at one place.
pub fn one_fault()
    ensures { (lexemes : List Lexeme) (m n : ℕ) → AllByRecursion IsSpelled lexemes →
        IsFaultAt lexemes m → IsFaultAt lexemes n → m ≡ n }
{}

/// Lexemes that texts can have and that stop being a policy somewhere stand for none.
pub fn fault_is_no_policy()
    ensures { (lexemes : List Lexeme) (n : ℕ) (policy : WrittenPolicy) →
        AllByRecursion IsSpelled lexemes → IsFaultAt lexemes n → ¬ StandsFor lexemes policy }
{}
