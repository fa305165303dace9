//! Laws about policies that texts stand for. Each is the contract of a function that does nothing.

ghost use Rattle.std.specs.Prelude.{◌≢◌, ◌++◌, ℕ, List, [], codes};
ghost use Rattle.std.specs.List.{AllByRecursion};
ghost use Rattle.merlin_model.specs.declared.policy.Term.{Term};
ghost use Rattle.rate_formula.specs.FormulaLexemes.{IsWritable, HasLexemes, formula_lexemes};
ghost use Rattle.policy_expansion.specs.declared.policy.Policy.{Policy};
ghost use Rattle.policy_parser.specs.Policies.{IsPolicyText, IsParsed, HasId, formula_alone};

/// A policy that a text stands for has few statements under ids that differ, and values in their ranges.
pub fn parsed_policy()
    ensures { (text : List ℕ) (policy : Policy) → IsPolicyText text policy → IsParsed policy }
{}

/// The text of a formula is read back as that formula: after `[ ], ` it stands for the policy that is this formula alone.
pub fn printed_formula()
    ensures { (text : List ℕ) (terms : List Term) → terms ≢ [] → AllByRecursion HasId terms →
        HasLexemes text (formula_lexemes terms) →
        IsPolicyText (codes "[ ], " ++ text) (formula_alone terms) }
{}

/// Where `[ ], ` and some text stand for a policy, its formula can be written, and `[ ], ` and what is written for it stand for the policy too.
pub fn formula_again()
    ensures writable { (text : List ℕ) (policy : Policy) →
        IsPolicyText (codes "[ ], " ++ text) policy →
        IsWritable policy.formula.terms }
    ensures again { (text printed : List ℕ) (policy : Policy) →
        IsPolicyText (codes "[ ], " ++ text) policy →
        HasLexemes printed (formula_lexemes policy.formula.terms) →
        IsPolicyText (codes "[ ], " ++ printed) policy }
{}
