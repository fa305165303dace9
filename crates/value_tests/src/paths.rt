//! Normal forms of paths, what may follow after a symbol, and whether the empty word is taken.

ghost use Rattle.std.specs.Prelude.{◌≡◌, [], ◌∷◌, None, true, false};
ghost use Rattle.merlin_model.specs.declared.policy.Path.{Nothing, Empty, Dot, Loc, Fun, Cat, Alt, Star, Not};
ghost use Rattle.path_regex.specs.Normal.{normal_of};
ghost use Rattle.path_regex.specs.Derivatives.{takes_empty, derivative_of};

/// Sequences are grouped to the right, and have no Nothing and no Empty in them.
pub fn sequences()
    ensures grouped { normal_of (Cat (Cat (Loc 0) (Loc 1)) (Loc 2))
        ≡ Cat (Loc 0) (Cat (Loc 1) (Loc 2)) }
    ensures nothing { normal_of (Cat Dot Nothing) ≡ Nothing }
    ensures empty { normal_of (Cat Dot Empty) ≡ Dot }
    ensures rest { derivative_of (Cat (Loc 0) (Loc 1)) (record { loc = 0; fun = None }) ≡ Loc 1 }
    ensures whole { takes_empty (Cat (Loc 0) (Loc 1)) ≡ false }
{}

/// Members of a choice stand in order, each once and none a choice itself.
pub fn choices()
    ensures none { normal_of (Alt []) ≡ Nothing }
    ensures one { normal_of (Alt (Nothing ∷ Fun 1 ∷ [])) ≡ Fun 1 }
    ensures same { normal_of (Alt (Dot ∷ Dot ∷ [])) ≡ Dot }
    ensures nested { normal_of (Alt (Fun 0 ∷ Alt (Loc 2 ∷ Loc 1 ∷ []) ∷ []))
        ≡ Alt (Loc 1 ∷ Loc 2 ∷ Fun 0 ∷ []) }
{}

/// A star of a star is one star, and a complement of a complement none.
pub fn stars_and_complements()
    ensures nothing { normal_of (Star Nothing) ≡ Empty }
    ensures twice { normal_of (Star (Star Dot)) ≡ Star Dot }
    ensures back { normal_of (Not (Not (Loc 0))) ≡ Loc 0 }
{}
