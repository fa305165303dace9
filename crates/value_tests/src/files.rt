//! Files of one name, which a list may hold and no folder.

ghost use Rattle.std.specs.Prelude.{◌≡◌, ℕ, [], ◌∷◌, Some, None, codes};
ghost use Rattle.std.specs.declared.vec.Vec.{Vec};
ghost use Rattle.std.specs.declared.alloc.Global.{Global};
ghost use Rattle.merlin_base.specs.Contents.{content_of};

/// The first file of a name counts, and a name that no file has means none.
pub fn the_first_file_of_a_name_counts()
    ensures first { (one other : Vec ℕ Global) →
        content_of ((codes "six", one) ∷ (codes "six", other) ∷ []) (codes "six")
        ≡ Some one.items }
    ensures absent { (one : Vec ℕ Global) →
        content_of ((codes "six", one) ∷ []) (codes "seven") ≡ None }
{}
