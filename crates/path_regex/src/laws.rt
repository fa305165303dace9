//! Laws of normal forms and of the order of paths. Each is the contract of a function that does
//! nothing.

ghost use Rattle.std.specs.Prelude.{◌≡◌, ◌↔◌, List, Contains};
ghost use Rattle.std.specs.declared.cmp.Ordering.TheVariants.{Equal};
ghost use Rattle.merlin_model.specs.declared.policy.Symbol.{Symbol};
ghost use Rattle.merlin_model.specs.declared.policy.Path.{Path, Alt};
ghost use Rattle.path_regex.specs.Order.{order, AscendStrictly};
ghost use Rattle.path_regex.specs.Normal.{in_order_of, normal_of};
ghost use Rattle.path_regex.specs.Derivatives.{derivative_of};
ghost use Rattle.path_regex.specs.Functions.{HasNoFunctionUnderNot};
ghost use Rattle.path_regex.specs.Languages.{TakesSameWords, IsQuotient};

/// Paths of equal order are equal.
pub fn equal_order_is_equality()
    ensures { (first second : Path) → (order first second ≡ Equal) ↔ (first ≡ second) }
{}

/// Paths put in order ascend strictly and are the same paths; so are the members of a normal Alt.
pub fn normal_members_ascend()
    ensures order { (paths : List Path) → AscendStrictly (in_order_of paths) }
    ensures same { (paths : List Path) (a : Path) →
        Contains (in_order_of paths) a ↔ Contains paths a }
    ensures members { (path : Path) (all : List Path) →
        normal_of path ≡ Alt all → AscendStrictly all }
{}

/// The normal form takes the words of its path, and the derivative those that the path takes behind
/// the symbol.
pub fn normal_forms_keep_language()
    ensures normal { (path : Path) →
        HasNoFunctionUnderNot path → TakesSameWords path (normal_of path) }
    ensures derivative { (path : Path) (x : Symbol) →
        HasNoFunctionUnderNot path → IsQuotient path x (derivative_of path x) }
{}
