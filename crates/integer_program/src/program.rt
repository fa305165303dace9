//! Programs with cutoffs.

ghost use Rattle.std.specs.Prelude.{ℕ, ◌≡◌, ◌<◌, length, Option, None, Some, Bool, List, IsTrue};
ghost use Rattle.std.specs.Option.{option_copied};
ghost use Rattle.merlin_model.specs.Programs.{Program as Instance, IsProgram, HasCutoffs, Takes, variables, row_at, is_chosen};

/// A program in zeros and ones that gets narrower at smaller cutoffs. Only right sides and upper bounds move with the cutoff.
pub trait Program {
    /// A bound that each solution at it stays below.
    type Cutoff: Copy;

    /// The program as it stands at a cutoff, or without one.
    ghost instance: { Self → Option Self.Cutoff → Instance };

    /// The cutoffs with which it may be asked.
    ghost takes: { Self → Self.Cutoff → Bool };

    /// The boxes that a relaxation must decide.
    ghost easy: { Self → Option Self.Cutoff → List (Option Bool) → Type 0 };

    /// The points that a relaxation may offer.
    ghost neat: { Self → List Bool → Type 0 };

    /// The cutoff that a point reaches.
    ghost value: { Self → List Bool → Self.Cutoff };

    /// Whether one cutoff is smaller than another.
    ghost is_below: { Self → Self.Cutoff → Self.Cutoff → Bool };

    /// The number of variables.
    fn variables(&self) -> usize
        ensures { result ≡ variables (instance self.now None) };

    /// The number of rows.
    fn rows(&self) -> usize
        ensures { result ≡ length (instance self.now None).rows };

    /// The entries of a row: variables, ascending, each with its coefficient.
    fn entries(&self, row: usize) -> &[(usize, i64)]
        requires { row < length (instance self.now None).rows }
        ensures { result.now ≡ (row_at (instance self.now None) row).entries };

    /// Whether the left side of a row is to equal its right side; it is at most that otherwise.
    fn is_equality(&self, row: usize) -> bool
        requires { row < length (instance self.now None).rows }
        ensures { result ≡ (row_at (instance self.now None) row).is_equality };

    /// The right side of a row.
    fn right(&self, row: usize, cutoff: Option<&Self::Cutoff>) -> i64
        requires in_range { row < length (instance self.now None).rows }
        requires takes { Takes (takes self.now) (option_copied cutoff) }
        ensures { result ≡ (row_at (instance self.now (option_copied cutoff.entry)) row).right };

    /// Whether a variable may be 1.
    fn upper(&self, variable: usize, cutoff: Option<&Self::Cutoff>) -> bool
        requires in_range { variable < variables (instance self.now None) }
        requires takes { Takes (takes self.now) (option_copied cutoff) }
        ensures { let stated = instance self.now (option_copied cutoff.entry) in
            result ≡ is_chosen stated.upper variable };

    /// The cutoff that a point reaches.
    fn cutoff_of(&self, point: &[bool]) -> Self::Cutoff
        requires { length point.now ≡ variables (instance self.now None) }
        ensures { result ≡ value self.now point.now };

    /// Whether one cutoff is below another.
    fn below(&self, a: &Self::Cutoff, b: &Self::Cutoff) -> bool
        requires a { IsTrue (takes self.now a.now) }
        requires b { IsTrue (takes self.now b.now) }
        ensures { result ≡ is_below self.now a.now b.now };

    /// It has its form and keeps the limits at each cutoff.
    ghost is_program: { (it : Self) (cutoff : Option Self.Cutoff) → Takes (takes it) cutoff →
        IsProgram (instance it cutoff) };

    /// How it moves with its cutoffs.
    ghost cutoffs: { (it : Self) →
        HasCutoffs Self.Cutoff (instance it) (takes it) (is_below it) (value it) };
}
