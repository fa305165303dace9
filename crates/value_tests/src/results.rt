//! The text of a whole result, as it is defined.

ghost use Rattle.std.specs.Prelude.{◌≡◌};
ghost use Rattle.value_tests.specs.Rows.{lines, wanted};

/// A small result has the text that is wanted.
pub fn one_result()
    ensures { lines ≡ wanted }
{}
