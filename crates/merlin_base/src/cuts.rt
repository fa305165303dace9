//! Texts cut before a byte or behind a front.

ghost use Rattle.std.specs.Prelude.{ℕ, ◌≡◌, ◌++◌, List, IfSome, IfNone};
ghost use Rattle.merlin_base.specs.Lexemes.{Lacks};
ghost use Rattle.merlin_base.specs.Pairs.{IsEmptyOrBegins};

/// What stands before the first such byte, and the rest from it on.
pub fn cut_before(text: &[u8], byte: u8) -> (&[u8], &[u8])
    ensures whole { text.now ≡ result.0.now ++ result.1.now }
    ensures lacks { Lacks byte result.0.now }
    ensures begins { IsEmptyOrBegins byte result.1.now }
{
    for (place, other) in text.iter().enumerate() {
        if *other == byte {
            return (&text[..place], &text[place..]);
        }
    }
    (text, &text[text.len()..])
}

/// What stands behind this front. None where the text doesn't begin with it.
pub fn strip_front<'a>(text: &'a [u8], front: &[u8]) -> Option<&'a [u8]>
    ensures some { IfSome result (λ rest. text.now ≡ front.now ++ rest.now) }
    ensures none { IfNone result ((rest : List ℕ) → text.now ≡ front.now ++ rest → ⊥) }
{
    text.strip_prefix(front)
}
