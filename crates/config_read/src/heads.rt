//! The first two lines of a result.

ghost use Rattle.std.specs.Prelude.{ℕ, ◌≡◌, ◌<◌, ◌++◌, ◌∷◌, Bool, true, false, List, codes, IfSome, IfNone};
ghost use Rattle.std.specs.Fmt.{decimal};
ghost use Rattle.merlin_model.specs.declared.policy.Objective.{Objective as Stated};
ghost use Rattle.config_text.specs.Loads.{ratio_text};
ghost use Rattle.config_text.specs.Result.{objective_word};
ghost use Rattle.config_lines.specs.Words.{HasFewDigits};
ghost use Rattle.config_read.specs.Heads.{first_line, IsVersion, IsWrittenValue, least_then};

use merlin_base::{read_number, split_at_byte, strip_front};
use merlin_model::policy::Objective;

/// The version and whether there is an assignment, by the first line, and what stands behind that line.
pub(crate) fn read_first_line(text: &[u8]) -> Option<((u8, bool), &[u8])>
    ensures some { IfSome result (λ r. (text.now ≡ first_line r.0.0 r.0.1 ++ r.1.now)
        × IsVersion r.0.0) }
    ensures none { IfNone result ((version : ℕ) (feasible : Bool) (rest : List ℕ) →
        IsVersion version → text.now ≡ first_line version feasible ++ rest → ⊥) }
{
    if let Some(rest) = strip_front(text, b"merlin 2 ok\n") {
        return Some(((2, true), rest));
    }
    if let Some(rest) = strip_front(text, b"merlin 1 ok\n") {
        return Some(((1, true), rest));
    }
    if let Some(rest) = strip_front(text, b"merlin 2 infeasible\n") {
        return Some(((2, false), rest));
    }
    let rest = strip_front(text, b"merlin 1 infeasible\n")?;
    Some(((1, false), rest))
}

// The objective that the word names.
fn objective_of(word: &[u8]) -> Option<Objective>
    ensures some { IfSome result (λ objective. word.now ≡ objective_word objective) }
    ensures none { IfNone result ((objective : Stated) →
        word.now ≡ objective_word objective → ⊥) }
{
    if word == b"shortest".as_slice() {
        return Some(Objective::Shortest);
    }
    if word == b"ratio".as_slice() {
        return Some(Objective::Ratio);
    }
    if word == b"reserved".as_slice() {
        return Some(Objective::Reserved);
    }
    None
}

/// The objective between the first word of the line and this byte, and what stands behind the byte.
pub(crate) fn objective_then(text: &[u8], byte: u8) -> Option<(Objective, &[u8])>
    requires { byte < 48 }
    ensures some { IfSome result (λ r.
        text.now ≡ codes "objective " ++ (objective_word r.0 ++ byte ∷ r.1.now)) }
    ensures none { IfNone result ((objective : Stated) (rest : List ℕ) →
        text.now ≡ codes "objective " ++ (objective_word objective ++ byte ∷ rest) → ⊥) }
{
    let rest = strip_front(text, b"objective ")?;
    let (word, rest) = split_at_byte(rest, byte)?;
    let objective = objective_of(word)?;
    Some((objective, rest))
}

// Whether the word is a number of few digits.
fn is_short(word: &[u8]) -> bool
    ensures yes { result ≡ true → (n : ℕ) × HasFewDigits n × (word.now ≡ decimal n) }
    ensures no { result ≡ false → (n : ℕ) → HasFewDigits n →
        word.now ≡ decimal n → ⊥ }
{
    read_number(word).is_some()
}

// Whether the word is a value: a number, or a load of a capacity.
fn is_value(word: &[u8]) -> bool
    ensures yes { result ≡ true → IsWrittenValue word.now }
    ensures no { result ≡ false → ¬ IsWrittenValue word.now }
{
    match split_at_byte(word, b'/') {
        Some((load, capacity)) => is_short(load) && is_short(capacity),
        None => is_short(word),
    }
}

// The value before the end of the line, as it stands there, and what stands behind the line.
fn value_then(text: &[u8]) -> Option<(&[u8], &[u8])>
    ensures some { IfSome result (λ r. (text.now ≡ r.0.now ++ 10 ∷ r.1.now)
        × IsWrittenValue r.0.now) }
    ensures none { IfNone result ((value rest : List ℕ) → IsWrittenValue value →
        text.now ≡ value ++ 10 ∷ rest → ⊥) }
{
    let (word, rest) = split_at_byte(text, b'\n')?;
    if is_value(word) {
        Some((word, rest))
    } else {
        None
    }
}

/// The objective and the value, as it stands there, by the second line of a result with an assignment, and what stands behind that line.
pub(crate) fn read_least_line(text: &[u8]) -> Option<(Objective, &[u8], &[u8])>
    ensures some { IfSome result (λ r. (text.now ≡ least_then r.0 r.1.now r.2.now)
        × IsWrittenValue r.1.now) }
    ensures none { IfNone result ((objective : Stated) (value rest : List ℕ) →
        IsWrittenValue value → text.now ≡ least_then objective value rest → ⊥) }
{
    let (objective, rest) = objective_then(text, b' ')?;
    let (value, rest) = value_then(rest)?;
    Some((objective, value, rest))
}
