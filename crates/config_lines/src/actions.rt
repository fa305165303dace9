//! What a rule does.

ghost use Rattle.std.specs.Prelude.{ℕ, ◌≡◌, ◌++◌, ◌∷◌, List, true, false, IfSome, IfNone};
ghost use Rattle.std.specs.Fmt.{decimal};
ghost use Rattle.merlin_model.specs.declared.config.Out.{Out as Port};
ghost use Rattle.merlin_model.specs.declared.config.Action.{Action as Stated};
ghost use Rattle.config_text.specs.Lines.{out_text, action_text, actions_text};
ghost use Rattle.config_lines.specs.Words.{IsQueue};
ghost use Rattle.config_lines.specs.Parts.{IsLineOut, IsTagging, IsSending, AreLineActions};
ghost use Rattle.config_lines.specs.Courses.{IsAction, course_actions};

use crate::limits::{MAX_QUEUE, MAX_TAG};
use crate::words::{GREATEST_PORT, read_short};
use merlin_base::{cut_before, split_at_byte, strip_front};
use merlin_model::config::{Action, Out};

/// What a rule does, without memory of its own: it drops, or sends, or changes the tag and then sends.
#[derive(Clone, Copy)]
pub enum Course {
    Drop,
    Send(Action),
    ChangeAndSend(Action, Action),
}

// The port that the word names.
fn read_out(word: &[u8]) -> Option<Out>
    ensures some { IfSome result (λ out. (word.now ≡ out_text out) × IsLineOut out) }
    ensures none { IfNone result ((out : Port) → IsLineOut out →
        word.now ≡ out_text out → ⊥) }
{
    if word == b"in_port".as_slice() {
        return Some(Out::InPort);
    }
    let port = read_short(word, 1, GREATEST_PORT)?;
    Some(Out::Port(port))
}

// The port and the queue that the word names.
fn read_enqueue(word: &[u8]) -> Option<(Out, u16)>
    ensures some { IfSome result (λ r. (word.now ≡ out_text r.0 ++ 58 ∷ decimal r.1)
        × IsLineOut r.0 × IsQueue r.1) }
    ensures none { IfNone result ((out : Port) (queue : ℕ) → IsLineOut out → IsQueue queue →
        word.now ≡ out_text out ++ 58 ∷ decimal queue → ⊥) }
{
    let (port, number) = split_at_byte(word, b':')?;
    let out = read_out(port)?;
    let queue = read_short(number, 1, MAX_QUEUE)?;
    Some((out, queue))
}

// The action that the word is.
fn read_action(word: &[u8]) -> Option<Action>
    ensures some { IfSome result (λ action. (word.now ≡ action_text action) × IsAction action) }
    ensures none { IfNone result ((action : Stated) → IsAction action →
        word.now ≡ action_text action → ⊥) }
{
    if let Some(number) = strip_front(word, b"set_vlan_vid=") {
        let tag = read_short(number, 1, MAX_TAG)?;
        return Some(Action::SetVlan(tag));
    }
    if word == b"strip_vlan".as_slice() {
        return Some(Action::StripVlan);
    }
    if let Some(port) = strip_front(word, b"output=") {
        let out = read_out(port)?;
        return Some(Action::Output(out));
    }
    let place = strip_front(word, b"enqueue=")?;
    let (out, queue) = read_enqueue(place)?;
    Some(Action::Enqueue(out, queue))
}

// Whether the frame leaves by the action; else it changes the tag.
fn is_sending(action: Action) -> bool
    requires { IsAction action }
    ensures yes { result ≡ true → IsSending action }
    ensures no { result ≡ false → IsTagging action }
{
    match action {
        Action::SetVlan(_) => false,
        Action::StripVlan => false,
        Action::Output(_) => true,
        Action::Enqueue(_, _) => true,
    }
}

// What the word makes a rule do.
fn read_course(word: &[u8]) -> Option<Course>
    ensures some { IfSome result (λ course.
        (word.now ≡ actions_text (course_actions course))
        × AreLineActions (course_actions course)) }
    ensures none { IfNone result ((actions : List Stated) → AreLineActions actions →
        word.now ≡ actions_text actions → ⊥) }
{
    if word == b"drop".as_slice() {
        return Some(Course::Drop);
    }
    let (first, behind) = cut_before(word, b',');
    let action = read_action(first)?;
    let Some(second) = strip_front(behind, b",") else {
        return if is_sending(action) {
            Some(Course::Send(action))
        } else {
            None
        };
    };
    let send = read_action(second)?;
    if is_sending(action) {
        return None;
    }
    if is_sending(send) {
        Some(Course::ChangeAndSend(action, send))
    } else {
        None
    }
}

/// What a rule does by the end of its line, and what stands behind the line.
pub(crate) fn course_then(text: &[u8]) -> Option<(Course, &[u8])>
    ensures some { IfSome result (λ r.
        (text.now ≡ actions_text (course_actions r.0) ++ 10 ∷ r.1.now)
        × AreLineActions (course_actions r.0)) }
    ensures none { IfNone result ((actions : List Stated) (rest : List ℕ) →
        AreLineActions actions →
        text.now ≡ actions_text actions ++ 10 ∷ rest → ⊥) }
{
    let (word, rest) = split_at_byte(text, b'\n')?;
    let course = read_course(word)?;
    Some((course, rest))
}
