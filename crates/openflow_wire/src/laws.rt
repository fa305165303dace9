//! What holds of messages. A law is a function with an empty body; a call of it hands its clauses to the caller.

ghost use Rattle.std.specs.Prelude.{ℕ, ◌≡◌, ◌≤◌, ◌<◌, ◌^◌, [], take, None, Some, IfSome};
ghost use Rattle.merlin_model.specs.declared.config.Rule.{Rule};
ghost use Rattle.merlin_model.specs.Machine.{Frame, fits};
ghost use Rattle.openflow_wire.specs.declared.numbers.TheConstants.{MAX_VLAN};
ghost use Rattle.openflow_wire.specs.Rules.{IsRule};
ghost use Rattle.openflow_wire.specs.Messages.{message_of, match_wildcards, message_fault, IsMessage};
ghost use Rattle.openflow_wire.specs.Frames.{message_matches};
ghost use Rattle.openflow_wire.specs.Examples.{strip_rule, first_rule, drop_rule, tag_message, last_message};

/// The message of a rule is read as that rule, under the same number.
pub fn message_is_read_back()
    ensures { (rule : Rule) (xid : ℕ) → IsRule rule → xid < 2 ^ 32 →
        IsMessage (message_of rule xid) rule.loc rule xid }
{}

/// The message of a rule matches the frames that the rule fits.
pub fn message_matches_as_its_rule()
    ensures { (rule : Rule) (xid : ℕ) (frame : Frame) → IsRule rule →
        IfSome frame.tag (λ tag. tag ≤ MAX_VLAN) →
        message_matches (message_of rule xid) frame ≡ fits rule.fits frame }
{}

/// Messages of the rules of one switch between two hosts, byte for byte, and where two that are changed stop being messages.
pub fn worked_messages()
    ensures tagged { message_of strip_rule 1 ≡ tag_message }
    ensures untagged { match_wildcards first_rule.fits ≡ 3145952 }
    ensures last { message_of drop_rule 5 ≡ last_message 1 }
    ensures taken { message_fault (last_message 1) ≡ None }
    ensures other_version { message_fault (last_message 4) ≡ Some 0 }
    ensures cut { message_fault (take 10 (last_message 1)) ≡ Some 2 }
    ensures no_bytes { message_fault [] ≡ Some 0 }
    ensures three_bytes { message_fault (take 3 (last_message 1)) ≡ Some 2 }
{}
