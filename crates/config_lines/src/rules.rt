//! Lines of rules.

ghost use Rattle.std.specs.Prelude.{◌≡◌, ◌++◌, List, ℕ, IfOk, IfSome, IfNone};
ghost use Rattle.merlin_model.specs.declared.config.Rule.{Rule as Stated};
ghost use Rattle.config_lines.specs.Lines.{rule_line, IsRuleLine};
ghost use Rattle.config_lines.specs.Courses.{course_actions, rule_of};

use crate::actions::{Course, course_then};
use crate::fields::match_then;
use crate::words::{location_then, short_then};
use merlin_base::strip_front;
use merlin_model::OutOfMemory;
use merlin_model::config::{Actions, Match, Rule};
use std::alloc::Global;
use topology::Topology;

/// A rule without memory of its own.
#[derive(Clone, Copy)]
pub struct PlainRule {
    pub loc: usize,
    pub priority: u16,
    pub fits: Match,
    pub course: Course,
}

// The rule with whose line the text begins, and what stands behind the line.
fn read_plain_rule<'a>(net: &Topology, text: &'a [u8]) -> Option<(PlainRule, &'a [u8])>
    ensures some { IfSome result (λ r. (text.now ≡ rule_line net.now (rule_of r.0) ++ r.1.now)
        × IsRuleLine net.now (rule_of r.0)) }
    ensures none { IfNone result ((rule : Stated) (rest : List ℕ) → IsRuleLine net.now rule →
        text.now ≡ rule_line net.now rule ++ rest → ⊥) }
{
    let rest = strip_front(text, b"rule ")?;
    let (loc, rest) = location_then(net, rest)?;
    let (priority, rest) = short_then(rest, b' ', 0, 65535)?;
    let (fits, rest) = match_then(rest)?;
    let (course, rest) = course_then(rest)?;
    let rule = PlainRule {
        loc,
        priority,
        fits,
        course,
    };
    Some((rule, rest))
}

// The actions of a rule, in memory.
fn actions_of(alloc: Global, course: Course) -> Result<Actions, OutOfMemory>
    ensures { IfOk result (λ actions. actions ≡ course_actions course) }
{
    match course {
        Course::Drop => Actions::from_slice(alloc, &[]),
        Course::Send(send) => Actions::from_slice(alloc, &[send]),
        Course::ChangeAndSend(change, send) => Actions::from_slice(alloc, &[change, send]),
    }
}

/// The rule with whose line the text begins, and what stands behind the line. None where it begins with the line of no rule.
pub fn read_rule<'a>(
    alloc: Global,
    net: &Topology,
    text: &'a [u8],
) -> Result<Option<(Rule, &'a [u8])>, OutOfMemory>
    ensures some { IfOk result (λ o. IfSome o (λ r.
        (text.now ≡ rule_line net.now r.0 ++ r.1.now) × IsRuleLine net.now r.0)) }
    ensures none { IfOk result (λ o. IfNone o ((rule : Stated) (rest : List ℕ) →
        IsRuleLine net.now rule → text.now ≡ rule_line net.now rule ++ rest → ⊥)) }
{
    match read_plain_rule(net, text) {
        None => Ok(None),
        Some((plain, rest)) => {
            let rule = Rule {
                loc: plain.loc,
                priority: plain.priority,
                fits: plain.fits,
                actions: actions_of(alloc, plain.course)?,
            };
            Ok(Some((rule, rest)))
        }
    }
}
