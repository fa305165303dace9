//! The rules of switches and the `process` lines of middleboxes for a checked policy.
#![tactic(auto)]

mod cells;
mod chosen;
mod entries;
mod fault;
mod gathering;
mod groups;
mod making;
mod owned;
mod preparing;
mod rule_plan;
mod senders;
mod sinks;
mod sources;
mod spans;
mod tags;
mod walk_rows;
mod walks;

pub use fault::{MAX_ENTRIES, MAX_TAGS, RuleFault};
pub use groups::{Groups, groups_of};
pub use merlin_model::OutOfMemory;
pub use rule_plan::{RulePlan, plan};
pub use rule_tables::Tables;
