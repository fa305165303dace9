//! What a text of a result says beside its certificate.

use config_text::Load;
use merlin_base::Name;
use merlin_model::config::Config;
use merlin_model::policy::{Objective, Symbol};
use sqlite_items::Items;

/// What a result says before its configuration: the objective, and the value as it is written, the walks beside the ids of their statements,
/// and the loads of directed links; or that there is no assignment.
#[derive(Drop)]
pub enum Head {
    Least {
        objective: Objective,
        value: Name,
        walks: Items<(Name, Items<Symbol>)>,
        loads: Items<Load>,
    },
    Infeasible {
        objective: Objective,
    },
}

/// A result as it was read. `version` is 1 or 2, and `tree_start` is the place of the first node line, a byte offset.
#[derive(Drop)]
pub struct ResultText {
    pub version: u8,
    pub head: Head,
    pub config: Config,
    pub tree_start: usize,
}
