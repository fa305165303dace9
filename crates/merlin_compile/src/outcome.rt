//! What a policy compiles to over a topology.

use config_text::Config;
use merlin_base::Name;
use merlin_model::certificate::Tree;
use merlin_model::policy::{Objective, Symbol, Value};
use sqlite_items::Items;
use topology::Topology;

/// Walks of least value for the guaranteed statements, the configuration that is made of them, and a tree that shows that no
/// assignment is better. The ids are those of the guaranteed statements, and the walks stand in the same order.
#[derive(Drop)]
pub struct Solved {
    pub net: Topology,
    pub ids: Items<Name>,
    pub objective: Objective,
    pub value: Value,
    pub walks: Items<Items<Symbol>>,
    pub config: Config,
    pub tree: Tree,
}

/// What is left where the budget of nodes was spent: the best walks with their value, if any were found, a value that no
/// feasible assignment is below, and the tree with an open end.
#[derive(Drop)]
pub struct Partial {
    pub net: Topology,
    pub ids: Items<Name>,
    pub objective: Objective,
    pub best: Option<(Value, Items<Items<Symbol>>)>,
    pub bound: Value,
    pub tree: Tree,
}

/// What a policy and a topology compile to.
#[derive(Drop)]
pub enum Compiled {
    Least(Solved),
    /// No assignment is feasible, as the tree shows.
    Infeasible { objective: Objective, tree: Tree },
    Budget(Partial),
}
