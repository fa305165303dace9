//! The text of a configuration and of loads, line by line.
#![tactic(auto)]

mod addresses;
mod config;
mod entry;
mod fields;
mod hosts;
mod line;
mod lists;
mod loads;
mod rules;
mod writing;

pub use addresses::mac_bytes;
pub use config::print;
pub use loads::{Load, print_loads};
pub use merlin_model::config::{
    Action, Actions, Config, HostLine, HostMatch, Match, Out, Process, Queue, Rule, Vlan,
};
pub use writing::write_config;
