//! Results as texts: what a whole text stands for, or the first of its lines that is wrong.
#![tactic(auto)]

mod body;
mod fault;
mod heads;
pub mod laws;
mod reader;
mod result;
mod sections;
mod tail;

pub use config_text::Load;
pub use fault::ConfigFault;
pub use merlin_model::policy::{Objective, Symbol};
pub use reader::read;
pub use result::{Head, ResultText};
