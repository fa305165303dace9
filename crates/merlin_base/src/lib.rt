//! What every crate stands on: statuses, files and sinks whose faults are counted, single lexemes, and the texts of addresses.
#![tactic(auto)]

mod addresses;
mod cuts;
mod lexemes;
pub mod limits;
mod memory;
mod nodes;
mod number_texts;
mod outside;
mod pairs;
mod status;
mod system;
mod transfer;

pub use addresses::{ip_text, mac_text};
pub use cuts::{cut_before, strip_front};
pub use lexemes::{
    ip_value, is_digit, is_identifier, is_letter, is_name, is_name_byte, mac_value, rate_value,
    read_decimal, split_at_byte,
};
pub use memory::{MemoryFiles, MemorySink, SureFiles, SureSink};
pub use merlin_model::{Name, OutOfMemory, name_from};
pub use nodes::skip_nodes;
pub use number_texts::{read_number, read_whole};
pub use outside::{Files, OutsideFault, Sink};
pub use pairs::{are_pairs, read_pair};
pub use status::Status;
pub use system::{StdFiles, StdSink};
pub use transfer::{ReadFail, read_all, write_all, write_lines};
