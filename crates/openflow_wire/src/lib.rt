//! Rules as FLOW_MOD messages of OpenFlow 1.0.0, and back.
#![tactic(auto)]

mod laws;
mod layout;
mod matching;
mod numbers;
mod reading;
mod writing;

pub use laws::{message_is_read_back, message_matches_as_its_rule, worked_messages};
pub use layout::{FIELDS, FieldForm, Taken};
pub use matching::matches;
pub use numbers::{GREATEST_PORT, IN_PORT, IPV4, MAX_QUEUE_ID, MAX_VLAN, NO_VLAN, Number};
pub use reading::{WireFault, decode};
pub use writing::encode;
