//! The priorities of a switch's rules: of those that fit a frame the one of the highest priority acts.

/// Of the rule that takes each untagged packet of a pair of hosts, whatever else it bears.
pub const WHOLE_PRIORITY: u16 = 20;

/// Of a rule for tagged frames.
pub const TAG_PRIORITY: u16 = 100;

/// Of a rule for tagged frames that go back by the port that they came in.
pub const BACK_PRIORITY: u16 = 200;
