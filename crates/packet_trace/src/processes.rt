//! The `process` line that acts at a middlebox: the first that stands there for the frame's tag and destination.

ghost use Rattle.std.specs.Prelude.{◌≡◌};
ghost use Rattle.std.specs.List.{position};
ghost use Rattle.packet_trace.specs.Processes.{is_process_for};

use config_text::Process;

fn is_process_for(line: &Process, loc: usize, tag: Option<u16>, eth_dst: u64) -> bool
    ensures { result ≡ is_process_for loc tag eth_dst line.now }
{
    line.loc == loc && tag == Some(line.tag) && line.eth_dst == eth_dst
}

/// The place of the `process` line that acts on a frame at a middlebox: the first that stands there for the frame's tag and
/// destination. None where there is none, as for each frame without a tag.
pub fn fitting_process(
    processes: &[Process],
    loc: usize,
    tag: Option<u16>,
    eth_dst: u64,
) -> Option<usize>
    ensures { result ≡ position (is_process_for loc tag eth_dst) processes.now }
{
    processes
        .iter()
        .position(|line| is_process_for(line, loc, tag, eth_dst))
}
