//! How a run ended.
ghost use Rattle.std.specs.Prelude.{◌≡◌};
ghost use Rattle.merlin_base.specs.Status.{code_of};

/// How a run of the program ended.
#[derive(Clone, Copy, PartialEq, Eq)]
pub enum Status {
    Done,
    Refused,
    Usage,
    Infeasible,
    Budget,
    CheckNo,
    RefineNo,
    ReadFault,
    WriteFault,
    Memory,
    StillRunning,
}

impl Status {
    /// The exit status of the program.
    pub fn code(self) -> u8
        ensures { result ≡ code_of self }
    {
        match self {
            Status::Done => 0,
            Status::Refused => 1,
            Status::Usage => 2,
            Status::Infeasible => 3,
            Status::Budget => 4,
            Status::CheckNo => 5,
            Status::RefineNo => 6,
            Status::ReadFault => 7,
            Status::WriteFault => 7,
            Status::Memory => 8,
            Status::StillRunning => 9,
        }
    }
}
