//! Why a topology is refused.
ghost use Rattle.std.specs.Prelude.{◌≡◌};
ghost use Rattle.topology_rules.specs.declared.fault.NetFault.TheVariants as fault;
ghost use Rattle.topology_rules.specs.Faults.{of_shape};

use merlin_base::{Name, OutOfMemory as NoMemory};
use std::alloc::{AllocError, AllocFailed};
use topology_shape::ShapeFault;

/// Why a text is no topology: the first of these. `Json`: it is no JSON text. `Shape`: the first member that is missing or wrong, as
/// `links[2].b`. `TooLarge`: of what there are too many, with the limit plus one. `DuplicateName`: the later of two locations or functions of
/// one name. `DuplicateAddress`: the later of two hosts that share an address. `DuplicatePort`: a location and its port that two ends of links
/// share. `ParallelLink`: the number of the later of two links between two locations. `HostLink`: a host that has not exactly one link, to a
/// switch. `Placement`: a function with a place that is no middlebox, or one place twice. `OutOfMemory`: memory ran out.
#[derive(Drop)]
pub enum NetFault {
    Json,
    Shape { what: Name },
    TooLarge { what: Name, count: u64 },
    DuplicateName { name: Name },
    DuplicateAddress { name: Name },
    DuplicatePort { name: Name, port: u16 },
    ParallelLink { link: usize },
    HostLink { name: Name },
    Placement { name: Name },
    OutOfMemory,
}

impl From<AllocError> for NetFault {
    ghost from_gives = { λ _ gives. gives ≡ fault.OutOfMemory };

    fn from(_: AllocError) -> Self {
        NetFault::OutOfMemory
    }
}

impl<T: Drop> From<AllocFailed<T>> for NetFault {
    ghost from_gives = { λ _ gives. gives ≡ fault.OutOfMemory };

    fn from(_: AllocFailed<T>) -> Self {
        NetFault::OutOfMemory
    }
}

impl From<NoMemory> for NetFault {
    ghost from_gives = { λ _ gives. gives ≡ fault.OutOfMemory };

    fn from(_: NoMemory) -> Self {
        NetFault::OutOfMemory
    }
}

impl From<ShapeFault> for NetFault {
    ghost from_gives = { λ cause gives. gives ≡ of_shape cause };

    fn from(cause: ShapeFault) -> Self {
        match cause {
            ShapeFault::Json => NetFault::Json,
            ShapeFault::Wrong { what } => NetFault::Shape { what },
            ShapeFault::OutOfMemory => NetFault::OutOfMemory,
        }
    }
}
