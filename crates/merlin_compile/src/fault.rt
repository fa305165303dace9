//! Why nothing is compiled, and what that is called.
ghost use Rattle.std.specs.Prelude.{◌≡◌, IfOk, IsTrue, ◌↔◌};
ghost use Rattle.merlin_compile.specs.Causes.{IsWantOfMemory, compile_fault_text as text_of_compile_fault};
ghost use Rattle.merlin_compile.specs.declared.fault.CompileFault.TheVariants as faults;

use merlin_base::{Name, OutOfMemory as NoMemory};
use openflow_rules::RuleFault;
use policy_check::{CheckFault, EndsFault};
use policy_flows::ProgramFault;
use policy_parser::PolicyFault;
use refusal_text::{
    check_fault_text, heavy_text, net_fault_text, policy_fault_text, program_fault_text,
    rule_fault_text,
};
use std::alloc::Global;
use topology::NetFault;

/// Why nothing is compiled. A fault of ends has with it what it is called, since its locations have names in the network alone.
/// `Heavy`: the guarantee of the statement with the id costs too much on a link, by the link's weight; it stands in place of
/// `ProgramFault::Heavy`.
#[derive(Drop)]
pub enum CompileFault {
    Policy(PolicyFault),
    Net(NetFault),
    Check(CheckFault),
    Ends { fault: EndsFault, text: Name },
    Rules(RuleFault),
    Program(ProgramFault),
    Heavy { id: Name, link: usize },
    OutOfMemory,
}

impl CompileFault {
    /// Whether memory ran out, which is no refusal.
    pub fn is_want_of_memory(&self) -> bool
        ensures { IsTrue result ↔ IsWantOfMemory self.now }
    {
        matches!(
            self,
            CompileFault::OutOfMemory
                | CompileFault::Policy(PolicyFault::OutOfMemory)
                | CompileFault::Net(NetFault::OutOfMemory)
                | CompileFault::Check(CheckFault::OutOfMemory)
                | CompileFault::Ends {
                    fault: EndsFault::OutOfMemory,
                    ..
                }
                | CompileFault::Rules(RuleFault::OutOfMemory)
                | CompileFault::Program(ProgramFault::OutOfMemory)
        )
    }
}

impl From<PolicyFault> for CompileFault {
    ghost from_gives = { λ fault gives. gives ≡ faults.Policy fault };

    fn from(fault: PolicyFault) -> Self {
        CompileFault::Policy(fault)
    }
}

impl From<NetFault> for CompileFault {
    ghost from_gives = { λ fault gives. gives ≡ faults.Net fault };

    fn from(fault: NetFault) -> Self {
        CompileFault::Net(fault)
    }
}

impl From<NoMemory> for CompileFault {
    ghost from_gives = { λ _ gives. gives ≡ faults.OutOfMemory };

    fn from(_: NoMemory) -> Self {
        CompileFault::OutOfMemory
    }
}

/// What the fault is called. Want of memory has no name.
pub fn compile_fault_text(alloc: Global, fault: &CompileFault) -> Result<Name, NoMemory>
    ensures { IfOk result (λ text. text ≡ text_of_compile_fault fault.now) }
{
    match fault {
        CompileFault::Policy(fault) => policy_fault_text(alloc, fault),
        CompileFault::Net(fault) => net_fault_text(alloc, fault),
        CompileFault::Check(fault) => check_fault_text(alloc, fault),
        CompileFault::Ends { text, .. } => text.copy(alloc),
        CompileFault::Rules(fault) => rule_fault_text(alloc, *fault),
        CompileFault::Program(fault) => program_fault_text(alloc, *fault),
        CompileFault::Heavy { id, link } => heavy_text(alloc, id, *link),
        CompileFault::OutOfMemory => Err(NoMemory),
    }
}
