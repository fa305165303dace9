//! What is replied to the texts of a delegation tree.

use delegation_text::EntryFault;
use merlin_base::Name;
use packet_model::Packet;
use policy_check::CheckFault;
use policy_parser::PolicyFault;
use topology::NetFault;

/// What is replied to the texts of a delegation tree: the first question that is answered no, in their order here, or that every node is accepted.
/// Nodes are named. `Wider` has what the first rule of refinement that fails is called.
#[derive(Drop)]
pub enum DelegateReply {
    UnreadTree(EntryFault),
    UnreadScope {
        node: Name,
        fault: PolicyFault,
    },
    UnreadPolicy {
        node: Name,
        fault: PolicyFault,
    },
    UnreadTopology(NetFault),
    WrongPolicy {
        node: Name,
        fault: CheckFault,
    },
    TooManyClasses {
        node: Name,
    },
    SharedScopes {
        first: Name,
        second: Name,
        packet: Packet,
    },
    TooManyStatements {
        node: Name,
    },
    WrongJoin {
        node: Name,
        fault: CheckFault,
    },
    TooManyCells {
        node: Name,
    },
    Wider {
        node: Name,
        text: Name,
    },
    Accepted {
        nodes: usize,
        statements: usize,
    },
}
