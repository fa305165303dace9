//! The fields of a FLOW_MOD message in front of its actions (OpenFlow Switch Specification 1.0.0, sections 5.1, 5.2.3 and 5.3.3),
//! and what each may hold.

/// Which numbers a field may hold.
#[derive(Clone, Copy)]
pub enum Taken {
    Any,
    Only(u64),
    AtMost(u64),
    /// The number of bytes of the message.
    Length,
    Wildcards,
    /// A port, or anything where the match leaves the field out.
    InPort,
    /// A tag or what stands for none, or anything where the match leaves the field out.
    VlanId,
    /// IPv4, or anything where the match leaves the field out.
    EtherType,
}

/// A field: its first byte, its width in bytes, and what it may hold.
pub type FieldForm = (usize, usize, Taken);

/// The fields in front of the actions, in their order.
pub const FIELDS: [FieldForm; 27] = [
    (0, 1, Taken::Only(1)), // version
    (1, 1, Taken::Only(14)), // type
    (2, 2, Taken::Length),
    (4, 4, Taken::Any), // xid
    (8, 4, Taken::Wildcards),
    (12, 2, Taken::InPort),
    (14, 6, Taken::Any), // dl_src
    (20, 6, Taken::Any), // dl_dst
    (26, 2, Taken::VlanId),
    (28, 1, Taken::Any), // dl_vlan_pcp
    (29, 1, Taken::Any), // pad
    (30, 2, Taken::EtherType),
    (32, 1, Taken::Any), // nw_tos
    (33, 1, Taken::Any), // nw_proto
    (34, 2, Taken::Any), // pad
    (36, 4, Taken::Any), // nw_src
    (40, 4, Taken::Any), // nw_dst
    (44, 2, Taken::Any), // tp_src
    (46, 2, Taken::Any), // tp_dst
    (48, 8, Taken::Any), // cookie
    (56, 2, Taken::Only(0)), // command: add
    (58, 2, Taken::Only(0)), // idle_timeout
    (60, 2, Taken::Only(0)), // hard_timeout
    (62, 2, Taken::Any), // priority
    (64, 4, Taken::Only(0xffff_ffff)), // buffer_id: none
    (68, 2, Taken::Any), // out_port
    (70, 2, Taken::AtMost(1)), // flags
];
