//! What a bridge shows of itself.

use frame_core::{BridgeId, Mac, PriorityVector, Times};
use rstp_core::{Role, State};

/// What a bridge shows of itself (RFC 4188 dot1dBase, dot1dStp, dot1dTp).
#[derive(Clone, Copy, Debug, PartialEq, Eq)]
pub struct Facts {
    /// The bridge address.
    pub address: Mac,
    /// The number of ports.
    pub ports: usize,
    /// The root's bridge identifier.
    pub root: BridgeId,
    /// The cost of the path to the root.
    pub root_cost: u32,
    /// The number of the root port, or 0 where this bridge is root.
    pub root_port: u16,
    /// The times in force, in 1/256 s.
    pub times: Times,
    /// How many topology changes there were, modulo 2^32.
    pub topology_changes: u32,
    /// The seconds since no port signals a topology change any more, or since the opening where none
    /// was signalled; 0 while one is signalled. At most 2^64 - 1.
    pub since: u64,
    /// How many sources were not learned because the table was full, modulo 2^32.
    pub entry_discards: u32,
}

/// What a bridge shows of a port (RFC 4188 dot1dBasePortTable, dot1dStpPortTable, dot1dTpPortTable;
/// RFC 4318).
#[derive(Clone, Copy, Debug, PartialEq, Eq)]
pub struct PortFacts {
    /// The interface number, 1 to 2147483647 (RFC 2863, InterfaceIndex).
    pub ifindex: u32,
    /// Whether the port is enabled by its setting and its link is up.
    pub on: bool,
    /// The port state.
    pub state: State,
    /// The port role.
    pub role: Role,
    /// The port priority vector: the designated root, cost, bridge and port.
    pub vector: PriorityVector,
    /// How often the port became forwarding, modulo 2^32.
    pub forward_transitions: u32,
    /// The path cost in use.
    pub cost: u32,
    /// Whether the port is at the edge of the network.
    pub oper_edge: bool,
    /// Whether the port's link is point to point.
    pub point_to_point: bool,
    /// Frames in while the port was on, modulo 2^32.
    pub frames_in: u32,
    /// Frames out, BPDUs included, modulo 2^32.
    pub frames_out: u32,
    /// Frames in while the port was on that went nowhere, BPDUs apart, modulo 2^32.
    pub discards_in: u32,
}
