//! The numbers of the layout (IEEE 802.1D-2004, clause 9).

/// The most octets that a length field counts (IEEE 802.3, 3.2.6).
pub const MAX_LENGTH: usize = 1_500;

/// The octets before the BPDU: two addresses, the length field and the LLC header (7.12).
pub const HEADER_LEN: usize = 17;

/// The LLC header of the spanning tree protocols: their address twice, and unnumbered information
/// (7.12.3).
pub const SPANNING_TREE_LLC: [u8; 3] = [0x42, 0x42, 0x03];

/// The protocol identifier of the spanning tree protocols (9.2.1).
pub const SPANNING_TREE: u16 = 0;

/// The version of RST BPDUs, from which on they are read (9.2.2).
pub const RAPID_VERSION: u8 = 2;

/// The type of Configuration BPDUs (9.2.3).
pub const CONFIG_TYPE: u8 = 0x00;

/// The type of Topology Change Notification BPDUs (9.2.3).
pub const NOTICE_TYPE: u8 = 0x80;

/// The type of RST BPDUs (9.2.3).
pub const RAPID_TYPE: u8 = 0x02;

/// The octets of a Configuration BPDU (9.3.1).
pub const CONFIG_LEN: usize = 35;

/// The octets of a Topology Change Notification BPDU (9.3.2).
pub const NOTICE_LEN: usize = 4;

/// The octets of an RST BPDU (9.3.3).
pub const RAPID_LEN: usize = 36;

/// The bit of a topology change in the flags octet; the lowest bit is 0 (9.3.1, 9.3.3).
pub const TOPOLOGY_CHANGE: u8 = 0;

/// The bit of a proposal (9.3.3).
pub const PROPOSAL: u8 = 1;

/// The lower of the two bits of the port role (9.3.3).
pub const ROLE: u8 = 2;

/// The bit of learning (9.3.3).
pub const LEARNING: u8 = 4;

/// The bit of forwarding (9.3.3).
pub const FORWARDING: u8 = 5;

/// The bit of an agreement (9.3.3).
pub const AGREEMENT: u8 = 6;

/// The bit of a topology change acknowledgment (9.3.1).
pub const ACKNOWLEDGE: u8 = 7;
