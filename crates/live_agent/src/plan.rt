//! What the lines of a run have in common.
use frame_core::Mac;
use std::alloc::Global;
use std::net::SocketAddr;

/// What the lines of a run have in common.
#[derive(Drop)]
pub struct Plan {
    /// What gives them memory.
    pub alloc: Global,
    /// How often each goes round: how many receives of a worker and of a port, and how many ticks.
    pub rounds: u64,
    /// The bridge's address, from which the ports send their BPDUs.
    pub source: Mac,
    /// The peer of each port, from port 1 on. A port without one is sent nothing.
    pub peers: Vec<SocketAddr>,
}
