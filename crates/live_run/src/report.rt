//! What a run did, or why it has no report.
use crate::lines::Runs;
use wire_core::WireFault;

/// What a run did.
#[derive(Drop)]
pub struct Report {
    /// The entries that it made.
    pub entries: u64,
    /// Those of them that are a worker's.
    pub requests: u64,
    /// Those of them that are older than the history's base.
    pub older: u64,
    /// The datagrams that a worker received and that gave no request, also for want of memory. The count
    /// stops at `u64::MAX`.
    pub drops: u64,
    /// How each line ended, and its trace.
    pub runs: Runs,
}

/// Why a run has no report.
#[derive(Clone, Copy, Debug, PartialEq, Eq)]
pub enum RunFault {
    /// A receipt of this number is not below the history's base and does not stand in it, is there
    /// twice, or is not above the one before it in its trace.
    Mismatch(u64),
    /// The first wire of the workers, the ports and the ticker that failed, failed so.
    Wire(WireFault),
    /// There was no memory: for the run, for the trace of a line, for a port's link, or for the
    /// comparison of the receipts with the history.
    Memory,
}
