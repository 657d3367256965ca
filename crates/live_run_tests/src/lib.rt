//! Tests of wires, histories, threads and runs:
//! - wires over UDP on this machine, with `--forever` too, and the clock's paces; threads that begin together, or
//!   of which one does not begin, with the control socket;
//! - histories and receipts; runs over wires in memory: whole runs, the objects that come back from them, and
//!   threads that go on interval by interval;
//! - the text of an audit that names all settings which may be unrestored; audit lines that are offered to a queue
//!   and written;
//! - the thread of an operator's commands;
//! - counts that threads add to while another takes or reads them.
//!
//! # Entry points
//! None: the tests call what `wire_core`, `control_socket`, `history_core`, `audit_core` and the crates `live_..`
//! offer.
//!
//! # Definitions
//! None.
//!
//! # Laws
//! None.
//!
//! # Not claimed
//! Anything: it only tests.
#![tactic(auto)]

#[cfg(test)]
mod audited;
#[cfg(test)]
mod audits;
#[cfg(test)]
mod clock;
#[cfg(test)]
mod commanded;
#[cfg(test)]
mod counted;
#[cfg(test)]
mod failing;
#[cfg(test)]
mod fixtures;
#[cfg(test)]
mod gated;
#[cfg(test)]
mod histories;
#[cfg(test)]
mod laps;
#[cfg(test)]
mod paces;
#[cfg(test)]
mod replayed;
#[cfg(test)]
mod rows;
#[cfg(test)]
mod startups;
#[cfg(test)]
mod support;
#[cfg(test)]
mod tallies;
#[cfg(test)]
mod wires;
