//! Lines of a log and of audits, which one task writes, so that no other waits for an output.
//!
//! # Entry points
//! Tasks share a [`LineQueue`]: they offer it lines of audits, and log by a [`QueuedLog`] over it. An
//! offer copies a line and never waits for an output; a line that finds no space is lost, and counted.
//! [`write_lines`] is the task that takes the lines in hand ([`LinesInHand`]) and writes them to two outputs,
//! each an [`Outlet`]: a [`Descriptor`], or another one for tests. [`takes_octets`] asks an output whether it
//! takes more; [`file_size_limit`] is the limit of the file that an output may be.
//!
//! # Definitions
//! `specs/Waiting.antt`: the lines that wait for one output, and those that are lost; `specs/Pending.antt`:
//! what an output is still to take of a text, and where it stands; `specs/Steps.antt`: what a step
//! of the writer does at an output; `specs/Lost.antt`: how many lines of the log are lost with a text that
//! is given up.
//!
//! # Laws
//! On the parts: an offer appends the line to the text that waits exactly where that stays within its most
//! octets; a step writes a front of what the output is still to take, in order and once; a text that is
//! given up counts the lines that are not written whole, and what comes next begins with a line feed
//! exactly where the output stands inside a line. In [`laws`]: the limits are what they are.
//!
//! # Not claimed
//! That a line that is offered is written: no clause follows a value through a lock. That a line of the
//! one output stands whole between lines of the other where both are one file, and how long the writer
//! waits: tests say that. That what is offered are whole lines, each with its line feed. What a terminal
//! does that is stopped: a write of 4,096 octets may wait there.
#![tactic(auto)]

pub mod laws;
mod lost;
mod outlet;
mod pending;
mod queue;
mod sink;
mod step;
#[cfg(test)]
mod tests;
mod text;
mod waiting;
mod writing;

pub use outlet::{Descriptor, Outlet, file_size_limit, takes_octets};
pub use pending::CHUNK_OCTETS;
pub use queue::{LineQueue, MAX_AUDIT_OCTETS, MAX_LOG_OCTETS};
pub use sink::QueuedLog;
pub use writing::{LinesInHand, write_lines};
