//! A manager of SNMP version 2c: it asks an agent over a wire, again until the agent answers or the
//! tries are used up, and walks through a subtree of names (RFC 3416, section 4.2).
//!
//! # Entry points
//! [`run_command`] does a [`Command`], which has an agent, a number of tries and an [`ManagerOperation`], and
//! gives the exit status: 0 or [`FAILED`]. Where it is 0 nothing is written on standard error.
//! [`ask`] gives the bindings that answer a request, or a [`ManagerFault`]. [`walk`] gives those of
//! a subtree of names, fewer than [`MAX_NAMES`]: 99,999 at most. [`report`] writes the line of a
//! [`Failure`]. [`RECEIVE_SPACE`] is how many octets are lent to a receive.
//!
//! # Definitions
//! `specs/Replies.antt`: what a datagram says to a request; `specs/Asks.antt`: the tries of an ask,
//! what each did on the wire, and how the ask ends; `specs/Walks.antt`: the asks of a walk, and its
//! result; `specs/Lines.antt`: the lines that are written; `specs/Runs.antt`: what a run asks and
//! writes.
//!
//! # Laws
//! In [`laws`]: the limits and the exit status, as numbers.
//!
//! # Not claimed
//! That a peer answers; who it is that answers; that a growth or a write succeeds; that memory was
//! refused where that is reported; what stands on standard error where the status is not 0.
#![tactic(auto)]

mod asking;
mod command;
mod fault;
mod hearing;
pub mod laws;
mod lines;
mod run;
mod walking;
mod writing;

pub use asking::{RECEIVE_SPACE, ask};
pub use command::{Command, FAILED, run_command};
pub use fault::ManagerFault;
pub use run::{Failure, ManagerOperation, report};
pub use walking::{MAX_NAMES, walk};
