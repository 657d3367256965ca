//! The control socket of a served agent: a wire over a Unix socket, whose one peer is the operator.
//!
//! # Entry points
//! [`bind_control`] makes a [`ControlSocket`] at a path, or gives the [`ControlFault`] for which there
//! is none. The socket is a `Wire`: a receive gives the command of one connection, and the send behind
//! it answers over that connection, and ends it. It takes none until all tasks of the agent's start have
//! begun. [`ask_agent`] is the other end: it sends a command to
//! such a socket, and gives what is answered; [`link_command`], [`policy_command`] and [`COUNTS`] are the
//! commands.
//!
//! # Definitions
//! `specs/Whole.antt`: when a command is whole; `specs/Places.antt`: which directory a socket may be in;
//! `specs/Sent.antt`: the octets of commands.
//!
//! # Laws
//! On a receive: what it gives is no longer than the slice; it fails only with `WireFault::Receive`, and
//! then counts one failure. On a send: none fails.
//!
//! # Not claimed
//! At which errors a receive fails: at each of an accept, unless nobody waited, a signal came, or who
//! connected is gone. What comes over a connection, and what of an answer arrives; how long a wait is; that no connection is
//! taken before all tasks have begun, and that the socket is closed only where one had not; what a path names,
//! and that a socket is made only in a directory of which nothing is wrong.
#![tactic(auto)]

mod asking;
mod binding;
mod command;
mod connecting;
mod fault;
mod reading;
mod socket;

pub use asking::{MAX_ANSWER, ask_agent};
pub use binding::bind_control;
pub use command::{COUNTS, link_command, policy_command};
pub use fault::ControlFault;
pub use reading::COMMAND_WAIT_MILLIS;
pub use socket::{ControlSocket, OPERATOR_WAIT_MILLIS};
