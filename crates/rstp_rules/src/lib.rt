//! The rules of the Rapid Spanning Tree Protocol for one port (IEEE 802.1D-2004 clause 17, in the
//! profile of docs/PROFILE.md): the types of a port, and one small function for each rule, which is
//! proved equal to the rule's definition. What all ports do together is in `rstp_core`.
//!
//! # Entry points
//! The types are in [`port`], [`row`] and [`settled`]; their rules are methods, one module a subject.
//! What follows from the settings is in [`lines`], a port's number in [`vector`]. Nothing here takes
//! memory.
//!
//! # Definitions
//! `specs/`, a file a subject: `Vectors.antt`, identifiers, vectors and their order; `Ports.antt`,
//! words for information, role and state; `Bpdus.antt`, what a BPDU says of a topology change;
//! `Lines.antt`, what follows from the settings, and the times in force; `Roles.antt`, the root vector
//! and the roles; `Restarts.antt`, a port that starts anew and settling; `Arrivals.antt`, a BPDU
//! that arrives; `Ticks.antt`, a tick; `Transitions.antt`, states by roles; `Turns.antt`, ports
//! that became forwarding; `Sends.antt`, what is sent.
//!
//! # Laws
//! None: `rstp_core` has them.
//!
//! # Not claimed
//! Conformance to the full text of clause 17.
#![tactic(auto)]

mod arrivals;
mod bpdus;
pub mod lines;
pub mod port;
mod restarts;
mod roles;
pub mod row;
mod sends;
pub mod settled;
mod ticks;
mod transitions;
pub mod vector;
