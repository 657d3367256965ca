//! The text of a policy, as it is written in TOML: its rows, and their faults in order.
//!
//! # Entry points
//! [`policy_of`] reads a table of TOML, [`policy_in`] octets, which are UTF-8 or no policy;
//! [`text_of`] gives the text that octets are, where they are UTF-8; [`keys`] has what stands under
//! the keys of a table, which configurations use as well.
//!
//! # Definitions
//! `specs/Policies.antt`, `specs/Reading.antt`: what a text says and its first fault;
//! `specs/Stated.antt`, `specs/Texts.antt`: the same as functions; `specs/Keys.antt`: what stands
//! under a key; `specs/Typed.antt`: a value that says a row is typed as one.
//!
//! # Laws
//! In [`laws`]: what a table of TOML says is what the functions give.
//!
//! # Not claimed
//! TOML itself, whose reader is the kit's.
#![tactic(auto)]

pub mod keys;
pub mod laws;
mod octets;
mod policies;
mod rows;

pub use octets::{policy_in, text_of};
pub use policies::policy_of;
