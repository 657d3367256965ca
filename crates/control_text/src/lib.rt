//! The text of a command that an operator gives to a served agent, and of its answer: in the words of
//! a script.
//!
//! # Entry points
//! [`read_command`] reads octets: it gives the [`Command`], a link, a policy or the counts, or the
//! [`CommandFault`], which has none of a policy's text. [`say_refusal`], [`say_bpdus`] and [`say_counts`] write answers. A policy's text
//! has at most [`MAX_POLICY`] octets, a command at most [`MAX_COMMAND`].
//!
//! # Definitions
//! `specs/Commands.antt`: what octets ask for; `specs/Answers.antt`: the text of an answer.
//!
//! # Laws
//! None.
//!
//! # Not claimed
//! That memory was refused where that is reported.
#![tactic(auto)]

mod command;
mod policy_part;
mod saying;

pub use command::{Command, CommandFault, MAX_COMMAND, MAX_POLICY, read_command};
pub use saying::{say_bpdus, say_counts, say_refusal};
