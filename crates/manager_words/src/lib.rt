//! The words of a manager: what a command line asks for, and its run.
//!
//! # Entry points
//! [`run_manager`] does what the words of a command line ask for, and gives the exit status: 0,
//! `FAILED` or [`USAGE`]. Where it is 0 nothing is written on standard error. Words that are no command
//! send nothing, and write nothing on standard output. [`command_of`] reads the words.
//!
//! # Definitions
//! `specs/Options.antt`: the words, as clap reads them; `specs/Built.antt`: what is built of them;
//! `specs/Bindings.antt`: which words write which names and values; `specs/Requests.antt`: which
//! command the matches of words say; `specs/Runs.antt`: what follows from words.
//!
//! # Laws
//! In [`laws`]: the number of tries where no word gives it, and the exit status.
//!
//! # Not claimed
//! The texts of help, of the version and of errors; that a growth or a write succeeds; that memory
//! was refused where that is reported.
#![tactic(auto)]

mod bindings;
mod fault;
pub mod laws;
mod matches;
mod options;
mod program;

pub use matches::DEFAULT_TRIES;
pub use program::{USAGE, command_of, run_manager};
