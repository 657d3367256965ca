//! Runs a script: cuts its input into lines, hands each to a session, and writes what the session
//! answers.
//!
//! # Entry points
//! [`run_script`] runs over any [`Session`], reader and writer. [`words`] has the words, numbers
//! and hexadecimal of a line. A [`LineFault`] says why a line is given up, a [`RunFault`] why a run
//! stops before the end. Programs give [`MAX_READS`] as the most reads of a run.
//!
//! # Definitions
//! `specs/Lines.antt`: the lines of a text; `specs/Runs.antt`: what a session may say to lines, in
//! their order, how far a run has come, and why a line or the end of a script may be given up;
//! `specs/Words.antt`: words, numbers and hexadecimal; `specs/Faults.antt`: what stops a run where
//! a line is given up.
//!
//! # Laws
//! In [`laws`]: each text has its lines; hexadecimal is read back.
//!
//! # Not claimed
//! When a read or a write fails; that memory was refused where that is reported; how many octets one
//! read gives; how many reads are made, and that what one of them gives is answered, written and
//! flushed before the next; how much memory a run holds.
#![tactic(auto)]

mod fault;
pub mod laws;
mod run;
mod session;
pub mod words;
mod writing;

pub use fault::{LineFault, RunFault};
pub use run::{MAX_READS, run_script};
pub use session::Session;
