//! The script of the agent: what it answers to each line.
//!
//! # Entry points
//! [`run_script`] reads a script to its end over what managed objects show of a world, [`run_kept`]
//! over a history that has begun. Each says by a [`ScriptEnd`] whether each line was answered in full.
//! One line lets at most [`MAX_SECONDS`] seconds pass.
//!
//! # Definitions
//! `specs/Commands.antt`: which command a line is; `specs/Actions.antt`: what a line does;
//! `specs/Events.antt`: what an event may meet, and what it adds to the history;
//! `specs/Outputs.antt`: how what comes out of an event is written; `specs/Notes.antt`: what a line
//! may meet, and when it may be given up (the end of a script only where a policy is open);
//! `specs/Script.antt`: the text of a script; `specs/Runs.antt`: how a script went;
//! `specs/State.antt`: what a script's agent is; `specs/Sessions.antt`: the agent as it answers
//! lines; `specs/CommandViews.antt`: what the code's commands stand for. The step of an event is
//! that of `history_core`.
//!
//! # Laws
//! In [`laws`]: how many seconds one line lets pass at most, and how many calls it plans. On a run:
//! where the device of an object takes plans, its calls in Sets fail exactly where what is left of
//! its plan says so; each `driver` line gives it a new plan. A device that has failed `u64::MAX`
//! times fails no more.
//!
//! # Not claimed
//! That a want of memory came only where memory was refused, and that a read failed where the
//! answer is `Input`: that answer may come before anything is read. How much of the text is written
//! where a write failed. That a device really failed where a Set is answered so, if its object has
//! no device, or one that takes no plans.
#![tactic(auto)]

mod agent;
mod bridging;
mod commands;
mod drops;
pub mod laws;
mod saying;
mod session;

pub use commands::MAX_SECONDS;
pub use session::{ScriptEnd, run_kept, run_script};
