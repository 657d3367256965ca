//! A run of an agent: all its lines over one history, and the report of what they did.
//!
//! # Entry points
//! [`serve_run`] takes a history and [`Lines`], runs each line in a thread of its own, and gives
//! back the lines, the history, and a [`Report`] or a [`RunFault`]. [`Runs`] is how each line
//! ended, and what it left. [`run_lines`] runs lines of one [`LineKind`], each a [`LineTask`], over a
//! history that is under a lock already.
//!
//! # Definitions
//! `specs/Crews.antt`: lines that ran over one history; `specs/Reports.antt`: what a report says of
//! them, and why a run has none; `specs/Served.antt`: a whole run; `specs/Agreeing.antt`: what is
//! counted of receipts that agree with a history; `specs/Shared.antt`: a history under a lock that
//! threads may share.
//!
//! # Laws
//! On [`run_lines`]: each line went on as its [`LineTask`] says, and the share that comes back counts
//! their entries. On [`serve_run`]: each line ran as its own clause says, over the wire that was handed
//! in. The history that comes back is legal, and goes on from the one that was handed in by as many
//! entries as the traces have receipts. Each receipt stands in it or is older than its base; no two have
//! one number, and those of one trace rise.
//!
//! # Not claimed
//! That a run ends; that two threads run at the same time.
#![tactic(auto)]

mod collecting;
mod counting;
mod crew;
mod judging;
mod line_task;
mod lines;
mod report;
mod serving;

pub use crew::run_lines;
pub use line_task::{LineKind, LineTask};
pub use lines::{Lines, Runs};
pub use report::{Report, RunFault};
pub use serving::serve_run;
