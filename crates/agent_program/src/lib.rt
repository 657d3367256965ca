//! What the agent's program does for what its words ask, over objects, streams and files that it is
//! handed.
//!
//! # Entry points
//! [`run_asked`] over managed objects, what is asked, streams and a reader of files gives how it
//! [`Ended`], that is the exit status, 0, 1 or 2, and whether the line of a failure was written
//! whole; and what is left to be served, if that is asked, and for how long: an [`Opened`], and
//! [`agent_words::Lasting`]. [`end_answered`] ends words that are no command. A [`ReadFile`] gives
//! the octets of a file, of which it may have as many as a [`FileLimit`], or [`NotRead`], an [`AskAgent`] what a served agent answers to a command, or [`NoAnswer`],
//! [`SystemFiles`] those of the system. [`run_octets`] runs the
//! script over objects by the octets of a configuration, and refuses octets that say none, or objects
//! that make no registry, before it reads or writes; [`NotRun`] says why there was no run to the end.
//! [`check_octets`] reports whether octets are one, [`check_read`] whether what was read of a file is;
//! [`check_policy`] and [`check_policy_read`] the same of a policy, [`check_ports`] and
//! [`check_ports_read`] report the sockets of a configuration.
//! [`warned_text`] is a line and behind it the warnings of a configuration, [`log_warnings`] logs them.
//! [`open_service`] gives what octets say is to be served, [`serve_opened`] serves it for its rounds,
//! and [`serve_opened_forever`] without an end. [`collect_words`] has the words of a command line as
//! a list. [`report`] writes the line of a [`Failure`], and behind it a second of a file that cannot be read, has too
//! many octets, or is refused, which has a [`Refusal`], or a front of them, which is [`NotTaken`] whole.
//!
//! # Definitions
//! `specs/Files.antt`: what a read of a file gave; `specs/Agents.antt`: the world that a
//! configuration opens; `specs/Runs.antt`: what a run by octets promises; `specs/Services.antt`: what
//! they give to be served; `specs/Answering.antt`: why an agent gave no answer, or did not do a command;
//! `specs/Endings.antt`: statuses, and the lines of each failure;
//! `specs/Refusals.antt`: why octets were not run or served, as a failure;
//! `specs/Reporting.antt`: what a check reports; `specs/Warned.antt`: what is written of warnings; `specs/Explanations.antt`: what is written of the decision on
//! a request; `specs/Commands.antt`: what is done to have a served agent do a command, and what is printed of its answer;
//! `specs/Programs.antt`: what the program does for what is asked. What words ask for
//! stands in `agent_words`.
//!
//! # Laws
//! None.
//!
//! # Not claimed
//! That a read or a write failed where a run is reported to have ended so, or where the line of a failure
//! is reported to be cut off. That memory was refused where the answer is for want of it. Whether sockets
//! can be bound. What is logged of warnings. What a file of the system holds. That the caller serves what is left to be served.
#![tactic(auto)]

mod answering;
mod checking;
mod checking_policies;
mod checking_ports;
mod collecting;
mod commanding;
mod explaining;
mod explaining_policies;
mod failure;
mod files;
mod opening;
mod reporting;
mod run;
mod running;
mod serving;
mod taken;
mod warned;

pub use answering::{NoAnswer, Undone};
pub use checking::{check_octets, check_read};
pub use checking_policies::{check_policy, check_policy_read};
pub use checking_ports::{check_ports, check_ports_read};
pub use collecting::collect_words;
pub use commanding::AskAgent;
pub use failure::{Ended, Failure, Refusal, end_answered, report};
pub use files::{FileLimit, MAX_CONFIGURATION, NotRead, ReadFile, SystemFiles};
pub use opening::NotRun;
pub use reporting::NotTaken;
pub use run::run_asked;
pub use running::run_octets;
pub use serving::{Opened, open_service, serve_opened, serve_opened_forever};
pub use warned::{log_warnings, warned_text};
