//! Serves an agent over UDP: its requests at one socket, and the frames of each port at one of its
//! own.
//!
//! # Entry points
//! [`Setup`] says where, each port by its [`PortSockets`], and how many rounds a line makes.
//! [`setup_of`] makes one of what is configured, or says why there is none, an [`Unserved`]. [`serve`]
//! binds its sockets ([`bind_lines`]) and runs its lines over a history by its plan ([`plan_of`],
//! [`serve_lines`]), each in a thread of its own; [`log_report`] logs what they did, [`report_fault`] why
//! there is no report, a [`ServeFault`]; where nothing was served, a [`BeginFault`] names the socket that
//! could not be bound, a [`SetupSocket`]. [`serve_forever`] does the same without an end
//! ([`serve_lines_forever`]), over lines of its own ([`bind_lasting`]) at which no send fails and whose
//! workers may be audited (`live_audit`), and takes an operator's commands at a control socket, if it is
//! handed one ([`LastingControl`]), logs what it serves ([`log_ready`]), and logs as it goes on, also what
//! became of each command, all by a log that it is handed: one that waits for no output (`line_output`).
//! Each of its tasks reports that it has begun (`wire_core::Startup`); where one does not in time, all
//! end. [`log_losses`] logs what could not be sent, [`any_failed`] says whether a line failed,
//! [`log_not_begun`] logs why nothing was served.
//!
//! # Definitions
//! `specs/Setups.antt`: what a setup holds, port by port, and when there is none;
//! `specs/Binding.antt`: its lines, and what they have in common: a plan has the setup's rounds, address
//! and peers, and the lines are a worker for each thread that is to answer and one for each port, whether
//! all workers are audited, and how many tasks there are; and which socket of a setup a fault names;
//! `specs/Serving.antt`: what comes of serving them; `specs/Lasting.antt`: the same without an end.
//!
//! # Laws
//! On [`serve`] and [`serve_lines`]: what a whole run of the lines promises
//! (`live_run::serve_run`). On [`serve_forever`] and [`serve_lines_forever`]: what lines that go on
//! interval by interval promise (`live_laps::serve_laps`), and of [`serve_forever`] also that every
//! worker is audited exactly where that is asked for, and that there is a control line exactly where a
//! control socket is handed in. Where nothing was served, a socket that is named has its address in the
//! setup.
//!
//! # Not claimed
//! To which addresses sockets are bound, and by which one a datagram goes; what UDP delivers; that a
//! run ends; the text that is logged; that what could not be sent is, and each command; that all tasks
//! begin, and that a start in which one does not fails.
#![tactic(auto)]

mod begin_fault;
mod binding;
mod commands;
mod lasting;
mod lasting_binding;
mod losses;
mod ready;
mod reporting;
mod serving;
mod setup;

pub use begin_fault::{BeginFault, SetupSocket};
pub use binding::{UdpLines, UdpTicker, UdpWorker, bind_lines, plan_of};
pub use lasting::{LastingTicker, any_failed, serve_forever, serve_lines_forever};
pub use lasting_binding::{LastingControl, LastingLines, LastingWorker, bind_lasting};
pub use losses::log_losses;
pub use ready::log_ready;
pub use reporting::{Reporter, log_not_begun, log_report, report_fault};
pub use serving::{ServeFault, serve, serve_lines};
pub use setup::{PortSockets, Setup, Unserved, setup_of};
