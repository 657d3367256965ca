//! The threads of an agent over one history: workers that answer requests, ports that forward
//! frames, and a ticker.
//!
//! # Entry points
//! [`worker_run`], [`port_run`], [`port_interval`] and [`ticker_run`] are each the loop of one thread. A
//! loop is lent the history, its share and its line. It hands a [`Recorder`] an [`Item`] for each
//! event and each refused datagram. A [`Plan`] has what the lines have in common. Each loop gives
//! how it ended, an [`End`], and its recorder; a vector of items is one.
//!
//! A worker's wire has a [`Gate`] beside it ([`GatedWire`]). The worker visits it ahead of each
//! request, and behind each that made an entry: with that, an [`AnsweredRequest`], and its audit.
//! The ticker's wire has its pace beside it ([`PacedWire`]). [`Gated`] and [`Paced`] make one of
//! two. [`OpenGate`] holds nobody. A [`Ran`] is how a line ended and its [`Trace`], a list of
//! items, with a [`InputFault`] for a refused datagram.
//!
//! # Definitions
//! `specs/Turns.antt`, `specs/Runs.antt`: the turns of a line, and its loop; `specs/Lines.antt`:
//! which turns are a worker's, a port's and the ticker's, and what these do; `specs/Deeds.antt`:
//! what a line does, in order: acts of its wire, visits to its gate, answers of its pace;
//! `specs/Gates.antt`: the same of a wire and a gate, or a pace, that are made one; `specs/Kept.antt`:
//! items that are kept in a vector.
//!
//! # Laws
//! On each loop, over its own line alone: each datagram has one item, in order. What was entered is
//! the event of its datagram, at its place in the history. What was sent is its reply, its frame
//! and the ports' BPDUs, and nothing else. A worker visits its gate ahead of each request, and
//! behind each that made an entry, by its own number, with the entry's number and audit and the
//! peer and request-id of the datagram. What a second gives is sent before the pace is asked again.
//! A line ends for want of memory only where its recorder has none for one item more, or a port's
//! link found none.
//!
//! # Not claimed
//! That a wait ends, and which thread comes first. What a wire did that reports no acts.
#![tactic(auto)]

mod gate;
mod line_state;
mod paced;
mod plan;
mod port;
mod recorder;
mod ticker;
mod trace;
mod worker;

pub use gate::{AnsweredRequest, Gate, Gated, GatedWire, OpenGate};
pub use paced::{Paced, PacedWire};
pub use plan::Plan;
pub use port::{port_interval, port_run};
pub use recorder::Recorder;
pub use ticker::ticker_run;
pub use trace::{End, InputFault, Item, Ran, Trace};
pub use worker::worker_run;
