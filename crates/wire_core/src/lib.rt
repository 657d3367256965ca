//! What datagrams come and go over, and what paces a clock's ticks: in memory, over UDP, and
//! failing on purpose.
//!
//! # Entry points
//! [`Wire`] gives datagrams and sends some: [`MemoryWire`] gives what it was handed, [`UdpWire`]
//! what a bound socket receives, [`FailingWire`] fails at one call and else hands on. [`LastingWire`]
//! is one over a bound socket at which no send fails: the peers of ports have [`SendingSockets`],
//! which all such wires share, and a datagram that the system refuses is counted among its
//! [`Losses`], by its [`Cause`] ([`cause_of`] an error; [`cause_at`] a place among the [`CAUSES`]).
//! [`LastingWire::widen_send_buffer`] asks for a larger send buffer. [`Pace`] says how long ticks go on:
//! [`CountPace`] so many times, [`SecondPace`] each second behind what the tick before took,
//! [`WholeSecondPace`] at each whole second since its start, [`StartingPace`] the same for a task of an
//! agent's start; behind a gap there is one tick, and the seconds without one are [`MissedSeconds`]. A
//! [`Startup`] says whether all tasks of an agent have begun, within [`STARTUP_WAIT_MILLIS`] milliseconds; each
//! has a part in it, a [`TaskStart`], by which a lasting wire is closed, and such a pace ends, where the start
//! has failed. A [`Packet`] is a datagram and its peer,
//! [`Received`] what a receive gave, [`WireInput`] what a wire in memory is to give; what goes wrong is a
//! [`WireFault`]. A receive over UDP is set to wait [`RECEIVE_WAIT_MILLIS`] milliseconds, and at a
//! lasting wire [`FAULT_WAIT_MILLIS`] behind an error of a socket that is there. Errors above
//! [`MAX_ERROR_NUMBER`] have one count together.
//!
//! # Definitions
//! `specs/Acts.antt`: what a wire did, act by act, and its count of failures; `specs/Memory.antt`:
//! what a wire in memory gives and keeps; `specs/Failing.antt`: which acts a failing wire hands on;
//! `specs/Lasting.antt`: acts of which no send failed; `specs/Losses.antt`: why a datagram was lost;
//! `specs/Receiving.antt`: what a receive gives by what the system answered, and which errors say that a
//! socket is gone; `specs/Pacing.antt`: what a pace answers, and which second a tick is of;
//! `specs/Startup.antt`: how long tasks have to begin;
//! `specs/FailingLaws.antt`, `specs/LastingLaws.antt`, `specs/MemoryLaws.antt`,
//! `specs/PacingLaws.antt`: that acts of each behind one another are one list.
//!
//! # Laws
//! Of each wire and pace, on its trait: no acts lead nowhere, and acts behind acts are one list.
//!
//! # Not claimed
//! What UDP delivers, and how long a wait is: a wire over UDP gives its count of failures alone, and
//! a lasting one also that no send failed. That a datagram goes by the socket that is chosen for it; that
//! one that was lost is counted, and what a count of [`Losses`] or of [`MissedSeconds`] is; the system's
//! words for a cause; how large a send buffer is. Which second a tick is of: a pace of whole seconds says that
//! it is past the second of the last tick, and no clause says what a clock reads. What a [`Startup`]
//! decides, that a lasting wire reports to it and is closed by it alone, and where a [`StartingPace`] ends:
//! that hangs on atomic numbers, of which no clause speaks.
#![tactic(auto)]

mod failing;
mod lasting;
mod losses;
mod memory;
mod pace;
mod send_buffer;
mod sockets;
mod startup;
mod udp;
mod whole_seconds;
mod wire;

pub use failing::FailingWire;
pub use lasting::{FAULT_WAIT_MILLIS, LastingWire};
pub use losses::{CAUSES, Cause, Losses, MAX_ERROR_NUMBER, cause_at, cause_of};
pub use memory::{MemoryWire, WireInput};
pub use pace::{CountPace, Pace, SecondPace};
pub use sockets::SendingSockets;
pub use startup::{STARTUP_WAIT_MILLIS, Startup, TaskStart};
pub use udp::{RECEIVE_WAIT_MILLIS, UdpWire};
pub use whole_seconds::{MissedSeconds, StartingPace, WholeSecondPace};
pub use wire::{Packet, Received, Wire, WireFault};
