//! A run of an agent without an end: each line goes on interval by interval, also behind a fault, and
//! keeps of an interval only its counts.
//!
//! # Entry points
//! [`serve_laps`] takes a history and its [`Line`]s, which [`lines_of`] makes of a run's and, where there
//! is one, of a control wire, runs each
//! in a thread of its own until it is ended, and gives back the lines, the history, and how each
//! ended. Each line has a [`Watch`] ([`Watched`]), to which each interval of a worker and of the
//! ticker, each command of an operator, each fault and the line's end is reported, and a pace, by which it
//! waits behind a fault before it begins anew. An [`IntervalSum`] takes the items of an interval. A
//! [`LineName`] is what a line is called, a [`Worked`] what workers did in intervals, with its [`Drops`] by
//! cause, a [`WorkTotals`] what all did so far.
//!
//! # Definitions
//! `specs/Lines.antt`: the lines of a run; `specs/Notes.antt`: what is reported to a watch;
//! `specs/Sums.antt`: the counts of the items of an interval; `specs/Laps.antt`: the intervals of a
//! line, when it goes on behind one, and lines that went on side by side; `specs/Tallies.antt`: what an
//! operator is answered of the drops.
//!
//! # Laws
//! On [`serve_laps`]: each line went on interval by interval, each of which is as the run of its kind
//! is in `live_agent`, until one ended it or 2^64 - 1 were done; behind a fault of its wire, or want of
//! memory, it went on where its pace answered `true`; a port's link was entered once at most; each interval
//! of a worker and of the ticker was reported once to its watch, in order, each fault once with its count,
//! and its end once; only a port's link, or a command, ends an interval for want of memory; the
//! history that comes back is legal, and goes on from the one that was handed in by as many entries as the
//! lines made.
//!
//! # Not claimed
//! That a line ends; how long a pace waits; that two threads run at the same time; what a [`WorkTotals`]
//! holds; that the drops that a watch reports, of which an operator is answered, are those of it; that an
//! interval is reported before the next one begins; that a command of an operator is reported.
#![tactic(auto)]

mod book;
mod commands;
mod crew;
mod interval;
mod line;
mod serving;
mod sum;
mod watch;

pub use book::{Drops, WorkTotals, Worked};
pub use line::{Line, LineName, Watched, lines_of};
pub use serving::serve_laps;
pub use sum::IntervalSum;
pub use watch::Watch;
