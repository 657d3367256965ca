//! One history of an agent under one lock, for any number of threads.
//!
//! # Entry points
//! [`Live`] is a `Kept` history under a lock. By shared reference `frame`, `tick`, `link`, `policy`
//! and `request` each make one event happen, under the lock. `counts` reads how far the history is,
//! as [`Counts`]. `new` puts a history under the lock, and `close` takes it out. [`Share`] is what
//! a thread has of a run: it counts what the thread entered, knows how many entries there were at the
//! thread's last call, and has a front: what the thread has seen of the log of all entries. [`Run`] is
//! what a run of threads started from: each call of a program picks its own, as it picks its ledger.
//! [`Base`] names a number of it.
//!
//! # Definitions
//! `specs/Sharing.antt`: a history that goes on from another by so many entries, over objects of the
//! same rows; an event that took its place in it; and what an answer reports of an event, whatever the
//! history was;
//! `specs/Counting.antt`: how far a shared history is past its start, and what its world counts;
//! `specs/Rising.antt`: the numbers of a thread rise; `specs/Standing.antt`: what a thread has of a
//! run; `specs/Whole.antt`: one history from its start, whatever its base does, and what became of an
//! event in it.
//!
//! # Laws
//! On each call of [`Live`]: the answer is the history's at a place of its own, behind at least as
//! many entries as the caller made. Its number is greater than each that the share's thread got
//! before, and past all entries that the thread counted by `counts`. Its entry stands in the share's
//! front, at that number, with its reply and its audit. The front is a beginning of the one log of all
//! entries since the start, whatever the base has done. It is legal, and goes on from the share's front
//! before. What `counts` reads is what the world after the front counts, and no less than what the thread
//! made, got or read before. On [`Share::merge`]: of two fronts one is a beginning of the other, and the
//! longer stays. On [`Live::close`]: what is taken out goes on from what was put in, by as many entries as
//! the shares count, and is the end of the one log, which begins with the share's front.
//!
//! # Not claimed
//! Which of two threads comes first; that two threads get different numbers; that a call that waits for
//! the lock returns.
#![tactic(auto)]

mod held;
mod live;
mod run;
mod share;

pub use held::Counts;
pub use live::Live;
pub use run::{Base, Run};
pub use share::Share;
