//! Tokens of a number that only rises, and of a log that only grows, for what a thread knows of them
//! from one lock to the next.
//!
//! # Entry points
//! [`Blank`]: a new number, at 0, which `open` gives its type. [`Latest`] is what the number is, and
//! lies under a lock beside what it counts; `raise` adds to it. [`Reached`] is a number that it has
//! reached, and stays true; `again` copies it. [`Rising`]: which number a token is of; each call of a
//! program picks its own.
//!
//! [`BlankLog`]: a new log, with no entry, which `open` gives its type. [`Log`] is the log as it is, and
//! lies under a lock beside what it records; `add` adds an entry, and `show` has a front see the log.
//! [`Front`] is a beginning of the log that was seen, and stays true; `again` copies it, and `join` has
//! two fronts see the longer of them. [`Naming`]: which log a token is of; each call of a program picks
//! its own.
//!
//! Tokens have no octets, and their functions do nothing at run time.
//!
//! # Definitions
//! `specs/Owning.antt`: what the tokens own.
//!
//! # Laws
//! That the number of a [`Reached`] is no more than the number of the [`Latest`] it is raised with,
//! on [`Latest::raise`]. That a [`Front`] is a beginning of the [`Log`] it is shown, on [`Log::add`] and
//! [`Log::show`]. That of two fronts of one log one is a beginning of the other, on [`Front::join`].
//!
//! # Not claimed
//! How often the number is raised, and what is added to the log: who has the `Latest` ties it to what it
//! counts, and who has the `Log` to what it records.
#![tactic(auto)]

mod logs;
mod tokens;

pub use logs::{BlankLog, Front, Log, Naming};
pub use tokens::{Blank, Latest, Reached, Rising};
