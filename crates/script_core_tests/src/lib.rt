//! Tests of what a script and the manager do over readers and writers that no run of a program has:
//! they take or give little at a time, are interrupted, take nothing more, or fail their flush; and in
//! how many reads and with how many flushes what a script says is written.
//!
//! # Entry points
//! None: the tests call what `script_core` and `manager_words` offer.
//!
//! # Definitions
//! None.
//!
//! # Laws
//! None.
//!
//! # Not claimed
//! Anything but what each test compares.
#![tactic(auto)]

#[cfg(test)]
mod manager;
#[cfg(test)]
mod scripts;
#[cfg(test)]
mod streams;
