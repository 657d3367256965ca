//! Tests of texts of settings, worked by hand: one in which each setting stands once, and one for each fault.
//!
//! # Entry points
//! None: the tests call what `settings_text` offers.
//!
//! # Definitions
//! None.
//!
//! # Laws
//! None.
//!
//! # Not claimed
//! Anything but what each test compares.
#![tactic(auto)]

#[cfg(test)]
mod faults;
#[cfg(test)]
mod texts;
