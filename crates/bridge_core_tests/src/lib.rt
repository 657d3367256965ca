//! Tests of frames and BPDUs as octets, worked by hand or built by another program; and of a bridge from
//! outside: flat copies of it, and places for static rows that are refused. What is learned, where frames
//! go and the spanning tree are rows of the stored scripts.
//!
//! # Entry points
//! None: the tests call what `frame_core` and `bridge_core` offer.
//!
//! # Definitions
//! None.
//!
//! # Laws
//! None.
//!
//! # Not claimed
//! Anything but what each test compares.
#![tactic(auto)]

#[cfg(test)]
mod bridge;
#[cfg(test)]
mod statics;
#[cfg(test)]
mod vectors;
#[cfg(test)]
mod worked;
