//! Tests of policies, answers and objects:
//! - policies of many rows, in whatever order they are written;
//! - answers to requests for objects made by hand, whose instances have names of 23, 24, 25, 113 and 128
//!   numbers, with ample memory;
//! - the 57 objects of a bridge: what a registry makes of them as boxed ones, what each of them reserves for a
//!   Set, Sets of as many static rows as there are places, and the longest names of vacmViewTreeFamilyTable.
//!
//! # Entry points
//! None: the tests call what `vacm_core`, `community_core`, `agent_core`, `object_list` and
//! `setphase_core` offer.
//!
//! # Definitions
//! None.
//!
//! # Laws
//! None.
//!
//! # Not claimed
//! Anything but what each test compares.
#![tactic(auto)]

#[cfg(test)]
mod boxed;
#[cfg(test)]
mod families;
#[cfg(test)]
mod long;
#[cfg(test)]
mod many_rows;
#[cfg(test)]
mod messages;
#[cfg(test)]
mod places;
#[cfg(test)]
mod ports;
#[cfg(test)]
mod static_sets;
#[cfg(test)]
mod worlds;
