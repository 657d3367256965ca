//! The settings of a bridge that runs the Rapid Spanning Tree Protocol (IEEE 802.1D-2004 17.13 and
//! 17.14), read and written by key as a finite map from keys to numbers; and what is configured of
//! the bridge and its ports, which no setting changes.
//!
//! # Entry points
//! [`settings::Settings`] with `get` and `put` by [`key::Key`], `copy` and `is_same`;
//! [`config::PortConfig`], its interface number [`config::IfIndex`], and [`config::BridgeConfig`].
//! [`copies`] copies lists with one element for each port. Nothing here takes memory.
//!
//! # Definitions
//! `specs/Table.antt`: the map; `specs/Values.antt`: ranges and steps; `specs/Config.antt`: what a
//! port's settings mean by its configuration.
//!
//! # Laws
//! In [`laws`]: get after put; a put of the old value restores; puts of two keys commute; settings
//! that agree on every key are equal. The numbers that stand for values, and the bounds of the
//! ageing time, are what they are.
//!
//! # Not claimed
//! That the three timers fit together: that is tested where a Set assigns them.
#![tactic(auto)]

pub mod config;
pub mod copies;
pub mod key;
pub mod laws;
pub mod settings;
