//! The Rapid Spanning Tree Protocol of a bridge (IEEE 802.1D-2004 clause 17, in the profile of
//! docs/PROFILE.md): what each event does to all its ports, what they send, and which ports lose
//! their learned addresses. Nothing here takes memory.
//!
//! # Entry points
//! [`Rstp`] with `on_bpdu`, `tick`, `link` and `settle`, each with its [`Outcome`]; `role`,
//! `state`, `facts`, `bridge_facts`, `copy`, `is_same`. [`Settled`] is what is kept of the settings
//! as they are settled, [`BridgeFacts`] what a bridge shows of its tree. The types of ports come
//! from `rstp_rules` ([`Port`], [`Info`], [`Role`], [`State`], [`Best`], [`SettledPort`],
//! [`Timers`]), those of settings from `rstp_settings` ([`Settings`], [`MAX_PORTS`], [`Key`],
//! [`BridgeKey`], [`PortKey`], [`BridgeConfig`], [`PortConfig`], [`IfIndex`], [`MAX_IFINDEX`]).
//!
//! # Definitions
//! `specs/Tree.antt`: the tree and the four events as relations; `specs/Steps.antt`: the same as
//! functions; `specs/Runs.antt`: lists of events; `specs/Legal.antt`: what every event keeps;
//! `specs/Passes.antt`: what all ports do together, pass by pass; `specs/Settled.antt`: what is
//! kept of settled settings; inside the crate `specs/TreeInside.antt`: what holds of the fields of
//! each tree.
//!
//! # Laws
//! In [`laws`], over every list of events: the roles are those of the whole tree; there is one root
//! port; which ports forward or learn, and which lose their rows; what a port is that started anew;
//! topology changes as one change of each port. In [`legal`]: the same of every legal tree.
//!
//! # Not claimed
//! Convergence of several bridges.
#![tactic(auto)]

mod events;
mod facts;
pub mod laws;
pub mod legal;
mod loops;
mod roles;
mod rstp;
mod settled;
mod turns;

pub use facts::BridgeFacts;
pub use rstp::{Outcome, Rstp};
pub use rstp_rules::port::{Info, Port, Role, State};
pub use rstp_rules::row::Best;
pub use rstp_rules::settled::{SettledPort, Timers};
pub use rstp_settings::config::{BridgeConfig, IfIndex, MAX_IFINDEX, PortConfig};
pub use rstp_settings::key::{BridgeKey, Key, PortKey};
pub use rstp_settings::settings::{MAX_PORTS, Settings};
pub use settled::Settled;
