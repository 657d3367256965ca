//! A learning bridge that runs the Rapid Spanning Tree Protocol (IEEE 802.1D-2004 7.5 to 7.9 and
//! 17): its settings, its spanning tree, the addresses that it has learned, its static rows and its
//! counters, changed by one event at a time.
//!
//! # Entry points
//! [`Bridge`]: `new`, `frame`, `tick`, `link`, `settle`; `ports`, `facts`, `port_facts`, `fdb`,
//! `get_setting`, `port_setting`, `put_setting`, `copied_settings`, `has_settings`; of static rows
//! `is_static_index`, `is_made`, `allowed`, `put_made`, `put_allowed`, `next_static`,
//! `static_places`, `reserve_static`, `hold_static` and `known_statics`; `try_copy` and `flat`, which
//! gives a [`FlatBridge`] with `same`. Only `frame` may take memory, for a learned address,
//! `reserve_static`, and the two copies, for their learned and static rows. `frame` gives a
//! [`Forwarding`], which has what each port sends as [`Bpdus`]; `new` refuses by a [`BridgeFault`];
//! [`Facts`] and [`PortFacts`] are what is shown. At most [`MAX_LEARNED_ROWS`] addresses are learned,
//! and a setting is at most [`MAX_SETTING`].
//!
//! # Definitions
//! `specs/Bridge.antt`, `specs/Opening.antt`: what a bridge is, and is at first;
//! `specs/Events.antt`: one event; `specs/Forwarding.antt`: egress and learning, and
//! `specs/Relay.antt` the same in the standard's words; `specs/Counting.antt`, `specs/Facts.antt`:
//! counters and what is shown; `specs/Statics.antt`: static rows, how they are set and which decides
//! about a frame, and `specs/StaticIndexes.antt`: of what there may be one; `specs/Runs.antt`: lists
//! of events; inside the crate `specs/BridgeInside.antt`: what holds of the fields of each bridge,
//! and `specs/ForwardingInside.antt`: how the ports of a frame are found.
//!
//! # Laws
//! In [`laws`]: where a frame goes in the standard's words, by a static row or without one; which
//! ports forward after any list of events; when there is no root port. Static settings are a finite
//! map.
//!
//! # Not claimed
//! That no port forwards while it is disabled between `put_setting` and `settle`; nor after
//! `settle`, where its link goes down in between, until it starts anew.
#![tactic(auto)]

mod bridge;
mod counters;
mod facts;
mod fault;
mod flat;
mod forwarding;
pub mod laws;
mod learning;
mod opening;
mod statics;

pub use bridge::{Bpdus, Bridge, Forwarding, MAX_LEARNED_ROWS, MAX_SETTING};
pub use facts::{Facts, PortFacts};
pub use fault::BridgeFault;
pub use flat::FlatBridge;
