//! Ethernet frames and spanning tree BPDUs as octets: addresses, what a bridge reads of a frame,
//! and the frames in which it sends its BPDUs (IEEE 802.1D-2004, clause 9; IEEE 802.3, 3.2).
//! Nothing here takes memory.
//!
//! # Entry points
//! [`read_frame`] reads a frame or says why not; [`write_bpdu`] writes the [`SENT_FRAME_LEN`]
//! octets of one. In [`worked`] stand frames for tests. What is read is a [`FrameIn`], or there is
//! a [`FrameFault`]; a frame has [`MIN_FRAME_LEN`] octets or more, and a buffer for frames
//! [`MAX_FRAME_LEN`]. A [`Bpdu`] is a [`Config`], a [`Rapid`] or a topology change; its parts are
//! [`PriorityVector`], [`BridgeId`], [`Times`] and [`PortRole`]. [`Mac`] is an address,
//! [`BRIDGE_GROUP`] that to which bridges send.
//!
//! # Definitions
//! `specs/Layout.antt`: where each field of a BPDU stands; `specs/Frames.antt`: frames and their
//! faults; `specs/Reading.antt`: the same as a function; `specs/Sending.antt`: the octets that are
//! sent; `specs/Octets.antt`: octets as numbers, bits and addresses.
//!
//! # Laws
//! In [`laws`]: a frame is one thing or one fault; the lengths and the group address are what they
//! are. That what is written is read back is a clause of [`write_bpdu`].
//!
//! # Not claimed
//! Check sequences, which hardware adds and takes away; VLAN tags.
#![tactic(auto)]

mod bpdu;
mod fault;
mod frame;
pub mod laws;
mod layout;
mod mac;
mod reading;
pub mod worked;
mod writing;

pub use bpdu::{Bpdu, BridgeId, Config, PortRole, PriorityVector, Rapid, Times};
pub use fault::FrameFault;
pub use frame::{FrameIn, MAX_FRAME_LEN, MIN_FRAME_LEN, SENT_FRAME_LEN};
pub use mac::{BRIDGE_GROUP, Mac};
pub use reading::read_frame;
pub use writing::write_bpdu;
