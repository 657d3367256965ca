//! What an event gives to send, sent over a wire: a reply to the peer that asked, a frame and BPDUs
//! to the peers of the ports.
//!
//! # Entry points
//! [`send_outgoing`] sends a [`Delivery`], that is a reply, a frame or nothing, and behind it the ports'
//! BPDUs, until something cannot be sent.
//!
//! # Definitions
//! `specs/Packets.antt`: what goes to whom; `specs/Sending.antt`: packets that are sent until one
//! cannot be.
//!
//! # Laws
//! On each call: which packets went, in which order, and which one failed.
//!
//! # Not claimed
//! That what was sent arrives.
#![tactic(auto)]

mod sending;

pub use sending::{Delivery, send_outgoing};
