//! The basic encoding rules of X.690 over slices, as far as SNMP uses them (RFC 3417, section 8).
//! Nothing here takes memory.
//!
//! # Entry points
//! `read_tlv` splits octets into a [`Tag`], its content and the rest; `read_i32`, `read_u32`,
//! `read_u64` read contents; [`Out`] writes into a lent slice, from its back to its front. Each
//! refuses by a [`BerFault`] of its own.
//!
//! # Definitions
//! `specs/Encoding.antt`: heads and lengths, two's complement, and the shortest encoding;
//! `specs/Reading.antt`: the same from left to right; `specs/Writing.antt`: what a writer wrote and
//! its space; `specs/Fault.antt`: why octets begin with no tag, length and content.
//!
//! # Laws
//! In [`laws`]: the shortest encoding is one; none is shorter, and one that is no longer is the
//! same. No octets encode two values.
//!
//! # Not claimed
//! Tags of more than one octet and indefinite lengths: SNMP has none, and they are refused.
#![tactic(auto)]

mod fault;
mod heads;
pub mod laws;
mod out;
mod reading;
mod shortest;

pub use fault::BerFault;
pub use out::Out;
pub use reading::{Tag, read_i32, read_tlv, read_u32, read_u64};
