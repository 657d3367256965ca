//! The decision on a request: dropped, refused or authorized for a view, by which rows (RFC 3584,
//! section 5.2.1; RFC 3415, section 3.2).
//!
//! # Entry points
//! [`decide`] gives a [`Decision`], with the keys of the deciding or missing row. It takes no
//! memory. A [`Cause`] says why a request is dropped, a [`Refusal`] why it is answered
//! authorizationError. An [`AccessKey`] is the key of an access row.
//!
//! # Definitions
//! `specs/Deciding.antt`: community, context, whether there are variable bindings, and then the
//! verdict of `vacm_core`; `specs/Keys.antt`: the key of an access row.
//!
//! # Laws
//! In [`laws`]: the longest name of a community in a policy is the longest community of a request
//! that is answered.
//!
//! # Not claimed
//! What is visible: `agent_core` tests the names one by one.
#![tactic(auto)]

mod choice;
mod deciding;
mod keys;
pub mod laws;

pub use choice::{Cause, Decision, Refusal};
pub use deciding::decide;
pub use keys::AccessKey;
