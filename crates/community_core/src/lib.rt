//! Communities (RFC 3584, section 5) over the tables of access control, and the policy that both
//! make.
//!
//! # Entry points
//! `Policy::caller` says whom a community stands for: a [`Caller`], by its [`CommunityRow`].
//! `Policy::new` takes written communities or names the first fault. `Policy::put_mask` and
//! `Policy::put_type` change a family row in place. `Policy::try_copy` copies a policy.
//! `Policy::rows` gives its rows as they are written, and `PolicyRows::same` compares two of these.
//! A [`WrittenCommunity`] is a row as it is written; its name has at most [`MAX_COMMUNITY_NAME`]
//! octets. A [`PolicyFault`] is want of memory, or the [`PolicyTable`] and the row at fault.
//!
//! # Definitions
//! `specs/Communities.antt`: rules of the rows and the caller; `specs/Orders.antt`: which row comes
//! first; `specs/Faults.antt`: the faults of a policy.
//!
//! # Laws
//! In [`laws`]: a community row decides wherever one has the name; the limit of a name is 255. On
//! the type, by its invariant: kept communities break no rule (`Policy::communities_are_right`).
//!
//! # Not claimed
//! How long it takes to find a caller: each row is read.
#![tactic(auto)]

mod community;
mod fault;
pub mod laws;
mod policy;

pub use community::{Caller, CommunityRow, MAX_COMMUNITY_NAME, WrittenCommunity};
pub use fault::{PolicyFault, PolicyTable};
pub use policy::{Policy, PolicyRows};
