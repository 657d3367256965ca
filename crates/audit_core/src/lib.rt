//! The audit of a request, and the line of text that says it.
//!
//! # Entry points
//! [`Audit`] is a plain record: the PDU type, status and index as sent, the decision with the keys
//! of its rows, the denied variable bindings, and the settings that a Set could not restore.
//! [`audit_line`] and [`write_audit`] write its line. `Audit::try_copy_in` is a copy, which takes
//! memory only for denied variable bindings. The denied bindings are [`DeniedBindings`], seen as a
//! list of [`Denied`], each with the [`FamilyKey`] of the family that excludes its name, where one
//! does; they lie in memory of their own, where the key of each family is kept once, and a binding
//! takes six octets beside. The settings that a Set could not restore are [`Unrestored`]: an
//! [`UnrestoredSpace`], which is reserved before the Set, is filled with them.
//!
//! # Definitions
//! `specs/Text.antt`: the line, to the octet; `specs/Keys.antt`: the key of a family row. Inside the
//! crate, `specs/Marks.antt`: what a denied binding is by its number and the place of its key, and
//! which has none; `specs/Denials.antt`, `specs/Unrestored.antt`: how denied bindings, settings and what
//! is reserved for those lie in memory.
//!
//! # Laws
//! None.
//!
//! # Not claimed
//! That a writer takes the line, and what one holds to which [`audit_line`] could not write all of
//! it. How much memory denied bindings take, since no clause speaks of sizes.
#![tactic(auto)]

mod audit;
mod denied;
mod denied_list;
mod keys;
mod line;
mod marks;
mod unrestored;
mod written;

pub use audit::Audit;
pub use denied::{Denied, DeniedBindings};
pub use keys::FamilyKey;
pub use line::{audit_line, write_audit};
pub use unrestored::{Unrestored, UnrestoredSpace};
