//! The history of an agent: each event is one step of a world, and one entry under a number.
//!
//! # Entry points
//! [`Kept`] is a world, the objects that show it, and what is kept of its history. `new` begins
//! one, and `resume` begins one at a number. `apply` makes one event happen and enters it.
//! `apply_duplicated` does the same; its caller made the [`Duplicate`] before, which stands for the
//! event a second time. `compare` says whether receipts agree with what is kept. `entries`, `base`,
//! `world` and the two numbers show it.
//!
//! [`Event`] is what happens, [`Applied`] what became of it. [`Entry`] is what is kept of one
//! event. [`KeptEvent`] is the event as its entry keeps it: a request with variable bindings as its
//! shortest encoding, if that has at most `MAX_REQUEST` octets. [`Receipt`] is what its caller
//! gets, with `try_copy`, and `same`, which takes no memory; [`ReceiptEvent`] is what it says of
//! the event, and [`Egress`] has the ports by which a frame goes out. [`compare`] says whether
//! receipts agree with any entries, or names the first that does not: a [`Tally`] has how many
//! agree and how many are older, a [`Mismatch`] which does not. At most [`MAX_ENTRIES`] entries are
//! kept.
//!
//! # Definitions
//! `specs/Steps.antt`: what an event makes of a world and its objects, and what comes out;
//! `specs/History.antt`: what is kept, when it is legal, and what an event adds;
//! `specs/Encoded.antt`: which requests are kept encoded, and which request octets encode;
//! `specs/Receipts.antt`: what a receipt reports of an event, when it takes memory, and when it
//! stands; `specs/Comparing.antt`: when receipts agree with what is kept. `specs/Happening.antt`,
//! `specs/Keeping.antt` and `specs/Forms.antt` speak of parts inside the crate.
//!
//! # Laws
//! On [`Kept::legal`]: each entry is that of the step at its place, and replaying the entries from
//! the base gives the world as it is. [`laws::one_history`]: one base, and the same events with the
//! same notes, make the same entries.
//!
//! The base moves only where [`MAX_ENTRIES`] are kept, to the world before the event. A request
//! that is entered is reported as dropped exactly where its policy drops it. Where memory was
//! wanting, any other request is answered by genErr, or by tooBig where that is too long. Where no
//! number is left there is no reply.
//!
//! # Not claimed
//! That memory was refused where want of it is reported or noted, or that there is some. Of objects
//! whose devices take no plans: which calls of a Set failed, and so which variable is reported as
//! failed.
#![tactic(auto)]

mod applied;
mod comparing;
mod duplicate;
mod egress;
mod entries;
mod entry;
mod event;
mod happening;
mod kept;
mod kept_event;
pub mod laws;
mod limits;
mod ranges;
mod receipt;

pub use applied::Applied;
pub use comparing::{Mismatch, Tally, compare};
pub use duplicate::Duplicate;
pub use egress::Egress;
pub use entry::Entry;
pub use event::{Event, ReceiptEvent};
pub use kept::Kept;
pub use kept_event::KeptEvent;
pub use limits::MAX_ENTRIES;
pub use receipt::Receipt;
