//! Requests answered by RFC 3416 over what a policy lets their caller see (RFC 3415), with an audit
//! of each.
//!
//! # Entry points
//! [`answer`] is one step of a request over a `Registry` of managed objects and the `World` that
//! they show: its reply and what the ports send stand in a [`Buffer`], its audit is given, a drop
//! is counted, a Set changes all its variables or none but what could not be undone, and is handed
//! the memory in which its audit names that. For time alone, objects that the view is seen to hide
//! whole are passed over. [`Answered`] is what `answer` gives, with an [`Audit`], whose line
//! [`audit_line`] writes. [`short_reply`] writes the reply for a want of memory, and takes none.
//!
//! [`get`] answers from any [`Source`], and [`get_next`] and [`get_bulk`] from any [`Successors`],
//! each of which is a [`View`] too: they can ask it for nothing but where a walk stands at a name, where
//! the next instance stands, for its name, the front of its name and its value, and whether the view shows
//! a name, or is known to; each next instance is a step. A [`Source`] can also be asked for the object and
//! the value of a name. The value of an instance is made where it is sent. Its name is made where GetNext
//! sends it, where Get compares it with an object, where the view is asked, and to go on behind a hidden
//! instance. The hidden instances that a walk passes are kept as a run (`HiddenRuns`), and no other walk of
//! the request passes them again. A walk stands at a name ([`Stand`]): at the place of the name among the
//! objects, and knows of those from there on how far the view shows them whole, and how far it is not seen to
//! hide one. A request of many names in a view of many rows asks the view of each object once, ahead of its
//! walks (`RequestView`). Each column of a GetBulk walks by itself. A
//! GetBulk lends its walks one spot, in which they write where an instance stands. Each binding is encoded
//! at once, behind those that are to be sent. The numbers of its name stand behind those of the names before
//! it, from which the next repetition goes on; an endOfMibView that follows another stands under that one's
//! numbers. Whether a binding is endOfMibView is kept too, and where a walk stands at its name.
//! A [`Shortage`] says for what there was no memory: for a name above 24 numbers that a binding needs, which
//! is answered genErr with the binding's number (tooBig where that is too long), or for anything else.
//!
//! # Definitions
//! `specs/Answers.antt`: what objects show of a world, and the step; `specs/Replies.antt`: replies by
//! kind, and the size rule; `specs/Sets.antt`: what a Set becomes; `specs/Reading.antt`: what is
//! visible, Get and GetNext; `specs/Making.antt`: what a walk found, as a binding;
//! `specs/Lookups.antt`: the lookups that a successor takes, and for which names it takes memory;
//! `specs/Hidden.antt`: runs of hidden instances, and how many of these are in none;
//! `specs/Lacking.antt`: for which binding that is; `specs/Bulk.antt`, `specs/Fitting.antt`: GetBulk;
//! `specs/Denying.antt`: denied bindings; `specs/Buffered.antt`: what a buffer holds;
//! `specs/Sending.antt`: a GetBulk's bindings that are to be sent, what is kept of each, and where
//! walks stand; `specs/Standing.antt`: where a walk stands, and what it knows of a view there;
//! `specs/Views.antt`: what a view is seen by.
//!
//! # Laws
//! In [`laws`]: where no memory is wanting, replies depend on nothing but what is visible, those of Get also on the objects and
//! on which of the asked names are in the view; repeated GetNext lists all that is visible; a name has
//! one object; repetitions are successors; the longest front that fits, and that few bindings do;
//! one lookup where nothing is hidden; of requests a Set alone changes the policy, the masks and types
//! of view families that its variables write.
//!
//! # Not claimed
//! That memory was refused where want of it is answered or noted; of objects whose devices take no
//! plans, which calls of a Set failed, and so which variable is reported as failed; that a name is made
//! of a hidden instance by which a binding is noted, or that a name's want of memory is noted at all, or
//! for which of several long names memory was refused;
//! what is passed over, how often a walk is begun, and how often `answer` asks for a successor, or asks
//! the view.
#![tactic(auto)]

mod answered;
mod answering;
mod buffer;
mod bulk;
mod denying;
mod fitting;
mod getting;
mod hidden;
pub mod laws;
mod nexts;
mod reading;
mod request_view;
mod sent_binding;
mod sent_reply;
mod served;
mod sets;
mod shortage;
mod source;
mod whole;

pub use answered::Answered;
pub use answering::{answer, short_reply};
pub use audit_core::{Audit, audit_line};
pub use buffer::Buffer;
pub use bulk::get_bulk;
pub use getting::get;
pub use nexts::get_next;
pub use shortage::Shortage;
pub use source::{Source, Stand, Successors, View};
