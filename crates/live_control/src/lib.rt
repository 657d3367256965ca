//! The line of the control socket of a served agent: an operator's commands, each its own event of the
//! history.
//!
//! # Entry points
//! [`control_run`] is one thread's loop, lent the history, its share and its wires, and handed a
//! [`ControlRecorder`], which takes a [`ControlItem`] for each command; a vector of items is one. A
//! [`ControlWire`] is the ports' sending wire with the control wire beside it; [`Controlled`] makes one
//! of two. A [`DropTally`] gives how many datagrams each cause dropped.
//!
//! # Definitions
//! `specs/Turns.antt`, `specs/Runs.antt`: the turns of the line, and its loop; `specs/Lines.antt`: which
//! turns are the line's own, and what these do; `specs/Answers.antt`: what an event is answered;
//! `specs/Deeds.antt`: what both wires do, in order; `specs/Sides.antt`: the same of two wires that are
//! made one; `specs/Kept.antt`: items that are kept in a vector.
//!
//! # Laws
//! On the loop: each command has one item, in order; it was refused for its cause, or exactly its event
//! took its place in the history; what the ports send went to their peers, and the answer to the
//! operator, and nothing else. No command is a frame or a request. [`space_is_as_asked`] is on the length
//! of a command's slice.
//!
//! # Not claimed
//! That a wait ends, and which thread comes first; that memory was refused where nothing was answered;
//! what a wire that does not tell its acts did.
#![tactic(auto)]

mod control_wire;
mod item;
mod laws;
mod recorder;
mod replying;
mod tally;
mod task;

pub use control_wire::{ControlWire, Controlled};
pub use item::ControlItem;
pub use laws::space_is_as_asked;
pub use recorder::ControlRecorder;
pub use tally::{DropCounts, DropTally};
pub use task::{COMMAND_SPACE, control_run};
