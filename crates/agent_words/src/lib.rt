//! The words of `agentd`: what a command line asks for, or how it is answered.
//!
//! # Entry points
//! [`read_words`] gives what words ask for, an [`Asked`]: with it, where an agent is to be served,
//! for how long, a [`Lasting`], and where a served agent is to do a command, which, an [`Order`].
//! Words that are no command it answers with help, with the version or with what is wrong with
//! them, and says which: [`Answered`]. [`asks_to_serve`] says whether words ask to serve an agent.
//! [`VERSION`] is the version in these answers.
//!
//! # Definitions
//! `specs/Options.antt`: the words, as clap reads them; `specs/Built.antt`: what is built of them;
//! `specs/Orders.antt`: the commands for a served agent; `specs/Asking.antt`: what words ask for;
//! `specs/Answers.antt`: how words that are no command are answered.
//!
//! # Laws
//! None.
//!
//! # Not claimed
//! The texts of help, of the version and of errors; that a growth or a write succeeds; that memory
//! was refused where that is reported.
#![tactic(auto)]

mod asked;
mod matches;
mod options;
mod program;

pub use asked::{Asked, Lasting, Operation, Order, Question, asks_to_serve};
pub use options::VERSION;
pub use program::{Answered, read_words};
