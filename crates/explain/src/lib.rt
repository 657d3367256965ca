//! What a policy decides on a request, and by which rows, as text for an operator.
//!
//! # Entry points
//! [`explained`] gives the text of the decision on a request. [`question_of`] makes the request of
//! a PDU type, a community and words that are names, or gives their [`QuestionFault`].
//!
//! # Definitions
//! `specs/Explaining.antt`: the text, to the octet, by the decision of `decision` and the answers of
//! `vacm_core`, in the words of `audit_core`; `specs/Questions.antt`: which request words make.
//!
//! # Laws
//! In [`laws`]: a request that is allowed is explained as its audit says it.
//!
//! # Not claimed
//! What a name's instance shows, and which values a Set may write: the decision is up to the names.
#![tactic(auto)]

mod explaining;
pub mod laws;
mod questions;
mod written;

pub use explaining::explained;
pub use questions::{QuestionFault, question_of};
