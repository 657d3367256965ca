//! The audits of a served agent as lines: of each request that made an entry, one.
//!
//! # Entry points
//! [`audited_line`] is the line of one request. Three gates of a worker make such lines:
//! [`RecordedAudits`] keeps them in memory; [`QueuedAudits`] offers each to a queue of `line_output`,
//! and never waits for an output; [`Auditing`] does so too or, where no audits are asked for, makes no
//! line. A line that found no space or no memory is lost, and the queue counts it.
//!
//! # Definitions
//! `specs/AuditLines.antt`: the line of a request, and those of a gate's visits; `specs/Records.antt`:
//! what is kept of them in memory; `specs/Audited.antt`: whether a worker is audited.
//!
//! # Laws
//! On [`audited_line`]: the line, to the octet. On [`RecordedAudits`]: the lines are those of the
//! visits, in order, each once; or there are none at all, once there was no memory for one. So the
//! lines of a worker over a record are those of its entries, where it has lines.
//!
//! # Not claimed
//! That a line that is made is offered, and that one that is offered is written: no clause follows a value
//! through a lock. That memory was wanting where a record has no lines. The lines of several workers stand
//! in any order of their numbers.
#![tactic(auto)]

mod auditing;
mod line;
mod queue;
mod record;

pub use auditing::Auditing;
pub use line::audited_line;
pub use queue::QueuedAudits;
pub use record::RecordedAudits;
