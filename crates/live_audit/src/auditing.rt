//! A gate of a worker that may be asked for audits.
ghost use Rattle.std.specs.Prelude.{◌≡◌, ◌↔◌, IsTrue, IsSome};
ghost use Rattle.live_audit.specs.Audited.{is_audited};

use crate::queue::QueuedAudits;
use audit_core::Audit;
use line_output::LineQueue;
use live_agent::{AnsweredRequest, Gate};
use std::sync::Wait;

/// Whether the requests of a worker are audited.
#[derive(Drop)]
pub enum Auditing<'q> {
    /// No line is made.
    Off,
    /// The line of each is offered to a queue.
    On(QueuedAudits<'q>),
}

impl<'q> Auditing<'q> {
    /// The queue that the lines are offered to, where the requests are audited.
    pub fn queue(&self) -> Option<&'q LineQueue>
        ensures { IsTrue (is_audited self.now) ↔ IsSome result }
    {
        match self {
            Auditing::Off => None,
            Auditing::On(audits) => Some(audits.queue()),
        }
    }

    /// The same for another worker.
    pub fn another(&self) -> Auditing<'q>
        ensures { is_audited result ≡ is_audited self.now }
    {
        match self {
            Auditing::Off => Auditing::Off,
            Auditing::On(audits) => Auditing::On(audits.another()),
        }
    }
}

impl Gate for Auditing<'_> {
    ghost went = { λ _ _ _. Unit };

    ghost starts = { λ _. tt };

    ghost goes_on = { λ _ _ _ _ _ _ _. tt };

    fn before<R: Wait>(&mut self, _rt: &R, _worker: usize) {}

    fn after<R: Wait>(&mut self, rt: &R, worker: usize, request: AnsweredRequest, audit: &Audit) {
        match self {
            Auditing::Off => {}
            Auditing::On(audits) => audits.after(rt, worker, request, audit),
        }
    }
}
