//! A gate that offers the lines of its requests to a queue.

use crate::line::audited_line;
use audit_core::Audit;
use line_output::LineQueue;
use live_agent::{AnsweredRequest, Gate};
use std::alloc::{AllocError, Global};
use std::sync::Wait;

/// A gate that offers the line of each request to a queue, and never waits for an output. Where the queue
/// has no space for the line, or there is no memory for it, the line is lost and counted.
#[derive(Drop)]
pub struct QueuedAudits<'q> {
    alloc: Global,
    queue: &'q LineQueue,
}

impl<'q> QueuedAudits<'q> {
    /// A gate that offers its lines to this queue.
    pub fn new(alloc: Global, queue: &'q LineQueue) -> QueuedAudits<'q> {
        QueuedAudits { alloc, queue }
    }

    /// The queue.
    pub fn queue(&self) -> &'q LineQueue {
        self.queue
    }

    /// Another gate of the same queue, for another worker.
    pub fn another(&self) -> QueuedAudits<'q> {
        QueuedAudits::new(self.alloc, self.queue)
    }
}

impl Gate for QueuedAudits<'_> {
    ghost went = { λ _ _ _. Unit };

    ghost starts = { λ _. tt };

    ghost goes_on = { λ _ _ _ _ _ _ _. tt };

    fn before<R: Wait>(&mut self, _rt: &R, _worker: usize) {}

    fn after<R: Wait>(&mut self, rt: &R, _worker: usize, request: AnsweredRequest, audit: &Audit) {
        match audited_line(self.alloc, request, audit) {
            Ok(line) => self.queue.offer_audit(rt, &line),
            Err(AllocError) => self.queue.lose_audits(rt, 1),
        }
    }
}
