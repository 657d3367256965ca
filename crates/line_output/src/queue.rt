//! The lines that wait for both outputs, shared by the tasks that offer them and the one that writes.
use crate::pending::Pending;
use crate::waiting::Waiting;
use std::alloc::{AllocError, Global};
use std::sync::{Condvar, Mutex, Wait};

/// How many octets of lines of audits wait at most: 2 MiB. The writer holds as many beside them.
pub const MAX_AUDIT_OCTETS: usize = 2_097_152;

/// How many octets of lines of the log wait at most: 256 KiB. The writer holds as many beside them.
pub const MAX_LOG_OCTETS: usize = 262_144;

/// The lines of audits in the writer's hand.
pub(crate) type PendingAudits = Pending<MAX_AUDIT_OCTETS>;

/// The lines of the log in the writer's hand.
pub(crate) type PendingLog = Pending<MAX_LOG_OCTETS>;

/// The lines that wait for both outputs, and whether none is offered any more.
#[derive(Drop)]
struct Lines {
    audits: Waiting<MAX_AUDIT_OCTETS>,
    log: Waiting<MAX_LOG_OCTETS>,
    is_closed: bool,
}

/// Lines of audits and of a log that wait to be written. Tasks that share it offer lines, and
/// [`crate::write_lines`] takes them. An offer copies the line and never waits for an output: a line
/// for which there is no space is lost, and counted.
#[derive(Drop)]
pub struct LineQueue {
    lines: Mutex<Lines>,
    changed: Condvar,
}

impl LineQueue {
    /// No lines. Takes the memory of [`MAX_AUDIT_OCTETS`] and [`MAX_LOG_OCTETS`], so that no offer
    /// takes any.
    pub fn new(alloc: Global) -> Result<LineQueue, AllocError> {
        let lines = Lines {
            audits: Waiting::reserved(alloc)?,
            log: Waiting::reserved(alloc)?,
            is_closed: false,
        };
        Ok(LineQueue {
            lines: Mutex::new(lines),
            changed: Condvar::new(),
        })
    }

    /// Offers a line of audits, with its line feed, or counts it as lost.
    pub fn offer_audit<R: Wait>(&self, rt: &R, line: &str) {
        if self.lines.lock(rt).audits.offer(line) {
            self.changed.notify_one();
        }
    }

    /// Offers a line of the log, with its line feed, or counts it as lost.
    pub fn offer_log<R: Wait>(&self, rt: &R, line: &str) {
        if self.lines.lock(rt).log.offer(line) {
            self.changed.notify_one();
        }
    }

    /// So many lines of audits more were lost.
    pub fn lose_audits<R: Wait>(&self, rt: &R, lines: u64) {
        self.lines.lock(rt).audits.lose(lines);
    }

    /// So many lines of the log more were lost.
    pub fn lose_log<R: Wait>(&self, rt: &R, lines: u64) {
        self.lines.lock(rt).log.lose(lines);
    }

    /// How many lines of audits were lost since this was last asked. The count stops at 2^64 - 1.
    pub fn take_lost_audits<R: Wait>(&self, rt: &R) -> u64 {
        self.lines.lock(rt).audits.take_lost()
    }

    /// No line is offered any more: the writer writes those that wait, and ends.
    pub fn close<R: Wait>(&self, rt: &R) {
        self.lines.lock(rt).is_closed = true;
        self.changed.notify_one();
    }

    // Whether no line is offered any more.
    pub(crate) fn is_closed<R: Wait>(&self, rt: &R) -> bool {
        self.lines.lock(rt).is_closed
    }

    // Waits until a line waits, or none is offered any more: whether a line waits.
    pub(crate) fn wait<R: Wait>(&self, rt: &R) -> bool {
        let lines = self.changed.wait_while(rt, self.lines.lock(rt), |lines| {
            lines.audits.is_empty() && lines.log.is_empty() && !lines.is_closed
        });
        !lines.audits.is_empty() || !lines.log.is_empty()
    }

    // Hands the lines of audits that wait to the writer, if it has written those that it holds.
    pub(crate) fn hand_audits<R: Wait>(&self, rt: &R, hand: &mut PendingAudits) {
        if hand.is_done() {
            hand.refill(&mut self.lines.lock(rt).audits);
        }
    }

    // Hands the lines of the log that wait to the writer, if it has written those that it holds and any
    // wait: how many lines were lost until then, and 0 where it hands none over.
    pub(crate) fn hand_log<R: Wait>(&self, rt: &R, hand: &mut PendingLog) -> u64 {
        let mut lines = self.lines.lock(rt);
        if !hand.is_done() || lines.log.is_empty() {
            return 0;
        }
        hand.refill(&mut lines.log);
        lines.log.take_lost()
    }
}
