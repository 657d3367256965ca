//! The task that writes the lines of both outputs.
use crate::lost::LostLines;
use crate::outlet::Outlet;
use crate::queue::{LineQueue, PendingAudits, PendingLog};
use crate::step::{Step, wait_ready, write_some};
use std::alloc::{AllocError, Global};
use std::sync::Wait;
use std::time::{Clock, Duration};

/// How long an output that takes nothing is waited for before lines are taken up anew, in milliseconds:
/// 10.
const PAUSE_MILLIS: u16 = 10;

/// How often outputs that take nothing are waited for once no line is offered any more: for a second, as
/// two outputs are waited for.
const LAST_PAUSES: u32 = 50;

/// The lines that the task which writes holds in its hand, of audits and of the log, and how many lines of
/// the log were lost.
#[derive(Drop)]
pub struct LinesInHand {
    audits: PendingAudits,
    log: PendingLog,
    lost: LostLines,
    is_shared: bool,
}

impl LinesInHand {
    ghost use Rattle.std.specs.Prelude.{◌≡◌, []};
    ghost use Rattle.line_output.specs.Pending.{to_write};

    /// No lines, for two outputs. They are shared where both may be one file: no line of the one is then
    /// begun while a line of the other is written in part. Takes the memory of
    /// [`crate::MAX_AUDIT_OCTETS`] and [`crate::MAX_LOG_OCTETS`].
    pub fn new(alloc: Global, is_shared: bool) -> Result<LinesInHand, AllocError> {
        let audits = PendingAudits::reserved(alloc)?;
        let log = PendingLog::reserved(alloc)?;
        Ok(LinesInHand {
            audits,
            log,
            lost: LostLines::none(),
            is_shared,
        })
    }

    // Takes up lines that wait, where those before them are written.
    fn take_up<R: Wait>(&mut self, rt: &R, queue: &LineQueue) {
        queue.hand_audits(rt, &mut self.audits);
        let lost = queue.hand_log(rt, &mut self.log);
        self.lost.add(lost);
    }

    // What came of writing some of the lines of audits, unless a line of the log is begun in the same file.
    // Where the write fails, those that are not written are lost.
    fn write_audits<R: Wait, O: Outlet>(
        &mut self,
        rt: &R,
        queue: &LineQueue,
        outlet: &mut O,
    ) -> Step {
        if self.is_shared && self.log.is_begun() {
            return Step::Waits;
        }
        let step = write_some(outlet, &mut self.audits);
        if step == Step::Failed {
            queue.lose_audits(rt, self.audits.give_up());
        }
        if self.is_shared {
            self.log.set_cut_off(self.audits.is_cut_off());
        }
        step
    }

    // What came of writing some of the lines of the log, unless a line of audits is begun in the same file.
    // Where the write fails, those that are not written are lost; where all are written, a line reports how
    // many were.
    fn write_log<O: Outlet>(&mut self, alloc: Global, outlet: &mut O) -> Step {
        if self.is_shared && self.audits.is_begun() {
            return Step::Waits;
        }
        let step = write_some(outlet, &mut self.log);
        if step == Step::Failed {
            self.lost.give_up(self.log.give_up());
        }
        if self.is_shared {
            self.audits.set_cut_off(self.log.is_cut_off());
        }
        if step == Step::Wrote && self.log.is_done() {
            self.report_lost(alloc);
        }
        step
    }

    // The lines of the log that were taken up are written: reports how many were lost, if any were.
    fn report_lost(&mut self, alloc: Global)
        requires { to_write self.old.log ≡ [] }
    {
        self.lost.wrote();
        let lost = self.lost.unreported();
        if lost == 0 {
            return;
        }
        let Ok(line) = lost_line(alloc, lost) else {
            return;
        };
        if self.log.restart(&line) {
            self.lost.report();
        }
    }

    // Waits a little for the outputs that are to take more.
    fn pause<C: Clock, A: Outlet, L: Outlet>(&self, clock: &C, step: Step, audits: &A, log: &L) {
        if step == Step::Refused {
            clock.sleep(Duration::from_millis(u64::from(PAUSE_MILLIS)));
        } else {
            wait_ready(audits, &self.audits, PAUSE_MILLIS);
            wait_ready(log, &self.log, PAUSE_MILLIS);
        }
    }
}

// The line of the log that reports how many of its lines were lost.
fn lost_line(alloc: Global, lost: u64) -> Result<String, AllocError> {
    format!(in alloc; "[WARN  line_output] {lost} log lines lost\n")
}

/// The task that writes lines: takes those that wait from the queue, and writes those of audits to one
/// output and those of the log to another, as far as these take them, until the queue is closed and no line
/// waits. It asks an output before it writes to it, at most [`crate::CHUNK_OCTETS`] at once. Where a write
/// fails, the lines that are not written whole are counted as lost, and the next ones begin on a line of
/// their own. Where lines of the log were lost, a line reports how many once the log takes lines again. Behind
/// the close it waits for a second at most for outputs that take nothing.
pub fn write_lines<R: Wait + Clock, A: Outlet, L: Outlet>(
    rt: &R,
    alloc: Global,
    queue: &LineQueue,
    hand: &mut LinesInHand,
    audits: &mut A,
    log: &mut L,
) {
    let mut pauses: u32 = 0;
    for _ in rt.forever() {
        hand.take_up(rt, queue);
        let audited = hand.write_audits(rt, queue, audits);
        let step = audited.and(hand.write_log(alloc, log));
        match step {
            Step::Idle => {
                if !queue.wait(rt) {
                    return;
                }
            }
            Step::Wrote | Step::Failed => {}
            Step::Waits | Step::Refused => {
                if pauses >= LAST_PAUSES {
                    return;
                }
                if queue.is_closed(rt) {
                    pauses = pauses.saturating_add(1);
                }
                hand.pause(rt, step, audits, log);
            }
        }
    }
}
