//! Logs what a run did, why it has no report, and how lines go on.
use crate::commands::log_command;
use crate::losses::log_losses;
use crate::serving::ServeFault;
use line_output::LineQueue;
use live_agent::End;
use live_control::ControlItem;
use live_laps::{Drops, LineName, Watch, WorkTotals, Worked};
use live_lock::Counts;
use live_run::{Report, RunFault};
use log::{Log, error, info, warn};
use std::fmt::Display;
use std::sync::Wait;
use wire_core::{Losses, MissedSeconds, WireFault};

/// Logs what a run did, in one line of level Info: `entries E requests Q older O drops D`.
pub fn log_report<R: Log>(rt: &R, report: &Report) {
    info!(
        rt;
        "entries {} requests {} older {} drops {}",
        report.entries,
        report.requests,
        report.older,
        report.drops
    );
}

/// Logs why there is no report, in one line of level Error.
pub fn report_fault<R: Log>(rt: &R, fault: &ServeFault) {
    match fault {
        ServeFault::Begin(why) => log_not_begun(rt, why),
        ServeFault::Run(RunFault::Mismatch(number)) => {
            error!(rt; "receipt {} is not the history's", number)
        }
        ServeFault::Run(RunFault::Wire(WireFault::Receive)) => error!(rt; "a receive failed"),
        ServeFault::Run(RunFault::Wire(WireFault::Send)) => error!(rt; "a send failed"),
        ServeFault::Run(RunFault::Memory) => error!(rt; "no memory"),
    }
}

/// Logs why nothing was served, in one line of level Error: `not begun: WHY`.
pub fn log_not_begun<R: Log, E: Display>(rt: &R, why: &E) {
    error!(rt; "not begun: {}", why);
}

/// Logs how lines go on, by this log: at the end of each interval of the ticker what all did so far, by
/// the book of all lines, in a line of level Info as that of [`log_report`], and the drops by cause in
/// another, with the requests of unknown communities and contexts that the world counts, and how many
/// seconds had no tick and how many lines of audits were lost, if any were, in a line of level Warn each; behind each command of an operator but
/// one for the counts, what became of it; where a fault ended an interval, which line's and why, and how
/// many there were so far, in a line of level Warn; where a line ends, which and why, in a line of level
/// Error.
#[derive(Drop)]
pub struct Reporter<'r, G> {
    /// By which it logs.
    pub log: &'r G,
    /// What all workers did in intervals.
    pub book: &'r WorkTotals,
    /// What could not be sent.
    pub losses: &'r Losses,
    /// The seconds that had no tick.
    pub missed: &'r MissedSeconds,
    /// The queue of the lines of audits, which counts those that were lost; none where none is asked for.
    pub audits: Option<&'r LineQueue>,
}

impl<G: Log> Reporter<'_, G> {
    // Logs how many datagrams and requests each cause dropped.
    fn log_drops(&self, drops: Drops, counts: Counts) {
        info!(
            self.log;
            "drops TooLong {} Malformed {} BadVersion {} BadKind {} Memory {} UnknownCommunity {} NoSuchContext {}",
            drops.too_long,
            drops.malformed,
            drops.bad_version,
            drops.bad_kind,
            drops.memory,
            counts.bad_communities,
            counts.unknown_contexts
        );
    }

    // Logs how many seconds had no tick since it was last logged, if any were.
    fn log_missed(&self) {
        let missed = self.missed.take();
        if missed > 0 {
            warn!(self.log; "{} seconds had no tick", missed);
        }
    }

    // Logs how many lines of audits were lost since it was last logged, if any were.
    fn log_lost_audits<S: Wait>(&self, rt: &S) {
        let Some(audits) = self.audits else {
            return;
        };
        let lost = audits.take_lost_audits(rt);
        if lost > 0 {
            warn!(self.log; "{} audit lines lost", lost);
        }
    }
}

impl<G: Log> Watch for Reporter<'_, G> {
    ghost went = { λ _ _ _. Unit };

    ghost reports = { λ _ _. Unit };

    ghost starts = { λ _. tt };

    ghost goes_on = { λ _ _ _ _ _ _ _. tt };

    fn another(&self) -> Self {
        Reporter {
            log: self.log,
            book: self.book,
            losses: self.losses,
            missed: self.missed,
            audits: self.audits,
        }
    }

    fn dropped<S: Wait>(&self, rt: &S) -> Drops {
        self.book.read(rt).by_cause
    }

    fn commanded(&self, item: &ControlItem) {
        log_command(self.log, item);
    }

    fn worked<S: Wait>(&mut self, rt: &S, worked: Worked) {
        self.book.add(rt, worked);
    }

    fn ticked<S: Wait>(&mut self, rt: &S, counts: Counts) {
        let worked = self.book.read(rt);
        info!(
            self.log;
            "entries {} requests {} older {} drops {}",
            counts.entries,
            worked.requests,
            counts.older,
            worked.drops
        );
        self.log_drops(worked.by_cause, counts);
        log_losses(self.log, self.losses);
        self.log_missed();
        self.log_lost_audits(rt);
    }

    fn failed(&mut self, line: LineName, end: End, faults: u64) {
        let why = why_ended(end);
        match line {
            // Workers are counted from 0; people count from 1.
            LineName::Worker(number) => {
                let number = number.saturating_add(1);
                warn!(self.log; "worker {}: {}, {} so far", number, why, faults)
            }
            LineName::Port(number) => {
                warn!(self.log; "port {}: {}, {} so far", number, why, faults)
            }
            LineName::Ticker => warn!(self.log; "the clock: {}, {} so far", why, faults),
            LineName::Control => {
                warn!(self.log; "the control socket: {}, {} so far", why, faults)
            }
        }
    }

    fn ended(&mut self, line: LineName, end: End) {
        let why = why_ended(end);
        match line {
            // Workers are counted from 0; people count from 1.
            LineName::Worker(number) => {
                error!(self.log; "worker {} ended: {}", number.saturating_add(1), why)
            }
            LineName::Port(number) => error!(self.log; "port {} ended: {}", number, why),
            LineName::Ticker => error!(self.log; "the clock ended: {}", why),
            LineName::Control => error!(self.log; "the control socket ended: {}", why),
        }
    }
}

// Why a line, or an interval of it, ended.
fn why_ended(end: End) -> &'static str {
    match end {
        End::Rounds => "its rounds are over",
        End::Closed => "nothing comes any more",
        End::Full => "no number is left for an entry",
        End::Wire(WireFault::Receive) => "a receive failed",
        End::Wire(WireFault::Send) => "a send failed",
        End::Memory => "no memory",
    }
}
