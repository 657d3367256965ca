//! Logs how many datagrams were lost.
use log::{Log, warn};
use wire_core::{CAUSES, Cause, Losses, cause_at};

/// Logs how many datagrams could not be sent since it was last logged, in a line of level Warn for
/// each cause that occurred: `N sends lost: WHY`, by the system's words for its number.
pub fn log_losses<R: Log>(rt: &R, losses: &Losses) {
    for place in 0..CAUSES {
        log_cause(rt, losses, cause_at(place));
    }
}

// Logs how many were lost by one cause, if any were.
fn log_cause<R: Log>(rt: &R, losses: &Losses, cause: Cause) {
    let sends = losses.take(cause);
    if sends > 0 {
        warn!(rt; "{} sends lost: {}", sends, cause);
    }
}
