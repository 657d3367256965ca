//! Logs what became of an operator's commands.
use configuration::PolicyCause;
use control_text::{CommandFault, MAX_POLICY};
use history_core::{Receipt, ReceiptEvent};
use live_control::ControlItem;
use log::{Log, info, warn};

/// Logs what became of a command of an operator, in one line: of one that was entered, in level Info,
/// `control: link P down, entry N`, or `control: policy, entry N`; of one that was refused, in level Warn,
/// `control: refused: WHY`. Nothing is logged of one for the counts, nor any text of a policy: of one that is
/// refused for its text at most the number of a line, or of a row with its key.
pub(crate) fn log_command<R: Log>(rt: &R, item: &ControlItem) {
    match item {
        ControlItem::Reported => {}
        ControlItem::Entered(receipt) => log_entered(rt, receipt),
        ControlItem::Refused(CommandFault::NoPolicy(cause)) => log_no_policy(rt, *cause),
        ControlItem::Refused(CommandFault::LongPolicy) => log_long_policy(rt),
        ControlItem::Refused(CommandFault::CutPolicy) => log_refused(
            rt,
            "a policy without its end",
        ),
        ControlItem::Refused(CommandFault::BadLine) => log_refused(rt, "no command"),
        ControlItem::Refused(CommandFault::Memory) => log_refused(rt, NO_MEMORY),
        ControlItem::Short => log_refused(rt, NO_MEMORY),
        ControlItem::Full => log_refused(rt, "no number is left for an entry"),
    }
}

const NO_MEMORY: &str = "no memory";

// Logs that a command was entered.
fn log_entered<R: Log>(rt: &R, receipt: &Receipt) {
    match &receipt.event {
        ReceiptEvent::Link { port, up } => {
            let direction = if *up { "up" } else { "down" };
            info!(rt; "control: link {} {}, entry {}", port, direction, receipt.number)
        }
        ReceiptEvent::Policy => info!(rt; "control: policy, entry {}", receipt.number),
        // No command is one of these.
        ReceiptEvent::Frame { .. } | ReceiptEvent::Tick | ReceiptEvent::Request(_) => {}
    }
}

// Logs that a command was refused.
fn log_refused<R: Log>(rt: &R, why: &str) {
    warn!(rt; "control: refused: {}", why)
}

// Logs that a command for a policy was refused for its text.
fn log_no_policy<R: Log>(rt: &R, cause: PolicyCause) {
    warn!(rt; "control: refused: no policy: {}", cause)
}

// Logs that a command for a policy was refused for its length.
fn log_long_policy<R: Log>(rt: &R) {
    warn!(rt; "control: refused: a policy of more than {} octets", MAX_POLICY)
}
