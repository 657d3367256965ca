//! What became of a command.

use control_text::CommandFault;
use history_core::Receipt;

/// What became of a command of an operator.
#[derive(Drop)]
pub enum ControlItem {
    /// It is no command that is done.
    Refused(CommandFault),
    /// The counts were asked for.
    Reported,
    /// Its event was entered in the history: the receipt.
    Entered(Receipt),
    /// There was no memory for its event.
    Short,
    /// No number was left for its event's entry.
    Full,
}
