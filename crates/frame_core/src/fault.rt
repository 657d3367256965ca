//! Why a frame is refused.

use thiserror::Error;

/// Why octets are no frame that a bridge takes.
#[derive(Clone, Copy, Debug, PartialEq, Eq, Error)]
pub enum FrameFault {
    /// Fewer than 14 octets.
    #[error("the frame is too short")]
    Short,
    /// More than 1,518 octets.
    #[error("the frame is too long")]
    TooLong,
    /// A frame to the bridges' group address that carries no BPDU (IEEE 802.1D-2004, 9.3.4).
    #[error("the frame carries no BPDU")]
    BadBpdu,
}
