//! Frames.
ghost use Rattle.std.specs.Prelude.{◌≡◌, ◌↔◌, IsTrue};

use crate::bpdu::Bpdu;
use crate::mac::Mac;

/// The fewest octets of a frame: two addresses, and the type or length (IEEE 802.3, 3.2).
pub const MIN_FRAME_LEN: usize = 14;

/// The most octets of a frame, without its check sequence (IEEE 802.3, 3.2.7): of the buffers into
/// which frames are received.
pub const MAX_FRAME_LEN: usize = 1_518;

/// The octets of a frame that carries a BPDU, as it is sent: the shortest frame that a medium
/// takes, without its check sequence (IEEE 802.3, 4.4.2).
pub const SENT_FRAME_LEN: usize = 60;

/// What a bridge reads of a frame that came in.
#[derive(Clone, Copy, Debug, PartialEq, Eq, Hash)]
pub struct FrameIn {
    /// The address to which it goes.
    pub destination: Mac,
    /// The address from which it comes.
    pub source: Mac,
    /// The BPDU, where the destination is the bridges' group address, and none elsewhere.
    pub bpdu: Option<Bpdu>,
}

impl FrameIn {
    /// Whether two are equal. Takes no memory.
    pub fn same(&self, other: &FrameIn) -> bool
        ensures { IsTrue result ↔ (self.now ≡ other.now) }
    {
        *self == *other
    }
}
