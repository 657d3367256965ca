//! Laws of frames. Each holds of all octets, and its function does nothing.
ghost use Rattle.std.specs.Prelude.{◌≡◌, ◌↔◌, ℕ, List, [], ◌∷◌, Ok, Err};
ghost use Rattle.frame_core.specs.declared.frame.FrameIn.{FrameIn};
ghost use Rattle.frame_core.specs.declared.fault.FrameFault.{FrameFault};
ghost use Rattle.frame_core.specs.Frames.{IsFrame, IsFault};
ghost use Rattle.frame_core.specs.Reading.{frame_at};

use crate::frame::{MAX_FRAME_LEN, MIN_FRAME_LEN, SENT_FRAME_LEN};
use crate::layout::{HEADER_LEN, MAX_LENGTH};
use crate::mac::BRIDGE_GROUP;

/// What a frame is read as is a function of its octets: `frame_at` gives what stands in them
/// exactly where they are a frame, and a fault exactly where it is theirs.
pub fn frame_is_read()
    ensures frame { (octets : List ℕ) (f : FrameIn) → IsFrame octets f ↔ (frame_at octets ≡ Ok f) }
    ensures fault { (octets : List ℕ) (e : FrameFault) →
        IsFault octets e ↔ (frame_at octets ≡ Err e) }
{}

/// The bridges' group address is 01-80-C2-00-00-00 (IEEE 802.1D-2004, 7.12.3).
pub fn bridge_group_is_fixed()
    ensures { BRIDGE_GROUP.0 ≡ 0x01 ∷ 0x80 ∷ 0xC2 ∷ 0x00 ∷ 0x00 ∷ 0x00 ∷ [] }
{}

/// A frame has 14 to 1,518 octets without its check sequence, and one that carries a BPDU is sent
/// with 60 (IEEE 802.3, 3.2 and 4.4.2). A length field counts at most 1,500 octets (IEEE 802.3,
/// 3.2.6), and 17 stand before a BPDU (IEEE 802.1D-2004, 7.12).
pub fn frame_lengths_are_bounded()
    ensures least { MIN_FRAME_LEN ≡ 14 }
    ensures most { MAX_FRAME_LEN ≡ 1518 }
    ensures sent { SENT_FRAME_LEN ≡ 60 }
    ensures length { MAX_LENGTH ≡ 1500 }
    ensures header { HEADER_LEN ≡ 17 }
{}
