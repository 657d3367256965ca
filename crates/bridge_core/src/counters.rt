//! The counters of a bridge's ports.
ghost use Rattle.std.specs.Prelude.{◌≡◌, length};
ghost use Rattle.bridge_core.specs.Counting.{next_count, with_frame_in, with_frame_out, with_discard, sent_where, has_bpdu, discards_after};

use fdb_core::Learnt;
use frame_core::Bpdu;

/// The counters of a port (RFC 4188 dot1dTpPortTable). Each wraps at 2^32.
#[derive(Clone, Copy, Debug, Default, PartialEq, Eq)]
pub struct PortCounters {
    /// Frames that came in by the port while it was on.
    pub frames_in: u32,
    /// Frames that went out by the port, BPDUs included.
    pub frames_out: u32,
    /// Frames that came in by the port while it was on and went nowhere, BPDUs apart.
    pub discards_in: u32,
}

impl PortCounters {
    /// One more frame in.
    pub fn receive(&mut self)
        ensures { self.new ≡ with_frame_in self.old }
    {
        self.frames_in = self.frames_in.wrapping_add(1);
    }

    /// One more frame out, where one goes out.
    pub fn send(&mut self, goes: bool)
        ensures { self.new ≡ with_frame_out goes self.old }
    {
        if goes {
            self.frames_out = self.frames_out.wrapping_add(1);
        }
    }

    /// One more frame discarded, where one is.
    pub fn discard(&mut self, lost: bool)
        ensures { self.new ≡ with_discard lost self.old }
    {
        if lost {
            self.discards_in = self.discards_in.wrapping_add(1);
        }
    }
}

/// One more frame out of each port that sends a BPDU.
pub fn count_bpdus(bpdus: &[Option<Bpdu>], counters: &mut [PortCounters])
    requires { length bpdus.now ≡ length counters.old }
    ensures { counters.new ≡ sent_where (has_bpdu bpdus.now) counters.old }
{
    for i in 0..counters.len() {
        counters[i].send(bpdus[i].is_some());
    }
}

/// The learned entry discards after what learning gave.
pub fn count_discards(discards: u32, learnt: Option<Learnt>) -> u32
    ensures { result ≡ discards_after learnt discards }
{
    match learnt {
        Some(Learnt::Full | Learnt::Memory) => discards.wrapping_add(1),
        _ => discards,
    }
}
