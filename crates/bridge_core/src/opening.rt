//! The parts of a bridge at first.
ghost use Rattle.std.specs.Prelude.{◌≡◌, ◌≤◌, replicate, None};
ghost use Rattle.bridge_core.specs.Bridge.{no_counters};

use crate::counters::PortCounters;
use arrayvec::ArrayVec;
use frame_core::Bpdu;
use rstp_core::MAX_PORTS;

/// Counters at 0.
pub fn zero_counters(count: usize) -> ArrayVec<PortCounters, MAX_PORTS>
    requires { count ≤ MAX_PORTS }
    ensures { result.items ≡ replicate count no_counters }
{
    let mut counters = ArrayVec::new();
    for _ in 0..count {
        counters.push(PortCounters {
            frames_in: 0,
            frames_out: 0,
            discards_in: 0,
        });
    }
    counters
}

/// No BPDU on any port.
pub fn no_bpdus(count: usize) -> ArrayVec<Option<Bpdu>, MAX_PORTS>
    requires { count ≤ MAX_PORTS }
    ensures { result.items ≡ replicate count None }
{
    let mut bpdus = ArrayVec::new();
    for _ in 0..count {
        bpdus.push(None);
    }
    bpdus
}
