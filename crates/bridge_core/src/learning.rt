//! The learned addresses, as frames come in (IEEE 802.1D-2004 7.8).
ghost use Rattle.std.specs.Prelude.{◌≡◌, true};
ghost use Rattle.bridge_core.specs.Forwarding.{learns, learnt_with, rows_after, is_refused, NeedsMemory};

use crate::forwarding::is_reserved;
use fdb_core::{Fdb, Learnt};
use frame_core::FrameIn;
use rstp_core::State;

// Not of a frame to a reserved address, which is a rule of this profile alone.
fn is_to_learn(state: State, frame: &FrameIn) -> bool
    ensures { result ≡ learns state frame.now }
{
    !state.is_discarding() && !is_reserved(frame.destination) && !frame.source.is_group()
}

/// Learns the source of a frame where a port of this state learns it, and answers what that gave.
pub fn learn_from(fdb: &mut Fdb, state: State, port: u16, frame: &FrameIn) -> Option<Learnt>
    ensures rows { fdb.new
        ≡ record fdb.old { rows = rows_after result fdb.old.rows frame.now.source port } }
    ensures answer { result ≡ learnt_with fdb.old.rows fdb.old.limit state port frame.now
        (is_refused result) }
    ensures memory { is_refused result ≡ true →
        NeedsMemory fdb.old.rows fdb.old.limit state frame.now }
{
    if is_to_learn(state, frame) {
        Some(fdb.learn(frame.source, port))
    } else {
        None
    }
}

/// Whether the growth for a learned row was refused.
pub fn lacks_memory(learnt: Option<Learnt>) -> bool
    ensures { result ≡ is_refused learnt }
{
    matches!(learnt, Some(Learnt::Memory))
}
