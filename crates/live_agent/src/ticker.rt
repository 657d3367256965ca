//! The ticker: it lets seconds pass, by its pace.
ghost use Rattle.std.specs.Prelude.{◌≡◌, ◌+◌, ◌<◌};
ghost use Rattle.history_core.specs.declared.event.Event.TheVariants as event;
ghost use Rattle.live_agent.specs.Lines.{run_start_of, HasTicked, IsSecond};
ghost use Rattle.live_agent.specs.Runs.{HasTurned, EndsShort, failures_at, failures_by};
ghost use Rattle.live_agent.specs.Turns.{acts_of};

use crate::line_state::{LineState, noted};
use crate::paced::PacedWire;
use crate::plan::Plan;
use crate::recorder::Recorder;
use crate::trace::End;
use agent_core::Buffer;
use live_lock::{Live, Run, Share};
use live_sending::{Delivery, send_outgoing};
use setphase_core::MibObject;
use std::sync::Wait;
use wire_core::Wire;

/// One interval of the ticker: so many trues of its pace, or until that says false, its wire fails, no
/// number is left for an entry, or there is no memory for the next item. For each true a second passes,
/// and what the ports send goes to their peers, before the pace is asked again. Gives how the interval
/// ended, and what recorded it.
pub fn ticker_run<O: MibObject, L: Run, T: PacedWire, K: Recorder, R: Wait>(
    rt: &R,
    plan: &Plan,
    live: &Live<O, L>,
    share: &mut Share<L>,
    wire: &mut T,
    recorder: K,
) -> (End, K)
    requires { 0 < share.old.parts }
    ensures run { HasTicked T.did K.went (run_start_of L.start plan.now) plan.now.rounds wire.old
        wire.new recorder result.1 share.old.amount share.new.amount result.0 }
    ensures memory { EndsShort K.has_space result.1 result.0 }
    ensures failures { T.failures wire.new ≡ failures_at result.0 (T.failures wire.old) }
    ensures parts { share.new.parts ≡ share.old.parts }
{
    let mut state = LineState {
        buffer: Buffer::new(),
        recorder,
    };
    let end = tick_rounds(rt, plan, live, share, wire, &mut state);
    let LineState { recorder, .. } = state;
    (end, recorder)
}

// The ticks of an interval, behind what was recorded before.
fn tick_rounds<O: MibObject, L: Run, T: PacedWire, K: Recorder, R: Wait>(
    rt: &R,
    plan: &Plan,
    live: &Live<O, L>,
    share: &mut Share<L>,
    wire: &mut T,
    state: &mut LineState<K>,
) -> End
    requires { 0 < share.old.parts }
    ensures run { HasTicked T.did K.went (run_start_of L.start plan.now) plan.now.rounds wire.old
        wire.new state.old.recorder state.new.recorder share.old.amount share.new.amount result }
    ensures memory { EndsShort K.has_space state.new.recorder result }
    ensures failures { T.failures wire.new ≡ failures_at result (T.failures wire.old) }
    ensures parts { share.new.parts ≡ share.old.parts }
{
    for _i in 0..plan.rounds {
        if state.recorder.reserve().is_err() {
            return End::Memory;
        }
        if !wire.next() {
            return End::Closed;
        }
        if let Some(end) = tick_once(rt, plan, live, share, wire, state) {
            return end;
        }
    }
    End::Rounds
}

// A second passes, with memory for its item.
fn tick_once<O: MibObject, L: Run, W: Wire, K: Recorder, R: Wait>(
    rt: &R,
    plan: &Plan,
    live: &Live<O, L>,
    share: &mut Share<L>,
    wire: &mut W,
    state: &mut LineState<K>,
) -> Option<End>
    requires part { 0 < share.old.parts }
    requires space { K.has_space state.old.recorder }
    ensures turn { HasTurned W.went K.went acts_of (IsSecond (run_start_of L.start plan.now)) wire.old
        wire.new state.old.recorder state.new.recorder share.old.amount share.new.amount result }
    ensures failures { W.failures wire.new ≡ failures_by result (W.failures wire.old) }
    ensures parts { share.new.parts ≡ share.old.parts }
{
    let applied = live.tick(rt, plan.alloc, share, &mut state.buffer);
    let peers = plan.peers.as_slice();
    let bpdus = state.buffer.bpdus();
    let sent = send_outgoing(wire, plan.source, peers, Delivery::Nothing, bpdus);
    noted(&mut state.recorder, applied, sent)
}
