//! A port: it receives frames, makes each an event, and forwards it by the other ports.
ghost use Rattle.std.specs.Prelude.{◌≡◌, ◌+◌, ◌<◌, ◌++◌, ◌∷◌, []};
ghost use Rattle.frame_core.specs.Frames.{IsFrame};
ghost use Rattle.history_core.specs.declared.event.Event.TheVariants as event;
ghost use Rattle.wire_core.specs.Acts.{got};
ghost use Rattle.live_agent.specs.Lines.{run_start_of, IsPortTurn, HasLinked, HasPortRun, EndsPortShort, end_after_link, egress_of, frame_space};
ghost use Rattle.live_agent.specs.Runs.{HasTurned, HasRun, EndsShort, failures_at, failures_by};
ghost use Rattle.live_agent.specs.Turns.{acts_of};
ghost use Rattle.live_sending.specs.Sending.{fault_in};

use crate::line_state::{LineState, item_of, noted};
use crate::plan::Plan;
use crate::recorder::Recorder;
use crate::trace::{End, InputFault, Item};
use agent_core::Buffer;
use frame_core::{MAX_FRAME_LEN, read_frame};
use history_core::Applied;
use live_lock::{Live, Run, Share};
use live_sending::{Delivery, send_outgoing};
use setphase_core::MibObject;
use std::net::SocketAddr;
use std::sync::Wait;
use wire_core::{Received, Wire, WireFault};

// The octets of a frame's buffer: one more than it has at most, so that a longer one is seen.
const FRAME_SPACE: usize = MAX_FRAME_LEN + 1;

// What each function of a port is lent: the runtime, the plan, the history and the port's number.
#[derive(Drop)]
struct PortLine<'a, O: MibObject, L: Run, R> {
    rt: &'a R,
    plan: &'a Plan,
    live: &'a Live<O, L>,
    port: u16,
}

/// A port's line: first its link goes up, and where that finds no memory or no number, or its BPDUs
/// cannot be sent, the line ends; then one interval, as [`port_interval`]. Without memory for the link's item
/// it ends before that. Gives how the line ended, and what recorded it.
pub fn port_run<O: MibObject, L: Run, W: Wire, K: Recorder, R: Wait>(
    rt: &R,
    plan: &Plan,
    live: &Live<O, L>,
    share: &mut Share<L>,
    wire: &mut W,
    port: u16,
    recorder: K,
) -> (End, K)
    requires { 0 < share.old.parts }
    ensures run { HasPortRun W.went K.went (run_start_of L.start plan.now) port plan.now.rounds
        wire.old wire.new recorder result.1 share.old.amount share.new.amount result.0 }
    ensures memory { EndsPortShort K.has_space W.went K.went (run_start_of L.start plan.now) port
        wire.old wire.new recorder result.1 share.old.amount share.new.amount result.0 }
    ensures failures { W.failures wire.new ≡ failures_at result.0 (W.failures wire.old) }
    ensures parts { share.new.parts ≡ share.old.parts }
{
    let line = PortLine {
        rt,
        plan,
        live,
        port,
    };
    let mut state = LineState {
        buffer: Buffer::new(),
        recorder,
    };
    let end = link_and_go_round(&line, share, wire, &mut state);
    let LineState { recorder, .. } = state;
    (end, recorder)
}

// The link of a port goes up, and then its rounds run.
fn link_and_go_round<O: MibObject, L: Run, W: Wire, K: Recorder, R: Wait>(
    line: &PortLine<O, L, R>,
    share: &mut Share<L>,
    wire: &mut W,
    state: &mut LineState<K>,
) -> End
    requires { 0 < share.old.parts }
    ensures run { HasPortRun W.went K.went (run_start_of L.start line.now.plan.now) line.now.port
        line.now.plan.now.rounds wire.old wire.new state.old.recorder state.new.recorder
        share.old.amount share.new.amount result }
    ensures memory { EndsPortShort K.has_space W.went K.went
        (run_start_of L.start line.now.plan.now) line.now.port wire.old wire.new state.old.recorder
        state.new.recorder share.old.amount share.new.amount result }
    ensures failures { W.failures wire.new ≡ failures_at result (W.failures wire.old) }
    ensures parts { share.new.parts ≡ share.old.parts }
{
    if state.recorder.reserve().is_err() {
        return End::Memory;
    }
    if let Some(end) = bring_up(line, share, wire, state) {
        return end;
    }
    go_round(line, share, wire, state)
}

// The link of a port goes up, with memory for its item.
fn bring_up<O: MibObject, L: Run, W: Wire, K: Recorder, R: Wait>(
    line: &PortLine<O, L, R>,
    share: &mut Share<L>,
    wire: &mut W,
    state: &mut LineState<K>,
) -> Option<End>
    requires part { 0 < share.old.parts }
    requires space { K.has_space state.old.recorder }
    ensures linked { HasLinked W.went K.went (run_start_of L.start line.now.plan.now) line.now.port
        wire.old wire.new state.old.recorder state.new.recorder share.old.amount share.new.amount
        result }
    ensures failures { W.failures wire.new ≡ failures_by result (W.failures wire.old) }
    ensures parts { share.new.parts ≡ share.old.parts }
{
    let applied = line.live.link(
        line.rt,
        line.plan.alloc,
        share,
        line.port,
        true,
        &mut state.buffer,
    );
    let peers = line.plan.peers.as_slice();
    let bpdus = state.buffer.bpdus();
    let sent = send_outgoing(wire, line.plan.source, peers, Delivery::Nothing, bpdus);
    let ends = end_after_link(&applied, sent);
    state.recorder.record(item_of(applied));
    ends
}

// How the event of a port's link ends the port's line, if it does.
fn end_after_link(applied: &Applied, sent: Result<(), WireFault>) -> Option<End>
    ensures { result ≡ end_after_link applied.now (fault_in sent) }
{
    match sent {
        Err(fault) => Some(End::Wire(fault)),
        Ok(()) => match applied {
            Applied::Short(_) => Some(End::Memory),
            Applied::HistoryFull(_) => Some(End::Full),
            _ => None,
        },
    }
}

/// One interval of a port: so many receives, or until its wire is closed or fails, no number is left for
/// an entry, or there is no memory for the next item. Each datagram that is a frame has it come in by
/// the port; its octets go to the peers of the ports by which it goes out, and then what the ports
/// send to their peers. Gives how the interval ended, and what recorded it.
pub fn port_interval<O: MibObject, L: Run, W: Wire, K: Recorder, R: Wait>(
    rt: &R,
    plan: &Plan,
    live: &Live<O, L>,
    share: &mut Share<L>,
    wire: &mut W,
    port: u16,
    recorder: K,
) -> (End, K)
    requires { 0 < share.old.parts }
    ensures run { HasRun W.went K.went acts_of
        (IsPortTurn (run_start_of L.start plan.now) port)
        plan.now.rounds wire.old wire.new recorder result.1 share.old.amount share.new.amount
        result.0 }
    ensures memory { EndsShort K.has_space result.1 result.0 }
    ensures failures { W.failures wire.new ≡ failures_at result.0 (W.failures wire.old) }
    ensures parts { share.new.parts ≡ share.old.parts }
{
    let line = PortLine {
        rt,
        plan,
        live,
        port,
    };
    let mut state = LineState {
        buffer: Buffer::new(),
        recorder,
    };
    let end = go_round(&line, share, wire, &mut state);
    let LineState { recorder, .. } = state;
    (end, recorder)
}

// The rounds of a port, behind what was recorded before.
fn go_round<O: MibObject, L: Run, W: Wire, K: Recorder, R: Wait>(
    line: &PortLine<O, L, R>,
    share: &mut Share<L>,
    wire: &mut W,
    state: &mut LineState<K>,
) -> End
    requires { 0 < share.old.parts }
    ensures run { HasRun W.went K.went acts_of
        (IsPortTurn (run_start_of L.start line.now.plan.now) line.now.port)
        line.now.plan.now.rounds wire.old wire.new state.old.recorder state.new.recorder
        share.old.amount share.new.amount result }
    ensures memory { EndsShort K.has_space state.new.recorder result }
    ensures failures { W.failures wire.new ≡ failures_at result (W.failures wire.old) }
    ensures parts { share.new.parts ≡ share.old.parts }
{
    let mut octets = [0u8; FRAME_SPACE];
    for _i in 0..line.plan.rounds {
        if state.recorder.reserve().is_err() {
            return End::Memory;
        }
        if let Some(end) = port_turn(line, share, wire, state, &mut octets) {
            return end;
        }
    }
    End::Rounds
}

// One turn of a port, with memory for its item, and a buffer for a frame.
fn port_turn<O: MibObject, L: Run, W: Wire, K: Recorder, R: Wait>(
    line: &PortLine<O, L, R>,
    share: &mut Share<L>,
    wire: &mut W,
    state: &mut LineState<K>,
    octets: &mut [u8; FRAME_SPACE],
) -> Option<End>
    requires part { 0 < share.old.parts }
    requires space { K.has_space state.old.recorder }
    ensures turn { HasTurned W.went K.went acts_of
        (IsPortTurn (run_start_of L.start line.now.plan.now) line.now.port)
        wire.old wire.new state.old.recorder state.new.recorder
        share.old.amount share.new.amount result }
    ensures failures { W.failures wire.new ≡ failures_by result (W.failures wire.old) }
    ensures parts { share.new.parts ≡ share.old.parts }
{
    match wire.receive(octets) {
        Err(fault) => Some(End::Wire(fault)),
        Ok(Received::Nothing) => None,
        Ok(Received::Closed) => Some(End::Closed),
        Ok(Received::Datagram(len, peer)) => {
            take_frame(line, share, wire, state, peer, &octets[..len])
        }
    }
}

// A port received a datagram, with space in its trace.
fn take_frame<O: MibObject, L: Run, W: Wire, K: Recorder, R: Wait>(
    line: &PortLine<O, L, R>,
    share: &mut Share<L>,
    wire: &mut W,
    state: &mut LineState<K>,
    peer: SocketAddr,
    octets: &[u8],
) -> Option<End>
    requires part { 0 < share.old.parts }
    requires space { K.has_space state.old.recorder }
    ensures turn { (a : W) → W.went a (got frame_space peer octets.now ∷ []) wire.old →
        HasTurned W.went K.went acts_of
        (IsPortTurn (run_start_of L.start line.now.plan.now) line.now.port) a wire.new
        state.old.recorder state.new.recorder share.old.amount share.new.amount result }
    ensures failures { W.failures wire.new ≡ failures_by result (W.failures wire.old) }
    ensures parts { share.new.parts ≡ share.old.parts }
{
    let frame = match read_frame(octets) {
        Ok(frame) => frame,
        Err(fault) => {
            state
                .recorder
                .record(Item::Refused(InputFault::Frame(fault)));
            return None;
        }
    };
    let applied = line.live.frame(
        line.rt,
        line.plan.alloc,
        share,
        line.port,
        frame,
        &mut state.buffer,
    );
    let forwarded = Delivery::Frame(egress_of(&applied), octets);
    let peers = line.plan.peers.as_slice();
    let bpdus = state.buffer.bpdus();
    let sent = send_outgoing(wire, line.plan.source, peers, forwarded, bpdus);
    noted(&mut state.recorder, applied, sent)
}

// The ports by which an event's frame goes out.
fn egress_of(applied: &Applied) -> &[u16]
    ensures { result.now ≡ egress_of applied.now }
{
    match applied {
        Applied::Done(receipt, _) => receipt.egress.as_slice(),
        Applied::Dropped(receipt, _, _) => receipt.egress.as_slice(),
        Applied::Short(_) | Applied::HistoryFull(_) => &[],
    }
}
