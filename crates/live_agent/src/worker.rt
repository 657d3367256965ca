//! A worker: it receives requests, makes each an event, and replies.
ghost use Rattle.std.specs.Prelude.{◌≡◌, ◌+◌, ◌<◌, ◌++◌, ◌∷◌, []};
ghost use Rattle.std.specs.Option.{option_map};
ghost use Rattle.message_core.specs.Encodable.{AreEncodable};
ghost use Rattle.message_core.specs.Message.{IsRequest};
ghost use Rattle.history_core.specs.declared.event.Event.TheVariants as event;
ghost use Rattle.wire_core.specs.Acts.{got};
ghost use Rattle.live_agent.specs.Lines.{run_start_of, IsWorkerTurn, Happens, HasWorked, request_space, audited_of, worker_deeds, visits_behind};
ghost use Rattle.live_agent.specs.Runs.{HasTurned, EndsShort, failures_at, failures_by};
ghost use Rattle.live_agent.specs.Turns.{entered_in};

use crate::gate::{AnsweredRequest, GatedWire};
use crate::line_state::{LineState, noted};
use crate::plan::Plan;
use crate::recorder::Recorder;
use crate::trace::{End, InputFault, Item};
use agent_core::Buffer;
use audit_core::Audit;
use history_core::{Applied, Receipt};
use live_lock::{Live, Run, Share};
use live_sending::{Delivery, send_outgoing};
use message_core::{MAX_REQUEST, Request, decode};
use setphase_core::MibObject;
use std::net::SocketAddr;
use std::sync::Wait;
use wire_core::Received;

// The octets of a request's buffer: one more than it has at most, so that a longer one is seen.
const REQUEST_SPACE: usize = MAX_REQUEST + 1;

// What each function of a worker is lent: the runtime, the plan, the history and the worker's number.
#[derive(Drop)]
struct WorkerLine<'a, O: MibObject, L: Run, R> {
    rt: &'a R,
    plan: &'a Plan,
    live: &'a Live<O, L>,
    worker: usize,
}

/// One interval of a worker: so many receives, or until its wire is closed or fails, no number is left
/// for an entry, or there is no memory for the next item. Each datagram that holds a request has it
/// happen; its reply goes to the peer that asked, and then what the ports send to their peers. The
/// gate is visited by the worker's number ahead of it, and behind it where it made an entry. Gives how
/// the interval ended, and what recorded it.
pub fn worker_run<O: MibObject, L: Run, W: GatedWire, K: Recorder, R: Wait>(
    rt: &R,
    plan: &Plan,
    live: &Live<O, L>,
    share: &mut Share<L>,
    wire: &mut W,
    worker: usize,
    recorder: K,
) -> (End, K)
    requires { 0 < share.old.parts }
    ensures run { HasWorked W.did K.went (run_start_of L.start plan.now) plan.now.rounds worker
        wire.old wire.new recorder result.1 share.old.amount share.new.amount result.0 }
    ensures memory { EndsShort K.has_space result.1 result.0 }
    ensures failures { W.failures wire.new ≡ failures_at result.0 (W.failures wire.old) }
    ensures parts { share.new.parts ≡ share.old.parts }
{
    let line = WorkerLine {
        rt,
        plan,
        live,
        worker,
    };
    let mut state = LineState {
        buffer: Buffer::new(),
        recorder,
    };
    let end = work_rounds(&line, share, wire, &mut state);
    let LineState { recorder, .. } = state;
    (end, recorder)
}

// The rounds of a worker, behind what was recorded before.
fn work_rounds<O: MibObject, L: Run, W: GatedWire, K: Recorder, R: Wait>(
    line: &WorkerLine<O, L, R>,
    share: &mut Share<L>,
    wire: &mut W,
    state: &mut LineState<K>,
) -> End
    requires { 0 < share.old.parts }
    ensures run { HasWorked W.did K.went (run_start_of L.start line.now.plan.now)
        line.now.plan.now.rounds line.now.worker wire.old wire.new state.old.recorder
        state.new.recorder share.old.amount share.new.amount result }
    ensures memory { EndsShort K.has_space state.new.recorder result }
    ensures failures { W.failures wire.new ≡ failures_at result (W.failures wire.old) }
    ensures parts { share.new.parts ≡ share.old.parts }
{
    let mut octets = [0u8; REQUEST_SPACE];
    for _i in 0..line.plan.rounds {
        if state.recorder.reserve().is_err() {
            return End::Memory;
        }
        if let Some(end) = worker_turn(line, share, wire, state, &mut octets) {
            return end;
        }
    }
    End::Rounds
}

// One turn of a worker, with memory for its item, and a buffer for a request.
fn worker_turn<O: MibObject, L: Run, W: GatedWire, K: Recorder, R: Wait>(
    line: &WorkerLine<O, L, R>,
    share: &mut Share<L>,
    wire: &mut W,
    state: &mut LineState<K>,
    octets: &mut [u8; REQUEST_SPACE],
) -> Option<End>
    requires part { 0 < share.old.parts }
    requires space { K.has_space state.old.recorder }
    ensures turn { HasTurned W.did K.went (worker_deeds line.now.worker)
        (IsWorkerTurn (run_start_of L.start line.now.plan.now))
        wire.old wire.new state.old.recorder state.new.recorder
        share.old.amount share.new.amount result }
    ensures failures { W.failures wire.new ≡ failures_by result (W.failures wire.old) }
    ensures parts { share.new.parts ≡ share.old.parts }
{
    match wire.receive(octets) {
        Err(fault) => Some(End::Wire(fault)),
        Ok(Received::Nothing) => None,
        Ok(Received::Closed) => Some(End::Closed),
        Ok(Received::Datagram(len, peer)) => {
            take_datagram(line, share, wire, state, peer, &octets[..len])
        }
    }
}

// A datagram came, with memory for its item.
fn take_datagram<O: MibObject, L: Run, W: GatedWire, K: Recorder, R: Wait>(
    line: &WorkerLine<O, L, R>,
    share: &mut Share<L>,
    wire: &mut W,
    state: &mut LineState<K>,
    peer: SocketAddr,
    octets: &[u8],
) -> Option<End>
    requires part { 0 < share.old.parts }
    requires space { K.has_space state.old.recorder }
    ensures turn { (a : W) → W.went a (got request_space peer octets.now ∷ []) wire.old →
        HasTurned W.did K.went (worker_deeds line.now.worker)
        (IsWorkerTurn (run_start_of L.start line.now.plan.now))
        a wire.new state.old.recorder state.new.recorder
        share.old.amount share.new.amount result }
    ensures failures { W.failures wire.new ≡ failures_by result (W.failures wire.old) }
    ensures parts { share.new.parts ≡ share.old.parts }
{
    let request = match decode(line.plan.alloc, octets) {
        Ok(request) => request,
        Err(cause) => {
            state
                .recorder
                .record(Item::Refused(InputFault::Datagram(cause)));
            return None;
        }
    };
    let request_id = request.id;
    wire.before(line.rt, line.worker);
    let applied = line.live.request(line.rt, line.plan.alloc, share, request, &mut state.buffer);
    let reply = Delivery::Reply(peer, state.buffer.reply());
    let peers = line.plan.peers.as_slice();
    let bpdus = state.buffer.bpdus();
    let sent = send_outgoing(wire, line.plan.source, peers, reply, bpdus);
    visit_behind(
        line.rt,
        wire,
        line.worker,
        peer,
        request_id,
        audited_of(&applied),
    );
    noted(&mut state.recorder, applied, sent)
}

// The receipt and the audit of the entry that a request made, if it made one.
fn audited_of(applied: &Applied) -> Option<(&Receipt, &Audit)>
    ensures { option_map (λ entry. (entry.0.now, entry.1.now)) result ≡ audited_of applied.now }
{
    match applied {
        Applied::Done(receipt, Some(audit)) => Some((receipt, audit)),
        Applied::Dropped(receipt, _, audit) => Some((receipt, audit)),
        Applied::Done(_, None) | Applied::Short(_) | Applied::HistoryFull(_) => None,
    }
}

// Visits the gate behind a request, with the entry that it made, if it made one.
fn visit_behind<W: GatedWire, R: Wait>(
    rt: &R,
    wire: &mut W,
    worker: usize,
    peer: SocketAddr,
    request_id: i32,
    made: Option<(&Receipt, &Audit)>,
)
    ensures did { W.did wire.old (visits_behind worker peer request_id
        (option_map (λ entry. (entry.0.now, entry.1.now)) made.entry)) wire.new }
    ensures kept { W.failures wire.new ≡ W.failures wire.old }
{
    match made {
        Some((receipt, audit)) => {
            let number = receipt.number;
            let request = AnsweredRequest {
                number,
                peer,
                request_id,
            };
            wire.after(rt, worker, request, audit);
        }
        None => {}
    }
}
