//! The line of the control socket.
ghost use Rattle.std.specs.Prelude.{◌≡◌, ◌<◌, ◌∷◌, [], length, IfOk};
ghost use Rattle.wire_core.specs.Acts.{got};
ghost use Rattle.live_agent.specs.Lines.{run_start_of};
ghost use Rattle.live_control.specs.Deeds.{controlled};
ghost use Rattle.control_text.specs.Answers.{counts_line};
ghost use Rattle.live_control.specs.Lines.{IsControlTurn, HasControlled, HasFinished, command_space, counts_of};
ghost use Rattle.live_control.specs.Runs.{HasTurned};
ghost use Rattle.live_control.specs.Turns.{deeds_of, item_of};

use crate::control_wire::ControlWire;
use crate::item::ControlItem;
use crate::recorder::ControlRecorder;
use crate::replying::{answer_to, end_after, end_by_reply, item_of, send_text};
use crate::tally::{DropCounts, DropTally};
use agent_core::Buffer;
use control_text::{Command, MAX_COMMAND, read_command, say_counts, say_refusal};
use history_core::Applied;
use live_agent::{End, Plan};
use live_lock::{Counts, Live, Run, Share};
use live_sending::{Delivery, send_outgoing};
use setphase_core::MibObject;
use std::alloc::{AllocError, Global};
use std::net::SocketAddr;
use std::sync::Wait;
use wire_core::Received;

/// The octets of a command's slice: one more than it has at most, so that a longer one is seen.
pub const COMMAND_SPACE: usize = MAX_COMMAND + 1;

// What the line works with: a buffer for what one event gives to send, and what records its items.
#[derive(Drop)]
struct ControlState<K> {
    buffer: Buffer,
    recorder: K,
}

/// The line of the control socket: so many commands or waits without one, or until its wire is closed or
/// a wire fails, no number is left for an entry, or there is no memory for the next item or for an
/// answer: each command behind which the line goes on was answered. Each command is one datagram of the
/// control wire: a link or a policy is entered in the history, what the ports then send goes to their
/// peers, and the answer over the control wire; the counts are answered; any other is refused, and
/// answered why. Gives how the line ended, and what recorded it.
pub fn control_run<O: MibObject, L: Run, W: ControlWire, K: ControlRecorder, D: DropTally, R: Wait>(
    rt: &R,
    plan: &Plan,
    ports: u16,
    tally: &D,
    live: &Live<O, L>,
    share: &mut Share<L>,
    wire: &mut W,
    space: &mut [u8],
    recorder: K,
) -> (End, K)
    requires part { 0 < share.old.parts }
    requires space { length space.old ≡ command_space }
    ensures run { HasControlled W.did K.went (D.reports tally.now) (run_start_of L.start plan.now) ports
        plan.now.rounds wire.old wire.new recorder result.1 share.old.amount share.new.amount
        result.0 }
    ensures parts { share.new.parts ≡ share.old.parts }
{
    let mut state = ControlState {
        buffer: Buffer::new(),
        recorder,
    };
    let end = go_round(rt, plan, ports, tally, live, share, wire, space, &mut state);
    let ControlState { recorder, .. } = state;
    (end, recorder)
}

// The rounds of the line, behind what was recorded before.
fn go_round<O: MibObject, L: Run, W: ControlWire, K: ControlRecorder, D: DropTally, R: Wait>(
    rt: &R,
    plan: &Plan,
    ports: u16,
    tally: &D,
    live: &Live<O, L>,
    share: &mut Share<L>,
    wire: &mut W,
    space: &mut [u8],
    state: &mut ControlState<K>,
) -> End
    requires part { 0 < share.old.parts }
    requires space { length space.old ≡ command_space }
    ensures run { HasControlled W.did K.went (D.reports tally.now) (run_start_of L.start plan.now) ports
        plan.now.rounds wire.old wire.new state.old.recorder state.new.recorder
        share.old.amount share.new.amount result }
    ensures parts { share.new.parts ≡ share.old.parts }
{
    for _i in 0..plan.rounds {
        if state.recorder.reserve().is_err() {
            return End::Memory;
        }
        if let Some(end) = control_turn(rt, plan, ports, tally, live, share, wire, space, state) {
            return end;
        }
    }
    End::Rounds
}

// One turn of the line, with memory for its item.
fn control_turn<O: MibObject, L: Run, W: ControlWire, K: ControlRecorder, D: DropTally, R: Wait>(
    rt: &R,
    plan: &Plan,
    ports: u16,
    tally: &D,
    live: &Live<O, L>,
    share: &mut Share<L>,
    wire: &mut W,
    space: &mut [u8],
    state: &mut ControlState<K>,
) -> Option<End>
    requires part { 0 < share.old.parts }
    requires space { length space.old ≡ command_space }
    requires memory { K.has_space state.old.recorder }
    ensures turn { HasTurned W.did K.went deeds_of
        (IsControlTurn (D.reports tally.now) (run_start_of L.start plan.now) ports)
        wire.old wire.new state.old.recorder state.new.recorder
        share.old.amount share.new.amount result }
    ensures parts { share.new.parts ≡ share.old.parts }
{
    match wire.take(space) {
        Err(fault) => Some(End::Wire(fault)),
        Ok(Received::Nothing) => None,
        Ok(Received::Closed) => Some(End::Closed),
        Ok(Received::Datagram(len, peer)) => {
            let octets = &space[..len];
            take_command(
                rt, plan, ports, tally, live, share, wire, state, peer, octets,
            )
        }
    }
}

// A command came, with memory for its item.
fn take_command<O: MibObject, L: Run, W: ControlWire, K: ControlRecorder, D: DropTally, R: Wait>(
    rt: &R,
    plan: &Plan,
    ports: u16,
    tally: &D,
    live: &Live<O, L>,
    share: &mut Share<L>,
    wire: &mut W,
    state: &mut ControlState<K>,
    peer: SocketAddr,
    octets: &[u8],
) -> Option<End>
    requires part { 0 < share.old.parts }
    requires memory { K.has_space state.old.recorder }
    ensures turn { (a : W) → W.did a (controlled (got command_space peer octets.now) ∷ []) wire.old →
        HasTurned W.did K.went deeds_of
        (IsControlTurn (D.reports tally.now) (run_start_of L.start plan.now) ports) a wire.new
        state.old.recorder state.new.recorder share.old.amount share.new.amount result }
    ensures parts { share.new.parts ≡ share.old.parts }
{
    match read_command(plan.alloc, ports, octets) {
        Err(refusal) => {
            let answered = Some(wire.answer(peer, say_refusal(refusal)));
            state.recorder.record(ControlItem::Refused(refusal));
            end_by_reply(answered)
        }
        Ok(Command::Counts) => {
            let world = live.counts(rt, share);
            let text = counts_text(plan.alloc, &tally.dropped(rt), &world);
            let answered = send_text(wire, peer, &text);
            state.recorder.record(ControlItem::Reported);
            end_by_reply(answered)
        }
        Ok(Command::Link(port, up)) => {
            let applied = live.link(rt, plan.alloc, share, port, up, &mut state.buffer);
            finish(plan, wire, state, peer, b"", applied)
        }
        Ok(Command::Policy(policy)) => {
            let applied = live.policy(rt, plan.alloc, share, policy, &mut state.buffer);
            finish(plan, wire, state, peer, b"policy ok\n", applied)
        }
    }
}

// The line of the counts.
fn counts_text(alloc: Global, dropped: &DropCounts, world: &Counts) -> Result<Vec<u8>, AllocError>
    ensures { IfOk result (λ text. text.items ≡ counts_line (counts_of dropped.now world.now)) }
{
    let counts = [
        dropped.too_long,
        dropped.malformed,
        dropped.bad_version,
        dropped.bad_kind,
        dropped.memory,
        world.bad_communities,
        world.unknown_contexts,
    ];
    let mut text = Vec::new(alloc);
    say_counts(&counts, &mut text)?;
    Ok(text)
}

// Sends what the ports send of an event, and its answer behind these octets, and records it.
fn finish<W: ControlWire, K: ControlRecorder>(
    plan: &Plan,
    wire: &mut W,
    state: &mut ControlState<K>,
    peer: SocketAddr,
    first: &[u8],
    applied: Applied,
) -> Option<End>
    requires { K.has_space state.old.recorder }
    ensures finished { HasFinished W.did plan.now.source plan.now.peers.items peer first.now applied
        state.old.buffer.bpdus wire.old wire.new result }
    ensures recorded { K.went state.old.recorder (item_of applied ∷ []) state.new.recorder }
{
    let peers = plan.peers.as_slice();
    let bpdus = state.buffer.bpdus();
    let sent = send_outgoing(wire, plan.source, peers, Delivery::Nothing, bpdus);
    let text = answer_to(plan.alloc, plan.source, first, &applied, bpdus);
    let answered = send_text(wire, peer, &text);
    let ends = end_after(&applied, sent, answered);
    state.recorder.record(item_of(applied));
    ends
}
