//! The agent that a script drives.
ghost use Rattle.std.specs.Prelude.{◌≡◌, ◌++◌, ◌∷◌, not, List, IsSome, IfOk, IfErr, OnOk, OnErr, Some, None, [], option_map, codes};
ghost use Rattle.frame_core.specs.Reading.{frame_at};
ghost use Rattle.history_core.specs.History.{next_of, last_number};
ghost use Rattle.history_core.specs.Steps.{IsEncodable};
ghost use Rattle.script_core.specs.Runs.{Adds};
ghost use Rattle.agent_script.specs.CommandViews.{command_view};
ghost use Rattle.agent_script.specs.State.{Agent as State, agent_over};
ghost use Rattle.agent_script.specs.Notes.{MayMeetDatagram, MayMeetFrame, MayMeetCommand, MayMeetEnd, MayMeetPolicyLine, MayGiveUpCommand, MayGiveUpPolicyLine, MayGiveUp, IsOut, lacks_memory};
ghost use Rattle.history_core.specs.declared.entry.Entry.{Entry};
ghost use Rattle.agent_script.specs.Actions.{datagram_action, frame_action, command_action, end_action, policy_action};
ghost use Rattle.agent_script.specs.Events.{had_memory};
ghost use Rattle.agent_script.specs.Sessions.{Says, SaysOfLine, SaysOfEvents};
ghost use Rattle.agent_script.specs.Script.{end_text, after_end};

use crate::bridging::{address_of, say_bad_frame, say_bpdus};
use crate::commands::{Command, read_command};
use crate::drops::Drops;
use crate::saying::{cause_name, say_counts, say_drop, say_dropped, say_receipt, say_short};
use agent_core::Buffer;
use frame_core::read_frame;
use history_core::{Applied, Entry, Event, Kept};
use message_core::{DropCause, decode};
use policy_text::policy_in;
use script_core::LineFault;
use setphase_core::MibObject;
use std::alloc::{AllocError, Global};
use std::marker::Model;

/// The agent that a script drives.
pub struct Agent<O: MibObject> {
    kept: Kept<O>,
    buffer: Buffer,
    is_auditing: bool,
    drops: Drops,
    policy_lines: Option<Vec<u8>>,
}

// By hand: who drops one then knows nothing of its parts.
impl<O: MibObject> Drop for Agent<O> {
    fn drop(self) {
        let Agent {
            kept: _kept,
            buffer: _buffer,
            is_auditing: _is_auditing,
            drops: _drops,
            policy_lines: _policy_lines,
        } = self;
    }
}

impl<O: MibObject> Model for Agent<O> {
    ghost Value = { State };

    ghost view = { λ a. record {
      history = a.kept;
      is_auditing = a.is_auditing;
      drops = a.drops;
      policy_lines = option_map (λ v. v.items) a.policy_lines;
    } };
}

impl<O: MibObject> Agent<O> {
    /// An agent that goes on with this history, at the start of a script.
    pub fn new(kept: Kept<O>) -> Agent<O>
        ensures { result ≡ agent_over kept }
    {
        Agent {
            kept,
            buffer: Buffer::new(),
            is_auditing: false,
            drops: Drops::none(),
            policy_lines: None,
        }
    }

    /// Answers a line, and says whether nothing in it was given up for want of memory.
    ///
    /// # Errors
    /// `Memory` where there is none for what the line is or says, `Stopped` where no number is left
    /// for an entry.
    #[tactic(auto, unfolding(crate::specs::Actions::action_of, crate::specs::Notes::MayMeet, crate::specs::Notes::MayGiveUp))]
    pub fn line(&mut self, alloc: Global, line: &[u8], out: &mut Vec<u8>) -> Result<bool, LineFault>
        ensures stated { IfOk result (λ whole. Adds out.old.items out.new.items (λ stated.
            SaysOfLine self.old line.now stated self.new whole)) }
        ensures given_up { IfErr result (MayGiveUp self.old line.now) }
    {
        match self.policy_lines.take() {
            Some(lines) => self.policy_line(alloc, lines, line, out),
            None => {
                let ports = self.kept.world().bridge.ports();
                match read_command(alloc, ports, line) {
                    Ok(command) => self.command(alloc, command, out),
                    Err(_) => Err(LineFault::Memory),
                }
            }
        }
    }

    /// Answers the end of the script: a policy that has not ended is refused. Where none is open
    /// nothing is written, and that takes no memory.
    pub fn end(&mut self, out: &mut Vec<u8>) -> Result<(), AllocError>
        ensures stated { OnOk result (out.new.items ≡ out.old.items ++ end_text self.old) }
        ensures after { OnOk result (self.new ≡ after_end self.old) }
        ensures given_up { OnErr result (IsSome self.old.policy_lines) }
    {
        match self.policy_lines.take() {
            Some(_lines) => out.extend_from_slice(b"policy refused\n"),
            None => Ok(()),
        }
    }

    // One event happens, and its outcome is written.
    fn event(&mut self, alloc: Global, event: Event, out: &mut Vec<u8>) -> Result<bool, LineFault>
        requires { IsEncodable event }
        ensures stated { IfOk result (λ whole. Adds out.old.items out.new.items (λ stated.
            SaysOfEvents event 1 self.old stated self.new whole)) }
        ensures stopped { IfErr result (λ fault. fault ≡ LineFault.Stopped →
            next_of self.old.history ≡ last_number) }
    {
        let address = address_of(&self.kept.world().bridge);
        match self.kept.apply(alloc, event, &mut self.buffer) {
            Applied::Done(receipt, audit) => {
                say_receipt(alloc, self.is_auditing, &receipt, &audit, out)?;
                say_bpdus(address, self.buffer.bpdus(), out)?;
                Ok(has_space(self.kept.entries()))
            }
            Applied::Dropped(_, cause, audit) => {
                say_dropped(alloc, self.is_auditing, &cause, &audit, out)?;
                Ok(has_space(self.kept.entries()))
            }
            Applied::Short(_) => {
                say_short(self.buffer.reply(), out)?;
                Ok(false)
            }
            Applied::HistoryFull(_) => Err(LineFault::Stopped),
        }
    }

    // So many seconds pass, one after another.
    fn ticks(&mut self, alloc: Global, seconds: u32, out: &mut Vec<u8>) -> Result<bool, LineFault>
        ensures stated { IfOk result (λ whole. Adds out.old.items out.new.items (λ stated.
            SaysOfEvents Event.Tick seconds self.old stated self.new whole)) }
        ensures stopped { IfErr result (λ fault. fault ≡ LineFault.Stopped →
            IsOut self.old.history seconds) }
    {
        let mut whole = true;
        for i in 0..seconds {
            match self.event(alloc, Event::Tick, out) {
                Ok(is_full) => whole = whole && is_full,
                Err(fault) => return Err(fault),
            }
        }
        Ok(whole)
    }

    // Answers a command, or a line that is none.
    fn command(
        &mut self,
        alloc: Global,
        command: Option<Command>,
        out: &mut Vec<u8>,
    ) -> Result<bool, LineFault>
        requires outside { self.old.policy_lines ≡ None }
        ensures stated { IfOk result (λ whole. Adds out.old.items out.new.items (λ stated.
            Says (MayMeetCommand self.old.history (option_map command_view command))
            (command_action (option_map command_view command)) self.old stated self.new whole)) }
        ensures given_up { IfErr result
            (MayGiveUpCommand self.old.history (option_map command_view command)) }
    {
        match command {
            None => {
                out.extend_from_slice(b"badline\n")?;
                Ok(true)
            }
            Some(Command::Request(datagram)) => self.datagram(alloc, &datagram, out),
            Some(Command::Frame(port, octets)) => self.frame(alloc, port, &octets, out),
            Some(Command::Tick(seconds)) => self.ticks(alloc, seconds, out),
            Some(Command::Link(port, up)) => self.event(alloc, Event::Link { port, up }, out),
            Some(Command::Policy) => {
                self.policy_lines = Some(Vec::new(alloc));
                Ok(true)
            }
            Some(Command::Audit(on)) => {
                self.is_auditing = on;
                Ok(true)
            }
            Some(Command::Counts) => {
                say_counts(&self.drops, self.kept.world(), out)?;
                Ok(true)
            }
            Some(Command::Driver(plan)) => {
                self.kept.arm(plan);
                Ok(true)
            }
        }
    }

    // Answers a datagram.
    fn datagram(
        &mut self,
        alloc: Global,
        datagram: &[u8],
        out: &mut Vec<u8>,
    ) -> Result<bool, LineFault>
        ensures stated { IfOk result (λ whole. Adds out.old.items out.new.items (λ stated.
            Says (MayMeetDatagram self.old.history datagram.now) (datagram_action datagram.now)
            self.old stated self.new whole)) }
        ensures stopped { IfErr result (λ fault. fault ≡ LineFault.Stopped →
            IsOut self.old.history 1) }
    {
        match decode(alloc, datagram) {
            Ok(request) => self.event(alloc, Event::Request(request), out),
            Err(cause) => {
                self.drops.count(cause);
                say_drop(cause_name(cause), out)?;
                Ok(!is_memory(cause))
            }
        }
    }

    // Answers a frame's octets at a port.
    fn frame(
        &mut self,
        alloc: Global,
        port: u16,
        octets: &[u8],
        out: &mut Vec<u8>,
    ) -> Result<bool, LineFault>
        ensures stated { IfOk result (λ whole. Adds out.old.items out.new.items (λ stated.
            Says (MayMeetFrame self.old.history port (frame_at octets.now))
            (frame_action port (frame_at octets.now)) self.old stated self.new whole)) }
        ensures stopped { IfErr result (λ fault. fault ≡ LineFault.Stopped →
            IsOut self.old.history 1) }
    {
        match read_frame(octets) {
            Ok(frame) => self.event(alloc, Event::Frame { port, frame }, out),
            Err(fault) => {
                say_bad_frame(fault, out)?;
                Ok(true)
            }
        }
    }

    // Takes a line of a policy behind these lines, or its end.
    fn policy_line(
        &mut self,
        alloc: Global,
        mut lines: Vec<u8>,
        line: &[u8],
        out: &mut Vec<u8>,
    ) -> Result<bool, LineFault>
        requires { self.old.policy_lines ≡ None }
        ensures stated { IfOk result (λ whole. Adds out.old.items out.new.items (λ stated.
            Says (MayMeetPolicyLine self.old.history lines.items line.now)
            (policy_action lines.items line.now) self.old stated self.new whole)) }
        ensures given_up { IfErr result (MayGiveUpPolicyLine self.old.history) }
    {
        if line == b"end".as_slice() {
            return self.end_policy(alloc, &lines, out);
        }
        keep_line(&mut lines, line)?;
        self.policy_lines = Some(lines);
        Ok(true)
    }

    // Takes the end of a policy. Lines that are no text, or a blank one, are no policy, and take no
    // memory.
    fn end_policy(
        &mut self,
        alloc: Global,
        lines: &[u8],
        out: &mut Vec<u8>,
    ) -> Result<bool, LineFault>
        requires { self.old.policy_lines ≡ None }
        ensures stated { IfOk result (λ whole. Adds out.old.items out.new.items (λ stated.
            Says (MayMeetEnd self.old.history lines.now) (end_action lines.now)
            self.old stated self.new whole)) }
        ensures given_up { IfErr result (MayGiveUpPolicyLine self.old.history) }
    {
        match policy_in(alloc, lines) {
            Ok(Some(policy)) => self.event(alloc, Event::Policy(policy), out),
            Ok(None) => {
                out.extend_from_slice(b"policy refused\n")?;
                Ok(true)
            }
            Err(_) => {
                out.extend_from_slice(b"policy refused\n")?;
                Ok(false)
            }
        }
    }
}

// Appends a line and its end.
fn keep_line(lines: &mut Vec<u8>, line: &[u8]) -> Result<(), AllocError>
    ensures { OnOk result (lines.new.items ≡ lines.old.items ++ line.now ++ codes "\n") }
{
    lines.extend_from_slice(line)?;
    lines.push(b'\n')?;
    Ok(())
}

// Whether the event that was entered last found memory for the learned row of a frame's source, and
// for each name that was made.
fn has_space(entries: &[Entry]) -> bool
    ensures { (before : List Entry) (last : Entry) → entries.now ≡ before ++ last ∷ [] →
        result ≡ had_memory last.no_room last.unnamed }
{
    match entries.last() {
        Some(entry) => !entry.no_room && entry.unnamed.is_none(),
        None => true,
    }
}

// Whether a datagram gave no request for want of memory.
fn is_memory(cause: DropCause) -> bool
    ensures { result ≡ lacks_memory cause }
{
    match cause {
        DropCause::Memory => true,
        DropCause::TooLong | DropCause::Malformed | DropCause::BadVersion | DropCause::BadKind =>
            false,
    }
}
