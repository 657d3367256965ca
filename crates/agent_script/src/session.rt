//! Runs a script over what managed objects show of a world.
ghost use Rattle.std.specs.Prelude.{◌≡◌, if◌then◌else◌};
ghost use Rattle.agent_script.specs.State.{agent_over, opening_agent};
ghost use Rattle.agent_script.specs.Runs.{IsScriptRun};
ghost use Rattle.agent_script.specs.Sessions.{Session as State, SaysToLine, SaysAtEnd, GivesUpLine, GivesUpEnd};

use crate::agent::Agent;
use history_core::Kept;
use script_core::{LineFault, MAX_READS, RunFault, Session};
use setphase_core::{MibObject, Registry, World};
use std::alloc::Global;
use std::io::{Read, Write};
use std::marker::Model;

/// How a run over a whole script went.
#[derive(Clone, Copy, Debug, PartialEq, Eq)]
pub enum ScriptEnd {
    /// Each line was answered in full.
    Whole,
    /// Some line met want of memory, and was answered so: by `drop Memory`, by `policy refused`, by
    /// `short`, by the reply for a want of memory, or by a `forward` whose source found none to be
    /// learned.
    Short,
}

// The agent as it answers lines.
struct AgentSession<O: MibObject> {
    alloc: Global,
    agent: Agent<O>,
    is_whole: bool,
}

// By hand: who drops one then knows nothing of its parts.
impl<O: MibObject> Drop for AgentSession<O> {
    fn drop(self) {
        let AgentSession {
            alloc: _alloc,
            agent: _agent,
            is_whole: _is_whole,
        } = self;
    }
}

impl<O: MibObject> Model for AgentSession<O> {
    ghost Value = { State };

    ghost view = { λ s. record { agent = s.agent; is_whole = s.is_whole } };
}

impl<O: MibObject> Session for AgentSession<O> {
    ghost line_says = { SaysToLine };

    ghost end_says = { SaysAtEnd };

    ghost may_give_up_line = { GivesUpLine };

    ghost may_give_up_end = { GivesUpEnd };

    fn line(&mut self, line: &[u8], out: &mut Vec<u8>) -> Result<(), LineFault> {
        let whole = self.agent.line(self.alloc, line, out)?;
        self.is_whole = self.is_whole && whole;
        Ok(())
    }

    fn end(&mut self, out: &mut Vec<u8>) -> Result<(), LineFault> {
        self.agent.end(out)?;
        Ok(())
    }
}

/// Reads a script to its end, and writes what the agent says to each line over what these objects
/// show of this world. Each event is one entry of a history that begins with it.
///
/// # Errors
/// `Memory` too where there is none for what is kept of a history: nothing is read or written then.
/// All others as [`run_kept`] has them.
pub fn run_script<O: MibObject, R: Read, W: Write>(
    alloc: Global,
    registry: Registry<O>,
    world: World,
    reader: &mut R,
    writer: &mut W,
) -> Result<ScriptEnd, RunFault>
    ensures { IsScriptRun R.remaining W.contents (opening_agent registry world)
        reader.old reader.new writer.old writer.new result }
{
    let Ok(kept) = Kept::new(alloc, registry, world) else {
        return Err(RunFault::Memory);
    };
    run_kept(alloc, kept, reader, writer)
}

/// Reads a script to its end, and writes what the agent says to each line: each event of a line is
/// one entry more of this history.
///
/// # Errors
/// `Input` where a read fails or the input has not ended after
/// [`MAX_READS`](script_core::MAX_READS) of them: each line that had ended is answered. `Memory`
/// where there is none for a line, for the lines of a policy or for what is written: where a line is
/// given up, each line before it is answered, and it was read, in part at least; where the end of
/// the script is given up, the input was read to its end, all its lines are answered, a policy is
/// open after them, and `policy refused` is not written. `Stopped` where no number is left for an
/// entry: each line before it is answered. `Output` where a write fails or takes
/// nothing: a front of the text is written.
pub fn run_kept<O: MibObject, R: Read, W: Write>(
    alloc: Global,
    kept: Kept<O>,
    reader: &mut R,
    writer: &mut W,
) -> Result<ScriptEnd, RunFault>
    ensures { IsScriptRun R.remaining W.contents (agent_over kept)
        reader.old reader.new writer.old writer.new result }
{
    let mut session = AgentSession {
        alloc,
        agent: Agent::new(kept),
        is_whole: true,
    };
    match script_core::run_script(alloc, MAX_READS, &mut session, reader, writer) {
        Ok(()) => Ok(session.run()),
        Err(fault) => Err(fault),
    }
}

impl<O: MibObject> AgentSession<O> {
    // How the run went.
    fn run(&self) -> ScriptEnd
        ensures { result ≡ (if self.now.is_whole then ScriptEnd.Whole else ScriptEnd.Short) }
    {
        if self.is_whole {
            ScriptEnd::Whole
        } else {
            ScriptEnd::Short
        }
    }
}
