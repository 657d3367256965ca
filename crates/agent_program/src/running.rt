//! Runs a script by the octets of a configuration.
ghost use Rattle.std.specs.Prelude.{map};
ghost use Rattle.agent_script.specs.State.{opening_agent};
ghost use Rattle.agent_program.specs.Runs.{IsRunOver, IsRunBy};

use crate::opening::{NotRun, open, registry_of};
use agent_script::{ScriptEnd, run_script};
use setphase_core::{MibObject, Registry, World};
use std::alloc::Global;
use std::io::{Read, Write};

// Runs a script over what these objects show of a world.
fn run_opened<M: MibObject, I: Read, O: Write>(
    alloc: Global,
    registry: Registry<M>,
    world: World,
    reader: &mut I,
    writer: &mut O,
) -> Result<ScriptEnd, NotRun>
    ensures { IsRunOver I.remaining O.contents (opening_agent registry world)
        reader.old reader.new writer.old writer.new result }
{
    match run_script(alloc, registry, world, reader, writer) {
        Ok(run) => Ok(run),
        Err(fault) => Err(NotRun::Stopped(fault)),
    }
}

/// Runs the script that `reader` gives by the configuration that octets say, and writes what its
/// agent says to `writer`: requests are answered by what these objects show of the running bridge.
/// The policy, the address and the ports are the configuration's own.
///
/// # Errors
/// `Refused`, with their first fault, only where the octets say no configuration, `Memory` only where
/// they are a text of more than white space and comments, and `NoRegistry` only where the objects make
/// no registry:
/// then nothing is read or written. `Stopped` as [`run_script`] has it.
pub fn run_octets<M: MibObject, I: Read, O: Write>(
    alloc: Global,
    objects: Vec<M>,
    octets: &[u8],
    reader: &mut I,
    writer: &mut O,
) -> Result<ScriptEnd, NotRun>
    ensures { IsRunBy I.remaining O.contents (map M.state objects.items) octets.now
        reader.old reader.new writer.old writer.new result }
{
    let world = match open(alloc, octets) {
        Ok(world) => world,
        Err(why) => return Err(why),
    };
    match registry_of(objects) {
        Ok(registry) => run_opened(alloc, registry, world, reader, writer),
        Err(why) => Err(why),
    }
}
