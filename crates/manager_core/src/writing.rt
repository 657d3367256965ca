//! Writes to an output that may fail.
ghost use Rattle.std.specs.Prelude.{◌≡◌, OnOk, IfErr};
ghost use Rattle.std.specs.Io.KnownBytes.{Appends};
ghost use Rattle.manager_core.specs.Runs.{TakesFront};

use crate::run::Failure;
use std::io::{ErrorKind, Write};

/// Writes octets and flushes them. A write that was interrupted is made again.
///
/// # Errors
/// `Output` where a write fails or takes nothing, or the flush fails: a front of the octets is
/// written.
pub(crate) fn write_flushed<O: Write>(octets: &[u8], out: &mut O) -> Result<(), Failure>
    ensures whole { OnOk result (Appends (O.contents out.old) (O.contents out.new) octets.now) }
    ensures front { TakesFront (O.contents out.old) (O.contents out.new) octets.now }
    ensures output { IfErr result (λ failure. failure ≡ Failure.Output) }
{
    write_front(octets, out)?;
    match out.flush() {
        Ok(()) => Ok(()),
        Err(_) => Err(Failure::Output),
    }
}

// Writes octets until all are taken or a write fails; a front of them is written then.
fn write_front<O: Write>(octets: &[u8], out: &mut O) -> Result<(), Failure>
    ensures whole { OnOk result (Appends (O.contents out.old) (O.contents out.new) octets.now) }
    ensures front { TakesFront (O.contents out.old) (O.contents out.new) octets.now }
    ensures output { IfErr result (λ failure. failure ≡ Failure.Output) }
{
    let mut rest = octets;
    for _ in 0..u64::MAX {
        if rest.is_empty() {
            return Ok(());
        }
        match out.write(rest) {
            Ok(0) => return Err(Failure::Output),
            Ok(n) => rest = &rest[n..],
            Err(error) if error.kind() == ErrorKind::Interrupted => {}
            Err(_) => return Err(Failure::Output),
        }
    }
    Err(Failure::Output)
}
