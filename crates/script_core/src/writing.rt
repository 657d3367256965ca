//! Writes octets, and answers which were taken where a write fails.
ghost use Rattle.std.specs.Prelude.{◌≡◌, ◌<◌, ◌++◌, length, IfOk, IfErr, OnOk, OnErr};
ghost use Rattle.std.specs.Io.KnownBytes.{Appends, Keeps};
ghost use Rattle.script_core.specs.Runs.{Writes, IsFrontOf};

use crate::fault::RunFault;
use std::io::{ErrorKind, Write};

// Writes a front of some octets, and gives the others: all of them where the write was interrupted.
fn write_some<'a, W: Write>(octets: &'a [u8], writer: &mut W) -> Result<&'a [u8], RunFault>
    ensures took { IfOk result (λ rest.
        Writes (W.contents writer.old) (W.contents writer.new) (λ text.
        octets.now ≡ text ++ rest.now)) }
    ensures kept { OnErr result (Keeps (W.contents writer.old) (W.contents writer.new)) }
    ensures output { IfErr result (λ e. e ≡ RunFault.Output) }
{
    match writer.write(octets) {
        Ok(0) => Err(RunFault::Output),
        Ok(n) => Ok(&octets[n..]),
        Err(error) if error.kind() == ErrorKind::Interrupted => Ok(octets),
        Err(_) => Err(RunFault::Output),
    }
}

/// Writes all of some octets, at least one, and flushes them. A write that was interrupted is made
/// again.
///
/// # Errors
/// `Output` where a write fails, takes nothing, or the flush fails: a front of the octets is
/// written.
pub fn write_octets<W: Write>(octets: &[u8], writer: &mut W) -> Result<(), RunFault>
    requires { 0 < length octets.now }
    ensures written { OnOk result (Appends (W.contents writer.old)
        (W.contents writer.new) octets.now) }
    ensures front { OnErr result (Writes (W.contents writer.old) (W.contents writer.new) (λ text.
        IsFrontOf (λ whole. whole ≡ octets.now) text)) }
    ensures output { IfErr result (λ e. e ≡ RunFault.Output) }
{
    let mut rest = octets;
    for _ in 0..u64::MAX {
        if rest.is_empty() {
            return flush(writer);
        }
        rest = write_some(rest, writer)?;
    }
    Err(RunFault::Output)
}

// Flushes what was written.
fn flush<W: Write>(writer: &mut W) -> Result<(), RunFault>
    ensures kept { Keeps (W.contents writer.old) (W.contents writer.new) }
    ensures output { IfErr result (λ e. e ≡ RunFault.Output) }
{
    match writer.flush() {
        Ok(()) => Ok(()),
        Err(_) => Err(RunFault::Output),
    }
}
