//! Writes to a writer that may fail.
ghost use Rattle.std.specs.Prelude.{OnOk};
ghost use Rattle.std.specs.Io.KnownBytes.{Appends};
ghost use Rattle.agent_program.specs.Endings.{TakesFront};

use std::io::{ErrorKind, Write};

/// A writer did not take all that it was given.
#[derive(Clone, Copy, Debug, PartialEq, Eq)]
pub struct NotTaken;

/// Writes octets until all are taken or a write fails; a front of them is written then.
///
/// # Errors
/// `NotTaken` where a write fails or takes nothing.
pub fn write_front<W: Write>(writer: &mut W, octets: &[u8]) -> Result<(), NotTaken>
    ensures whole { OnOk result (Appends (W.contents writer.old)
        (W.contents writer.new) octets.now) }
    ensures front { TakesFront (W.contents writer.old) (W.contents writer.new) octets.now }
{
    let mut rest = octets;
    for _ in 0..u64::MAX {
        if rest.is_empty() {
            return Ok(());
        }
        match writer.write(rest) {
            Ok(0) => return Err(NotTaken),
            Ok(n) => rest = &rest[n..],
            Err(error) if error.kind() == ErrorKind::Interrupted => {}
            Err(_) => return Err(NotTaken),
        }
    }
    Err(NotTaken)
}
