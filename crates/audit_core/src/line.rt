//! The line of an audit.
ghost use Rattle.std.specs.Prelude.{◌≡◌, [], ◌∷◌, ◌++◌, OnOk, OnErr};
ghost use Rattle.std.specs.Io.KnownBytes.{Appends};
ghost use Rattle.audit_core.specs.Text.{audit_text};

use crate::audit::Audit;
use std::alloc::{AllocError, Global};
use std::io;

/// Writes the line of an audit, which ends with a line feed. For an agent that serves a network and
/// writes its audits to a stream; a script adds its lines in memory, by [`write_audit`].
///
/// # Errors
///
/// That of the writer. Then a part of the line may be written, and no clause speaks of what the
/// writer holds: what is written through [`io::Write`] by parts says nothing of itself where it
/// fails. [`write_audit`] adds all or nothing.
pub fn audit_line<W: io::Write>(audit: &Audit, writer: &mut W) -> io::Result<()>
    ensures { OnOk result (Appends (W.contents writer.old) (W.contents writer.new)
        (audit_text audit.now ++ 10 ∷ [])) }
{
    writeln!(writer, "{audit}")
}

/// Adds the line of an audit, which ends with a line feed, to octets in memory: all of it or
/// nothing.
///
/// # Errors
///
/// There is no memory for it; then nothing changes.
pub fn write_audit(alloc: Global, audit: &Audit, out: &mut Vec<u8>) -> Result<(), AllocError>
    ensures ok { OnOk result (out.new.items ≡ out.old.items ++ audit_text audit.now ++ 10 ∷ []) }
    ensures err { OnErr result (out.new.items ≡ out.old.items) }
{
    let line = format!(in alloc; "{audit}\n")?;
    out.extend_from_slice(line.as_bytes())?;
    Ok(())
}
