//! Reports whether octets are a configuration, and whether it can be served.
ghost use Rattle.std.specs.Prelude.{◌≡◌, IfOk, string_bytes};
ghost use Rattle.agent_program.specs.Reporting.{ok_text, IsRightText, IsConfigurationReported, IsFaultText, IsFaultReported, IsChecked, IsFileChecked};
ghost use Rattle.agent_program.specs.Files.{read_view};

use crate::failure::{Failure, write_out};
use crate::files::NotRead;
use crate::warned::warned_text;
use configuration::{
    Configuration, ConfigurationFault, configuration_in, sentence_in, warnings_of,
};
use std::alloc::{AllocError, Global};
use std::io::Write;
use udp_agent::{Unserved, setup_of};

// What is stated of a configuration: by each a script can run.
const SERVED_TEXT: &[u8] = b"configuration ok for script and serve\n";

const NO_SERVE_TEXT: &[u8] = b"configuration ok for script, not for serve: no [serve]\n";

const NO_SOCKETS_TEXT: &[u8] =
    b"configuration ok for script, not for serve: a port without listen or peer\n";

/// What is stated of a configuration that cannot be served for this reason, or can be.
pub(crate) fn ok_text(why: Option<Unserved>) -> &'static [u8]
    ensures { result.now ≡ ok_text why }
{
    match why {
        None => SERVED_TEXT,
        Some(Unserved::NoServe) => NO_SERVE_TEXT,
        Some(Unserved::NoSockets) => NO_SOCKETS_TEXT,
    }
}

// What is stated of a fault of octets, as a line.
fn fault_text(alloc: Global, octets: &[u8], fault: ConfigurationFault) -> Result<String, AllocError>
    ensures { IfOk result (λ text. IsFaultText octets.now fault (string_bytes text)) }
{
    let mut text = sentence_in(alloc, octets, fault)?;
    text.push_str("\n")?;
    Ok(text)
}

/// Reports a fault of octets, and gives the failure that comes of it.
pub(crate) fn report_fault<'a, O: Write>(
    alloc: Global,
    octets: &[u8],
    fault: ConfigurationFault,
    writer: &mut O,
) -> Failure<'a>
    ensures { IsFaultReported O.contents octets.now fault writer.old writer.new result }
{
    match fault_text(alloc, octets, fault) {
        Ok(text) => match write_out(text.as_bytes(), writer) {
            Ok(()) => Failure::Refused,
            Err(failure) => failure,
        },
        Err(_) => Failure::Run,
    }
}

// What is stated of a configuration: whether it can be served, or why not, and behind that its warnings.
fn right_text(alloc: Global, configuration: &Configuration) -> Result<Vec<u8>, AllocError>
    ensures { IfOk result (λ text. IsRightText configuration.now text.items) }
{
    let setup = setup_of(
        configuration.address,
        &configuration.ports,
        configuration.serve,
    );
    let warnings = warnings_of(alloc, configuration)?;
    warned_text(alloc, ok_text(setup.err()), warnings.as_slice())
}

// Reports a configuration, or that there was no memory for its warnings.
fn report_right<'a, O: Write>(
    alloc: Global,
    configuration: &Configuration,
    writer: &mut O,
) -> Result<(), Failure<'a>>
    ensures { IsConfigurationReported O.contents configuration.now writer.old writer.new result }
{
    match right_text(alloc, configuration) {
        Ok(text) => write_out(&text, writer),
        Err(_) => Err(Failure::Run),
    }
}

/// Reports whether octets are a configuration: `configuration ok for script`, with whether it can be
/// served, or why not, and behind that a line for each of its warnings; or its first fault in one
/// sentence.
///
/// # Errors
/// `Refused` where they are none, or where there is no memory to read them, and the sentence is
/// written; `Output` where a write fails; `Run`, with nothing written, where there is no memory for
/// the sentence or for the warnings.
pub fn check_octets<'a, O: Write>(
    alloc: Global,
    octets: &[u8],
    writer: &mut O,
) -> Result<(), Failure<'a>>
    ensures { IsChecked O.contents octets.now writer.old writer.new result }
{
    match configuration_in(alloc, octets) {
        Ok(configuration) => report_right(alloc, &configuration, writer),
        Err(fault) => Err(report_fault(alloc, octets, fault, writer)),
    }
}

/// Reports whether what was read of a file is a configuration, as [`check_octets`] does; where there
/// was no memory for its octets, that sentence.
///
/// # Errors
/// As [`check_octets`] has them; with nothing written `CannotRead`, where the file cannot be read, and
/// `TooLarge`, where it has too many octets.
pub fn check_read<'a, O: Write>(
    alloc: Global,
    read: Result<Vec<u8>, NotRead<'a>>,
    writer: &mut O,
) -> Result<(), Failure<'a>>
    ensures { IsFileChecked O.contents (read_view read.entry) writer.old writer.new result }
{
    match read {
        Ok(octets) => check_octets(alloc, &octets, writer),
        Err(NotRead::Memory(_)) => {
            Err(report_fault(alloc, &[], ConfigurationFault::Memory, writer))
        }
        Err(NotRead::Unreadable(file, reason)) => Err(Failure::CannotRead(file, reason)),
        Err(NotRead::TooLarge(file, limit)) => Err(Failure::TooLarge(file, limit)),
    }
}
