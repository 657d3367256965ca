//! Reports whether octets say a policy.
ghost use Rattle.std.specs.Prelude.{◌≡◌, IfOk, string_bytes};
ghost use Rattle.agent_program.specs.Files.{read_view};
ghost use Rattle.agent_program.specs.Reporting.{policy_text, IsPolicyWritten, IsPolicyFaultText, IsPolicyFaultReported, IsPolicyChecked, IsPolicyFileChecked};

use crate::failure::{Failure, write_out};
use crate::files::NotRead;
use crate::warned::warned_text;
use community_core::Policy;
use configuration::{ConfigurationFault, policy_file_in, policy_sentence_in, policy_warnings};
use std::alloc::{AllocError, Global};
use std::io::Write;

// What is stated of a policy: a served agent may be given it.
const POLICY_TEXT: &[u8] = b"policy ok for tell and explain\n";

// What is stated of a policy: that it is right, and behind that its warnings.
fn policy_text(alloc: Global, policy: &Policy) -> Result<Vec<u8>, AllocError>
    ensures { IfOk result (λ text. text.items ≡ policy_text policy.now) }
{
    let warnings = policy_warnings(alloc, policy)?;
    warned_text(alloc, POLICY_TEXT, warnings.as_slice())
}

// Reports a policy, or that there was no memory for its warnings.
fn report_policy<'a, O: Write>(
    alloc: Global,
    policy: &Policy,
    writer: &mut O,
) -> Result<(), Failure<'a>>
    ensures { IsPolicyWritten O.contents policy.now writer.old writer.new result }
{
    match policy_text(alloc, policy) {
        Ok(text) => write_out(&text, writer),
        Err(_) => Err(Failure::Run),
    }
}

// What is stated of a fault of the octets of a policy's file, as a line.
fn policy_fault_text(
    alloc: Global,
    octets: &[u8],
    fault: ConfigurationFault,
) -> Result<String, AllocError>
    ensures { IfOk result (λ text. IsPolicyFaultText octets.now fault (string_bytes text)) }
{
    let mut text = policy_sentence_in(alloc, octets, fault)?;
    text.push_str("\n")?;
    Ok(text)
}

// Reports a fault of the octets of a policy's file, and gives the failure that comes of it.
fn report_policy_fault<'a, O: Write>(
    alloc: Global,
    octets: &[u8],
    fault: ConfigurationFault,
    writer: &mut O,
) -> Failure<'a>
    ensures { IsPolicyFaultReported O.contents octets.now fault writer.old writer.new result }
{
    match policy_fault_text(alloc, octets, fault) {
        Ok(text) => match write_out(text.as_bytes(), writer) {
            Ok(()) => Failure::PolicyRefused,
            Err(failure) => failure,
        },
        Err(_) => Failure::Run,
    }
}

/// Reports whether octets of a policy's file say a policy, alone or as part of a configuration: `policy ok`,
/// and behind that a line for each of its warnings; or their first fault in one sentence.
///
/// # Errors
/// `PolicyRefused` where they say none, or where there is no memory to read them, and the sentence is
/// written; `Output` where a write fails; `Run`, with nothing written, where there is no memory for
/// the sentence or for the warnings.
pub fn check_policy<'a, O: Write>(
    alloc: Global,
    octets: &[u8],
    writer: &mut O,
) -> Result<(), Failure<'a>>
    ensures { IsPolicyChecked O.contents octets.now writer.old writer.new result }
{
    match policy_file_in(alloc, octets) {
        Ok(policy) => report_policy(alloc, &policy, writer),
        Err(fault) => Err(report_policy_fault(alloc, octets, fault, writer)),
    }
}

/// Reports whether what was read of a file says a policy, as [`check_policy`] does; where there was no memory
/// for its octets, that sentence.
///
/// # Errors
/// As [`check_policy`] has them; with nothing written `CannotRead`, where the file cannot be read, and
/// `TooLarge`, where it has more octets than a policy may have.
pub fn check_policy_read<'a, O: Write>(
    alloc: Global,
    read: Result<Vec<u8>, NotRead<'a>>,
    writer: &mut O,
) -> Result<(), Failure<'a>>
    ensures { IsPolicyFileChecked O.contents (read_view read.entry) writer.old writer.new result }
{
    match read {
        Ok(octets) => check_policy(alloc, &octets, writer),
        Err(NotRead::Memory(_)) => {
            Err(report_policy_fault(alloc, &[], ConfigurationFault::Memory, writer))
        }
        Err(NotRead::Unreadable(file, reason)) => Err(Failure::CannotRead(file, reason)),
        Err(NotRead::TooLarge(file, limit)) => Err(Failure::TooLarge(file, limit)),
    }
}
