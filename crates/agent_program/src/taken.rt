//! Prints the answer to a policy that a served agent took, and what is warned of in it.
ghost use Rattle.std.specs.Prelude.{◌≡◌, IfOk};
ghost use Rattle.configuration.specs.Warnings.{policy_warnings};
ghost use Rattle.agent_program.specs.Warned.{warned_text};
ghost use Rattle.configuration.specs.PolicyFiles.{IsPolicyFaultIn};
ghost use Rattle.agent_program.specs.Reporting.{IsPolicyFaultFound};
ghost use Rattle.agent_program.specs.Commands.{answer_view, taken_answer, is_taken, IsWarnedPrinted, IsTakenPrinted};

use crate::answering::NoAnswer;
use crate::failure::{Failure, write_out};
use crate::warned::warned_text;
use community_core::Policy;
use configuration::{ConfigurationFault, policy_file_in, policy_warnings};
use std::alloc::{AllocError, Global};
use std::io::Write;

// The answer to a policy that was taken.
const TAKEN: &[u8] = b"policy ok\n";

// That answer where there is no memory to find or write what is warned of in the policy.
const TAKEN_UNWARNED: &[u8] =
    b"policy ok\nwarning: there was no memory to find what is warned of in the policy\n";

/// Whether an agent took a policy that it answered so.
pub(crate) fn is_taken(answer: &Result<Vec<u8>, NoAnswer>) -> bool
    ensures { result ≡ is_taken (answer_view answer.now) }
{
    match answer {
        Ok(answer) => answer.as_slice() == TAKEN,
        Err(_) => false,
    }
}

// The answer to a policy that was taken, and behind it the policy's warnings.
fn taken_text(alloc: Global, policy: &Policy) -> Result<Vec<u8>, AllocError>
    ensures { IfOk result (λ text. text.items ≡ warned_text taken_answer (policy_warnings policy.now)) }
{
    let warnings = policy_warnings(alloc, policy)?;
    warned_text(alloc, TAKEN, warnings.as_slice())
}

// Prints the answer to a policy that was taken, and behind it the policy's warnings, or that there was no
// memory for them.
#[tactic(auto, using(crate::proofs::TakenLemmas::warned, crate::proofs::TakenLemmas::unwarned))]
fn print_warned<'a, O: Write>(
    alloc: Global,
    policy: &Policy,
    writer: &mut O,
) -> Result<(), Failure<'a>>
    ensures { IsWarnedPrinted O.contents policy.now writer.old writer.new result }
{
    match taken_text(alloc, policy) {
        Ok(text) => write_out(&text, writer),
        Err(_) => write_out(TAKEN_UNWARNED, writer),
    }
}

// Prints the answer to a policy that was taken where its octets have this first fault for this program.
fn print_wrong<'a, O: Write>(
    text: &[u8],
    fault: ConfigurationFault,
    writer: &mut O,
) -> Result<(), Failure<'a>>
    requires { IsPolicyFaultIn text.now fault }
    ensures { IsTakenPrinted O.contents text.now writer.old writer.new result }
{
    let (_text, _fault) = (text, fault);
    write_out(TAKEN, writer)
}

// The same, or where there was no memory to read them.
#[tactic(auto, using(crate::proofs::TakenLemmas::taken_unread))]
fn print_unread<'a, O: Write>(
    text: &[u8],
    fault: ConfigurationFault,
    writer: &mut O,
) -> Result<(), Failure<'a>>
    requires { IsPolicyFaultFound text.now fault }
    ensures { IsTakenPrinted O.contents text.now writer.old writer.new result }
{
    match fault {
        ConfigurationFault::Memory => write_out(TAKEN_UNWARNED, writer),
        fault => print_wrong(text, fault, writer),
    }
}

/// Prints the answer to a policy that was taken, of which a file had these octets, and behind it the policy's
/// warnings, or that there was no memory for them.
///
/// # Errors
/// `Output` where a write fails.
pub(crate) fn print_taken<'a, O: Write>(
    alloc: Global,
    text: &[u8],
    writer: &mut O,
) -> Result<(), Failure<'a>>
    ensures { IsTakenPrinted O.contents text.now writer.old writer.new result }
{
    match policy_file_in(alloc, text) {
        Ok(policy) => print_warned(alloc, &policy, writer),
        Err(fault) => print_unread(text, fault, writer),
    }
}
