//! Says what the policy of a policy's file decides on a request.
ghost use Rattle.std.specs.Prelude.{◌≡◌, Ok};
ghost use Rattle.agent_words.specs.Asking.{question_view};
ghost use Rattle.agent_program.specs.Endings.{policy_read_failure};
ghost use Rattle.agent_program.specs.Files.{read_view};
ghost use Rattle.agent_program.specs.Explanations.{ExplainsPolicyRead, ExplainsPolicyFile, IsPolicyExplanation};

use crate::explaining::kind_by;
use crate::failure::{Failure, Refusal, question_failure, write_out, wrong_policy};
use crate::files::{FileLimit, NotRead, ReadFile};
use agent_words::Question;
use configuration::policy_file_in;
use explain::{explained, question_of};
use message_core::Request;
use std::alloc::Global;
use std::io::Write;

// Why the file of a policy was not read, as a failure of the program.
fn policy_read_failure(why: NotRead<'_>) -> Failure<'_>
    ensures { result ≡ policy_read_failure why.entry }
{
    match why {
        NotRead::Memory(file) => Failure::PolicyRefusedFor(file, Refusal::Memory),
        NotRead::Unreadable(file, reason) => Failure::CannotRead(file, reason),
        NotRead::TooLarge(file, limit) => Failure::TooLarge(file, limit),
    }
}

// Says what the policy that was read of a file decides on a request.
fn explain_policy_read<'a, O: Write>(
    alloc: Global,
    request: &Request,
    file: &'a str,
    read: Result<Vec<u8>, NotRead<'a>>,
    writer: &mut O,
) -> Result<(), Failure<'a>>
    ensures { ExplainsPolicyRead O.contents request.now file.entry (read_view read.entry) writer.old
        writer.new result }
{
    match read {
        Ok(octets) => explain_policy(alloc, request, file, &octets, writer),
        Err(why) => Err(policy_read_failure(why)),
    }
}

// The same by the octets of a policy's file.
fn explain_policy<'a, O: Write>(
    alloc: Global,
    request: &Request,
    file: &'a str,
    octets: &[u8],
    writer: &mut O,
) -> Result<(), Failure<'a>>
    ensures { ExplainsPolicyRead O.contents request.now file.entry (Ok octets.now) writer.old
        writer.new result }
{
    let policy = match policy_file_in(alloc, octets) {
        Ok(policy) => policy,
        Err(fault) => {
            return Err(Failure::PolicyRefusedFor(file, wrong_policy(alloc, octets, fault)));
        }
    };
    match explained(alloc, &policy, request) {
        Ok(text) => write_out(&text, writer),
        Err(_) => Err(Failure::Run),
    }
}

// The same by a file.
#[tactic(auto, using(crate::proofs::FileLemmas::file_policy_explained))]
fn explain_policy_by<'a, F: ReadFile, O: Write>(
    alloc: Global,
    files: &F,
    request: &Request,
    file: &'a str,
    writer: &mut O,
) -> Result<(), Failure<'a>>
    ensures { ExplainsPolicyFile (F.gives files.now) O.contents request.now file.entry writer.old
        writer.new result }
{
    let read = files.read_file(file, FileLimit::Policy);
    explain_policy_read(alloc, request, file, read, writer)
}

/// Says what the policy of a policy's file, alone or of a configuration, decides on the request that words ask
/// about. The words are read before the file is.
///
/// # Errors
/// As of [`explain_file`](crate::explaining::explain_file), but `PolicyRefusedFor` where the file says no policy, or there was no memory for it,
/// and `TooLarge` where it has more octets than a policy may have.
pub fn explain_policy_file<'a, F: ReadFile, O: Write>(
    alloc: Global,
    files: &F,
    question: &Question<'a>,
    file: &'a str,
    writer: &mut O,
) -> Result<(), Failure<'a>>
    ensures { IsPolicyExplanation (F.gives files.now) O.contents (question_view question.now)
        file.entry writer.old writer.new result }
{
    let kind = kind_by(question.operation);
    match question_of(alloc, kind, question.community, question.names.as_slice()) {
        Ok(request) => explain_policy_by(alloc, files, &request, file, writer),
        Err(fault) => Err(question_failure(fault)),
    }
}
