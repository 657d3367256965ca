//! Says what the policy of a configuration decides on a request.
ghost use Rattle.std.specs.Prelude.{◌≡◌};
ghost use Rattle.agent_words.specs.Asking.{question_view};
ghost use Rattle.agent_program.specs.Files.{read_view};
ghost use Rattle.agent_program.specs.Explanations.{kind_by, ExplainsOctets, ExplainsRead, ExplainsFile, IsExplanation};

use crate::failure::{Failure, failure_of, question_failure, read_failure, write_out};
use crate::files::{FileLimit, NotRead, ReadFile};
use crate::opening::read_configuration;
use agent_words::{Operation, Question};
use explain::{explained, question_of};
use message_core::{Kind, Request};
use std::alloc::Global;
use std::io::Write;

/// The PDU type of what a request does.
pub(crate) fn kind_by(operation: Operation) -> Kind
    ensures { result ≡ kind_by operation }
{
    match operation {
        Operation::Get => Kind::Get,
        Operation::GetNext => Kind::GetNext,
        Operation::GetBulk => Kind::GetBulk,
        Operation::Set => Kind::Set,
    }
}

// Says what the policy of the configuration that the octets of a file say decides on a request.
fn explain_octets<'a, O: Write>(
    alloc: Global,
    request: &Request,
    file: &'a str,
    octets: &[u8],
    writer: &mut O,
) -> Result<(), Failure<'a>>
    ensures { ExplainsOctets O.contents request.now file.now octets.now writer.old writer.new
        result }
{
    let configuration = match read_configuration(alloc, octets) {
        Ok(configuration) => configuration,
        Err(why) => return Err(failure_of(alloc, Some(file), octets, why)),
    };
    match explained(alloc, &configuration.policy, request) {
        Ok(text) => write_out(&text, writer),
        Err(_) => Err(Failure::Run),
    }
}

// The same by what was read of a file.
fn explain_read<'a, O: Write>(
    alloc: Global,
    request: &Request,
    file: &'a str,
    read: Result<Vec<u8>, NotRead<'a>>,
    writer: &mut O,
) -> Result<(), Failure<'a>>
    ensures { ExplainsRead O.contents request.now file.now (read_view read.entry) writer.old
        writer.new result }
{
    match read {
        Ok(octets) => explain_octets(alloc, request, file, &octets, writer),
        Err(why) => Err(read_failure(why)),
    }
}

// The same by a file.
#[tactic(auto, using(crate::proofs::FileLemmas::file_explained))]
fn explain_by<'a, F: ReadFile, O: Write>(
    alloc: Global,
    files: &F,
    request: &Request,
    file: &'a str,
    writer: &mut O,
) -> Result<(), Failure<'a>>
    ensures { ExplainsFile (F.gives files.now) O.contents request.now file.now writer.old
        writer.new result }
{
    let read = files.read_file(file, FileLimit::Configuration);
    explain_read(alloc, request, file, read, writer)
}

/// Says what the policy of a file's configuration decides on the request that words ask about. The
/// words are read before the file is.
///
/// # Errors
/// `NoName` with the first word that is no object identifier; `CannotRead` where the file cannot be
/// read; `RefusedFor` where it says no configuration, or there was no memory for that; `Run` where
/// there was none for the request or the text: nothing is written then. `Output` where a write fails.
pub fn explain_file<'a, F: ReadFile, O: Write>(
    alloc: Global,
    files: &F,
    question: &Question<'a>,
    file: &'a str,
    writer: &mut O,
) -> Result<(), Failure<'a>>
    ensures { IsExplanation (F.gives files.now) O.contents (question_view question.now) file.now
        writer.old writer.new result }
{
    let kind = kind_by(question.operation);
    match question_of(alloc, kind, question.community, question.names.as_slice()) {
        Ok(request) => explain_by(alloc, files, &request, file, writer),
        Err(fault) => Err(question_failure(fault)),
    }
}
