//! Why the program ends with another status than 0.
ghost use Rattle.std.specs.Prelude.{◌≡◌, OnOk, option_map};
ghost use Rattle.std.specs.Io.KnownBytes.{Appends};
ghost use Rattle.std.specs.IoError.{error_kind};
ghost use Rattle.agent_program.specs.Reporting.{IsReported, IsPolicyFaultFound};
ghost use Rattle.agent_program.specs.Endings.{failure_status, failure_words, failure_name, reason_words, refusal_words, limit_line, cause_line, first_line, second_line, failure_line, refused_for, words_failure, run_failure, read_failure, question_failure, answered_status, answered_line, TakesFront, IsLineTaken};
ghost use Rattle.agent_program.specs.Refusals.{IsRefusalOf, IsPolicyWrong, IsPolicyRefusal, IsFailureOf};
ghost use Rattle.configuration.specs.PolicyFiles.{IsPolicyFaultIn};

use crate::answering::{NoAnswer, Undone};
use crate::files::{FileLimit, NotRead};
use crate::opening::NotRun;
use crate::reporting::{NotTaken, write_front};
use agent_words::Answered;
use configuration::{
    ConfigurationFault, NO_MEMORY, policy_file_in, policy_sentence_in, sentence_in,
};
use explain::QuestionFault;
use script_core::RunFault;
use std::alloc::Global;
use std::io::{self, ErrorKind, Write};
use udp_agent::Unserved;

/// The status for words that are no command, and for a configuration that cannot be read or is
/// refused.
pub const USAGE: u8 = 2;

/// The status for input, output or a run that failed.
pub const FAILED: u8 = 1;

/// Why the configuration, or the policy, of a file is refused.
#[derive(Debug, Drop)]
pub enum Refusal {
    /// For its first fault, which has this sentence.
    Fault(String),
    /// For its first fault, for whose sentence there was no memory.
    NoSentence,
    /// There was no memory to read it.
    Memory,
    /// It cannot be served.
    Unserved(Unserved),
    /// The octets say a policy, and the agent that was to take it did not.
    ByAgent,
}

/// Why the program ends with another status than 0.
#[derive(Debug, Drop)]
pub enum Failure<'a> {
    /// A word is no text.
    NotText,
    /// A word that is to be a name is no object identifier.
    NoName(&'a str),
    /// A file cannot be read, for a reason of this kind that the system gives.
    CannotRead(&'a str, ErrorKind),
    /// A file has more octets than this limit, and is not read.
    TooLarge(&'a str, FileLimit),
    /// There is no memory for the objects or for a configuration of no file, or the objects make no
    /// registry; or a check stated why.
    Refused,
    /// The configuration of a file is none, or does not say how to serve where that is asked, or there is
    /// no memory for it.
    RefusedFor(&'a str, Refusal),
    /// The input could not be read to its end.
    Input,
    /// The output could not be written.
    Output,
    /// The agent whose control socket has this path, and that was to do a command, gave no answer, for this
    /// reason.
    Unanswered(&'a str, NoAnswer),
    /// The agent did not do the command, as its answer says, for this reason.
    NotDone(Undone),
    /// The agent refused the policy of this file, as its answer says, for this reason.
    PolicyNotDone(&'a str, Refusal),
    /// The file of a policy says none, or there was no memory for it, and a check stated why.
    PolicyRefused,
    /// The policy of this file is none, or there is no memory for it.
    PolicyRefusedFor(&'a str, Refusal),
    /// The run found no memory for its own lines and lists, or what was to be served was not, or
    /// failed.
    Run,
}

impl From<io::Error> for Failure<'_> {
    ghost from_gives = { λ error failure. failure ≡ words_failure (error_kind error) };

    // Words that cannot be read are no text; want of memory for them is not their fault.
    fn from(error: io::Error) -> Self {
        match error.kind() {
            ErrorKind::OutOfMemory => Failure::Run,
            _ => Failure::NotText,
        }
    }
}

// A run that did not reach its end, as a failure of the program.
fn run_failure<'a>(fault: RunFault) -> Failure<'a>
    ensures { result ≡ run_failure fault }
{
    match fault {
        RunFault::Input => Failure::Input,
        RunFault::Output => Failure::Output,
        RunFault::Memory | RunFault::Stopped => Failure::Run,
    }
}

// Why octets are refused that have this first fault: by its sentence, where there is memory for it.
fn fault_refusal(alloc: Global, octets: &[u8], fault: ConfigurationFault) -> Refusal
    ensures { IsRefusalOf octets.now fault result }
{
    match sentence_in(alloc, octets, fault) {
        Ok(sentence) => Refusal::Fault(sentence),
        Err(_) => Refusal::NoSentence,
    }
}

// Why the octets of a policy's file are refused that have this first fault.
fn policy_fault_refusal(alloc: Global, octets: &[u8], fault: ConfigurationFault) -> Refusal
    requires { IsPolicyFaultIn octets.now fault }
    ensures { IsPolicyWrong octets.now result }
{
    match policy_sentence_in(alloc, octets, fault) {
        Ok(sentence) => Refusal::Fault(sentence),
        Err(_) => Refusal::NoSentence,
    }
}

/// Why the octets of a policy's file are refused that have this first fault, or for which there was no memory.
pub fn wrong_policy(alloc: Global, octets: &[u8], fault: ConfigurationFault) -> Refusal
    requires { IsPolicyFaultFound octets.now fault }
    ensures { IsPolicyWrong octets.now result }
{
    match fault {
        ConfigurationFault::Memory => Refusal::Memory,
        fault => policy_fault_refusal(alloc, octets, fault),
    }
}

/// Why an agent refused the policy of a file of these octets: for its first fault, if it has one.
pub fn policy_refusal(alloc: Global, octets: &[u8]) -> Refusal
    ensures { IsPolicyRefusal octets.now result }
{
    match policy_file_in(alloc, octets) {
        Ok(_) => Refusal::ByAgent,
        Err(fault) => wrong_policy(alloc, octets, fault),
    }
}

// The refusal of the configuration of a file, if it is of one.
fn refused_for(file: Option<&str>, refusal: Refusal) -> Failure<'_>
    ensures { result ≡ refused_for file.entry refusal }
{
    match file {
        Some(file) => Failure::RefusedFor(file, refusal),
        None => Failure::Refused,
    }
}

/// Why the octets of a configuration, which are those of this file, if of one, were not run to the end of
/// a script, as a failure of the program. Where they have a fault, it has the sentence on that, if there
/// is memory for it.
pub fn failure_of<'a>(
    alloc: Global,
    file: Option<&'a str>,
    octets: &[u8],
    why: NotRun,
) -> Failure<'a>
    ensures { IsFailureOf (option_map (λ name. name.now) file.entry) octets.now why result }
{
    match why {
        NotRun::Refused(fault) => refused_for(file, fault_refusal(alloc, octets, fault)),
        NotRun::Unserved(why) => refused_for(file, Refusal::Unserved(why)),
        NotRun::Memory => refused_for(file, Refusal::Memory),
        NotRun::NoRegistry => Failure::Refused,
        NotRun::Stopped(fault) => run_failure(fault),
    }
}

/// Why words make no request, as a failure of the program.
pub fn question_failure(fault: QuestionFault<'_>) -> Failure<'_>
    ensures { result ≡ question_failure fault.entry }
{
    match fault {
        QuestionFault::Memory => Failure::Run,
        QuestionFault::Name(word) => Failure::NoName(word),
    }
}

/// Why a file was not read, as a failure of the program.
pub fn read_failure(why: NotRead<'_>) -> Failure<'_>
    ensures { result ≡ read_failure why.entry }
{
    match why {
        NotRead::Memory(file) => Failure::RefusedFor(file, Refusal::Memory),
        NotRead::Unreadable(file, reason) => Failure::CannotRead(file, reason),
        NotRead::TooLarge(file, limit) => Failure::TooLarge(file, limit),
    }
}

impl Failure<'_> {
    /// The exit status, 1 or 2.
    pub fn status(&self) -> u8
        ensures { result ≡ failure_status self.now }
    {
        match self {
            Failure::NotText
            | Failure::NoName(_)
            | Failure::CannotRead(_, _)
            | Failure::TooLarge(_, _)
            | Failure::Refused
            | Failure::RefusedFor(_, _)
            | Failure::PolicyRefused
            | Failure::PolicyRefusedFor(_, _) => USAGE,
            Failure::Input
            | Failure::Output
            | Failure::Unanswered(_, _)
            | Failure::NotDone(_)
            | Failure::PolicyNotDone(_, _)
            | Failure::Run => FAILED,
        }
    }

    // What it is called.
    fn words(&self) -> &'static [u8]
        ensures { result.now ≡ failure_words self.now }
    {
        match self {
            Failure::NotText => b"a word is no text",
            Failure::NoName(_) => b"no object identifier: ",
            Failure::CannotRead(_, _) | Failure::TooLarge(_, _) => b"cannot read ",
            Failure::Refused | Failure::RefusedFor(_, _) => b"configuration refused",
            Failure::PolicyRefused | Failure::PolicyRefusedFor(_, _) => b"policy refused",
            Failure::Input => b"input failed",
            Failure::Output => b"output failed",
            Failure::Unanswered(_, _) => b"no answer",
            Failure::NotDone(_) | Failure::PolicyNotDone(_, _) => b"command refused",
            Failure::Run => b"run failed",
        }
    }

    // What it names.
    fn name(&self) -> &[u8]
        ensures { result.now ≡ failure_name self.now }
    {
        match self {
            Failure::NoName(word) => word.as_bytes(),
            Failure::CannotRead(file, _) | Failure::TooLarge(file, _) => file.as_bytes(),
            Failure::NotText
            | Failure::Refused
            | Failure::RefusedFor(_, _)
            | Failure::Input
            | Failure::Output
            | Failure::Unanswered(_, _)
            | Failure::NotDone(_)
            | Failure::PolicyNotDone(_, _)
            | Failure::PolicyRefused
            | Failure::PolicyRefusedFor(_, _)
            | Failure::Run => b"",
        }
    }
}

impl Refusal {
    // What it is for, in the words of a check.
    fn words(&self) -> &[u8]
        ensures { result.now ≡ refusal_words self.now }
    {
        match self {
            Refusal::Fault(sentence) => sentence.as_bytes(),
            Refusal::NoSentence => b"there was no memory for the sentence on its first fault",
            Refusal::Memory => NO_MEMORY.as_bytes(),
            Refusal::Unserved(Unserved::NoServe) => {
                b"configuration ok for script, not for serve: no [serve]"
            }
            Refusal::Unserved(Unserved::NoSockets) => {
                b"configuration ok for script, not for serve: a port without listen or peer"
            }
            Refusal::ByAgent => {
                b"the policy is right; the agent had no memory for it, or it has more than 65536 octets"
            }
        }
    }
}

/// Why a file cannot be read, in the words of the C library for the errors of Linux.
pub(crate) fn reason_words(reason: ErrorKind) -> &'static [u8]
    ensures { result.now ≡ reason_words reason }
{
    match reason {
        ErrorKind::NotFound => b"No such file or directory",
        ErrorKind::PermissionDenied => b"Permission denied",
        ErrorKind::NotADirectory => b"Not a directory",
        ErrorKind::IsADirectory => b"Is a directory",
        ErrorKind::FilesystemLoop => b"Too many levels of symbolic links",
        ErrorKind::InvalidFilename => b"File name too long",
        ErrorKind::InvalidInput => b"Invalid argument",
        ErrorKind::ResourceBusy => b"Device or resource busy",
        ErrorKind::StaleNetworkFileHandle => b"Stale file handle",
        ErrorKind::TimedOut => b"Connection timed out",
        _ => b"another error of the system",
    }
}

// The line that says how many octets a file may have.
fn limit_line(limit: FileLimit) -> &'static [u8]
    ensures { result.now ≡ limit_line limit }
{
    match limit {
        FileLimit::Configuration => b"agentd: it has more than 268435456 octets\n",
        FileLimit::Policy => b"agentd: it has more than 65536 octets\n",
    }
}

// Writes a line that says of a file what the cause is, until a write fails.
fn write_cause<E: Write>(file: &[u8], cause: &[u8], errors: &mut E) -> Result<(), NotTaken>
    ensures whole { OnOk result (Appends (E.contents errors.old) (E.contents errors.new)
        (cause_line file.now cause.now)) }
    ensures front { TakesFront (E.contents errors.old) (E.contents errors.new)
        (cause_line file.now cause.now) }
{
    write_front(errors, b"agentd: ")?;
    write_front(errors, file)?;
    write_front(errors, b": ")?;
    write_front(errors, cause)?;
    write_front(errors, b"\n")
}

// Writes the first line of a failure, until a write fails.
fn write_first<E: Write>(failure: &Failure<'_>, errors: &mut E) -> Result<(), NotTaken>
    ensures whole { OnOk result (Appends (E.contents errors.old) (E.contents errors.new)
        (first_line failure.now)) }
    ensures front { TakesFront (E.contents errors.old) (E.contents errors.new)
        (first_line failure.now) }
{
    write_front(errors, b"agentd: ")?;
    write_front(errors, failure.words())?;
    write_front(errors, failure.name())?;
    write_front(errors, b"\n")
}

// Writes the second line of a failure, where it has one, until a write fails.
fn write_second<E: Write>(failure: &Failure<'_>, errors: &mut E) -> Result<(), NotTaken>
    ensures whole { OnOk result (Appends (E.contents errors.old) (E.contents errors.new)
        (second_line failure.now)) }
    ensures front { TakesFront (E.contents errors.old) (E.contents errors.new)
        (second_line failure.now) }
{
    match failure {
        Failure::CannotRead(file, reason) => {
            write_cause(file.as_bytes(), reason_words(*reason), errors)
        }
        Failure::TooLarge(_, limit) => write_front(errors, limit_line(*limit)),
        Failure::RefusedFor(file, refusal)
        | Failure::PolicyNotDone(file, refusal)
        | Failure::PolicyRefusedFor(file, refusal) => {
            write_cause(file.as_bytes(), refusal.words(), errors)
        }
        Failure::Unanswered(path, why) => write_cause(path.as_bytes(), why.words(), errors),
        Failure::NotDone(why) => write_front(errors, why.line()),
        Failure::NotText
        | Failure::NoName(_)
        | Failure::Refused
        | Failure::PolicyRefused
        | Failure::Input
        | Failure::Output
        | Failure::Run => write_front(errors, b""),
    }
}

// Writes the line of a failure, or both, until a write fails.
fn write_line<E: Write>(failure: &Failure<'_>, errors: &mut E) -> Result<(), NotTaken>
    ensures whole { OnOk result (Appends (E.contents errors.old) (E.contents errors.new)
        (failure_line failure.now)) }
    ensures front { TakesFront (E.contents errors.old) (E.contents errors.new)
        (failure_line failure.now) }
{
    write_first(failure, errors)?;
    write_second(failure, errors)
}

/// How a run of the program ended, as it is reported.
#[derive(Clone, Copy, Debug, PartialEq, Eq)]
pub struct Ended {
    /// The exit status, 0 to 2.
    pub status: u8,
    /// Whether its line is written whole, or a front of it, behind which a write failed.
    pub line: Result<(), NotTaken>,
}

/// Writes a failure as one line, and where a file cannot be read, has too many octets, or is refused, or an
/// agent gave no answer or did not do a command, a second one that says why, or a front of that where a write
/// fails, and gives its exit status.
pub fn report<E: Write>(failure: &Failure<'_>, errors: &mut E) -> Ended
    ensures status { result.status ≡ failure_status failure.now }
    ensures line { IsLineTaken result.line (E.contents errors.old) (E.contents errors.new)
        (failure_line failure.now) }
{
    let line = write_line(failure, errors);
    Ended {
        status: failure.status(),
        line,
    }
}

/// Ends the program where its words are no command, as they were answered: where the output did not
/// take the help or the version, or there was no memory for the words, the line of that failure is
/// written, or a front of it.
pub fn end_answered<E: Write>(answered: Answered, errors: &mut E) -> Ended
    ensures status { result.status ≡ answered_status answered }
    ensures line { IsLineTaken result.line (E.contents errors.old) (E.contents errors.new)
        (answered_line answered) }
{
    match answered {
        Answered::Shown => Ended {
            status: 0,
            line: Ok(()),
        },
        Answered::Refused => Ended {
            status: USAGE,
            line: Ok(()),
        },
        Answered::NotShown => report(&Failure::Output, errors),
        Answered::Memory => report(&Failure::Run, errors),
    }
}

/// Writes a text to the output, and flushes it.
///
/// # Errors
/// `Output` where a write fails, behind a front of the text, or where the flush does.
pub fn write_out<'a, O: Write>(text: &[u8], writer: &mut O) -> Result<(), Failure<'a>>
    ensures { IsReported O.contents text.now writer.old writer.new result }
{
    match write_front(writer, text) {
        Ok(()) => match writer.flush() {
            Ok(()) => Ok(()),
            Err(_) => Err(Failure::Output),
        },
        Err(_) => Err(Failure::Output),
    }
}
