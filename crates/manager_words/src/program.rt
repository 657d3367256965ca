//! The manager as a program: words, a wire and two writers give an exit status.
ghost use Rattle.std.specs.Prelude.{◌≡◌, ◌≤◌, ◌≢◌, ◌⊎◌, map, string_bytes, IfOk, IfErr};
ghost use Rattle.clap.specs.Words.{kind_of, subcommand_rows_of};
ghost use Rattle.clap.specs.declared.error.kind.ErrorKind.TheVariants.{OutOfMemory, ValueValidation};
ghost use Rattle.manager_core.specs.Runs.{IsAskable};
ghost use Rattle.manager_words.specs.declared.fault.WordsFault.TheVariants.{Memory};
ghost use Rattle.manager_words.specs.Options.{manager_app};
ghost use Rattle.manager_words.specs.Built.{HasWords};
ghost use Rattle.manager_words.specs.Requests.{IsCommand, IsStated, rows_in};
ghost use Rattle.manager_words.specs.Runs.{IsText, IsRefusal, HasDone};

use crate::fault::WordsFault;
use crate::matches::command_in;
use crate::options::manager_command;
use clap::error::ErrorKind;
use clap::{ArgMatches, Error};
use manager_core::{Command, FAILED, Failure, ManagerFault, report, run_command};
use std::alloc::{AllocError, Global};
use std::io::Write;
use wire_core::Wire;

/// The status of words that are no command.
pub const USAGE: u8 = 2;

/// Does what the words of a command line ask for, the program's name first, and gives the exit
/// status: 0 where all is written, the help or the version too; [`USAGE`] where the words are no
/// command, and nothing is asked then; else [`FAILED`]. What went wrong stands on `errors`.
pub fn run_manager<W: Wire, O: Write, E: Write>(
    alloc: Global,
    words: &[String],
    wire: &mut W,
    out: &mut O,
    errors: &mut E,
) -> u8
    ensures done { HasDone W.went O.contents (map string_bytes words.now) wire.old out.old result
        wire.new out.new }
    ensures silent { result ≡ 0 → errors.new ≡ errors.old }
    ensures status { result ≤ USAGE }
    ensures usage { result ≡ USAGE → (wire.new ≡ wire.old) × (out.new ≡ out.old) }
{
    match command_of(alloc, words) {
        Ok(command) => run_command(alloc, &command, wire, out, errors),
        Err(error) => answer(&error, out, errors),
    }
}

/// What the words of a command line ask for, the program's name first.
///
/// # Errors
/// The error of the words, `ValueValidation` where a value of them cannot be read: an ADDRESS, a
/// NAME or a SETTING; a NAME that has no encoding; a COMMUNITY of more than `MAX_COMMUNITY` octets;
/// a request that does not fit into a datagram. `OutOfMemory` where there is none for the words.
pub fn command_of(alloc: Global, words: &[String]) -> Result<Command, Error>
    ensures read { IfOk result (IsCommand (map string_bytes words.now)) }
    ensures refused { IfErr result (IsRefusal (map string_bytes words.now)) }
    ensures askable { IfOk result (λ c. IsAskable c.errand) }
{
    let mut manager = manager_command(alloc)?;
    command_with(alloc, &mut manager, words)
}

// What the words ask of this command, or the error of them.
fn command_with<'a>(
    alloc: Global,
    manager: &mut clap::Command<'a>,
    words: &'a [String],
) -> Result<Command, Error>
    requires manager { HasWords manager_app manager.old }
    ensures read { IfOk result (IsCommand (map string_bytes words.now)) }
    ensures refused { IfErr result (IsRefusal (map string_bytes words.now)) }
    ensures askable { IfOk result (λ c. IsAskable c.errand) }
{
    match manager.try_get_matches_from_mut(words) {
        Ok(matches) => command_of_matches(alloc, manager, &matches),
        Err(error) => Err(error),
    }
}

// The command that matches say, or the error of them.
fn command_of_matches(
    alloc: Global,
    manager: &mut clap::Command<'_>,
    matches: &ArgMatches<'_>,
) -> Result<Command, Error>
    ensures read { IfOk result (IsStated (rows_in matches.now) (subcommand_rows_of matches.now)) }
    ensures refused { IfErr result (λ error. (kind_of error ≡ OutOfMemory)
        ⊎ ((kind_of error ≡ ValueValidation) × ((c : _)
        → ¬ IsStated (rows_in matches.now) (subcommand_rows_of matches.now) c))) }
    ensures askable { IfOk result (λ c. IsAskable c.errand) }
{
    match command_in(alloc, matches) {
        Ok(command) => Ok(command),
        Err(fault) => Err(error_of(alloc, manager, fault)),
    }
}

// The error of a fault, with the usage.
fn error_of(alloc: Global, manager: &mut clap::Command<'_>, fault: WordsFault<'_>) -> Error
    ensures memory { fault.entry ≡ Memory → kind_of result ≡ OutOfMemory }
    ensures kind { (kind_of result ≡ OutOfMemory) ⊎ (kind_of result ≡ ValueValidation) }
{
    match refusal_of(alloc, manager, fault) {
        Ok(error) => error,
        Err(error) => Error::from(error),
    }
}

// The same, where there is memory for it.
fn refusal_of(
    alloc: Global,
    manager: &mut clap::Command<'_>,
    fault: WordsFault<'_>,
) -> Result<Error, AllocError>
    ensures { IfOk result (λ e. (fault.entry ≢ Memory) × (kind_of e ≡ ValueValidation)) }
{
    if let WordsFault::Memory = fault {
        return Err(AllocError);
    }
    let message = format!(in alloc; "{fault}")?;
    manager.error(ErrorKind::ValueValidation, message.as_str())
}

// Writes what an error of the words says, help and the version on the output, and gives the exit
// status.
fn answer<O: Write, E: Write>(error: &Error, out: &mut O, errors: &mut E) -> u8
    ensures text { IsText (kind_of error.now) → result ≤ FAILED }
    ensures memory { kind_of error.now ≡ OutOfMemory → (result ≡ FAILED) × (out.new ≡ out.old) }
    ensures refused { ¬ IsText (kind_of error.now) → kind_of error.now ≢ OutOfMemory →
        (result ≡ USAGE) × (out.new ≡ out.old) }
    ensures silent { result ≡ 0 → errors.new ≡ errors.old }
    ensures status { result ≤ USAGE }
{
    match error.kind() {
        ErrorKind::DisplayHelp | ErrorKind::DisplayVersion => show(error, out, errors),
        ErrorKind::OutOfMemory => {
            report(Failure::Fault(ManagerFault::Memory), errors);
            FAILED
        }
        _ => {
            let _written = write!(errors, "manager: {error}");
            USAGE
        }
    }
}

// Writes a text that was asked for, and gives the exit status.
fn show<O: Write, E: Write>(text: &Error, out: &mut O, errors: &mut E) -> u8
    ensures status { result ≤ FAILED }
    ensures silent { result ≡ 0 → errors.new ≡ errors.old }
{
    match write!(out, "{text}") {
        Ok(()) if out.flush().is_ok() => 0,
        _ => {
            report(Failure::Output, errors);
            FAILED
        }
    }
}
