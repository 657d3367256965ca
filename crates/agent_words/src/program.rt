//! What the words of the program ask for, or how they are answered.
ghost use Rattle.std.specs.Prelude.{◌≡◌, ◌⊎◌, map, string_bytes, None, Some, IfOk, IfErr, OnOk};
ghost use Rattle.clap.specs.Words.{kind_of, subcommand_rows_of};
ghost use Rattle.clap.specs.declared.error.kind.ErrorKind.TheVariants.{OutOfMemory, ValueValidation};
ghost use Rattle.agent_words.specs.Options.{agent_app};
ghost use Rattle.agent_words.specs.Built.{HasWords};
ghost use Rattle.agent_words.specs.Asking.{IsAsked, asked_view, asking_in};
ghost use Rattle.agent_words.specs.Answers.{IsText, IsRefusal, IsAnswerTo, IsAnswered};

use crate::asked::Asked;
use crate::matches::{asked_in, is_given, word_in};
use crate::options::{agent_command, usage_command};
use clap::error::ErrorKind;
use clap::{ArgMatches, Command, Error};
use std::alloc::{AllocError, Global};
use std::io::Write;

/// How words that are no command were answered.
#[derive(Clone, Copy, Debug, PartialEq, Eq, Drop)]
pub enum Answered {
    /// Help or the version is written.
    Shown,
    /// Help or the version was asked for, and the output failed.
    NotShown,
    /// What is wrong with the words stands on standard error, as far as that took it.
    Refused,
    /// There was no memory for the words, and nothing is written.
    Memory,
}

/// What the words of a command line ask for, the program's name first; nothing is written then.
///
/// # Errors
/// How words that are no command were answered: help and the version on `out`, what is wrong on
/// `errors`.
pub fn read_words<'a, O: Write, E: Write>(
    alloc: Global,
    words: &'a [String],
    out: &mut O,
    errors: &mut E,
) -> Result<Asked<'a>, Answered>
    ensures asked { IfOk result (IsAsked (map string_bytes words.now)) }
    ensures unwritten { OnOk result ((out.new ≡ out.old) × (errors.new ≡ errors.old)) }
    ensures answered { IfErr result (λ answered. IsAnswered (map string_bytes words.now)
        out.old errors.old answered out.new errors.new) }
{
    match asked_by(alloc, words) {
        Ok(asked) => Ok(asked),
        Err(error) => Err(answer(&error, out, errors)),
    }
}

// What the words ask for, or the error of them.
fn asked_by<'a>(alloc: Global, words: &'a [String]) -> Result<Asked<'a>, Error>
    ensures asked { IfOk result (IsAsked (map string_bytes words.now)) }
    ensures refused { IfErr result (IsRefusal (map string_bytes words.now)) }
{
    let mut agent = agent_command(alloc)?;
    asked_with(alloc, &mut agent, words)
}

// What the words ask of this command, or the error of them.
fn asked_with<'a>(
    alloc: Global,
    agent: &mut Command<'a>,
    words: &'a [String],
) -> Result<Asked<'a>, Error>
    requires agent { HasWords agent_app agent.old }
    ensures asked { IfOk result (IsAsked (map string_bytes words.now)) }
    ensures refused { IfErr result (IsRefusal (map string_bytes words.now)) }
{
    match agent.try_get_matches_from_mut(words) {
        Ok(matches) => asked_of_matches(alloc, &matches),
        Err(error) => Err(error),
    }
}

// What matches ask for, or the error of them where they ask for nothing.
fn asked_of_matches<'a>(alloc: Global, matches: &ArgMatches<'a>) -> Result<Asked<'a>, Error>
    ensures asked { IfOk result (λ asked.
        asking_in (subcommand_rows_of matches.now) ≡ Some (asked_view asked)) }
    ensures refused { IfErr result (λ error. (kind_of error ≡ OutOfMemory)
        ⊎ ((kind_of error ≡ ValueValidation)
        × (asking_in (subcommand_rows_of matches.now) ≡ None))) }
{
    match asked_in(alloc, matches) {
        Ok(Some(asked)) => Ok(asked),
        Ok(None) => Err(nothing_asked(alloc, matches)),
        Err(error) => Err(Error::from(error)),
    }
}

// What is wrong with matches that ask for nothing, though clap lets them pass.
fn mistake_in(matches: &ArgMatches<'_>) -> &'static str {
    match matches.subcommand() {
        Some(("check", entered)) => check_mistake(entered),
        Some(("explain", entered)) => file_mistake(entered),
        Some(("tell", _)) => "a command is link P up, link P down, counts or policy POLICYFILE",
        Some((_, entered)) if !is_given(entered, "audit") => "--control wants --forever",
        _ => "--audit wants --forever",
    }
}

// What is wrong with those of a check: the files, else that sockets of a policy are asked for.
fn check_mistake(entered: &ArgMatches<'_>) -> &'static str {
    match (word_in(entered, "FILE"), word_in(entered, "POLICYFILE")) {
        (None, Some(_)) => "--ports and --policy do not stand together",
        _ => file_mistake(entered),
    }
}

// What is wrong with those of a check or an explanation: the files, else the request.
fn file_mistake(entered: &ArgMatches<'_>) -> &'static str {
    match (word_in(entered, "FILE"), word_in(entered, "POLICYFILE")) {
        (None, None) =>
            "the following required arguments were not provided:\n  --config <FILE> or --policy <POLICYFILE>",
        (Some(_), Some(_)) => "--config and --policy do not stand together",
        (Some(_), None) | (None, Some(_)) => "a request is get, next, bulk or set",
    }
}

// The error of matches that ask for nothing, with the usage of their subcommand.
fn nothing_asked(alloc: Global, matches: &ArgMatches<'_>) -> Error
    ensures { (kind_of result ≡ OutOfMemory) ⊎ (kind_of result ≡ ValueValidation) }
{
    match mistake_of(alloc, matches) {
        Ok(error) => error,
        Err(error) => Error::from(error),
    }
}

// The same, where there is memory for it.
fn mistake_of(alloc: Global, matches: &ArgMatches<'_>) -> Result<Error, AllocError>
    ensures { IfOk result (λ error. kind_of error ≡ ValueValidation) }
{
    let mistake = mistake_in(matches);
    let mut command = match matches.subcommand() {
        Some((name, _)) => usage_command(alloc, name)?,
        None => agent_command(alloc)?,
    };
    command.error(ErrorKind::ValueValidation, mistake)
}

// Writes what an error of the words says, help and the version on the output.
fn answer<O: Write, E: Write>(error: &Error, out: &mut O, errors: &mut E) -> Answered
    ensures { IsAnswerTo (kind_of error.now) out.old errors.old result out.new errors.new }
{
    match error.kind() {
        ErrorKind::DisplayHelp | ErrorKind::DisplayVersion => show(error, out),
        ErrorKind::OutOfMemory => Answered::Memory,
        _ => {
            let _written = write!(errors, "agentd: {error}");
            Answered::Refused
        }
    }
}

// Writes a text that was asked for.
fn show<O: Write>(text: &Error, out: &mut O) -> Answered
    ensures { (result ≡ Answered.Shown) ⊎ (result ≡ Answered.NotShown) }
{
    match write!(out, "{text}") {
        Ok(()) if out.flush().is_ok() => Answered::Shown,
        _ => Answered::NotShown,
    }
}
