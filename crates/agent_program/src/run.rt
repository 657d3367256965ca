//! What the program does for what is asked of it.
ghost use Rattle.std.specs.Prelude.{◌≡◌, map, option_map};
ghost use Rattle.agent_program.specs.Refusals.{EndsBy};
ghost use Rattle.agent_program.specs.Files.{read_view};
ghost use Rattle.agent_program.specs.Reporting.{IsCheckOf, IsPortsCheckOf, IsPolicyCheckOf};
ghost use Rattle.agent_program.specs.Services.{OpensRead, OpensFile};
ghost use Rattle.agent_program.specs.Programs.{RunsBy, RunsRead, RunsFile, Does, IsProgramRun, nothing_left};

use crate::checking::check_read;
use crate::checking_policies::check_policy_read;
use crate::checking_ports::check_ports_read;
use crate::commanding::{AskAgent, send_order};
use crate::explaining::explain_file;
use crate::explaining_policies::explain_policy_file;
use crate::failure::{Ended, Failure, failure_of, read_failure, report};
use crate::files::{FileLimit, NotRead, ReadFile};
use crate::running::run_octets;
use crate::serving::{Opened, open_service};
use agent_words::{Asked, Lasting};
use configuration::BUILT_IN;
use setphase_core::{MibObject, Registry};
use std::alloc::Global;
use std::io::{Read, Write};

/// Does what is asked, and gives the exit status: 0; 1 where input, output or the run failed; 2 for a
/// configuration that cannot be read or is refused. A failure is written to `errors` as its lines,
/// whole or a front of them behind which a write failed. The octets of a file are those that `files`
/// gives for its name. The script runs over exactly the objects that are handed in; where they make
/// no registry, its configuration is refused.
///
/// A command of an operator goes to the agent whose control socket it names, as `files` has it asked.
///
/// Where it is asked to serve, it gives what is to be served as well, and for how long, and has
/// neither read from `reader` nor written anything; the caller has then to serve it.
pub fn run_asked<'a, F, M, I, O, E>(
    alloc: Global,
    files: &F,
    objects: Vec<M>,
    asked: Asked<'a>,
    reader: &mut I,
    writer: &mut O,
    errors: &mut E,
) -> (Ended, Option<(Registry<M>, Opened, Lasting<'a>)>)
where
    F: ReadFile + AskAgent,
    M: MibObject,
    I: Read,
    O: Write,
    E: Write,
    ensures { IsProgramRun (F.gives files.now) (F.answers files.now) (map M.state objects.items)
        I.remaining O.contents asked.entry
        reader.old reader.new writer.old writer.new
        (E.contents errors.old) (E.contents errors.new) result.0 result.1 }
{
    match do_asked(alloc, files, objects, asked, reader, writer) {
        Ok(left) => {
            let ended = Ended {
                status: 0,
                line: Ok(()),
            };
            (ended, left)
        }
        Err(failure) => (report(&failure, errors), None),
    }
}

// Does what was asked for.
fn do_asked<'a, F, M, I, O>(
    alloc: Global,
    files: &F,
    objects: Vec<M>,
    asked: Asked<'a>,
    reader: &mut I,
    writer: &mut O,
) -> Result<Option<(Registry<M>, Opened, Lasting<'a>)>, Failure<'a>>
where
    F: ReadFile + AskAgent,
    M: MibObject,
    I: Read,
    O: Write,
    ensures { Does (F.gives files.now) (F.answers files.now) (map M.state objects.items)
        I.remaining O.contents asked.entry
        reader.old reader.new writer.old writer.new result }
{
    match asked {
        Asked::BuiltIn => {
            let octets = BUILT_IN.as_bytes();
            finish(run_by(alloc, objects, None, octets, reader, writer))
        }
        Asked::Script(file) => finish(run_file(alloc, files, objects, file, reader, writer)),
        Asked::Check(file) => finish(check_file(alloc, files, file, writer)),
        Asked::CheckPorts(file) => finish(check_ports_file(alloc, files, file, writer)),
        Asked::CheckPolicy(file) => finish(check_policy_file(alloc, files, file, writer)),
        Asked::Serve(file, lasting) => serve_file(alloc, files, objects, file, lasting),
        Asked::Explain(file, question) => {
            finish(explain_file(alloc, files, &question, file, writer))
        }
        Asked::ExplainPolicy(file, question) => finish(explain_policy_file(
            alloc, files, &question, file, writer,
        )),
        Asked::Tell(path, order) => finish(send_order(alloc, files, path, order, writer)),
    }
}

// What has ended so leaves nothing to be served.
fn finish<'a, M: MibObject>(
    ended: Result<(), Failure<'a>>,
) -> Result<Option<(Registry<M>, Opened, Lasting<'a>)>, Failure<'a>>
    ensures { result ≡ nothing_left ended.entry }
{
    match ended {
        Ok(()) => Ok(None),
        Err(failure) => Err(failure),
    }
}

// What is to be served for so long by what was read of a file.
fn serve_read<'a, M: MibObject>(
    alloc: Global,
    objects: Vec<M>,
    file: &'a str,
    read: Result<Vec<u8>, NotRead<'a>>,
    lasting: Lasting<'a>,
) -> Result<Option<(Registry<M>, Opened, Lasting<'a>)>, Failure<'a>>
    ensures { OpensRead (map M.state objects.items) lasting.entry file.now (read_view read.entry)
        result }
{
    match read {
        Ok(octets) => match open_service(alloc, objects, &octets) {
            Ok((registry, opened)) => Ok(Some((registry, opened, lasting))),
            Err(reason) => Err(failure_of(alloc, Some(file), &octets, reason)),
        },
        Err(unread) => Err(read_failure(unread)),
    }
}

// What is to be served for so long by a file.
#[tactic(auto, using(crate::proofs::FileLemmas::file_served))]
fn serve_file<'a, F: ReadFile, M: MibObject>(
    alloc: Global,
    files: &F,
    objects: Vec<M>,
    file: &'a str,
    lasting: Lasting<'a>,
) -> Result<Option<(Registry<M>, Opened, Lasting<'a>)>, Failure<'a>>
    ensures { OpensFile (F.gives files.now) (map M.state objects.items) lasting.entry file.now result }
{
    let read = files.read_file(file, FileLimit::Configuration);
    serve_read(alloc, objects, file, read, lasting)
}

// Runs the script by the octets of a configuration, which are those of this file, if of one.
fn run_by<'a, M: MibObject, I: Read, O: Write>(
    alloc: Global,
    objects: Vec<M>,
    file: Option<&'a str>,
    octets: &[u8],
    reader: &mut I,
    writer: &mut O,
) -> Result<(), Failure<'a>>
    ensures { RunsBy I.remaining O.contents (map M.state objects.items)
        (option_map (λ name. name.now) file.entry) octets.now reader.old reader.new writer.old writer.new
        result }
{
    match run_octets(alloc, objects, octets, reader, writer) {
        Ok(_) => Ok(()),
        Err(why) => Err(failure_of(alloc, file, octets, why)),
    }
}

// Runs the script by what was read of a file; where it could not be read, by nothing else.
fn run_read<'a, M: MibObject, I: Read, O: Write>(
    alloc: Global,
    objects: Vec<M>,
    file: &'a str,
    read: Result<Vec<u8>, NotRead<'a>>,
    reader: &mut I,
    writer: &mut O,
) -> Result<(), Failure<'a>>
    ensures { RunsRead I.remaining O.contents (map M.state objects.items)
        file.now (read_view read.entry) reader.old reader.new writer.old writer.new result }
{
    match read {
        Ok(octets) => run_by(alloc, objects, Some(file), &octets, reader, writer),
        Err(why) => Err(read_failure(why)),
    }
}

// Runs the script by a file.
#[tactic(auto, using(crate::proofs::FileLemmas::file_run))]
fn run_file<'a, F, M, I, O>(
    alloc: Global,
    files: &F,
    objects: Vec<M>,
    file: &'a str,
    reader: &mut I,
    writer: &mut O,
) -> Result<(), Failure<'a>>
where
    F: ReadFile,
    M: MibObject,
    I: Read,
    O: Write,
    ensures { RunsFile (F.gives files.now) (map M.state objects.items)
        I.remaining O.contents file.now
        reader.old reader.new writer.old writer.new result }
{
    let read = files.read_file(file, FileLimit::Configuration);
    run_read(alloc, objects, file, read, reader, writer)
}

// Reports whether a file is a configuration.
#[tactic(auto, using(crate::proofs::FileLemmas::file_check))]
fn check_file<'a, F, O>(
    alloc: Global,
    files: &F,
    file: &'a str,
    writer: &mut O,
) -> Result<(), Failure<'a>>
where
    F: ReadFile,
    O: Write,
    ensures { IsCheckOf (F.gives files.now) O.contents file.now writer.old writer.new result }
{
    let read = files.read_file(file, FileLimit::Configuration);
    check_read(alloc, read, writer)
}

// Reports the sockets of a file's configuration.
#[tactic(auto, using(crate::proofs::FileLemmas::file_ports_check))]
fn check_ports_file<'a, F, O>(
    alloc: Global,
    files: &F,
    file: &'a str,
    writer: &mut O,
) -> Result<(), Failure<'a>>
where
    F: ReadFile,
    O: Write,
    ensures { IsPortsCheckOf (F.gives files.now) O.contents file.now writer.old writer.new result }
{
    let read = files.read_file(file, FileLimit::Configuration);
    check_ports_read(alloc, read, writer)
}

// Reports whether a file says a policy.
#[tactic(auto, using(crate::proofs::FileLemmas::file_policy_check))]
fn check_policy_file<'a, F, O>(
    alloc: Global,
    files: &F,
    file: &'a str,
    writer: &mut O,
) -> Result<(), Failure<'a>>
where
    F: ReadFile,
    O: Write,
    ensures { IsPolicyCheckOf (F.gives files.now) O.contents file.now writer.old writer.new result }
{
    let read = files.read_file(file, FileLimit::Policy);
    check_policy_read(alloc, read, writer)
}
