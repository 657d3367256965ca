//! The agent, driven by a script from standard input, or served over UDP.
//!
//! # Entry points
//! `main` reads the words of the command line by `agent_words::read_words`. It puts the 57 objects of
//! `object_list` into boxes, and hands them to `run_objects` with what is asked, the standard streams
//! and the files of the system. That runs `agent_program::run_asked`; where it leaves something to be
//! served, it is served over UDP, for its rounds or without an end, audited or not, with a control socket
//! or without, and it is logged what was done.
//!
//! # Definitions
//! None: what words ask for stands in `agent_words`, what is done for that in `agent_program`.
//!
//! # Laws
//! None.
//!
//! # Not claimed
//! That the words are those of the command line, that the objects that `main` makes are the 57 of
//! `object_list`, which driver stands under dot1dStpPortEnable, that what is left to be served is
//! served, at which path a control socket is made, that the task which writes the log and the audits reports
//! its begin, the status then, and what is logged. What a file of the system holds and a terminal
//! shows.
#![tactic(auto)]

ghost use Rattle.std.specs.Thread.{IsSend};

use agent_program::{
    AskAgent, Failure, Opened, ReadFile, SystemFiles, collect_words, end_answered, log_warnings,
    report, run_asked, serve_opened, serve_opened_forever,
};
use agent_words::{Asked, Lasting, VERSION, asks_to_serve, read_words};
use bridge_mib::{Planned, PortEnable, Steady};
use control_socket::{ControlFault, ControlSocket, bind_control};
use line_output::{Descriptor, LineQueue, LinesInHand, QueuedLog, takes_octets, write_lines};
use live_audit::{Auditing, QueuedAudits};
use log::Log;
use object_list::{COLUMNS, ColumnDescriptor, ENABLE, PlainObject};
use setphase_core::{MibObject, Registry};
use std::alloc::{AllocError, Global};
use std::fmt::Display;
use std::net::Net;
use std::os::unix::fs::MetadataExt;
use std::process::ExitCode;
use std::rt::Files;
use std::sync::{Arc, Wait};
use std::thread::{Threads, join};
use std::time::Clock;
use std::{env, fs, io};
use udp_agent::{any_failed, log_not_begun, log_report, report_fault};
use wire_core::{Startup, TaskStart};

fn main(rt: HostRuntime) -> ExitCode {
    let (mut reader, mut writer, mut errors) = (rt.reader(), io::writer(&rt), rt.stderr());
    let words = match program_words(&rt) {
        Ok(words) => words,
        Err(error) => return failed(&Failure::from(error), &mut errors),
    };
    let asked = match read_words(rt.alloc(), &words, &mut writer, &mut errors) {
        Ok(asked) => asked,
        Err(answered) => return ExitCode::from(end_answered(answered, &mut errors).status),
    };
    let mut objects: Vec<Box<dyn MibObject + Send>> = Vec::new(rt.alloc());
    for column in COLUMNS {
        let Ok(object) = Box::new(rt.alloc(), PlainObject::new(ColumnDescriptor(column))) else {
            return failed(&Failure::Refused, &mut errors);
        };
        let Ok(()) = objects.push(object) else {
            return failed(&Failure::Refused, &mut errors);
        };
    }
    // A served agent has no device that fails; a script has one, which fails where a line says so.
    if asks_to_serve(&asked) {
        let Ok(object) = Box::new(rt.alloc(), PortEnable::new(Steady)) else {
            return failed(&Failure::Refused, &mut errors);
        };
        objects[ENABLE] = object;
    } else {
        let Ok(object) = Box::new(rt.alloc(), PortEnable::new(Planned::new())) else {
            return failed(&Failure::Refused, &mut errors);
        };
        objects[ENABLE] = object;
    }
    run_objects(
        &rt,
        rt.alloc(),
        &SystemFiles(&rt),
        objects,
        asked,
        &mut reader,
        &mut writer,
        &mut errors,
    )
}

// Reports a failure, and gives its exit status.
fn failed<E: io::Write>(failure: &Failure<'_>, errors: &mut E) -> ExitCode {
    ExitCode::from(report(failure, errors).status)
}

// Does what is asked over these objects, and serves what it leaves to be served.
fn run_objects<F, M, I, O, E, R>(
    rt: &R,
    alloc: Global,
    files: &F,
    objects: Vec<M>,
    asked: Asked<'_>,
    reader: &mut I,
    writer: &mut O,
    errors: &mut E,
) -> ExitCode
where
    F: ReadFile + AskAgent,
    M: MibObject + Send,
    I: io::Read,
    O: io::Write + Send,
    E: io::Write + Send,
    R: Threads + Wait + Net + Files + Clock + Log + Sync,
{
    let (ended, left) = run_asked(alloc, files, objects, asked, reader, writer, errors);
    let Some((registry, opened, lasting)) = left else {
        return ExitCode::from(ended.status);
    };
    match lasting {
        Lasting::Rounds => match serve_rounds(rt, alloc, registry, opened) {
            Ok(()) => ExitCode::SUCCESS,
            Err(failure) => failed(&failure, errors),
        },
        Lasting::Forever { audit, control } => {
            let asked = (audit, control);
            match serve_lasting(rt, alloc, registry, opened, asked, writer, errors) {
                Ok(()) => ExitCode::SUCCESS,
                Err(failure) => failed_lasting(&failure, errors),
            }
        }
    }
}

// The numbers of standard output and standard error.
const STANDARD_OUTPUT: i32 = 1;

const STANDARD_ERROR: i32 = 2;

// How long standard error is waited for at the end of an agent without an end, in milliseconds: 1,000.
const LAST_WAIT_MILLIS: u16 = 1000;

// Reports a failure if standard error takes a line, and gives its exit status in any case.
fn failed_lasting<E: io::Write>(failure: &Failure<'_>, errors: &mut E) -> ExitCode {
    if takes_octets(STANDARD_ERROR, LAST_WAIT_MILLIS) {
        failed(failure, errors)
    } else {
        ExitCode::from(failure.status())
    }
}

// Serves until each line is done, and logs what was done, or why there is no report.
fn serve_rounds<M: MibObject + Send, R: Threads + Wait + Net + Clock + Log + Sync>(
    rt: &R,
    alloc: Global,
    registry: Registry<M>,
    opened: Opened,
) -> Result<(), Failure<'static>> {
    match serve_opened(rt, alloc, registry, opened) {
        Ok(done) => {
            log_report(rt, &done);
            Ok(())
        }
        Err(fault) => {
            report_fault(rt, &fault);
            Err(Failure::Run)
        }
    }
}

// Serves without an end, audited or not, and with a control socket at a path, if there is one: a thread of
// its own, which reports that it has begun, writes the log and the audits, so that nothing else waits for an
// output.
fn serve_lasting<M, O, E, R>(
    rt: &R,
    alloc: Global,
    registry: Registry<M>,
    opened: Opened,
    asked: (bool, Option<&str>),
    writer: &mut O,
    errors: &mut E,
) -> Result<(), Failure<'static>>
where
    M: MibObject + Send,
    O: io::Write + Send,
    E: io::Write + Send,
    R: Threads + Wait + Net + Files + Clock + Log + Sync,
{
    let (audit, path) = asked;
    let (queue, startup, mut hand) = match lasting_parts(rt, alloc) {
        Ok(parts) => parts,
        Err(why) => return not_begun_at_once(rt, &io::Error::from(why)),
    };
    let log = QueuedLog::new(rt, alloc, &queue);
    let (queue, startup, log) = (&queue, &startup, &log);
    let mut output = Descriptor::new(STANDARD_OUTPUT, writer);
    let mut error = Descriptor::new(STANDARD_ERROR, errors);
    let audits = auditing(alloc, queue, audit);
    // Where no thread can be made, the agent is served here until its start has failed, and what waits is
    // written behind that.
    let ((), served) = join(
        rt,
        || {
            startup.report(rt);
            write_lines(rt, alloc, queue, &mut hand, &mut output, &mut error)
        },
        move ||
            requires { IsSend M.row }
        {
            serve_queued(
                rt, log, alloc, registry, opened, &audits, path, startup, queue,
            )
        },
    );
    served
}

// What the tasks of an agent without an end share, and the lines in the hand of the one that writes.
fn lasting_parts<R: Files>(
    rt: &R,
    alloc: Global,
) -> Result<(LineQueue, Arc<Startup, Global>, LinesInHand), AllocError> {
    Ok((
        LineQueue::new(alloc)?,
        Arc::new(alloc, Startup::new())?,
        LinesInHand::new(alloc, may_be_one_file(rt))?,
    ))
}

// Whether standard output and standard error may be one file: they count as one where the system does not
// say.
fn may_be_one_file<F: Files>(files: &F) -> bool {
    let (Ok(output), Ok(error)) = (
        fs::metadata(files, "/proc/self/fd/1"),
        fs::metadata(files, "/proc/self/fd/2"),
    ) else {
        return true;
    };
    output.dev() == error.dev() && output.ino() == error.ino()
}

// Whether requests are audited, and by which queue their lines go.
fn auditing<'q>(alloc: Global, queue: &'q LineQueue, audit: bool) -> Auditing<'q> {
    if audit {
        Auditing::On(QueuedAudits::new(alloc, queue))
    } else {
        Auditing::Off
    }
}

// Nothing was served: logs why.
fn not_begun<G: Log, E: Display>(log: &G, why: &E) -> Result<(), Failure<'static>> {
    log_not_begun(log, why);
    Err(Failure::Run)
}

// The same ahead of the task that writes the log: logs why if standard error takes a line.
fn not_begun_at_once<G: Log, E: Display>(log: &G, why: &E) -> Result<(), Failure<'static>> {
    if takes_octets(STANDARD_ERROR, LAST_WAIT_MILLIS) {
        log_not_begun(log, why);
    }
    Err(Failure::Run)
}

// The control socket at a path, if there is one, whose task is one of this start.
fn bind_path<'r, R: Net + Files>(
    rt: &'r R,
    path: Option<&str>,
    startup: &Arc<Startup, Global>,
) -> Result<Option<ControlSocket<&'r R>>, ControlFault> {
    match path {
        Some(path) => {
            let start = TaskStart::new(startup)?;
            Ok(Some(bind_control(rt, rt, path, start)?))
        }
        None => Ok(None),
    }
}

// Serves without an end by a queue of lines, and then closes it, so that the task which writes them ends.
fn serve_queued<'r, M, G, R>(
    rt: &'r R,
    log: &'r G,
    alloc: Global,
    registry: Registry<M>,
    opened: Opened,
    audits: &Auditing<'r>,
    path: Option<&str>,
    startup: &Arc<Startup, Global>,
    queue: &LineQueue,
) -> Result<(), Failure<'static>>
where
    M: MibObject + Send,
    G: Log + Sync,
    R: Threads + Wait + Net + Files + Clock + Sync,
{
    let served = serve_bound(rt, log, alloc, registry, opened, audits, path, startup);
    queue.close(rt);
    served
}

// Serves without an end, with a control socket at this path, if there is one, and logs first what is warned of
// in the configuration, then how the lines go on, or why nothing was served.
fn serve_bound<'r, M, G, R>(
    rt: &'r R,
    log: &'r G,
    alloc: Global,
    registry: Registry<M>,
    opened: Opened,
    audits: &Auditing<'r>,
    path: Option<&str>,
    startup: &Arc<Startup, Global>,
) -> Result<(), Failure<'static>>
where
    M: MibObject + Send,
    G: Log + Sync,
    R: Threads + Wait + Net + Files + Clock + Sync,
{
    log_warnings(log, alloc, opened.warnings.as_deref());
    match bind_path(rt, path, startup) {
        Ok(control) => serve_forever(rt, log, alloc, registry, opened, audits, control, startup),
        Err(why) => not_begun(log, &why),
    }
}

// Serves without an end, and logs how the lines go on, or why nothing was served, also where a task of this
// start had not begun in time. It has failed then, or where all lines have ended and one of them failed.
fn serve_forever<'r, M, G, R>(
    rt: &'r R,
    log: &'r G,
    alloc: Global,
    registry: Registry<M>,
    opened: Opened,
    audits: &Auditing<'r>,
    control: Option<ControlSocket<&'r R>>,
    startup: &Arc<Startup, Global>,
) -> Result<(), Failure<'static>>
where
    M: MibObject + Send,
    G: Log + Sync,
    R: Threads + Wait + Net + Clock + Sync,
{
    match serve_opened_forever(
        rt, log, alloc, VERSION, registry, opened, audits, control, startup,
    ) {
        Ok(ends) if any_failed(ends.as_slice()) => Err(Failure::Run),
        Ok(_) => Ok(()),
        Err(why) => not_begun(log, &why),
    }
}

// The words of the command line, the program's name first.
fn program_words(rt: &HostRuntime) -> io::Result<Vec<String>> {
    collect_words(rt.alloc(), env::args(rt)?)
}
