//! Sends a command to a control socket, and takes the answer.
use crate::connecting::connect;
use crate::reading::{COMMAND_WAIT_MILLIS, time_left};
use std::alloc::Global;
use std::io::{self, ErrorKind, Read, Write};
use std::net::{Net, Shutdown};
use std::os::unix::net::UnixStream;
use std::time::{Clock, Duration, Instant};

/// The most octets of an answer that are taken.
pub const MAX_ANSWER: usize = 65_536;

// How many octets are read at once.
const PART: usize = 4096;

/// Sends a command to the agent whose control socket has this path, and gives what it answers within
/// two seconds; nothing is an answer too, as to a link by which no port sends, where the whole command
/// was sent. Where as many others wait there as the system lets wait, it connects within two seconds.
///
/// # Errors
/// That of the system, `TimedOut` where it could not connect, or the answer did not end, in the time, or
/// that there was no memory for the answer.
pub fn ask_agent<R: Net + Clock>(
    rt: &R,
    alloc: Global,
    path: &str,
    command: &[u8],
) -> io::Result<Vec<u8>> {
    let stream = connect(rt, path)?;
    stream.set_write_timeout(Some(Duration::from_millis(COMMAND_WAIT_MILLIS)))?;
    // An agent that has read enough of a command answers and ends the connection.
    let taken = (&mut &stream).write_all(command);
    let ended = stream.shutdown(Shutdown::Write);
    let answer = read_answer(rt, alloc, &stream)?;
    if answer.is_empty() {
        taken?;
        ended?;
    }
    Ok(answer)
}

// Reads an answer until the connection ends.
fn read_answer<C: Clock>(clock: &C, alloc: Global, stream: &UnixStream) -> io::Result<Vec<u8>> {
    let start = Instant::now(clock)?;
    let mut stream = stream;
    let mut answer = Vec::new(alloc);
    let mut part = [0u8; PART];
    for _ in 0..u64::MAX {
        if answer.len() >= MAX_ANSWER {
            return Ok(answer);
        }
        let Some(left) = time_left(clock, start, COMMAND_WAIT_MILLIS)? else {
            return Err(io::Error::from(ErrorKind::TimedOut));
        };
        stream.set_read_timeout(Some(left))?;
        match stream.read(&mut part) {
            Ok(0) => return Ok(answer),
            Ok(count) => answer.extend_from_slice(&part[..count])?,
            Err(error) if error.kind() == ErrorKind::Interrupted => {}
            // The agent answered, and did not read all of the command.
            Err(error) if error.kind() == ErrorKind::ConnectionReset && !answer.is_empty() => {
                return Ok(answer);
            }
            Err(error) => return Err(error),
        }
    }
    Ok(answer)
}
