//! Connects to a control socket.
use crate::reading::{COMMAND_WAIT_MILLIS, time_left};
use std::io::{self, ErrorKind};
use std::net::Net;
use std::os::unix::net::UnixStream;
use std::thread;
use std::time::{Clock, Duration, Instant};

// How long it pauses between two tries, in milliseconds.
const TRY_PAUSE_MILLIS: u64 = 20;

/// A connection to the socket at this path. Where as many others wait there as the system lets wait, it is
/// tried again, for `COMMAND_WAIT_MILLIS`.
///
/// # Errors
/// That of the system or of the clock; `TimedOut` where as many wait all the time.
pub(crate) fn connect<R: Net + Clock>(rt: &R, path: &str) -> io::Result<UnixStream> {
    let start = Instant::now(rt)?;
    for _ in 0..u64::MAX {
        match mio::net::UnixStream::connect(rt, path) {
            Ok(stream) => return waiting(stream),
            Err(error) if error.kind() == ErrorKind::WouldBlock => {}
            Err(error) => return Err(error),
        }
        if time_left(rt, start, COMMAND_WAIT_MILLIS)?.is_none() {
            break;
        }
        thread::sleep(rt, Duration::from_millis(TRY_PAUSE_MILLIS));
    }
    Err(io::Error::from(ErrorKind::TimedOut))
}

// The same connection, whose reads and writes wait.
fn waiting(stream: mio::net::UnixStream) -> io::Result<UnixStream> {
    let stream = UnixStream::from(stream);
    stream.set_nonblocking(false)?;
    Ok(stream)
}
