//! Where lines go.

use libc::getrlimit;
use libc::net::{POLLOUT, poll};
use libc::types::{pollfd, rlimit};
use std::io::{self, Write};

/// An output that may be asked whether it takes octets, before these are written to it.
pub trait Outlet: Write {
    /// Whether it takes octets now, or does so within this many milliseconds. An output to which a write
    /// would fail takes them: the write reports the fault.
    fn is_ready(&self, millis: u16) -> bool;
}

/// The output of this number, by a writer that writes to it.
#[derive(Drop)]
pub struct Descriptor<W> {
    number: i32,
    writer: W,
}

impl<W> Descriptor<W> {
    /// The output of this number: 1 for standard output, 2 for standard error.
    pub fn new(number: i32, writer: W) -> Descriptor<W> {
        Descriptor { number, writer }
    }
}

impl<W: Write> Write for Descriptor<W> {
    ghost contents = { λ outlet. W.contents outlet.writer };

    fn write(&mut self, buf: &[u8]) -> io::Result<usize> {
        self.writer.write(buf)
    }

    fn flush(&mut self) -> io::Result<()> {
        self.writer.flush()
    }
}

impl<W: Write> Outlet for Descriptor<W> {
    fn is_ready(&self, millis: u16) -> bool {
        takes_octets(self.number, millis)
    }
}

// The resource of the sizes of files.
const RLIMIT_FSIZE: i32 = 1;

/// Whether the output of this number takes octets, or a write to it fails at once, now or within this many
/// milliseconds: at most 4,096 octets that are written then are not waited for at a pipe, a socket or a file.
pub fn takes_octets(number: i32, millis: u16) -> bool {
    let mut asked = [pollfd {
        fd: number,
        events: POLLOUT,
        revents: 0,
    }];
    poll(&mut asked, i32::from(millis)) > 0
}

/// The most octets that a file may have which the process writes, where the system sets such a limit.
pub fn file_size_limit() -> Option<u64> {
    let mut limit = rlimit {
        rlim_cur: u64::MAX,
        rlim_max: u64::MAX,
    };
    let answer = getrlimit(RLIMIT_FSIZE, &mut limit);
    (answer == 0 && limit.rlim_cur != u64::MAX).then_some(limit.rlim_cur)
}
