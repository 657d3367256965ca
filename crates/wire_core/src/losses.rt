//! Counts of the datagrams that the system refused to send, by its error numbers.
ghost use Rattle.std.specs.Prelude.{◌≡◌};
ghost use Rattle.std.specs.IoError.{raw_os_error};
ghost use Rattle.wire_core.specs.Losses.{cause_of, cause_at};

use std::alloc::{AllocError, Global};
use std::fmt::{Display, Formatter};
use std::sync::atomic::{AtomicU64, Ordering};
use std::{fmt, io};

/// The greatest error number of the system that has a count of its own: 133, as Linux has them.
pub const MAX_ERROR_NUMBER: i32 = 133;

/// How many causes there are, each with a count of its own: 135.
pub const CAUSES: i32 = MAX_ERROR_NUMBER + 2;

// The system has no memory for what a socket is to send: of a socket that does not wait, its send buffer is
// full.
const EAGAIN: i32 = 11;

/// Why a datagram was lost.
#[derive(Clone, Copy, Debug, PartialEq, Eq, Drop)]
pub enum Cause {
    /// The send buffer of the socket was full.
    BufferFull,
    /// An error of the system of this number, from 1 to `MAX_ERROR_NUMBER`.
    Number(i32),
    /// Any other error.
    Other,
}

/// The cause that an error is: its number, where the system gave it one that is counted.
pub fn cause_of(error: &io::Error) -> Cause
    ensures { result ≡ cause_of (raw_os_error error.now) }
{
    match error.raw_os_error() {
        Some(EAGAIN) => Cause::BufferFull,
        Some(number) if number >= 1 && number <= MAX_ERROR_NUMBER => Cause::Number(number),
        _ => Cause::Other,
    }
}

/// The cause of this place among all, of which the first is at 0 and the last at `CAUSES - 1`: a full send
/// buffer, then each number, then any other error, which is at each later place too. So a loop over the
/// places goes over all causes, each once; the number of a full buffer, 11, has no datagram.
pub fn cause_at(place: i32) -> Cause
    ensures { result ≡ cause_at place }
{
    match place {
        0 => Cause::BufferFull,
        number if number >= 1 && number <= MAX_ERROR_NUMBER => Cause::Number(number),
        _ => Cause::Other,
    }
}

impl Display for Cause {
    /// That the send buffer was full; else the system's words for the number, as
    /// `Invalid argument (os error 22)`.
    fn fmt<W: fmt::Write>(&self, f: &mut Formatter<W>) -> fmt::Result {
        match self {
            Cause::BufferFull => f.write_str("the send buffer was full"),
            Cause::Number(number) => Display::fmt(&io::Error::from_raw_os_error(*number), f),
            Cause::Other => f.write_str("another error"),
        }
    }
}

/// How many datagrams were lost, by cause, for any number of threads at once. No clause says what a
/// count is.
#[derive(Drop)]
pub struct Losses {
    full: AtomicU64,
    // By the number of the error.
    numbers: Vec<AtomicU64>,
    others: AtomicU64,
}

impl Losses {
    /// Nothing is lost yet. Takes memory for a count of 8 octets for each number.
    pub fn new(alloc: Global) -> Result<Losses, AllocError> {
        let mut numbers = Vec::new(alloc);
        for _ in 0..=MAX_ERROR_NUMBER {
            numbers.push(AtomicU64::new(0))?;
        }
        Ok(Losses {
            full: AtomicU64::new(0),
            numbers,
            others: AtomicU64::new(0),
        })
    }

    // The count of a cause.
    fn count_of(&self, cause: Cause) -> &AtomicU64 {
        let number = match cause {
            Cause::BufferFull => return &self.full,
            Cause::Number(number) => usize::try_from(number).ok(),
            Cause::Other => None,
        };
        match number.and_then(|number| self.numbers.get(number)) {
            Some(count) => count,
            None => &self.others,
        }
    }

    /// Counts a datagram that was lost by this cause.
    pub fn add(&self, cause: Cause) {
        self.count_of(cause).fetch_add(1, Ordering::SeqCst);
    }

    /// How many were lost by this cause since it was last asked so. Counts it from 0 again.
    pub fn take(&self, cause: Cause) -> u64 {
        self.count_of(cause).swap(0, Ordering::SeqCst)
    }
}
