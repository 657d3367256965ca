//! Reads a command from a connection.
ghost use Rattle.std.specs.Prelude.{◌≡◌, ◌≤◌, length, IfOk, IfSome};
ghost use Rattle.control_text.specs.Commands.{is_one_line};
ghost use Rattle.control_socket.specs.Whole.{is_whole};

use std::io::{self, ErrorKind, Read};
use std::os::unix::net::UnixStream;
use std::time::{Clock, Duration, Instant};

/// How long an operator has for a command, in milliseconds: 2,000.
pub const COMMAND_WAIT_MILLIS: u64 = 2000;

/// How long it is from now until so many milliseconds have passed since a start; nothing where they have.
///
/// # Errors
/// That of the clock.
pub(crate) fn time_left<C: Clock>(
    clock: &C,
    start: Instant,
    millis: u64,
) -> io::Result<Option<Duration>> {
    let left = Duration::from_millis(millis).saturating_sub(start.elapsed(clock)?);
    if left.is_zero() {
        Ok(None)
    } else {
        Ok(Some(left))
    }
}

/// Reads a command into a slice, until it is whole, the connection ends or the slice is full: how many
/// octets it has. None where nothing came, or where it was not whole in the time.
///
/// # Errors
/// That of the clock or of the connection.
pub(crate) fn read_command<C: Clock>(
    clock: &C,
    stream: &UnixStream,
    into: &mut [u8],
) -> io::Result<Option<usize>>
    ensures { IfOk result (λ read. IfSome read (λ len. len ≤ length into.new)) }
{
    let start = Instant::now(clock)?;
    let mut stream = stream;
    let mut len = 0usize;
    for _ in 0..u64::MAX {
        if len == into.len() || is_whole(&into[..len]) {
            return Ok(Some(len));
        }
        let Some(left) = time_left(clock, start, COMMAND_WAIT_MILLIS)? else {
            return Ok(None);
        };
        stream.set_read_timeout(Some(left))?;
        match stream.read(&mut into[len..]) {
            Ok(0) if len == 0 => return Ok(None),
            Ok(0) => return Ok(Some(len)),
            Ok(count) => len += count,
            Err(error) if error.kind() == ErrorKind::Interrupted => {}
            Err(error) => return Err(error),
        }
    }
    Ok(None)
}

// Whether octets are a whole command: a policy by its last line, any other by its first.
fn is_whole(octets: &[u8]) -> bool
    ensures { result ≡ is_whole octets.now }
{
    if octets.starts_with(b"policy\n") {
        octets.ends_with(b"\nend\n")
    } else {
        !is_one_line(octets)
    }
}

// Whether there is no line feed.
fn is_one_line(octets: &[u8]) -> bool
    ensures { result ≡ is_one_line octets.now }
{
    octets.iter().all(|octet| *octet != b'\n')
}
