//! The send buffer of a socket.
use libc::net as c;
use std::io;
use std::net::UdpSocket;
use std::os::fd::AsRawFd;

// The octets of an `int` of the system.
const INT_OCTETS: u32 = 4;

/// Asks for a send buffer of so many octets.
///
/// # Errors
/// That of the system.
pub(crate) fn set_send_buffer(socket: &UdpSocket, octets: u32) -> io::Result<()> {
    let mut value = [0u8; 16];
    let asked = i32::try_from(octets).unwrap_or(i32::MAX);
    value[..4].copy_from_slice(&asked.to_ne_bytes());
    let fd = socket.as_raw_fd();
    let status = unsafe { c::setsockopt(fd, c::SOL_SOCKET, c::SO_SNDBUF, &value, INT_OCTETS) };
    check(status)
}

/// How many octets of datagrams the send buffer takes: half of what the system reports, of which the other
/// half is for its own use.
///
/// # Errors
/// That of the system.
pub(crate) fn send_buffer(socket: &UdpSocket) -> io::Result<usize> {
    let (mut value, mut octets) = ([0u8; 16], INT_OCTETS);
    let fd = socket.as_raw_fd();
    let status = unsafe { c::getsockopt(fd, c::SOL_SOCKET, c::SO_SNDBUF, &mut value, &mut octets) };
    check(status)?;
    let reported = i32::from_ne_bytes([value[0], value[1], value[2], value[3]]);
    Ok(usize::try_from(reported).unwrap_or(0) / 2)
}

// The error of a call that answered so, if it failed.
fn check(status: i32) -> io::Result<()> {
    if status < 0 {
        Err(io::Error::from_raw_os_error(os::errno()))
    } else {
        Ok(())
    }
}
