//! A wire over a UDP socket, for an agent that is served without an end.
ghost use Rattle.std.specs.Prelude.{◌≡◌, length, IfOk, IfErr, OnOk, OnErr};
ghost use Rattle.std.specs.IoError.{raw_os_error, error_kind};
ghost use Rattle.wire_core.specs.Acts.{IsWithin, one_more};
ghost use Rattle.wire_core.specs.declared.wire.WireFault.TheVariants.{Receive};
ghost use Rattle.wire_core.specs.Receiving.{is_gone, failed_by, received_of};

use crate::send_buffer::{send_buffer, set_send_buffer};
use crate::sockets::SendingSockets;
use crate::startup::{Startup, TaskStart};
use crate::udp::{RECEIVE_WAIT_MILLIS, gave_nothing};
use crate::wire::{Received, Wire, WireFault, count_failure};
use std::alloc::Global;
use std::net::{Net, SocketAddr, UdpSocket};
use std::sync::Arc;
use std::time::{Clock, Duration};
use std::{io, thread};

/// How long a receive waits that failed though its socket is there, in milliseconds: 5.
pub const FAULT_WAIT_MILLIS: u64 = 5;

// How long a send waits for the system's buffer, in microseconds. A shorter wait would be none.
const SEND_WAIT_MICROS: u64 = 1;

// No open file has the descriptor.
const EBADF: i32 = 9;

// What the descriptor is of is no socket.
const ENOTSOCK: i32 = 88;

// The socket takes no datagrams.
const EOPNOTSUPP: i32 = 95;

/// A wire over a bound UDP socket, which it may share with others. A receive waits for
/// `RECEIVE_WAIT_MILLIS`, and gives nothing then. It fails only where the socket is gone; at any
/// other error it waits for `FAULT_WAIT_MILLIS`, and gives nothing.
///
/// No send fails. What goes to the peer of a port goes by that peer's own socket, anything else by
/// this one, at which a send waits as short as the system lets it. A datagram that the system refuses
/// is lost, and counted by its cause among the [`SendingSockets`]' losses.
///
/// Its first receive reports to the agent's [`Startup`] that its task has begun. Where the start has
/// failed, before a receive or behind it, the wire is closed, and what it received is passed over; a receive
/// that fails gives its fault all the same, and the next one that it is closed.
#[derive(Drop)]
pub struct LastingWire<C> {
    socket: Arc<UdpSocket, Global>,
    sending: Arc<SendingSockets, Global>,
    clock: C,
    start: TaskStart,
    failures: u64,
}

impl<C: Clock + Copy> LastingWire<C> {
    /// Binds a socket to an address, beside these sending sockets, as one of the tasks of this start, with
    /// a clock by which a receive that failed waits. Takes memory for what its wires share.
    ///
    /// # Errors
    /// That of the system, or of a refused growth.
    pub fn bind<R: Net>(
        rt: &R,
        alloc: Global,
        address: SocketAddr,
        sending: &Arc<SendingSockets, Global>,
        startup: &Arc<Startup, Global>,
        clock: C,
    ) -> io::Result<LastingWire<C>> {
        let socket = UdpSocket::bind(rt, address)?;
        socket.set_read_timeout(Some(Duration::from_millis(RECEIVE_WAIT_MILLIS)))?;
        socket.set_write_timeout(Some(Duration::from_micros(SEND_WAIT_MICROS)))?;
        Ok(LastingWire {
            socket: Arc::new(alloc, socket)?,
            sending: Arc::try_clone(sending)?,
            clock,
            start: TaskStart::new(startup)?,
            failures: 0,
        })
    }

    /// Another wire over the same socket, of another task, with a count of failures of its own. A
    /// datagram that comes is given to one of them.
    ///
    /// # Errors
    /// That there are as many wires over the socket as can be counted.
    pub fn share(&self) -> io::Result<LastingWire<C>> {
        Ok(LastingWire {
            socket: Arc::try_clone(&self.socket)?,
            sending: Arc::try_clone(&self.sending)?,
            clock: self.clock,
            start: self.start.another()?,
            failures: 0,
        })
    }

    /// Asks the system for a send buffer of so many octets at its socket, which all wires over it share, and
    /// gives how many it is of afterwards. The system gives no more than its limit (of Linux
    /// `net.core.wmem_max`), without an error. Linux reports twice what it takes for octets, since as much
    /// goes to its own use; here it is half of that.
    ///
    /// # Errors
    /// That of the system.
    pub fn widen_send_buffer(&self, octets: u32) -> io::Result<usize> {
        set_send_buffer(&self.socket, octets)?;
        send_buffer(&self.socket)
    }

    /// The address to which its socket is bound.
    ///
    /// # Errors
    /// That of the system.
    pub fn local_addr(&self) -> io::Result<SocketAddr> {
        self.socket.local_addr()
    }
}

impl<C: Clock + Drop> LastingWire<C> {
    // What arrives at the socket while it waits.
    fn receive_from(&mut self, into: &mut [u8]) -> Result<Received, WireFault>
        ensures within { IfOk result (IsWithin (length into.new)) }
        ensures fault { IfErr result (λ fault. fault ≡ Receive) }
        ensures kept { OnOk result (self.new.failures ≡ self.old.failures) }
        ensures failed { OnErr result (self.new.failures ≡ one_more self.old.failures) }
    {
        let answer = self.socket.recv_from(into);
        self.received(answer)
    }

    // What a receive gives that the system answered so. Behind an error of a socket that is there it waits.
    fn received(&mut self, answer: io::Result<(usize, SocketAddr)>) -> Result<Received, WireFault>
        ensures received { result ≡ received_of answer }
        ensures kept { OnOk result (self.new.failures ≡ self.old.failures) }
        ensures failed { OnErr result (self.new.failures ≡ one_more self.old.failures) }
    {
        let error = match answer {
            Ok((len, peer)) => return Ok(Received::Datagram(len, peer)),
            Err(error) => error,
        };
        match failed_by(&error) {
            FailedReceive::SocketGone => {
                Err(count_failure(&mut self.failures, WireFault::Receive))
            }
            FailedReceive::NothingCame => Ok(Received::Nothing),
            FailedReceive::Faulty => {
                thread::sleep(&self.clock, Duration::from_millis(FAULT_WAIT_MILLIS));
                Ok(Received::Nothing)
            }
        }
    }
}

impl<C: Clock + Drop> Wire for LastingWire<C> {
    ghost use Rattle.wire_core.specs.Lasting.{NoSendFails};
    ghost use Rattle.wire_core.specs.LastingLaws.{goes_on};

    ghost went = { λ _ acts _. NoSendFails acts };

    ghost failures = { λ w. w.failures };

    ghost starts = { λ _. tt };

    ghost goes_on = { λ _ _ _ xs ys before after. goes_on xs ys before after };

    fn receive(&mut self, into: &mut [u8]) -> Result<Received, WireFault> {
        if self.start.is_to_end(&self.clock) {
            return Ok(Received::Closed);
        }
        let received = self.receive_from(into)?;
        if self.start.is_to_end(&self.clock) {
            return Ok(Received::Closed);
        }
        Ok(received)
    }

    fn send(&mut self, peer: SocketAddr, octets: &[u8]) -> Result<(), WireFault> {
        self.sending.send(&self.socket, peer, octets);
        Ok(())
    }
}

// What an error of a receive says.
#[derive(Clone, Copy)]
enum FailedReceive {
    // No socket is there any more.
    SocketGone,
    // No datagram came.
    NothingCame,
    // The socket is there, and at fault.
    Faulty,
}

// What an error of a receive says.
fn failed_by(error: &io::Error) -> FailedReceive
    ensures { result ≡ failed_by (raw_os_error error.now) (error_kind error.now) }
{
    if is_gone(error) {
        FailedReceive::SocketGone
    } else if gave_nothing(error.kind()) {
        FailedReceive::NothingCame
    } else {
        FailedReceive::Faulty
    }
}

// Whether an error says that the socket is gone.
fn is_gone(error: &io::Error) -> bool
    ensures { result ≡ is_gone (raw_os_error error.now) }
{
    matches!(error.raw_os_error(), Some(EBADF | ENOTSOCK | EOPNOTSUPP))
}
