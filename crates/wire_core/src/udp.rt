//! A wire over a UDP socket.
ghost use Rattle.std.specs.Prelude.{◌≡◌};
ghost use Rattle.wire_core.specs.Receiving.{gave_nothing};

use crate::wire::{Received, Wire, WireFault, count_failure};
use std::alloc::Global;
use std::io;
use std::io::ErrorKind;
use std::net::{Net, SocketAddr, UdpSocket};
use std::sync::Arc;
use std::time::Duration;

/// How long a receive waits for a datagram, in milliseconds: 1,000.
pub const RECEIVE_WAIT_MILLIS: u64 = 1000;

/// A wire over a bound UDP socket, which it may share with others. A receive waits for
/// `RECEIVE_WAIT_MILLIS`, and gives nothing then. A datagram for a peer that is out of reach at the
/// time is lost, as others on their way are, and no failure: who asks from such a place must not end
/// the wire. So is one for port 0, which is not sent. Both count as sent. It gives its count of failures and
/// no more.
#[derive(Drop)]
pub struct UdpWire {
    socket: Arc<UdpSocket, Global>,
    failures: u64,
}

impl UdpWire {
    /// Binds a socket to an address. Takes memory for what its wires share.
    ///
    /// # Errors
    /// That of the system, or of a refused growth.
    pub fn bind<R: Net>(rt: &R, alloc: Global, address: SocketAddr) -> io::Result<UdpWire> {
        let socket = UdpSocket::bind(rt, address)?;
        socket.set_read_timeout(Some(Duration::from_millis(RECEIVE_WAIT_MILLIS)))?;
        Ok(UdpWire {
            socket: Arc::new(alloc, socket)?,
            failures: 0,
        })
    }

    /// Another wire over the same socket, with a count of failures of its own. A datagram that
    /// comes is given to one of them.
    ///
    /// # Errors
    /// That there are as many wires over the socket as can be counted.
    pub fn share(&self) -> io::Result<UdpWire> {
        Ok(UdpWire {
            socket: Arc::try_clone(&self.socket)?,
            failures: 0,
        })
    }

    /// The address to which its socket is bound.
    ///
    /// # Errors
    /// That of the system.
    pub fn local_addr(&self) -> io::Result<SocketAddr> {
        self.socket.local_addr()
    }
}

impl Wire for UdpWire {
    ghost went = { λ _ _ _. Unit };

    ghost failures = { λ w. w.failures };

    ghost starts = { λ _. tt };

    ghost goes_on = { λ _ _ _ _ _ _ _. tt };

    fn receive(&mut self, into: &mut [u8]) -> Result<Received, WireFault> {
        match self.socket.recv_from(into) {
            Ok((len, peer)) => Ok(Received::Datagram(len, peer)),
            Err(error) if gave_nothing(error.kind()) => Ok(Received::Nothing),
            Err(_) => Err(count_failure(&mut self.failures, WireFault::Receive)),
        }
    }

    fn send(&mut self, peer: SocketAddr, octets: &[u8]) -> Result<(), WireFault> {
        // Nobody is at port 0, but a datagram may say that it comes from there.
        if peer.port() == 0 {
            return Ok(());
        }
        match self.socket.send_to(octets, peer) {
            Ok(_) => Ok(()),
            Err(error) if is_out_of_reach(error.kind()) => Ok(()),
            Err(_) => Err(count_failure(&mut self.failures, WireFault::Send)),
        }
    }
}

// Whether a read that ended so only gave nothing: its time ran out, a signal came, or a peer
// refused an earlier datagram (an ICMP answer, which reports nothing of this socket's own state).
pub(crate) fn gave_nothing(kind: ErrorKind) -> bool
    ensures { result ≡ gave_nothing kind }
{
    matches!(
        kind,
        ErrorKind::WouldBlock
            | ErrorKind::TimedOut
            | ErrorKind::Interrupted
            | ErrorKind::ConnectionRefused
            | ErrorKind::ConnectionReset
    )
}

// Whether a send that ended so says only that its peer is out of reach at the time: by no route, by a
// filter of packets, or since the system's space for what is to go out is full.
fn is_out_of_reach(kind: ErrorKind) -> bool {
    matches!(
        kind,
        ErrorKind::NetworkUnreachable
            | ErrorKind::HostUnreachable
            | ErrorKind::NetworkDown
            | ErrorKind::ConnectionRefused
            | ErrorKind::PermissionDenied
            | ErrorKind::WouldBlock
            | ErrorKind::Interrupted
    )
}
