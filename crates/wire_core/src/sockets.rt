//! The sockets by which frames go to the peers of ports.
ghost use Rattle.std.specs.Prelude.{◌≡◌, All, IfOk};
ghost use Rattle.std.specs.BTreeMap.{get, ContainsKey};
ghost use Rattle.std.specs.Option.{unwrap_or};

use crate::losses::{Losses, cause_of};
use std::alloc::Global;
use std::collections::BTreeMap;
use std::io;
use std::net::{Ipv4Addr, Ipv6Addr, Net, SocketAddr, UdpSocket};

/// A sending socket for each peer of a port, which all wires of an agent share, and the counts of
/// what could not be sent. No send by one of these sockets waits: what the system has no buffer for
/// is lost, so that a peer that does not answer holds up no other. Each is bound to a free port of an
/// unspecified address, of the peer's family. What is sent to it is not read.
#[derive(Drop)]
pub struct SendingSockets {
    by_peer: BTreeMap<SocketAddr, UdpSocket>,
    losses: Losses,
}

impl SendingSockets {
    /// Binds a socket for each of these peers. Takes memory for them, and for the counts.
    ///
    /// # Errors
    /// That of the system, or of a refused growth.
    pub fn bind<R: Net>(rt: &R, alloc: Global, peers: &[SocketAddr]) -> io::Result<SendingSockets>
        ensures { IfOk result (λ sockets.
            All (ContainsKey ⟦<SocketAddr as Ord>⟧.cmp sockets.by_peer) peers.now) }
    {
        let mut by_peer = BTreeMap::new(alloc);
        for peer in peers {
            by_peer.insert(*peer, bind_for(rt, *peer)?)?;
        }
        Ok(SendingSockets {
            by_peer,
            losses: Losses::new(alloc)?,
        })
    }

    /// How many datagrams were lost, by cause.
    pub fn losses(&self) -> &Losses
        ensures { result.now ≡ self.now.losses }
    {
        &self.losses
    }

    // The socket by which a datagram goes to a peer: the peer's own, or where it has none, this one.
    fn socket_of<'s>(&'s self, peer: SocketAddr, other: &'s UdpSocket) -> &'s UdpSocket
        ensures { result.now
            ≡ unwrap_or (get ⟦<SocketAddr as Ord>⟧.cmp self.now.by_peer peer) other.now }
    {
        self.by_peer.get(&peer).unwrap_or(other)
    }

    /// Sends a datagram to a peer: by the peer's own socket, or where it has none, by this one. Where
    /// the system refuses it, it is lost and counted.
    pub(crate) fn send(&self, other: &UdpSocket, peer: SocketAddr, octets: &[u8]) {
        if let Err(error) = self.socket_of(peer, other).send_to(octets, peer) {
            self.losses.add(cause_of(&error));
        }
    }
}

// A socket that sends to a peer and does not wait.
fn bind_for<R: Net>(rt: &R, peer: SocketAddr) -> io::Result<UdpSocket> {
    let socket = match peer {
        SocketAddr::V4(_) => UdpSocket::bind(rt, (Ipv4Addr::UNSPECIFIED, 0))?,
        SocketAddr::V6(_) => UdpSocket::bind(rt, (Ipv6Addr::UNSPECIFIED, 0))?,
    };
    socket.set_nonblocking(true)?;
    Ok(socket)
}
