//! A wire over a UDP socket that is bound at the first send.
use std::alloc::Global;
use std::net::{IpAddr, Ipv4Addr, Ipv6Addr, Net, SocketAddr};
use wire_core::{Received, UdpWire, Wire, WireFault};

/// A wire over a UDP socket of the peer's family, which is bound at the first send. Where it cannot
/// be bound, the send fails.
#[derive(Drop)]
pub struct LateWire<'r, R> {
    rt: &'r R,
    alloc: Global,
    bound: Option<UdpWire>,
    failures: u64,
}

impl<'r, R: Net> LateWire<'r, R> {
    /// One that is not bound yet.
    pub fn new(rt: &'r R, alloc: Global) -> LateWire<'r, R> {
        LateWire {
            rt,
            alloc,
            bound: None,
            failures: 0,
        }
    }
}

// Any address and any port of a peer's family.
fn local_for(peer: SocketAddr) -> SocketAddr {
    let any = match peer.ip() {
        IpAddr::V4(_) => IpAddr::V4(Ipv4Addr::UNSPECIFIED),
        IpAddr::V6(_) => IpAddr::V6(Ipv6Addr::UNSPECIFIED),
    };
    SocketAddr::new(any, 0)
}

impl<R: Net> Wire for LateWire<'_, R> {
    ghost went = { λ _ _ _. Unit };

    ghost failures = { λ w. w.failures };

    ghost starts = { λ _. tt };

    ghost goes_on = { λ _ _ _ _ _ _ _. tt };

    fn receive(&mut self, into: &mut [u8]) -> Result<Received, WireFault> {
        let received = match &mut self.bound {
            Some(wire) => wire.receive(into),
            None => Ok(Received::Closed),
        };
        match received {
            Ok(received) => Ok(received),
            Err(fault) => {
                self.failures = self.failures.saturating_add(1);
                Err(fault)
            }
        }
    }

    fn send(&mut self, peer: SocketAddr, octets: &[u8]) -> Result<(), WireFault> {
        if self.bound.is_none() {
            self.bound = UdpWire::bind(self.rt, self.alloc, local_for(peer)).ok();
        }
        let sent = match &mut self.bound {
            Some(wire) => wire.send(peer, octets),
            None => Err(WireFault::Send),
        };
        match sent {
            Ok(()) => Ok(()),
            Err(fault) => {
                self.failures = self.failures.saturating_add(1);
                Err(fault)
            }
        }
    }
}
