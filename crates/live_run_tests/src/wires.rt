//! What each wire gives and what each pace answers, by their traits.
use crate::support::loopback;
use std::net::{IpAddr, Ipv6Addr, SocketAddr};
use std::sync::Arc;
use std::test::*;
use wire_core::{
    Cause, CountPace, LastingWire, Pace, Received, SecondPace, SendingSockets, Startup, UdpWire,
    Wire, WireFault,
};

/// What a receive of up to four octets gave: the peer's port, how many octets, and the first of them.
pub fn received<W: Wire>(wire: &mut W) -> Result<Option<(u16, usize, u8)>, &'static str> {
    let mut octets = [0u8; 4];
    match wire.receive(&mut octets) {
        Ok(Received::Datagram(len, peer)) => Ok(Some((peer.port(), len, octets[0]))),
        Ok(Received::Nothing) => Ok(None),
        Ok(Received::Closed) => Err("closed"),
        Err(_) => Err("fault"),
    }
}

#[test]
fn udp_goes_over_the_loopback(rt: HostRuntime) -> Result<(), Fail> {
    let alloc = rt.alloc();
    let mut server = UdpWire::bind(&rt, alloc, loopback(0))?;
    let mut client = UdpWire::bind(&rt, alloc, loopback(0))?;
    let (at, from) = (server.local_addr()?, client.local_addr()?);
    let sent = (client.send(at, &[3, 4]), client.send(at, &[6]));
    let mut shared = server.share()?;
    let received = (received(&mut server), received(&mut shared));
    let wanted = (Ok(Some((from.port(), 2, 3))), Ok(Some((from.port(), 1, 6))));
    assert_eq!(rt; (sent, received), ((Ok(()), Ok(())), wanted));
    Ok(())
}

// Who asks from port 0 can be sent nothing, and the wire goes on; an address of another kind is a fault.
#[test]
fn udp_loses_what_nobody_can_take(rt: HostRuntime) -> Result<(), Fail> {
    let mut wire = UdpWire::bind(&rt, rt.alloc(), loopback(0))?;
    let (own, other) = (
        wire.local_addr()?,
        SocketAddr::new(IpAddr::V6(Ipv6Addr::LOCALHOST), 9),
    );
    let sent = (
        wire.send(loopback(0), &[1]),
        wire.send(other, &[1]),
        wire.send(own, &[2]),
    );
    let received = received(&mut wire);
    let wanted = (Ok(()), Err(WireFault::Send), Ok(()));
    assert_eq!(rt; (sent, received), (wanted, Ok(Some((own.port(), 1, 2)))));
    Ok(())
}

// The number of the error by which the system refuses to send to port 0.
const INVALID_ARGUMENT: Cause = Cause::Number(22);

// What is refused is lost, and counted once by its cause; what goes to a peer with a socket of its
// own comes from there.
#[test]
fn lasting_wire_loses_what_is_refused(rt: HostRuntime) -> Result<(), Fail> {
    let alloc = rt.alloc();
    let mut other = UdpWire::bind(&rt, alloc, loopback(0))?;
    let at = other.local_addr()?;
    let sending = Arc::new(alloc, SendingSockets::bind(&rt, alloc, &[at])?)?;
    let startup = Arc::new(alloc, Startup::new())?;
    let mut wire = LastingWire::bind(&rt, alloc, loopback(0), &sending, &startup, &rt)?;
    let own = wire.local_addr()?;
    let refused = (wire.send(loopback(0), &[1]), wire.send(loopback(0), &[1]));
    let sent = (wire.send(own, &[2]), wire.send(at, &[3, 4]));
    let losses = sending.losses();
    let counted = (
        losses.take(INVALID_ARGUMENT),
        losses.take(INVALID_ARGUMENT),
        losses.take(Cause::Other),
    );
    let by_another = received(&mut other).map(|given| given.map(|(port, len, first)| (
        port == own.port(),
        len,
        first,
    )));
    assert_eq!(rt; (refused, sent), ((Ok(()), Ok(())), (Ok(()), Ok(()))));
    assert_eq!(rt; counted, (2, 0, 0));
    assert_eq!(rt; received(&mut wire), Ok(Some((own.port(), 1, 2))));
    assert_eq!(rt; by_another, Ok(Some((false, 2, 3))));
    Ok(())
}

// The send buffer that a wire asks for is the one that it gets, as far as the system gives one.
#[test]
fn send_buffer_is_as_large_as_asked_for(rt: HostRuntime) -> Result<(), Fail> {
    let alloc = rt.alloc();
    let sending = Arc::new(alloc, SendingSockets::bind(&rt, alloc, &[])?)?;
    let startup = Arc::new(alloc, Startup::new())?;
    let wire = LastingWire::bind(&rt, alloc, loopback(0), &sending, &startup, &rt)?;
    let sizes = (
        wire.widen_send_buffer(8192)?,
        wire.widen_send_buffer(16_384)?,
    );
    assert_eq!(rt; sizes, (8192, 16_384));
    Ok(())
}

#[test]
fn paces_go_on(rt: HostRuntime) -> Result<(), Fail> {
    let mut count = CountPace::new(1);
    let mut second = SecondPace::new(&rt);
    let counted = (count.next(), count.next(), count.next());
    assert_eq!(rt; (counted, second.next()), ((true, false, false), true));
    Ok(())
}
