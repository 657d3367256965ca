//! What an event gives to send, sent over a wire.
ghost use Rattle.std.specs.Prelude.{◌≡◌, ◌++◌};
ghost use Rattle.live_sending.specs.Packets.{peer_of, packets_to, reply_packets, frame_packets, bpdu_packets_at, bpdu_packets, delivery_packets, outgoing_packets};
ghost use Rattle.live_sending.specs.Sending.{Sends, fault_in, failures_after};

use frame_core::{Bpdu, Mac, SENT_FRAME_LEN, write_bpdu};
use std::net::SocketAddr;
use wire_core::{Wire, WireFault};

/// What an event gives to send ahead of what the ports send.
#[derive(Clone, Copy, Debug, PartialEq, Eq)]
pub enum Delivery<'a> {
    /// Nothing.
    Nothing,
    /// A reply to the peer that asked; an empty one is not sent.
    Reply(SocketAddr, &'a [u8]),
    /// A frame to the peers of these ports, in their order.
    Frame(&'a [u16], &'a [u8]),
}

/// Sends what an event gives to send: its reply or its frame, then what the ports send, from port 1
/// on, to their peers, until something cannot be sent.
///
/// # Errors
/// That of the wire, at the first that cannot be sent.
pub fn send_outgoing<W: Wire>(
    wire: &mut W,
    source: Mac,
    peers: &[SocketAddr],
    delivery: Delivery,
    bpdus: &[Option<Bpdu>],
) -> Result<(), WireFault>
    ensures sends { Sends W.went wire.old (outgoing_packets source peers.now delivery.entry bpdus.now)
        (fault_in result) wire.new }
    ensures failures { W.failures wire.new ≡ failures_after (fault_in result)
        (W.failures wire.old) }
{
    match send_delivery(wire, peers, delivery) {
        Ok(()) => send_bpdus(wire, source, peers, bpdus),
        Err(fault) => Err(fault),
    }
}

// Sends a reply or a frame, if there is one.
fn send_delivery<W: Wire>(
    wire: &mut W,
    peers: &[SocketAddr],
    delivery: Delivery,
) -> Result<(), WireFault>
    ensures sends { Sends W.went wire.old (delivery_packets peers.now delivery.entry) (fault_in result)
        wire.new }
    ensures failures { W.failures wire.new ≡ failures_after (fault_in result)
        (W.failures wire.old) }
{
    match delivery {
        Delivery::Nothing => Ok(()),
        Delivery::Reply(peer, octets) => send_reply(wire, peer, octets),
        Delivery::Frame(ports, octets) => send_frame(wire, peers, ports, octets),
    }
}

// The peer of a port, if it has one.
fn peer_of(peers: &[SocketAddr], port: usize) -> Option<SocketAddr>
    ensures { result ≡ peer_of peers.now port }
{
    if port == 0 {
        return None;
    }
    peers.get(port - 1).copied()
}

// Sends octets to the peer of a port, if it has one.
fn send_to_port<W: Wire>(
    wire: &mut W,
    peers: &[SocketAddr],
    port: usize,
    octets: &[u8],
) -> Result<(), WireFault>
    ensures sends { Sends W.went wire.old (packets_to (peer_of peers.now port) octets.now)
        (fault_in result) wire.new }
    ensures failures { W.failures wire.new ≡ failures_after (fault_in result)
        (W.failures wire.old) }
{
    match peer_of(peers, port) {
        Some(peer) => wire.send(peer, octets),
        None => Ok(()),
    }
}

// Sends a reply to the peer that asked, if it is not empty.
fn send_reply<W: Wire>(wire: &mut W, peer: SocketAddr, reply: &[u8]) -> Result<(), WireFault>
    ensures sends { Sends W.went wire.old (reply_packets peer reply.now) (fault_in result)
        wire.new }
    ensures failures { W.failures wire.new ≡ failures_after (fault_in result)
        (W.failures wire.old) }
{
    if reply.is_empty() {
        return Ok(());
    }
    wire.send(peer, reply)
}

// Sends a frame to the peers of these ports, in their order, until one cannot be sent.
fn send_frame<W: Wire>(
    wire: &mut W,
    peers: &[SocketAddr],
    ports: &[u16],
    octets: &[u8],
) -> Result<(), WireFault>
    ensures sends { Sends W.went wire.old (frame_packets peers.now ports.now octets.now)
        (fault_in result) wire.new }
    ensures failures { W.failures wire.new ≡ failures_after (fault_in result)
        (W.failures wire.old) }
{
    for port in ports {
        send_to_port(wire, peers, usize::from(*port), octets)?;
    }
    Ok(())
}

// Sends what a port sends, if it sends something and has a peer.
fn send_bpdu<W: Wire>(
    wire: &mut W,
    source: Mac,
    peers: &[SocketAddr],
    port: usize,
    bpdu: &Option<Bpdu>,
) -> Result<(), WireFault>
    ensures sends { Sends W.went wire.old (bpdu_packets_at source peers.now port bpdu.now)
        (fault_in result) wire.new }
    ensures failures { W.failures wire.new ≡ failures_after (fault_in result)
        (W.failures wire.old) }
{
    match bpdu {
        Some(bpdu) => {
            let mut frame = [0; SENT_FRAME_LEN];
            write_bpdu(bpdu, source, &mut frame);
            send_to_port(wire, peers, port, &frame)
        }
        None => Ok(()),
    }
}

// Sends what the ports send, from port 1 on, to their peers, until something cannot be sent.
fn send_bpdus<W: Wire>(
    wire: &mut W,
    source: Mac,
    peers: &[SocketAddr],
    bpdus: &[Option<Bpdu>],
) -> Result<(), WireFault>
    ensures sends { Sends W.went wire.old (bpdu_packets source peers.now bpdus.now)
        (fault_in result) wire.new }
    ensures failures { W.failures wire.new ≡ failures_after (fault_in result)
        (W.failures wire.old) }
{
    for i in 0..bpdus.len() {
        send_bpdu(wire, source, peers, i + 1, &bpdus[i])?;
    }
    Ok(())
}
