//! A wire in memory.
ghost use Rattle.std.specs.Prelude.{◌≡◌, ◌≤◌, ◌++◌, ◌∷◌, [], take, length, OnOk, OnErr};
ghost use Rattle.wire_core.specs.Memory.{datagram_given};
ghost use Rattle.wire_core.specs.declared.memory.WireInput.{WireInput};

use crate::wire::{Packet, Received, Wire, WireFault, count_failure};
use message_core::Octets;
use std::alloc::{AllocError, Global};
use std::collections::VecDeque;
use std::marker::Model;
use std::net::SocketAddr;

/// What a wire in memory is to give at one receive.
#[derive(Drop)]
pub enum WireInput {
    /// A datagram.
    Datagram(Packet),
    /// Nothing, as if its time had run out.
    Nothing,
    /// A fault.
    Fault,
}

/// A wire that gives what it was handed, in order, is closed behind that, and keeps what was sent.
/// It is seen as what is left to give, what was sent, and how often it has failed.
#[derive(Drop)]
pub struct MemoryWire {
    alloc: Global,
    left: VecDeque<WireInput>,
    sent: Vec<Packet>,
    failures: u64,
}

impl Model for MemoryWire {
    ghost use Rattle.wire_core.specs.Memory.{MemoryLine};

    ghost Value = { MemoryLine };

    ghost view = { λ w.
        record { left = w.left.items; sent = w.sent.items; failures = w.failures } };
}

impl MemoryWire {
    /// One that has nothing to give, and was sent nothing. Takes no memory.
    pub fn new(alloc: Global) -> MemoryWire
        ensures { result ≡ record { left = []; sent = []; failures = 0 } }
    {
        MemoryWire {
            alloc,
            left: VecDeque::new(alloc),
            sent: Vec::new(alloc),
            failures: 0,
        }
    }

    /// Hands it one thing more to give, behind the others. Takes memory; without it, nothing
    /// changes.
    pub fn give(&mut self, given: WireInput) -> Result<(), AllocError>
        ensures ok { OnOk result (self.new
            ≡ record self.old { left = self.old.left ++ given ∷ [] }) }
        ensures err { OnErr result (self.new ≡ self.old) }
    {
        self.left.push_back(given)?;
        Ok(())
    }

    /// Hands it a datagram of a peer to give, behind the others. Takes memory; without it, nothing
    /// changes.
    pub fn give_datagram(&mut self, peer: SocketAddr, octets: &[u8]) -> Result<(), AllocError>
        ensures ok { OnOk result (self.new
            ≡ record self.old { left = self.old.left ++ datagram_given peer octets.now ∷ [] }) }
        ensures err { OnErr result (self.new ≡ self.old) }
    {
        let octets = Octets::from_slice(self.alloc, octets)?;
        self.give(WireInput::Datagram(Packet { peer, octets }))
    }

    /// What was sent, in order.
    pub fn sent(&self) -> &[Packet]
        ensures { result.now ≡ self.now.sent }
    {
        self.sent.as_slice()
    }

    /// How often it has failed: each fault that it gave, and each datagram that it had no memory to
    /// keep.
    pub fn failures(&self) -> u64
        ensures { result ≡ self.now.failures }
    {
        self.failures
    }
}

impl Wire for MemoryWire {
    ghost use Rattle.wire_core.specs.Memory.{GoesInMemory};
    ghost use Rattle.wire_core.specs.MemoryLaws.{starts, goes_on};

    ghost went = { GoesInMemory };

    ghost failures = { λ w. w.failures };

    ghost starts = { starts };

    ghost goes_on = { goes_on };

    fn receive(&mut self, into: &mut [u8]) -> Result<Received, WireFault> {
        match self.left.pop_front() {
            None => Ok(Received::Closed),
            Some(WireInput::Nothing) => Ok(Received::Nothing),
            Some(WireInput::Fault) => Err(count_failure(&mut self.failures, WireFault::Receive)),
            Some(WireInput::Datagram(packet)) => {
                let len = copy_front(packet.octets.as_slice(), into);
                Ok(Received::Datagram(len, packet.peer))
            }
        }
    }

    fn send(&mut self, peer: SocketAddr, octets: &[u8]) -> Result<(), WireFault> {
        match keep(self.alloc, &mut self.sent, peer, octets) {
            Ok(()) => Ok(()),
            Err(_) => Err(count_failure(&mut self.failures, WireFault::Send)),
        }
    }
}

// Copies as many octets as there is space for.
fn copy_front(octets: &[u8], into: &mut [u8]) -> usize
    ensures front { take result into.new ≡ take (length into.old) octets.now }
    ensures within { result ≤ length into.old }
{
    let len = octets.len().min(into.len());
    into[..len].copy_from_slice(&octets[..len]);
    len
}

// Keeps a datagram behind those that were sent.
fn keep(
    alloc: Global,
    sent: &mut Vec<Packet>,
    peer: SocketAddr,
    octets: &[u8],
) -> Result<(), AllocError>
    ensures ok { OnOk result (sent.new.items
        ≡ sent.old.items ++ record { peer = peer; octets = octets.now } ∷ []) }
    ensures err { OnErr result (sent.new.items ≡ sent.old.items) }
{
    let octets = Octets::from_slice(alloc, octets)?;
    sent.push(Packet { peer, octets })?;
    Ok(())
}
