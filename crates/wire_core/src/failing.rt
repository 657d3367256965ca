//! A wire that fails at one of its calls.
ghost use Rattle.std.specs.Prelude.{◌≡◌, ◌-◌, ◌↔◌, IsTrue};

use crate::wire::{Received, Wire, WireFault, count_failure};
use std::marker::Model;
use std::net::SocketAddr;

/// A wire round another: one of its calls, receive and send counted together from 1, fails without
/// the other wire, and each other call is handed on. It is seen as the number of that call from now
/// (0 where none will fail), the other wire, and how often it has failed.
#[derive(Drop)]
pub struct FailingWire<W> {
    fails_at: u64,
    wire: W,
    failures: u64,
}

impl<W> Model for FailingWire<W> {
    ghost use Rattle.wire_core.specs.Failing.{FailingLine};

    ghost Value = { FailingLine W };

    ghost view = { λ w. record { fails_at = w.fails_at; wire = w.wire; failures = w.failures } };
}

impl<W> FailingWire<W> {
    /// One round a wire, whose call of this number fails, or none where it is 0.
    pub fn new(wire: W, fails_at: u64) -> FailingWire<W>
        ensures { result ≡ record { fails_at = fails_at; wire = wire; failures = 0 } }
    {
        FailingWire {
            fails_at,
            wire,
            failures: 0,
        }
    }

    /// The wire inside.
    pub fn wire(&self) -> &W
        ensures { result.now ≡ self.now.wire }
    {
        &self.wire
    }

    /// How often it has failed: at its own call, and where the wire inside did.
    pub fn failures(&self) -> u64
        ensures { result ≡ self.now.failures }
    {
        self.failures
    }
}

impl<W: Wire> Wire for FailingWire<W> {
    ghost use Rattle.wire_core.specs.Failing.{GoesFailing};
    ghost use Rattle.wire_core.specs.FailingLaws.{starts, goes_on};

    ghost went = { GoesFailing W.went };

    ghost failures = { λ w. w.failures };

    ghost starts = { starts W.went W.starts };

    ghost goes_on = { goes_on W.went W.goes_on };

    fn receive(&mut self, into: &mut [u8]) -> Result<Received, WireFault> {
        if is_the_call(&mut self.fails_at) {
            return Err(count_failure(&mut self.failures, WireFault::Receive));
        }
        match self.wire.receive(into) {
            Ok(received) => Ok(received),
            Err(fault) => Err(count_failure(&mut self.failures, fault)),
        }
    }

    fn send(&mut self, peer: SocketAddr, octets: &[u8]) -> Result<(), WireFault> {
        if is_the_call(&mut self.fails_at) {
            return Err(count_failure(&mut self.failures, WireFault::Send));
        }
        match self.wire.send(peer, octets) {
            Ok(()) => Ok(()),
            Err(fault) => Err(count_failure(&mut self.failures, fault)),
        }
    }
}

// Counts a call, and says whether it is the one that fails.
fn is_the_call(fails_at: &mut u64) -> bool
    ensures now { IsTrue result ↔ (fails_at.old ≡ 1) }
    ensures then { fails_at.new ≡ fails_at.old - 1 }
{
    let now = *fails_at == 1;
    *fails_at = fails_at.saturating_sub(1);
    now
}
