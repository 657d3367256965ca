//! The ports' sending wire with the control wire beside it.
ghost use Rattle.std.specs.Prelude.{◌≡◌, ◌∷◌, []};

use std::net::SocketAddr;
use wire_core::{Received, Wire, WireFault};

/// The wire over which the ports send, which has a control wire: what both do is one list, in order.
/// One peer is at the control wire, whose each datagram is one command.
pub trait ControlWire: Wire {
    ghost use Rattle.std.specs.Prelude.{◌≡◌, List, [], ◌∷◌, ◌++◌, length, IfOk};
    ghost use Rattle.wire_core.specs.Acts.{Act, act_of, sent_act, IsWithin};
    ghost use Rattle.live_control.specs.Deeds.{Deed, controlled, all_acted};

    // These deeds, in this order, lead from one state of it to another.
    ghost did: { Self → List Deed → Self → Type 0 };

    /// Waits for a command, for as long as the control wire does, and writes it into the slice. One that
    /// is longer than the slice is cut to it.
    ///
    /// # Errors
    /// `WireFault::Receive`.
    fn take(&mut self, into: &mut [u8]) -> Result<Received, WireFault>
        ensures did { did self.old (controlled (act_of result into.new) ∷ []) self.new }
        ensures within { IfOk result (IsWithin (length into.new)) };

    /// Sends an answer over the control wire.
    ///
    /// # Errors
    /// `WireFault::Send`.
    fn answer(&mut self, peer: SocketAddr, octets: &[u8]) -> Result<(), WireFault>
        ensures did { did self.old (controlled (sent_act peer octets.now result) ∷ []) self.new };

    // The acts of the ports' wire are deeds.
    ghost acts_are: { (a b : Self) (acts : List Act) →
        Self.went a acts b → did a (all_acted acts) b };

    // Without a deed it stays as it is.
    ghost deeds_start: { (a : Self) → did a [] a };

    // Deeds behind deeds are one list.
    ghost deeds_go_on: { (a b c : Self) (xs ys : List Deed) →
        did a xs b → did b ys c → did a (xs ++ ys) c };
}

/// The ports' wire, and a control wire beside it.
#[derive(Drop)]
pub struct Controlled<W, C> {
    /// The wire over which the ports send.
    pub wire: W,
    /// The control wire.
    pub control: C,
}

impl<W: Wire, C: Wire> Wire for Controlled<W, C> {
    ghost use Rattle.live_control.specs.Sides.{ActsBeside};
    ghost use Rattle.live_control.specs.DeedLaws.{beside_starts, beside_goes_on};

    ghost went = { ActsBeside W.went };

    ghost failures = { λ w. W.failures w.wire };

    ghost starts = { beside_starts W.went W.starts };

    ghost goes_on = { beside_goes_on W.went W.goes_on };

    fn receive(&mut self, into: &mut [u8]) -> Result<Received, WireFault> {
        self.wire.receive(into)
    }

    fn send(&mut self, peer: SocketAddr, octets: &[u8]) -> Result<(), WireFault> {
        self.wire.send(peer, octets)
    }
}

impl<W: Wire, C: Wire> ControlWire for Controlled<W, C> {
    ghost use Rattle.live_control.specs.Sides.{GoesBeside};
    ghost use Rattle.live_control.specs.DeedLaws.{beside_acts_are, beside_deeds_start, beside_deeds_go_on};

    ghost did = { GoesBeside W.went C.went };

    ghost acts_are = { beside_acts_are W.went C.went C.starts };

    ghost deeds_start = { beside_deeds_start W.went C.went W.starts C.starts };

    ghost deeds_go_on = { beside_deeds_go_on W.went C.went W.goes_on C.goes_on };

    fn take(&mut self, into: &mut [u8]) -> Result<Received, WireFault> {
        self.control.receive(into)
    }

    fn answer(&mut self, peer: SocketAddr, octets: &[u8]) -> Result<(), WireFault> {
        self.control.send(peer, octets)
    }
}
