//! The ticker's wire beside its pace.
ghost use Rattle.std.specs.Prelude.{◌≡◌, ◌∷◌, []};

use std::net::SocketAddr;
use wire_core::{Pace, Received, Wire, WireFault};

/// The ticker's wire, which has a pace: what both do is one list, in order.
pub trait PacedWire: Wire {
    ghost use Rattle.std.specs.Prelude.{◌≡◌, List, [], ◌∷◌, ◌++◌};
    ghost use Rattle.wire_core.specs.Acts.{Act};
    ghost use Rattle.live_agent.specs.Deeds.{Deed, answered, all_acted};

    // These deeds, in this order, lead from one state of it to another.
    ghost did: { Self → List Deed → Self → Type 0 };

    /// Waits as long as the pace does, and says whether there is one tick more. After `false` the
    /// ticks have ended.
    fn next(&mut self) -> bool
        ensures did { did self.old (answered result ∷ []) self.new }
        ensures kept { Self.failures self.new ≡ Self.failures self.old };

    // The acts of the wire are deeds.
    ghost acts_are: { (a b : Self) (acts : List Act) →
        Self.went a acts b → did a (all_acted acts) b };

    // Deeds behind deeds are one list.
    ghost deeds_go_on: { (a b c : Self) (xs ys : List Deed) →
        did a xs b → did b ys c → did a (xs ++ ys) c };
}

/// A wire and a pace beside it.
#[derive(Drop)]
pub struct Paced<W, P> {
    /// The wire.
    pub wire: W,
    /// The pace.
    pub pace: P,
}

impl<W: Wire, P: Pace> Wire for Paced<W, P> {
    ghost use Rattle.live_agent.specs.Gates.{ActsPaced};
    ghost use Rattle.live_agent.specs.DeedLaws.{paced_starts, paced_goes_on};

    ghost went = { ActsPaced W.went };

    ghost failures = { λ w. W.failures w.wire };

    ghost starts = { paced_starts W.went W.starts };

    ghost goes_on = { paced_goes_on W.went W.goes_on };

    fn receive(&mut self, into: &mut [u8]) -> Result<Received, WireFault> {
        self.wire.receive(into)
    }

    fn send(&mut self, peer: SocketAddr, octets: &[u8]) -> Result<(), WireFault> {
        self.wire.send(peer, octets)
    }
}

impl<W: Wire, P: Pace> PacedWire for Paced<W, P> {
    ghost use Rattle.live_agent.specs.Gates.{GoesPaced};
    ghost use Rattle.live_agent.specs.DeedLaws.{paced_acts_are, paced_deeds_go_on};

    ghost did = { GoesPaced W.went P.went };

    ghost acts_are = { paced_acts_are W.went P.went P.starts };

    ghost deeds_go_on = { paced_deeds_go_on W.went P.went W.goes_on P.goes_on };

    fn next(&mut self) -> bool {
        self.pace.next()
    }
}
