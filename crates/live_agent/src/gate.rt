//! Where a test holds a worker, and a worker's wire beside its gate.
ghost use Rattle.std.specs.Prelude.{◌≡◌, ◌∷◌, []};

use audit_core::Audit;
use std::net::SocketAddr;
use std::sync::Wait;
use wire_core::{Received, Wire, WireFault};

/// A request that made an entry.
#[derive(Clone, Copy, Debug, PartialEq, Eq)]
pub struct AnsweredRequest {
    /// The number of its entry.
    pub number: u64,
    /// From where it came.
    pub peer: SocketAddr,
    /// Its request-id (RFC 3416, 3).
    pub request_id: i32,
}

/// Is called for each request of one worker: ahead of what the request sends, and behind that. The
/// worker holds no lock then.
///
/// What it was called with is a relation, as what a wire does is one.
pub trait Gate: Drop {
    ghost use Rattle.std.specs.Prelude.{List, [], ◌∷◌, ◌++◌};
    ghost use Rattle.live_agent.specs.Deeds.{Visit, before, after};

    // These visits, in this order, lead from one state of the gate to another.
    ghost went: { Self → List Visit → Self → Type 0 };

    /// Ahead of what a request of the worker of this number, counted from 0, sends.
    fn before<R: Wait>(&mut self, rt: &R, worker: usize)
        ensures { went self.old (before worker ∷ []) self.new };

    /// Behind a request of the worker that made an entry, also one that was dropped, and behind what
    /// was sent for it, also where that could not be sent: with the entry's audit.
    fn after<R: Wait>(&mut self, rt: &R, worker: usize, request: AnsweredRequest, audit: &Audit)
        ensures { went self.old (after worker request audit.now ∷ []) self.new };

    // Without a visit it stays as it is.
    ghost starts: { (a : Self) → went a [] a };

    // Visits behind visits are one list.
    ghost goes_on: { (a b c : Self) (xs ys : List Visit) →
        went a xs b → went b ys c → went a (xs ++ ys) c };
}

/// A gate that holds nobody, and keeps nothing of what is reported to it.
#[derive(Clone, Copy, Debug, PartialEq, Eq)]
pub struct OpenGate;

impl Gate for OpenGate {
    ghost went = { λ _ _ _. Unit };

    ghost starts = { λ _. tt };

    ghost goes_on = { λ _ _ _ _ _ _ _. tt };

    fn before<R: Wait>(&mut self, _rt: &R, _worker: usize) {}

    fn after<R: Wait>(
        &mut self,
        _rt: &R,
        _worker: usize,
        _request: AnsweredRequest,
        _audit: &Audit,
    ) {}
}

/// A worker's wire, which has a gate: what both do is one list, in order.
pub trait GatedWire: Wire {
    ghost use Rattle.std.specs.Prelude.{◌≡◌, List, [], ◌∷◌, ◌++◌};
    ghost use Rattle.wire_core.specs.Acts.{Act};
    ghost use Rattle.live_agent.specs.Deeds.{Deed, visited, before, after, all_acted};

    // These deeds, in this order, lead from one state of it to another.
    ghost did: { Self → List Deed → Self → Type 0 };

    /// The gate, ahead of a request of the worker of this number, counted from 0.
    fn before<R: Wait>(&mut self, rt: &R, worker: usize)
        ensures did { did self.old (visited (before worker) ∷ []) self.new }
        ensures kept { Self.failures self.new ≡ Self.failures self.old };

    /// The gate, behind a request of the worker that made an entry, once it was answered: with the
    /// entry's audit.
    fn after<R: Wait>(&mut self, rt: &R, worker: usize, request: AnsweredRequest, audit: &Audit)
        ensures did { did self.old (visited (after worker request audit.now) ∷ []) self.new }
        ensures kept { Self.failures self.new ≡ Self.failures self.old };

    // The acts of the wire are deeds.
    ghost acts_are: { (a b : Self) (acts : List Act) →
        Self.went a acts b → did a (all_acted acts) b };

    // Deeds behind deeds are one list.
    ghost deeds_go_on: { (a b c : Self) (xs ys : List Deed) →
        did a xs b → did b ys c → did a (xs ++ ys) c };
}

/// A wire and a gate beside it.
#[derive(Drop)]
pub struct Gated<W, G> {
    /// The wire.
    pub wire: W,
    /// The gate.
    pub gate: G,
}

impl<W: Wire, G: Gate> Wire for Gated<W, G> {
    ghost use Rattle.live_agent.specs.Gates.{ActsGated};
    ghost use Rattle.live_agent.specs.DeedLaws.{gated_starts, gated_goes_on};

    ghost went = { ActsGated W.went };

    ghost failures = { λ w. W.failures w.wire };

    ghost starts = { gated_starts W.went W.starts };

    ghost goes_on = { gated_goes_on W.went W.goes_on };

    fn receive(&mut self, into: &mut [u8]) -> Result<Received, WireFault> {
        self.wire.receive(into)
    }

    fn send(&mut self, peer: SocketAddr, octets: &[u8]) -> Result<(), WireFault> {
        self.wire.send(peer, octets)
    }
}

impl<W: Wire, G: Gate> GatedWire for Gated<W, G> {
    ghost use Rattle.live_agent.specs.Gates.{GoesGated};
    ghost use Rattle.live_agent.specs.DeedLaws.{gated_acts_are, gated_deeds_go_on};

    ghost did = { GoesGated W.went G.went };

    ghost acts_are = { gated_acts_are W.went G.went G.starts };

    ghost deeds_go_on = { gated_deeds_go_on W.went G.went W.goes_on G.goes_on };

    fn before<R: Wait>(&mut self, rt: &R, worker: usize) {
        self.gate.before(rt, worker);
    }

    fn after<R: Wait>(&mut self, rt: &R, worker: usize, request: AnsweredRequest, audit: &Audit) {
        self.gate.after(rt, worker, request, audit);
    }
}
