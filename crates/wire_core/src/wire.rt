//! What datagrams come and go over, and what goes wrong with it.
ghost use Rattle.std.specs.Prelude.{◌≡◌};
ghost use Rattle.wire_core.specs.Acts.{one_more};

use message_core::Octets;
use std::net::SocketAddr;

/// A datagram, and whom it is from or for.
#[derive(Drop)]
pub struct Packet {
    /// The other end.
    pub peer: SocketAddr,
    /// The datagram's octets.
    pub octets: Octets,
}

/// What a wire gave.
#[derive(Clone, Copy, Debug, PartialEq, Eq)]
pub enum Received {
    /// A datagram: how many octets of the lent slice it fills, and whom it is from.
    Datagram(usize, SocketAddr),
    /// Nothing came for as long as the wire waits.
    Nothing,
    /// Nothing will come any more.
    Closed,
}

/// What went wrong with a wire.
#[derive(Clone, Copy, Debug, PartialEq, Eq)]
pub enum WireFault {
    /// A receive failed.
    Receive,
    /// A send failed.
    Send,
}

/// Gives datagrams, and sends some.
///
/// What it does is a relation: a wire that does not tell what it does, as one over UDP, claims
/// nothing there.
pub trait Wire: Drop {
    ghost use Rattle.std.specs.Prelude.{◌≡◌, ℕ, List, [], ◌∷◌, ◌++◌, length, IfOk, IfErr, OnOk, OnErr};
    ghost use Rattle.wire_core.specs.Acts.{Act, act_of, sent_act, IsWithin, one_more};
    ghost use Rattle.wire_core.specs.declared.wire.WireFault.TheVariants.{Receive, Send};

    // These acts, in this order, lead from one state of the wire to another.
    ghost went: { Self → List Act → Self → Type 0 };

    // How often it has failed. The count stops at `u64::MAX`.
    ghost failures: { Self → ℕ };

    /// Waits for a datagram, for as long as this wire does, and writes it into the slice. A
    /// wire cuts a datagram that is longer than the slice to it; the clauses bound the length alone.
    ///
    /// # Errors
    /// `WireFault::Receive`, which counts as a failure.
    fn receive(&mut self, into: &mut [u8]) -> Result<Received, WireFault>
        ensures went { went self.old (act_of result into.new ∷ []) self.new }
        ensures within { IfOk result (IsWithin (length into.new)) }
        ensures fault { IfErr result (λ fault. fault ≡ Receive) }
        ensures kept { OnOk result (failures self.new ≡ failures self.old) }
        ensures failed { OnErr result (failures self.new ≡ one_more (failures self.old)) };

    /// Sends a datagram to a peer.
    ///
    /// # Errors
    /// `WireFault::Send`, which counts as a failure. It is not known whether the datagram went.
    fn send(&mut self, peer: SocketAddr, octets: &[u8]) -> Result<(), WireFault>
        ensures went { went self.old (sent_act peer octets.now result ∷ []) self.new }
        ensures fault { IfErr result (λ fault. fault ≡ Send) }
        ensures kept { OnOk result (failures self.new ≡ failures self.old) }
        ensures failed { OnErr result (failures self.new ≡ one_more (failures self.old)) };

    // Without an act it stays as it is.
    ghost starts: { (a : Self) → went a [] a };

    // Acts behind acts are one list.
    ghost goes_on: { (a b c : Self) (xs ys : List Act) →
        went a xs b → went b ys c → went a (xs ++ ys) c };
}

/// Counts a failure, unless the count has stopped, and hands its fault back.
pub(crate) fn count_failure(failures: &mut u64, fault: WireFault) -> WireFault
    ensures fault { result ≡ fault }
    ensures count { failures.new ≡ one_more failures.old }
{
    *failures = failures.saturating_add(1);
    fault
}
