//! The root vector and the roles of ports (IEEE 802.1D-2004 17.6, 17.19.4, 17.21.23, 17.21.25,
//! 17.27, 17.28).
ghost use Rattle.std.specs.Prelude.{◌≡◌};
ghost use Rattle.rstp_rules.specs.Roles.{beats, after_expiry, own_best, candidate, or_better, designated_vector, with_designated_vector, with_role};

use crate::port::{Info, Role};
use crate::row::{Best, PortInEvent, PortInputs};
use crate::vector::is_better;
use frame_core::{BridgeId, PriorityVector};

impl Best {
    /// The bridge's own vector (IEEE 802.1D-2004 17.6).
    pub fn own(own: BridgeId) -> Self
        ensures { result ≡ own_best own }
    {
        Best {
            vector: PriorityVector {
                root: own,
                cost: 0,
                bridge: own,
                port: 0,
            },
            receiver: 0,
        }
    }

    // Whether this is better than the other. Where the vectors are equal the receiving port decides
    // (17.6).
    fn beats(&self, other: &Best) -> bool
        ensures { result ≡ beats self.now other.now }
    {
        self.cmp(other).is_lt()
    }

    /// The better of this and what a port may offer (17.6).
    pub fn or_better(self, other: Option<Best>) -> Best
        ensures { result ≡ or_better self other }
    {
        match other {
            Some(candidate) if candidate.beats(&self) => candidate,
            _ => self,
        }
    }

    /// The vector of a designated port under this root (17.19.4).
    pub(crate) fn designated(&self, own: BridgeId, inputs: &PortInputs) -> PriorityVector
        ensures { result ≡ designated_vector own self.now inputs.now }
    {
        PriorityVector {
            root: self.vector.root,
            cost: self.vector.cost,
            bridge: own,
            port: inputs.id,
        }
    }
}

impl PortInEvent {
    /// A received vector whose time is over is received no longer (17.21.23, 17.27).
    pub fn expire(&mut self)
        ensures { self.new ≡ after_expiry self.old }
    {
        if self.port.info.is_received() && self.port.rcvd_info_while == 0 {
            self.port.info = Info::Mine;
        }
    }

    /// What the port offers for the root vector: a received vector of another bridge, with the
    /// port's cost added (17.21.25).
    pub fn candidate(&self, own: BridgeId) -> Option<Best>
        ensures { result ≡ candidate own self.now }
    {
        if self.inputs.on
            && self.port.info.is_received()
            && !self.port.vector.bridge.address.is_same(own.address)
        {
            let mut vector = self.port.vector;
            vector.cost = vector.cost.saturating_add(self.inputs.cost);
            Some(Best {
                vector,
                receiver: self.inputs.id,
            })
        } else {
            None
        }
    }

    // The port is designated, and holds its designated vector (17.19.4, 17.21.25).
    fn designate(&mut self, own: BridgeId, root: &Best)
        ensures { self.new ≡ with_designated_vector own root.now self.old }
    {
        self.port.info = Info::Mine;
        self.port.role = Role::Designated;
        self.port.vector = root.designated(own, &self.inputs);
    }

    /// Gives the port its role under a root (17.21.25).
    pub fn choose_role(&mut self, own: BridgeId, root: &Best)
        ensures { self.new ≡ with_role own root.now self.old }
    {
        let designated = root.designated(own, &self.inputs);
        if !self.inputs.on {
            self.port.role = Role::Disabled;
            self.port.vector = designated;
        } else if !self.port.info.is_received() {
            self.designate(own, root);
        } else if root.receiver == self.inputs.id {
            self.port.role = Role::Root;
        } else if is_better(&designated, &self.port.vector) {
            self.designate(own, root);
        } else if self.port.vector.bridge.address.is_same(own.address) {
            self.port.role = Role::Backup;
        } else {
            self.port.role = Role::Alternate;
        }
    }
}
