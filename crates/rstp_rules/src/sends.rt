//! What a port sends (IEEE 802.1D-2004 17.21.19 to 17.21.21, 17.26).
ghost use Rattle.std.specs.Prelude.{◌≡◌};
ghost use Rattle.rstp_rules.specs.Sends.{role_in_bpdu, sends_rapid, config_of, rapid_of, message_due, sends, bpdu_of, after_sending};

use crate::port::Role;
use crate::row::{Context, PortInEvent, Timing};
use frame_core::{Bpdu, Config, PortRole, Rapid};

impl Role {
    // What an RST message says of the role (9.2.9, 17.21.20).
    fn stated(self) -> PortRole
        ensures { result ≡ role_in_bpdu self }
    {
        match self {
            Role::Disabled => PortRole::Unknown,
            Role::Designated => PortRole::Designated,
            Role::Root => PortRole::Root,
            Role::Alternate | Role::Backup => PortRole::AlternateOrBackup,
        }
    }
}

impl PortInEvent {
    /// Whether the port sends RST messages (17.19.38, 17.20.11).
    pub(crate) fn sends_rapid(&self, timing: &Timing) -> bool
        ensures { result ≡ sends_rapid timing.now self.now }
    {
        timing.rstp_version && self.port.send_rstp
    }

    // The Configuration message of the port (17.21.19).
    fn config(&self, context: &Context) -> Config
        ensures { result ≡ config_of context.now self.now }
    {
        Config {
            topology_change: self.port.tc_while > 0,
            proposal: false,
            acknowledge: self.port.tc_ack,
            vector: context.root.designated(context.own, &self.inputs),
            times: context.times,
        }
    }

    // The RST message of the port (17.21.20).
    fn rapid(&self, context: &Context) -> Rapid
        ensures { result ≡ rapid_of context.now self.now }
    {
        Rapid {
            topology_change: self.port.tc_while > 0,
            proposal: self.port.role.is_designated()
                && !self.port.state.is_forwarding()
                && !self.port.oper_edge,
            role: self.port.role.stated(),
            learning: !self.port.state.is_discarding(),
            forwarding: self.port.state.is_forwarding(),
            agreement: self.port.role.is_root() && self.port.agree,
            vector: context.root.designated(context.own, &self.inputs),
            times: context.times,
        }
    }

    // What the port has to send, whether or not it may now (17.21.19 to 17.21.21, 17.26).
    fn due(&self, context: &Context) -> Option<Bpdu>
        ensures { result ≡ message_due context.now self.now }
    {
        let rapid = self.sends_rapid(&context.timing);
        if self.port.role.is_designated() {
            if rapid {
                Some(Bpdu::Rapid(self.rapid(context)))
            } else {
                Some(Bpdu::Config(self.config(context)))
            }
        } else if self.port.role.is_root() {
            if rapid {
                Some(Bpdu::Rapid(self.rapid(context)))
            } else if self.port.tc_while > 0 {
                Some(Bpdu::TopologyChange)
            } else {
                None
            }
        } else {
            None
        }
    }

    /// What the port sends now, if anything (17.26).
    pub fn send(&mut self, context: &Context) -> Option<Bpdu>
        ensures bpdu { result ≡ bpdu_of context.now self.old }
        ensures port { self.new ≡ after_sending context.now self.old }
    {
        let due = self.due(context);
        if due.is_none() {
            self.port.new_info = false;
            return None;
        }
        if !self.port.new_info || self.port.tx_count >= context.hold_count {
            return None;
        }
        self.port.tx_count += 1;
        self.port.new_info = false;
        if self.port.role.is_designated() && !self.sends_rapid(&context.timing) {
            self.port.tc_ack = false;
        }
        due
    }
}
