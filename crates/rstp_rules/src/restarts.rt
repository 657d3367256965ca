//! A port that starts anew, a link that changes, settled settings (IEEE 802.1D-2004 17.19.13,
//! 17.24, 17.25, 17.29.1).
ghost use Rattle.std.specs.Prelude.{◌≡◌};
ghost use Rattle.rstp_rules.specs.Restarts.{after_restart, after_switch, after_link, is_renewed, after_settling};

use crate::port::{Info, Role, State};
use crate::row::PortInEvent;

impl PortInEvent {
    // The port starts anew; its learned rows go (17.24, 17.25, 17.29.1).
    fn restart(&mut self)
        ensures { self.new ≡ after_restart self.old }
    {
        self.was.role = Role::Disabled;
        self.was.state = State::Discarding;
        let port = &mut self.port;
        port.info = Info::Mine;
        port.role = Role::Disabled;
        port.state = State::Discarding;
        port.rcvd_info_while = 0;
        port.fd_while = 0;
        port.rr_while = 0;
        port.tc_while = 0;
        port.hello_when = 0;
        port.tx_count = 0;
        port.oper_edge = self.inputs.edge;
        port.send_rstp = true;
        port.agreed = false;
        port.agree = false;
        port.tc_ack = false;
        port.new_info = false;
        self.flushed = true;
    }

    // The link changes: a port that is enabled goes on or off, and starts anew (17.19.18, 17.25).
    fn switch(&mut self, up: bool)
        ensures { self.new ≡ after_switch up self.old }
    {
        self.inputs.on = self.inputs.enabled && up;
        self.port.link = up;
        if self.inputs.enabled {
            self.restart();
        }
    }

    /// The link of port `port` goes up or down, or stays as it is (17.19.18).
    pub fn link(&mut self, port: u16, up: bool)
        ensures { self.new ≡ after_link port up self.old }
    {
        if self.inputs.number == port && self.port.link != up {
            self.switch(up);
        }
    }

    // Whether settling makes the port start anew (17.13, 17.25).
    fn is_renewed(&self, version_changed: bool) -> bool
        ensures { result ≡ is_renewed version_changed self.now }
    {
        version_changed || self.port.link && self.inputs.enabled != self.inputs.was_enabled
    }

    /// What settling the settings does to the port (17.13, 17.19.13).
    pub fn settle(&mut self, version_changed: bool)
        ensures { self.new ≡ after_settling version_changed self.old }
    {
        if self.is_renewed(version_changed) {
            self.restart();
        }
        if self.inputs.edge != self.inputs.was_edge {
            self.port.oper_edge = self.inputs.edge;
        }
        if self.inputs.migrate {
            self.port.send_rstp = true;
        }
    }
}
