//! A tick of one second (IEEE 802.1D-2004 17.17, 17.22, 17.26).
ghost use Rattle.std.specs.Prelude.{◌≡◌};
ghost use Rattle.rstp_rules.specs.Ticks.{after_tick, after_hello_step};

use crate::row::{PortInEvent, Timing};

impl PortInEvent {
    /// One second passes (IEEE 802.1D-2004 17.22): each count above 0 falls by one.
    pub fn tick(&mut self)
        ensures { self.new ≡ after_tick self.old }
    {
        let port = &mut self.port;
        port.rcvd_info_while = port.rcvd_info_while.saturating_sub(1);
        port.fd_while = port.fd_while.saturating_sub(1);
        port.rr_while = port.rr_while.saturating_sub(1);
        port.tc_while = port.tc_while.saturating_sub(1);
        port.hello_when = port.hello_when.saturating_sub(1);
        port.tx_count = port.tx_count.saturating_sub(1);
    }

    /// The hello step of a tick (17.26).
    pub fn hello_step(&mut self, timing: &Timing)
        ensures { self.new ≡ after_hello_step timing.now self.old }
    {
        if self.port.role.is_root_or_designated() && self.port.hello_when == 0 {
            self.port.hello_when = timing.hello;
            self.port.new_info = self.port.new_info
                || self.port.role.is_designated()
                || self.port.tc_while > 0;
        }
    }
}
