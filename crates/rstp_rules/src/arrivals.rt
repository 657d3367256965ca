//! A BPDU that arrives (IEEE 802.1D-2004 17.21.1, 17.21.8, 17.21.9, 17.21.11 to 17.21.13, 17.21.17,
//! 17.21.18, 17.21.22, 17.23, 17.27).
ghost use Rattle.std.specs.Prelude.{◌≡◌, ◌&&◌};
ghost use Rattle.rstp_rules.specs.Lines.{IsSmall};
ghost use Rattle.rstp_rules.specs.Arrivals.{is_own, is_taken, after_mark, is_superior, after_record, after_offer, after_answer, after_rapid, after_message, after_reception, spreads, after_acknowledgment, after_change_notice};

use crate::bpdus::has_topology_change;
use crate::port::Info;
use crate::row::{PortInEvent, Timing};
use crate::vector::{
    info_time_of, is_better, is_same_sender, is_same_times, is_same_vector, number_of_port,
};
use frame_core::{Bpdu, BridgeId, PortRole, PriorityVector, Rapid, Times};

impl PortInEvent {
    // Whether the port itself sent the vector.
    fn is_own(&self, own: BridgeId, vector: &PriorityVector) -> bool
        ensures { result ≡ is_own own self.now vector.now }
    {
        vector.bridge.address.is_same(own.address)
            && number_of_port(vector.port) == number_of_port(self.inputs.id)
    }

    // Whether a message is not ignored: the port is on, and a Configuration or RST BPDU is not its
    // own (9.3.4, 17.23).
    fn is_taken(&self, own: BridgeId, bpdu: &Bpdu) -> bool
        ensures { result ≡ is_taken own bpdu.now self.now }
    {
        match bpdu {
            Bpdu::TopologyChange => self.inputs.on,
            Bpdu::Config(message) => self.inputs.on && !self.is_own(own, &message.vector),
            Bpdu::Rapid(message) => self.inputs.on && !self.is_own(own, &message.vector),
        }
    }

    // Notes which messages the neighbour sends (17.21.22, 17.23).
    fn mark(&mut self, rapid: bool)
        ensures { self.new ≡ after_mark rapid self.old }
    {
        self.port.oper_edge = false;
        self.port.send_rstp = rapid;
    }

    // Whether a vector is better, or of the port that sent the recorded one (17.6, 17.21.8).
    fn is_superior(&self, vector: &PriorityVector) -> bool
        ensures { result ≡ is_superior vector.now self.now }
    {
        is_better(vector, &self.port.vector)
            || self.port.info.is_received() && is_same_sender(vector, &self.port.vector)
    }

    // Records a vector with its times, its age and its proposal (17.21.1, 17.21.11 to 17.21.13,
    // 17.21.23).
    fn record(&mut self, vector: &PriorityVector, times: &Times, proposal: bool)
        ensures { self.new ≡ after_record vector.now times.now proposal self.old }
    {
        let same = is_same_vector(vector, &self.port.vector)
            && is_same_times(times, &self.port.times);
        let port = &mut self.port;
        port.info = Info::Received;
        port.vector = *vector;
        port.times = *times;
        port.rcvd_info_while = info_time_of(times);
        port.agreed = port.agreed && same;
        port.agree = port.agree && same;
        self.proposed = proposal;
    }

    // The message of a designated port (17.21.8).
    fn offer(&mut self, vector: &PriorityVector, times: &Times, proposal: bool)
        ensures { self.new ≡ after_offer vector.now times.now proposal self.old }
    {
        if self.is_superior(vector) {
            self.record(vector, times, proposal);
        } else if self.port.role.is_designated() {
            self.port.new_info = true;
        }
    }

    // The message of a root, alternate or backup port to a designated port (17.21.9).
    fn answer(&mut self, vector: &PriorityVector, agreement: bool)
        ensures { self.new ≡ after_answer vector.now agreement self.old }
    {
        if self.port.role.is_designated() && !is_better(vector, &self.port.vector) {
            self.port.agreed = agreement && self.inputs.point_to_point;
        }
    }

    // An RST BPDU, by the role that it carries (17.21.8).
    fn take_rapid(&mut self, message: &Rapid, rstp: bool)
        ensures { self.new ≡ after_rapid message.now.role message.now.vector message.now.times
            (message.now.proposal && rstp) (message.now.agreement && rstp) self.old }
    {
        match message.role {
            PortRole::Unknown => {}
            PortRole::AlternateOrBackup | PortRole::Root => {
                self.answer(&message.vector, message.agreement && rstp)
            }
            PortRole::Designated => {
                self.offer(&message.vector, &message.times, message.proposal && rstp)
            }
        }
    }

    // A message that is not ignored; `rstp` says that the version is 2 (17.21.8, 17.21.22).
    fn take(&mut self, rstp: bool, bpdu: &Bpdu)
        ensures { self.new ≡ after_message rstp bpdu.now self.old }
    {
        match bpdu {
            Bpdu::TopologyChange => self.mark(false),
            Bpdu::Config(message) => {
                self.mark(false);
                self.offer(&message.vector, &message.times, message.proposal && rstp);
            }
            Bpdu::Rapid(message) => {
                self.mark(true);
                self.take_rapid(message, rstp);
            }
        }
    }

    /// A message at port `port`, as far as that port is concerned; `rstp` says that the version
    /// is 2 (17.21.8, 17.23).
    pub fn receive(&mut self, own: BridgeId, rstp: bool, port: u16, bpdu: &Bpdu)
        ensures { self.new ≡ after_reception own rstp port bpdu.now self.old }
    {
        if self.inputs.number == port && self.is_taken(own, bpdu) {
            self.take(rstp, bpdu);
        }
    }

    /// Whether a message at port `port` signals a topology change to the other ports (17.21.17).
    pub fn spreads(&self, own: BridgeId, port: u16, bpdu: &Bpdu) -> bool
        ensures { result ≡ spreads own port bpdu.now self.now }
    {
        self.inputs.number == port
            && self.is_taken(own, bpdu)
            && self.port.role.is_root_or_designated()
            && has_topology_change(bpdu)
    }

    // What a message says to the port itself of a topology change (17.21.17).
    fn acknowledge(&mut self, bpdu: &Bpdu)
        ensures { self.new ≡ after_acknowledgment bpdu.now self.old }
    {
        match bpdu {
            Bpdu::TopologyChange => {
                if self.port.role.is_designated() {
                    self.port.tc_ack = true;
                    self.port.new_info = true;
                }
            }
            Bpdu::Config(message) => {
                if message.acknowledge && self.port.role.is_root() {
                    self.port.tc_while = 0;
                }
            }
            Bpdu::Rapid(_) => {}
        }
    }

    /// The topology change of a message at port `port`, where `change` says that it signals one
    /// (17.21.17, 17.21.18).
    pub fn hear_change(
        &mut self,
        timing: &Timing,
        own: BridgeId,
        port: u16,
        bpdu: &Bpdu,
        change: bool,
    )
        requires { IsSmall timing.now }
        ensures { self.new ≡ after_change_notice timing.now own port bpdu.now change self.old }
    {
        if self.inputs.number == port {
            if self.is_taken(own, bpdu) {
                self.acknowledge(bpdu);
            }
        } else if change {
            self.spread(timing);
        }
    }
}
