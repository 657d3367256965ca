//! A port of the spanning tree: information, role, state, timers (IEEE 802.1D-2004 7.4, 17.17,
//! 17.19).
ghost use Rattle.std.specs.Prelude.{◌≡◌};
ghost use Rattle.rstp_rules.specs.Ports.{is_received, is_root_or_designated, is_alternate_or_backup, is_root, is_designated, is_discarding, is_forwarding, next_state, opening_port};

use frame_core::{BridgeId, Mac, PriorityVector, Times};

/// Where a port's vector comes from (IEEE 802.1D-2004 17.19.10 infoIs).
#[derive(Clone, Copy, Debug, Default, PartialEq, Eq)]
pub enum Info {
    /// The bridge's own designated vector.
    #[default]
    Mine,
    /// A message of another port.
    Received,
}

/// A port's role (IEEE 802.1D-2004 17.7).
#[derive(Clone, Copy, Debug, Default, PartialEq, Eq)]
pub enum Role {
    /// Off, by its setting or its link.
    #[default]
    Disabled,
    /// The port by which its network reaches the root.
    Designated,
    /// The port by which this bridge reaches the root.
    Root,
    /// It stands by for the root port.
    Alternate,
    /// It stands by for another port of this bridge.
    Backup,
}

/// A port's state (IEEE 802.1D-2004 7.4).
#[derive(Clone, Copy, Debug, Default, PartialEq, Eq)]
pub enum State {
    /// It neither learns nor forwards.
    #[default]
    Discarding,
    /// It learns and does not forward yet.
    Learning,
    /// It learns and forwards.
    Forwarding,
}

/// What a port holds between events. Counts are in ticks of one second (17.17), and count down to
/// 0.
#[derive(Clone, Copy, Debug, PartialEq, Eq)]
pub struct Port {
    /// Whether its link is up.
    pub link: bool,
    /// Where its vector comes from (infoIs).
    pub info: Info,
    /// The port priority vector (17.19.21).
    pub vector: PriorityVector,
    /// The times of the last message that was recorded, at first those of the opening; of no effect
    /// where the information is the port's own (17.19.22).
    pub times: Times,
    /// Its role (17.7).
    pub role: Role,
    /// Its state (7.4).
    pub state: State,
    /// How long the received vector is kept (rcvdInfoWhile).
    pub rcvd_info_while: u16,
    /// The wait before the next state (fdWhile).
    pub fd_while: u16,
    /// How long the port counts as a recent root port (rrWhile).
    pub rr_while: u16,
    /// How long the port signals a topology change (tcWhile).
    pub tc_while: u16,
    /// The wait before the next regular message (helloWhen).
    pub hello_when: u16,
    /// How many messages were sent lately (txCount).
    pub tx_count: u16,
    /// Whether the port is at the edge of the network (operEdge).
    pub oper_edge: bool,
    /// Whether the port sends RST messages under version 2 (sendRSTP).
    pub send_rstp: bool,
    /// Whether the neighbour has agreed (agreed).
    pub agreed: bool,
    /// Whether the port signals its agreement (agree).
    pub agree: bool,
    /// Whether the port has a topology change acknowledgment to send (tcAck).
    pub tc_ack: bool,
    /// Whether the port has something to send (newInfo).
    pub new_info: bool,
    /// How often the port became forwarding, modulo 2^32.
    pub forward_transitions: u32,
}

impl Info {
    /// Whether the information was received (17.19.10).
    pub(crate) fn is_received(self) -> bool
        ensures { result ≡ is_received self }
    {
        matches!(self, Info::Received)
    }
}

impl Role {
    /// Whether this is the role of a port that may begin to forward (17.7).
    pub(crate) fn is_root_or_designated(self) -> bool
        ensures { result ≡ is_root_or_designated self }
    {
        matches!(self, Role::Root | Role::Designated)
    }

    /// Whether this is the role of a port that stands by (17.7).
    pub(crate) fn is_alternate_or_backup(self) -> bool
        ensures { result ≡ is_alternate_or_backup self }
    {
        matches!(self, Role::Alternate | Role::Backup)
    }

    /// Whether this is the role of the root port (17.7).
    pub fn is_root(self) -> bool
        ensures { result ≡ is_root self }
    {
        matches!(self, Role::Root)
    }

    /// Whether this is the role of a designated port (17.7).
    pub(crate) fn is_designated(self) -> bool
        ensures { result ≡ is_designated self }
    {
        matches!(self, Role::Designated)
    }
}

impl State {
    /// Whether a port of this state neither learns nor forwards (7.4).
    pub fn is_discarding(self) -> bool
        ensures { result ≡ is_discarding self }
    {
        matches!(self, State::Discarding)
    }

    /// Whether a port of this state forwards (7.4).
    pub fn is_forwarding(self) -> bool
        ensures { result ≡ is_forwarding self }
    {
        matches!(self, State::Forwarding)
    }

    /// The state that follows when the wait is over (17.29.2, 17.29.3).
    pub(crate) fn next(self) -> State
        ensures { result ≡ next_state self }
    {
        match self {
            State::Discarding => State::Learning,
            State::Learning => State::Forwarding,
            State::Forwarding => State::Forwarding,
        }
    }
}

impl Port {
    /// A port at the opening: as after a restart with its link down, with this vector and these
    /// times (17.24).
    pub fn opening(vector: PriorityVector, times: Times) -> Self
        ensures { result ≡ opening_port vector times }
    {
        Port {
            link: false,
            info: Info::Mine,
            vector,
            times,
            role: Role::Disabled,
            state: State::Discarding,
            rcvd_info_while: 0,
            fd_while: 0,
            rr_while: 0,
            tc_while: 0,
            hello_when: 0,
            tx_count: 0,
            oper_edge: false,
            send_rstp: true,
            agreed: false,
            agree: false,
            tc_ack: false,
            new_info: false,
            forward_transitions: 0,
        }
    }
}

impl Default for Port {
    /// What stands in places that no port has.
    fn default() -> Self {
        let nobody = BridgeId {
            priority: 0,
            address: Mac([0; 6]),
        };
        let vector = PriorityVector {
            root: nobody,
            cost: 0,
            bridge: nobody,
            port: 0,
        };
        let times = Times {
            message_age: 0,
            max_age: 0,
            hello: 0,
            forward_delay: 0,
        };
        Port::opening(vector, times)
    }
}
