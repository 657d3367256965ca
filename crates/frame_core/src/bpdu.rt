//! BPDUs and their parameters (IEEE 802.1D-2004, 9.2 and 9.3).
ghost use Rattle.std.specs.Prelude.{◌≡◌, ◌<◌};
ghost use Rattle.frame_core.specs.Layout.{role_number};

use crate::mac::Mac;

/// A bridge identifier (9.2.5): the priority, and then the address. Lower identifiers are better.
#[derive(Clone, Copy, Debug, Default, PartialEq, Eq, PartialOrd, Ord, Hash)]
pub struct BridgeId {
    /// The priority, 0 to 65,535; the lower the better.
    pub priority: u16,
    /// The bridge's own address.
    pub address: Mac,
}

/// A priority vector (17.5): its parts are compared as unsigned numbers in this order, and lower
/// vectors are better.
#[derive(Clone, Copy, Debug, Default, PartialEq, Eq, PartialOrd, Ord, Hash)]
pub struct PriorityVector {
    /// The bridge that is taken for the root.
    pub root: BridgeId,
    /// The cost of the path to the root, from the sending bridge on.
    pub cost: u32,
    /// The bridge that sends.
    pub bridge: BridgeId,
    /// The port that sends: its priority in the highest four bits, its number in the low twelve
    /// (9.2.7).
    pub port: u16,
}

/// The times of a BPDU (9.2.8), each in units of 1/256 second.
#[derive(Clone, Copy, Debug, Default, PartialEq, Eq, PartialOrd, Ord, Hash)]
pub struct Times {
    /// How old the information is.
    pub message_age: u16,
    /// How old it may become.
    pub max_age: u16,
    /// The time between regular messages.
    pub hello: u16,
    /// The wait before learning, and again before forwarding.
    pub forward_delay: u16,
}

/// The role of the port that sends an RST BPDU (9.2.9).
#[derive(Clone, Copy, Debug, PartialEq, Eq, PartialOrd, Ord, Hash)]
pub enum PortRole {
    /// No role that this bridge knows.
    Unknown,
    /// A port that stands by.
    AlternateOrBackup,
    /// The root port of its bridge.
    Root,
    /// The port by which its network reaches the root.
    Designated,
}

impl PortRole {
    /// The role that two bits of the flags stand for.
    pub(crate) fn from_number(number: u8) -> PortRole
        requires { number < 4 }
        ensures { role_number result ≡ number }
    {
        match number {
            0 => PortRole::Unknown,
            1 => PortRole::AlternateOrBackup,
            2 => PortRole::Root,
            _ => PortRole::Designated,
        }
    }

    /// The two bits of the flags that stand for the role.
    pub(crate) fn number(self) -> u8
        ensures { result ≡ role_number self }
    {
        match self {
            PortRole::Unknown => 0,
            PortRole::AlternateOrBackup => 1,
            PortRole::Root => 2,
            PortRole::Designated => 3,
        }
    }
}

/// What a Configuration BPDU says (9.3.1).
#[derive(Clone, Copy, Debug, PartialEq, Eq, Hash)]
pub struct Config {
    /// The flag of a topology change.
    pub topology_change: bool,
    /// The flag of a proposal. The sender's version has no such flag; it is kept as it stands.
    pub proposal: bool,
    /// The flag that acknowledges a topology change notification.
    pub acknowledge: bool,
    /// The priority vector of the port that sends.
    pub vector: PriorityVector,
    /// The times.
    pub times: Times,
}

/// What an RST BPDU says (9.3.3). Its bit of acknowledgment is not used: it is not read, and
/// sent as 0.
#[derive(Clone, Copy, Debug, PartialEq, Eq, Hash)]
pub struct Rapid {
    /// The flag of a topology change.
    pub topology_change: bool,
    /// The flag of a proposal.
    pub proposal: bool,
    /// The role of the port that sends.
    pub role: PortRole,
    /// Whether the port that sends learns addresses.
    pub learning: bool,
    /// Whether the port that sends forwards frames.
    pub forwarding: bool,
    /// The flag of an agreement.
    pub agreement: bool,
    /// The priority vector of the port that sends.
    pub vector: PriorityVector,
    /// The times.
    pub times: Times,
}

/// A message between bridges (9.3).
#[derive(Clone, Copy, Debug, PartialEq, Eq, Hash)]
pub enum Bpdu {
    /// A Configuration BPDU.
    Config(Config),
    /// A Topology Change Notification BPDU (9.3.2).
    TopologyChange,
    /// A Rapid Spanning Tree BPDU.
    Rapid(Rapid),
}
