//! What a pass over the ports knows of each: its line, its port, and what it was before.
use crate::port::{Port, Role, State};
use frame_core::{BridgeId, PriorityVector, Times};

/// What follows from a port's settings, its link and its number during an event.
#[derive(Clone, Copy, Debug, Default)]
pub struct PortInputs {
    /// The port's number, from 1.
    pub number: u16,
    /// Its port identifier (9.2.7).
    pub id: u16,
    /// Its path cost in use (17.14).
    pub cost: u32,
    /// Whether it is enabled by its setting.
    pub enabled: bool,
    /// Whether it is enabled and its link is up.
    pub on: bool,
    /// Whether its link is point to point (6.4.3).
    pub point_to_point: bool,
    /// Its edge setting (17.13.1).
    pub edge: bool,
    /// Whether a protocol migration check is asked for (17.19.13).
    pub migrate: bool,
    /// Whether it was enabled when the settings were last settled.
    pub was_enabled: bool,
    /// Its edge setting when the settings were last settled.
    pub was_edge: bool,
}

/// What a port was before the roles are chosen anew: at the start of the event, or just restarted.
#[derive(Clone, Copy, Debug)]
pub struct Before {
    /// The role.
    pub role: Role,
    /// The state.
    pub state: State,
    /// The vector at the start of the event.
    pub vector: PriorityVector,
}

/// A port in the course of an event.
#[derive(Clone, Copy, Debug)]
pub struct PortInEvent {
    /// What follows from its settings, its link and its number.
    pub inputs: PortInputs,
    /// What it was before.
    pub was: Before,
    /// What it holds.
    pub port: Port,
    /// Whether a proposal was noted in this event.
    pub proposed: bool,
    /// Whether its learned rows go in this event.
    pub flushed: bool,
}

/// A root vector, and the port by which it came (IEEE 802.1D-2004 17.6, 17.18.6).
#[derive(Clone, Copy, Debug, PartialEq, Eq, PartialOrd, Ord)]
pub struct Best {
    /// The vector, with the cost of the path to the root.
    pub vector: PriorityVector,
    /// The receiving port's identifier; 0, which is no port's, for the bridge's own vector.
    pub receiver: u16,
}

/// The version, and the times in force in seconds.
#[derive(Clone, Copy, Debug)]
pub struct Timing {
    /// Whether the version is 2 (IEEE 802.1D-2004 17.20.11 rstpVersion).
    pub rstp_version: bool,
    /// How long a message is kept at most.
    pub max_age: u16,
    /// The time between regular messages.
    pub hello: u16,
    /// The wait before learning, and again before forwarding.
    pub forward_delay: u16,
}

/// What holds for all ports in an event once the root is known.
#[derive(Clone, Copy, Debug)]
pub struct Context {
    /// This bridge's identifier.
    pub own: BridgeId,
    /// The root vector.
    pub root: Best,
    /// The times in force at the start of the event.
    pub was_times: Times,
    /// The times in force (17.18.7).
    pub times: Times,
    /// The version, and the same times in seconds.
    pub timing: Timing,
    /// How many messages a port may send in a row (17.13.12).
    pub hold_count: u16,
}

impl Default for PortInEvent {
    /// What stands in places that no port has.
    fn default() -> Self {
        let port = Port::default();
        PortInEvent {
            inputs: PortInputs::default(),
            was: Before {
                role: port.role,
                state: port.state,
                vector: port.vector,
            },
            port,
            proposed: false,
            flushed: false,
        }
    }
}
