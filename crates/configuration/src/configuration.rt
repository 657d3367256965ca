//! A configuration that was read.

use arrayvec::ArrayVec;
use community_core::Policy;
use frame_core::Mac;
use rstp_settings::config::PortConfig;
use rstp_settings::settings::MAX_PORTS;
use std::net::SocketAddr;

/// The most threads that answer requests.
pub const MAX_WORKERS: u32 = 8;

/// The most rounds of a server.
pub const MAX_ROUNDS: u32 = 1000000;

/// A port of the bridge.
#[derive(Clone, Copy, Debug, Default, PartialEq, Eq)]
pub struct Port {
    /// Its interface number, 1 to 2147483647, its speed, 10, 100 or 1000 Mb/s, and its duplex.
    pub config: PortConfig,
    /// Where the port's frames come in, if the configuration names that.
    pub listen: Option<SocketAddr>,
    /// Where the port's frames go out to, if the configuration names that.
    pub peer: Option<SocketAddr>,
}

/// How to serve.
#[derive(Clone, Copy, Debug, PartialEq, Eq)]
pub struct Serve {
    /// Where requests come in.
    pub snmp: SocketAddr,
    /// How many threads answer requests, 1 to 8.
    pub workers: u32,
    /// How many rounds to serve, 1 to 1000000.
    pub rounds: u32,
}

/// What an agent runs with.
#[derive(Drop)]
pub struct Configuration {
    /// The bridge's address, which is no group address.
    pub address: Mac,
    /// The bridge's 1 to 32 ports, numbered from 1 in this order.
    pub ports: ArrayVec<Port, MAX_PORTS>,
    /// How to serve, if the configuration has a table `serve`.
    pub serve: Option<Serve>,
    /// Who may read and write what.
    pub policy: Policy,
}

/// The text of the configuration that an agent has where it is given none.
pub const BUILT_IN: &str = "address = \"02000000000A\"
contexts = []
[[port]]
ifindex = 1
speed = 1000
full = true
[[port]]
ifindex = 2
speed = 1000
full = true
[[community]]
index = \"a\"
name = \"admin\"
security = \"admin\"
context = \"\"
[[community]]
index = \"p\"
name = \"public\"
security = \"public\"
context = \"\"
[[group]]
model = 2
name = \"admin\"
group = \"writers\"
[[group]]
model = 2
name = \"public\"
group = \"readers\"
[[access]]
group = \"readers\"
prefix = \"\"
model = 2
level = 1
exact = true
read = \"bridge\"
write = \"\"
notify = \"\"
[[access]]
group = \"writers\"
prefix = \"\"
model = 2
level = 1
exact = true
read = \"bridge\"
write = \"bridge\"
notify = \"\"
[[family]]
view = \"bridge\"
subtree = \"1.3.6.1.2.1.17\"
mask = \"\"
included = true
";
