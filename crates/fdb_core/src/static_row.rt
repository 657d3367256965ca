//! One row of the static table.
ghost use Rattle.std.specs.Prelude.{◌≡◌};
ghost use Rattle.fdb_core.specs.Statics.{numbers_of};

use crate::port_set::PortSet;
use frame_core::Mac;

/// What a row of the static table is of (RFC 4188 dot1dStaticEntry).
#[derive(Clone, Copy, Debug, PartialEq, Eq)]
pub struct StaticIndex {
    /// The destination address of frames.
    pub address: Mac,
    /// The number of the port by which they come; 0 stands for all ports.
    pub port: u16,
}

impl StaticIndex {
    /// The seven numbers by which rows are ordered and named: the six octets of the address, and
    /// the port.
    pub fn numbers(self) -> [u32; 7]
        ensures { result ≡ numbers_of self }
    {
        let [a, b, c, d, e, f] = self.address.0;
        [
            u32::from(a),
            u32::from(b),
            u32::from(c),
            u32::from(d),
            u32::from(e),
            u32::from(f),
            u32::from(self.port),
        ]
    }
}

/// A row of the static table (IEEE 802.1D-2004, 7.9.1).
#[derive(Clone, Copy, Debug, PartialEq, Eq)]
pub struct StaticRow {
    /// What the row is of.
    pub index: StaticIndex,
    /// Whether the row is made. One that is not made decides nothing: it keeps only the ports that
    /// are set for it, until the bridge is settled.
    pub made: bool,
    /// The ports by which the frames may go out.
    pub ports: PortSet,
}
