//! Addresses of 48 bits.
ghost use Rattle.std.specs.Prelude.{◌≡◌};
ghost use Rattle.std.proofs.Common.{rules};
ghost use Rattle.std.specs.Cmp.{partial_order_from_own_ties};
ghost use Rattle.std.specs.Cmp.Rules.{comparing};
ghost use Rattle.std.specs.Ordering.{as_partial_cmp};
ghost use Rattle.frame_core.specs.Octets.{is_group, mac_cmp, same_mac};

use std::cmp::Ordering;

/// An address of 48 bits, six octets in the order in which they are sent (IEEE 802.3, 3.2.3).
/// Addresses are compared octet by octet.
#[derive(Clone, Copy, Debug, Default, PartialEq, Eq, Hash)]
pub struct Mac(pub [u8; 6]);

// By hand, for its time: a table of addresses spends most of a search in it.
impl Ord for Mac {
    ghost cmp = { mac_cmp };

    ghost total = { Prim.search (comparing, rules) };

    ghost matches_partial_cmp = { Prim.search (comparing, rules) };

    ghost matches_eq = { Prim.search (comparing, rules) };

    // Four octets are compared at once, and then two.
    fn cmp(&self, other: &Mac) -> Ordering {
        let [a, b, c, d, e, f] = self.0;
        let [g, h, i, j, k, l] = other.0;
        let parts = (u32::from_be_bytes([a, b, c, d]), u16::from_be_bytes([e, f]));
        parts.cmp(&(u32::from_be_bytes([g, h, i, j]), u16::from_be_bytes([k, l])))
    }
}

impl PartialOrd for Mac {
    ghost partial_cmp = { as_partial_cmp mac_cmp };

    ghost laws = { partial_order_from_own_ties (Prim.search (comparing, rules))
        (Prim.search (comparing, rules)) };

    fn partial_cmp(&self, other: &Mac) -> Option<Ordering> {
        Some(self.cmp(other))
    }
}

/// The group address to which bridges send their BPDUs (IEEE 802.1D-2004, 7.12.3).
pub const BRIDGE_GROUP: Mac = Mac([0x01, 0x80, 0xC2, 0x00, 0x00, 0x00]);

impl Mac {
    /// Whether this is a group address: the lowest bit of its first octet is 1 (IEEE 802.3, 3.2.3).
    pub fn is_group(self) -> bool
        ensures { result ≡ is_group self }
    {
        self.0[0] & 1 == 1
    }

    /// Whether two addresses are equal.
    pub fn is_same(self, other: Mac) -> bool
        ensures { result ≡ same_mac self other }
    {
        self == other
    }
}
