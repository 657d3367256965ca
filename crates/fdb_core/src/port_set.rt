//! Sets of ports.
ghost use Rattle.std.specs.Prelude.{ℕ, false, ◌≡◌, ◌≤◌, ◌<◌, ◌*◌, ◌^◌, length, take, drop};
ghost use Rattle.fdb_core.specs.PortSets.{IsOfPorts, has_port, has_all, first_ports, ports_in, has_bit_at, has_other_port, octet_of_bits, octets_of};

use arrayvec::ArrayVec;

/// The most ports that a set of ports can have.
pub const MAX_SET_PORTS: usize = 32;

/// In how many octets a bit for each of them fits.
pub const SET_OCTETS: usize = 4;

/// A set of ports: whether port 1 is in it, port 2, and so on (IEEE 802.1D-2004, 7.9.1).
#[derive(Clone, Copy, Debug, PartialEq, Eq)]
pub struct PortSet(pub [bool; MAX_SET_PORTS]);

impl PortSet {
    /// The ports from 1 to the count.
    pub fn first(count: usize) -> PortSet
        ensures { result ≡ first_ports count }
    {
        let mut ports = [false; MAX_SET_PORTS];
        for i in 0..MAX_SET_PORTS {
            ports[i] = i < count;
        }
        PortSet(ports)
    }

    /// Whether a port is in the set. Ports are numbered from 1.
    pub fn has(&self, port: u16) -> bool
        requires { 1 ≤ port }
        ensures { result ≡ has_port self.now port }
    {
        let at = port as usize - 1;
        at < MAX_SET_PORTS && self.0[at]
    }
    /// Whether each of so many ports is in the set.
    pub fn has_all(&self, count: usize) -> bool
        requires { count ≤ MAX_SET_PORTS }
        ensures { result ≡ has_all count self.now }
    {
        self.0[..count].iter().all(|present| *present)
    }

    /// The ports whose bits are 1 in these octets, the top bit of the first being that of port 1. A
    /// bit that is missing is 0 (RFC 4188 dot1dStaticAllowedToGoTo).
    pub fn read(octets: &[u8]) -> PortSet
        ensures ports { result ≡ ports_in octets.now }
        // So they are of so many ports, where no other bit is 1.
        ensures of_ports { (count : ℕ) → has_other_port count octets.now ≡ false →
            IsOfPorts count result }
    {
        let mut ports = [false; MAX_SET_PORTS];
        for i in 0..MAX_SET_PORTS {
            ports[i] = is_set(octets, i);
        }
        PortSet(ports)
    }

    /// The set as a bit for each of so many ports, the top bit of the first octet being that of
    /// port 1, in as many octets as that takes.
    pub fn octets(&self, count: usize) -> ArrayVec<u8, SET_OCTETS>
        requires { count ≤ MAX_SET_PORTS }
        ensures { result.items ≡ octets_of count self.now }
    {
        let mut octets = ArrayVec::new();
        for i in 0..(count + 7) / 8 {
            octets.push(octet_of(&self.0[8 * i..8 * i + 8]));
        }
        octets
    }
}

// Whether the bit of a place is 1, counted from 0 at the top bit of the first octet.
fn is_set(octets: &[u8], place: usize) -> bool
    ensures { result ≡ has_bit_at octets.now place }
{
    let octet = octets.get(place / 8).copied().unwrap_or(0);
    (octet >> (7 - place % 8)) & 1 == 1
}

/// Whether a bit that is none of so many ports is 1 in these octets.
pub fn has_other_port(count: usize, octets: &[u8]) -> bool
    requires { 8 * length octets.now < 2 ^ 64 }
    ensures { result ≡ has_other_port count octets.now }
{
    (count..8 * octets.len()).any(|place| is_set(octets, place))
}

// The octet of these eight bits, the top bit first.
fn octet_of(bits: &[bool]) -> u8
    requires { length bits.now ≡ 8 }
    ensures { result ≡ octet_of_bits bits.now }
{
    let mut octet = 0;
    for bit in bits {
        octet = 2 * octet + u8::from(*bit);
    }
    octet
}
