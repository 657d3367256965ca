//! The static row that an index names.
ghost use Rattle.std.specs.Prelude.{◌≡◌, true};
ghost use Rattle.setphase_core.specs.Writing.{are_octets, static_index};

use bridge_core::Bridge;
use fdb_core::StaticIndex;
use frame_core::Mac;

// Whether all of these are octets.
fn are_octets(numbers: &[u32]) -> bool
    ensures { result ≡ are_octets numbers.now }
{
    numbers.iter().all(|number| *number < 256)
}

// The address of six octets.
fn address_from(octets: [u32; 6]) -> Mac
    requires { are_octets octets ≡ true }
    ensures { result.0 ≡ octets }
{
    let [a, b, c, d, e, f] = octets;
    Mac([a as u8, b as u8, c as u8, d as u8, e as u8, f as u8])
}

/// The static row that an index names, of which a bridge may have one.
pub(crate) fn static_index(bridge: &Bridge, at: &[u32]) -> Option<StaticIndex>
    ensures { result ≡ static_index bridge.now at.now }
{
    let [a, b, c, d, e, f, port] = *at else {
        return None;
    };
    let octets = [a, b, c, d, e, f];
    if !are_octets(&octets) {
        return None;
    }
    if port as usize > bridge.ports() {
        return None;
    }
    let address = address_from(octets);
    let port = port as u16;
    let index = StaticIndex { address, port };
    bridge.is_static_index(index).then_some(index)
}
