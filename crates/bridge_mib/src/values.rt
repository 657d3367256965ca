//! Values as the syntaxes of the modules have them (RFC 2578, 7.1; RFC 4188).
ghost use Rattle.std.specs.Prelude.{◌≡◌, ◌≤◌, length};
ghost use Rattle.bridge_core.specs.Bridge.{HasPort};
ghost use Rattle.bridge_core.specs.Facts.{port_facts_of};
ghost use Rattle.message_core.specs.declared.value.Value.TheVariants.{OctetString};
ghost use Rattle.setphase_core.specs.Columns.{number, two_octets, bridge_id, timeout, ticks, cost, port_state, state_number, bridge_setting, port_setting};

use bridge_core::{Bridge, PortFacts};
use frame_core::BridgeId;
use message_core::{INLINE_OCTETS, Octets, Value};
use rstp_core::{BridgeKey, Key, PortKey, State};
use setphase_core::MAX_COST;
use std::alloc::Global;

/// A number as INTEGER.
pub fn integer(n: u32) -> Value
    requires { n ≤ MAX_COST }
    ensures { result ≡ number n }
{
    Value::Integer(n as i32)
}

/// A cost as INTEGER, at most the greatest one.
pub fn cost(n: u32) -> Value
    ensures { result ≡ cost n }
{
    integer(n.min(MAX_COST))
}

/// 1/256 s as hundredths of a second, rounded down; RFC 4188 (Timeout) rounds up here.
pub fn timeout(t: u16) -> Value
    ensures { result ≡ timeout t }
{
    integer(u32::from(t) * 100 / 256)
}

/// Seconds as hundredths of a second, modulo 2^32 (RFC 2578, 7.1.8).
pub fn ticks(seconds: u64) -> Value
    ensures { result ≡ ticks seconds }
{
    Value::TimeTicks((100 * u128::from(seconds) % (1 << 32)) as u32)
}

/// So few octets as OCTET STRING. It takes no memory.
pub fn string(alloc: Global, octets: &[u8]) -> Value
    requires { length octets.now ≤ INLINE_OCTETS }
    ensures { result ≡ OctetString octets.now }
{
    match Octets::from_slice(alloc, octets) {
        Ok(octets) => Value::OctetString(octets),
        Err(_) => unreachable!(),
    }
}

/// A port identifier: two octets, the higher one first (RFC 4188, dot1dStpPortDesignatedPort).
pub(crate) fn port_identifier(alloc: Global, id: u16) -> Value
    ensures { result ≡ OctetString (two_octets id) }
{
    string(alloc, &id.to_be_bytes())
}

/// A bridge identifier: the priority in two octets, and the address in six (RFC 4188, BridgeId).
pub(crate) fn bridge_identifier(alloc: Global, id: &BridgeId) -> Value
    ensures { result ≡ OctetString (bridge_id id.now) }
{
    let [high, low] = id.priority.to_be_bytes();
    let [a, b, c, d, e, f] = id.address.0;
    string(alloc, &[high, low, a, b, c, d, e, f])
}

fn state_number(state: State) -> u32
    ensures { result ≡ state_number state }
{
    match state {
        State::Discarding => 2,
        State::Learning => 4,
        State::Forwarding => 5,
    }
}

/// The state of a port, or that it is off (RFC 4188, dot1dStpPortState).
pub(crate) fn port_state(port: &PortFacts) -> Value
    ensures { result ≡ port_state port.now }
{
    if port.on {
        integer(state_number(port.state))
    } else {
        integer(1)
    }
}

/// The value of a setting of the bridge.
pub fn bridge_setting(bridge: &Bridge, key: BridgeKey) -> Value
    ensures { result ≡ bridge_setting bridge.now key }
{
    integer(bridge.get_setting(Key::Bridge(key)))
}

/// The value of a setting of a port.
pub fn port_setting(bridge: &Bridge, port: u16, key: PortKey) -> Value
    requires { HasPort bridge.now port }
    ensures { result ≡ port_setting bridge.now port key }
{
    integer(bridge.port_setting(port, key))
}

/// The cost of the path by a port that is in use (IEEE 802.1D-2004, 17.14).
pub fn path_cost(bridge: &Bridge, port: u16) -> u32
    requires { HasPort bridge.now port }
    ensures cost { result ≡ (port_facts_of bridge.now port).cost }
    ensures most { result ≤ MAX_COST }
{
    bridge.port_facts(port).cost
}
