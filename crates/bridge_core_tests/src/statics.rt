//! Static rows that are not made, and places for rows: promised, refused, and none.
ghost use Rattle.std.specs.Prelude.{◌<◌, length};

use crate::bridge::port;
use bridge_core::Bridge;
use fdb_core::{PortSet, StaticIndex, has_other_port};
use frame_core::Mac;
use frame_core::worked::OWN;
use std::alloc::{AllocError, Global};
use std::process::Abort;
use std::test::Fail;

// The row of frames to a station by any port.
const ROW: StaticIndex = StaticIndex {
    address: Mac([0x02, 0x00, 0x00, 0x00, 0x01, 0x01]),
    port: 0,
};

// A bridge of three ports.
fn opened(alloc: Global) -> Result<Bridge, Fail> {
    Ok(Bridge::new(alloc, OWN, &[port(); 3])?)
}

// Makes a row; whether there may be one.
fn make(bridge: &mut Bridge, index: StaticIndex) -> Result<bool, AllocError> {
    if !bridge.is_static_index(index) {
        return Ok(false);
    }
    bridge.reserve_static(1)?;
    bridge.put_made(index, true);
    Ok(true)
}

// Allows the ports of these octets; whether they may be.
fn allow(bridge: &mut Bridge, index: StaticIndex, octets: &[u8]) -> Result<bool, AllocError>
    requires { length octets.now < 1000 }
{
    if !bridge.is_static_index(index) || has_other_port(bridge.ports(), octets) {
        return Ok(false);
    }
    bridge.reserve_static(1)?;
    bridge.put_allowed(index, PortSet::read(octets));
    Ok(true)
}

// A made row with the ports of an octet, settled.
fn set(rt: &impl Abort, bridge: &mut Bridge, index: StaticIndex, octet: u8) {
    assert_eq!(rt; make(bridge, index), Ok(true));
    assert_eq!(rt; allow(bridge, index, &[octet]), Ok(true));
    let _ = bridge.settle();
}

// More than there can be memory for is refused, and a promise is no difference between two bridges.
#[test]
fn a_refused_promise_leaves_all_as_before(rt: HostRuntime) -> Result<(), Fail> {
    let mut bridge = opened(rt.alloc())?;
    set(&rt, &mut bridge, ROW, 0b0100_0000);
    let before = bridge.flat(rt.alloc())?;
    let places = bridge.static_places();
    assert_eq!(rt; bridge.reserve_static(usize::MAX), Err(AllocError));
    assert_eq!(rt; bridge.static_places(), places);
    bridge.reserve_static(64)?;
    assert_eq!(rt; bridge.static_places(), 65);
    assert!(rt; before.same(&bridge.flat(rt.alloc())?));
    let copy = bridge.try_copy()?;
    assert_eq!(rt; copy.static_places(), 65);
    set(&rt, &mut bridge, ROW, 0b0010_0000);
    assert!(rt; !before.same(&bridge.flat(rt.alloc())?));
    assert!(rt; before.same(&copy.flat(rt.alloc())?));
    Ok(())
}
