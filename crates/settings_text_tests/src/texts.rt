//! Texts of settings, and the settings that they say.

use arrayvec::ArrayVec;
use bridge_core::{Bridge, BridgeFault};
use fdb_core::{PortSet, StaticIndex, StaticRow};
use frame_core::Mac;
use frame_core::worked::OWN;
use rstp_settings::config::{IfIndex, PortConfig};
use rstp_settings::key::{BridgeValues, PortValues};
use settings_text::{KeptSettings, settings_in, settings_text};
use std::alloc::Global;
use std::test::Fail;

// A port of this interface.
fn port(ifindex: IfIndex) -> PortConfig {
    PortConfig {
        ifindex,
        speed: 1_000,
        full: true,
    }
}

/// A bridge of two ports.
pub fn opened(alloc: Global) -> Result<Bridge, BridgeFault> {
    Bridge::new(alloc, OWN, &[port(IfIndex::of(1)), port(IfIndex::of(2))])
}

// The settings of a port at the opening.
const OPENING: PortValues = PortValues {
    priority: 128,
    enable: 1,
    cost: 0,
    migrate: 0,
    edge: 2,
    point_to_point: 2,
};

// Each setting of port 2 is another than at the opening.
const CHANGED: PortValues = PortValues {
    priority: 16,
    enable: 2,
    cost: 5,
    migrate: 1,
    edge: 1,
    point_to_point: 0,
};

// Each setting is another than at the opening, but for those of port 1.
fn changed(alloc: Global) -> Result<KeptSettings, Fail> {
    let mut ports = ArrayVec::new();
    ports.push(OPENING);
    ports.push(CHANGED);
    let mut statics = Vec::new(alloc);
    statics.push(StaticRow {
        index: StaticIndex {
            address: Mac([0x02, 0x00, 0x00, 0x00, 0x01, 0xAB]),
            port: 0,
        },
        made: true,
        ports: PortSet::read(&[0b0100_0000]),
    })?;
    Ok(KeptSettings {
        bridge: BridgeValues {
            priority: 8192,
            max_age: 1000,
            hello: 100,
            forward_delay: 900,
            version: 0,
            hold_count: 3,
            aging: 20,
        },
        ports,
        statics,
    })
}

const TEXT: &str = "address = \"02000000000A\"
aging = 20
fwddelay = 900
hello = 100
holdcount = 3
maxage = 1000
priority = 8192
version = 0

[[port]]
cost = 5
edge = 1
enable = 2
migrate = 1
number = 2
p2p = 0
portpriority = 16

[[static]]
address = \"0200000001AB\"
port = 0
ports = [2]
";

#[test]
fn each_setting_is_written_once(rt: HostRuntime) -> Result<(), Fail> {
    let text = settings_text(rt.alloc(), OWN, &changed(rt.alloc())?)?;
    assert_eq!(rt; text.as_str(), TEXT);
    Ok(())
}

#[test]
fn each_setting_is_read(rt: HostRuntime) -> Result<(), Fail> {
    let bridge = opened(rt.alloc())?;
    let wanted = changed(rt.alloc())?;
    match settings_in(rt.alloc(), &bridge, TEXT) {
        Ok(settings) => {
            assert_eq!(rt; settings.bridge, wanted.bridge);
            assert_eq!(rt; settings.ports.as_slice(), wanted.ports.as_slice());
            assert_eq!(rt; settings.statics.as_slice(), wanted.statics.as_slice());
        }
        Err(fault) => assert_eq!(rt; Some(fault), None),
    }
    Ok(())
}

// A text of the address alone says the opening.
#[test]
fn what_is_left_out_is_that_of_the_opening(rt: HostRuntime) -> Result<(), Fail> {
    let bridge = opened(rt.alloc())?;
    match settings_in(rt.alloc(), &bridge, "address = \"02000000000a\"") {
        Ok(settings) => {
            assert_eq!(rt; settings.bridge.priority, 32768);
            assert_eq!(rt; settings.ports.as_slice(), [OPENING, OPENING].as_slice());
            assert!(rt; settings.statics.is_empty());
        }
        Err(fault) => assert_eq!(rt; Some(fault), None),
    }
    Ok(())
}
