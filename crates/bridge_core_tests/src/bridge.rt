//! Flat copies of a bridge.
ghost use Rattle.std.specs.Prelude.{◌≡◌, IfOk};
ghost use Rattle.bridge_core.specs.Bridge.{port_count};

use bridge_core::{Bridge, BridgeFault};
use frame_core::worked::OWN;
use frame_core::{FrameIn, Mac};
use rstp_core::{IfIndex, Key, PortConfig, PortKey};
use std::alloc::Global;
use std::test::Fail;

/// A port of 1000 Mb/s, full duplex.
pub fn port() -> PortConfig {
    PortConfig {
        ifindex: IfIndex::of(1),
        speed: 1_000,
        full: true,
    }
}

fn set_edge(bridge: &mut Bridge, port: u16)
    ensures { port_count bridge.new ≡ port_count bridge.old }
{
    if port >= 1 && usize::from(port) <= bridge.ports() {
        bridge.put_setting(Key::Port(port, PortKey::Edge), 1);
    }
}

// A bridge of two ports, of which port 1 is an edge and forwards.
fn running(alloc: Global) -> Result<Bridge, BridgeFault>
    ensures { IfOk result (λ b. port_count b ≡ 2) }
{
    let mut bridge = Bridge::new(alloc, OWN, &[port(), port()])?;
    set_edge(&mut bridge, 1);
    let _ = bridge.settle();
    let _ = bridge.link(1, true);
    Ok(bridge)
}

#[test]
fn a_flat_copy_is_the_bridge_until_it_changes(rt: HostRuntime) -> Result<(), Fail> {
    let mut bridge = running(rt.alloc())?;
    let frame = FrameIn {
        destination: Mac([0xFF; 6]),
        source: Mac([0x02, 0x00, 0x00, 0x00, 0x01, 0x01]),
        bpdu: None,
    };
    let _ = bridge.frame(1, &frame);
    assert_eq!(rt; bridge.fdb().len(), 1);
    let before = bridge.flat(rt.alloc())?;
    let copy = bridge.try_copy()?;
    let _ = bridge.tick();
    assert!(rt; !before.same(&bridge.flat(rt.alloc())?));
    assert!(rt; before.same(&copy.flat(rt.alloc())?));
    Ok(())
}
