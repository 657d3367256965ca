//! Frames through a bridge, by 2 and 32 ports, among 10 and 1,024 addresses.
use crate::print::print_turns;
use crate::statics::measure_statics;
use bridge_core::Bridge;
use frame_core::{FrameIn, Mac};
use rstp_core::{IfIndex, Key, PortConfig, PortKey};
use std::alloc::Global;
use std::hint::black_box;
use std::io;
use std::io::{Error, ErrorKind};
use std::time::Instant;

/// How many frames go through.
pub const FRAMES: u32 = 200_000;

/// How many ports the bridges have.
const PORTS: [u16; 2] = [2, 32];

/// How many addresses they have learned.
const ROWS: [u32; 2] = [10, 1_024];

const OWN: Mac = Mac([0x02, 0x00, 0x00, 0x00, 0x00, 0x0A]);

const TO_ALL: Mac = Mac([0xFF; 6]);

fn port() -> PortConfig {
    PortConfig {
        ifindex: IfIndex::of(1),
        speed: 1_000,
        full: true,
    }
}

/// The address of the station of this number, below 65,536.
pub fn station(number: u32) -> Mac {
    let [_, _, high, low] = number.to_be_bytes();
    Mac([0x02, 0x00, 0x00, 0x01, high, low])
}

fn set_edge(bridge: &mut Bridge, port: u16) {
    if port >= 1 && usize::from(port) <= bridge.ports() {
        bridge.put_setting(Key::Port(port, PortKey::Edge), 1);
    }
}

fn link_up(bridge: &mut Bridge, port: u16) {
    if port >= 1 && usize::from(port) <= bridge.ports() {
        black_box(bridge.link(port, true));
    }
}

/// How many ports a frame goes out of.
pub fn carry(bridge: &mut Bridge, port: u16, source: Mac, destination: Mac) -> usize {
    let frame = FrameIn {
        destination,
        source,
        bpdu: None,
    };
    if port >= 1 && usize::from(port) <= bridge.ports() {
        bridge.frame(port, &frame).egress.len()
    } else {
        0
    }
}

/// Brings up all ports, at the edge, and learns so many stations by port 1.
pub fn prepare(bridge: &mut Bridge, ports: u16, rows: u32) {
    for port in 1..=ports {
        set_edge(bridge, port);
    }
    black_box(bridge.settle());
    for port in 1..=ports {
        link_up(bridge, port);
    }
    for number in 0..rows {
        black_box(carry(bridge, 1, station(number), TO_ALL));
    }
}

// Frames from port 2, where the last station has moved, to the stations at port 1 and to everybody.
fn measure_bridge(rt: &HostRuntime, bridge: &mut Bridge, rows: u32) -> io::Result<()> {
    let others = rows.saturating_sub(1);
    let start = Instant::now(rt)?;
    let mut gone = 0usize;
    for turn in 0..FRAMES {
        let to = station(turn % others.max(1));
        gone = gone.wrapping_add(carry(bridge, 2, station(others), to));
    }
    print_turns(rt, "frames to learned stations", FRAMES, &start)?;
    println!(rt; "{gone} went out")?;
    let start = Instant::now(rt)?;
    for _ in 0..FRAMES {
        black_box(carry(bridge, 2, station(others), TO_ALL));
    }
    print_turns(rt, "frames to everybody", FRAMES, &start)
}

/// A bridge of so many ports, at most 32.
pub fn bridge_of(alloc: Global, ports: u16) -> io::Result<Bridge> {
    let list = [port(); 32];
    let taken = usize::from(ports).min(list.len());
    match Bridge::new(alloc, OWN, &list[..taken]) {
        Ok(bridge) => Ok(bridge),
        Err(_) => Err(Error::from(ErrorKind::InvalidData)),
    }
}

/// Sends frames through bridges of 2 and 32 ports with 10 and 1,024 learned rows, and then through one
/// with static rows.
pub fn measure_forwarding(rt: &HostRuntime) -> io::Result<()> {
    for ports in PORTS {
        for rows in ROWS {
            println!(rt; "{ports} ports, {rows} rows")?;
            let mut bridge = bridge_of(rt.alloc(), ports)?;
            prepare(&mut bridge, ports, rows);
            measure_bridge(rt, &mut bridge, rows)?;
        }
    }
    measure_statics(rt)
}
