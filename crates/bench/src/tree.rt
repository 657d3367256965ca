//! The spanning tree.
use crate::print::print_turns;
use arrayvec::ArrayVec;
use frame_core::{Bpdu, BridgeId, Mac, PortRole, PriorityVector, Rapid, Times};
use rstp_core::{BridgeConfig, IfIndex, PortConfig, Rstp};
use rstp_settings::settings::{MAX_PORTS, Settings};
use std::hint::black_box;
use std::io;
use std::time::Instant;

/// How often each event happens.
const EVENTS: u32 = 20_000;

/// How many ports the bridges have.
const PORTS: [u16; 3] = [2, 8, 32];

fn bridge_of(ports: u16) -> BridgeConfig {
    let mut list = ArrayVec::new();
    for number in 0..ports {
        let _ = list.try_push(PortConfig {
            ifindex: IfIndex::of(u32::from(number) + 1),
            speed: 1_000,
            full: true,
        });
    }
    BridgeConfig {
        address: Mac([0x02, 0x00, 0x00, 0x00, 0x00, 0x0A]),
        ports: list,
    }
}

// What a bridge with a better identifier sends.
fn better_bpdu() -> Bpdu {
    let better = BridgeId {
        priority: 0x1000,
        address: Mac([0x02, 0x00, 0x00, 0x00, 0x00, 0x01]),
    };
    Bpdu::Rapid(Rapid {
        topology_change: false,
        proposal: true,
        role: PortRole::Designated,
        learning: false,
        forwarding: false,
        agreement: false,
        vector: PriorityVector {
            root: better,
            cost: 0,
            bridge: better,
            port: 0x8002,
        },
        times: Times {
            message_age: 0,
            max_age: 0x1400,
            hello: 0x0200,
            forward_delay: 0x0F00,
        },
    })
}

// A bridge of so many ports with its links up.
fn linked(ports: u16, settings: &Settings) -> Rstp {
    let mut tree = Rstp::new(&bridge_of(ports));
    for number in 1..=ports {
        if usize::from(number) <= tree.ports() && tree.ports() == settings.ports() {
            black_box(tree.link(number, true, settings));
        }
    }
    tree
}

/// Lets time pass, and hears a BPDU over and over, at 2, 8 and 32 ports.
pub fn measure_tree(rt: &HostRuntime) -> io::Result<()> {
    let bpdu = better_bpdu();
    for ports in PORTS {
        let settings = Settings::new(usize::from(ports).min(MAX_PORTS));
        let mut tree = linked(ports, &settings);
        println!(rt; "{ports} ports")?;
        let start = Instant::now(rt)?;
        for _ in 0..EVENTS {
            if tree.ports() == settings.ports() {
                black_box(tree.tick(&settings));
            }
        }
        print_turns(rt, "ticks", EVENTS, &start)?;
        let start = Instant::now(rt)?;
        for _ in 0..EVENTS {
            if tree.ports() >= 1 && tree.ports() == settings.ports() {
                black_box(tree.on_bpdu(1, &bpdu, &settings));
            }
        }
        print_turns(rt, "BPDUs heard", EVENTS, &start)?;
    }
    Ok(())
}
