//! Frames through a bridge with static rows.
use crate::forwarding::{FRAMES, bridge_of, carry, prepare, station};
use crate::print::print_turns;
use bridge_core::Bridge;
use fdb_core::StaticIndex;
use std::alloc::AllocError;
use std::hint::black_box;
use std::io;
use std::time::Instant;

// Makes a row of the station of this number, for frames from all ports.
fn make_row(bridge: &mut Bridge, number: u32) -> Result<(), AllocError> {
    let index = StaticIndex {
        address: station(number),
        port: 0,
    };
    bridge.reserve_static(1)?;
    if bridge.is_static_index(index) {
        bridge.put_made(index, true);
    }
    Ok(())
}

/// Sends frames to learned stations through a bridge of 8 ports, among 0 and 256 static rows of other
/// stations.
pub fn measure_statics(rt: &HostRuntime) -> io::Result<()> {
    for rows in [0, 256] {
        let mut bridge = bridge_of(rt.alloc(), 8)?;
        prepare(&mut bridge, 8, 10);
        for number in 0..rows {
            make_row(&mut bridge, 1_000 + number)?;
        }
        println!(rt; "8 ports, {rows} static rows")?;
        let start = Instant::now(rt)?;
        for turn in 0..FRAMES {
            black_box(carry(&mut bridge, 2, station(9), station(turn % 9)));
        }
        print_turns(rt, "frames to learned stations", FRAMES, &start)?;
    }
    Ok(())
}
