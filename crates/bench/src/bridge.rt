//! Learned addresses.
use crate::print::print_turns;
use fdb_core::{Fdb, Learnt, MAX_AGING_TIME, MIN_AGING_TIME};
use frame_core::Mac;
use std::io;
use std::time::Instant;

/// How many addresses are learned.
const ADDRESSES: [u32; 2] = [10, 1_024];

/// How many seconds pass in which no address is old enough to go.
const SECONDS: u32 = 1_000;

// The addresses in a scattered order: a step that meets each of 1,024 once.
fn address_at(turn: u32) -> Mac {
    let number = (turn % 1_024 * 389) % 1_024;
    let [_, _, high, low] = number.to_be_bytes();
    Mac([0x02, 0x00, 0x00, 0x00, high, low])
}

fn measure_learning(rt: &HostRuntime, table: &mut Fdb, addresses: u32) -> io::Result<()> {
    let start = Instant::now(rt)?;
    let mut new = 0u32;
    for turn in 0..addresses {
        if table.learn(address_at(turn), 1) == Learnt::New {
            new = new.wrapping_add(1);
        }
    }
    print_turns(rt, "addresses learned in random order", addresses, &start)?;
    println!(rt; "{new} were new")
}

fn measure_finding(rt: &HostRuntime, table: &Fdb, addresses: u32) -> io::Result<()> {
    let start = Instant::now(rt)?;
    let mut found = 0u32;
    for turn in 0..addresses {
        if table.find(address_at(turn)) == Some(1) {
            found = found.wrapping_add(1);
        }
    }
    print_turns(rt, "addresses found", addresses, &start)?;
    println!(rt; "{found} were found")
}

fn measure_quiet_seconds(rt: &HostRuntime, table: &mut Fdb) -> io::Result<()> {
    let start = Instant::now(rt)?;
    for _ in 0..SECONDS {
        table.age(MAX_AGING_TIME);
    }
    print_turns(rt, "seconds in which none goes", SECONDS, &start)?;
    println!(rt; "{} are left", table.len())
}

// Each address is learned a second after the one before, and goes a second after it.
fn measure_ageing(rt: &HostRuntime, addresses: u32) -> io::Result<()> {
    let mut table = Fdb::new(rt.alloc(), 1_024);
    for turn in 0..addresses {
        let _learnt = table.learn(address_at(turn), 1);
        table.age(MAX_AGING_TIME);
    }
    let limit = addresses.clamp(MIN_AGING_TIME, MAX_AGING_TIME);
    let start = Instant::now(rt)?;
    for _ in 0..addresses {
        table.age(limit);
    }
    print_turns(rt, "seconds in which one goes", addresses, &start)?;
    println!(rt; "{} are left", table.len())
}

/// Learns addresses in random order, finds each, and lets seconds pass.
pub fn measure_addresses(rt: &HostRuntime) -> io::Result<()> {
    for addresses in ADDRESSES {
        println!(rt; "{addresses} addresses")?;
        let mut table = Fdb::new(rt.alloc(), 1_024);
        measure_learning(rt, &mut table, addresses)?;
        measure_finding(rt, &table, addresses)?;
        measure_quiet_seconds(rt, &mut table)?;
        measure_ageing(rt, addresses)?;
    }
    Ok(())
}
