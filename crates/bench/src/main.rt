//! Measurements in one process, of what no line of a script shows by itself. Without words it prints
//! the names of the measurements, one a line; with a name it measures and prints figures, one a line.
//!
//! # Entry points
//! The program, with no word or one.
//!
//! # Definitions
//! None.
//!
//! # Laws
//! None.
//!
//! # Not claimed
//! Any figure.
#![tactic(auto)]

mod access;
mod bridge;
mod forwarding;
mod print;
mod statics;
mod tree;

use access::measure_access;
use bridge::measure_addresses;
use forwarding::measure_forwarding;
use std::{env, io};
use tree::measure_tree;

/// The names of the measurements.
const NAMES: [&str; 4] = ["addresses", "tree", "access", "forwarding"];

fn main(rt: HostRuntime) -> io::Result<()> {
    let mut words = env::args(&rt)?;
    let _name = words.next();
    match words.next() {
        None => print_names(&rt),
        Some(word) => match word.as_str() {
            "addresses" => measure_addresses(&rt),
            "tree" => measure_tree(&rt),
            "access" => measure_access(&rt),
            "forwarding" => measure_forwarding(&rt),
            _ => print_names(&rt),
        },
    }
}

fn print_names(rt: &HostRuntime) -> io::Result<()> {
    for name in NAMES {
        println!(rt; "{name}")?;
    }
    Ok(())
}
