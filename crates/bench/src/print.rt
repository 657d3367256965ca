//! How figures are printed.
use std::io;
use std::time::Instant;

/// Prints that so many turns took so many nanoseconds, and how many that is a second.
pub fn print_nanos(rt: &HostRuntime, what: &str, turns: u32, nanos: u128) -> io::Result<()> {
    let rate = u128::from(turns) * 1_000_000_000 / nanos.max(1);
    println!(rt; "{what}: {turns} turns in {nanos} nanoseconds, {rate} a second")
}

/// Prints how long so many turns took since the start.
pub fn print_turns(rt: &HostRuntime, what: &str, turns: u32, start: &Instant) -> io::Result<()> {
    print_nanos(rt, what, turns, start.elapsed(rt)?.as_nanos())
}
