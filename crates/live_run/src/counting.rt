//! What is counted of the traces of a run, and how their numbers rise.
ghost use Rattle.std.specs.Prelude.{◌≡◌, ◌↔◌, ◌≤◌, ◌∷◌, [], All, IsTrue, MatchOption};
ghost use Rattle.history_core.specs.Comparing.{Rises, least_after};
ghost use Rattle.live_run.specs.Reports.{receipts_of, refused_in, refused_by, count_up_to_max, fault_at, first_fault, fault_of, HadMemory, RisesIn, EachRan, FallsAt, FirstFalls, FallsIn, IsFaultOf, IsSound};

use crate::lines::Runs;
use crate::report::RunFault;
use live_agent::{End, Item, Ran};
use wire_core::WireFault;

// 1 for a datagram that was refused.
fn refused(item: &Item) -> u64
    ensures { result ≡ refused_in (item.now ∷ []) }
{
    match item {
        Item::Refused(_) => 1,
        Item::Entered(_) | Item::Short | Item::Full => 0,
    }
}

// How many datagrams of a trace were refused.
fn refused_in(items: &[Item]) -> u64
    ensures { result ≡ count_up_to_max (refused_in items.now) }
{
    let mut count: u64 = 0;
    for item in items {
        count = count.saturating_add(refused(item));
    }
    count
}

/// How many datagrams these lines refused. The count stops at `u64::MAX`.
pub fn refused_by(runs: &[Ran]) -> u64
    ensures { result ≡ count_up_to_max (refused_by runs.now) }
{
    let mut count: u64 = 0;
    for ran in runs {
        count = count.saturating_add(refused_in(ran.trace.as_slice()));
    }
    count
}

// The fault of the wire by which a line ended.
fn fault_at(end: End) -> Option<WireFault>
    ensures { result ≡ fault_at end }
{
    match end {
        End::Wire(cause) => Some(cause),
        End::Rounds | End::Closed | End::Full | End::Memory => None,
    }
}

// The fault of the first line that a fault of its wire ended.
fn first_fault(runs: &[Ran]) -> Option<WireFault>
    ensures { result ≡ first_fault runs.now }
{
    for ran in runs {
        if let Some(cause) = fault_at(ran.end) {
            return Some(cause);
        }
    }
    None
}

// The fault of the first line of a run that a fault of its wire ended.
fn fault_of(runs: &Runs) -> Option<WireFault>
    ensures { result ≡ fault_of runs.now }
{
    match first_fault(runs.workers.as_slice()) {
        Some(cause) => Some(cause),
        None => match first_fault(runs.ports.as_slice()) {
            Some(cause) => Some(cause),
            None => fault_at(runs.ticker.end),
        },
    }
}

// Whether a line did not end by want of memory.
fn had_memory(ran: &Ran) -> bool
    ensures { IsTrue result ↔ HadMemory ran.now }
{
    ran.end != End::Memory
}

// Whether none of these lines ended by want of memory.
fn all_had_memory(runs: &[Ran]) -> bool
    ensures { IsTrue result ↔ All HadMemory runs.now }
{
    runs.iter().all(|ran| had_memory(ran))
}

// Whether no line of a run ended by want of memory.
fn each_had_memory(runs: &Runs) -> bool
    ensures { IsTrue result ↔ EachRan HadMemory runs.now }
{
    all_had_memory(runs.workers.as_slice())
        && all_had_memory(runs.ports.as_slice())
        && had_memory(&runs.ticker)
}

// Whether a number is above the one before it, where there is one.
fn is_above(before: Option<u64>, number: u64) -> bool
    ensures { IsTrue result ↔ (least_after before ≤ number) }
{
    match before {
        Some(before) => before < number,
        None => true,
    }
}

// The first number in a trace that is not above the one before it.
fn fall_in(items: &[Item]) -> Option<u64>
    ensures { MatchOption result (Rises 0 (receipts_of items.now))
        (FallsAt (receipts_of items.now)) }
{
    let mut before = None;
    for item in items {
        let Item::Entered(receipt) = item else {
            continue;
        };
        if !is_above(before, receipt.number) {
            return Some(receipt.number);
        }
        before = Some(receipt.number);
    }
    None
}

// The first number that is not above the one before it in its trace.
fn first_fall(runs: &[Ran]) -> Option<u64>
    ensures { MatchOption result (All RisesIn runs.now) (FirstFalls runs.now) }
{
    for ran in runs {
        if let Some(number) = fall_in(ran.trace.as_slice()) {
            return Some(number);
        }
    }
    None
}

// The same of all lines of a run.
fn fall_of(runs: &Runs) -> Option<u64>
    ensures { MatchOption result (EachRan RisesIn runs.now) (FallsIn runs.now) }
{
    match first_fall(runs.workers.as_slice()) {
        Some(number) => Some(number),
        None => match first_fall(runs.ports.as_slice()) {
            Some(number) => Some(number),
            None => fall_in(runs.ticker.trace.as_slice()),
        },
    }
}

/// Why the lines of a run give no report, if they give none.
pub fn fault_in(runs: &Runs) -> Option<RunFault>
    ensures { MatchOption result (IsSound runs.now) (IsFaultOf runs.now) }
{
    if let Some(number) = fall_of(runs) {
        return Some(RunFault::Mismatch(number));
    }
    if let Some(cause) = fault_of(runs) {
        return Some(RunFault::Wire(cause));
    }
    if each_had_memory(runs) {
        None
    } else {
        Some(RunFault::Memory)
    }
}
