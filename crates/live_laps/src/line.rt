//! A line that goes on interval by interval.
ghost use Rattle.std.specs.Prelude.{◌≡◌, ◌+◌, ◌<◌, ◌-◌, ◌^◌, ◌++◌, ◌≤◌, IfOk, OnOk, vec_len};
ghost use Rattle.live_laps.specs.Lines.{name_of, workers_from, ports_from, control_lines, all_lines};

use crate::watch::Watch;
use live_run::Lines;
use std::alloc::{AllocError, Global};
use wire_core::Pace;

/// A line that goes on interval by interval.
#[derive(Drop)]
pub enum Line<A, W, T, C> {
    /// The port of this number, counted from 1, over its wire; whether its link went up. Until it has,
    /// the link begins each interval.
    Port(u16, bool, W),
    /// The worker of this number, counted from 0, over its wire, with its gate.
    Worker(usize, A),
    /// The line of the control socket of a bridge of so many ports, over its wire.
    Control(u16, C),
    /// The ticker, over its wire, with its pace.
    Ticker(T),
}

/// A line, to whom it is reported how it goes on, and how it waits behind a fault.
#[derive(Drop)]
pub struct Watched<A, W, T, C, V, P> {
    /// The line.
    pub line: Line<A, W, T, C>,
    /// To whom it is reported.
    pub watch: V,
    /// The pace by which the line waits behind a fault, and which says whether it begins anew.
    pub pace: P,
    /// How many of its intervals a fault has ended so far. The count stops at `u64::MAX`.
    pub faults: u64,
}

/// What a line is called.
#[derive(Clone, Copy, Debug, PartialEq, Eq)]
pub enum LineName {
    /// The worker of this number, counted from 0.
    Worker(usize),
    /// The port of this number, counted from 1.
    Port(u16),
    /// The ticker.
    Ticker,
    /// The line of the control socket.
    Control,
}

impl<A, W, T, C> Line<A, W, T, C> {
    /// What it is called.
    pub fn name(&self) -> LineName
        ensures { result ≡ name_of self.now }
    {
        match self {
            Line::Worker(number, _) => LineName::Worker(*number),
            Line::Port(number, _, _) => LineName::Port(*number),
            Line::Ticker(_) => LineName::Ticker,
            Line::Control(_, _) => LineName::Control,
        }
    }
}

// Adds the workers' lines.
fn add_workers<A: Drop, W: Drop, T: Drop, C: Drop, V: Watch, P: Pace + Copy>(
    lines: &mut Vec<Watched<A, W, T, C, V, P>>,
    wires: Vec<A>,
    watch: &V,
    pace: P,
) -> Result<(), AllocError>
    requires few { vec_len wires < 2 ^ 16 }
    ensures lines { OnOk result (lines.new.items
        ≡ lines.old.items ++ workers_from watch.now pace 0 wires.items) }
    ensures len { OnOk result (vec_len lines.new ≡ vec_len lines.old + vec_len wires) }
{
    let mut number = 0usize;
    for wire in wires {
        lines.push(Watched {
            line: Line::Worker(number, wire),
            watch: watch.another(),
            pace,
            faults: 0,
        })?;
        number += 1;
    }
    Ok(())
}

// Adds the ports' lines.
fn add_ports<A: Drop, W: Drop, T: Drop, C: Drop, V: Watch, P: Pace + Copy>(
    lines: &mut Vec<Watched<A, W, T, C, V, P>>,
    wires: Vec<W>,
    watch: &V,
    pace: P,
) -> Result<(), AllocError>
    requires few { vec_len wires < 2 ^ 16 - 1 }
    ensures lines { OnOk result (lines.new.items
        ≡ lines.old.items ++ ports_from watch.now pace 1 wires.items) }
    ensures len { OnOk result (vec_len lines.new ≡ vec_len lines.old + vec_len wires) }
{
    let mut number = 1u16;
    for wire in wires {
        lines.push(Watched {
            line: Line::Port(number, false, wire),
            watch: watch.another(),
            pace,
            faults: 0,
        })?;
        number += 1;
    }
    Ok(())
}

// Adds the control line of so many ports, if there is a wire for it.
fn add_control<A: Drop, W: Drop, T: Drop, C: Drop, V: Watch, P: Pace + Copy>(
    lines: &mut Vec<Watched<A, W, T, C, V, P>>,
    ports: u16,
    control: Option<C>,
    watch: V,
    pace: P,
) -> Result<(), AllocError>
    ensures lines { OnOk result (lines.new.items
        ≡ lines.old.items ++ control_lines watch pace ports control) }
    ensures len { OnOk result (vec_len lines.new ≤ vec_len lines.old + 1) }
{
    let Some(wire) = control else {
        return Ok(());
    };
    lines.push(Watched {
        line: Line::Control(ports, wire),
        watch,
        pace,
        faults: 0,
    })?;
    Ok(())
}

/// The lines of a run, none of whose ports' links is up yet, each with such a watch, and with such a
/// pace for its waits behind faults. Where a wire is handed in for it, the control line is the last.
///
/// # Errors
/// That there is no memory for their list.
pub fn lines_of<A: Drop, W: Drop, T: Drop, C: Drop, V: Watch, P: Pace + Copy>(
    alloc: Global,
    run: Lines<A, W, T>,
    control: Option<C>,
    watch: V,
    pace: P,
) -> Result<Vec<Watched<A, W, T, C, V, P>>, AllocError>
    requires few { (vec_len run.workers < 2 ^ 16) × (vec_len run.ports < 2 ^ 16 - 1) }
    ensures lines { IfOk result (λ lines. lines.items ≡ all_lines watch pace run control) }
    ensures few { IfOk result (λ lines. vec_len lines < 2 ^ 32) }
{
    let ports = run.ports.len() as u16;
    let mut lines = Vec::new(alloc);
    add_workers(&mut lines, run.workers, &watch, pace)?;
    add_ports(&mut lines, run.ports, &watch, pace)?;
    lines.push(Watched {
        line: Line::Ticker(run.ticker),
        watch: watch.another(),
        pace,
        faults: 0,
    })?;
    add_control(&mut lines, ports, control, watch, pace)?;
    Ok(lines)
}
