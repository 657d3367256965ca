//! Scripts over octets in memory: what is written, in how many reads and with how many flushes.
use crate::streams::{Narrow, Shouter, Slow};
use script_core::{MAX_READS, RunFault, run_script};
use std::alloc::Global;

// How a script ends, its reads, and its writer, which takes so many octets.
fn run(
    alloc: Global,
    script: &[u8],
    most_reads: u32,
    most: usize,
) -> (Result<(), RunFault>, usize, Narrow) {
    let mut reader = Slow {
        octets: script,
        reads: 0,
    };
    let mut writer = Narrow {
        is_interrupted: false,
        most,
        flushes: 0,
        octets: Vec::new(alloc),
    };
    let end = run_script(alloc, most_reads, &mut Shouter, &mut reader, &mut writer);
    (end, reader.reads, writer)
}

// A script, its most reads and octets that are written; then how it ends, what is written, and how
// many reads and flushes there are.
type Case = (
    &'static [u8],
    (u32, usize),
    Result<(), RunFault>,
    &'static [u8],
    (usize, usize),
);

// Three reads give these octets, and a fourth is the end.
const LINES: &[u8] = b"a\nb\ncd\ne\n";

const ROWS: [Case; 4] = [
    (
        LINES,
        (MAX_READS, 100),
        Ok(()),
        b"a!\nb!\ncd!\ne!\nend\n",
        (4, 4),
    ),
    // no more reads than it may make
    (
        LINES,
        (3, 100),
        Err(RunFault::Input),
        b"a!\nb!\ncd!\ne!\n",
        (3, 3),
    ),
    // a write that takes nothing
    (
        LINES,
        (MAX_READS, 5),
        Err(RunFault::Output),
        b"a!\nb!",
        (2, 1),
    ),
    // a session that stops
    (
        b"a\nstop\nb\n",
        (MAX_READS, 100),
        Err(RunFault::Stopped),
        b"a!\n",
        (3, 1),
    ),
];

#[test]
fn writes_and_flushes_once_a_read(rt: HostRuntime) {
    for (script, (most_reads, most), end, written, counts) in ROWS {
        let (ended, reads, writer) = run(rt.alloc(), script, most_reads, most);
        assert_eq!(rt; ended, end, "{script:?}");
        assert_eq!(rt; writer.octets.as_slice(), written, "{script:?}");
        assert_eq!(rt; (reads, writer.flushes), counts, "{script:?}");
    }
}
