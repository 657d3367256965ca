//! Outputs that are interrupted and take little at a time, that take nothing more, and that fail
//! their flush.
use manager_words::run_manager;
use std::alloc::Global;
use std::io::{self, Error, ErrorKind, Write};
use std::net::{IpAddr, Ipv4Addr, SocketAddr};
use std::test::*;
use wire_core::MemoryWire;

// Takes ten octets a write, so many in all and then none, and is interrupted before each write.
#[derive(Drop)]
struct Narrow {
    left: usize,
    fails_its_flush: bool,
    is_interrupted: bool,
    taken: usize,
    flushed: usize,
}

impl Write for Narrow {
    fn write(&mut self, buf: &[u8]) -> io::Result<usize> {
        self.is_interrupted = !self.is_interrupted;
        if self.is_interrupted {
            return Err(Error::from(ErrorKind::Interrupted));
        }
        let size = buf.len().min(self.left).min(10);
        self.left -= size;
        self.taken = self.taken.saturating_add(size);
        Ok(size)
    }

    fn flush(&mut self) -> io::Result<()> {
        if self.fails_its_flush {
            return Err(Error::from(ErrorKind::Other));
        }
        self.flushed = self.taken;
        Ok(())
    }
}

// The words of a Get of dot1dBaseNumPorts.
const WORDS: [&str; 5] = [
    "manager",
    "get",
    "127.0.0.1:161",
    "public",
    "1.3.6.1.2.1.17.1.2.0",
];

// The Response to it, INTEGER 2: a line of 31 octets.
const TWO_PORTS: [u8; 42] = [
    0x30, 0x28, 0x02, 0x01, 0x01, 0x04, 0x06, 0x70, 0x75, 0x62, 0x6C, 0x69, 0x63, 0xA2, 0x1B, 0x02,
    0x01, 0x01, 0x02, 0x01, 0x00, 0x02, 0x01, 0x00, 0x30, 0x10, 0x30, 0x0E, 0x06, 0x09, 0x2B, 0x06,
    0x01, 0x02, 0x01, 0x11, 0x01, 0x02, 0x00, 0x02, 0x01, 0x02,
];

const FAILED: &[u8] = b"manager: output failed\n";

// How many octets the output takes and whether it fails its flush, the status, how many octets are
// taken and how many of them are flushed, and what stands on standard error.
type Case = ((usize, bool), u8, (usize, usize), &'static [u8]);

const ROWS: [Case; 4] = [
    ((31, false), 0, (31, 31), b""),
    ((30, false), 1, (30, 0), FAILED),
    ((0, false), 1, (0, 0), FAILED),
    ((31, true), 1, (31, 0), FAILED),
];

fn command_line(alloc: Global) -> Result<Vec<String>, Fail> {
    let mut words = Vec::new(alloc);
    for text in WORDS {
        words.push(String::from_str(alloc, text)?)?;
    }
    Ok(words)
}

// A run over an output: its status, and its errors.
fn written(alloc: Global, out: &mut Narrow) -> Result<(u8, Vec<u8>), Fail> {
    let words = command_line(alloc)?;
    let agent = SocketAddr::new(IpAddr::V4(Ipv4Addr::LOCALHOST), 161);
    let mut wire = MemoryWire::new(alloc);
    wire.give_datagram(agent, &TWO_PORTS)?;
    let mut errors = Vec::new(alloc);
    let status = run_manager(alloc, words.as_slice(), &mut wire, out, &mut errors);
    Ok((status, errors))
}

// Whether a run over such an output ends so.
fn is_written(alloc: Global, row: Case) -> Result<bool, Fail> {
    let ((left, fails_its_flush), status, (taken, flushed), line) = row;
    let mut out = Narrow {
        left,
        fails_its_flush,
        is_interrupted: false,
        taken: 0,
        flushed: 0,
    };
    let (ended, errors) = written(alloc, &mut out)?;
    let same = out.taken == taken && out.flushed == flushed;
    Ok(same && ended == status && errors.as_slice() == line)
}

#[test]
fn line_is_written(rt: HostRuntime) -> Result<(), Fail> {
    for row in ROWS {
        assert!(rt; is_written(rt.alloc(), row)?, "{row:?}");
    }
    Ok(())
}
