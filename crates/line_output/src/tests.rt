//! Lines of both outputs, offered and written: what no clause follows through a lock.
use crate::{LineQueue, LinesInHand, MAX_LOG_OCTETS, Outlet, QueuedLog, write_lines};
use log::{debug, info, warn};
use std::alloc::Global;
use std::cell::RefCell;
use std::io::{self, ErrorKind, Write};
use std::sync::Wait;
use std::test::Fail;
use std::time::Clock;

// An output to a file that another one may share: it takes so many octets at once, and fails at one write,
// or takes nothing.
#[derive(Drop)]
struct Sharing<'f> {
    file: &'f RefCell<Vec<u8>>,
    most: usize,
    failing: Option<u8>,
    is_ready: bool,
}

impl<'f> Sharing<'f> {
    // One that takes all, few octets at once.
    fn new(file: &'f RefCell<Vec<u8>>) -> Sharing<'f> {
        Sharing {
            file,
            most: 5,
            failing: None,
            is_ready: true,
        }
    }
}

impl Write for Sharing<'_> {
    fn write(&mut self, buf: &[u8]) -> io::Result<usize> {
        match self.failing {
            Some(0) => {
                self.failing = None;
                return Err(io::Error::from(ErrorKind::BrokenPipe));
            }
            Some(writes) => self.failing = Some(writes.saturating_sub(1)),
            None => {}
        }
        let octets = buf.len().min(self.most);
        let Ok(mut file) = self.file.try_borrow_mut() else {
            return Err(io::Error::from(ErrorKind::WouldBlock));
        };
        file.extend_from_slice(&buf[..octets])?;
        Ok(octets)
    }

    fn flush(&mut self) -> io::Result<()> {
        Ok(())
    }
}

impl Outlet for Sharing<'_> {
    fn is_ready(&self, _millis: u16) -> bool {
        self.is_ready
    }
}

// Writes what waits in a queue to two outputs of one file.
fn write_both<R: Wait + Clock>(
    rt: &R,
    alloc: Global,
    queue: &LineQueue,
    audits: &mut Sharing<'_>,
    log: &mut Sharing<'_>,
) -> Result<(), Fail> {
    queue.close(rt);
    let mut hand = LinesInHand::new(alloc, true)?;
    write_lines(rt, alloc, queue, &mut hand, audits, log);
    Ok(())
}

#[test]
fn lines_stay_whole_in_one_file(rt: HostRuntime) -> Result<(), Fail> {
    let queue = LineQueue::new(rt.alloc())?;
    queue.offer_audit(&rt, "1 audit\n");
    queue.offer_log(&rt, "[INFO ] one\n");
    queue.offer_audit(&rt, "2 audits\n");
    queue.offer_log(&rt, "[INFO ] two\n");
    let file = RefCell::new(Vec::new(rt.alloc()));
    let (mut audits, mut log) = (Sharing::new(&file), Sharing::new(&file));
    write_both(&rt, rt.alloc(), &queue, &mut audits, &mut log)?;
    let written = file.into_inner();
    let mut lines: Vec<&[u8]> = Vec::new(rt.alloc());
    for line in written.split(|octet| *octet == b'\n') {
        lines.push(line)?;
    }
    lines.sort()?;
    assert_eq!(rt;
        lines.as_slice(),
        [
            &b""[..],
            b"1 audit",
            b"2 audits",
            b"[INFO ] one",
            b"[INFO ] two"
        ]
        .as_slice()
    );
    Ok(())
}

#[test]
fn lines_behind_a_failed_write_begin_anew(rt: HostRuntime) -> Result<(), Fail> {
    let queue = LineQueue::new(rt.alloc())?;
    queue.offer_audit(&rt, "1 audit\n");
    queue.offer_log(&rt, "[INFO ] one\n");
    let file = RefCell::new(Vec::new(rt.alloc()));
    let (mut audits, mut log) = (Sharing::new(&file), Sharing::new(&file));
    audits.failing = Some(1);
    write_both(&rt, rt.alloc(), &queue, &mut audits, &mut log)?;
    assert_eq!(rt; queue.take_lost_audits(&rt), 1);
    assert_eq!(rt; file.into_inner().as_slice(), &b"1 aud\n[INFO ] one\n"[..]);
    Ok(())
}

#[test]
fn lost_lines_of_the_log_are_reported(rt: HostRuntime) -> Result<(), Fail> {
    let queue = LineQueue::new(rt.alloc())?;
    let line = "[INFO ] 49 octets, the feed among them, in a row\n";
    for _ in 0..6_000 {
        queue.offer_log(&rt, line);
    }
    let file = RefCell::new(Vec::new(rt.alloc()));
    let (mut audits, mut log) = (Sharing::new(&file), Sharing::new(&file));
    log.most = 4_096;
    write_both(&rt, rt.alloc(), &queue, &mut audits, &mut log)?;
    let kept = MAX_LOG_OCTETS / 49;
    let report = format!(in rt.alloc(); "[WARN  line_output] {} log lines lost\n", 6_000 - kept)?;
    let written = file.into_inner();
    assert_eq!(rt; written.len(), (kept * 49).saturating_add(report.len()));
    assert!(rt; written.ends_with(report.as_bytes()));
    Ok(())
}

#[test]
fn ends_where_nothing_is_taken(rt: HostRuntime) -> Result<(), Fail> {
    let queue = LineQueue::new(rt.alloc())?;
    queue.offer_log(&rt, "[INFO ] one\n");
    queue.offer_audit(&rt, "1 audit\n");
    let file = RefCell::new(Vec::new(rt.alloc()));
    let (mut audits, mut log) = (Sharing::new(&file), Sharing::new(&file));
    log.is_ready = false;
    write_both(&rt, rt.alloc(), &queue, &mut audits, &mut log)?;
    assert_eq!(rt; file.into_inner().as_slice(), &b"1 audit\n"[..]);
    Ok(())
}

#[test]
fn records_are_lines_of_the_log(rt: HostRuntime) -> Result<(), Fail> {
    let queue = LineQueue::new(rt.alloc())?;
    let records = QueuedLog::new(&rt, rt.alloc(), &queue);
    info!(records; target: "serving", "entries {}", 7);
    debug!(records; target: "serving", "not logged");
    warn!(records; target: "serving", "{} lost", 2);
    let file = RefCell::new(Vec::new(rt.alloc()));
    let (mut audits, mut log) = (Sharing::new(&file), Sharing::new(&file));
    write_both(&rt, rt.alloc(), &queue, &mut audits, &mut log)?;
    assert_eq!(rt;
        file.into_inner().as_slice(),
        &b"[INFO  serving] entries 7\n[WARN  serving] 2 lost\n"[..]
    );
    Ok(())
}
