//! Tasks of one start: what a wire, a pace and the control socket do where all begin, and where one does
//! not, by a clock that a test sets.
use crate::clock::SetClock;
use crate::support::loopback;
use crate::wires::received;
use control_socket::{ControlSocket, bind_control};
use std::alloc::Global;
use std::fs::{self, Permissions};
use std::io::Write;
use std::net::Net;
use std::os::unix::fs::PermissionsExt;
use std::os::unix::net::UnixStream;
use std::sync::Arc;
use std::test::*;
use std::time::Clock;
use wire_core::{
    LastingWire, MissedSeconds, Pace, Received, SendingSockets, StartingPace, Startup, TaskStart,
    Wire,
};

// A start of tasks of which it is not known yet how many there are.
fn start(alloc: Global) -> Result<Arc<Startup, Global>, Fail> {
    Ok(Arc::new(alloc, Startup::new())?)
}

// A wire of a task of this start, to which a datagram of one octet was sent this often.
fn sent_to<'c, R: Net>(
    rt: &R,
    alloc: Global,
    startup: &Arc<Startup, Global>,
    clock: &'c SetClock,
    times: u8,
) -> Result<LastingWire<&'c SetClock>, Fail> {
    let sending = Arc::new(alloc, SendingSockets::bind(rt, alloc, &[])?)?;
    let mut wire = LastingWire::bind(rt, alloc, loopback(0), &sending, startup, clock)?;
    let own = wire.local_addr()?;
    for octet in 0..times {
        if wire.send(own, &[octet]).is_err() {
            return Err(Fail::from("a send failed"));
        }
    }
    Ok(wire)
}

// The octet that a wire gave, or why there is none.
fn octet<W: Wire>(wire: &mut W) -> Result<Option<u8>, &'static str> {
    Ok(received(wire)?.map(|(_, _, octet)| octet))
}

// Of two tasks one never begins in time: from five seconds on the other's wire is closed, though datagrams
// wait, and stays closed where the task begins late.
#[test]
fn wire_is_closed_where_a_task_does_not_begin(rt: HostRuntime) -> Result<(), Fail> {
    let (alloc, clock) = (rt.alloc(), SetClock::at(1000));
    let startup = start(alloc)?;
    let mut wire = sent_to(&rt, alloc, &startup, &clock, 4)?;
    startup.expect(&clock, 2);
    let first = octet(&mut wire);
    clock.set(5999);
    let second = octet(&mut wire);
    clock.set(6000);
    let third = octet(&mut wire);
    startup.report(&clock);
    let last = (octet(&mut wire), startup.is_complete());
    assert_eq!(rt; (first, second), (Ok(Some(0)), Ok(Some(1))));
    assert_eq!(rt; (third, last), (Err("closed"), (Err("closed"), false)));
    Ok(())
}

// Whether a start has failed short of five seconds, and then, on a machine that is up for so many milliseconds.
fn has_failed_behind(alloc: Global, up: u64) -> Result<(bool, bool), Fail> {
    let clock = SetClock::at(up);
    let startup = start(alloc)?;
    startup.expect(&clock, 1);
    clock.set(up.saturating_add(4999));
    let within = startup.has_failed(&clock);
    clock.set(up.saturating_add(5000));
    Ok((within, startup.has_failed(&clock)))
}

// The time of a start is that behind it, also on a machine that has been up for weeks, or for a hundred years.
#[test]
fn start_has_its_time_on_a_machine_up_for_long(rt: HostRuntime) -> Result<(), Fail> {
    let weeks = has_failed_behind(rt.alloc(), 4_294_968_296)?;
    let years = has_failed_behind(rt.alloc(), 4_294_967_297_000)?;
    assert_eq!(rt; (weeks, years), ((false, true), (false, true)));
    Ok(())
}

// A wire is closed behind a receive in which the time ends, and what it received is passed over.
#[test]
fn wire_is_closed_behind_a_receive(rt: HostRuntime) -> Result<(), Fail> {
    let (alloc, clock) = (rt.alloc(), SetClock::at(0));
    let startup = start(alloc)?;
    let mut wire = sent_to(&rt, alloc, &startup, &clock, 2)?;
    startup.expect(&clock, 2);
    let first = octet(&mut wire);
    clock.set(4900);
    clock.step_by(200);
    let second = octet(&mut wire);
    assert_eq!(rt; (first, second), (Ok(Some(0)), Err("closed")));
    Ok(())
}

// A task that begins once the time is over does not complete the start, though it is the last.
#[test]
fn wire_that_is_late_is_closed(rt: HostRuntime) -> Result<(), Fail> {
    let (alloc, clock) = (rt.alloc(), SetClock::at(1000));
    let startup = start(alloc)?;
    let mut wire = sent_to(&rt, alloc, &startup, &clock, 1)?;
    startup.expect(&clock, 2);
    startup.report(&clock);
    clock.set(6000);
    let late = (octet(&mut wire), startup.is_complete());
    assert_eq!(rt; late, (Err("closed"), false));
    Ok(())
}

// Two tasks begin by their first receives, each of which reports once: both go on for ever.
#[test]
fn wires_go_on_where_all_begin(rt: HostRuntime) -> Result<(), Fail> {
    let (alloc, clock) = (rt.alloc(), SetClock::at(1000));
    let startup = start(alloc)?;
    let mut one = sent_to(&rt, alloc, &startup, &clock, 3)?;
    let mut other = sent_to(&rt, alloc, &startup, &clock, 2)?;
    startup.expect(&clock, 2);
    let first = (octet(&mut one), octet(&mut one), startup.is_complete());
    let second = (octet(&mut other), startup.is_complete());
    clock.set(60_000);
    let later = (
        octet(&mut one),
        octet(&mut other),
        startup.has_failed(&clock),
    );
    assert_eq!(rt;
        (first, second),
        ((Ok(Some(0)), Ok(Some(1)), false), (Ok(Some(0)), true))
    );
    assert_eq!(rt; later, (Ok(Some(2)), Ok(Some(1)), false));
    Ok(())
}

// Without a time that can be read, and before it is known how many tasks there are, nothing fails.
#[test]
fn start_without_a_clock_does_not_fail(rt: HostRuntime) -> Result<(), Fail> {
    let (alloc, clock) = (rt.alloc(), SetClock::at(1000));
    let startup = start(alloc)?;
    let unknown = (startup.has_failed(&clock), startup.is_complete());
    startup.expect(&clock, 1);
    clock.stop();
    let unread = startup.has_failed(&clock);
    clock.set(6000);
    let failed = startup.has_failed(&clock);
    let endless = start(alloc)?;
    clock.stop();
    endless.expect(&clock, 1);
    clock.set(60_000);
    assert_eq!(rt;
        (unknown, unread, failed, endless.has_failed(&clock)),
        ((false, false), false, true, false)
    );
    Ok(())
}

// What a pace of this start answers six times.
fn six(alloc: Global, clock: &SetClock, startup: &Arc<Startup, Global>) -> Result<[bool; 6], Fail> {
    let missed = Arc::new(alloc, MissedSeconds::new())?;
    let mut pace = StartingPace::new(clock, TaskStart::new(startup)?, missed)?;
    Ok([
        pace.next(),
        pace.next(),
        pace.next(),
        pace.next(),
        pace.next(),
        pace.next(),
    ])
}

// A pace of seconds goes on where its task is the only one, and ends with the fifth where another does not
// begin.
#[test]
fn pace_ends_where_a_task_does_not_begin(rt: HostRuntime) -> Result<(), Fail> {
    let (alloc, clock) = (rt.alloc(), SetClock::at(0));
    let (alone, beside) = (start(alloc)?, start(alloc)?);
    alone.expect(&clock, 1);
    let goes_on = six(alloc, &clock, &alone)?;
    beside.expect(&clock, 2);
    let ends = six(alloc, &clock, &beside)?;
    assert_eq!(rt; goes_on, [true, true, true, true, true, true]);
    assert_eq!(rt; ends, [true, true, true, true, false, false]);
    Ok(())
}

// A command.
const COMMAND: &[u8] = b"counts\n";

// What a receive of the control socket gave: how many octets, nothing or its end.
fn taken<'c>(socket: &mut ControlSocket<&'c SetClock>) -> Result<Option<usize>, &'static str> {
    let mut octets = [0u8; 16];
    match socket.receive(&mut octets) {
        Ok(Received::Datagram(len, _)) => Ok(Some(len)),
        Ok(Received::Nothing) => Ok(None),
        Ok(Received::Closed) => Err("closed"),
        Err(_) => Err("fault"),
    }
}

// A directory for a socket, which no other run of the test has.
fn own_directory(rt: &HostRuntime) -> Result<String, Fail> {
    let now = rt.since_1970()?.as_nanos();
    let directory = format!(in rt.alloc(); "/tmp/control-{now}")?;
    fs::create_dir(rt, directory.as_str())?;
    fs::set_permissions(rt, directory.as_str(), Permissions::from_mode(0o700))?;
    Ok(directory)
}

// The control socket at a path, of a task of this start.
fn control_at<'c>(
    rt: &HostRuntime,
    clock: &'c SetClock,
    path: &str,
    startup: &Arc<Startup, Global>,
) -> Result<ControlSocket<&'c SetClock>, Fail> {
    match bind_control(rt, clock, path, TaskStart::new(startup)?) {
        Ok(socket) => Ok(socket),
        Err(_) => Err(Fail::from("no control socket")),
    }
}

// Of two tasks one never begins: a receive of the control socket within whose wait the time ends is closed.
#[test]
fn control_socket_is_closed_where_a_task_does_not_begin(rt: HostRuntime) -> Result<(), Fail> {
    let (alloc, clock) = (rt.alloc(), SetClock::at(0));
    let startup = start(alloc)?;
    let directory = own_directory(&rt)?;
    let path = format!(in alloc; "{directory}/socket")?;
    let mut socket = control_at(&rt, &clock, path.as_str(), &startup)?;
    startup.expect(&clock, 2);
    clock.set(3500);
    let early = taken(&mut socket);
    let late = taken(&mut socket);
    fs::remove_file(&rt, path.as_str())?;
    fs::remove_dir(&rt, directory.as_str())?;
    assert_eq!(rt; (early, late), (Ok(None), Err("closed")));
    Ok(())
}

// An operator's command waits until all tasks have begun.
#[test]
fn command_waits_for_all_tasks(rt: HostRuntime) -> Result<(), Fail> {
    let (alloc, clock) = (rt.alloc(), SetClock::at(0));
    let startup = start(alloc)?;
    let directory = own_directory(&rt)?;
    let path = format!(in alloc; "{directory}/socket")?;
    let mut socket = control_at(&rt, &clock, path.as_str(), &startup)?;
    startup.expect(&clock, 2);
    let operator = UnixStream::connect(&rt, path.as_str())?;
    (&mut &operator).write_all(COMMAND)?;
    let early = (taken(&mut socket), taken(&mut socket));
    startup.report(&clock);
    let late = taken(&mut socket);
    fs::remove_file(&rt, path.as_str())?;
    fs::remove_dir(&rt, directory.as_str())?;
    assert_eq!(rt;
        (early, late),
        ((Ok(None), Ok(None)), Ok(Some(COMMAND.len())))
    );
    Ok(())
}
