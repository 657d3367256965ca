//! The wire over the control socket.
ghost use Rattle.std.specs.Prelude.{◌≡◌, length, IfOk, IfErr, OnOk, OnErr};
ghost use Rattle.wire_core.specs.Acts.{IsWithin, one_more};
ghost use Rattle.wire_core.specs.declared.wire.WireFault.TheVariants.{Receive};

use crate::fault::ControlFault;
use crate::reading::{COMMAND_WAIT_MILLIS, read_command};
use std::io::{self, ErrorKind, Write};
use std::net::{IpAddr, Ipv4Addr, SocketAddr};
use std::os::unix::net::{UnixListener, UnixStream};
use std::thread;
use std::time::{Clock, Duration};
use wire_core::{Received, TaskStart, Wire, WireFault};

/// How long a receive waits for an operator, in milliseconds: 1,000.
pub const OPERATOR_WAIT_MILLIS: u64 = 1000;

// How long it pauses between two tries of an accept, in milliseconds.
const PAUSE_MILLIS: u64 = 20;

/// A wire over the control socket. A receive waits for `OPERATOR_WAIT_MILLIS` for a connection, and
/// gives nothing then. Of a connection it reads one command, for `COMMAND_WAIT_MILLIS` at most: one that
/// is not whole in that time, or of which nothing comes, is passed over, and its connection ended.
///
/// Its first receive reports that its task has begun. Until all tasks of the agent's start have begun it
/// takes no connection, and where the start has failed, before a receive or behind it, it is closed; a receive
/// that fails gives its fault all the same, and the next one that it is closed.
///
/// A send answers the command that was received last, over its connection, and ends it. None fails: an
/// operator who is gone, or does not read, loses the answer. All peers are one: the operator.
#[derive(Drop)]
pub struct ControlSocket<C> {
    listener: UnixListener,
    clock: C,
    start: TaskStart,
    operator: Option<UnixStream>,
    failures: u64,
}

impl<C: Drop> ControlSocket<C> {
    /// A wire over this socket, with a clock by which it waits, and its task's part in the start.
    ///
    /// # Errors
    /// That of the system.
    pub(crate) fn new(
        listener: UnixListener,
        clock: C,
        start: TaskStart,
    ) -> Result<ControlSocket<C>, ControlFault> {
        listener.set_nonblocking(true)?;
        Ok(ControlSocket {
            listener,
            clock,
            start,
            operator: None,
            failures: 0,
        })
    }
}

impl<C: Clock + Drop> ControlSocket<C> {
    // Waits for a connection.
    fn accept(&self) -> io::Result<Option<UnixStream>> {
        for _ in 0..OPERATOR_WAIT_MILLIS / PAUSE_MILLIS {
            match self.accept_once() {
                Ok(None) => thread::sleep(&self.clock, Duration::from_millis(PAUSE_MILLIS)),
                accepted => return accepted,
            }
        }
        Ok(None)
    }

    // A connection that waits, if there is one and all tasks have begun.
    fn accept_once(&self) -> io::Result<Option<UnixStream>> {
        if !self.start.is_complete() {
            return Ok(None);
        }
        match self.listener.accept() {
            Ok((stream, _)) => Ok(Some(stream)),
            Err(error) if gave_nobody(error.kind()) => Ok(None),
            Err(error) => Err(error),
        }
    }

    // The next operator's command, if one comes in the time.
    fn receive_command(&mut self, into: &mut [u8]) -> Result<Received, WireFault>
        ensures within { IfOk result (IsWithin (length into.new)) }
        ensures fault { IfErr result (λ fault. fault ≡ Receive) }
        ensures kept { OnOk result (self.new.failures ≡ self.old.failures) }
        ensures failed { OnErr result (self.new.failures ≡ one_more self.old.failures) }
    {
        match self.accept() {
            Ok(Some(stream)) => Ok(self.take_command(stream, into)),
            Ok(None) => Ok(Received::Nothing),
            Err(_) => {
                self.failures = self.failures.saturating_add(1);
                Err(WireFault::Receive)
            }
        }
    }

    // Reads the command of a connection, which is kept for its answer.
    fn take_command(&mut self, stream: UnixStream, into: &mut [u8]) -> Received
        ensures within { IsWithin (length into.new) result }
        ensures kept { self.new.failures ≡ self.old.failures }
    {
        match read_command(&self.clock, &stream, into) {
            Ok(Some(len)) => {
                self.operator = Some(stream);
                Received::Datagram(len, operator())
            }
            Ok(None) | Err(_) => Received::Nothing,
        }
    }
}

impl<C: Clock + Drop> Wire for ControlSocket<C> {
    ghost use Rattle.wire_core.specs.Lasting.{NoSendFails};
    ghost use Rattle.wire_core.specs.LastingLaws.{goes_on};

    ghost went = { λ _ acts _. NoSendFails acts };

    ghost failures = { λ w. w.failures };

    ghost starts = { λ _. tt };

    ghost goes_on = { λ _ _ _ xs ys before after. goes_on xs ys before after };

    fn receive(&mut self, into: &mut [u8]) -> Result<Received, WireFault> {
        self.operator = None;
        if self.start.is_to_end(&self.clock) {
            return Ok(Received::Closed);
        }
        let received = self.receive_command(into)?;
        if self.start.is_to_end(&self.clock) {
            return Ok(Received::Closed);
        }
        Ok(received)
    }

    fn send(&mut self, _peer: SocketAddr, octets: &[u8]) -> Result<(), WireFault> {
        if let Some(stream) = self.operator.take() {
            answer(&stream, octets);
        }
        Ok(())
    }
}

// The one peer.
fn operator() -> SocketAddr {
    SocketAddr::new(IpAddr::V4(Ipv4Addr::LOCALHOST), 0)
}

// Sends an answer, as far as the operator takes it in the time of a command.
fn answer(stream: &UnixStream, octets: &[u8]) {
    let mut stream = stream;
    if stream
        .set_write_timeout(Some(Duration::from_millis(COMMAND_WAIT_MILLIS)))
        .is_ok()
    {
        let _taken = stream.write_all(octets);
    }
}

// Whether an accept that ended so only gave nobody: none waits, a signal came, or who did is gone.
fn gave_nobody(kind: ErrorKind) -> bool {
    matches!(
        kind,
        ErrorKind::WouldBlock | ErrorKind::Interrupted | ErrorKind::ConnectionAborted
    )
}
