//! Logs what is served, once all sockets are bound.
use crate::lasting_binding::{LastingLines, LastingWorker};
use crate::setup::Setup;
use frame_core::Mac;
use line_output::file_size_limit;
use log::{Log, info, warn};
use std::fmt;
use std::fmt::{Display, Formatter};
use std::net::SocketAddr;
use std::time::Clock;
use wire_core::LastingWire;

/// Logs what an agent of this version serves over lines that are bound, in one line of level Info: `agentd
/// VERSION serves ADDRESS: requests at SOCKET by N workers; port 1 at LISTEN to PEER, port 2 at LISTEN to
/// PEER`, with `, audited` behind the workers where each request is audited. A socket is named by the address
/// to which it is bound, also where the setup asks for any free port by 0.
pub fn log_ready<G: Log, C: Clock + Copy, P>(
    log: &G,
    version: &str,
    setup: &Setup,
    lines: &LastingLines<'_, C, P>,
    is_audited: bool,
) {
    let served = Served {
        setup,
        workers: lines.workers.as_slice(),
        wires: lines.ports.as_slice(),
        is_audited,
    };
    info!(log; "agentd {} serves {}", version, served);
}

/// Logs the limit of the sizes of files, where the system sets one, in a line of level Warn: an output that
/// is a file and reaches it ends the agent, unless SIGXFSZ is ignored.
pub(crate) fn log_limit<G: Log>(log: &G) {
    if let Some(octets) = file_size_limit() {
        warn!(
            log;
            "a limit of file sizes of {} octets: an output that reaches it ends the agent, unless SIGXFSZ is ignored",
            octets
        );
    }
}

// How large the send buffer of requests is asked for, in octets: 4 MiB.
const REQUESTS_BUFFER_OCTETS: u32 = 4_194_304;

/// Asks the system for a send buffer of 4 MiB at the socket that these workers share, and logs in a line of
/// level Warn how large it is where the system gave less.
pub(crate) fn widen_requests<G: Log, C: Clock + Copy>(log: &G, workers: &[LastingWorker<'_, C>]) {
    let Some(worker) = workers.first() else {
        return;
    };
    match worker.wire.widen_send_buffer(REQUESTS_BUFFER_OCTETS) {
        Ok(octets) if octets < REQUESTS_BUFFER_OCTETS as usize => {
            warn!(
                log;
                "the send buffer of requests has {} octets; {} were asked for (net.core.wmem_max)",
                octets,
                REQUESTS_BUFFER_OCTETS
            );
        }
        Ok(_) => {}
        Err(why) => warn!(log; "the send buffer of requests is as the system made it: {}", why),
    }
}

// What a setup says, where its workers and its ports are bound, and whether requests are audited.
#[derive(Drop)]
struct Served<'a, 'b, C> {
    setup: &'a Setup,
    workers: &'a [LastingWorker<'b, C>],
    wires: &'a [LastingWire<C>],
    is_audited: bool,
}

// The address to which a wire is bound, or where the system does not say, the one that was asked for.
fn bound_to<C: Clock + Copy>(wire: Option<&LastingWire<C>>, asked: SocketAddr) -> SocketAddr {
    match wire.map(LastingWire::local_addr) {
        Some(Ok(address)) => address,
        _ => asked,
    }
}

impl<C: Clock + Copy> Display for Served<'_, '_, C> {
    fn fmt<W: fmt::Write>(&self, f: &mut Formatter<W>) -> fmt::Result {
        let setup = self.setup;
        let audited = if self.is_audited { ", audited" } else { "" };
        write!(
            f,
            "{}: requests at {} by {} workers{}",
            Hyphenated(setup.address),
            bound_to(
                self.workers.first().map(|worker| &worker.wire),
                setup.serve.snmp
            ),
            setup.serve.workers,
            audited
        )?;
        for (index, port) in setup.ports.iter().enumerate() {
            let mark = if index == 0 { ';' } else { ',' };
            let listen = bound_to(self.wires.get(index), port.listen);
            // Ports are counted from 1.
            let number = index.saturating_add(1);
            write!(f, "{} port {} at {} to {}", mark, number, listen, port.peer)?;
        }
        Ok(())
    }
}

// An address by its octets, with hyphens between them.
#[derive(Drop)]
struct Hyphenated(Mac);

impl Display for Hyphenated {
    fn fmt<W: fmt::Write>(&self, f: &mut Formatter<W>) -> fmt::Result {
        let [a, b, c, d, e, g] = self.0.0;
        write!(f, "{a:02X}-{b:02X}-{c:02X}-{d:02X}-{e:02X}-{g:02X}")
    }
}
