//! Reports the sockets of a configuration, for other programs.
ghost use Rattle.std.specs.Prelude.{◌≡◌, ◌++◌, IfOk, OnOk};
ghost use Rattle.agent_program.specs.Files.{read_view};
ghost use Rattle.agent_program.specs.Reporting.{port_line, port_lines, sockets_text, IsSocketsWritten, IsUnservedWritten, IsSocketsReported, IsPortsChecked, IsPortsFileChecked};

use crate::checking::{ok_text, report_fault};
use crate::failure::{Failure, write_out};
use crate::files::NotRead;
use configuration::{Configuration, ConfigurationFault, configuration_in};
use std::alloc::{AllocError, Global};
use std::io::Write;
use udp_agent::{PortSockets, Setup, Unserved, setup_of};

// Adds the line of the port of this number to a text.
fn add_port(
    alloc: Global,
    number: usize,
    port: &PortSockets,
    text: &mut Vec<u8>,
) -> Result<(), AllocError>
    ensures { OnOk result (text.new.items ≡ text.old.items ++ port_line number port.now) }
{
    let listen = port.listen;
    let peer = port.peer;
    let line = format!(in alloc; "{number} {listen} {peer}\n")?;
    text.extend_from_slice(line.as_bytes())
}

// Adds the lines of ports to a text, from port 1 on.
fn add_ports(alloc: Global, ports: &[PortSockets], text: &mut Vec<u8>) -> Result<(), AllocError>
    ensures { OnOk result (text.new.items ≡ text.old.items ++ port_lines 1 ports.now) }
{
    for (index, port) in ports.iter().enumerate() {
        add_port(alloc, index + 1, port, text)?;
    }
    Ok(())
}

// What is stated of the sockets of a setup: that of requests, and behind it those of each port.
fn sockets_text(alloc: Global, setup: &Setup) -> Result<Vec<u8>, AllocError>
    ensures { IfOk result (λ text. text.items ≡ sockets_text setup.now) }
{
    let snmp = setup.serve.snmp;
    let line = format!(in alloc; "snmp {snmp}\n")?;
    let mut text = Vec::new(alloc);
    text.extend_from_slice(line.as_bytes())?;
    add_ports(alloc, setup.ports.as_slice(), &mut text)?;
    Ok(text)
}

// Reports the sockets of a setup, or that there was no memory for their text.
fn report_setup<'a, O: Write>(
    alloc: Global,
    setup: &Setup,
    writer: &mut O,
) -> Result<(), Failure<'a>>
    ensures { IsSocketsWritten O.contents setup.now writer.old writer.new result }
{
    match sockets_text(alloc, setup) {
        Ok(text) => write_out(&text, writer),
        Err(_) => Err(Failure::Run),
    }
}

// Reports why a configuration cannot be served, and gives the failure that comes of it.
fn report_unserved<'a, O: Write>(why: Unserved, writer: &mut O) -> Failure<'a>
    ensures { IsUnservedWritten O.contents why writer.old writer.new result }
{
    match write_out(ok_text(Some(why)), writer) {
        Ok(()) => Failure::Refused,
        Err(failure) => failure,
    }
}

// Reports the sockets of a configuration, or why it cannot be served.
fn report_sockets<'a, O: Write>(
    alloc: Global,
    configuration: &Configuration,
    writer: &mut O,
) -> Result<(), Failure<'a>>
    ensures { IsSocketsReported O.contents configuration.now writer.old writer.new result }
{
    match setup_of(
        configuration.address,
        &configuration.ports,
        configuration.serve,
    ) {
        Ok(setup) => report_setup(alloc, &setup, writer),
        Err(why) => Err(report_unserved(why, writer)),
    }
}

/// Reports the sockets of the configuration that octets say: `snmp` and that of requests, and behind it for each
/// port a line of its number, where its frames come in, and where they go out to; or the first fault of the
/// octets in one sentence, or why the configuration cannot be served.
///
/// # Errors
/// `Refused` where they are none, where it cannot be served, or where there is no memory to read it, and the
/// sentence is written; `Output` where a write fails; `Run`, with nothing written, where there is no memory for
/// the sentence or for the lines.
pub fn check_ports<'a, O: Write>(
    alloc: Global,
    octets: &[u8],
    writer: &mut O,
) -> Result<(), Failure<'a>>
    ensures { IsPortsChecked O.contents octets.now writer.old writer.new result }
{
    match configuration_in(alloc, octets) {
        Ok(configuration) => report_sockets(alloc, &configuration, writer),
        Err(fault) => Err(report_fault(alloc, octets, fault, writer)),
    }
}

/// Reports the sockets of what was read of a file, as [`check_ports`] does; where there was no memory for its
/// octets, that sentence.
///
/// # Errors
/// As [`check_ports`] has them; with nothing written `CannotRead`, where the file cannot be read, and
/// `TooLarge`, where it has too many octets.
pub fn check_ports_read<'a, O: Write>(
    alloc: Global,
    read: Result<Vec<u8>, NotRead<'a>>,
    writer: &mut O,
) -> Result<(), Failure<'a>>
    ensures { IsPortsFileChecked O.contents (read_view read.entry) writer.old writer.new result }
{
    match read {
        Ok(octets) => check_ports(alloc, &octets, writer),
        Err(NotRead::Memory(_)) => {
            Err(report_fault(alloc, &[], ConfigurationFault::Memory, writer))
        }
        Err(NotRead::Unreadable(file, reason)) => Err(Failure::CannotRead(file, reason)),
        Err(NotRead::TooLarge(file, limit)) => Err(Failure::TooLarge(file, limit)),
    }
}
