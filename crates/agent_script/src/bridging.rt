//! What is written of a bridge: what its ports send, where a frame goes, and what is no frame.
ghost use Rattle.std.specs.Prelude.{◌≡◌, ◌++◌, codes, decimal, OnOk, Some};
ghost use Rattle.std.specs.List.{flat_map};
ghost use Rattle.bridge_core.specs.Bridge.{address_of};
ghost use Rattle.agent_script.specs.Outputs.{bpdu_line, bpdu_lines, another_port, egress_text, forward_line};
ghost use Rattle.agent_script.specs.Actions.{fault_name};

use bridge_core::Bridge;
use frame_core::{Bpdu, FrameFault, Mac, SENT_FRAME_LEN, write_bpdu};
use script_core::words::write_hex;
use std::alloc::AllocError;
use std::io::Write;

/// The address of a bridge.
#[tactic(auto, unfolding(bridge_core::specs::Facts::facts_of))]
pub fn address_of(bridge: &Bridge) -> Mac
    ensures { result ≡ address_of bridge.now }
{
    bridge.facts().address
}

// Appends `bpdu`, a port and the frame that it sends.
fn say_bpdu(address: Mac, port: usize, bpdu: &Bpdu, out: &mut Vec<u8>) -> Result<(), AllocError>
    ensures { OnOk result (out.new.items ≡ out.old.items ++ bpdu_line address port
        (Some bpdu.now)) }
{
    let mut frame = [0; SENT_FRAME_LEN];
    write_bpdu(bpdu, address, &mut frame);
    if write!(out, "bpdu {port} ").is_err() {
        return Err(AllocError);
    }
    write_hex(out, &frame)?;
    out.extend_from_slice(b"\n")
}

// Appends what a port sends, if it sends something.
fn say_sent(
    address: Mac,
    port: usize,
    bpdu: &Option<Bpdu>,
    out: &mut Vec<u8>,
) -> Result<(), AllocError>
    ensures { OnOk result (out.new.items ≡ out.old.items ++ bpdu_line address port bpdu.now) }
{
    match bpdu {
        Some(bpdu) => say_bpdu(address, port, bpdu, out),
        None => Ok(()),
    }
}

/// Appends what the ports send, in their order.
pub fn say_bpdus(address: Mac, bpdus: &[Option<Bpdu>], out: &mut Vec<u8>) -> Result<(), AllocError>
    ensures { OnOk result (out.new.items ≡ out.old.items ++ bpdu_lines address 1 bpdus.now) }
{
    for (i, bpdu) in bpdus.iter().enumerate() {
        say_sent(address, i + 1, bpdu, out)?;
    }
    Ok(())
}

// The name of a fault.
fn fault_name(fault: FrameFault) -> &'static [u8]
    ensures { result.now ≡ fault_name fault }
{
    match fault {
        FrameFault::Short => b"Short",
        FrameFault::TooLong => b"TooLong",
        FrameFault::BadBpdu => b"BadBpdu",
    }
}

// Appends a comma and a port.
fn say_another(port: u16, out: &mut Vec<u8>) -> Result<(), AllocError>
    ensures { OnOk result (out.new.items ≡ out.old.items ++ another_port port) }
{
    match write!(out, ",{port}") {
        Ok(()) => Ok(()),
        Err(_) => Err(AllocError),
    }
}

// Appends ports, each behind a comma.
fn say_others(ports: &[u16], out: &mut Vec<u8>) -> Result<(), AllocError>
    ensures { OnOk result (out.new.items ≡ out.old.items ++ flat_map another_port ports.now) }
{
    for port in ports {
        say_another(*port, out)?;
    }
    Ok(())
}

// Appends a port.
fn say_port(port: u16, out: &mut Vec<u8>) -> Result<(), AllocError>
    ensures { OnOk result (out.new.items ≡ out.old.items ++ decimal port) }
{
    match write!(out, "{port}") {
        Ok(()) => Ok(()),
        Err(_) => Err(AllocError),
    }
}

// Appends the ports by which a frame goes out, or a dash.
fn say_egress(ports: &[u16], out: &mut Vec<u8>) -> Result<(), AllocError>
    ensures { OnOk result (out.new.items ≡ out.old.items ++ egress_text ports.now) }
{
    match ports.split_first() {
        None => out.extend_from_slice(b"-"),
        Some((first, others)) => {
            say_port(*first, out)?;
            say_others(others, out)
        }
    }
}

/// Appends why octets are no frame.
pub fn say_bad_frame(fault: FrameFault, out: &mut Vec<u8>) -> Result<(), AllocError>
    ensures { OnOk result (out.new.items ≡ out.old.items ++ (codes "badframe " ++ fault_name fault
        ++ codes "\n")) }
{
    out.extend_from_slice(b"badframe ")?;
    out.extend_from_slice(fault_name(fault))?;
    out.extend_from_slice(b"\n")
}

/// Appends where a frame goes.
pub fn say_forward(ports: &[u16], out: &mut Vec<u8>) -> Result<(), AllocError>
    ensures { OnOk result (out.new.items ≡ out.old.items ++ forward_line ports.now) }
{
    out.extend_from_slice(b"forward ")?;
    say_egress(ports, out)?;
    out.extend_from_slice(b"\n")
}
