//! What is written for events, for a datagram that gives none, and for `counts`.
ghost use Rattle.std.specs.Prelude.{◌≡◌, ◌++◌, Some, codes, OnOk};
ghost use Rattle.std.specs.List.{flat_map};
ghost use Rattle.agent_script.specs.Outputs.{drop_text, dropped_name, reported_audit, reply_line, reply_text, short_text, receipt_text};
ghost use Rattle.agent_script.specs.Actions.{cause_name, space_and_number, counts_text};

use crate::bridging::say_forward;
use crate::drops::Drops;
use audit_core::{Audit, write_audit};
use decision::Cause;
use history_core::{Receipt, ReceiptEvent};
use message_core::{DropCause, Octets};
use script_core::words::write_hex;
use setphase_core::World;
use std::alloc::{AllocError, Global};
use std::io::Write;

/// Appends `drop` and a name.
pub fn say_drop(name: &[u8], out: &mut Vec<u8>) -> Result<(), AllocError>
    ensures { OnOk result (out.new.items ≡ out.old.items ++ drop_text name.now) }
{
    out.extend_from_slice(b"drop ")?;
    out.extend_from_slice(name)?;
    out.extend_from_slice(b"\n")
}

/// The name of a cause.
pub fn cause_name(cause: DropCause) -> &'static [u8]
    ensures { result.now ≡ cause_name cause }
{
    match cause {
        DropCause::TooLong => b"TooLong",
        DropCause::Malformed => b"Malformed",
        DropCause::BadVersion => b"BadVersion",
        DropCause::BadKind => b"BadKind",
        DropCause::Memory => b"Memory",
    }
}

// The name of what drops a request.
fn dropped_name(cause: &Cause) -> &'static [u8]
    ensures { result.now ≡ dropped_name cause.now }
{
    match cause {
        Cause::UnknownCommunity => b"UnknownCommunity",
        Cause::NoSuchContext(_) => b"NoSuchContext",
    }
}

/// Appends what drops a request, and its audit where audits are on.
pub fn say_dropped(
    alloc: Global,
    on: bool,
    cause: &Cause,
    audit: &Audit,
    out: &mut Vec<u8>,
) -> Result<(), AllocError>
    ensures { OnOk result (out.new.items ≡ out.old.items
        ++ (drop_text (dropped_name cause.now) ++ reported_audit on (Some audit.now))) }
{
    say_drop(dropped_name(cause), out)?;
    say_reported(alloc, on, audit, out)
}

// Appends `reply` and the octets of a reply.
fn say_reply(octets: &[u8], out: &mut Vec<u8>) -> Result<(), AllocError>
    ensures { OnOk result (out.new.items ≡ out.old.items ++ reply_line octets.now) }
{
    out.extend_from_slice(b"reply ")?;
    write_hex(out, octets)?;
    out.extend_from_slice(b"\n")
}

/// Appends what answers an event for which there was no memory: a reply, or `short` where there is
/// none.
pub fn say_short(octets: &[u8], out: &mut Vec<u8>) -> Result<(), AllocError>
    ensures { OnOk result (out.new.items ≡ out.old.items ++ short_text octets.now) }
{
    if octets.is_empty() {
        return out.extend_from_slice(b"short\n");
    }
    say_reply(octets, out)
}

// Appends a reply, if there is one.
fn say_reply_of(reply: &Option<Octets>, out: &mut Vec<u8>) -> Result<(), AllocError>
    ensures { OnOk result (out.new.items ≡ out.old.items ++ reply_text reply.now) }
{
    match reply {
        Some(octets) => say_reply(octets.as_slice(), out),
        None => Ok(()),
    }
}

// Appends an audit, where audits are on.
fn say_reported(alloc: Global, on: bool, audit: &Audit, out: &mut Vec<u8>) -> Result<(), AllocError>
    ensures { OnOk result (out.new.items ≡ out.old.items ++ reported_audit on (Some audit.now)) }
{
    if !on {
        return Ok(());
    }
    out.extend_from_slice(b"audit ")?;
    write_audit(alloc, audit, out)
}

// Appends an audit, if there is one, where audits are on.
fn say_audit(
    alloc: Global,
    on: bool,
    audit: &Option<Audit>,
    out: &mut Vec<u8>,
) -> Result<(), AllocError>
    ensures { OnOk result (out.new.items ≡ out.old.items ++ reported_audit on audit.now) }
{
    match audit {
        Some(audit) => say_reported(alloc, on, audit, out),
        None => Ok(()),
    }
}

/// Appends what came of an event that was entered, ahead of what the ports send: where a frame
/// goes, that a policy is in force, or the reply and the audit of a request.
pub fn say_receipt(
    alloc: Global,
    on: bool,
    receipt: &Receipt,
    audit: &Option<Audit>,
    out: &mut Vec<u8>,
) -> Result<(), AllocError>
    ensures { OnOk result (out.new.items ≡ out.old.items
        ++ receipt_text on receipt.now audit.now) }
{
    match receipt.event {
        ReceiptEvent::Frame { .. } => say_forward(receipt.egress.as_slice(), out),
        ReceiptEvent::Tick | ReceiptEvent::Link { .. } => Ok(()),
        ReceiptEvent::Policy => out.extend_from_slice(b"policy ok\n"),
        ReceiptEvent::Request(_) => {
            say_reply_of(&receipt.reply, out)?;
            say_audit(alloc, on, audit, out)
        }
    }
}

// Appends a space and a number.
fn say_spaced(number: u32, out: &mut Vec<u8>) -> Result<(), AllocError>
    ensures { OnOk result (out.new.items ≡ out.old.items ++ space_and_number number) }
{
    match write!(out, " {number}") {
        Ok(()) => Ok(()),
        Err(_) => Err(AllocError),
    }
}

// Appends numbers, each behind a space.
fn say_numbers(numbers: &[u32], out: &mut Vec<u8>) -> Result<(), AllocError>
    ensures { OnOk result (out.new.items ≡ out.old.items ++ flat_map space_and_number numbers.now) }
{
    for number in numbers {
        say_spaced(*number, out)?;
    }
    Ok(())
}

/// Appends what was dropped.
pub fn say_counts(drops: &Drops, world: &World, out: &mut Vec<u8>) -> Result<(), AllocError>
    ensures { OnOk result (out.new.items ≡ out.old.items ++ counts_text drops.now world.now) }
{
    let counts = [
        drops.too_long,
        drops.malformed,
        drops.bad_version,
        drops.bad_kind,
        drops.memory,
        world.bad_communities,
        world.unknown_contexts,
    ];
    out.extend_from_slice(b"counts")?;
    say_numbers(&counts, out)?;
    out.extend_from_slice(b"\n")
}
