//! What a command is answered.
ghost use Rattle.std.specs.Prelude.{◌≡◌, ◌++◌, codes, OnOk, Some};
ghost use Rattle.std.specs.List.{flat_map};
ghost use Rattle.control_text.specs.Answers.{bpdu_line, bpdu_lines, space_and_number, counts_line, refusal_line};

use crate::command::CommandFault;
use frame_core::{Bpdu, Mac, SENT_FRAME_LEN, write_bpdu};
use script_core::words::write_hex;
use std::alloc::AllocError;
use std::io::Write;

/// The answer to octets that are refused, a line with its line feed.
pub fn say_refusal(refusal: CommandFault) -> &'static [u8]
    ensures { result.now ≡ refusal_line refusal }
{
    match refusal {
        CommandFault::BadLine => b"badline\n",
        CommandFault::CutPolicy
        | CommandFault::LongPolicy
        | CommandFault::NoPolicy(_)
        | CommandFault::Memory => b"policy refused\n",
    }
}

// Appends `bpdu`, a port and the frame that it sends.
fn say_bpdu(address: Mac, port: usize, bpdu: &Bpdu, out: &mut Vec<u8>) -> Result<(), AllocError>
    ensures { OnOk result (out.new.items ≡ out.old.items ++ bpdu_line address port
        (Some bpdu.now)) }
{
    let mut frame = [0; SENT_FRAME_LEN];
    write_bpdu(bpdu, address, &mut frame);
    if write!(out, "bpdu {port} ").is_err() {
        return Err(AllocError);
    }
    write_hex(out, &frame)?;
    out.extend_from_slice(b"\n")
}

// Appends what a port sends, if it sends something.
fn say_sent(
    address: Mac,
    port: usize,
    bpdu: &Option<Bpdu>,
    out: &mut Vec<u8>,
) -> Result<(), AllocError>
    ensures { OnOk result (out.new.items ≡ out.old.items ++ bpdu_line address port bpdu.now) }
{
    match bpdu {
        Some(bpdu) => say_bpdu(address, port, bpdu, out),
        None => Ok(()),
    }
}

/// Appends what the ports of a bridge of this address send, from port 1 on, each a line.
///
/// # Errors
/// There is no memory for it.
pub fn say_bpdus(address: Mac, bpdus: &[Option<Bpdu>], out: &mut Vec<u8>) -> Result<(), AllocError>
    ensures { OnOk result (out.new.items ≡ out.old.items ++ bpdu_lines address 1 bpdus.now) }
{
    for (i, bpdu) in bpdus.iter().enumerate() {
        say_sent(address, i + 1, bpdu, out)?;
    }
    Ok(())
}

// Appends a space and a number.
fn say_spaced(number: u32, out: &mut Vec<u8>) -> Result<(), AllocError>
    ensures { OnOk result (out.new.items ≡ out.old.items ++ space_and_number number) }
{
    match write!(out, " {number}") {
        Ok(()) => Ok(()),
        Err(_) => Err(AllocError),
    }
}

// Appends numbers, each behind a space.
fn say_numbers(numbers: &[u32], out: &mut Vec<u8>) -> Result<(), AllocError>
    ensures { OnOk result (out.new.items ≡ out.old.items ++ flat_map space_and_number numbers.now) }
{
    for number in numbers {
        say_spaced(*number, out)?;
    }
    Ok(())
}

/// Appends the line of the counts: how many datagrams and requests each cause dropped.
///
/// # Errors
/// There is no memory for it.
pub fn say_counts(counts: &[u32], out: &mut Vec<u8>) -> Result<(), AllocError>
    ensures { OnOk result (out.new.items ≡ out.old.items ++ counts_line counts.now) }
{
    out.extend_from_slice(b"counts")?;
    say_numbers(counts, out)?;
    out.extend_from_slice(b"\n")
}
