//! What the octets of a command ask for.
ghost use Rattle.std.specs.Prelude.{◌≡◌};
ghost use Rattle.control_text.specs.Commands.{asked_by, asked_by_line, line_with, line_alone, link_in, port_of, direction_of, without_end, is_one_line, IsRead};

use crate::policy_part::read_policy;
use community_core::Policy;
use configuration::PolicyCause;
use script_core::words::{read_number, split_word};
use std::alloc::Global;

/// The most octets of a policy's text: 64 kB.
pub const MAX_POLICY: usize = 65_536;

/// The most octets of a command: those of a policy's text, and of its first and last lines.
pub const MAX_COMMAND: usize = MAX_POLICY + 11;

/// What an operator asks of a served agent. There is no frame, no request and no driver.
#[derive(Drop)]
pub enum Command {
    /// `link P up` or `link P down`: the link of a port, by the port's number, from 1 on.
    Link(u16, bool),
    /// `policy`, the lines of a policy, and `end`: it comes into force.
    Policy(Policy),
    /// `counts`: what was dropped.
    Counts,
}

/// Why octets are no command that is done.
#[derive(Clone, Copy, Debug, PartialEq, Eq)]
pub enum CommandFault {
    /// They are no command.
    BadLine,
    /// Their policy has no `end`, and not too many octets so far.
    CutPolicy,
    /// Their policy has more than [`MAX_POLICY`] octets.
    LongPolicy,
    /// The text of their policy says none, for this cause, in which there is none of the text.
    NoPolicy(PolicyCause),
    /// There was no memory for their policy.
    Memory,
}

/// What the octets of a command ask for, where there are so many ports. A line feed that ends them
/// says nothing.
///
/// # Errors
/// `BadLine` for octets that are no command; `CutPolicy` for a policy without its `end`, `LongPolicy` for
/// one of more than [`MAX_POLICY`] octets, with its `end` or without it; `NoPolicy` for one whose text says
/// none; `Memory` where there is none for a policy, or to find the cause.
#[tactic(auto, unfolding(crate::specs::Commands::asked_by))]
pub fn read_command(alloc: Global, ports: u16, octets: &[u8]) -> Result<Command, CommandFault>
    ensures { IsRead (asked_by ports octets.now) result }
{
    let command = without_end(octets);
    if command == b"policy".as_slice() {
        return Err(CommandFault::CutPolicy);
    }
    if command.starts_with(b"policy\n") {
        return read_policy(alloc, &command[7..]);
    }
    if is_one_line(command) {
        return read_line(ports, command);
    }
    Err(CommandFault::BadLine)
}

// The octets, but a line feed that ends them.
fn without_end(octets: &[u8]) -> &[u8]
    ensures { result.now ≡ without_end octets.now }
{
    if octets.ends_with(b"\n") {
        &octets[..octets.len() - 1]
    } else {
        octets
    }
}

// Whether there is no line feed.
fn is_one_line(octets: &[u8]) -> bool
    ensures { result ≡ is_one_line octets.now }
{
    octets.iter().all(|octet| *octet != b'\n')
}

// What one line asks for.
#[tactic(auto, unfolding(crate::specs::Commands::asked_by_line))]
fn read_line(ports: u16, line: &[u8]) -> Result<Command, CommandFault>
    ensures { IsRead (asked_by_line ports line.now) result }
{
    match split_word(line) {
        Some((word, rest)) => read_with(ports, word, rest),
        None => read_alone(line),
    }
}

// What a word alone asks for.
fn read_alone(line: &[u8]) -> Result<Command, CommandFault>
    ensures { IsRead (line_alone line.now) result }
{
    if line == b"counts".as_slice() {
        return Ok(Command::Counts);
    }
    Err(CommandFault::BadLine)
}

// What a word asks for, with what follows the space behind it.
fn read_with(ports: u16, word: &[u8], rest: &[u8]) -> Result<Command, CommandFault>
    ensures { IsRead (line_with ports (word.now, rest.now)) result }
{
    if word != b"link".as_slice() {
        return Err(CommandFault::BadLine);
    }
    match read_link(ports, rest) {
        Some((port, up)) => Ok(Command::Link(port, up)),
        None => Err(CommandFault::BadLine),
    }
}

// The number of a port, and the direction of its link.
fn read_link(ports: u16, text: &[u8]) -> Option<(u16, bool)>
    ensures { result ≡ link_in ports text.now }
{
    let (word, rest) = split_word(text)?;
    let port = read_port(ports, word)?;
    let up = read_direction(rest)?;
    Some((port, up))
}

// The number of one of so many ports.
fn read_port(ports: u16, word: &[u8]) -> Option<u16>
    ensures { result ≡ port_of ports word.now }
{
    match read_number(word, u32::from(ports)) {
        Some(0) | None => None,
        Some(port) => Some(port as u16),
    }
}

// `up` or `down`.
fn read_direction(word: &[u8]) -> Option<bool>
    ensures { result ≡ direction_of word.now }
{
    if word == b"up".as_slice() {
        return Some(true);
    }
    if word == b"down".as_slice() {
        return Some(false);
    }
    None
}
