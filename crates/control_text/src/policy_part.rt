//! The policy of a command.
ghost use Rattle.std.specs.Prelude.{◌≡◌, ◌≤◌, length, option_map};
ghost use Rattle.control_text.specs.Commands.{policy, asked_behind_policy, before_end, IsRead};

use crate::command::{Command, CommandFault, MAX_POLICY};
use configuration::policy_alone_in;
use std::alloc::Global;

/// The policy of the octets behind a first line `policy`.
#[tactic(auto, unfolding(crate::specs::Commands::asked_behind_policy))]
pub(crate) fn read_policy(alloc: Global, octets: &[u8]) -> Result<Command, CommandFault>
    ensures { IsRead (asked_behind_policy octets.now) result }
{
    match before_end(octets) {
        Some(text) if text.len() <= MAX_POLICY => read_text(alloc, text),
        None if octets.len() <= MAX_POLICY => Err(CommandFault::CutPolicy),
        Some(_) | None => Err(CommandFault::LongPolicy),
    }
}

// What stands before the line `end`, with which the octets end, if they do.
fn before_end(octets: &[u8]) -> Option<&[u8]>
    ensures { option_map (λ text. text.now) result ≡ before_end octets.now }
{
    if octets == b"end".as_slice() {
        return Some(&octets[..0]);
    }
    if octets.ends_with(b"\nend") {
        return Some(&octets[..octets.len() - 3]);
    }
    None
}

// The policy of a text.
fn read_text(alloc: Global, text: &[u8]) -> Result<Command, CommandFault>
    ensures { IsRead (policy text.now) result }
{
    match policy_alone_in(alloc, text) {
        Ok(Ok(policy)) => Ok(Command::Policy(policy)),
        Ok(Err(cause)) => Err(CommandFault::NoPolicy(cause)),
        Err(_) => Err(CommandFault::Memory),
    }
}
