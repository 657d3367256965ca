//! The octets of a command.
ghost use Rattle.std.specs.Prelude.{◌≡◌, IfOk};
ghost use Rattle.control_socket.specs.Sent.{direction_octets, link_octets, line_end, policy_octets};

use std::alloc::{AllocError, Global};

/// The command for the counts.
pub const COUNTS: &[u8] = b"counts\n";

// What stands behind a port.
fn direction(up: bool) -> &'static [u8]
    ensures { result.now ≡ direction_octets up }
{
    if up { b" up\n" } else { b" down\n" }
}

/// The command for the link of the port of this number, as it is written.
///
/// # Errors
/// There is no memory for it.
pub fn link_command(alloc: Global, port: &str, up: bool) -> Result<Vec<u8>, AllocError>
    ensures { IfOk result (λ octets. octets.items ≡ link_octets port.now up) }
{
    let mut octets = Vec::new(alloc);
    octets.extend_from_slice(b"link ")?;
    octets.extend_from_slice(port.as_bytes())?;
    octets.extend_from_slice(direction(up))?;
    Ok(octets)
}

// The line feed that a text lacks behind its last line.
fn line_end(text: &[u8]) -> &'static [u8]
    ensures { result.now ≡ line_end text.now }
{
    if text.is_empty() || text.ends_with(b"\n") {
        b""
    } else {
        b"\n"
    }
}

/// The command for a policy of this text.
///
/// # Errors
/// There is no memory for it.
pub fn policy_command(alloc: Global, text: &[u8]) -> Result<Vec<u8>, AllocError>
    ensures { IfOk result (λ octets. octets.items ≡ policy_octets text.now) }
{
    let mut octets = Vec::new(alloc);
    octets.extend_from_slice(b"policy\n")?;
    octets.extend_from_slice(text)?;
    octets.extend_from_slice(line_end(text))?;
    octets.extend_from_slice(b"end\n")?;
    Ok(octets)
}
