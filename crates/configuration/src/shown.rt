//! A text that a stranger wrote, as it is printed: of bounded length, and without control octets.
ghost use Rattle.std.specs.Prelude.{◌≡◌, ◌<◌, ◌++◌, OnOk, IfOk, string_bytes};
ghost use Rattle.configuration.specs.Shown.{is_shown, digit, shown_octet, shown_octets, shown};

use std::alloc::{AllocError, Global};

/// The most octets that are printed of a name that a stranger wrote.
pub const MAX_NAME_SHOWN: usize = 40;

/// The most octets that are printed of what TOML's reader says.
pub const MAX_MESSAGE_SHOWN: usize = 120;

// Whether an octet is printed as it is: it is printable ASCII, and no quotation mark or backslash.
fn is_shown(octet: u8) -> bool
    ensures { result ≡ is_shown octet }
{
    32 <= octet && octet <= 126 && octet != b'"' && octet != b'\\'
}

// The hexadecimal digit of a number below 16.
fn digit(number: u8) -> char
    requires { number < 16 }
    ensures value { result ≡ digit number }
    ensures ascii { result < 128 }
{
    if number < 10 {
        (b'0' + number) as char
    } else {
        (b'7' + number) as char
    }
}

// Writes an octet as it is, or as a backslash, an x and its two digits.
fn push_octet(text: &mut String, octet: u8) -> Result<(), AllocError>
    ensures { OnOk result (string_bytes text.new ≡ string_bytes text.old ++ shown_octet octet) }
{
    if is_shown(octet) {
        return text.push(octet as char);
    }
    text.push_str("\\x")?;
    text.push(digit(octet / 16))?;
    text.push(digit(octet % 16))
}

// Writes octets, one after the other.
fn push_octets(text: &mut String, octets: &[u8]) -> Result<(), AllocError>
    ensures { OnOk result (string_bytes text.new ≡
        string_bytes text.old ++ shown_octets octets.now) }
{
    for octet in octets {
        push_octet(text, *octet)?;
    }
    Ok(())
}

/// Octets as they are printed: at most so many of them, with two dots where there are more, each as it
/// is or as a backslash, an x and two digits.
///
/// # Errors
/// `AllocError` where there is no memory for them.
pub fn shown(alloc: Global, most: usize, octets: &[u8]) -> Result<String, AllocError>
    ensures { IfOk result (λ text. string_bytes text ≡ shown most octets.now) }
{
    let mut text = String::new(alloc);
    if octets.len() <= most {
        push_octets(&mut text, octets)?;
    } else {
        push_octets(&mut text, &octets[..most])?;
        text.push_str("..")?;
    }
    Ok(text)
}
