//! The lines that a manager writes.
ghost use Rattle.std.specs.Prelude.{◌≡◌, ◌≢◌, [], ◌++◌, codes, decimal, OnOk, OnErr};
ghost use Rattle.std.specs.Fmt.{signed_decimal};
ghost use Rattle.std.specs.List.{flat_map};
ghost use Rattle.hex.specs.Hex.{encode_upper};
ghost use Rattle.oid_core.specs.Text.{dotted_text};
ghost use Rattle.manager_core.specs.Lines.{value_text, binding_line, lines_of};

use message_core::{Binding, Value};
use oid_core::Oid;
use script_core::words::write_hex;
use std::alloc::AllocError;
use std::io::Write;

/// Appends the line of each binding, in order: its name, its type and its value.
///
/// # Errors
/// There is no memory for them, and they are not empty; then nothing is known of what stands behind
/// what was there.
pub(crate) fn push_lines(bindings: &[Binding], out: &mut Vec<u8>) -> Result<(), AllocError>
    ensures lines { OnOk result (out.new.items ≡ out.old.items ++ lines_of bindings.now) }
    ensures some { OnErr result (lines_of bindings.now ≢ []) }
{
    for binding in bindings {
        push_line(binding, out)?;
    }
    Ok(())
}

// Appends the line of a binding.
fn push_line(binding: &Binding, out: &mut Vec<u8>) -> Result<(), AllocError>
    ensures { OnOk result (out.new.items ≡ out.old.items ++ binding_line binding.now) }
{
    push_name(&binding.name, out)?;
    out.extend_from_slice(b" ")?;
    push_value(&binding.value, out)?;
    out.extend_from_slice(b"\n")
}

// Appends the type and the value of a binding.
fn push_value(value: &Value, out: &mut Vec<u8>) -> Result<(), AllocError>
    ensures { OnOk result (out.new.items ≡ out.old.items ++ value_text value.now) }
{
    match value {
        Value::Integer(number) => push_integer("INTEGER ", *number, out),
        Value::OctetString(octets) => push_octets(b"OCTETS ", octets.as_slice(), out),
        Value::Null => out.extend_from_slice(b"NULL"),
        Value::ObjectIdentifier(name) => push_identifier(name, out),
        Value::IpAddress(address) => push_address(address, out),
        Value::Counter32(count) => push_number("COUNTER32 ", u64::from(*count), out),
        Value::Gauge32(level) => push_number("GAUGE32 ", u64::from(*level), out),
        Value::TimeTicks(ticks) => push_number("TIMETICKS ", u64::from(*ticks), out),
        Value::Opaque(octets) => push_octets(b"OPAQUE ", octets.as_slice(), out),
        Value::Counter64(count) => push_number("COUNTER64 ", *count, out),
        Value::NoSuchObject => out.extend_from_slice(b"noSuchObject"),
        Value::NoSuchInstance => out.extend_from_slice(b"noSuchInstance"),
        Value::EndOfMibView => out.extend_from_slice(b"endOfMibView"),
    }
}

// Appends a name in dotted decimal.
fn push_name(name: &Oid, out: &mut Vec<u8>) -> Result<(), AllocError>
    ensures { OnOk result (out.new.items ≡ out.old.items ++ dotted_text name.now) }
{
    match write!(out, "{name}") {
        Ok(()) => Ok(()),
        Err(_) => Err(AllocError),
    }
}

// Appends an OBJECT IDENTIFIER value.
fn push_identifier(name: &Oid, out: &mut Vec<u8>) -> Result<(), AllocError>
    ensures { OnOk result (out.new.items ≡ out.old.items ++ (codes "OID " ++ dotted_text name.now)) }
{
    out.extend_from_slice(b"OID ")?;
    push_name(name, out)
}

// Appends a type and a number of it that is not negative.
fn push_number(kind: &str, number: u64, out: &mut Vec<u8>) -> Result<(), AllocError>
    ensures { OnOk result (out.new.items ≡ out.old.items ++ (kind.now ++ decimal number)) }
{
    match write!(out, "{kind}{number}") {
        Ok(()) => Ok(()),
        Err(_) => Err(AllocError),
    }
}

// Appends a type and a number of it.
fn push_integer(kind: &str, number: i32, out: &mut Vec<u8>) -> Result<(), AllocError>
    ensures { OnOk result (out.new.items ≡ out.old.items ++ (kind.now ++ signed_decimal number)) }
{
    match write!(out, "{kind}{number}") {
        Ok(()) => Ok(()),
        Err(_) => Err(AllocError),
    }
}

// Appends an address, its octets in decimal.
fn push_address(address: &[u8; 4], out: &mut Vec<u8>) -> Result<(), AllocError>
    ensures { OnOk result (out.new.items
        ≡ out.old.items ++ (codes "IPADDRESS " ++ dotted_text address.now)) }
{
    let [a, b, c, d] = *address;
    match write!(out, "IPADDRESS {a}.{b}.{c}.{d}") {
        Ok(()) => Ok(()),
        Err(_) => Err(AllocError),
    }
}

// Appends a type and octets of it, in hexadecimal.
fn push_octets(kind: &[u8], octets: &[u8], out: &mut Vec<u8>) -> Result<(), AllocError>
    ensures { OnOk result (out.new.items ≡ out.old.items ++ (kind.now ++ encode_upper octets.now)) }
{
    out.extend_from_slice(kind)?;
    write_hex(out, octets)
}
