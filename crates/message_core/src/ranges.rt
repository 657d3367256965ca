//! What the types of names and values say of their numbers. The functions do nothing: each hands it on
//! to its caller.
ghost use Rattle.std.specs.Prelude.{◌≡◌, ◌<◌, ◌^◌, length};
ghost use Rattle.std.specs.List.{AllByRecursion};
ghost use Rattle.message_core.specs.Encodable.{FitsName, FitsValue, IsEncodableBinding, HasEncoding};

use crate::binding::Binding;
use crate::value::Value;
use oid_core::Oid;

/// Hands on that sub-identifiers are below 2^32 (RFC 2578, 3.5). It does nothing.
pub fn known_numbers(numbers: &[u32])
    ensures { AllByRecursion (λ n. n < 2 ^ 32) numbers.now }
{
    let _count = numbers.len();
}

// Hands on that a name has at most `MAX_NUMBERS` sub-identifiers, each below 2^32 (RFC 2578, 3.5).
fn known_name(name: &Oid)
    ensures { FitsName name.now }
{
    known_numbers(name.as_slice());
}

// An address has four octets.
fn known_address(address: &[u8; 4])
    ensures { length address.now ≡ 4 }
{
    let _address = *address;
}

/// Hands on that a value is in the range of its type (RFC 2578, 7.1). It does nothing.
pub fn known_value(value: &Value)
    ensures { FitsValue value.now }
{
    match value {
        Value::Integer(number) => {
            let _number = *number;
        }
        Value::ObjectIdentifier(name) => known_name(name),
        Value::IpAddress(address) => known_address(address),
        Value::Counter32(number) | Value::Gauge32(number) | Value::TimeTicks(number) => {
            let _number = *number;
        }
        Value::Counter64(number) => {
            let _number = *number;
        }
        Value::OctetString(_)
        | Value::Null
        | Value::Opaque(_)
        | Value::NoSuchObject
        | Value::NoSuchInstance
        | Value::EndOfMibView => {}
    }
}

/// Hands on that a binding whose names begin as X.690, 8.19.4 asks has an encoding. It does nothing.
pub fn known_binding(binding: &Binding)
    ensures { IsEncodableBinding binding.now → HasEncoding binding.now }
{
    known_name(&binding.name);
    known_value(&binding.value);
}
