//! A value of a variable binding (RFC 3416, section 3; RFC 2578, section 7.1).
ghost use Rattle.std.specs.Prelude.{◌≡◌, ◌↔◌, IsTrue, IsOk, IfOk};
ghost use Rattle.message_core.specs.Inline.{IsInlineValue};
ghost use Rattle.message_core.specs.Encodable.{IsEncodableValue};

use crate::octets::Octets;
use oid_core::Oid;
use std::alloc::{AllocError, Global};

/// What stands in a variable binding (RFC 3416, section 3, and RFC 2578, 7.1).
#[derive(Drop)]
pub enum Value {
    /// INTEGER, also called Integer32: tag 02.
    Integer(i32),
    /// OCTET STRING: tag 04.
    OctetString(Octets),
    /// NULL, the place of a value that is asked for: tag 05.
    Null,
    /// OBJECT IDENTIFIER: tag 06.
    ObjectIdentifier(Oid),
    /// IpAddress, four octets in network order: tag 40.
    IpAddress([u8; 4]),
    /// Counter32: tag 41.
    Counter32(u32),
    /// Gauge32, also called Unsigned32: tag 42.
    Gauge32(u32),
    /// TimeTicks, in hundredths of a second: tag 43.
    TimeTicks(u32),
    /// Opaque: tag 44.
    Opaque(Octets),
    /// Counter64: tag 46.
    Counter64(u64),
    /// The exception that no object has the name: tag 80.
    NoSuchObject,
    /// The exception that the object has no such instance: tag 81.
    NoSuchInstance,
    /// The exception that no name comes after it: tag 82.
    EndOfMibView,
}

impl Value {
    /// A copy. Takes memory only for more than `INLINE_OCTETS` octets and for a name of more than
    /// `INLINE_NUMBERS` sub-identifiers.
    pub fn try_copy(&self, alloc: Global) -> Result<Value, AllocError>
        ensures value { IfOk result (λ copy. copy ≡ self.now) }
        ensures inline { IsInlineValue self.now → IsOk result }
    {
        Ok(match self {
            Value::Integer(number) => Value::Integer(*number),
            Value::OctetString(octets) => Value::OctetString(octets.try_copy(alloc)?),
            Value::Null => Value::Null,
            Value::ObjectIdentifier(name) => Value::ObjectIdentifier(name.try_copy(alloc)?),
            Value::IpAddress(address) => Value::IpAddress(*address),
            Value::Counter32(count) => Value::Counter32(*count),
            Value::Gauge32(level) => Value::Gauge32(*level),
            Value::TimeTicks(ticks) => Value::TimeTicks(*ticks),
            Value::Opaque(octets) => Value::Opaque(octets.try_copy(alloc)?),
            Value::Counter64(count) => Value::Counter64(*count),
            Value::NoSuchObject => Value::NoSuchObject,
            Value::NoSuchInstance => Value::NoSuchInstance,
            Value::EndOfMibView => Value::EndOfMibView,
        })
    }

    /// Whether it has an encoding: each value has one but an OBJECT IDENTIFIER that does not begin
    /// as X.690, 8.19.4 asks.
    pub fn is_encodable(&self) -> bool
        ensures { IsTrue result ↔ IsEncodableValue self.now }
    {
        match self {
            Value::ObjectIdentifier(name) => name.is_encodable(),
            _ => true,
        }
    }

    /// Whether two values are equal, their types too. Takes no memory.
    pub fn same(&self, other: &Value) -> bool
        ensures { IsTrue result ↔ (self.now ≡ other.now) }
    {
        match (self, other) {
            (Value::Integer(a), Value::Integer(b)) => *a == *b,
            (Value::OctetString(a), Value::OctetString(b)) => a.same(b),
            (Value::Null, Value::Null) => true,
            (Value::ObjectIdentifier(a), Value::ObjectIdentifier(b)) => a == b,
            (Value::IpAddress(a), Value::IpAddress(b)) => *a == *b,
            (Value::Counter32(a), Value::Counter32(b)) => *a == *b,
            (Value::Gauge32(a), Value::Gauge32(b)) => *a == *b,
            (Value::TimeTicks(a), Value::TimeTicks(b)) => *a == *b,
            (Value::Opaque(a), Value::Opaque(b)) => a.same(b),
            (Value::Counter64(a), Value::Counter64(b)) => *a == *b,
            (Value::NoSuchObject, Value::NoSuchObject) => true,
            (Value::NoSuchInstance, Value::NoSuchInstance) => true,
            (Value::EndOfMibView, Value::EndOfMibView) => true,
            _ => false,
        }
    }
}
