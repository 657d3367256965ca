//! The bridge's address.
ghost use Rattle.std.specs.Prelude.{◌≡◌};
ghost use Rattle.toml.specs.View.{table_view, view};
ghost use Rattle.configuration.specs.Address.{address_of, mac_of};
ghost use Rattle.configuration.specs.AddressFaults.{text_fault, value_fault, address_fault};

use frame_core::Mac;
use hex::{FromHex, FromHexError};
use policy_text::keys::{key_count, string_at, value_at};
use toml::{Table, Value};

/// Why a table has no address of a bridge. The cases are tried in this order.
#[derive(Clone, Copy, Debug, PartialEq, Eq)]
pub enum AddressFault {
    /// The table has no key at all.
    Empty,
    /// There is no `address`.
    Missing,
    /// `address` is no string.
    NoString,
    /// The string has not 12 octets.
    Length,
    /// The octet of this number, counted from 0, is the first that is no hexadecimal digit.
    Digit(usize),
    /// It is a group address (IEEE 802.3, 3.2.3).
    Group,
}

// The address that 12 hexadecimal digits write, if it is no group address.
fn mac_of(text: &str) -> Option<Mac>
    ensures { result ≡ mac_of text.now }
{
    let address = Mac(<[u8; 6] as FromHex>::from_hex(text).ok()?);
    if address.is_group() {
        None
    } else {
        Some(address)
    }
}

/// The bridge's address, if the table says one.
pub fn address_of(table: &Table) -> Option<Mac>
    ensures { result ≡ address_of (table_view table.now) }
{
    mac_of(string_at(table, "address")?)
}

// Why a text is no address, where it is none.
fn text_fault(text: &str) -> AddressFault
    ensures { result ≡ text_fault text.now }
{
    match <[u8; 6] as FromHex>::from_hex(text) {
        Ok(_) => AddressFault::Group,
        Err(FromHexError::InvalidHexCharacter { index, .. }) => AddressFault::Digit(index),
        Err(_) => AddressFault::Length,
    }
}

// Why a value is no address, where it is none.
fn value_fault(value: &Value) -> AddressFault
    ensures { result ≡ value_fault (view value.now) }
{
    match value.as_str() {
        Some(text) => text_fault(text),
        None => AddressFault::NoString,
    }
}

/// Why a table has no address of a bridge, where it has none.
pub fn address_fault(table: &Table) -> AddressFault
    ensures { result ≡ address_fault (table_view table.now) }
{
    if key_count(table) == 0 {
        return AddressFault::Empty;
    }
    match value_at(table, "address") {
        Some(value) => value_fault(value),
        None => AddressFault::Missing,
    }
}
