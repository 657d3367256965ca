//! The `[[static]]` tables of a text.
ghost use Rattle.std.specs.Prelude.{◌≡◌, ◌≢◌, ◌+◌, ◌^◌, ◌≤◌, ◌<◌, IfOk, OnOk, IfErr, Ok, Err, length, map};
ghost use Rattle.std.specs.List.{list_all, list_any, AllByRecursion};
ghost use Rattle.toml.specs.View.{table_view, view};
ghost use Rattle.fdb_core.specs.Rows.{IsAddress};
ghost use Rattle.fdb_core.specs.Statics.{numbers_of};
ghost use Rattle.bridge_core.specs.Bridge.{port_count};
ghost use Rattle.setphase_core.specs.Writing.{may_have_row};
ghost use Rattle.settings_text.specs.ReadingRows.{behind};
ghost use Rattle.settings_text.specs.StaticRows.{address_in, address_at, static_index, rising_index, listed_port, is_listed, lists_port, set_of_listed, if_listed, static_ports, static_row_in, static_row, static_rows};

use crate::fault::{SettingsFault, StaticRowKey};
use crate::known_keys::{Part, are_keys};
use crate::numbers::{number_at, number_between};
use bridge_core::Bridge;
use fdb_core::{MAX_SET_PORTS, PortSet, StaticIndex, StaticRow};
use frame_core::Mac;
use hex::FromHex;
use policy_text::keys::{array_at, string_at};
use toml::{Table, Value};

/// The address under `address`.
pub fn address_at(table: &Table) -> Option<Mac>
    ensures { result ≡ address_at (table_view table.now) }
{
    address_in(string_at(table, "address")?)
}

/// The address that 12 hexadecimal digits write, in either case.
pub fn address_in(text: &str) -> Option<Mac>
    ensures { result ≡ address_in text.now }
{
    Some(Mac(<[u8; 6] as FromHex>::from_hex(text).ok()?))
}

// Hands on that six octets are so many, each below 256; it does nothing.
fn known_octets(octets: &[u8; 6])
    ensures six { length octets.now ≡ 6 }
    ensures below { AllByRecursion (λ o. o < 256) octets.now }
{
    let _octets = octets.as_slice();
}

// Hands on that an address is one; it does nothing.
fn known_address(address: Mac)
    ensures { IsAddress address }
{
    known_octets(&address.0);
}

// Whether a bridge may have a static row of an index.
fn may_have_row(bridge: &Bridge, index: StaticIndex) -> bool
    ensures { result ≡ may_have_row bridge.now index }
{
    known_address(index.address);
    bridge.is_static_index(index)
}

// The index that a table says.
fn static_index(bridge: &Bridge, table: &Table) -> Result<StaticIndex, StaticRowKey>
    ensures { result ≡ static_index bridge.now (table_view table.now) }
{
    let address = address_at(table).ok_or(StaticRowKey::Address)?;
    let count = bridge.ports() as u32;
    let port = number_at(table, "port", 0, count).ok_or(StaticRowKey::Port)?;
    let port = port as u16;
    let index = StaticIndex { address, port };
    if may_have_row(bridge, index) {
        Ok(index)
    } else {
        Err(StaticRowKey::Address)
    }
}

// The same, where it is above that of the table before.
fn rising_index(before: &[u32], index: StaticIndex) -> Result<StaticIndex, StaticRowKey>
    ensures { result ≡ rising_index before.now index }
{
    let numbers = index.numbers();
    if before.cmp(numbers.as_slice()).is_lt() {
        Ok(index)
    } else {
        Err(StaticRowKey::Order)
    }
}

// The number of a port of so many, that a value is.
fn listed_port(count: u32, value: &Value) -> Option<u32>
    ensures { result ≡ listed_port count (view value.now) }
{
    number_between(1, count, value.as_integer()?)
}

// Whether a value is the number of a port of so many.
fn is_listed(count: u32, value: &Value) -> bool
    ensures { result ≡ is_listed (listed_port count (view value.now)) }
{
    match listed_port(count, value) {
        Some(_) => true,
        None => false,
    }
}

// Whether a value is this number, of a port of so many.
fn lists_port(count: u32, port: u32, value: &Value) -> bool
    ensures { result ≡ lists_port port (listed_port count (view value.now)) }
{
    match listed_port(count, value) {
        Some(number) => number == port,
        None => false,
    }
}

// Whether each value is the number of a port of so many.
fn are_listed(count: u32, values: &[Value]) -> bool
    ensures { result ≡ list_all (λ d. is_listed (listed_port count (view d))) values.now }
{
    values.iter().all(|value| is_listed(count, value))
}

// Whether one of the values is this number.
fn list_port(count: u32, port: u32, values: &[Value]) -> bool
    ensures { result ≡ list_any (λ d. lists_port port (listed_port count (view d))) values.now }
{
    values.iter().any(|value| lists_port(count, port, value))
}

// The set of the ports whose numbers the values are.
fn set_of_listed(count: u32, values: &[Value]) -> PortSet
    ensures { result ≡ set_of_listed count (map view values.now) }
{
    let mut ports = [false; MAX_SET_PORTS];
    for i in 0..MAX_SET_PORTS {
        ports[i] = list_port(count, i as u32 + 1, values);
    }
    PortSet(ports)
}

// The set of ports under `ports`.
fn static_ports(count: u32, table: &Table) -> Result<PortSet, StaticRowKey>
    ensures { result ≡ static_ports count (table_view table.now) }
{
    match array_at(table, "ports") {
        Some(values) => {
            if are_listed(count, values.as_slice()) {
                Ok(set_of_listed(count, values.as_slice()))
            } else {
                Err(StaticRowKey::Ports)
            }
        }
        None => Err(StaticRowKey::Ports),
    }
}

// The static row that a table says, above that of the table before.
fn static_row_in(bridge: &Bridge, before: &[u32], table: &Table) -> Result<StaticRow, StaticRowKey>
    ensures { result ≡ static_row_in bridge.now before.now (table_view table.now) }
{
    let index = static_index(bridge, table)?;
    let index = rising_index(before, index)?;
    let count = bridge.ports() as u32;
    let ports = static_ports(count, table)?;
    if are_keys(Part::Static, table) {
        Ok(StaticRow {
            index,
            made: true,
            ports,
        })
    } else {
        Err(StaticRowKey::Other)
    }
}

// The static row that a value says.
fn static_row(bridge: &Bridge, before: &[u32], value: &Value) -> Result<StaticRow, StaticRowKey>
    ensures { result ≡ static_row bridge.now before.now (view value.now) }
{
    match value.as_table() {
        Some(table) => static_row_in(bridge, before, table),
        None => Err(StaticRowKey::Address),
    }
}

/// Reads the tables of static rows, of which the first is at this place, behind one of an index of these
/// numbers.
///
/// # Errors
/// `Memory` where there is none for a row, else the fault of the first table at fault.
#[tactic(auto, using(crate::proofs::Rows::behind_none, crate::proofs::Rows::behind_one))]
pub fn read_statics(
    bridge: &Bridge,
    place: usize,
    before: &[u32],
    values: &[Value],
    rows: &mut Vec<StaticRow>,
) -> Result<(), SettingsFault>
    requires { place + length values.now < 2 ^ 64 }
    ensures rows { OnOk result (behind rows.old.items
        (static_rows bridge.now place before.now (map view values.now)) ≡ Ok rows.new.items) }
    ensures fault { IfErr result (λ e. e ≢ SettingsFault.Memory →
        static_rows bridge.now place before.now (map view values.now) ≡ Err e) }
{
    let Some((first, others)) = values.split_first() else {
        return Ok(());
    };
    match static_row(bridge, before, first) {
        Ok(row) => {
            if rows.push(row).is_err() {
                return Err(SettingsFault::Memory);
            }
            let numbers = row.index.numbers();
            read_statics(bridge, place + 1, numbers.as_slice(), others, rows)
        }
        Err(key) => Err(SettingsFault::BadStatic(place, key)),
    }
}
