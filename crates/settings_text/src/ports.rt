//! The `[[port]]` tables of a text.
ghost use Rattle.std.specs.Prelude.{◌≡◌, ◌==◌, find, ◌+◌, ◌^◌, ◌≤◌, ◌<◌, IfOk, OnOk, IfErr, Ok, Err, length, map};
ghost use Rattle.std.specs.Option.{option_copied};
ghost use Rattle.toml.specs.View.{table_view, view};
ghost use Rattle.settings_text.specs.Results.{◌>!>◌};
ghost use Rattle.settings_text.specs.PortRows.{port_setting, port_settings, port_number, port_row_in, port_row, port_rows, values_of, ports_of};
ghost use Rattle.settings_text.specs.ReadingRows.{behind};

use crate::fault::{PortRowKey, SettingsFault};
use crate::known_keys::{Part, are_keys};
use crate::numbers::{number_at, number_or};
use crate::port_row::PortRow;
use crate::words::{is_port_value, opening_values, port_opening, port_word};
use arrayvec::ArrayVec;
use rstp_settings::key::{PortKey, PortValues};
use rstp_settings::settings::MAX_PORTS;
use toml::{Table, Value};

// The value that a table gives a setting of a port.
fn port_setting(table: &Table, key: PortKey) -> Result<u32, PortRowKey>
    ensures { result ≡ port_setting (table_view table.now) key }
{
    let fault = PortRowKey::Setting(key);
    let number = number_or(table, port_word(key), port_opening(key)).ok_or(fault)?;
    if is_port_value(key, number) {
        Ok(number)
    } else {
        Err(fault)
    }
}

// The settings that a table gives a port.
fn port_settings(table: &Table) -> Result<PortValues, PortRowKey>
    ensures { result ≡ port_settings (table_view table.now) }
{
    let priority = port_setting(table, PortKey::Priority)?;
    let enable = port_setting(table, PortKey::Enable)?;
    let cost = port_setting(table, PortKey::Cost)?;
    let migrate = port_setting(table, PortKey::Migrate)?;
    let edge = port_setting(table, PortKey::Edge)?;
    let point_to_point = port_setting(table, PortKey::PointToPoint)?;
    Ok(PortValues {
        priority,
        enable,
        cost,
        migrate,
        edge,
        point_to_point,
    })
}

// The number of the port that a table is of, above that of the table before.
fn port_number(count: u16, before: u16, table: &Table) -> Result<u16, PortRowKey>
    ensures number { result ≡ port_number count before (table_view table.now) }
    ensures above { IfOk result (λ n. before < n) }
    ensures most { IfOk result (λ n. n ≤ count) }
{
    let number = number_at(table, "number", 1, u32::from(count)).ok_or(PortRowKey::Number)?;
    if u32::from(before) < number {
        Ok(number as u16)
    } else {
        Err(PortRowKey::Order)
    }
}

// The port that a table says.
fn port_row_in(count: u16, before: u16, table: &Table) -> Result<PortRow, PortRowKey>
    ensures row { result ≡ port_row_in count before (table_view table.now) }
    ensures above { IfOk result (λ row. before < row.number) }
    ensures most { IfOk result (λ row. row.number ≤ count) }
{
    let number = port_number(count, before, table)?;
    let values = port_settings(table)?;
    if are_keys(Part::Port, table) {
        Ok(PortRow { number, values })
    } else {
        Err(PortRowKey::Other)
    }
}

// The port that a value says.
fn port_row(count: u16, before: u16, value: &Value) -> Result<PortRow, PortRowKey>
    ensures row { result ≡ port_row count before (view value.now) }
    ensures above { IfOk result (λ row. before < row.number) }
    ensures most { IfOk result (λ row. row.number ≤ count) }
{
    match value.as_table() {
        Some(table) => port_row_in(count, before, table),
        None => Err(PortRowKey::Number),
    }
}

/// Reads the tables of ports, of which the first is at this place, behind one of a port of this number.
#[tactic(auto, using(crate::proofs::Rows::behind_none, crate::proofs::Rows::behind_one))]
pub fn read_ports(
    count: u16,
    place: usize,
    before: u16,
    values: &[Value],
    rows: &mut ArrayVec<PortRow, MAX_PORTS>,
) -> Result<(), SettingsFault>
    requires places { place + length values.now < 2 ^ 64 }
    requires count { count ≤ MAX_PORTS }
    requires before { before ≤ count }
    requires space { length rows.old.items ≤ before }
    ensures rows { OnOk result (behind rows.old.items (port_rows count place before (map view values.now))
        ≡ Ok rows.new.items) }
    ensures fault { IfErr result (λ e. port_rows count place before (map view values.now) ≡ Err e) }
{
    let Some((first, others)) = values.split_first() else {
        return Ok(());
    };
    match port_row(count, before, first) {
        Ok(row) => {
            rows.push(row);
            read_ports(count, place + 1, row.number, others, rows)
        }
        Err(key) => Err(SettingsFault::BadPort(place, key)),
    }
}

// The row of a port.
fn find_row(rows: &[PortRow], port: u16) -> Option<&PortRow>
    ensures { option_copied result ≡ find (λ row. row.number == port) rows.now }
{
    rows.iter().find(|row| row.number == port)
}

// The settings of a port: those of its table, or where it has none those of the opening.
fn values_of(rows: &[PortRow], port: u16) -> PortValues
    ensures { result ≡ values_of rows.now port }
{
    match find_row(rows, port) {
        Some(row) => row.values,
        None => opening_values(),
    }
}

/// The settings of so many ports.
pub fn ports_of(count: u16, rows: &[PortRow]) -> ArrayVec<PortValues, MAX_PORTS>
    requires { count ≤ MAX_PORTS }
    ensures { result.items ≡ ports_of count rows.now }
{
    let mut ports = ArrayVec::new();
    for n in 0..count {
        ports.push(values_of(rows, n + 1));
    }
    ports
}
