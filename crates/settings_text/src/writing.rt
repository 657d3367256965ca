//! Writes the settings of a bridge.
ghost use Rattle.std.specs.Prelude.{◌≡◌, Ok, ◌≤◌, ◌+◌, ◌^◌, ◌<◌, ◌++◌, not, IfOk, OnOk, Some, map, option_map, length, string_bytes};
ghost use Rattle.std.specs.List.{range_with_len};
ghost use Rattle.toml.specs.Parse.{parse_document};
ghost use Rattle.toml.specs.View.{table_view, view};
ghost use Rattle.fdb_core.specs.Rows.{IsAddress};
ghost use Rattle.bridge_core.specs.Bridge.{BridgeState, address_of};
ghost use Rattle.settings_text.specs.Reading.{read_text};
ghost use Rattle.audit_core.specs.Text.{bridge_key_text, port_key_text};
ghost use Rattle.rstp_settings.specs.Table.{opening_port};
ghost use Rattle.rstp_settings.specs.Values.{bridge_value, port_value};
ghost use Rattle.settings_text.specs.Building.{with_member, with_optional};
ghost use Rattle.settings_text.specs.Settings.{kept, opening_bridge, CanHave};
ghost use Rattle.settings_text.specs.Writing.{number, unless, rows, rows_if_any, is_changed, changed_from, port_members, port_data, ports_of_set, with_bridge, static_members, static_data, settings_members};

use crate::building::{put, put_address, put_number, put_unless};
use crate::port_row::PortRow;
use crate::settings::KeptSettings;
use crate::words::{bridge_opening, bridge_word, opening_values, port_opening, port_word};
use fdb_core::{MAX_SET_PORTS, PortSet, StaticRow};
use frame_core::Mac;
use rstp_settings::key::{BridgeKey, BridgeValues, PortKey, PortValues};
use std::alloc::{AllocError, Global};
use toml::{Table, Value};

// Writes a setting of a port, unless it is that of the opening.
fn put_port(alloc: Global, table: &mut Table, key: PortKey, value: u32) -> Result<(), AllocError>
    ensures { OnOk result (table_view table.new ≡ with_optional (port_key_text key)
        (unless (port_value opening_port key) value) (table_view table.old)) }
{
    put_unless(alloc, table, port_word(key), port_opening(key), value)
}

// Writes a setting of the bridge, unless it is that of the opening.
fn put_bridge(
    alloc: Global,
    table: &mut Table,
    key: BridgeKey,
    value: u32,
) -> Result<(), AllocError>
    ensures { OnOk result (table_view table.new ≡ with_optional (bridge_key_text key)
        (unless (bridge_value opening_bridge key) value) (table_view table.old)) }
{
    put_unless(alloc, table, bridge_word(key), bridge_opening(key), value)
}

// Writes rows under a key, if there are any.
fn put_rows(
    alloc: Global,
    table: &mut Table,
    key: &str,
    values: Vec<Value>,
) -> Result<(), AllocError>
    ensures { OnOk result (table_view table.new ≡ with_optional key.now
        (rows_if_any (map view values.items)) (table_view table.old)) }
{
    if values.is_empty() {
        Ok(())
    } else {
        put(alloc, table, key, Value::from(values))
    }
}

// The table of a port: its number, and what differs from the opening.
fn port_table(alloc: Global, row: PortRow) -> Result<Table, AllocError>
    ensures { IfOk result (λ table. table_view table ≡ port_members row) }
{
    let mut table = Table::new(alloc);
    let values = row.values;
    put_port(
        alloc,
        &mut table,
        PortKey::PointToPoint,
        values.point_to_point,
    )?;
    put_port(alloc, &mut table, PortKey::Edge, values.edge)?;
    put_port(alloc, &mut table, PortKey::Migrate, values.migrate)?;
    put_port(alloc, &mut table, PortKey::Cost, values.cost)?;
    put_port(alloc, &mut table, PortKey::Enable, values.enable)?;
    put_port(alloc, &mut table, PortKey::Priority, values.priority)?;
    put_number(alloc, &mut table, "number", u32::from(row.number))?;
    Ok(table)
}

// The same, as a value.
fn port_value(alloc: Global, row: PortRow) -> Result<Value, AllocError>
    ensures { IfOk result (λ value. view value ≡ port_data row) }
{
    Ok(Value::from(port_table(alloc, row)?))
}

// Whether a port has a setting that is not that of the opening.
fn is_changed(row: &PortRow) -> bool
    ensures { result ≡ is_changed row.now }
{
    row.values != opening_values()
}

// Adds the tables of the ports that differ from the opening, of which the first has this number.
#[tactic(auto, using(crate::proofs::Added::added_none, crate::proofs::Added::added_one, crate::proofs::Added::changed_more, crate::proofs::Added::same_more))]
fn add_ports(
    alloc: Global,
    number: u16,
    ports: &[PortValues],
    tables: &mut Vec<Value>,
) -> Result<(), AllocError>
    requires { number + length ports.now < 2 ^ 16 }
    ensures { OnOk result (map view tables.new.items
        ≡ map view tables.old.items ++ map port_data (changed_from number ports.now)) }
{
    let Some((first, others)) = ports.split_first() else {
        return Ok(());
    };
    let row = PortRow {
        number,
        values: *first,
    };
    if is_changed(&row) {
        tables.push(port_value(alloc, row)?)?;
    }
    add_ports(alloc, number + 1, others, tables)
}

// The numbers of the ports of a set, rising.
#[tactic(auto, using(crate::proofs::Listed::listed_one, crate::proofs::Listed::listed_none))]
fn ports_value(alloc: Global, set: &PortSet) -> Result<Vec<Value>, AllocError>
    ensures { IfOk result (λ values. map view values.items ≡ map number (ports_of_set set.now)) }
{
    let mut values = Vec::new(alloc);
    for i in 0..MAX_SET_PORTS {
        let port = i as u16 + 1;
        if set.has(port) {
            values.push(Value::from(u32::from(port)))?;
        }
    }
    Ok(values)
}

// The table of a static row.
fn static_table(alloc: Global, row: &StaticRow) -> Result<Table, AllocError>
    ensures { IfOk result (λ table. table_view table ≡ static_members row.now) }
{
    let mut table = Table::new(alloc);
    let ports = ports_value(alloc, &row.ports)?;
    put(alloc, &mut table, "ports", Value::from(ports))?;
    put_number(alloc, &mut table, "port", u32::from(row.index.port))?;
    put_address(alloc, &mut table, row.index.address)?;
    Ok(table)
}

// The same, as a value.
fn static_value(alloc: Global, row: &StaticRow) -> Result<Value, AllocError>
    ensures { IfOk result (λ value. view value ≡ static_data row.now) }
{
    Ok(Value::from(static_table(alloc, row)?))
}

// Adds the tables of static rows.
#[tactic(auto, using(crate::proofs::Added::added_none, crate::proofs::Added::added_one))]
fn add_statics(alloc: Global, rows: &[StaticRow], tables: &mut Vec<Value>) -> Result<(), AllocError>
    ensures { OnOk result (map view tables.new.items
        ≡ map view tables.old.items ++ map static_data rows.now) }
{
    let Some((first, others)) = rows.split_first() else {
        return Ok(());
    };
    tables.push(static_value(alloc, first)?)?;
    add_statics(alloc, others, tables)
}

// Writes the settings of the bridge that differ from the opening.
fn put_values(alloc: Global, table: &mut Table, values: &BridgeValues) -> Result<(), AllocError>
    ensures { OnOk result (table_view table.new ≡ with_bridge values.now (table_view table.old)) }
{
    put_bridge(alloc, table, BridgeKey::Aging, values.aging)?;
    put_bridge(alloc, table, BridgeKey::HoldCount, values.hold_count)?;
    put_bridge(alloc, table, BridgeKey::Version, values.version)?;
    put_bridge(alloc, table, BridgeKey::ForwardDelay, values.forward_delay)?;
    put_bridge(alloc, table, BridgeKey::Hello, values.hello)?;
    put_bridge(alloc, table, BridgeKey::MaxAge, values.max_age)?;
    put_bridge(alloc, table, BridgeKey::Priority, values.priority)
}

/// The table of the settings of a bridge of this address: the address, and what differs from the opening.
///
/// # Errors
/// There is no memory for it.
pub fn settings_table(
    alloc: Global,
    address: Mac,
    settings: &KeptSettings,
) -> Result<Table, AllocError>
    ensures { IfOk result (λ table. table_view table ≡ settings_members address (kept settings.now)) }
{
    let mut table = Table::new(alloc);
    let mut statics = Vec::new(alloc);
    add_statics(alloc, settings.statics.as_slice(), &mut statics)?;
    put_rows(alloc, &mut table, "static", statics)?;
    let mut ports = Vec::new(alloc);
    add_ports(alloc, 1, settings.ports.as_slice(), &mut ports)?;
    put_rows(alloc, &mut table, "port", ports)?;
    put_values(alloc, &mut table, &settings.bridge)?;
    put_address(alloc, &mut table, address)?;
    Ok(table)
}

/// The text of the settings of a bridge of this address: the address, and what differs from the opening.
///
/// # Errors
/// There is no memory for it.
pub fn settings_text(
    alloc: Global,
    address: Mac,
    settings: &KeptSettings,
) -> Result<String, AllocError>
    // The text is a TOML document of this table.
    ensures document { IfOk result (λ text.
        parse_document (string_bytes text) ≡ Some (settings_members address (kept settings.now))) }
    // So every bridge of the address that can have these settings reads them as exactly these.
    ensures reads_back { IfOk result (λ text. (b : BridgeState) → IsAddress (address_of b) →
        address_of b ≡ address → CanHave b (kept settings.now) →
        read_text b (string_bytes text) ≡ Ok (kept settings.now)) }
{
    let table = settings_table(alloc, address, settings)?;
    match toml::table_to_string(alloc, &table) {
        Ok(text) => Ok(text),
        Err(_) => Err(AllocError),
    }
}
