//! The bridge's ports.
ghost use Rattle.std.specs.Prelude.{◌≡◌, ◌+◌, ◌≤◌, ℕ, IfSome, IfOk, IfErr, map, option_map, vec_len};
ghost use Rattle.std.specs.List.{list_all};
ghost use Rattle.toml.specs.View.{table_view, view};
ghost use Rattle.policy_text.specs.Reading.{AreRows};
ghost use Rattle.configuration.specs.Ports.{speed_at, port_config_of, port_keys, IsPort, IsPortRow, port_says, is_table, port_rows, ArePorts};
ghost use Rattle.configuration.specs.PortFaults.{IsPortFault, IsRowFault, IsFirstNoPort, IsPortsFault};
ghost use Rattle.configuration.specs.declared.fault.PortKey.{PortKey};

use crate::configuration::Port;
use crate::fault::{ConfigurationFault, PortKey};
use crate::numbers::number_at;
use crate::sockets::optional_socket_at;
use arrayvec::ArrayVec;
use policy_text::keys::{array_at, bool_at, key_count, value_at};
use rstp_settings::config::{IfIndex, MAX_IFINDEX, PortConfig};
use rstp_settings::settings::MAX_PORTS;
use toml::{Table, Value};

// The speed of a port, in Mb/s.
fn speed_at(table: &Table) -> Option<u32>
    ensures { result ≡ speed_at (table_view table.now) }
{
    let speed = number_at(table, "speed", 10, 1000)?;
    if speed == 10 || speed == 100 || speed == 1000 {
        Some(speed)
    } else {
        None
    }
}

// What is fixed of a port, or the first of its keys that is wrong.
fn port_config(table: &Table) -> Result<PortConfig, PortKey>
    ensures config { IfOk result (λ c. port_config_of (table_view table.now) ≡ Some c) }
    ensures fault { IfErr result (λ key. IsPortFault (table_view table.now) key) }
{
    let ifindex = number_at(table, "ifindex", 1, MAX_IFINDEX).ok_or(PortKey::Ifindex)?;
    let speed = speed_at(table).ok_or(PortKey::Speed)?;
    let full = bool_at(table, "full").ok_or(PortKey::Full)?;
    Ok(PortConfig {
        ifindex: IfIndex::of(ifindex),
        speed,
        full,
    })
}

// How many keys the table of a port has where it has no other key than those of a port.
fn port_keys(table: &Table) -> usize
    ensures { result ≡ port_keys (table_view table.now) }
{
    let listen = value_at(table, "listen").is_some();
    let peer = value_at(table, "peer").is_some();
    3 + usize::from(listen) + usize::from(peer)
}

// The port that a table says, or the first key that is wrong.
fn read_port(table: &Table) -> Result<Port, PortKey>
    ensures port { IfOk result (λ p. IsPort (table_view table.now) p) }
    ensures fault { IfErr result (λ key. IsPortFault (table_view table.now) key) }
{
    let config = port_config(table)?;
    let listen = optional_socket_at(table, "listen").ok_or(PortKey::Listen)?;
    let peer = optional_socket_at(table, "peer").ok_or(PortKey::Peer)?;
    if key_count(table) != port_keys(table) {
        return Err(PortKey::Other);
    }
    Ok(Port {
        config,
        listen,
        peer,
    })
}

// The port that a value says, or the first key that is wrong; what is no table has no key.
fn read_port_row(value: &Value) -> Result<Port, PortKey>
    ensures port { IfOk result (λ p. IsPortRow (view value.now) p) }
    ensures fault { IfErr result (λ key. IsRowFault (view value.now) key) }
{
    match value.as_table() {
        Some(table) => read_port(table),
        None => Err(PortKey::Ifindex),
    }
}

// The ports that the values of an array say, or the first that says none.
fn read_ports(rows: &Vec<Value>) -> Result<ArrayVec<Port, MAX_PORTS>, ConfigurationFault>
    requires { vec_len rows.now ≤ MAX_PORTS }
    ensures ports { IfOk result (λ ports. AreRows port_says (map view rows.now.items) ports.items) }
    ensures fault { IfErr result (λ e. (n : ℕ) × (key : PortKey) ×
        (e ≡ ConfigurationFault.BadPort n key) × IsFirstNoPort (map view rows.now.items) n key) }
{
    let mut ports = ArrayVec::new();
    for (n, row) in rows.iter().enumerate() {
        match read_port_row(row) {
            Ok(port) => ports.push(port),
            Err(key) => return Err(ConfigurationFault::BadPort(n, key)),
        }
    }
    Ok(ports)
}

// Whether each value is a table.
fn are_tables(rows: &[Value]) -> bool
    ensures { result ≡ list_all (λ row. is_table (view row)) rows.now }
{
    rows.iter().all(|row| row.is_table())
}

// The array of ports, if it has 1 to 32 elements and each is a table.
fn port_rows(table: &Table) -> Option<&Vec<Value>>
    ensures rows { option_map (λ v.
        map view v.now.items) result ≡ port_rows (table_view table.now) }
    ensures few { IfSome result (λ v. vec_len v.now ≤ MAX_PORTS) }
{
    let rows = array_at(table, "port")?;
    if rows.is_empty() || rows.len() > MAX_PORTS || !are_tables(rows) {
        return None;
    }
    Some(rows)
}

/// The ports that a table says.
///
/// # Errors
///
/// `BadPorts` where `port` is no array of 1 to 32 tables, else `BadPort` of the first that is no
/// port, counted from 0, and the first of its keys that is wrong.
pub fn ports_of(table: &Table) -> Result<ArrayVec<Port, MAX_PORTS>, ConfigurationFault>
    ensures ports { IfOk result (λ ports. ArePorts (table_view table.now) ports.items) }
    ensures fault { IfErr result (λ e. IsPortsFault (table_view table.now) e) }
{
    match port_rows(table) {
        Some(rows) => read_ports(rows),
        None => Err(ConfigurationFault::BadPorts),
    }
}
