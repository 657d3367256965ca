//! Reads the settings of a bridge.
ghost use Rattle.std.specs.Prelude.{◌≡◌, ◌≢◌, ◌≤◌, IfOk, IfErr, Some, None, Ok, Err, OnOk, map, option_map};
ghost use Rattle.toml.specs.View.{table_view, view};
ghost use Rattle.bridge_core.specs.Bridge.{port_count};
ghost use Rattle.settings_text.specs.Settings.{kept, timers_agree};
ghost use Rattle.settings_text.specs.PortRows.{ports_of};
ghost use Rattle.settings_text.specs.Reading.{own_address, bridge_setting, bridge_settings, values_at, static_values, port_settings_in, statics_in, read_settings, read_text};

use crate::fault::SettingsFault;
use crate::known_keys::{Part, are_keys};
use crate::numbers::number_or;
use crate::ports::{ports_of, read_ports};
use crate::settings::KeptSettings;
use crate::statics::{address_at, read_statics};
use crate::words::{bridge_opening, bridge_word, is_bridge_value};
use arrayvec::ArrayVec;
use bridge_core::Bridge;
use fdb_core::StaticRow;
use frame_core::Mac;
use policy_text::keys::{array_at, value_at};
use rstp_settings::key::{BridgeKey, BridgeValues, PortValues};
use rstp_settings::settings::MAX_PORTS;
use setphase_core::MAX_STATIC_ROWS;
use std::alloc::Global;
use toml::{Table, Value};

// The address that a table says, which is to be the bridge's own.
#[tactic(auto, unfolding(bridge_core::specs::Facts::facts_of))]
fn own_address(bridge: &Bridge, table: &Table) -> Result<Mac, SettingsFault>
    ensures { result ≡ own_address bridge.now (table_view table.now) }
{
    let address = address_at(table).ok_or(SettingsFault::BadAddress)?;
    if bridge.facts().address.is_same(address) {
        Ok(address)
    } else {
        Err(SettingsFault::OtherBridge)
    }
}

// The value that a table gives a setting of the bridge.
fn bridge_setting(table: &Table, key: BridgeKey) -> Result<u32, SettingsFault>
    ensures { result ≡ bridge_setting (table_view table.now) key }
{
    let fault = SettingsFault::BadSetting(key);
    let number = number_or(table, bridge_word(key), bridge_opening(key)).ok_or(fault)?;
    if is_bridge_value(key, number) {
        Ok(number)
    } else {
        Err(fault)
    }
}

// Whether the timers of the bridge go together (IEEE 802.1D-2004 17.14).
fn timers_agree(values: &BridgeValues) -> bool
    ensures { result ≡ timers_agree values.now }
{
    let max_age = u64::from(values.max_age);
    max_age + 200 <= 2 * u64::from(values.forward_delay)
        && 2 * u64::from(values.hello) + 200 <= max_age
}

// The settings that a table gives the bridge.
fn bridge_settings(table: &Table) -> Result<BridgeValues, SettingsFault>
    ensures { result ≡ bridge_settings (table_view table.now) }
{
    let priority = bridge_setting(table, BridgeKey::Priority)?;
    let max_age = bridge_setting(table, BridgeKey::MaxAge)?;
    let hello = bridge_setting(table, BridgeKey::Hello)?;
    let forward_delay = bridge_setting(table, BridgeKey::ForwardDelay)?;
    let version = bridge_setting(table, BridgeKey::Version)?;
    let hold_count = bridge_setting(table, BridgeKey::HoldCount)?;
    let aging = bridge_setting(table, BridgeKey::Aging)?;
    let values = BridgeValues {
        priority,
        max_age,
        hello,
        forward_delay,
        version,
        hold_count,
        aging,
    };
    if timers_agree(&values) {
        Ok(values)
    } else {
        Err(SettingsFault::BadTimers)
    }
}

// The values of the array under a key: none where there is no such key.
fn values_at<'a>(table: &'a Table, key: &str) -> Option<&'a [Value]>
    ensures { option_map (λ values. map view values.now) result
        ≡ values_at key.now (table_view table.now) }
{
    if value_at(table, key).is_none() {
        return Some(&[]);
    }
    match array_at(table, key) {
        Some(values) => Some(values.as_slice()),
        None => None,
    }
}

// The settings of the ports that a table says.
fn port_settings_in(
    count: u16,
    table: &Table,
) -> Result<ArrayVec<PortValues, MAX_PORTS>, SettingsFault>
    requires { count ≤ MAX_PORTS }
    ensures ports { IfOk result (λ ports. port_settings_in count (table_view table.now) ≡ Ok ports.items) }
    ensures fault { IfErr result (λ e. port_settings_in count (table_view table.now) ≡ Err e) }
{
    let values = values_at(table, "port").ok_or(SettingsFault::BadPorts)?;
    let mut rows = ArrayVec::new();
    read_ports(count, 0, 0, values, &mut rows)?;
    Ok(ports_of(count, rows.as_slice()))
}

// The values of the static rows of a table, of which there are to be 256 at most.
fn static_values(table: &Table) -> Result<&[Value], SettingsFault>
    ensures values { IfOk result (λ values. static_values (table_view table.now) ≡ Ok (map view values.now)) }
    ensures fault { IfErr result (λ e. static_values (table_view table.now) ≡ Err e) }
{
    let values = values_at(table, "static").ok_or(SettingsFault::BadStatics)?;
    if values.len() <= MAX_STATIC_ROWS {
        Ok(values)
    } else {
        Err(SettingsFault::BadStatics)
    }
}

// The static rows that a table says.
fn statics_in(
    alloc: Global,
    bridge: &Bridge,
    table: &Table,
) -> Result<Vec<StaticRow>, SettingsFault>
    ensures rows { IfOk result (λ rows. statics_in bridge.now (table_view table.now) ≡ Ok rows.items) }
    ensures fault { IfErr result (λ e. e ≢ SettingsFault.Memory →
        statics_in bridge.now (table_view table.now) ≡ Err e) }
{
    let values = static_values(table)?;
    let mut rows = Vec::new(alloc);
    read_statics(bridge, 0, &[], values, &mut rows)?;
    Ok(rows)
}

/// The settings of this bridge that a table says.
///
/// # Errors
/// The first fault: of the address, of the bridge's settings, of the ports, of the static rows, of other keys.
/// `Memory` where there is none for a static row.
pub fn settings_of(
    alloc: Global,
    bridge: &Bridge,
    table: &Table,
) -> Result<KeptSettings, SettingsFault>
    ensures settings { IfOk result (λ s. read_settings bridge.now (table_view table.now) ≡ Ok (kept s)) }
    ensures fault { IfErr result (λ e. e ≢ SettingsFault.Memory →
        read_settings bridge.now (table_view table.now) ≡ Err e) }
{
    let _address = own_address(bridge, table)?;
    let values = bridge_settings(table)?;
    let ports = port_settings_in(bridge.ports() as u16, table)?;
    let statics = statics_in(alloc, bridge, table)?;
    if !are_keys(Part::Top, table) {
        return Err(SettingsFault::OtherKey);
    }
    Ok(KeptSettings {
        bridge: values,
        ports,
        statics,
    })
}

/// The settings of this bridge that a text says.
///
/// # Errors
/// `BadText` where the text is no TOML document, else as [`settings_of`] has it; `Memory` where there was none.
pub fn settings_in(
    alloc: Global,
    bridge: &Bridge,
    text: &str,
) -> Result<KeptSettings, SettingsFault>
    ensures settings { IfOk result (λ s. read_text bridge.now text.now ≡ Ok (kept s)) }
    ensures fault { IfErr result (λ e. e ≢ SettingsFault.Memory →
        read_text bridge.now text.now ≡ Err e) }
{
    match toml::table_from_str(alloc, text) {
        Ok(table) => settings_of(alloc, bridge, &table),
        Err(error) => {
            if error.is_memory() {
                Err(SettingsFault::Memory)
            } else {
                Err(SettingsFault::BadText)
            }
        }
    }
}
