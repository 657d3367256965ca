//! How to serve.
ghost use Rattle.std.specs.Prelude.{◌≡◌, IfOk, IfErr};
ghost use Rattle.toml.specs.View.{table_view, view};
ghost use Rattle.configuration.specs.Serving.{IsServe, IsServeRow, IsServing, IsServeFault, IsServeRowFault, IsServingFault};
ghost use Rattle.configuration.specs.declared.fault.ServeKey.{ServeKey};

use crate::configuration::{MAX_ROUNDS, MAX_WORKERS, Serve};
use crate::fault::{ConfigurationFault, ServeKey};
use crate::numbers::number_at;
use crate::sockets::socket_at;
use policy_text::keys::{key_count, value_at};
use toml::{Table, Value};

// How a table says to serve, or the first of its keys that is wrong.
fn read_serve(table: &Table) -> Result<Serve, ServeKey>
    ensures serve { IfOk result (λ s. IsServe (table_view table.now) s) }
    ensures fault { IfErr result (λ key. IsServeFault (table_view table.now) key) }
{
    let snmp = socket_at(table, "snmp").ok_or(ServeKey::Snmp)?;
    let workers = number_at(table, "workers", 1, MAX_WORKERS).ok_or(ServeKey::Workers)?;
    let rounds = number_at(table, "rounds", 1, MAX_ROUNDS).ok_or(ServeKey::Rounds)?;
    if key_count(table) != 3 {
        return Err(ServeKey::Other);
    }
    Ok(Serve {
        snmp,
        workers,
        rounds,
    })
}

// How a value says to serve, or what is wrong: that it is no table, or the first of its keys.
fn read_serve_row(value: &Value) -> Result<Serve, ServeKey>
    ensures serve { IfOk result (λ s. IsServeRow (view value.now) s) }
    ensures fault { IfErr result (λ key. IsServeRowFault (view value.now) key) }
{
    match value.as_table() {
        Some(table) => read_serve(table),
        None => Err(ServeKey::Serve),
    }
}

/// How a table says to serve, or none where it says nothing of it.
///
/// # Errors
///
/// `BadServe` where `serve` is there and is no table of the keys `snmp`, `workers` and `rounds`, by
/// the first of its keys that is wrong.
pub fn serve_of(table: &Table) -> Result<Option<Serve>, ConfigurationFault>
    ensures serve { IfOk result (λ o. IsServing (table_view table.now) o) }
    ensures fault { IfErr result (λ e. (key : ServeKey) × (e ≡ ConfigurationFault.BadServe key) ×
        IsServingFault (table_view table.now) key) }
{
    match value_at(table, "serve") {
        Some(value) => match read_serve_row(value) {
            Ok(serve) => Ok(Some(serve)),
            Err(key) => Err(ConfigurationFault::BadServe(key)),
        },
        None => Ok(None),
    }
}
