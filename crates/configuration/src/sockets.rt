//! Addresses of sockets in a table.
ghost use Rattle.std.specs.Prelude.{Option, IfSome, IfNone};
ghost use Rattle.std.specs.declared.net.socket_addr.SocketAddr.{SocketAddr};
ghost use Rattle.toml.specs.Data.{get_member};
ghost use Rattle.toml.specs.View.{table_view, view};
ghost use Rattle.configuration.specs.Sockets.{IsSocket, IsRequired, IsOptional};

use policy_text::keys::value_at;
use std::net::SocketAddr;
use toml::{Table, Value};

// The address that a value writes, if it writes one.
fn socket_of(value: &Value) -> Option<SocketAddr>
    ensures found { IfSome result (λ a. IsSocket (view value.now) a) }
    ensures none { IfNone result ((a : SocketAddr) → ¬ IsSocket (view value.now) a) }
{
    value.as_str()?.parse().ok()
}

/// The address at a key that has to be there, if the key holds one.
pub fn socket_at(table: &Table, key: &str) -> Option<SocketAddr>
    ensures found { IfSome result (λ a.
        IsRequired IsSocket (get_member key.now (table_view table.now)) a) }
    ensures none { IfNone result ((a : SocketAddr) →
        ¬ IsRequired IsSocket (get_member key.now (table_view table.now)) a) }
{
    socket_of(value_at(table, key)?)
}

/// The address at a key, or none where the key is not there; `None` if the key holds anything else.
pub fn optional_socket_at(table: &Table, key: &str) -> Option<Option<SocketAddr>>
    ensures found { IfSome result (λ o.
        IsOptional IsSocket (get_member key.now (table_view table.now)) o) }
    ensures none { IfNone result ((o : Option SocketAddr) →
        ¬ IsOptional IsSocket (get_member key.now (table_view table.now)) o) }
{
    match value_at(table, key) {
        Some(value) => Some(Some(socket_of(value)?)),
        None => Some(None),
    }
}
