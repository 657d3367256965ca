//! The keys that the tables of a text may have.
ghost use Rattle.std.specs.Prelude.{◌≡◌};
ghost use Rattle.toml.specs.View.{table_view};
ghost use Rattle.settings_text.specs.KnownKeys.{are_keys};
ghost use Rattle.settings_text.specs.Parts.{is_key_of};
ghost use Rattle.settings_text.specs.PortRows.{is_port_row_key};
ghost use Rattle.settings_text.specs.StaticRows.{is_static_row_key};
ghost use Rattle.settings_text.specs.Reading.{is_settings_key};

use toml::Table;

/// A table of a text of settings.
#[derive(Clone, Copy, Debug, PartialEq, Eq)]
pub enum Part {
    /// The table of the whole text.
    Top,
    /// An element of `port`.
    Port,
    /// An element of `static`.
    Static,
}

fn is_settings_key(key: &[u8]) -> bool
    ensures { result ≡ is_settings_key key.now }
{
    key == b"address".as_slice()
        || key == b"priority".as_slice()
        || key == b"maxage".as_slice()
        || key == b"hello".as_slice()
        || key == b"fwddelay".as_slice()
        || key == b"version".as_slice()
        || key == b"holdcount".as_slice()
        || key == b"aging".as_slice()
        || key == b"port".as_slice()
        || key == b"static".as_slice()
}

fn is_port_row_key(key: &[u8]) -> bool
    ensures { result ≡ is_port_row_key key.now }
{
    key == b"number".as_slice()
        || key == b"portpriority".as_slice()
        || key == b"enable".as_slice()
        || key == b"cost".as_slice()
        || key == b"migrate".as_slice()
        || key == b"edge".as_slice()
        || key == b"p2p".as_slice()
}

fn is_static_row_key(key: &[u8]) -> bool
    ensures { result ≡ is_static_row_key key.now }
{
    key == b"address".as_slice() || key == b"port".as_slice() || key == b"ports".as_slice()
}

// Whether a part may have a key.
fn is_key_of(part: Part, key: &[u8]) -> bool
    ensures { result ≡ is_key_of part key.now }
{
    match part {
        Part::Top => is_settings_key(key),
        Part::Port => is_port_row_key(key),
        Part::Static => is_static_row_key(key),
    }
}

/// Whether a table has only keys that it may have as this part.
pub fn are_keys(part: Part, table: &Table) -> bool
    ensures { result ≡ are_keys (is_key_of part) (table_view table.now) }
{
    for (key, _value) in table.iter() {
        if !is_key_of(part, key.as_bytes()) {
            return false;
        }
    }
    true
}
