//! A port's table in a text of settings.

use rstp_settings::key::PortValues;

/// What a `[[port]]` table says.
#[derive(Clone, Copy, Debug, Default, PartialEq, Eq)]
pub struct PortRow {
    /// The number of the port, counted from 1.
    pub number: u16,
    /// Its settings.
    pub values: PortValues,
}
