//! The settings of a bridge that a text keeps.

use arrayvec::ArrayVec;
use fdb_core::StaticRow;
use rstp_settings::key::{BridgeValues, PortValues};
use rstp_settings::settings::MAX_PORTS;

/// The settings of a bridge that a text keeps: all that a Set writes, but for the families' masks and types,
/// which are the policy's.
#[derive(Drop)]
pub struct KeptSettings {
    /// Those of the bridge as a whole.
    pub bridge: BridgeValues,
    /// Those of port 1, port 2, and so on.
    pub ports: ArrayVec<PortValues, MAX_PORTS>,
    /// Its static rows, by rising index.
    pub statics: Vec<StaticRow>,
}
