//! Why a text of settings is refused.

use rstp_settings::key::{BridgeKey, PortKey};
use thiserror::Error;

/// What is wrong with a table of a port. The cases are tried in this order.
#[derive(Clone, Copy, Debug, PartialEq, Eq)]
pub enum PortRowKey {
    /// `number` is no integer of 1 to the count of ports; or the element is no table.
    Number,
    /// `number` is not above that of the table before: the ports stand by rising number.
    Order,
    /// The value under the word of this setting is none that a Set may write.
    Setting(PortKey),
    /// There is another key.
    Other,
}

/// What is wrong with a table of a static row. The cases are tried in this order, but that an address of which
/// the bridge may have no row is found behind `port`.
#[derive(Clone, Copy, Debug, PartialEq, Eq)]
pub enum StaticRowKey {
    /// `address` is not 12 hexadecimal digits in a string, or is the bridge's own or one of 0180C2000000 to
    /// 0180C200000F; or the element is no table.
    Address,
    /// `port` is no integer of 0 to the count of ports.
    Port,
    /// The address and the port are not above those of the table before: the rows stand by rising address, and
    /// of one address by rising port.
    Order,
    /// `ports` is no array of integers of 1 to the count of ports.
    Ports,
    /// There is another key.
    Other,
}

/// Why a text of settings is refused: its first fault, in the order of the cases from `BadText` on.
///
/// The numbers of tables count from 0.
#[derive(Clone, Copy, Debug, PartialEq, Eq, Error)]
pub enum SettingsFault {
    /// A growth was refused, which says nothing of the text.
    #[error("no memory for the settings")]
    Memory,
    /// The text is no TOML document.
    #[error("the text is no TOML document")]
    BadText,
    /// `address` is not 12 hexadecimal digits in a string.
    #[error("top level: address is to be a string of 12 hexadecimal digits")]
    BadAddress,
    /// `address` is not the bridge's.
    #[error("top level: address is that of another bridge")]
    OtherBridge,
    /// The value under the word of this setting is none that a Set may write.
    #[error("top level: a setting has a value that a Set may not write")]
    BadSetting(BridgeKey),
    /// The three timers do not go together (IEEE 802.1D-2004 17.14).
    #[error("top level: the timers do not go together")]
    BadTimers,
    /// `port` is no array.
    #[error("port is to be an array of tables")]
    BadPorts,
    /// The element of `port` of this number is the first at fault.
    #[error("element {0} of port is no table of a port's settings")]
    BadPort(usize, PortRowKey),
    /// `static` is no array, or has more than 256 elements.
    #[error("static is to be an array of at most 256 tables")]
    BadStatics,
    /// The element of `static` of this number is the first at fault.
    #[error("element {0} of static is no table of a static row")]
    BadStatic(usize, StaticRowKey),
    /// There is another key.
    #[error("top level: there is an unknown key")]
    OtherKey,
}
