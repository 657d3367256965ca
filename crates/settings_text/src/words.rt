//! The words of settings in a text, their values at the opening, and those that a Set may write.
ghost use Rattle.std.specs.Prelude.{◌≡◌, ◌≤◌};
ghost use Rattle.audit_core.specs.Text.{bridge_key_text, port_key_text};
ghost use Rattle.rstp_settings.specs.Table.{opening_port};
ghost use Rattle.rstp_settings.specs.Values.{bridge_value, port_value};
ghost use Rattle.settings_text.specs.Settings.{opening_bridge};
ghost use Rattle.settings_text.specs.Numbers.{is_step, is_bridge_value, is_port_value};

use rstp_settings::key::{BridgeKey, MAX_AGING, MIN_AGING, PortKey, PortValues};

/// The word of a setting of the bridge.
pub fn bridge_word(key: BridgeKey) -> &'static str
    ensures { result.now ≡ bridge_key_text key }
{
    match key {
        BridgeKey::Priority => "priority",
        BridgeKey::MaxAge => "maxage",
        BridgeKey::Hello => "hello",
        BridgeKey::ForwardDelay => "fwddelay",
        BridgeKey::Version => "version",
        BridgeKey::HoldCount => "holdcount",
        BridgeKey::Aging => "aging",
    }
}

/// The word of a setting of a port.
pub fn port_word(key: PortKey) -> &'static str
    ensures { result.now ≡ port_key_text key }
{
    match key {
        PortKey::Priority => "portpriority",
        PortKey::Enable => "enable",
        PortKey::Cost => "cost",
        PortKey::Migrate => "migrate",
        PortKey::Edge => "edge",
        PortKey::PointToPoint => "p2p",
    }
}

/// The value of a setting of the bridge at the opening.
pub fn bridge_opening(key: BridgeKey) -> u32
    ensures { result ≡ bridge_value opening_bridge key }
{
    match key {
        BridgeKey::Priority => 32768,
        BridgeKey::MaxAge => 2000,
        BridgeKey::Hello => 200,
        BridgeKey::ForwardDelay => 1500,
        BridgeKey::Version => 2,
        BridgeKey::HoldCount => 6,
        BridgeKey::Aging => 300,
    }
}

/// The value of a setting of a port at the opening.
pub fn port_opening(key: PortKey) -> u32
    ensures { result ≡ port_value opening_port key }
{
    match key {
        PortKey::Priority => 128,
        PortKey::Enable => 1,
        PortKey::Cost => 0,
        PortKey::Migrate => 0,
        PortKey::Edge => 2,
        PortKey::PointToPoint => 2,
    }
}

/// The settings of a port at the opening.
pub fn opening_values() -> PortValues
    ensures { result ≡ opening_port }
{
    PortValues {
        priority: 128,
        enable: 1,
        cost: 0,
        migrate: 0,
        edge: 2,
        point_to_point: 2,
    }
}

// Whether a number is a multiple of a step, from a least to a greatest.
fn is_step(least: u32, most: u32, step: u32, number: u32) -> bool
    requires { 1 ≤ step }
    ensures { result ≡ is_step least most step number }
{
    least <= number && (number <= most && number % step == 0)
}

/// Whether a setting of the bridge may have this number.
pub fn is_bridge_value(key: BridgeKey, number: u32) -> bool
    ensures { result ≡ is_bridge_value key number }
{
    match key {
        BridgeKey::Priority => is_step(0, 61440, 4096, number),
        BridgeKey::MaxAge => is_step(600, 4000, 100, number),
        BridgeKey::Hello => is_step(100, 1000, 100, number),
        BridgeKey::ForwardDelay => is_step(400, 3000, 100, number),
        BridgeKey::Version => number == 0 || number == 2,
        BridgeKey::HoldCount => 1 <= number && number <= 10,
        BridgeKey::Aging => MIN_AGING <= number && number <= MAX_AGING,
    }
}

/// Whether a setting of a port may have this number.
pub fn is_port_value(key: PortKey, number: u32) -> bool
    ensures { result ≡ is_port_value key number }
{
    match key {
        PortKey::Priority => is_step(0, 240, 16, number),
        PortKey::Enable => 1 <= number && number <= 2,
        PortKey::Cost => number <= 200_000_000,
        PortKey::Migrate => number <= 1,
        PortKey::Edge => 1 <= number && number <= 2,
        PortKey::PointToPoint => number <= 2,
    }
}
