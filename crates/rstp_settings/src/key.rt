//! The settings of a bridge and its ports: keys, values, ranges (RFC 4188, RFC 4318; IEEE
//! 802.1D-2004 17.13, 17.14). Of the numbers that stand for a value, those that no rule compares
//! with are there for the objects that read and write settings.

/// A setting of the bridge as a whole.
#[derive(Clone, Copy, Debug, PartialEq, Eq)]
pub enum BridgeKey {
    /// Bridge priority: 0 to 61440 in steps of 4096, at first 32768 (IEEE 802.1D-2004 17.14).
    Priority,
    /// Bridge max age in 1/100 s: 600 to 4000 in whole seconds, at first 2000.
    MaxAge,
    /// Bridge hello time in 1/100 s: 100 to 1000 in whole seconds, at first 200.
    Hello,
    /// Bridge forward delay in 1/100 s: 400 to 3000 in whole seconds, at first 1500.
    ForwardDelay,
    /// Force protocol version (17.13.4): 0 is STP compatible, 2 is RSTP, at first 2.
    Version,
    /// Transmit hold count (17.13.12): 1 to 10 BPDUs, at first 6.
    HoldCount,
    /// Ageing time of learned addresses in seconds (7.9.2): [`MIN_AGING`] to [`MAX_AGING`], at
    /// first 300.
    Aging,
}

/// A setting of one port.
#[derive(Clone, Copy, Debug, PartialEq, Eq)]
pub enum PortKey {
    /// Port priority: 0 to 240 in steps of 16, at first 128 (IEEE 802.1D-2004 17.14).
    Priority,
    /// Administrative state (RFC 4188 dot1dStpPortEnable): 1 is enabled, 2 is disabled, at first 1.
    Enable,
    /// Path cost (17.14): 0 to 200000000, where 0 is the default cost of the port's speed, at first
    /// 0.
    Cost,
    /// Protocol migration check (17.19.13, `mcheck`): 1 asks for it, 0 is none, at first 0.
    Migrate,
    /// Admin edge port (17.13.1): 1 is true, 2 is false, at first 2.
    Edge,
    /// Admin point to point MAC (6.4.3): 0 forces true, 1 forces false, 2 is automatic, at first 2.
    PointToPoint,
}

/// The name of a setting. Ports are numbered from 1.
#[derive(Clone, Copy, Debug, PartialEq, Eq)]
pub enum Key {
    /// A setting of the bridge as a whole.
    Bridge(BridgeKey),
    /// A setting of the port of this number.
    Port(u16, PortKey),
}

/// The values of the bridge's settings, in the units of their keys.
#[derive(Clone, Copy, Debug, PartialEq, Eq)]
pub struct BridgeValues {
    /// Bridge priority (17.14), a multiple of 4096.
    pub priority: u32,
    /// Bridge max age (17.14) in 1/100 s.
    pub max_age: u32,
    /// Bridge hello time (17.14) in 1/100 s.
    pub hello: u32,
    /// Bridge forward delay (17.14) in 1/100 s.
    pub forward_delay: u32,
    /// Force protocol version (17.13.4): [`VERSION_STP`] or [`VERSION_RSTP`].
    pub version: u32,
    /// Transmit hold count (17.13.12) in BPDUs.
    pub hold_count: u32,
    /// Ageing time of learned addresses (7.9.2) in seconds.
    pub aging: u32,
}

/// The values of a port's settings, in the units of their keys.
#[derive(Clone, Copy, Debug, Default, PartialEq, Eq)]
pub struct PortValues {
    /// Port priority (17.14), a multiple of 16.
    pub priority: u32,
    /// Administrative state (RFC 4188 dot1dStpPortEnable): [`PORT_ENABLED`] or [`PORT_DISABLED`].
    pub enable: u32,
    /// Path cost (17.14), or 0 for the default cost of the port's speed.
    pub cost: u32,
    /// Protocol migration check (17.19.13): [`MIGRATION_CHECK`], or 0.
    pub migrate: u32,
    /// Admin edge port (17.13.1): [`EDGE_TRUE`] or [`EDGE_FALSE`].
    pub edge: u32,
    /// Admin point to point MAC (6.4.3): [`POINT_TO_POINT_TRUE`], [`POINT_TO_POINT_FALSE`] or
    /// [`POINT_TO_POINT_AUTO`].
    pub point_to_point: u32,
}

/// Force protocol version (IEEE 802.1D-2004 17.13.4): STP compatible.
pub const VERSION_STP: u32 = 0;

/// Force protocol version: RSTP.
pub const VERSION_RSTP: u32 = 2;

/// Administrative state of a port (RFC 4188 dot1dStpPortEnable): enabled.
pub const PORT_ENABLED: u32 = 1;

/// Administrative state of a port: disabled.
pub const PORT_DISABLED: u32 = 2;

/// A protocol migration check is asked for (17.19.13).
pub const MIGRATION_CHECK: u32 = 1;

/// Admin edge port (17.13.1): true.
pub const EDGE_TRUE: u32 = 1;

/// Admin edge port: false.
pub const EDGE_FALSE: u32 = 2;

/// Admin point to point MAC (6.4.3): forced true.
pub const POINT_TO_POINT_TRUE: u32 = 0;

/// Admin point to point MAC: forced false.
pub const POINT_TO_POINT_FALSE: u32 = 1;

/// Admin point to point MAC: automatic, by full duplex.
pub const POINT_TO_POINT_AUTO: u32 = 2;

/// The least value of the setting [`BridgeKey::Aging`], in seconds (IEEE 802.1D-2004 Table 7-5).
pub const MIN_AGING: u32 = 10;

/// The greatest value of the setting [`BridgeKey::Aging`], in seconds (Table 7-5).
pub const MAX_AGING: u32 = 1_000_000;
