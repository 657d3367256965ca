//! What is kept of the settings of a bridge and a port when they are settled: settling them again
//! finds by it what has changed.

/// The three times of the settings (IEEE 802.1D-2004 17.14), in 1/100 s.
#[derive(Clone, Copy, Debug, Default, PartialEq, Eq)]
pub struct Timers {
    /// Bridge max age.
    pub max_age: u32,
    /// Bridge hello time.
    pub hello: u32,
    /// Bridge forward delay.
    pub forward_delay: u32,
}

/// What is kept of a port's settings when the settings are settled.
#[derive(Clone, Copy, Debug, Default, PartialEq, Eq)]
pub struct SettledPort {
    /// Whether it was enabled (RFC 4188 dot1dStpPortEnable).
    pub enabled: bool,
    /// Whether it was set to be at the edge (17.13.1).
    pub edge: bool,
}
