//! Where and when one address was learned.
ghost use Rattle.std.specs.Prelude.{◌≡◌, ◌-◌};
ghost use Rattle.fdb_core.specs.Seen.{seen_earlier};

/// The tick number at which all ticks are lowered.
pub const LAST_TICK: u32 = u32::MAX;

/// Where and when an address was last learned (IEEE 802.1D-2004, 7.9.2).
#[derive(Clone, Copy, Debug, PartialEq, Eq)]
pub struct Seen {
    /// The number of the port on which a frame from the address came last.
    pub port: u16,
    /// The tick number then. A tick is a second.
    pub tick: u32,
}

impl Seen {
    /// How many seconds ago that was, at a later tick.
    pub fn age(self, tick: u32) -> u32
        ensures { result ≡ tick - self.tick }
    {
        tick.saturating_sub(self.tick)
    }

    /// Lowers the tick by so many ticks.
    pub fn lower(&mut self, by: u32)
        ensures { self.new ≡ seen_earlier by self.old }
    {
        self.tick = self.tick.saturating_sub(by);
    }
}
