//! A flat copy of a bridge, to be kept and compared.
ghost use Rattle.std.specs.Prelude.{◌≡◌, ◌↔◌, IsTrue};
ghost use Rattle.bridge_core.specs.Bridge.{without_places, without_statics};

use crate::counters::PortCounters;
use arrayvec::ArrayVec;
use fdb_core::{LearnedRow, StaticRow};
use rstp_core::{MAX_PORTS, Rstp, Settings};
use std::marker::Model;

/// A flat copy of a bridge, seen as the bridge is. The settings, the spanning tree (the address,
/// the ports' configurations, what was settled, what each port holds, the times in force) and the
/// counters stand in fixed arrays for [`MAX_PORTS`] ports; only the learned and the static rows are
/// in vectors, in their order. No event changes it.
pub struct FlatBridge {
    settings: Settings,
    tree: Rstp,
    learned: Vec<LearnedRow>,
    statics: Vec<StaticRow>,
    places: usize,
    entry_discards: u32,
    counters: ArrayVec<PortCounters, MAX_PORTS>,
}

// By hand: who drops one then knows nothing of its parts.
impl Drop for FlatBridge {
    fn drop(self) {
        let FlatBridge {
            settings: _settings,
            tree: _tree,
            learned: _learned,
            statics: _statics,
            places: _places,
            entry_discards: _entry_discards,
            counters: _counters,
        } = self;
    }
}

impl Model for FlatBridge {
    ghost use Rattle.bridge_core.specs.Bridge.{BridgeState};

    ghost Value = { BridgeState };

    ghost view = { λ b. record {
      settings = b.settings;
      tree = b.tree;
      learned = b.learned.items;
      statics = record { rows = b.statics.items; places = b.places };
      counters = record { entry_discards = b.entry_discards; ports = b.counters.items };
    } };
}

impl FlatBridge {
    // The flat copy that has these parts.
    pub(crate) fn of(
        settings: Settings,
        tree: Rstp,
        learned: Vec<LearnedRow>,
        statics: Vec<StaticRow>,
        places: usize,
        entry_discards: u32,
        counters: ArrayVec<PortCounters, MAX_PORTS>,
    ) -> FlatBridge
        ensures { result ≡ record {
          settings = settings;
          tree = tree;
          learned = learned.items;
          statics = record { rows = statics.items; places = places };
          counters = record { entry_discards = entry_discards; ports = counters.items };
        } }
    {
        FlatBridge {
            settings,
            tree,
            learned,
            statics,
            places,
            entry_discards,
            counters,
        }
    }

    // Whether the two bridges are equal in all that they keep but their static rows.
    fn same_but_statics(&self, other: &FlatBridge) -> bool
        ensures { IsTrue result ↔ (without_statics self.now ≡ without_statics other.now) }
    {
        self.settings.is_same(&other.settings)
            && self.tree.is_same(&other.tree)
            && self.entry_discards == other.entry_discards
            && self.counters.as_slice() == other.counters.as_slice()
            && self.learned.as_slice() == other.learned.as_slice()
    }

    // Whether the static rows of the two bridges are equal.
    fn same_statics(&self, other: &FlatBridge) -> bool
        ensures { IsTrue result ↔ (self.now.statics.rows ≡ other.now.statics.rows) }
    {
        same_rows(self.statics.as_slice(), other.statics.as_slice())
    }

    /// Whether the two bridges are equal in all that they keep: settings, spanning tree, learned
    /// rows with their ages, static rows, and counters; for how many static rows they are sure of
    /// memory is not compared. It takes no memory.
    pub fn same(&self, other: &FlatBridge) -> bool
        ensures { IsTrue result ↔ (without_places self.now ≡ without_places other.now) }
    {
        self.same_but_statics(other) && self.same_statics(other)
    }
}

// Whether the rows are equal.
#[tactic(auto, using(crate::proofs::Same::static_rows))]
fn same_rows(rows: &[StaticRow], others: &[StaticRow]) -> bool
    ensures { IsTrue result ↔ (rows.now ≡ others.now) }
{
    rows == others
}
