//! What a run of threads starts from.
ghost use Rattle.std.specs.Prelude.{ℕ};

use rising::{Naming, Rising};
use std::marker::{Brand, PhantomData};
use std::sync::ledger::Ledger;

/// A run of threads over one history: the ledger that counts their entries, the number of all entries
/// since the start, which only rises, that by which the base has moved, the log of all entries, and
/// where the history stood as it was put under the lock. Each call of a program picks its own.
pub trait Run: Ledger + Rising + Naming {
    ghost use Rattle.history_core.specs.History.{History};

    /// The history that was put under the lock.
    ghost start: { History };

    /// The name of the number of entries by which the base has moved since.
    ghost base_rise: { ℕ };
}

impl Run for Brand {
    ghost use Rattle.live_lock.specs.Sharing.{nowhere};

    ghost start = { nowhere };

    ghost base_rise = { 0 };
}

/// Which number it is by which the base of a run's history has moved.
pub struct Base<L: Run> {
    run: PhantomData<L>,
}

impl<L: Run> Rising for Base<L> {
    ghost rise = { L.base_rise };
}
