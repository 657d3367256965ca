//! The counts of the items of an interval.
ghost use Rattle.std.specs.Prelude.{◌≡◌, ◌∷◌, [], List};
ghost use Rattle.live_agent.specs.declared.trace.Item.{Item as AnyItem};
ghost use Rattle.live_laps.specs.Laps.{is_first_entered};
ghost use Rattle.live_laps.specs.Sums.{sum_of, first_entered};

use crate::book::Worked;
use live_agent::{Item, Recorder};
use std::alloc::AllocError;

/// The counts of the items of an interval, of which none is kept. It takes no memory.
#[derive(Clone, Copy, Debug, PartialEq, Eq, Drop)]
pub struct IntervalSum {
    /// How many there are of each kind.
    pub worked: Worked,
    /// Whether the first of them is an entry, once there is one.
    pub first_entered: Option<bool>,
}

// Whether an item is an entry.
fn is_entered(item: &Item) -> bool
    ensures { result ≡ is_first_entered (item.now ∷ []) }
{
    matches!(item, Item::Entered(_))
}

impl IntervalSum {
    /// That of an interval that has only begun.
    pub fn new() -> IntervalSum
        ensures { result ≡ sum_of [] }
    {
        IntervalSum {
            worked: Worked::nothing(),
            first_entered: None,
        }
    }

    /// Whether the first item is an entry.
    pub fn is_first_entered(&self) -> bool
        ensures { (items : List AnyItem) → self.now ≡ sum_of items →
            result ≡ is_first_entered items }
    {
        self.first_entered == Some(true)
    }
}

impl Recorder for IntervalSum {
    ghost use Rattle.live_laps.specs.Sums.{Sums};
    ghost use Rattle.live_laps.specs.SumLaws.{sums_none, sums_more};

    ghost went = { Sums };

    ghost has_space = { λ _. Unit };

    ghost starts = { sums_none };

    ghost goes_on = { sums_more };

    fn reserve(&mut self) -> Result<(), AllocError> {
        Ok(())
    }

    fn record(&mut self, item: Item) {
        if self.first_entered.is_none() {
            self.first_entered = Some(is_entered(&item));
        }
        self.worked.count(&item);
    }
}
