//! What says how long ticks go on.
ghost use Rattle.std.specs.Prelude.{◌≡◌};

use std::marker::Model;
use std::thread;
use std::time::{Clock, Duration};

/// Says, once for each tick, whether ticks go on.
///
/// What it answers is a relation, as what a wire does is one.
pub trait Pace: Drop {
    ghost use Rattle.std.specs.Prelude.{Bool, List, [], ◌∷◌, ◌++◌};

    // These answers, in this order, lead from one state of the pace to another.
    ghost went: { Self → List Bool → Self → Type 0 };

    /// Waits as long as this pace does, and says whether there is one tick more. After `false` the
    /// ticks have ended.
    fn next(&mut self) -> bool
        ensures { went self.old (result ∷ []) self.new };

    // Without an answer it stays as it is.
    ghost starts: { (a : Self) → went a [] a };

    // Answers behind answers are one list.
    ghost goes_on: { (a b c : Self) (xs ys : List Bool) →
        went a xs b → went b ys c → went a (xs ++ ys) c };
}

/// A pace of a number of ticks, which waits for nothing. It is seen as how many are left.
#[derive(Clone, Copy, Drop)]
pub struct CountPace {
    left: u64,
}

impl Model for CountPace {
    ghost use Rattle.std.specs.Prelude.{ℕ};

    ghost Value = { ℕ };

    ghost view = { λ pace. pace.left };

    ghost inverse = { λ left. record { left = left } };
}

impl CountPace {
    /// So many ticks.
    pub fn new(ticks: u64) -> CountPace
        ensures { result ≡ ticks }
    {
        CountPace { left: ticks }
    }

    /// How many ticks are left.
    pub fn left(&self) -> u64
        ensures { result ≡ self.now }
    {
        self.left
    }
}

impl Pace for CountPace {
    ghost use Rattle.wire_core.specs.Pacing.{CountsDown};
    ghost use Rattle.wire_core.specs.PacingLaws.{counting_starts, counting_goes_on};

    ghost went = { CountsDown };

    ghost starts = { counting_starts };

    ghost goes_on = { counting_goes_on };

    fn next(&mut self) -> bool {
        let more = self.left > 0;
        self.left = self.left.saturating_sub(1);
        more
    }
}

/// A pace of a tick each second, without end. It waits by the clock that it was handed.
#[derive(Clone, Copy, Drop)]
pub struct SecondPace<C> {
    clock: C,
}

impl<C: Clock> SecondPace<C> {
    /// One that waits by this clock, which may be a reference to the runtime.
    pub fn new(clock: C) -> SecondPace<C> {
        SecondPace { clock }
    }
}

impl<C: Clock + Drop> Pace for SecondPace<C> {
    ghost use Rattle.wire_core.specs.Pacing.{GoesOnForEver};
    ghost use Rattle.wire_core.specs.PacingLaws.{endless_goes_on};

    ghost went = { λ _ answers _. GoesOnForEver answers };

    ghost starts = { λ _. tt };

    ghost goes_on = { λ _ _ _ xs ys before after. endless_goes_on xs ys before after };

    fn next(&mut self) -> bool {
        thread::sleep(&self.clock, Duration::from_secs(1));
        true
    }
}
