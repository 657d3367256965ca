//! To whom it is reported how a line goes on.
ghost use Rattle.std.specs.Prelude.{◌≡◌};

use crate::book::{Drops, Worked};
use crate::line::LineName;
use live_agent::End;
use live_control::ControlItem;
use live_lock::Counts;
use std::sync::Wait;

/// Is called as one line goes on. The line's thread does not hold the history's lock then.
///
/// What it was called with is a relation, as what a wire does is one.
pub trait Watch: Drop {
    ghost use Rattle.std.specs.Prelude.{◌≡◌, List, [], ◌∷◌, ◌++◌};
    ghost use Rattle.live_laps.specs.Notes.{Note, interval_worked, interval_ticked, line_failed, line_ended};
    ghost use Rattle.live_laps.specs.declared.book.Drops.{Drops};

    // These notes, in this order, lead from one state of it to another.
    ghost went: { Self → List Note → Self → Type 0 };

    // It may report these drops, as of some time: other threads count on.
    ghost reports: { Self → Drops → Type 0 };

    /// Another of the same, for another line.
    fn another(&self) -> Self
        ensures { result ≡ self.now };

    /// The datagrams that each cause dropped so far, for an operator who asks for them.
    fn dropped<R: Wait>(&self, rt: &R) -> Drops
        ensures { reports self.now result };

    /// Behind each command of an operator and its answer, if there was memory for one: what became of it. No clause says what
    /// is done with that.
    fn commanded(&self, item: &ControlItem);

    /// At the end of each interval of a worker: its counts.
    fn worked<R: Wait>(&mut self, rt: &R, worked: Worked)
        ensures { went self.old (interval_worked worked ∷ []) self.new };

    /// At the end of each interval of the ticker: how far the history was past its
    /// start at some time, and what its world counted then.
    fn ticked<R: Wait>(&mut self, rt: &R, counts: Counts)
        ensures { went self.old (interval_ticked counts ∷ []) self.new };

    /// Where a fault of the line's wire, or want of memory, ended an interval, before the line waits:
    /// which line, why, and how many of its intervals have ended so with this one. The count stops at
    /// `u64::MAX`.
    fn failed(&mut self, line: LineName, end: End, faults: u64)
        ensures { went self.old (line_failed line end faults ∷ []) self.new };

    /// Where the line ends.
    fn ended(&mut self, line: LineName, end: End)
        ensures { went self.old (line_ended line end ∷ []) self.new };

    // Without a note it stays as it is.
    ghost starts: { (a : Self) → went a [] a };

    // Notes behind notes are one list.
    ghost goes_on: { (a b c : Self) (xs ys : List Note) →
        went a xs b → went b ys c → went a (xs ++ ys) c };
}
