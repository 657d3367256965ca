//! What a thread has of a run.
ghost use Rattle.std.specs.Prelude.{◌≡◌, ◌⊎◌, ◌+◌, ◌<◌, ◌≤◌, length};
ghost use mathlib.Core.List.{IsPrefix};
ghost use Rattle.live_lock.specs.Sharing.{entry_count};
ghost use Rattle.live_lock.specs.Whole.{Grew};

use crate::run::{Base, Run};
use history_core::{Applied, Entry, Kept};
use rising::{Front, Latest, Log, Reached};
use setphase_core::MibObject;
use std::marker::Model;
use std::sync::ledger;
use std::sync::ledger::Book;

/// What a thread has of a run: parts of its ledger, the count of the entries that the thread made, the
/// count of those since the start that it knows of, by how many the base had moved then, and what it
/// has seen of the log of all entries. It has no octets.
pub struct Share<L: Run> {
    made: ledger::Share<L>,
    reached: Reached<L>,
    moved: Reached<Base<L>>,
    front: Front<Entry, L>,
}

impl<L: Run> Model for Share<L> {
    ghost use Rattle.live_lock.specs.Standing.{Standing};

    ghost Value = { Standing };

    ghost view = { λ s. record {
      parts = s.made.parts;
      amount = s.made.amount;
      known = s.reached.number;
      older = s.moved.number;
      front = s.front.log;
    } };
}

// By hand: who drops one then knows nothing of its parts.
impl<L: Run> Drop for Share<L> {
    fn drop(self) {
        let Share {
            made: _made,
            reached: _reached,
            moved: _moved,
            front: _front,
        } = self;
    }
}

impl<L: Run> Share<L> {
    // The share of all parts, by its tokens.
    pub(crate) fn new(
        made: ledger::Share<L>,
        reached: Reached<L>,
        moved: Reached<Base<L>>,
        front: Front<Entry, L>,
    ) -> Share<L>
        ensures made { (result.parts ≡ made.parts) × (result.amount ≡ made.amount) }
        ensures known { (result.known ≡ reached.number) × (result.older ≡ moved.number) }
        ensures front { result.front ≡ front.log }
    {
        Share {
            made,
            reached,
            moved,
            front,
        }
    }

    /// Cuts off so many parts, for a thread that made no entry yet, and knows of what this one knows
    /// of, and has seen of the log what this one has.
    pub fn split_off(&mut self, parts: u64) -> Share<L>
        requires { parts < self.old.parts }
        ensures parts { result.parts ≡ parts }
        ensures amount { result.amount ≡ 0 }
        ensures known { result.known ≡ self.old.known }
        ensures older { result.older ≡ self.old.older }
        ensures parts_left { self.new.parts + parts ≡ self.old.parts }
        ensures amount_left { self.new.amount ≡ self.old.amount }
        ensures known_left { self.new.known ≡ self.old.known }
        ensures older_left { self.new.older ≡ self.old.older }
        ensures front { (result.front ≡ self.old.front) × (self.new.front ≡ self.old.front) }
    {
        let Share {
            made,
            reached,
            moved,
            front,
        } = self;
        let front = front.again();
        let made = made.split_off(parts, 0);
        let reached = reached.again();
        let moved = moved.again();
        Share {
            made,
            reached,
            moved,
            front,
        }
    }

    /// Takes in another share of the run, with what it counts. What this one knows of stays, and what it
    /// has seen of the log is then the longer of both.
    pub fn merge(&mut self, other: Share<L>)
        ensures parts { self.new.parts ≡ self.old.parts + other.parts }
        ensures amount { self.new.amount ≡ self.old.amount + other.amount }
        ensures known { self.new.known ≡ self.old.known }
        ensures older { self.new.older ≡ self.old.older }
        ensures apart { self.new.parts ≤ L.parts }
        ensures seen { IsPrefix self.old.front self.new.front × IsPrefix other.front self.new.front }
        ensures longer { (self.new.front ≡ self.old.front) ⊎ (self.new.front ≡ other.front) }
    {
        let Share {
            made,
            reached: _reached,
            moved: _moved,
            mut front,
        } = other;
        self.made.merge(made);
        self.front.join(&mut front);
    }

    // So many entries were made, and the base moved by so many. Both are known of then.
    pub(crate) fn enter(
        &mut self,
        book: &mut Book<L>,
        latest: &mut Latest<L>,
        base: &mut Latest<Base<L>>,
        count: u64,
        by: u64,
    )
        requires { 0 < self.old.parts }
        ensures behind { self.old.amount ≤ book.old.total }
        ensures knew { (self.old.known ≤ latest.old.number) × (self.old.older ≤ base.old.number) }
        ensures total { book.new.total ≡ book.old.total + count }
        ensures latest { latest.new.number ≡ latest.old.number + count }
        ensures base { base.new.number ≡ base.old.number + by }
        ensures amount { self.new.amount ≡ self.old.amount + count }
        ensures known { (self.new.known ≡ latest.new.number) × (self.new.older ≡ base.new.number) }
        ensures parts { self.new.parts ≡ self.old.parts }
        ensures front { self.new.front ≡ self.old.front }
    {
        let Share {
            made,
            reached,
            moved,
            ..
        } = self;
        book.audit(made);
        book.add(made, count);
        latest.raise(reached, count);
        base.raise(moved, by);
    }

    // What was entered until now is known of then, and seen of the log.
    pub(crate) fn observe(
        &mut self,
        book: &mut Book<L>,
        latest: &mut Latest<L>,
        base: &mut Latest<Base<L>>,
        log: &mut Log<Entry, L>,
    )
        ensures log { log.new.log ≡ log.old.log }
        ensures front { self.new.front ≡ log.old.log }
        ensures seen { IsPrefix self.old.front log.old.log }
        ensures behind { self.old.amount ≤ book.old.total }
        ensures whole { self.old.parts ≡ L.parts → self.old.amount ≡ book.old.total }
        ensures knew { (self.old.known ≤ latest.old.number) × (self.old.older ≤ base.old.number) }
        ensures total { book.new.total ≡ book.old.total }
        ensures latest { latest.new.number ≡ latest.old.number }
        ensures base { base.new.number ≡ base.old.number }
        ensures amount { self.new.amount ≡ self.old.amount }
        ensures known { (self.new.known ≡ latest.new.number) × (self.new.older ≡ base.new.number) }
        ensures parts { self.new.parts ≡ self.old.parts }
    {
        let Share {
            made,
            reached,
            moved,
            front,
        } = self;
        book.audit(made);
        latest.raise(reached, 0);
        base.raise(moved, 0);
        log.show(front);
    }

    // Notes the last entry that is kept in the log, where an event made one.
    pub(crate) fn note<O: MibObject>(
        &mut self,
        kept: &Kept<O>,
        log: &mut Log<Entry, L>,
        applied: &Applied,
    )
        requires { entry_count applied.now ≤ length kept.now.entries }
        ensures grew { Grew applied.now kept.now.entries log.old.log log.new.log }
        ensures front { self.new.front ≡ log.new.log }
        ensures behind { IsPrefix self.old.front log.old.log }
        ensures parts { (self.new.parts ≡ self.old.parts) × (self.new.amount ≡ self.old.amount) }
        ensures known { (self.new.known ≡ self.old.known) × (self.new.older ≡ self.old.older) }
    {
        let Share { front, .. } = self;
        match applied {
            Applied::Done(..) | Applied::Dropped(..) => {
                let entries = kept.entries();
                log.add(front, &entries[entries.len() - 1]);
            }
            Applied::Short(_) | Applied::HistoryFull(_) => log.show(front),
        }
    }
}
