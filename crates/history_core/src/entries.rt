//! The entries that are kept, and those of before the base moved, which are dropped one by one.
ghost use Rattle.std.specs.Prelude.{◌≡◌, ◌<◌, ◌++◌, ◌∷◌, [], length, IfOk};

use crate::entry::Entry;
use crate::limits::MAX_ENTRIES;
use std::alloc::{AllocError, Global};
use std::marker::Model;
use std::mem::swap;

/// Entries, with memory for [`MAX_ENTRIES`]. Once they are cleared they lie aside, and each new one
/// drops one of them: so no event has to drop all of them, under a lock. Both together are never more
/// than [`MAX_ENTRIES`].
pub struct Entries {
    kept: Vec<Entry>,
    past: Vec<Entry>,
}

// By hand: who drops one then knows nothing of its parts.
impl Drop for Entries {
    fn drop(self) {
        let Entries {
            kept: _kept,
            past: _past,
        } = self;
    }
}

impl Model for Entries {
    ghost use Rattle.std.specs.Prelude.{◌≤◌, ◌+◌, List, length, vec_capacity};
    ghost use Rattle.history_core.specs.declared.entry.Entry.{Entry};
    ghost use Rattle.history_core.specs.declared.limits.TheConstants.{MAX_ENTRIES};

    ghost Value = { List Entry };

    ghost view = { λ e. e.kept.items };

    ghost invariant = { λ e.
        (MAX_ENTRIES ≤ vec_capacity e.kept) × (MAX_ENTRIES ≤ vec_capacity e.past)
        × (length e.kept.items + length e.past.items ≤ MAX_ENTRIES) };
}

impl Entries {
    /// No entries, and memory for [`MAX_ENTRIES`] twice. Only memory can fail.
    pub fn reserved(alloc: Global) -> Result<Entries, AllocError>
        ensures { IfOk result (λ entries. entries ≡ []) }
    {
        let kept = Vec::with_capacity(alloc, MAX_ENTRIES)?;
        let past = Vec::with_capacity(alloc, MAX_ENTRIES)?;
        Ok(Entries { kept, past })
    }

    /// How many entries there are.
    pub fn len(&self) -> usize
        ensures { result ≡ length self.now }
    {
        self.kept.len()
    }

    /// The entries, in order.
    pub fn as_slice(&self) -> &[Entry]
        ensures { result.now ≡ self.now }
    {
        self.kept.as_slice()
    }

    /// No entries any more. Those that there were are dropped later, and what lay aside at once.
    pub fn clear(&mut self)
        ensures { self.new ≡ [] }
    {
        swap(&mut self.kept, &mut self.past);
        self.kept.clear();
    }

    /// One entry more, where there are not [`MAX_ENTRIES`] yet. Takes no memory.
    pub fn push(&mut self, entry: Entry)
        requires { length self.old < MAX_ENTRIES }
        ensures { self.new ≡ self.old ++ entry ∷ [] }
    {
        if !self.past.is_empty() {
            self.past.truncate(self.past.len() - 1);
        }
        self.kept.push_reserved(entry);
    }
}
