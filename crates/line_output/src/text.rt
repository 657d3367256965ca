//! Text of lines, in memory that is reserved once.
ghost use Rattle.std.specs.Prelude.{◌≡◌, ◌+◌, ◌++◌, ◌≤◌, ◌↔◌, [], IsTrue, IfOk, length, string_bytes, string_capacity, if◌then◌else◌};

use std::alloc::{AllocError, Global};

/// Text of at most so many octets, in memory of so many.
#[derive(Drop)]
pub(crate) struct LineText<const MOST: usize> {
    text: String,
    ghost reserved: { MOST ≤ string_capacity text },
    ghost bounded: { length (string_bytes text) ≤ MOST },
}

impl<const MOST: usize> LineText<MOST> {
    // No text. Takes the memory of the most octets.
    pub(crate) fn reserved(alloc: Global) -> Result<LineText<MOST>, AllocError>
        ensures { IfOk result (λ text. string_bytes text.text ≡ []) }
    {
        let text = String::with_capacity(alloc, MOST)?;
        Ok(LineText { text })
    }

    // Adds text, if it stays within the most octets; else nothing changes. Takes no memory.
    pub(crate) fn add(&mut self, more: &str) -> bool
        ensures fits { IsTrue result ↔ (length (string_bytes self.old.text) + length more.now ≤ MOST) }
        ensures text { string_bytes self.new.text
            ≡ (if result then string_bytes self.old.text ++ more.now else string_bytes self.old.text) }
    {
        if more.len() > MOST - self.text.len() {
            return false;
        }
        self.text.push_str(more).is_ok()
    }

    // No text from now on. The memory is kept.
    pub(crate) fn clear(&mut self)
        ensures { string_bytes self.new.text ≡ [] }
    {
        self.text.clear();
    }

    // Whether there is none.
    pub(crate) fn is_empty(&self) -> bool
        ensures { IsTrue result ↔ (string_bytes self.now.text ≡ []) }
    {
        self.text.is_empty()
    }

    // The octets.
    pub(crate) fn octets(&self) -> &[u8]
        ensures { result.now ≡ string_bytes self.now.text }
    {
        self.text.as_bytes()
    }
}
