//! The lines that wait for one output, and how many were lost.
ghost use Rattle.std.specs.Prelude.{◌≡◌, ◌+◌, ◌≤◌, ◌↔◌, [], IsTrue, IfOk, length};
ghost use Rattle.line_output.specs.Waiting.{IsOffered, lost_more, octets_of};

use crate::text::LineText;
use std::alloc::{AllocError, Global};
use std::mem;

/// The text of the lines that wait for one output, of at most so many octets, and how many lines were
/// lost.
#[derive(Drop)]
pub(crate) struct Waiting<const MOST: usize> {
    text: LineText<MOST>,
    lost: u64,
}

impl<const MOST: usize> Waiting<MOST> {
    // No lines. Takes the memory of the most octets, so that no offer takes any.
    pub(crate) fn reserved(alloc: Global) -> Result<Waiting<MOST>, AllocError>
        ensures text { IfOk result (λ waiting. octets_of waiting.text ≡ []) }
        ensures lost { IfOk result (λ waiting. waiting.lost ≡ 0) }
    {
        let text = LineText::reserved(alloc)?;
        Ok(Waiting { text, lost: 0 })
    }

    // Offers a line, with its line feed: whether it waits from now on. It does exactly where the text
    // stays within its most octets; else it is lost.
    pub(crate) fn offer(&mut self, line: &str) -> bool
        ensures fits { IsTrue result ↔ (length (octets_of self.old.text) + length line.now ≤ MOST) }
        ensures offered { IsOffered self.old line.now result self.new }
    {
        let is_taken = self.text.add(line);
        if !is_taken {
            self.lost = self.lost.saturating_add(1);
        }
        is_taken
    }

    // So many lines were lost elsewhere.
    pub(crate) fn lose(&mut self, lines: u64)
        ensures lost { self.new.lost ≡ lost_more self.old.lost lines }
        ensures text { self.new.text ≡ self.old.text }
    {
        self.lost = self.lost.saturating_add(lines);
    }

    // Whether no line waits.
    pub(crate) fn is_empty(&self) -> bool
        ensures { IsTrue result ↔ (octets_of self.now.text ≡ []) }
    {
        self.text.is_empty()
    }

    // Hands over the text that waits, in exchange for a text that is forgotten: none waits from then on.
    pub(crate) fn take(&mut self, hand: &mut LineText<MOST>)
        ensures taken { octets_of hand.new ≡ octets_of self.old.text }
        ensures none { octets_of self.new.text ≡ [] }
        ensures lost { self.new.lost ≡ self.old.lost }
    {
        hand.clear();
        mem::swap(&mut self.text, hand);
    }

    // How many lines were lost since this was last asked.
    pub(crate) fn take_lost(&mut self) -> u64
        ensures lost { result ≡ self.old.lost }
        ensures none { self.new.lost ≡ 0 }
        ensures text { self.new.text ≡ self.old.text }
    {
        mem::replace(&mut self.lost, 0)
    }
}
