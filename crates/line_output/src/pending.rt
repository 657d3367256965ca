//! A text in the writer's hand, and how far it is written.
ghost use Rattle.std.specs.Prelude.{◌≡◌, ◌+◌, ◌-◌, ◌≤◌, ◌<◌, ◌↔◌, ◌&&◌, ◌==◌, [], IsTrue, IfOk, length, take, drop, string_bytes, true, false};

use crate::text::LineText;
use crate::waiting::Waiting;
use std::alloc::{AllocError, Global};

/// How many octets are written at once, at most: 4,096, which a pipe that takes any takes whole.
pub const CHUNK_OCTETS: usize = 4096;

/// A text in the writer's hand, of at most so many octets, and how far it is written.
#[derive(Drop)]
pub(crate) struct Pending<const MOST: usize> {
    text: LineText<MOST>,
    // How many of its octets are written.
    written: usize,
    // Whether the output stands inside a line that was given up.
    is_cut_off: bool,
    ghost within: { written ≤ length (string_bytes text.text) },
}

impl<const MOST: usize> Pending<MOST> {
    ghost use Rattle.line_output.specs.Pending.{behind_cut, is_begun, is_inside_line, lines_in, rest_of, to_write};
    ghost use Rattle.line_output.specs.Waiting.{octets_of};

    // No text. Takes the memory of the most octets.
    pub(crate) fn reserved(alloc: Global) -> Result<Pending<MOST>, AllocError>
        ensures text { IfOk result (λ pending. octets_of pending.text ≡ []) }
        ensures start { IfOk result (λ pending. is_inside_line pending ≡ false) }
    {
        let text = LineText::reserved(alloc)?;
        Ok(Pending {
            text,
            written: 0,
            is_cut_off: false,
        })
    }

    // The octets that are not written yet.
    fn rest(&self) -> &[u8]
        ensures { result.now ≡ rest_of self.now }
    {
        &self.text.octets()[self.written..]
    }

    // Whether the output has taken all of it.
    pub(crate) fn is_done(&self) -> bool
        ensures { IsTrue result ↔ (to_write self.now ≡ []) }
    {
        self.rest().is_empty()
    }

    // What is to be written next: a front of what the output is still to take, of at most 4,096 octets,
    // and none only where it has taken all.
    pub(crate) fn chunk(&self) -> &[u8]
        ensures front { result.now ≡ take (length result.now) (to_write self.now) }
        ensures bounded { length result.now ≤ CHUNK_OCTETS }
        ensures none { (result.now ≡ []) ↔ (to_write self.now ≡ []) }
    {
        let rest = self.rest();
        if rest.is_empty() {
            rest
        } else if self.is_cut_off {
            b"\n"
        } else {
            &rest[..rest.len().min(CHUNK_OCTETS)]
        }
    }

    // The output took so many octets more: it stands inside a line that was given up only where it did, and took
    // none.
    pub(crate) fn wrote(&mut self, octets: usize)
        requires { octets ≤ length (to_write self.old) }
        ensures rest { to_write self.new ≡ drop octets (to_write self.old) }
        ensures cut_off { self.new.is_cut_off ≡ (self.old.is_cut_off && (octets == 0)) }
        ensures text { self.new.text ≡ self.old.text }
    {
        if self.is_cut_off && octets > 0 {
            self.is_cut_off = false;
            self.written += octets - 1;
        } else {
            self.written += octets;
        }
    }

    // Whether a line of the text is written in part.
    pub(crate) fn is_begun(&self) -> bool
        ensures { result ≡ is_begun self.now }
    {
        let written = &self.text.octets()[..self.written];
        written.last().is_some_and(|octet| *octet != b'\n')
    }

    // Gives up what is not written: how many lines of it were not written whole. What comes next begins
    // with a line feed exactly where the output stands inside a line.
    pub(crate) fn give_up(&mut self) -> u64
        ensures lost { result ≡ lines_in (rest_of self.old) }
        ensures none { octets_of self.new.text ≡ [] }
        ensures cut_off { self.new.is_cut_off ≡ is_inside_line self.old }
    {
        let lost = self.rest().iter().filter(|octet| **octet == b'\n').count();
        self.is_cut_off = self.is_cut_off || self.is_begun();
        self.written = 0;
        self.text.clear();
        lost as u64
    }

    // Takes the text that waits, once this one is written. The output stands where it stood, also where none waits.
    pub(crate) fn refill(&mut self, waiting: &mut Waiting<MOST>)
        requires { to_write self.old ≡ [] }
        ensures text { to_write self.new ≡ behind_cut (is_inside_line self.old) (octets_of waiting.old.text) }
        ensures cut_off { self.new.is_cut_off ≡ is_inside_line self.old }
        ensures start { self.new.written ≡ 0 }
        ensures none { octets_of waiting.new.text ≡ [] }
        ensures lost { waiting.new.lost ≡ waiting.old.lost }
    {
        self.is_cut_off = self.is_cut_off || self.is_begun();
        self.written = 0;
        waiting.take(&mut self.text);
    }

    // Takes a line in place of a text that is written, if the line is no longer than the most octets. The output
    // stands where it stood, also where the line is too long.
    pub(crate) fn restart(&mut self, line: &str) -> bool
        requires { to_write self.old ≡ [] }
        ensures fits { IsTrue result ↔ (length line.now ≤ MOST) }
        ensures text { IsTrue result → to_write self.new ≡ behind_cut (is_inside_line self.old) line.now }
        ensures none { result ≡ false → to_write self.new ≡ [] }
        ensures cut_off { self.new.is_cut_off ≡ is_inside_line self.old }
        ensures start { self.new.written ≡ 0 }
    {
        self.is_cut_off = self.is_cut_off || self.is_begun();
        self.written = 0;
        self.text.clear();
        self.text.add(line)
    }

    // Whether the output stands inside a line that was given up.
    pub(crate) fn is_cut_off(&self) -> bool
        ensures { result ≡ self.now.is_cut_off }
    {
        self.is_cut_off
    }

    // Where the output stands has changed, since another text is written to it too.
    pub(crate) fn set_cut_off(&mut self, is_cut_off: bool)
        ensures cut_off { self.new.is_cut_off ≡ is_cut_off }
        ensures text { self.new.text ≡ self.old.text }
        ensures written { self.new.written ≡ self.old.written }
    {
        self.is_cut_off = is_cut_off;
    }
}
