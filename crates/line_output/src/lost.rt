//! How many lines of the log were lost, and what was written of that.
ghost use Rattle.std.specs.Prelude.{◌≡◌, ◌+◌, ◌-◌, ◌^◌, min, if◌then◌else◌, ◌==◌};
ghost use Rattle.line_output.specs.Waiting.{lost_more};
ghost use Rattle.line_output.specs.Lost.{unwritten};

use std::mem;

/// How many lines of the log were lost that no line reports, and how many the line reports that the writer
/// holds; 0 where it holds no such line.
#[derive(Drop)]
pub(crate) struct LostLines {
    unreported: u64,
    reported: u64,
}

impl LostLines {
    // None.
    pub(crate) fn none() -> LostLines
        ensures unreported { result.unreported ≡ 0 }
        ensures reported { result.reported ≡ 0 }
    {
        LostLines {
            unreported: 0,
            reported: 0,
        }
    }

    // So many more are lost.
    pub(crate) fn add(&mut self, lines: u64)
        ensures unreported { self.new.unreported ≡ lost_more self.old.unreported lines }
        ensures reported { self.new.reported ≡ self.old.reported }
    {
        self.unreported = self.unreported.saturating_add(lines);
    }

    // How many no line reports.
    pub(crate) fn unreported(&self) -> u64
        ensures { result ≡ self.now.unreported }
    {
        self.unreported
    }

    // The writer holds a line that reports how many they are.
    pub(crate) fn report(&mut self)
        ensures unreported { self.new.unreported ≡ 0 }
        ensures reported { self.new.reported ≡ self.old.unreported }
    {
        self.reported = mem::replace(&mut self.unreported, 0);
    }

    // What the writer held is written.
    pub(crate) fn wrote(&mut self)
        ensures unreported { self.new.unreported ≡ self.old.unreported }
        ensures reported { self.new.reported ≡ 0 }
    {
        self.reported = 0;
    }

    // So many lines that the writer held are given up, of which the last one reports how many were lost, where
    // there is such a line.
    pub(crate) fn give_up(&mut self, lines: u64)
        ensures unreported { self.new.unreported ≡ lost_more self.old.unreported (unwritten lines self.old.reported) }
        ensures reported { self.new.reported ≡ 0 }
    {
        let reported = mem::replace(&mut self.reported, 0);
        let lost = if reported > 0 {
            lines.saturating_sub(1).saturating_add(reported)
        } else {
            lines
        };
        self.add(lost);
    }
}
