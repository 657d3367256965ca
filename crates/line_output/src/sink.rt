//! A log whose lines go by the queue.
ghost use Rattle.std.specs.Prelude.{Some, []};
ghost use Rattle.log.specs.declared.level.LevelFilter.TheVariants.{Info};
ghost use Rattle.log.specs.Level.{allows};

use crate::queue::LineQueue;
use log::kv::Source;
use log::span::Spans;
use log::{LevelFilter, Line, Log, Metadata, Record};
use std::alloc::{AllocError, Global};
use std::fmt::Display;
use std::sync::Wait;

/// A log of the levels Info, Warn and Error, which offers the line of each record to a queue: the text is
/// that which the runtime writes, as `[INFO  target] message`. A line for which there is no memory is lost,
/// and counted.
#[derive(Drop)]
pub struct QueuedLog<'q, R> {
    rt: &'q R,
    alloc: Global,
    queue: &'q LineQueue,
}

impl<'q, R: Wait> QueuedLog<'q, R> {
    /// A log whose lines go by this queue.
    pub fn new(rt: &'q R, alloc: Global, queue: &'q LineQueue) -> QueuedLog<'q, R> {
        QueuedLog { rt, alloc, queue }
    }
}

// The line of a record, with a line feed.
fn record_line<D: Display, K: Source, S: Spans>(
    alloc: Global,
    record: &Record<'_, D, K, S>,
) -> Result<String, AllocError> {
    let mut line = String::format(alloc, Line::new(record))?;
    line.push('\n')?;
    Ok(line)
}

impl<R: Wait> Log for QueuedLog<'_, R> {
    ghost enables = { λ _ level _. Some (allows Info level) };

    ghost target_of = { λ _. Some [] };

    fn enabled(&self, metadata: &Metadata<'_>) -> bool {
        LevelFilter::Info.allows(metadata.level())
    }

    fn log<D: Display, K: Source, S: Spans>(&self, record: &Record<'_, D, K, S>) {
        if !LevelFilter::Info.allows(record.level()) {
            return;
        }
        match record_line(self.alloc, record) {
            Ok(line) => self.queue.offer_log(self.rt, &line),
            Err(AllocError) => self.queue.lose_log(self.rt, 1),
        }
    }

    fn flush(&self) {}

    fn target(&self) -> &str {
        ""
    }
}
