//! A gate that keeps the lines of its requests in memory.
ghost use Rattle.std.specs.Prelude.{◌≡◌, ◌++◌, [], Some, string_bytes, option_map, IfOk};
ghost use Rattle.live_audit.specs.AuditLines.{request_line};
ghost use Rattle.live_audit.specs.Records.{HasLine};

use crate::line::audited_line;
use audit_core::Audit;
use live_agent::{AnsweredRequest, Gate};
use std::alloc::{AllocError, Global};
use std::marker::Model;
use std::sync::Wait;

/// A gate that keeps the lines of its requests in memory, in order; seen as these lines, or nothing
/// once there was no memory for one: from then on it keeps none.
#[derive(Drop)]
pub struct RecordedAudits {
    alloc: Global,
    lines: Option<String>,
}

impl Model for RecordedAudits {
    ghost use Rattle.std.specs.Prelude.{ℕ, List, Option, option_map, string_bytes};

    ghost Value = { Option (List ℕ) };

    ghost view = { λ r. option_map string_bytes r.lines };
}

impl RecordedAudits {
    /// No lines yet. Takes no memory.
    pub fn new(alloc: Global) -> RecordedAudits
        ensures { result ≡ Some [] }
    {
        RecordedAudits {
            alloc,
            lines: Some(String::new(alloc)),
        }
    }

    /// The lines, or nothing where there was no memory for one.
    pub fn lines(&self) -> Option<&str>
        ensures { option_map (λ lines. lines.now) result ≡ self.now }
    {
        match &self.lines {
            Some(lines) => Some(lines.as_str()),
            None => None,
        }
    }
}

// Lines with that of a request behind them, if there is memory for it.
fn with_line(
    alloc: Global,
    lines: String,
    request: AnsweredRequest,
    audit: &Audit,
) -> Result<String, AllocError>
    ensures { IfOk result (λ more. string_bytes more
        ≡ string_bytes lines ++ request_line request audit.now) }
{
    let mut lines = lines;
    let line = audited_line(alloc, request, audit)?;
    lines.push_str(&line)?;
    Ok(lines)
}

// Lines with that of a request behind them; none where there were none, or there is no memory for it.
fn more_lines(
    alloc: Global,
    lines: Option<String>,
    request: AnsweredRequest,
    audit: &Audit,
) -> Option<String>
    ensures { HasLine request audit.now (option_map string_bytes lines) (option_map string_bytes result) }
{
    match lines {
        Some(lines) => with_line(alloc, lines, request, audit).ok(),
        None => None,
    }
}

impl Gate for RecordedAudits {
    ghost use Rattle.live_audit.specs.Records.{GoesRecorded};
    ghost use Rattle.live_audit.specs.RecordLaws.{starts, goes_on};

    ghost went = { GoesRecorded };

    ghost starts = { starts };

    ghost goes_on = { goes_on };

    #[tactic(auto, using(crate::proofs::Recorded::unvisited))]
    fn before<R: Wait>(&mut self, _rt: &R, _worker: usize) {}

    fn after<R: Wait>(&mut self, _rt: &R, _worker: usize, request: AnsweredRequest, audit: &Audit) {
        self.lines = more_lines(self.alloc, self.lines.take(), request, audit);
    }
}
