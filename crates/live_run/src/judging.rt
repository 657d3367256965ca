//! What a run is judged by: its receipts beside the history, and how its lines ended.
ghost use Rattle.std.specs.Prelude.{◌≡◌, IfOk, IfSome, MatchResult};
ghost use Rattle.live_run.specs.Crews.{entered_by};
ghost use Rattle.live_run.specs.Reports.{all_receipts, count_up_to_max, refused_by, Disagrees, IsReport, IsRunFault};
ghost use Rattle.live_run.specs.Agreeing.{IsAgreement};

use crate::collecting::{add_receipts, add_trace};
use crate::counting::{fault_in, refused_by};
use crate::lines::Runs;
use crate::report::{Report, RunFault};
use history_core::{Kept, Mismatch, Receipt, Tally};
use setphase_core::MibObject;
use std::alloc::{AllocError, Global};

// Copies of the receipts of a run, and how many of them are the workers'.
#[derive(Drop)]
struct Collected {
    receipts: Vec<Receipt>,
    requests: u64,
}

// What is counted of receipts that agree with the history.
#[derive(Clone, Copy, Drop)]
struct Agreement {
    entries: u64,
    requests: u64,
    older: u64,
}

// Copies of the receipts of a run.
fn collect(alloc: Global, runs: &Runs) -> Result<Collected, AllocError>
    ensures receipts { IfOk result (λ c. c.receipts.items ≡ all_receipts runs.now) }
    ensures requests { IfOk result (λ c. c.requests ≡ entered_by runs.now.workers.items) }
{
    let mut receipts = Vec::new(alloc);
    add_receipts(alloc, runs.workers.as_slice(), &mut receipts)?;
    let requests = receipts.len() as u64;
    add_receipts(alloc, runs.ports.as_slice(), &mut receipts)?;
    add_trace(alloc, runs.ticker.trace.as_slice(), &mut receipts)?;
    Ok(Collected { receipts, requests })
}

// Compares the receipts of a run with the history. None where there is no memory for it.
fn agreement_of<O: MibObject>(
    alloc: Global,
    kept: &Kept<O>,
    runs: &Runs,
) -> Result<Option<Agreement>, Mismatch>
    ensures { MatchResult result
        (λ found. IfSome found (IsAgreement kept.now runs.now))
        (λ mismatch. Disagrees kept.now (all_receipts runs.now) mismatch.0) }
{
    let Ok(
        Collected {
            mut receipts,
            requests,
        },
    ) = collect(alloc, runs)
    else {
        return Ok(None);
    };
    let Ok(()) = receipts.sort_by_key(|receipt| receipt.number) else {
        return Ok(None);
    };
    let entries = receipts.len() as u64;
    match kept.compare(receipts.as_slice()) {
        Ok(Tally { older, .. }) => Ok(Some(Agreement {
            entries,
            requests,
            older,
        })),
        Err(mismatch) => Err(mismatch),
    }
}

// The report of a run that is sound.
fn report_of(agreement: Agreement, runs: Runs) -> Report
    ensures entries { result.entries ≡ agreement.entries }
    ensures requests { result.requests ≡ agreement.requests }
    ensures older { result.older ≡ agreement.older }
    ensures drops { result.drops ≡ count_up_to_max (refused_by runs.workers.items) }
    ensures runs { result.runs ≡ runs }
{
    let drops = refused_by(runs.workers.as_slice());
    Report {
        entries: agreement.entries,
        requests: agreement.requests,
        older: agreement.older,
        drops,
        runs,
    }
}

/// The report of a run, or why it has none.
pub fn judge<O: MibObject>(alloc: Global, kept: &Kept<O>, runs: Runs) -> Result<Report, RunFault>
    ensures { MatchResult result (IsReport kept.now runs) (IsRunFault kept.now runs) }
{
    match agreement_of(alloc, kept, &runs) {
        Err(mismatch) => Err(RunFault::Mismatch(mismatch.0)),
        Ok(agreement) => match fault_in(&runs) {
            Some(fault) => Err(fault),
            None => match agreement {
                Some(agreement) => Ok(report_of(agreement, runs)),
                None => Err(RunFault::Memory),
            },
        },
    }
}
