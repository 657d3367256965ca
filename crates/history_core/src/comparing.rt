//! Receipts beside the entries that are kept.
ghost use Rattle.std.specs.Prelude.{◌≡◌, ◌↔◌, ◌≤◌, IsTrue, MatchResult};
ghost use Rattle.history_core.specs.Receipts.{IsReceiptOf, Stands, Fits};
ghost use Rattle.history_core.specs.Comparing.{least_after, age_of, IsTallied, BreaksFirst};

use crate::entry::Entry;
use crate::receipt::{Receipt, same_reply};

/// How many receipts agree with what is kept.
#[derive(Clone, Copy, Debug, PartialEq, Eq, Drop)]
pub struct Tally {
    /// The receipts of entries that are kept.
    pub stood: u64,
    /// The receipts with numbers below the first entry that is kept.
    pub older: u64,
}

/// The number of the first receipt that is not above the one before it, or that is neither older
/// than the entries that are kept nor the receipt of the one of its number.
#[derive(Clone, Copy, Debug, PartialEq, Eq, Drop)]
pub struct Mismatch(pub u64);

// Whether a receipt is that of an entry, whatever the number.
fn is_receipt_of(entry: &Entry, receipt: &Receipt) -> bool
    ensures { IsTrue result ↔ IsReceiptOf entry.now receipt.now }
{
    entry.event.is_reported_by(&receipt.event)
        && entry.egress.same(&receipt.egress)
        && same_reply(&entry.reply, &receipt.reply)
}

// Whether a receipt is older than the entries, or stands among them.
fn fits(base_number: u64, entries: &[Entry], receipt: &Receipt) -> bool
    ensures { IsTrue result ↔ Fits base_number entries.now receipt.now }
{
    if receipt.number < base_number {
        return true;
    }
    let at = receipt.number - base_number;
    if at >= entries.len() as u64 {
        return false;
    }
    is_receipt_of(&entries[at as usize], receipt)
}

// 1 where a receipt is older than the entries.
fn age(base_number: u64, receipt: &Receipt) -> u64
    ensures { result ≡ age_of base_number receipt.now }
{
    if receipt.number < base_number { 1 } else { 0 }
}

// Whether a number is above the one before it, where there is one.
fn is_above(before: Option<u64>, number: u64) -> bool
    ensures { IsTrue result ↔ (least_after before ≤ number) }
{
    match before {
        Some(before) => before < number,
        None => true,
    }
}

/// Compares receipts, by rising number, with entries, the first of which has this number: over a
/// history [`crate::Kept::compare`] takes its own. Takes no memory.
///
/// # Errors
///
/// The number of the first receipt that is not above the one before it, or that is neither older
/// than the entries nor that of the one of its number in event, egress and reply.
pub fn compare(base_number: u64, entries: &[Entry], receipts: &[Receipt]) -> Result<Tally, Mismatch>
    ensures { MatchResult result
        (IsTallied base_number entries.now receipts.now)
        (BreaksFirst base_number entries.now receipts.now) }
{
    let mut older = 0;
    let mut before = None;
    for receipt in receipts {
        if !is_above(before, receipt.number) {
            return Err(Mismatch(receipt.number));
        }
        if !fits(base_number, entries, receipt) {
            return Err(Mismatch(receipt.number));
        }
        older += age(base_number, receipt);
        before = Some(receipt.number);
    }
    let stood = receipts.len() as u64 - older;
    Ok(Tally { stood, older })
}
