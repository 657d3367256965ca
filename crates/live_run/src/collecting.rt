//! The receipts of the traces of a run.
ghost use Rattle.std.specs.Prelude.{◌≡◌, ◌++◌, IfOk, OnOk};
ghost use Rattle.live_run.specs.Reports.{receipts_of, receipts_in};

use history_core::Receipt;
use live_agent::{Item, Ran};
use std::alloc::{AllocError, Global};

/// Adds copies of the receipts of these lines.
pub fn add_receipts(
    alloc: Global,
    runs: &[Ran],
    receipts: &mut Vec<Receipt>,
) -> Result<(), AllocError>
    ensures { OnOk result (receipts.new.items ≡ receipts.old.items ++ receipts_in runs.now) }
{
    for ran in runs {
        add_trace(alloc, ran.trace.as_slice(), receipts)?;
    }
    Ok(())
}

/// Adds copies of the receipts of one trace.
pub fn add_trace(
    alloc: Global,
    items: &[Item],
    receipts: &mut Vec<Receipt>,
) -> Result<(), AllocError>
    ensures { OnOk result (receipts.new.items ≡ receipts.old.items ++ receipts_of items.now) }
{
    for item in items {
        let Item::Entered(receipt) = item else {
            continue;
        };
        let copy = receipt.try_copy(alloc)?;
        receipts.push(copy)?;
    }
    Ok(())
}
