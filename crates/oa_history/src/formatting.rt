//! A new store whose formatting crashes.
ghost use Rattle.std.specs.Prelude.{◌≤◌, IfOk, IfErr};
ghost use Rattle.oa_disk.specs.promise.Memory.{memory_contents, moments_of};
ghost use Rattle.oa_journal.specs.promise.Bank.{least_bank_bytes, most_bank_bytes};
ghost use Rattle.oa_decision.specs.promise.States.{state_of};
ghost use Rattle.oa_table.specs.Tables.{first_table};
ghost use Rattle.oa_history.specs.Between.{IsStoppedFormatting};
ghost use Rattle.oa_history.specs.Kept.{IsRecoverable, IsUnmade};
ghost use Rattle.oa_history.specs.promise.CrashHistories.{IsFreshDisk};

use crate::HistoryFault;
use oa_disk::{MemoryDisk, Tear};
use oa_server::laws::what_was_served_is_served_again;
use oa_store::format;
use oa_typelib::Library;
use std::alloc::Global;

/// Formats the disk with `library` and bodies of `bank` bytes, and crashes at the point in time
/// `moment`. Returns the disk at the end, and the disk that the crash has left. That has the old
/// contents except for the first byte, or no store, or the new store; at the end the new store.
/// Errors: `Format` if the disk was not formatted; `Memory`.
pub fn formatted(
    alloc: Global,
    disk: MemoryDisk,
    library: &Library,
    bank: u32,
    moment: u64,
    tear: Tear,
) -> Result<(MemoryDisk, MemoryDisk), HistoryFault>
    requires fresh { IsFreshDisk disk }
    requires least { least_bank_bytes ≤ bank }
    requires most { bank ≤ most_bank_bytes }
    ensures settled { IfOk result (λ r. IsFreshDisk r.1) }
    ensures formatted { IfOk result (λ r. IsStoppedFormatting (memory_contents disk) library.now bank moment tear r.0 (memory_contents r.1)) }
    ensures kept { IfOk result (λ r. moments_of r.0 ≤ moment → IsRecoverable r.1 (state_of bank library.now first_table)) }
    ensures wanting { IfErr result (IsUnmade bank disk.first.size) }
{
    library.is_checked();
    what_was_served_is_served_again();
    let mut disk = disk;
    if let Err(fault) = format(alloc, &mut disk, library.text(), bank) {
        return Err(HistoryFault::Format(fault));
    }
    let left = disk.crash(moment.min(disk.moments()), tear)?;
    Ok((disk, left))
}
