//! An upgrade of a store from format 1 to format 2, and its crash.
ghost use Rattle.std.specs.Prelude.{◌≤◌, IfOk, IfErr};
ghost use Rattle.oa_disk.specs.promise.Memory.{memory_contents, moments_of};
ghost use Rattle.oa_journal.specs.promise.Bank.{least_bank_bytes, most_bank_bytes};
ghost use Rattle.oa_decision.specs.promise.States.{State};
ghost use Rattle.oa_history.specs.Between.{IsStoppedUpgrading};
ghost use Rattle.oa_history.specs.Kept.{CanBecome, IsRecoverable, IsUnbrought};
ghost use Rattle.oa_history.specs.promise.CrashHistories.{IsFreshDisk};

use crate::{HistoryFault, Stop};
use oa_disk::MemoryDisk;
use oa_printer::laws::marked_is_read;
use oa_store::laws::what_can_be_brought_is_not_refused;
use oa_store::upgrade;
use std::alloc::Global;

/// Upgrades the store of format 1 on the disk to format 2 with bodies of `bank` bytes, and crashes
/// at `stop`. Returns the disk at the end, and the disk that the crash has left. That is the same
/// store in the old format or the new one; at the end in the new one. A server may begin with it if
/// it could with a state of such banks. Errors: `Upgrade` if the store was not upgraded; `Memory`.
pub fn upgraded(
    alloc: Global,
    disk: MemoryDisk,
    bank: u32,
    stop: Stop,
) -> Result<(MemoryDisk, MemoryDisk), HistoryFault>
    requires fresh { IsFreshDisk disk }
    requires least { least_bank_bytes ≤ bank }
    requires most { bank ≤ most_bank_bytes }
    ensures settled { IfOk result (λ r. IsFreshDisk r.1) }
    ensures upgraded { IfOk result (λ r. IsStoppedUpgrading (memory_contents disk) bank stop r.0 (memory_contents r.1)) }
    ensures kept { IfOk result (λ r. moments_of r.0 ≤ stop.moment → (state : State) → CanBecome bank (memory_contents disk) state
        → IsRecoverable r.1 state) }
    ensures wanting { IfErr result (λ fault. (state : State) → CanBecome bank (memory_contents disk) state
        → IsUnbrought bank disk.first.size fault) }
{
    marked_is_read();
    what_can_be_brought_is_not_refused();
    let mut disk = disk;
    if let Err(fault) = upgrade(alloc, &mut disk, bank) {
        return Err(HistoryFault::Upgrade(fault));
    }
    let left = disk.crash(stop.moment.min(disk.moments()), stop.tear)?;
    Ok((disk, left))
}
