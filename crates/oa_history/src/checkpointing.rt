//! A checkpoint between two sessions, and its crash.
ghost use Rattle.std.specs.Prelude.{◌≡◌, false, IfOk, IfErr};
ghost use Rattle.oa_disk.specs.promise.Memory.{memory_contents};
ghost use Rattle.oa_journal.specs.promise.Bank.{body_bytes};
ghost use Rattle.oa_image.specs.promise.Tables.{FitsBank};
ghost use Rattle.oa_decision.specs.promise.States.{State};
ghost use Rattle.oa_history.specs.Kept.{IsRecoverable, IsWanting};
ghost use Rattle.oa_history.specs.promise.CrashHistories.{IsFreshDisk, IsCheckpointed};
ghost use Rattle.oa_history.specs.Between.{IsFoundStore};

use crate::reopening::library_on;
use crate::{HistoryFault, Stop};
use oa_disk::MemoryDisk;
use oa_image::fits_bank;
use oa_store::{OpenFault, Store};
use oa_table::Table;
use std::alloc::Global;

/// Opens the store on the disk with its own library. Errors: as of a server's opening, also
/// `Damaged(0)` if its table leaves too little of a bank free; `Text`; `Memory`.
fn opened_store(alloc: Global, disk: MemoryDisk) -> Result<(Store<MemoryDisk>, Table), HistoryFault>
    ensures opened { IfOk result (λ r. IsFoundStore disk r.0 r.1) }
    ensures goes_on { IfOk result (λ r. r.0.stopped ≡ false) }
    ensures room { IfOk result (λ r. FitsBank (body_bytes r.0.bank.shape) r.1) }
    ensures wanting { IfErr result (λ fault. (state : State) → IsRecoverable disk state → IsWanting fault) }
{
    let library = library_on(alloc, &disk)?;
    library.is_checked();
    let (store, table) = match Store::open(alloc, disk, library.text()) {
        Ok(found) => found,
        Err((_, fault)) => return Err(HistoryFault::Open(fault)),
    };
    if !fits_bank(store.bank_size(), &table) {
        return Err(HistoryFault::Open(OpenFault::Damaged(0)));
    }
    Ok((store, table))
}

/// Opens the store on the disk with its own library, makes a checkpoint of its table, and crashes
/// at `stop`. Returns the disk at the end, and the disk that the crash has left. Errors: `Open`,
/// `Text` and `Checkpoint` if an allocation or a call of the disk failed; `Memory`.
pub fn checkpointed(
    alloc: Global,
    disk: MemoryDisk,
    stop: Stop,
) -> Result<(MemoryDisk, MemoryDisk), HistoryFault>
    requires { IsFreshDisk disk }
    ensures settled { IfOk result (λ r. IsFreshDisk r.1) }
    ensures checkpointed { IfOk result (λ r. (state : State) → IsRecoverable disk state
        → IsCheckpointed (memory_contents disk) stop r.0 (memory_contents r.1) state × IsRecoverable r.1 state) }
    ensures wanting { IfErr result (λ fault. (state : State) → IsRecoverable disk state → IsWanting fault) }
{
    let (mut store, table) = opened_store(alloc, disk)?;
    if let Err(fault) = store.checkpoint(&table) {
        return Err(HistoryFault::Checkpoint(fault));
    }
    let disk = store.into_disk();
    let left = disk.crash(stop.moment.min(disk.moments()), stop.tear)?;
    Ok((disk, left))
}
