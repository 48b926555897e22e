//! Committing the events of a batch to a store.
ghost use Rattle.std.specs.Prelude.{◌≡◌, ◌⊎◌, ◌+◌, ◌*◌, ◌≤◌, IsTrue, [], length, vec_capacity};
ghost use Rattle.oa_journal.specs.Append.{group_of};
ghost use Rattle.oa_journal.specs.promise.Bank.{ample_bytes, body_bytes};
ghost use Rattle.oa_store.specs.Holding.{CallsForGroup, CanBeKept, IsOpenFor, MakesRoom, StopsWhereRefused};
ghost use Rattle.oa_store.specs.promise.Holding.{CommitsAtomically, PreservesCommitted};
ghost use Rattle.oa_store.specs.promise.Stores.{checkpoint_calls};
ghost use Rattle.oa_store.specs.promise.Writing.{DeviceFrame};
ghost use Rattle.oa_table.specs.promise.Tables.{unlocked_table};

use crate::{DeviceFailed, EventBatch, Store};
use oa_disk::Disk;
use oa_table::Table;

/// Checkpoints the store if one is due and the batch is empty, so that the next group fits;
/// otherwise does nothing. Images are stores of the same table at every point in time. Allocates
/// nothing. Err: a call of the device failed, and the store has stopped.
pub fn checkpoint_if_due<D: Disk>(
    store: &mut Store<D>,
    table: &Table,
    batch: &EventBatch,
) -> Result<(), DeviceFailed>
    requires open { IsOpenFor batch.now store.old }
    requires kept { CanBeKept (body_bytes store.old.bank.shape) table.now }

    // (whichever table the images are stores of: it is the one in memory while the batch has no
    // event)
    ensures carries { PreservesCommitted batch.now (unlocked_table table.now) store.old store.new }
    ensures room { MakesRoom batch.now store.old store.new result }
    ensures stops { StopsWhereRefused store.old store.new result }
    ensures goes { DeviceFrame store.old store.new }
    // (at most one checkpoint)
    ensures calls { IsTrue (D.is_honest store.old.disk)
        → D.moment store.new.disk ≤ D.moment store.old.disk + 2 * checkpoint_calls store.old.library.items table.now }
{
    if !batch.is_empty() {
        return Ok(());
    }
    if !store.checkpoint_due() {
        return Ok(());
    }
    store.checkpoint(table).map_err(|_| DeviceFailed)
}

/// Commits the batch as one group, with two writes and two syncs, and empties it; an empty batch
/// makes no call of the device. The batch keeps its memory. Allocates nothing. Err: a call failed,
/// and the store has stopped.
pub fn commit<D: Disk>(store: &mut Store<D>, batch: &mut EventBatch) -> Result<(), DeviceFailed>
    requires open { IsOpenFor batch.old store.old }
    requires few { length batch.old + 6 ≤ ample_bytes }

    ensures commits { CommitsAtomically batch.old store.old store.new }
    ensures calls { CallsForGroup batch.old store.old store.new result }
    ensures emptied { batch.new ≡ [] }
    ensures stops { StopsWhereRefused store.old store.new result }
    ensures goes { DeviceFrame store.old store.new }
{
    commit_bytes(store, &mut batch.bytes)
}

/// Commits the events in `bytes` as one group, and empties it; an empty batch makes no call. Err: a
/// call of the device failed.
fn commit_bytes<D: Disk>(store: &mut Store<D>, bytes: &mut Vec<u8>) -> Result<(), DeviceFailed>
    requires open { IsOpenFor (group_of bytes.old.items) store.old }
    requires len { (length bytes.old.items ≡ 0) ⊎ (5 ≤ length bytes.old.items) }
    requires few { length bytes.old.items + 1 ≤ ample_bytes }
    ensures commits { CommitsAtomically (group_of bytes.old.items) store.old store.new }
    ensures calls { CallsForGroup (group_of bytes.old.items) store.old store.new result }
    ensures emptied { bytes.new.items ≡ [] }
    // (the batch keeps its capacity)
    ensures places { vec_capacity bytes.new ≡ vec_capacity bytes.old }
    ensures stops { StopsWhereRefused store.old store.new result }
    ensures goes { DeviceFrame store.old store.new }
{
    if bytes.len() <= 5 {
        bytes.clear();
        return Ok(());
    }
    match store.commit(bytes) {
        Ok(()) => bytes.clear(),
        Err(_) => {
            bytes.clear();
            return Err(DeviceFailed);
        }
    }
    Ok(())
}
