//! Upgrading a store from format 1 to format 2.
ghost use Rattle.std.specs.Prelude.{◌≡◌, ◌+◌, ◌-◌, ◌<◌, ◌≤◌, ℕ, IsTrue, true, length, OnOk, IfOk, IfErr};
ghost use Rattle.oa_disk.specs.After.{AfterCalls, AfterWrites, Leaves};
ghost use Rattle.oa_disk.specs.Disk.{LeavesStep};
ghost use Rattle.oa_image.specs.promise.Tables.{FitsBank, is_numbered};
ghost use Rattle.oa_model.specs.promise.Limits.{max_library_bytes};
ghost use Rattle.oa_journal.specs.promise.Bank.{WritesNothing, disk_bytes, least_bank_bytes, most_bank_bytes};
ghost use Rattle.oa_journal.specs.declared.shape.BankFormat.TheVariants.{Two};
ghost use Rattle.oa_store.specs.declared.fault.UpgradeFault.{UpgradeFault};
ghost use Rattle.oa_store.specs.promise.Stores.{checkpoint_calls, piece_bytes, IsStoreIn};
ghost use Rattle.oa_store.specs.promise.Changes.{IsUpgrade};
ghost use Rattle.oa_store.specs.promise.Faults.{IsMigrated};
ghost use Rattle.oa_store.specs.Making.{CallsForUpgrade, FindsFormatOne, RefusesReading, RefusesSmall, RefusesUpgrade};

use crate::UpgradeFault;
use crate::head::{buffer, find_head};
use crate::reading::look;
use crate::switching::switch_to;
use oa_disk::{DeviceFault, Disk};
use oa_image::fits_bank;
use oa_journal::BankFormat;
use oa_model::MAX_LIBRARY_BYTES;
use oa_table::Table;
use std::alloc::Global;

/// A store of format 1 that was found on a disk: its library, its table, and the size in bytes of
/// the bodies to which it is to be upgraded.
#[derive(Drop)]
pub struct OldStore {
    size: u32,
    /// The number of the bank in use, 0 or 1.
    chosen: u8,
    library: Vec<u8>,
    table: Table,
    /// The buffer from which the new bank is written.
    buffer: Vec<u8>,
    ghost least: { least_bank_bytes ≤ size },
    ghost two: { chosen < 2 },
    ghost short: { length library.items ≤ max_library_bytes },
    ghost fits: { FitsBank size table },
    ghost numbered: { is_numbered table ≡ true },
    ghost whole: { length buffer.items ≡ piece_bytes },
}

impl OldStore {
    ghost use Rattle.oa_store.specs.Bringing.{FindsOld, HoldsOld};

    /// Reads the store of format 1 on the disk. It writes nothing, and begins with a sync. Errors
    /// are those of `upgrade` except `TooSmall`. `Damaged(0)`: the library is longer than a server
    /// accepts, or the table does not fit into a body of `size` bytes.
    pub fn find_old_store<D: Disk>(
        alloc: Global,
        disk: &mut D,
        size: u32,
    ) -> Result<OldStore, UpgradeFault>
        requires { least_bank_bytes ≤ size }
        ensures found { IfOk result (FindsOld D.Disk size disk.old disk.new) }
        ensures refused { IfErr result (λ e. RefusesReading D.Disk size disk.old disk.new e) }
        ensures reads { IsTrue (D.is_honest disk.new) → WritesNothing D.image D.moment D.image_since disk.old disk.new }
        ensures after { AfterCalls D.Disk disk.old disk.new result }
    {
        let (chosen, library, table, buffer) = find_old(alloc, disk)?;
        if library.len() > MAX_LIBRARY_BYTES {
            return Err(UpgradeFault::Damaged(0));
        }
        if !fits_bank(size, &table) {
            return Err(UpgradeFault::Damaged(0));
        }
        Ok(OldStore {
            size,
            chosen,
            library,
            table,
            buffer,
        })
    }

    /// Upgrades the store on a disk that holds it: the disk on which it was found, or a longer one.
    /// Library and table are written to the bank that is not in use, and the selector then names
    /// that bank. Reads and allocates nothing. Err: a write or a sync failed; no call follows it.
    pub fn migrate<D: Disk>(self, disk: &mut D) -> Result<(), DeviceFault>
        requires most { self.size ≤ most_bank_bytes }
        requires room { disk_bytes (Two self.size) ≤ D.size_of disk.old }
        requires held { IsTrue (D.is_honest disk.old) → HoldsOld D.Disk self disk.old }
        // (a crash at any point in time leaves the same library and table, in the old format or the
        // new one, and at `Ok` only in the new one)
        ensures leaves { Leaves D.Disk (IsUpgrade self.size) (λ d c. IsStoreIn (Two self.size) c self.library.items self.table)
            disk.old disk.new result }
        ensures after { AfterWrites D.Disk (checkpoint_calls self.library.items self.table) disk.old disk.new result }
    {
        let OldStore {
            size,
            chosen,
            library,
            table,
            mut buffer,
        } = self;
        switch_to(disk, &mut buffer, chosen, size, &library, &table)?;
        Ok(())
    }
}

/// Reads the store of format 1 on the disk: the number of the bank in use, the library and the
/// table. It also returns a buffer for writing. It writes nothing, and begins with a sync. Errors:
/// `AlreadyNew`, `NotAStore`, `Damaged`, `Memory`, `Device`.
fn find_old<D: Disk>(
    alloc: Global,
    disk: &mut D,
) -> Result<(u8, Vec<u8>, Table, Vec<u8>), UpgradeFault>
    ensures found { IfOk result (λ r. FindsFormatOne D.Disk r.0 r.1.items r.2 r.3.items disk.old disk.new) }
    // (for bodies of any size)
    ensures refused { IfErr result (λ e. (size : ℕ) → RefusesReading D.Disk size disk.old disk.new e) }
    ensures reads { IsTrue (D.is_honest disk.new) → WritesNothing D.image D.moment D.image_since disk.old disk.new }
    ensures after { AfterCalls D.Disk disk.old disk.new result }
    ensures most { IsTrue (D.is_honest disk.new) → D.moment disk.new ≤ D.moment disk.old + (20 + D.size_of disk.old) }
{
    let (chosen, head) = find_head(disk)?;
    if let BankFormat::Two(_) = head.shape {
        return Err(UpgradeFault::AlreadyNew);
    }
    let Ok(buffer) = buffer(alloc) else {
        return Err(UpgradeFault::Memory);
    };
    let (library, table, _, buffer) = look(alloc, disk, chosen, head.shape, buffer)?;
    Ok((chosen, library, table, buffer))
}

/// Upgrades a store of format 1 to format 2 with bodies of `size` bytes. Library and table are
/// written to the bank that is not in use, and the selector then names that bank. It begins with a
/// sync.
///
/// Errors: `TooSmall` before the first call of the disk; `NotAStore`, `AlreadyNew`, `Damaged` and
/// `Memory` before the first write; `Device`.
pub fn upgrade<D: Disk>(alloc: Global, disk: &mut D, size: u32) -> Result<(), UpgradeFault>
    requires least { least_bank_bytes ≤ size }
    requires most { size ≤ most_bank_bytes }

    // (a crash at any point in time leaves the same library and table, in the old format or the new
    // one)
    ensures any_moment { IsTrue (D.is_honest disk.new)
        → LeavesStep D.moment D.image_since D.image disk.old disk.new (IsUpgrade size) }
    // (and at `Ok` only in the new one, with the old contents, none of them larger than a server
    // accepts)
    ensures done { OnOk result (IsTrue (D.is_honest disk.new) → IsMigrated size (D.contents disk.old) (D.image disk.new)) }
    ensures small { RefusesSmall D.Disk UpgradeFault.TooSmall size disk.old disk.new result }
    ensures refused { IfErr result (λ e. RefusesUpgrade D.Disk size disk.old disk.new e) }
    ensures calls { OnOk result (IsTrue (D.is_honest disk.new) → CallsForUpgrade D.Disk disk.old disk.new) }
    ensures after { AfterCalls D.Disk disk.old disk.new result }
{
    if disk.size() < BankFormat::Two(size).disk_bytes() {
        return Err(UpgradeFault::TooSmall);
    }
    let old = OldStore::find_old_store(alloc, disk, size)?;
    old.migrate(disk).map_err(UpgradeFault::Device)?;
    Ok(())
}
