//! Making a store.
ghost use Rattle.std.specs.Prelude.{◌≡◌, ◌≢◌, ◌⊎◌, ◌+◌, ◌-◌, ◌<◌, ◌≤◌, List, ℕ, true, IsTrue, length, slice_index, OnOk};
ghost use Rattle.std.specs.Prelude.{IsErrOf};
ghost use Rattle.std.specs.Int.{div_ceil};
ghost use Rattle.oa_disk.specs.After.{AfterAttempt, AfterWrites};
ghost use Rattle.oa_disk.specs.promise.Disk.{CrashInvariant, Torn};
ghost use Rattle.oa_disk.specs.Disk.{LeavesStep};
ghost use Rattle.oa_model.specs.promise.Limits.{max_library_bytes};
ghost use Rattle.oa_table.specs.Tables.{first_table};
ghost use Rattle.oa_table.specs.promise.Tables.{unlocked_table};
ghost use Rattle.oa_image.specs.promise.Tables.{is_numbered};
ghost use Rattle.oa_store.specs.declared.fault.FormatFault.{FormatFault};
ghost use Rattle.oa_journal.specs.declared.shape.BankFormat.TheVariants.{Two};
ghost use Rattle.oa_journal.specs.promise.Bank.{disk_bytes, least_bank_bytes, most_bank_bytes, first_gate};
ghost use Rattle.oa_store.specs.promise.Stores.{IsStoreAt};
ghost use Rattle.oa_store.specs.Calls.{format_calls};
ghost use Rattle.oa_store.specs.Changes.{IsFormatting, HasBank};
ghost use Rattle.oa_store.specs.Making.{RefusesSmall};

use crate::FormatFault;
use crate::head::{SELECTOR, buffer};
use crate::reading::bank_of;
use oa_disk::{DeviceFault, Disk, flip};
use oa_journal::BankFormat;
use oa_table::Table;
use std::alloc::Global;

/// Sets the first byte to 0, and syncs: the disk is no store. Err: a call of the device failed.
fn close<D: Disk>(disk: &mut D) -> Result<(), DeviceFault>
    requires { 0 < D.size_of disk.old }
    ensures any_moment { IsTrue (D.is_honest disk.old)
        → LeavesStep D.moment D.image_since D.image disk.old disk.new (Torn 0 1) }
    ensures done { OnOk result (IsTrue (D.is_honest disk.old) → (c : List ℕ) → D.image disk.new c → slice_index c 0 ≡ 0) }
    ensures after { AfterWrites D.Disk 2 disk.old disk.new result }
{
    disk.write_at(0, &[0])?;
    disk.sync()
}

/// Writes a bank of `size` bytes and the selector, syncs, and then sets the first byte to 1. Until
/// then the byte is not 1 in any image. Err: a call of the device failed.
fn fill<D: Disk>(
    disk: &mut D,
    buffer: &mut [u8],
    library: &[u8],
    table: &Table,
    size: u32,
) -> Result<(), DeviceFault>
    requires some { 0 < length buffer.old }
    requires least { least_bank_bytes ≤ size }
    requires most { size ≤ most_bank_bytes }
    requires big { disk_bytes (Two size) ≤ D.size_of disk.old }
    requires fits { first_gate library.now table.now < size }
    requires numbered { is_numbered table.now ≡ true }
    ensures any_moment { IsTrue (D.is_honest disk.old) → ((c : List ℕ) → D.image disk.old c → slice_index c 0 ≡ 0)
        → CrashInvariant D.moment D.image_since disk.old disk.new (λ c. (slice_index c 0 ≢ 1)
        ⊎ HasBank size library.now (unlocked_table table.now) (first_gate library.now table.now) c) }
    ensures done { OnOk result (IsTrue (D.is_honest disk.old) → (c : List ℕ) → D.image disk.new c
        → HasBank size library.now (unlocked_table table.now) (first_gate library.now table.now) c × (slice_index c 0 ≡ 1)) }
    ensures after { AfterWrites D.Disk (5 + div_ceil (1 + first_gate library.now table.now) (length buffer.old)) disk.old disk.new result }
{
    bank_of(BankFormat::Two(size), 0).start(disk, buffer, library, table)?;
    disk.write_at(SELECTOR, &[0])?;
    flip(disk, 0, 1)
}

/// Makes `disk` a store of `library` with no objects and two banks of `size` bytes each (20,971,520
/// to 1,073,741,824). The old contents of the disk are lost.
///
/// Errors: `TooSmall` and `Memory` before the first call of the disk; `Device`. A crash leaves the
/// old contents except for the first byte, an unformatted disk, or the new store.
pub fn format<D: Disk>(
    alloc: Global,
    disk: &mut D,
    library: &[u8],
    size: u32,
) -> Result<(), FormatFault>
    requires short { length library.now ≤ max_library_bytes }
    requires least { least_bank_bytes ≤ size }
    requires most { size ≤ most_bank_bytes }

    ensures any_moment { IsTrue (D.is_honest disk.old)
        → CrashInvariant D.moment D.image_since disk.old disk.new (IsFormatting size (D.image disk.old) library.now) }
    ensures done { OnOk result (IsTrue (D.is_honest disk.old) → (c : List ℕ) → D.image disk.new c
        → IsStoreAt (Two size) 0 (first_gate library.now first_table) library.now first_table c) }
    ensures small { RefusesSmall D.Disk FormatFault.TooSmall size disk.old disk.new result }
    ensures memory { IsErrOf result FormatFault.Memory → disk.new ≡ disk.old }
    ensures after { AfterAttempt D.Disk FormatFault.Device (format_calls library.now) disk.old disk.new result }
{
    if disk.size() < BankFormat::Two(size).disk_bytes() {
        return Err(FormatFault::TooSmall);
    }
    let Ok(mut buffer) = buffer(alloc) else {
        return Err(FormatFault::Memory);
    };
    let table = Table::new(alloc);
    close(disk).map_err(FormatFault::Device)?;
    fill(disk, &mut buffer, library, &table, size).map_err(FormatFault::Device)
}
