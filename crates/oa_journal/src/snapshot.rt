//! Reading the snapshot of a bank in stretches. Memory besides the table is one stretch, or twice
//! the largest cell.
ghost use Rattle.std.specs.Prelude.{◌≡◌, ◌+◌, ◌*◌, ◌^◌, ◌<◌, ◌≤◌, ◌++◌, ℕ, IsTrue, [], length, OnOk, IfOk, IsErrOf};
ghost use Rattle.std.specs.Int.{div_ceil};
ghost use Rattle.oa_journal.specs.declared.bank.BankFault.{BankFault};
ghost use Rattle.oa_image.specs.promise.Tables.{table, table_image};
ghost use Rattle.oa_journal.specs.BankCalls.{BodyWithin};
ghost use Rattle.oa_journal.specs.Reads.{AfterReads};
ghost use Rattle.oa_journal.specs.Snapshots.{stretch_bytes, FindsSnapshot, HasNoImage, PassesStretch, ReadsBehind};
ghost use Rattle.oa_table.specs.promise.Tables.{TableValue};

use crate::BankFault;
use oa_disk::Disk;
use oa_image::TableReader;
use oa_table::Table;
use std::alloc::Global;

/// The number of bytes that are read at once, unless a part of the encoding is longer. A block of
/// this size goes back to the system when it is freed.
const STRETCH: usize = 131_072;

/// Returns how many of the `left` bytes to read next: at least `STRETCH`, and at least the `held`
/// bytes of the window, but no more than `left`.
fn stretch(held: usize, left: usize) -> usize
    ensures most { result ≤ left }
    ensures least { result < left → stretch_bytes ≤ result }
    ensures some { 0 < left → 0 < result }
{
    held.max(STRETCH).min(left)
}

/// Reads `count` bytes of a disk from place `at` on, and appends them to a window. Errors:
/// `Memory`, `Device`.
fn read_behind<D: Disk>(
    disk: &mut D,
    at: u64,
    window: &mut Vec<u8>,
    count: usize,
) -> Result<(), BankFault>
    requires inside { at + count ≤ D.size_of disk.old }
    requires few { length window.old.items + count < 2 ^ 32 }

    ensures behind { OnOk result (ReadsBehind D.Disk at count window.old.items window.new.items disk.old disk.new) }
    ensures undamaged { (place : ℕ) → IsErrOf result (BankFault.Damaged place) → ⊥ }

    ensures after { AfterReads D.Disk 2 disk.old disk.new result }
{
    let held = window.len();
    window.resize(held + count, 0)?;
    disk.read_at(at, &mut window[held..])?;
    Ok(())
}

/// Passes the window to a reader, and keeps the bytes that the reader does not consume. Err:
/// `Memory`.
fn hand_over(reader: &mut TableReader, window: &mut Vec<u8>) -> Result<(), BankFault>
    ensures all { OnOk result (reader.new ++ window.new.items ≡ reader.old ++ window.old.items) }
    ensures whole { OnOk result ((first : TableValue) → table.Is first → reader.old ++ window.old.items ≡ table_image first
        → window.new.items ≡ []) }
    ensures memory { (fault : BankFault) → IsErrOf result fault → fault ≡ BankFault.Memory }
{
    let taken = reader.take(window)?;
    window.drain(..taken);
    Ok(())
}

/// Reads the next stretch of the `left` bytes before place `end`, and passes it to a reader.
/// Returns how many bytes are left. Errors: `Memory`, `Device`.
fn read_stretch<D: Disk>(
    disk: &mut D,
    end: u64,
    left: usize,
    window: &mut Vec<u8>,
    reader: &mut TableReader,
) -> Result<usize, BankFault>
    requires some { 0 < left }
    requires before { left ≤ end }
    requires inside { end ≤ D.size_of disk.old }
    requires few { length window.old.items + left < 2 ^ 32 }

    ensures passes { IfOk result (λ next. PassesStretch D.Disk end left (reader.old ++ window.old.items) reader.new window.new.items
        disk.old disk.new next) }
    ensures undamaged { (place : ℕ) → IsErrOf result (BankFault.Damaged place) → ⊥ }

    ensures after { AfterReads D.Disk 2 disk.old disk.new result }
{
    let count = stretch(window.len(), left);
    read_behind(disk, end - left as u64, window, count)?;
    hand_over(reader, window)?;
    Ok(left - count)
}

/// Reads the table whose encoding is the `count` bytes of a disk from place `at` on. Errors:
/// `Damaged(at)` if they encode no table; `Memory`; `Device`.
pub(crate) fn read_snapshot<D: Disk>(
    alloc: Global,
    disk: &mut D,
    at: u64,
    count: u32,
) -> Result<Table, BankFault>
    requires lies { BodyWithin (D.size_of disk.old) at count }

    ensures found { IfOk result (λ first. FindsSnapshot D.Disk at count disk.old disk.new first) }
    ensures damaged { (place : ℕ) → IsErrOf result (BankFault.Damaged place)
        → (place ≡ at) × (IsTrue (D.is_honest disk.new) → HasNoImage (D.contents disk.old) at count) }

    ensures after { AfterReads D.Disk (2 * div_ceil count stretch_bytes) disk.old disk.new result }
{
    let end = at + u64::from(count);
    let mut left = count as usize;
    let mut window = Vec::new(alloc);
    let mut reader = TableReader::new(alloc);
    'stretches: while left > 0 {
        left = read_stretch(disk, end, left, &mut window, &mut reader)?;
    }
    if !window.is_empty() {
        return Err(BankFault::Damaged(at));
    }
    reader.finish().ok_or(BankFault::Damaged(at))
}
