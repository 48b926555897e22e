//! Switching to the other bank.
ghost use Rattle.std.specs.Prelude.{◌≡◌, ◌+◌, ◌-◌, ◌<◌, length, IfOk, true, false};
ghost use Rattle.std.specs.Int.{div_ceil};
ghost use Rattle.oa_disk.specs.After.{AfterWrites, Leaves};
ghost use Rattle.oa_image.specs.promise.Tables.{is_numbered};
ghost use Rattle.oa_table.specs.promise.Tables.{unlocked_table};
ghost use Rattle.oa_journal.specs.Append.{IsAt};
ghost use Rattle.oa_journal.specs.promise.Bank.{first_gate};
ghost use Rattle.oa_journal.specs.declared.shape.BankFormat.TheVariants.{Two};
ghost use Rattle.oa_store.specs.Changes.{IsMove, IsMoved};
ghost use Rattle.oa_store.specs.promise.Stores.{body_place, head_place};
ghost use Rattle.oa_store.specs.Stores.{BankWithin};

use crate::head::SELECTOR;
use crate::reading::bank_of;
use oa_disk::{DeviceFault, Disk, flip};
use oa_journal::{Bank, BankFormat};
use oa_table::Table;

/// Writes the bank that is not `chosen`, in format 2 with a body of `size` bytes: this library,
/// this table and no groups. Then it writes the selector that names this bank, and returns the
/// bank. Allocates nothing. Err: a call of the device failed.
pub(crate) fn switch_to<D: Disk>(
    disk: &mut D,
    buffer: &mut [u8],
    chosen: u8,
    size: u32,
    library: &[u8],
    table: &Table,
) -> Result<Bank, DeviceFault>
    requires some { 0 < length buffer.old }
    requires lies { BankWithin (D.size_of disk.old) (Two size) chosen }
    requires fits { first_gate library.now table.now < size }
    requires numbered { is_numbered table.now ≡ true }

    ensures leaves { Leaves D.Disk
        (IsMove chosen size (first_gate library.now table.now) library.now (unlocked_table table.now))
        (IsMoved chosen size (first_gate library.now table.now) library.now (unlocked_table table.now)) disk.old disk.new result }
    ensures bank { IfOk result (IsAt (Two size) (head_place (1 - chosen)) (body_place (Two size) (1 - chosen))
        (first_gate library.now table.now) false) }
    ensures buffer { length buffer.new ≡ length buffer.old }
    // (at most one call for the head, one for each piece of the body, a sync, the selector and a
    // sync)
    ensures after { AfterWrites D.Disk (4 + div_ceil (1 + first_gate library.now table.now) (length buffer.old)) disk.old disk.new result }
{
    let other = 1 - chosen;
    let mut bank = bank_of(BankFormat::Two(size), other);
    bank.start(disk, buffer, library, table)?;
    flip(disk, SELECTOR, other)?;
    Ok(bank)
}
